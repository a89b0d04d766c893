//! Tests of the program's commands over folders in memory and real ones, each with its whole output.
#![tactic(auto)]

#[cfg(test)]
mod tests;
