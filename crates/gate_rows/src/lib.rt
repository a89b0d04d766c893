//! Tests of the gate by its public calls.
#![tactic(auto)]

#[cfg(test)]
mod tests;
