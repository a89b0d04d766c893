//! Tests of the public calls of tables.
#![tactic(auto)]

#[cfg(test)]
mod tests;
