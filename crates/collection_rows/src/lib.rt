//! Tests of what a collection keeps, by its public calls.
#![tactic(auto)]

#[cfg(test)]
mod tests;
