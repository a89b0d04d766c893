//! Tests of stores in folders, by their public calls.
#![tactic(auto)]

#[cfg(test)]
mod tests;
