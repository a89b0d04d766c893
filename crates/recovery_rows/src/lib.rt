//! Tests of stores in folders with edits and tables, by their public calls.
#![tactic(auto)]

#[cfg(test)]
mod tests;
