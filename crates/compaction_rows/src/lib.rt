//! Tests of compactions, by their public calls.
#![tactic(auto)]

#[cfg(test)]
mod tests;
