//! Tests of the registered snapshots and of stripping, by their public calls.
#![tactic(auto)]

#[cfg(test)]
mod tests;
