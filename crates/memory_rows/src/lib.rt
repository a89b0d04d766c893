//! Tests of sorted runs and memtables, by their public calls.
#![tactic(auto)]

#[cfg(test)]
mod tests;
