//! Tests of keys, lanes and cursors, by their public calls.
#![tactic(auto)]

#[cfg(test)]
mod tests;
