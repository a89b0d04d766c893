//! Tests of scans over super versions, by their public calls.
#![tactic(auto)]

#[cfg(test)]
mod tests;
