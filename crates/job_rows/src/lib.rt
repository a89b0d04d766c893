//! Tests of jobs, by their public calls.
#![tactic(auto)]

#[cfg(test)]
mod tests;
