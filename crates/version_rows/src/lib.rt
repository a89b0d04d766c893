//! Tests of super versions and of the reads over them, by their public calls.
#![tactic(auto)]

#[cfg(test)]
mod tests;
