//! Tests of the public calls of blocks.
#![tactic(auto)]

#[cfg(test)]
mod tests;
