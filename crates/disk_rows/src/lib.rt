//! Tests of the public calls of the outside and of gate logs.
#![tactic(auto)]

#[cfg(test)]
mod tests;
