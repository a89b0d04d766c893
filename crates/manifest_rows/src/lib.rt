//! Tests of the public calls of edits of a manifest.
#![tactic(auto)]

#[cfg(test)]
mod tests;
