//! Tests of engines, by their public calls: what scripts of calls leave on a disk that fails, and behind a crash.
#![tactic(auto)]

pub mod flushes;
pub mod script;
#[cfg(test)]
mod tests;
