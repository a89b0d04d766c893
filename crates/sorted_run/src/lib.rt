//! Sorted runs: versions of one family in the stored order, with look-ups and merging.
//!
//! A run never changes. What it holds is shared with its copies: a version that is taken into another run shares the bytes
//! of its key and its value.
#![tactic(auto)]

mod hints;
mod merging;
mod run;
mod search;
mod steps;

pub use run::Run;
pub use steps::Steps;
