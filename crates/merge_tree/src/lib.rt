//! Several cursors over versions in the stored order, walked forward as one.
//!
//! The cursors play a tree of games, which the lowest version wins: a step costs as many comparisons as the tree is high,
//! which is the logarithm of how many cursors there are. `Merge` of `merge_cursor` goes back and seeks too, but compares
//! with all of them at each step.
#![tactic(auto)]

mod games;
mod tree;

pub use tree::MergeTree;
