//! Cursors over versions in the stored order, and one over several of them.
//!
//! What scans, flushes and compactions share: a run of a memtable, a table, or several of these are walked up and down by
//! the same calls. Only the making of a cursor takes memory.
#![tactic(auto)]

mod children;
mod cursor;
mod merge;
mod slice;

pub use cursor::{Cursor, Placed};
pub use merge::Merge;
pub use slice::SliceCursor;
