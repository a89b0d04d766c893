//! Memtables: the versions of one family that are in memory, as a list of sorted runs that copies share.
//!
//! A memtable never changes: a write makes a new one beside it, which shares the runs that it doesn't merge. For n versions
//! a write of one version moves log2 n versions on the average, and a look-up asks at most log2 n runs.
#![tactic(auto)]

pub mod limits;
mod mem;
mod runs;

pub use limits::BYTES_LIMIT;
pub use mem::Mem;
pub use runs::{later_of, reaches};
