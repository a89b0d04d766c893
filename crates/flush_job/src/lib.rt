//! The flush of memtables into a table, and what it shares with compactions: versions that are taken one by one, and what a
//! collection keeps of them. Neither holds a copy of the versions: beside the table's bytes there are those of one key.
#![tactic(auto)]

mod feed;
mod flush;
mod kept;
mod run_feed;
mod writing;

pub use feed::Feed;
pub use flush::run_flush;
pub use kept::Kept;
pub use super_version::{JobCause, JobFiles, Output, Plan, TableOut};

/// Memory ran out.
pub type NoMemory = std::alloc::AllocError;
