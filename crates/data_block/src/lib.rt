//! One block of a table: written entry by entry, read exactly, looked up and walked.
#![tactic(auto)]

pub mod block;
pub mod cursor;
mod entry;
mod fields;
pub mod gather;
mod index;
mod laws;
mod region;
mod search;
mod tail;
pub mod writer;

pub use block::{Block, BlockFault};
pub use cursor::BlockCursor;
pub use gather::{BlockCut, Gathering};
pub use laws::{blocks_are_unique, coming_after_sorts, faults_are_right, faults_are_single};
pub use writer::{BLOCK_TARGET, BlockWriter, RESTART_INTERVAL};

/// Memory ran out.
pub type NoMemory = std::alloc::AllocError;
