//! The write-ahead log: batches of write operations, numbered by their first sequences, in the frames of a gate log.
//!
//! A batch waits in memory until a sync puts all that wait into one frame. So a crash leaves the batches up to some sync.
#![tactic(auto)]

mod body;
mod fault;
mod frames;
mod head;
mod numbered;
mod record;
mod sequence;
mod sizes;
mod wal;

pub use fault::ReplayFault;
pub use numbered::Numbered;
pub use sizes::Sizes;
pub use wal::{PENDING_LIMIT, Wal};

/// Memory ran out.
pub type NoMemory = std::alloc::AllocError;
