//! A manifest's log behind its head: its edits folded one after another, and an edit added. It keeps what they add up to.
#![tactic(auto)]

mod fault;
mod log;
mod replay;

pub use fault::EditsFault;
pub use log::EditLog;
pub use replay::fold_edits;

/// Memory ran out.
pub type NoMemory = std::alloc::AllocError;
