//! The commit path of a store: its writes, raises and syncs go to a log and a manifest, so that a crash can't tear them.
#![tactic(auto)]

mod admission;
mod engine;
mod fault;
mod install;
mod job_files;
mod latest;
mod laws;
mod older;
mod seal;
mod unflushed;

pub use engine::Engine;
pub use fault::EngineFault;
pub use laws::{engines_hold_besides, engines_leave_outcomes};
pub use seal::Sealed;

/// Memory ran out.
pub type NoMemory = std::alloc::AllocError;
