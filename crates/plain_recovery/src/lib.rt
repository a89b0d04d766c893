//! Stores in folders: how one is opened, and how a new one is made.
//!
//! A folder that is opened is only read. One in which a store is made has none, or all of it, at each moment.
#![tactic(auto)]

mod fault;
mod making;
mod opening;
mod said;

pub use fault::{InitFault, OpenFault};
pub use making::make_store;
pub use opening::{Parts, open_store};

/// Memory ran out.
pub type NoMemory = std::alloc::AllocError;
