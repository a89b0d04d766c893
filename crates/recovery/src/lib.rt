//! Stores in folders: how one is opened, whose manifest names its live logs and tables, and how a new one is made.
//!
//! A folder that is opened is only read. One in which a store is made has none, or all of it, at each moment.
#![tactic(auto)]

mod fault;
mod file;
mod gathered;
mod laws;
mod live;
mod logs;
mod making;
mod meeting;
mod opening;
mod tables;
mod version;

pub use fault::{InitFault, OpenFault};
pub use laws::{BlockTables, opened_folders_hold, refusals_are_single, standing_folders_open};
pub use making::make_store;
pub use opening::{Parts, open_store};

/// Memory ran out.
pub type NoMemory = std::alloc::AllocError;
