//! The store of one client over an engine, with no thread: what each of its events does, and what the store answers to it.
#![tactic(auto)]

mod batch;
mod flushable;
mod flushes;
mod names;
mod reading;
mod refusals;
mod store;

pub use store::Store;

/// Memory ran out.
pub type NoMemory = std::alloc::AllocError;
