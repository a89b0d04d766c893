//! Scans of a range of keys at a timestamp, up and down, over a super version.
#![tactic(auto)]

mod down;
mod held;
pub mod laws;
mod passed;
mod rows;
pub mod scan;
mod source;
mod sources;
mod up;

pub use laws::merged_stands_for_lists;
pub use scan::{Scan, ScanFault};
pub use udt_model::Row;

/// Memory ran out.
pub type NoMemory = std::alloc::AllocError;
