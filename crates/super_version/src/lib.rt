//! What a reader takes and keeps: the memtables, the tables and the floors of all families at one moment, and the changes
//! to them. Nothing of a super version ever changes: each change makes a new one beside it, which shares with the old one
//! whatever the change doesn't touch. Besides, the types of what jobs take and give.
#![tactic(auto)]

pub mod family;
pub mod jobs;
pub mod laws;
mod levels;
pub mod live_table;
mod newest;
pub mod shared;
pub mod version;
mod writing;

pub use family::{FamilyState, LEVELS};
pub use jobs::{JobCause, JobFiles, Output, Plan, TableOut};
pub use laws::{levels_stay_in_order, numbers_stay, reads_stay};
pub use live_table::LiveTable;
pub use shared::SharedList;
pub use version::SuperVersion;

/// Memory ran out.
pub type NoMemory = std::alloc::AllocError;
