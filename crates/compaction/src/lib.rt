//! Compactions: which tables of a family are taken and to which level, and the tables that they make.
#![tactic(auto)]

mod due;
mod feed;
mod fill;
mod laws;
mod leveled;
mod plans;
mod run;
mod sizes;
mod spans;

pub use laws::plans_are_closed;
pub use plans::{pick, whole};
pub use run::run_compaction;
pub use sizes::{LEVEL0_TABLES, LEVEL1_BYTES, LOWEST_LEVEL, TABLE_BYTES};
pub use super_version::{JobCause, JobFiles, Output, Plan, TableOut};

/// Memory ran out.
pub type NoMemory = std::alloc::AllocError;
