//! Edits of a manifest: what each of its later frames says, and how that is spelled.
#![tactic(auto)]

pub mod edit;
mod fault;
pub mod live_tables;
pub mod read;
pub mod write;

pub use edit::{Edit, FamilyEdit, TableAt};
pub use live_tables::LiveTables;
pub use read::read_edit;
pub use write::write_edit;

/// Memory ran out.
pub type NoMemory = std::alloc::AllocError;
