//! The manifest of a folder: the log that says which families a store has, and which logs and tables are live.
//!
//! A manifest is a gate log. Its first frame, the head, names the families; later frames will be edits. What its frames add up to
//! is its fold.
#![tactic(auto)]

mod edit;
mod fault;
mod fold;
mod folder;
mod head;
mod manifest;
mod reading;

pub use edit::{Edit, FamilyEdit, TableAt};
pub use fault::ManifestFault;
pub use fold::{FamilyFold, Folded};
pub use head::Head;
pub use manifest::Manifest;

/// Memory ran out.
pub type NoMemory = std::alloc::AllocError;
