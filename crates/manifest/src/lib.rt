//! The manifest of a folder: the log that says which families a store has, and which logs and tables are live.
//!
//! A manifest is a gate log. Its first frame, the head, names the families; each later frame is an edit. What its frames add up to
//! is its fold.
#![tactic(auto)]

mod fault;
mod fold;
mod folder;
mod head;
mod laws;
mod manifest;
mod reading;

pub use fault::ManifestFault;
pub use head::Head;
pub use laws::fronts_are_manifests;
pub use manifest::Manifest;

/// Memory ran out.
pub type NoMemory = std::alloc::AllocError;
