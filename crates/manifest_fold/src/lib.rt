//! What the frames of a manifest add up to: which edits a fold accepts, and what they make of it.
#![tactic(auto)]

pub mod accept;
pub mod body;
pub mod fold;
mod limits;

pub use body::fold_body;
pub use fold::{FamilyFold, Folded};
pub use limits::{FILE_NUMBER_LIMIT, LOWEST_LEVEL};

/// Memory ran out.
pub type NoMemory = std::alloc::AllocError;
