//! Which versions a collection keeps: every one that a read at or above the history floor may see, now or with a snapshot.
//!
//! Versions come in the stored order, so those of a key come the newest first, and only those before a version can hide it. All
//! timestamps up to the floor are one class, each one above it is a class of its own, and what hides a version is of its
//! class. So the first of a class is kept, and another one exactly where a snapshot lies between its sequence and the least
//! one before it in the class. Deletes that have no use are those at the end of what is kept of a key.
#![tactic(auto)]

mod collector;
mod vectors;

pub use collector::Collector;
pub use vectors::collect;
