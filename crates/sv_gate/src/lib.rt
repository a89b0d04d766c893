//! The gate: one history for all threads. Its lock publishes the front and numbers the events.
//!
//! A front and a commit stand behind a lock each, beside the height, the number of the last event. A seat is the right to
//! use a gate; a thread has one of its own. An event is one step of the height, made while its seat has the front. The
//! gate knows what it holds by the trait `Shown` alone.
#![tactic(auto)]

mod gate;
mod lock;
mod rule;
mod seat;
mod shown;
mod steps;

pub use gate::{Gate, GateRefused};
pub use seat::{GateSeat, Held, HeldCommit, Receipt};
pub use shown::{Origin, Past, Shown};

/// Memory ran out.
pub type NoMemory = std::alloc::AllocError;
