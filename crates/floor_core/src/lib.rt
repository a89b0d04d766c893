//! The core of the store: the machine of all its events over lists, in definitions (`specs/`) and in code, and its laws over
//! every list of events. Cost is no aim: it is run beside the store in tests.
#![tactic(auto)]

mod compacting;
mod event;
mod flushing;
mod laws;
mod lists;
mod machine;
mod parts;

pub use event::{CoreEvent, CoreReply};
pub use laws::{core_is_safe, core_refuses_exactly, jobs_end_by_their_start, numbers_are_kept};
pub use machine::Core;
pub use udt_model::{Items, Piece, Row};
