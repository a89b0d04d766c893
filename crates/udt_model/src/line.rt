//! Lines of a transcript.

use crate::event::Event;
use crate::reply::Reply;
use ts_key::{Form, Name, Ts};

/// Who makes an event.
#[derive(Clone, Copy, Debug, PartialEq, Eq)]
pub enum Who {
    /// A client, from 1 on.
    Client(u32),
    Flusher,
    Compactor,
    Runner,
}

/// The place of a line: the number of its event, or the place `sub` from 1 on behind its actor's event `number`, which
/// is 0 before the actor's first.
#[derive(Clone, Copy, Debug, PartialEq, Eq)]
pub struct Mark {
    pub number: u64,
    pub sub: u32,
}

/// A line of a transcript: an event, who made it, and the reply.
#[derive(Debug, Drop)]
pub struct Line {
    pub mark: Mark,
    pub who: Who,
    pub event: Event,
    pub reply: Reply,
}

/// A family of the store, with its history floor.
#[derive(Debug, Drop)]
pub struct FamilyHead {
    pub name: Name,
    pub form: Form,
    pub floor: Ts,
}
