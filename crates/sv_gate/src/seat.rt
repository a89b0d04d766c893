//! Seats, and what is taken and given with them.
ghost use Rattle.std.specs.Prelude.{◌≡◌, ℕ, ◌<◌};
ghost use Rattle.sv_gate.specs.Knowledge.{carried};

use crate::rule::{Content, Knowledge};
use atomic_table::Seat;

/// The right to use a gate. It shows the entries that were made with it, and how much of the history it has seen. It must be
/// joined to another or closed.
pub struct GateSeat<F, C, E> {
    pub(crate) inner: Seat<Content<F, C>, Knowledge<F, C, E>>,
    pub(crate) weight: u32,
    pub ghost weighs: { inner.me.0.weight ≡ weight },
    pub ghost lives: { 0 < inner.me.0.weight },
    pub ghost carries: { inner.me.1 ≡ carried inner.me.0 },
}

impl<F, C, E> GateSeat<F, C, E> {
    ghost use Rattle.sv_gate.specs.Gates.{seat_weight};

    /// The seat's part of the seats that its gate was made with.
    pub fn weight(&self) -> u32
        ensures { result ≡ seat_weight self.now }
    {
        self.weight
    }
}

/// A front that was taken. It must be given back.
pub struct Held<F> {
    pub front: F,
}

/// A commit that was taken. It must be given back.
pub struct HeldCommit<C> {
    pub commit: C,
}

/// The number of an event.
#[derive(Debug, Drop, Clone, Copy, PartialEq, Eq)]
pub struct Receipt {
    pub number: u64,
}
