//! What a front, a commit and an event mean. The gate knows its values by these traits alone.
ghost use Rattle.std.specs.Prelude.{ℕ, List};

use std::snapshot::Snapshot;

/// What a gate began with. The two values are for the proofs alone.
pub struct Origin<F, C> {
    /// The number of the event before the first one.
    pub height: u64,
    /// The weight of all seats together.
    pub seats: u32,
    pub front: Snapshot<F>,
    pub commit: Snapshot<C>,
}

impl<F, C> Drop for Origin<F, C> {
    fn drop(self) {
        let Origin {
            height: _,
            seats: _,
            front: _,
            commit: _,
        } = self;
    }
}

/// What a front shows of a history, and a commit of the type `C` beside it. The trait has no function.
pub trait Shown<C> {
    ghost use Rattle.std.specs.Prelude.{ℕ, List, [], ◌∷◌, ◌++◌, Option};
    ghost use Rattle.sv_gate.specs.declared.shown.Origin.{Origin};

    /// What the history is a list of: an event with its reply. No value of it is made.
    type Entry;

    /// Whether an entry may follow a list of entries.
    ghost follows: { Origin Self C → List Self.Entry → Self.Entry → Type 0 };
    /// Whether a front shows such a list.
    ghost front_shows: { Origin Self C → Self → List Self.Entry → Type 0 };
    /// Whether a commit shows such a list.
    ghost commit_shows: { Origin Self C → C → List Self.Entry → Type 0 };
    /// Whether a seat may make the entry without the commit.
    ghost is_light: { Self.Entry → Type 0 };
    /// Which earlier number the entry needs in the own list of its seat.
    ghost earlier: { Self.Entry → Option ℕ };
    /// A commit that shows a list shows it also when a light entry follows.
    ghost stays: { (o : Origin Self C) (c : C) (log : List Self.Entry) (e : Self.Entry) → commit_shows o c log → follows o log e → is_light e → commit_shows o c (log ++ e ∷ []) };
}

/// An event that stands for an entry of the history.
pub trait Past {
    type Entry;

    /// The entry.
    ghost entry: { Self → Self.Entry };
}
