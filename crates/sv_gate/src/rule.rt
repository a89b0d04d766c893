//! The rule of a gate's table, and what each of its steps tells. No value of these types is made but `Content`.
use crate::shown::{Origin, Shown};
use atomic_table::{Join, Play, Split, TableRule};
use std::collections::LinkedList;
use std::marker::{Brand, PhantomData};

/// What a slot holds: nothing, while a seat has its value.
pub enum Content<F, C> {
    Out,
    Front(F),
    Commit(C),
}

/// What a seat knows.
pub struct Knowledge<F, C, E> {
    /// What its gate began with. A seat that was joined to another has none.
    pub origin: Option<Origin<F, C>>,
    /// The height that its gate began with.
    pub base: u64,
    /// Its part of the gate's seats.
    pub weight: u64,
    /// The entries that were made with it, each beside its number, in ascending order.
    pub own: LinkedList<(u64, E)>,
    /// The history, as far as it has seen it.
    pub seen: LinkedList<E>,
    /// Beginnings of the history that it heard of from another seat.
    pub heard: LinkedList<LinkedList<E>>,
    pub has_commit: bool,
    pub has_front: bool,
    /// It has the commit, saw a height below 2^63 meanwhile, and has made no entry since.
    pub has_room: bool,
}

/// The entry of one step. Each call picks it.
pub trait Entering<E> {
    ghost use Rattle.std.specs.Prelude.{List};

    /// A list of this one entry.
    ghost entries: { List E };
}

impl<E> Entering<E> for Brand {
    ghost use Rattle.std.specs.Prelude.{[]};

    ghost entries = { [] };
}

/// How much of its weight a seat gives to a new one. Each call picks it.
pub trait Weighing {
    ghost use Rattle.std.specs.Prelude.{ℕ};

    ghost weight: { ℕ };
}

impl Weighing for Brand {
    ghost weight = { 0 };
}

/// There is one legal history for all threads.
pub struct OneHistory;

impl<C, F: Shown<C>> TableRule<Content<F, C>, Knowledge<F, C, F::Entry>, Origin<F, C>>
    for OneHistory {
    ghost use Rattle.sv_gate.specs.Rule.{IsOneHistory};
    ghost use Rattle.sv_gate.specs.Knowledge.{first_knowledge};

    ghost holds = { IsOneHistory F.follows F.front_shows F.commit_shows F.is_light };

    ghost first = { first_knowledge };
}

/// A step on the front's lock, which takes it where it is free.
pub struct TakesFront;

impl<C, F: Shown<C>> Play<Content<F, C>, Knowledge<F, C, F::Entry>> for TakesFront {
    ghost use Rattle.sv_gate.specs.Steps.{TookFront};

    ghost then = { TookFront F.follows F.front_shows F.commit_shows F.is_light };
}

/// A step on the commit's lock, which takes it where it is free.
pub struct TakesCommit;

impl<C, F: Shown<C>> Play<Content<F, C>, Knowledge<F, C, F::Entry>> for TakesCommit {
    ghost use Rattle.sv_gate.specs.Steps.{TookCommit};

    ghost then = { TookCommit F.follows F.front_shows F.commit_shows F.is_light };
}

/// The step that frees the front's lock.
pub struct GivesFront;

impl<F, C, E> Play<Content<F, C>, Knowledge<F, C, E>> for GivesFront {
    ghost use Rattle.sv_gate.specs.Steps.{GaveFront};

    ghost then = { GaveFront };
}

/// The step that frees the commit's lock.
pub struct GivesCommit;

impl<F, C, E> Play<Content<F, C>, Knowledge<F, C, E>> for GivesCommit {
    ghost use Rattle.sv_gate.specs.Steps.{GaveCommit};

    ghost then = { GaveCommit };
}

/// A look at the height by the seat that has the front.
pub struct SeesHeight;

impl<F, C, E> Play<Content<F, C>, Knowledge<F, C, E>> for SeesHeight {
    ghost use Rattle.sv_gate.specs.Steps.{SawHeight};

    ghost then = { SawHeight };
}

/// The step of an event: the height rises by one.
pub struct Enters<J> {
    entry: PhantomData<J>,
}

impl<F, C, E, J: Entering<E>> Play<Content<F, C>, Knowledge<F, C, E>> for Enters<J> {
    ghost use Rattle.sv_gate.specs.Steps.{Entered};

    ghost then = { Entered J.entries };
}

/// How a seat is split.
pub struct SplitsOff<J> {
    weight: PhantomData<J>,
}

impl<F, C, E, J: Weighing> Split<Knowledge<F, C, E>> for SplitsOff<J> {
    ghost use Rattle.sv_gate.specs.Knowledge.{after_split, split_off};

    ghost left = { after_split J.weight };

    ghost right = { split_off J.weight };
}

/// How two seats are joined.
pub struct JoinsSeats;

impl<F, C, E> Join<Knowledge<F, C, E>> for JoinsSeats {
    ghost use Rattle.sv_gate.specs.Knowledge.{just_joined, spent};

    ghost both = { just_joined };

    ghost spent = { spent };
}

/// A look after a join: one history begins with all that was heard of.
pub struct Learns;

impl<F, C, E> Play<Content<F, C>, Knowledge<F, C, E>> for Learns {
    ghost use Rattle.sv_gate.specs.Steps.{Learned};

    ghost then = { Learned };
}
