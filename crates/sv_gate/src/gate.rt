//! The gate and its calls.
ghost use Rattle.std.specs.Prelude.{◌≡◌, ℕ, ◌+◌, ◌^◌, ◌<◌, ◌≤◌, true, false, [], ◌∷◌, ◌++◌, IfOk, IfErr, OnErr, IfSome};
ghost use Rattle.sv_gate.specs.Histories.{HasNumber, StartsWith, IsLater, AreLegal, numbered};
ghost use Rattle.sv_gate.specs.Knowledge.{IsOrigin, IsInOrder, first_knowledge, with_front, without_front, with_commit, without_commit, with_entry, with_look, after_split, split_off, after_join};

use crate::rule::{Content, Knowledge, OneHistory};
use crate::seat::{GateSeat, Held, HeldCommit, Receipt};
use crate::shown::{Origin, Past, Shown};
use crate::{NoMemory, steps};
use atomic_table::{Refused, Table};
use std::alloc::Global;
use std::marker::Brand;
use std::snapshot::Snapshot;
use std::sync::Wait;

/// A front and a commit, each behind a lock of its own, and the height: the number of the last event.
pub struct Gate<F: Shown<C>, C> {
    table: Table<Content<F, C>, Knowledge<F, C, F::Entry>, Origin<F, C>, OneHistory, Global>,
    ghost sized: { (table.shared.table_id.words ≡ 3) × (table.shared.table_id.slots ≡ 2) },
    ghost few: { table.shared.key.seats < 2 ^ 32 },
}

/// Memory ran out, and both values come back.
#[derive(Drop)]
pub struct GateRefused<F, C> {
    pub front: F,
    pub commit: C,
}

impl<C, F: Shown<C>> Gate<F, C> {
    ghost use Rattle.sv_gate.specs.Gates.{origin, known, seat_weight, own, seen, seen_height, HoldsNothing, IsSeatOf, Knows};

    /// A gate whose next event has the number after `height`, and its first seat, which has the weight of all `seats`. The
    /// front and the commit show the empty list. `Err` comes where memory ran out, and hands both back.
    pub fn new_at(
        alloc: Global,
        height: u64,
        seats: u32,
        front: F,
        commit: C,
    ) -> Result<(Gate<F, C>, GateSeat<F, C, F::Entry>), GateRefused<F, C>>
        requires height { height ≤ 2 ^ 63 }
        requires seats { 0 < seats }
        requires front { (o : _) → IsOrigin height seats front commit o → F.front_shows o front [] }
        requires commit { (o : _) → IsOrigin height seats front commit o → F.commit_shows o commit [] }
        ensures origin { IfOk result (λ r. IsOrigin height seats front commit (origin r.0)) }
        ensures seat { IfOk result (λ r. Knows r.0 r.1 (first_knowledge (origin r.0))) }
        ensures refused { IfErr result (λ r. (r.front ≡ front) × (r.commit ≡ commit)) }
    {
        let Ok(mut slots) = Vec::with_capacity(alloc, 2) else {
            return Err(GateRefused { front, commit });
        };
        let origin = Origin {
            height,
            seats,
            front: Snapshot::of(&front),
            commit: Snapshot::of(&commit),
        };
        slots.push_reserved(Content::Front(front));
        slots.push_reserved(Content::Commit(commit));
        match Table::new(alloc, &[0, 0, height], slots, &origin) {
            Ok((table, inner)) => Ok((
                Gate { table },
                GateSeat {
                    inner,
                    weight: seats,
                },
            )),
            Err(Refused { slots }) => Err(unpacked(slots)),
        }
    }

    /// Splits off a seat of this weight, at least 1 and less than the seat's. It has made nothing, has seen as much, and
    /// holds nothing; the old seat stays as it was but for its weight. Where memory ran out, it all stays. It takes no
    /// memory today.
    pub fn split(
        &self,
        alloc: Global,
        seat: &mut GateSeat<F, C, F::Entry>,
        weight: u32,
    ) -> Result<GateSeat<F, C, F::Entry>, NoMemory>
        requires gate { IsSeatOf self.now seat.old }
        requires weight { (0 < weight) × (weight < seat_weight seat.old) }
        ensures old { IfOk result (λ new. Knows self.now seat.new (after_split weight (known seat.old))) }
        ensures new { IfOk result (λ new. Knows self.now new (split_off weight (known seat.old))) }
        ensures refused { OnErr result (Knows self.now seat.new (known seat.old)) }
    {
        let _ = alloc;
        let inner = steps::split::<C, F, Brand>(&self.table.shared, &mut seat.inner, weight);
        seat.weight -= weight;
        Ok(GateSeat { inner, weight })
    }

    /// Joins another seat, which holds nothing, to this one. It gets the other's weight, its own list has the entries of
    /// both by number, and it has seen the longer list of the two, which begins with the other.
    pub fn join(&self, seat: &mut GateSeat<F, C, F::Entry>, other: GateSeat<F, C, F::Entry>)
        requires gate { IsSeatOf self.now seat.old × IsSeatOf self.now other }
        requires empty { HoldsNothing other }
        ensures seat { Knows self.now seat.new (after_join (known seat.old) (known other)) }
        ensures seen { StartsWith (seen seat.new) (seen seat.old) × StartsWith (seen seat.new) (seen other) }
        ensures order { IsInOrder (known seat.new) }
    {
        let GateSeat { inner, weight } = other;
        steps::join(&self.table.shared, &mut seat.inner, inner);
        seat.weight += weight;
    }

    /// Waits until the commit is free, and takes it. The seat has seen the whole history then, and the commit shows that.
    pub fn take_commit<R: Wait>(&self, rt: &R, seat: &mut GateSeat<F, C, F::Entry>) -> HeldCommit<C>
        requires gate { IsSeatOf self.now seat.old }
        requires empty { HoldsNothing seat.old }
        ensures seat { Knows self.now seat.new (with_commit (known seat.old) (seen seat.new)) }
        ensures later { StartsWith (seen seat.new) (seen seat.old) }
        ensures order { IsInOrder (known seat.new) }
        ensures shown { F.commit_shows (origin self.now) result.commit (seen seat.new) }
        ensures legal { AreLegal (F.follows (origin self.now)) [] (seen seat.new) }
    {
        let commit = steps::take_commit(rt, &self.table.shared, &mut seat.inner);
        HeldCommit { commit }
    }

    /// Gives the commit back, which shows what the seat has seen. A seat that holds both gives the front back first.
    pub fn give_commit(&self, seat: &mut GateSeat<F, C, F::Entry>, held: HeldCommit<C>)
        requires gate { IsSeatOf self.now seat.old }
        requires has { ((known seat.old).has_front ≡ false) × ((known seat.old).has_commit ≡ true) }
        requires shown { F.commit_shows (origin self.now) held.commit (seen seat.old) }
        ensures seat { Knows self.now seat.new (without_commit (known seat.old)) }
    {
        let HeldCommit { commit } = held;
        steps::give_commit(&self.table.shared, &mut seat.inner, commit);
    }

    /// Waits until the front is free, and takes it. The seat has seen the whole history then, and the front shows that.
    /// A seat that has the commit finds only light entries of others since it took it; and where it saw a height with room
    /// since its last entry, there is room still.
    pub fn take_front<R: Wait>(&self, rt: &R, seat: &mut GateSeat<F, C, F::Entry>) -> Held<F>
        requires gate { IsSeatOf self.now seat.old }
        requires free { (known seat.old).has_front ≡ false }
        ensures seat { Knows self.now seat.new (with_front (known seat.old) (seen seat.new)) }
        ensures later { IsLater F.is_light (known seat.old).has_commit (seen seat.old) (seen seat.new) }
        ensures order { IsInOrder (known seat.new) }
        ensures shown { F.front_shows (origin self.now) result.front (seen seat.new) }
        ensures legal { AreLegal (F.follows (origin self.now)) [] (seen seat.new) }
        ensures room { (known seat.old).has_room ≡ true → seen_height seat.new < 2 ^ 63 }
    {
        let front = steps::take_front(rt, &self.table.shared, &mut seat.inner);
        Held { front }
    }

    /// The height: the number of the last event, at most 2^63. While the front is held, nobody makes an event.
    pub fn height(&self, seat: &mut GateSeat<F, C, F::Entry>, held: &Held<F>) -> u64
        requires gate { IsSeatOf self.now seat.old }
        requires has { (known seat.old).has_front ≡ true }
        ensures height { result ≡ seen_height seat.old }
        ensures room { result ≤ 2 ^ 63 }
        ensures seat { Knows self.now seat.new (with_look (known seat.old)) }
    {
        let _ = held;
        steps::see_height(&self.table.shared, &mut seat.inner)
    }

    /// Gives the front back without an event. It shows the same list as before.
    pub fn give_front(&self, seat: &mut GateSeat<F, C, F::Entry>, held: Held<F>)
        requires gate { IsSeatOf self.now seat.old }
        requires has { (known seat.old).has_front ≡ true }
        requires shown { F.front_shows (origin self.now) held.front (seen seat.old) }
        ensures seat { Knows self.now seat.new (without_front (known seat.old)) }
    {
        let Held { front } = held;
        steps::give_front(&self.table.shared, &mut seat.inner, front);
    }

    /// Makes an event and gives the front back, which shows its entry. The entry has the number after the height, and
    /// stands last in the seat's own list and in what it has seen. It follows what was seen; its earlier number, if it
    /// has one, is in the own list. A seat without the commit needs a light entry, and leaves one number unused.
    pub fn give_front_with<E: Past<Entry = F::Entry>>(
        &self,
        seat: &mut GateSeat<F, C, F::Entry>,
        held: Held<F>,
        event: &E,
    ) -> Receipt
        requires gate { IsSeatOf self.now seat.old }
        requires has { (known seat.old).has_front ≡ true }
        requires room { seen_height seat.old < 2 ^ 63 }
        requires alone { (known seat.old).has_commit ≡ false → (seen_height seat.old + 1 < 2 ^ 63) × F.is_light (E.entry event.now) }
        requires legal { F.follows (origin self.now) (seen seat.old) (E.entry event.now) }
        requires earlier { IfSome (F.earlier (E.entry event.now)) (HasNumber (own seat.old)) }
        requires shown { F.front_shows (origin self.now) held.front (seen seat.old ++ E.entry event.now ∷ []) }
        ensures number { result.number ≡ seen_height seat.old + 1 }
        ensures seat { Knows self.now seat.new (without_front (with_entry (known seat.old) (E.entry event.now))) }
    {
        let Held { front } = held;
        let found = steps::enter::<C, F, E, Brand>(&self.table.shared, &mut seat.inner, event);
        steps::give_front(&self.table.shared, &mut seat.inner, front);
        Receipt { number: found + 1 }
    }

    /// Ends the gate, with a seat that has the whole weight and holds nothing. The seat made and saw the whole history,
    /// and both values show that.
    pub fn close(self, seat: GateSeat<F, C, F::Entry>) -> (F, C)
        requires gate { IsSeatOf self seat }
        requires whole { seat_weight seat ≡ (origin self).seats }
        requires empty { HoldsNothing seat }
        ensures front { F.front_shows (origin self) result.0 (seen seat) }
        ensures commit { F.commit_shows (origin self) result.1 (seen seat) }
        ensures legal { AreLegal (F.follows (origin self)) [] (seen seat) }
        ensures own { own seat ≡ numbered (origin self).height (seen seat) }
        ensures room { seen_height seat ≤ 2 ^ 63 }
    {
        let Gate { table } = self;
        let GateSeat { inner, weight: _ } = seat;
        let mut closed = table.close_with(inner);
        let front = closed.take(0);
        let commit = closed.take(1);
        closed.free();
        let Content::Front(front) = front else {
            unreachable!()
        };
        let Content::Commit(commit) = commit else {
            unreachable!()
        };
        (front, commit)
    }
}

/// The two values, in the order in which they were packed.
fn unpacked<F, C>(mut slots: Vec<Content<F, C>>) -> GateRefused<F, C>
    requires { (f : F) × (c : C) × (slots.items ≡ Content.Front f ∷ Content.Commit c ∷ []) }
    ensures { slots.items ≡ Content.Front result.front ∷ Content.Commit result.commit ∷ [] }
{
    let commit = slots.pop();
    let front = slots.pop();
    slots.destroy_empty();
    let Some(Content::Front(front)) = front else {
        unreachable!()
    };
    let Some(Content::Commit(commit)) = commit else {
        unreachable!()
    };
    GateRefused { front, commit }
}
