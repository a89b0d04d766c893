//! The steps on a gate's table, over the seat that the table knows.
ghost use Rattle.std.specs.Prelude.{◌≡◌, ℕ, ◌+◌, ◌^◌, ◌<◌, ◌≤◌, true, false, [], ◌∷◌, ◌++◌, length, Some};
ghost use Rattle.sv_gate.specs.Histories.{StartsWith, IsLater, AreLegal, BeginsWithAll};
ghost use Rattle.sv_gate.specs.Knowledge.{carried, with_front, without_front, with_commit, without_commit, height_of, IsInOrder, with_entry, with_look, after_split, split_off, after_join};
ghost use Rattle.sv_gate.specs.Seats.{knowledge, IsOf, IsSameSeat};
ghost use Rattle.sv_gate.specs.Steps.{HasTakenFront, HasTakenCommit};

use crate::lock::{lock, unlock};
use crate::rule::{
    Content, Entering, Enters, GivesCommit, GivesFront, JoinsSeats, Knowledge, Learns, OneHistory,
    SeesHeight, SplitsOff, TakesCommit, TakesFront, Weighing,
};
use crate::shown::{Origin, Past, Shown};
use atomic_table::{Seat, Shared};
use std::sync::Wait;

const COMMIT_LOCK: usize = 0;

const FRONT_LOCK: usize = 1;

const HEIGHT: usize = 2;

const FRONT_SLOT: usize = 0;

const COMMIT_SLOT: usize = 1;

/// Waits for the front's lock.
fn lock_front<C, F: Shown<C>, R: Wait>(
    rt: &R,
    shared: &Shared<Content<F, C>, Knowledge<F, C, F::Entry>, Origin<F, C>, OneHistory>,
    seat: &mut Seat<Content<F, C>, Knowledge<F, C, F::Entry>>,
)
    requires table { IsOf shared.now.table_id shared.now.key seat.old × (shared.now.table_id.words ≡ 3) }
    requires live { 0 < (knowledge seat.old).weight }
    ensures same { IsSameSeat seat.old seat.new }
    ensures taken { HasTakenFront F.follows F.front_shows F.commit_shows F.is_light shared.now.key seat.old.me seat.new.me }
{
    lock::<TakesFront, _, _, _, _, _>(rt, shared, seat, FRONT_LOCK);
}

/// Waits for the front's lock, and takes the front out of its slot.
pub(crate) fn take_front<C, F: Shown<C>, R: Wait>(
    rt: &R,
    shared: &Shared<Content<F, C>, Knowledge<F, C, F::Entry>, Origin<F, C>, OneHistory>,
    seat: &mut Seat<Content<F, C>, Knowledge<F, C, F::Entry>>,
) -> F
    requires table { IsOf shared.now.table_id shared.now.key seat.old × (shared.now.table_id.words ≡ 3) }
    requires live { 0 < (knowledge seat.old).weight }
    ensures same { IsSameSeat seat.old seat.new }
    ensures me { seat.new.me ≡ (with_front (knowledge seat.old) (knowledge seat.new).seen, (0, Content.Out) ∷ seat.old.me.1) }
    ensures later { IsLater F.is_light (knowledge seat.old).has_commit (knowledge seat.old).seen (knowledge seat.new).seen }
    ensures order { IsInOrder (knowledge seat.new) }
    ensures shown { F.front_shows shared.now.key result (knowledge seat.new).seen }
    ensures legal { AreLegal (F.follows shared.now.key) [] (knowledge seat.new).seen }
    ensures room { (knowledge seat.old).has_room ≡ true → height_of (knowledge seat.new) < 2 ^ 63 }
{
    lock_front(rt, shared, seat);
    let content = shared.exchange(seat, FRONT_SLOT, Content::Out);
    let Content::Front(front) = content else {
        unreachable!()
    };
    front
}

/// Puts the front into its slot, and frees its lock.
pub(crate) fn give_front<C, F: Shown<C>>(
    shared: &Shared<Content<F, C>, Knowledge<F, C, F::Entry>, Origin<F, C>, OneHistory>,
    seat: &mut Seat<Content<F, C>, Knowledge<F, C, F::Entry>>,
    front: F,
)
    requires table { IsOf shared.now.table_id shared.now.key seat.old × (shared.now.table_id.words ≡ 3) }
    requires live { 0 < (knowledge seat.old).weight }
    requires has { ((knowledge seat.old).has_front ≡ true) × (seat.old.me.1 ≡ carried (knowledge seat.old)) }
    requires shown { F.front_shows shared.now.key front (knowledge seat.old).seen }
    ensures same { IsSameSeat seat.old seat.new }
    ensures me { seat.new.me ≡ (without_front (knowledge seat.old), carried (without_front (knowledge seat.old))) }
{
    let content = shared.exchange(seat, FRONT_SLOT, Content::Front(front));
    let Content::Out = content else {
        unreachable!()
    };
    unlock::<GivesFront, _, _, _, _>(shared, seat, FRONT_LOCK);
}

/// The height.
pub(crate) fn see_height<C, F: Shown<C>>(
    shared: &Shared<Content<F, C>, Knowledge<F, C, F::Entry>, Origin<F, C>, OneHistory>,
    seat: &mut Seat<Content<F, C>, Knowledge<F, C, F::Entry>>,
) -> u64
    requires table { IsOf shared.now.table_id shared.now.key seat.old × (shared.now.table_id.words ≡ 3) }
    requires live { 0 < (knowledge seat.old).weight }
    requires has { (knowledge seat.old).has_front ≡ true }
    ensures same { IsSameSeat seat.old seat.new }
    ensures height { result ≡ height_of (knowledge seat.old) }
    ensures room { result ≤ 2 ^ 63 }
    ensures me { seat.new.me ≡ (with_look (knowledge seat.old), seat.old.me.1) }
{
    shared.load::<SeesHeight>(seat, HEIGHT)
}

/// Makes the step of an event, and answers the height before it.
pub(crate) fn enter<C, F: Shown<C>, E: Past<Entry = F::Entry>, J: Entering<F::Entry>>(
    shared: &Shared<Content<F, C>, Knowledge<F, C, F::Entry>, Origin<F, C>, OneHistory>,
    seat: &mut Seat<Content<F, C>, Knowledge<F, C, F::Entry>>,
    event: &E,
) -> u64
    requires table { IsOf shared.now.table_id shared.now.key seat.old × (shared.now.table_id.words ≡ 3) }
    requires live { 0 < (knowledge seat.old).weight }
    requires pick { J.entries ≡ E.entry event.now ∷ [] }
    requires has { (knowledge seat.old).has_front ≡ true }
    requires room { height_of (knowledge seat.old) < 2 ^ 63 }
    requires alone { (knowledge seat.old).has_commit ≡ false → (height_of (knowledge seat.old) + 1 < 2 ^ 63) × F.is_light (E.entry event.now) }
    requires legal { F.follows shared.now.key (knowledge seat.old).seen (E.entry event.now) }
    ensures same { IsSameSeat seat.old seat.new }
    ensures number { result ≡ height_of (knowledge seat.old) }
    ensures me { seat.new.me ≡ (with_entry (knowledge seat.old) (E.entry event.now), seat.old.me.1) }
{
    let _ = event;
    shared.fetch_add::<Enters<J>>(seat, HEIGHT, 1)
}

/// Waits for the commit's lock.
fn lock_commit<C, F: Shown<C>, R: Wait>(
    rt: &R,
    shared: &Shared<Content<F, C>, Knowledge<F, C, F::Entry>, Origin<F, C>, OneHistory>,
    seat: &mut Seat<Content<F, C>, Knowledge<F, C, F::Entry>>,
)
    requires table { IsOf shared.now.table_id shared.now.key seat.old × (shared.now.table_id.words ≡ 3) }
    requires live { 0 < (knowledge seat.old).weight }
    ensures same { IsSameSeat seat.old seat.new }
    ensures taken { HasTakenCommit F.follows F.front_shows F.commit_shows F.is_light shared.now.key seat.old.me seat.new.me }
{
    lock::<TakesCommit, _, _, _, _, _>(rt, shared, seat, COMMIT_LOCK);
}

/// Waits for the commit's lock, and takes the commit out of its slot.
pub(crate) fn take_commit<C, F: Shown<C>, R: Wait>(
    rt: &R,
    shared: &Shared<Content<F, C>, Knowledge<F, C, F::Entry>, Origin<F, C>, OneHistory>,
    seat: &mut Seat<Content<F, C>, Knowledge<F, C, F::Entry>>,
) -> C
    requires table { IsOf shared.now.table_id shared.now.key seat.old × (shared.now.table_id.words ≡ 3) }
    requires live { 0 < (knowledge seat.old).weight }
    ensures same { IsSameSeat seat.old seat.new }
    ensures me { seat.new.me ≡ (with_commit (knowledge seat.old) (knowledge seat.new).seen, (1, Content.Out) ∷ seat.old.me.1) }
    ensures later { StartsWith (knowledge seat.new).seen (knowledge seat.old).seen }
    ensures order { IsInOrder (knowledge seat.new) }
    ensures shown { F.commit_shows shared.now.key result (knowledge seat.new).seen }
    ensures legal { AreLegal (F.follows shared.now.key) [] (knowledge seat.new).seen }
{
    lock_commit(rt, shared, seat);
    let content = shared.exchange(seat, COMMIT_SLOT, Content::Out);
    let Content::Commit(commit) = content else {
        unreachable!()
    };
    commit
}

/// Puts the commit into its slot, and frees its lock.
pub(crate) fn give_commit<C, F: Shown<C>>(
    shared: &Shared<Content<F, C>, Knowledge<F, C, F::Entry>, Origin<F, C>, OneHistory>,
    seat: &mut Seat<Content<F, C>, Knowledge<F, C, F::Entry>>,
    commit: C,
)
    requires table { IsOf shared.now.table_id shared.now.key seat.old × (shared.now.table_id.words ≡ 3) }
    requires live { 0 < (knowledge seat.old).weight }
    requires has { ((knowledge seat.old).has_commit ≡ true) × (seat.old.me.1 ≡ (1, Content.Out) ∷ []) }
    requires shown { F.commit_shows shared.now.key commit (knowledge seat.old).seen }
    ensures same { IsSameSeat seat.old seat.new }
    ensures me { seat.new.me ≡ (without_commit (knowledge seat.old), []) }
{
    let content = shared.exchange(seat, COMMIT_SLOT, Content::Commit(commit));
    let Content::Out = content else {
        unreachable!()
    };
    unlock::<GivesCommit, _, _, _, _>(shared, seat, COMMIT_LOCK);
}

/// Splits a new seat off.
pub(crate) fn split<C, F: Shown<C>, J: Weighing>(
    shared: &Shared<Content<F, C>, Knowledge<F, C, F::Entry>, Origin<F, C>, OneHistory>,
    seat: &mut Seat<Content<F, C>, Knowledge<F, C, F::Entry>>,
    weight: u32,
) -> Seat<Content<F, C>, Knowledge<F, C, F::Entry>>
    requires table { IsOf shared.now.table_id shared.now.key seat.old × (shared.now.table_id.words ≡ 3) }
    requires pick { J.weight ≡ weight }
    requires weight { (0 < weight) × (weight < (knowledge seat.old).weight) }
    ensures same { IsSameSeat seat.old seat.new }
    ensures me { seat.new.me ≡ (after_split weight (knowledge seat.old), seat.old.me.1) }
    ensures table { result.table_id ≡ seat.old.table_id }
    ensures new { result.me ≡ (split_off weight (knowledge seat.old), []) }
{
    let _ = weight;
    shared.split_seat::<SplitsOff<J>>(seat)
}

/// Joins another seat to this one. A look after it tells that one of the two has seen all that the other has.
pub(crate) fn join<C, F: Shown<C>>(
    shared: &Shared<Content<F, C>, Knowledge<F, C, F::Entry>, Origin<F, C>, OneHistory>,
    seat: &mut Seat<Content<F, C>, Knowledge<F, C, F::Entry>>,
    other: Seat<Content<F, C>, Knowledge<F, C, F::Entry>>,
)
    requires table { IsOf shared.now.table_id shared.now.key seat.old × IsOf shared.now.table_id shared.now.key other × (shared.now.table_id.words ≡ 3) }
    requires live { (0 < (knowledge seat.old).weight) × (0 < (knowledge other).weight) }
    requires empty { ((knowledge other).has_front ≡ false) × ((knowledge other).has_commit ≡ false) × (other.me.1 ≡ []) }
    ensures same { IsSameSeat seat.old seat.new }
    ensures me { seat.new.me ≡ (after_join (knowledge seat.old) (knowledge other), seat.old.me.1) }
    ensures order { IsInOrder (knowledge seat.new) }
    ensures weight { (knowledge seat.new).weight ≤ shared.now.key.seats }
    ensures seen { BeginsWithAll (knowledge seat.new).seen ((knowledge seat.old).seen ∷ (knowledge other).seen ∷ []) }
{
    shared.join_seat::<JoinsSeats>(seat, other);
    shared.load::<Learns>(seat, COMMIT_LOCK);
}
