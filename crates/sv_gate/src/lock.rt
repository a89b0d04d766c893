//! A lock on a word of a table.
//!
//! The word is 0 where the lock is free, 1 where it is taken, and 2 where a thread may sleep until it is free. So taking a
//! free lock and giving it back while nobody waits are one step each, without a call of the system.
ghost use Rattle.std.specs.Prelude.{◌≡◌, ◌≢◌, ◌<◌, MatchBool};
ghost use Rattle.sv_gate.specs.Locks.{MayLock, HasLocked, HasUnlocked};
ghost use Rattle.atomic_table.specs.Table.{step, Allows};
ghost use mathlib.Core.Option.{none};

use atomic_table::{Play, Seat, Shared, TableRule};
use std::hint::spin_loop;
use std::sync::Wait;

const FREE: u64 = 0;

const TAKEN: u64 = 1;

const AWAITED: u64 = 2;

/// How often a taken lock is looked at before its thread sleeps.
const LOOKS: u32 = 100;

/// Takes the lock if it is free.
fn try_lock<M: Play<S, V>, S, V, K, P: TableRule<S, V, K>>(
    shared: &Shared<S, V, K, P>,
    seat: &mut Seat<S, V>,
    word: usize,
) -> bool
    requires table { (seat.old.table_id ≡ shared.now.table_id) × (word < shared.now.table_id.words) }
    requires may { MayLock (P.holds shared.now.key) shared.now.table_id.slots word seat.old.id seat.old.me M.then }
    ensures same { (seat.new.table_id ≡ seat.old.table_id) × (seat.new.id ≡ seat.old.id) }
    ensures locked { MatchBool result (HasLocked seat.old.me seat.new.me M.then) (seat.new.me ≡ seat.old.me) }
{
    if shared.peek(word) != FREE {
        return false;
    }
    let found = shared.compare_exchange::<M>(seat, word, FREE, TAKEN);
    if found == FREE {
        return true;
    }
    false
}

/// Takes the lock if it is free within a few looks.
fn spin<M: Play<S, V>, S, V, K, P: TableRule<S, V, K>>(
    shared: &Shared<S, V, K, P>,
    seat: &mut Seat<S, V>,
    word: usize,
) -> bool
    requires table { (seat.old.table_id ≡ shared.now.table_id) × (word < shared.now.table_id.words) }
    requires may { MayLock (P.holds shared.now.key) shared.now.table_id.slots word seat.old.id seat.old.me M.then }
    ensures same { (seat.new.table_id ≡ seat.old.table_id) × (seat.new.id ≡ seat.old.id) }
    ensures locked { MatchBool result (HasLocked seat.old.me seat.new.me M.then) (seat.new.me ≡ seat.old.me) }
{
    for _ in 0..LOOKS {
        if try_lock::<M, _, _, _, _>(shared, seat, word) {
            return true;
        }
        spin_loop();
    }
    false
}

/// Sleeps until the lock is free, and takes it.
fn sleep<M: Play<S, V>, S, V, K, P: TableRule<S, V, K>, R: Wait>(
    rt: &R,
    shared: &Shared<S, V, K, P>,
    seat: &mut Seat<S, V>,
    word: usize,
)
    requires table { (seat.old.table_id ≡ shared.now.table_id) × (word < shared.now.table_id.words) }
    requires may { MayLock (P.holds shared.now.key) shared.now.table_id.slots word seat.old.id seat.old.me M.then }
    ensures same { (seat.new.table_id ≡ seat.old.table_id) × (seat.new.id ≡ seat.old.id) }
    ensures locked { HasLocked seat.old.me seat.new.me M.then }
{
    for _ in rt.forever() {
        let found = shared.swap::<M>(seat, word, AWAITED);
        if found == FREE {
            return;
        }
        shared.park(rt, word, 2);
    }
    unreachable!()
}

/// Waits until the lock is free, and takes it.
pub(crate) fn lock<M: Play<S, V>, S, V, K, P: TableRule<S, V, K>, R: Wait>(
    rt: &R,
    shared: &Shared<S, V, K, P>,
    seat: &mut Seat<S, V>,
    word: usize,
)
    requires table { (seat.old.table_id ≡ shared.now.table_id) × (word < shared.now.table_id.words) }
    requires may { MayLock (P.holds shared.now.key) shared.now.table_id.slots word seat.old.id seat.old.me M.then }
    ensures same { (seat.new.table_id ≡ seat.old.table_id) × (seat.new.id ≡ seat.old.id) }
    ensures locked { HasLocked seat.old.me seat.new.me M.then }
{
    if spin::<M, _, _, _, _>(shared, seat, word) {
        return;
    }
    sleep::<M, _, _, _, _, _>(rt, shared, seat, word)
}

/// Frees the lock, and wakes a thread that sleeps until then.
pub(crate) fn unlock<M: Play<S, V>, S, V, K, P: TableRule<S, V, K>>(
    shared: &Shared<S, V, K, P>,
    seat: &mut Seat<S, V>,
    word: usize,
)
    requires table { (seat.old.table_id ≡ shared.now.table_id) × (word < shared.now.table_id.words) }
    requires may { Allows (P.holds shared.now.key) shared.now.table_id.slots seat.old.id seat.old.me word (λ _. 0) (M.then (step shared.now.table_id.slots word 0 0 none) seat.old.me) }
    ensures same { (seat.new.table_id ≡ seat.old.table_id) × (seat.new.id ≡ seat.old.id) }
    ensures unlocked { HasUnlocked seat.old.me seat.new.me M.then }
{
    let found = shared.swap::<M>(seat, word, FREE);
    if found == AWAITED {
        shared.wake_one(word);
    }
}
