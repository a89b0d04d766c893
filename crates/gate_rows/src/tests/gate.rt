//! The gate over a front and a commit that are lists of numbers. The front has every number of the history, the commit
//! those from `COMMITTED` on.
ghost use Rattle.std.specs.Prelude.{◌≡◌, ℕ, ◌+◌, ◌<◌, ◌≤◌, ◌^◌, true, false, [], ◌∷◌, ◌++◌, All, IfSome, length, slice_index_or, vec_len, vec_capacity};
ghost use Rattle.sv_gate.specs.Gates.{origin, known, own, seen, seat_weight, IsReady};
ghost use Rattle.gate_rows.specs.GateRows.{needs_commit};

use std::alloc::Global;
use std::process::Abort;
use std::sync::Wait;
use std::thread::{Threads, for_each_mut};
use sv_gate::{Gate, GateSeat, Past, Shown};

/// Numbers from here on need the commit.
const COMMITTED: u64 = 1_000_000;

/// How many events each of two threads makes.
const EVENTS: u64 = 10_000;

/// A front needs a number below this before an event without the commit.
const LAST: u64 = (1 << 63) - 1;

#[derive(Drop)]
struct Front {
    numbers: Vec<u64>,
}

#[derive(Drop)]
struct Commit {
    numbers: Vec<u64>,
}

impl Shown<Commit> for Front {
    ghost use Rattle.std.specs.Prelude.{◌≡◌, ℕ, false, ◌++◌, None};
    ghost use Rattle.std.proofs.Common.{ap, ◌∙◌, sym};
    ghost use Rattle.gate_rows.specs.GateRows.{needs_commit, committed, committed_light};

    type Entry = u64;

    ghost follows = { λ o log x. Unit {0} };

    ghost front_shows = { λ o f log. f.numbers.items ≡ log };

    ghost commit_shows = { λ o c log. c.numbers.items ≡ committed log };

    ghost is_light = { λ x. needs_commit x ≡ false };

    ghost earlier = { λ x. None };

    ghost stays = { λ o c log x shown follows light. shown ∙ sym (committed_light log x light) };
}

/// The event that adds a number.
#[derive(Drop)]
struct Number(u64);

impl Past for Number {
    type Entry = u64;

    ghost entry = { λ event. event.0 };
}

type NumberGate = Gate<Front, Commit>;

type NumberSeat = GateSeat<Front, Commit, u64>;

/// Adds a number to the front alone, and answers the event's number. None where the history is full or memory ran out.
fn add<R: Wait>(rt: &R, gate: &NumberGate, seat: &mut NumberSeat, number: u64) -> Option<u64>
    requires ready { IsReady gate.now seat.old }
    requires light { needs_commit number ≡ false }
    ensures ready { IsReady gate.now seat.new }
    ensures made { IfSome result (λ n. own seat.new ≡ own seat.old ++ (n, number) ∷ []) }
{
    let mut held = gate.take_front(rt, seat);
    let height = gate.height(seat, &held);
    if height >= LAST {
        gate.give_front(seat, held);
        return None;
    }
    let Ok(()) = held.front.numbers.push(number) else {
        gate.give_front(seat, held);
        return None;
    };
    let receipt = gate.give_front_with(seat, held, &Number(number));
    Some(receipt.number)
}

/// Makes room for a number in both lists, and says whether there was memory.
fn make_room(front: &mut Front, commit: &mut Commit) -> bool
    ensures front { front.new.numbers.items ≡ front.old.numbers.items }
    ensures commit { commit.new.numbers.items ≡ commit.old.numbers.items }
    ensures room { result ≡ true → (vec_len front.new.numbers < vec_capacity front.new.numbers) × (vec_len commit.new.numbers < vec_capacity commit.new.numbers) }
{
    if front.numbers.reserve(1).is_err() {
        return false;
    }
    commit.numbers.reserve(1).is_ok()
}

/// Adds a number to both lists, with the commit taken before the front.
fn add_committed<R: Wait>(
    rt: &R,
    gate: &NumberGate,
    seat: &mut NumberSeat,
    number: u64,
) -> Option<u64>
    requires ready { IsReady gate.now seat.old }
    requires heavy { needs_commit number ≡ true }
    ensures ready { IsReady gate.now seat.new }
    ensures made { IfSome result (λ n. own seat.new ≡ own seat.old ++ (n, number) ∷ []) }
{
    let mut committed = gate.take_commit(rt, seat);
    let mut held = gate.take_front(rt, seat);
    let height = gate.height(seat, &held);
    let has_memory = make_room(&mut held.front, &mut committed.commit);
    if height > LAST || !has_memory {
        gate.give_front(seat, held);
        gate.give_commit(seat, committed);
        return None;
    }
    held.front.numbers.push_reserved(number);
    committed.commit.numbers.push_reserved(number);
    let receipt = gate.give_front_with(seat, held, &Number(number));
    gate.give_commit(seat, committed);
    Some(receipt.number)
}

/// A thread's seat, the first of its numbers, and the numbers of its events.
struct Job {
    seat: NumberSeat,
    first: u64,
    receipts: Vec<u64>,
}

/// Makes the events of a thread.
#[tactic(auto, using(std::proofs::lemmas::Bool::Decides::leb_tells))]
fn run_job<R: Wait>(rt: &R, gate: &NumberGate, job: &mut Job)
    requires ready { IsReady gate.now job.old.seat }
    requires first { job.old.first < 100000 }
    ensures ready { IsReady gate.now job.new.seat }
{
    let first = job.first;
    for k in 0..EVENTS {
        if let Some(number) = add(rt, gate, &mut job.seat, first + k) {
            let _ = job.receipts.push(number);
        }
    }
}

/// Each job in a thread of its own.
fn run_jobs<R: Threads + Wait + Sync>(rt: &R, gate: &NumberGate, jobs: &mut [Job])
    requires ready { All (λ job. IsReady gate.now job.seat × (job.first < 100000)) jobs.old }
    ensures ready { (i : ℕ) (d : _) → i < length jobs.old → IsReady gate.now (slice_index_or jobs.new i d).seat }
{
    for_each_mut(rt, jobs, 2, &|_, job| run_job(rt, gate, job));
}

fn new_gate<R: Abort>(rt: &R, alloc: Global, seats: u32) -> (NumberGate, NumberSeat)
    requires { 0 < seats }
    ensures ready { IsReady result.0 result.1 }
    ensures weight { (seat_weight result.1 ≡ seats) × ((origin result.0).seats ≡ seats) }
    ensures fresh { (own result.1 ≡ []) × (seen result.1 ≡ []) }
{
    let front = Front {
        numbers: Vec::new(alloc),
    };
    let commit = Commit {
        numbers: Vec::new(alloc),
    };
    let made = Gate::new_at(alloc, 0, seats, front, commit);
    let Ok(made) = made else {
        panic!(rt; "no memory")
    };
    made
}

/// Splits off a seat of weight 1.
fn split_one<R: Abort>(
    rt: &R,
    alloc: Global,
    gate: &NumberGate,
    seat: &mut NumberSeat,
) -> NumberSeat
    requires ready { IsReady gate.now seat.old }
    requires weight { 1 < seat_weight seat.old }
    ensures ready { IsReady gate.now seat.new × IsReady gate.now result }
    ensures weight { (seat_weight seat.new + 1 ≡ seat_weight seat.old) × (seat_weight result ≡ 1) }
{
    let new = gate.split(alloc, seat, 1);
    let Ok(new) = new else {
        panic!(rt; "no memory")
    };
    new
}

/// Two jobs, with seats that are split off.
fn two_jobs<R: Abort>(rt: &R, alloc: Global, gate: &NumberGate, seat: &mut NumberSeat) -> Vec<Job>
    requires ready { IsReady gate.now seat.old }
    requires weight { 2 < seat_weight seat.old }
    ensures seat { IsReady gate.now seat.new }
    ensures ready { All (λ job. IsReady gate.now job.seat × (job.first < 100000)) result.items }
{
    let jobs = Vec::with_capacity(alloc, 2);
    let Ok(mut jobs) = jobs else {
        panic!(rt; "no memory")
    };
    let one = split_one(rt, alloc, gate, seat);
    let two = split_one(rt, alloc, gate, seat);
    jobs.push_reserved(Job {
        seat: one,
        first: 0,
        receipts: Vec::new(alloc),
    });
    jobs.push_reserved(Job {
        seat: two,
        first: EVENTS,
        receipts: Vec::new(alloc),
    });
    jobs
}

/// Joins the seats of all jobs to this one, and answers the numbers of each one's events.
fn collect<R: Abort>(
    rt: &R,
    alloc: Global,
    gate: &NumberGate,
    seat: &mut NumberSeat,
    mut jobs: Vec<Job>,
) -> Vec<Vec<u64>>
    requires seat { IsReady gate.now seat.old }
    requires jobs { All (λ job. IsReady gate.now job.seat) jobs.items }
    ensures { IsReady gate.now seat.new }
{
    let mut all = Vec::new(alloc);
    while let Some(
        Job {
            seat: one,
            first: _,
            receipts,
        },
    ) = jobs.pop()
    {
        gate.join(seat, one);
        assert!(rt; all.push(receipts).is_ok());
    }
    jobs.destroy_empty();
    all
}

#[test]
fn weights_are_split_and_joined(rt: HostRuntime) {
    let (gate, mut seat) = new_gate(&rt, rt.alloc(), 2);
    assert_eq!(rt; seat.weight(), 2);
    let held = gate.take_front(&rt, &mut seat);
    assert_eq!(rt; gate.height(&mut seat, &held), 0);
    gate.give_front(&mut seat, held);
    let other = split_one(&rt, rt.alloc(), &gate, &mut seat);
    assert_eq!(rt; (seat.weight(), other.weight()), (1, 1));
    gate.join(&mut seat, other);
    assert_eq!(rt; seat.weight(), 2);
    let (front, commit) = gate.close(seat);
    assert!(rt; front.numbers.is_empty() && commit.numbers.is_empty());
}

#[test]
fn the_commit_is_taken_before_the_front(rt: HostRuntime) {
    let (gate, mut seat) = new_gate(&rt, rt.alloc(), 1);
    assert_eq!(rt;
        add_committed(&rt, &gate, &mut seat, COMMITTED + 5),
        Some(1)
    );
    assert_eq!(rt; add(&rt, &gate, &mut seat, 7), Some(2));
    assert_eq!(rt; add_committed(&rt, &gate, &mut seat, COMMITTED), Some(3));
    assert_eq!(rt; seat.weight(), 1);
    let (front, commit) = gate.close(seat);
    assert!(rt; front.numbers.as_slice() == [COMMITTED + 5, 7, COMMITTED].as_slice());
    assert!(rt; commit.numbers.as_slice() == [COMMITTED + 5, COMMITTED].as_slice());
}

/// Each number from 1 to `count` is there once.
fn assert_each_once<R: Abort>(rt: &R, mut numbers: Vec<u64>, count: usize) {
    assert!(rt; numbers.sort().is_ok());
    assert_eq!(rt; numbers.len(), count);
    for (k, number) in numbers.iter().enumerate() {
        assert_eq!(rt; *number, (k as u64).wrapping_add(1));
    }
}

/// A thread's events have ascending numbers, and the history has its numbers there, from `first` on.
fn assert_in_order<R: Abort>(rt: &R, history: &[u64], receipts: &[u64], first: u64) {
    let mut before = 0;
    let mut next = first;
    for number in receipts {
        assert!(rt; before < *number);
        assert_eq!(rt; history.get((*number - 1) as usize), Some(&next));
        before = *number;
        next = next.wrapping_add(1);
    }
}

#[test]
fn two_threads_make_one_history(rt: HostRuntime) {
    let alloc = rt.alloc();
    let (gate, mut seat) = new_gate(&rt, alloc, 3);
    let mut jobs = two_jobs(&rt, alloc, &gate, &mut seat);
    run_jobs(&rt, &gate, jobs.as_mut_slice());
    let receipts = collect(&rt, alloc, &gate, &mut seat, jobs);
    assert_eq!(rt; seat.weight(), 3);
    let (front, commit) = gate.close(seat);
    assert_eq!(rt; front.numbers.len(), 20_000);
    assert!(rt; commit.numbers.is_empty());
    assert_eq!(rt; receipts.len(), 2);
    assert_in_order(&rt, &front.numbers, &receipts[0], EVENTS);
    assert_in_order(&rt, &front.numbers, &receipts[1], 0);
    let all = receipts.concat(alloc);
    let Ok(all) = all else {
        panic!(rt; "no memory")
    };
    assert_each_once(&rt, all, 20_000);
}
