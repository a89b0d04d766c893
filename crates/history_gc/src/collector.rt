//! The collection of versions that come one by one.
ghost use Rattle.std.specs.Prelude.{◌≡◌, ◌≤◌, ◌<◌, ◌+◌, ◌++◌, ◌∷◌, [], List, ℕ, length, take, drop, not, ◌&&◌, ◌||◌, ◌==◌, min, if◌then◌else◌};
ghost use Rattle.std.specs.VecDeque.{deque_capacity};
ghost use Rattle.std.specs.List.{list_any};
ghost use Rattle.udt_model.specs.Orders.{is_in, is_in_some};
ghost use Rattle.ts_key.specs.Ascending.{AreAscending};
ghost use Rattle.history_gc.specs.Streaming.{ends_so, is_snapshot_between, is_low, is_old_delete, trim};
ghost use Rattle.history_gc.specs.States.{AllOf};

use std::alloc::Global;
use std::collections::VecDeque;
use ts_key::{NoMemory, Op, Seq, Ts, Version};
use udt_model::KeySpan;

/// Takes versions of one family in the stored order, and gives those that a collection keeps. It holds the versions of one key
/// at most, beside those that are decided and not yet taken.
#[derive(Drop)]
pub struct Collector<'a> {
    queue: VecDeque<Version>,
    decided: usize,
    class: u64,
    least: u64,
    floor: Ts,
    seqs: Vec<Seq>,
    deeper: &'a [KeySpan],
    ghost within: { decided ≤ length queue.items },
    ghost ascending: { AreAscending seqs.items },
}

/// Whether one of the sequences, which ascend, is at least `seq` and below `least`.
fn is_one_between(seqs: &[Seq], seq: u64, least: u64) -> bool
    requires { AreAscending seqs.now }
    ensures { result ≡ list_any (is_snapshot_between seq least) seqs.now }
{
    let first = seqs.partition_point(|s| s.0 < seq);
    match seqs.get(first) {
        Some(s) => s.0 < least,
        None => false,
    }
}

/// Whether a version is kept that is or isn't of the class of the last one.
fn is_kept_now(same: bool, seqs: &[Seq], seq: u64, least: u64) -> bool
    requires { AreAscending seqs.now }
    ensures { result ≡ (not same || list_any (is_snapshot_between seq least) seqs.now) }
{
    !same || is_one_between(seqs, seq, least)
}

fn is_same_class(same_key: bool, class: u64, own: u64) -> bool
    ensures { result ≡ (same_key && class == own) }
{
    same_key && class == own
}

fn least_with(same: bool, least: u64, seq: u64) -> u64
    ensures { result ≡ (if same then min least seq else seq) }
{
    if same { least.min(seq) } else { seq }
}

fn holds_key(span: &KeySpan, key: &[u8]) -> bool
    ensures { result ≡ is_in span.now key.now }
{
    span.low.bytes().cmp(&key).is_le() && key.cmp(&span.high.bytes()).is_le()
}

/// Whether the key lies in one of the spans.
fn is_covered(deeper: &[KeySpan], key: &[u8]) -> bool
    ensures { result ≡ is_in_some deeper.now key.now }
{
    deeper.iter().any(|span| holds_key(span, key))
}

/// Whether it is a delete up to the floor.
fn is_old(floor: Ts, version: &Version) -> bool
    ensures { result ≡ is_old_delete floor version.now }
{
    match &version.op {
        Op::Put(_) => false,
        Op::Del => version.ts.0 <= floor.0,
    }
}

/// Takes the deletes up to the floor off the end of the queue, down to `decided`.
fn drop_old_deletes(queue: &mut VecDeque<Version>, decided: usize, floor: Ts)
    requires { decided ≤ length queue.old.items }
    ensures within { decided ≤ length queue.new.items }
    ensures shorter { length queue.new.items ≤ length queue.old.items }
    ensures capacity { deque_capacity queue.new ≡ deque_capacity queue.old }
    ensures items { queue.new.items ≡ take decided queue.old.items ++ trim (is_old_delete floor) (drop decided queue.old.items) }
{
    while queue.len() > decided {
        let Some(last) = queue.back() else {
            return;
        };
        if !is_old(floor, last) {
            return;
        }
        let _ = queue.pop_back();
    }
}

/// Whether the last version is a delete up to the floor whose key lies in no deeper span.
fn ends_low(queue: &VecDeque<Version>, floor: Ts, deeper: &[KeySpan]) -> bool
    ensures { result ≡ ends_so (is_low floor deeper.now) queue.now.items }
{
    match queue.back() {
        None => false,
        Some(last) => is_old(floor, last) && !is_covered(deeper, last.key.bytes()),
    }
}

/// Takes the deletes that have no use off the end of the run of one key, which begins at `decided`. It looks at the deeper
/// spans once at most.
fn close_run(queue: &mut VecDeque<Version>, decided: usize, floor: Ts, deeper: &[KeySpan])
    requires { decided ≤ length queue.old.items }
    ensures within { decided ≤ length queue.new.items }
    ensures shorter { length queue.new.items ≤ length queue.old.items }
    ensures capacity { deque_capacity queue.new ≡ deque_capacity queue.old }
    ensures trimmed { (k : List ℕ) → AllOf k (drop decided queue.old.items) → queue.new.items ≡ take decided queue.old.items ++ trim (is_low floor deeper.now) (drop decided queue.old.items) }
{
    if ends_low(queue, floor, deeper) {
        drop_old_deletes(queue, decided, floor);
    }
}

/// Appends a version for which there is room.
fn append(queue: &mut VecDeque<Version>, version: Version)
    requires { length queue.old.items < deque_capacity queue.old }
    ensures items { queue.new.items ≡ queue.old.items ++ version ∷ [] }
    ensures capacity { deque_capacity queue.new ≡ deque_capacity queue.old }
{
    let _ = queue.push_back(version);
}

impl<'a> Collector<'a> {
    ghost use Rattle.std.specs.Prelude.{◌≡◌, ◌≤◌, ◌<◌, ◌+◌, ◌++◌, ◌∷◌, [], List, ℕ, length, take, drop, true, false, not, ◌&&◌, ◌||◌, ◌==◌, max, min, if◌then◌else◌, IfOk, IfErr, IsOk, OnErr, MatchOption, MatchResult};
    ghost use Rattle.std.specs.VecDeque.{deque_capacity};
    ghost use Rattle.std.specs.List.{list_any};
    ghost use Rattle.udt_model.specs.Collecting.{collect};
    ghost use Rattle.ts_key.specs.declared.version.Version.{Version as VersionOf};
    ghost use Rattle.history_gc.specs.Pushed.{MayFollow};
    ghost use Rattle.history_gc.specs.Streaming.{is_snapshot_between, is_low, trim};
    ghost use Rattle.history_gc.specs.States.{AllOf, is_key};
    ghost use Rattle.history_gc.specs.Collecting.{CollectsAlike, HasCollected, HasFinished, HasGiven, HasGivenAll, HasGivenSettled, IsAsBefore, collection, held_of, room_of, state};

    /// A collector that has no version yet: by the history floor, by the sequences of the registered snapshots, in any order, and
    /// by the spans of keys that may have versions deeper.
    pub fn new(
        alloc: Global,
        floor: Ts,
        seqs: &[Seq],
        deeper: &'a [KeySpan],
    ) -> Result<Collector<'a>, NoMemory>
        ensures collected { IfOk result (λ c. HasCollected c [] []) }
        ensures collects { IfOk result (λ c. (ps : List VersionOf) → collection c ps ≡ collect ps floor seqs.now deeper.now) }
        ensures held { IfOk result (λ c. held_of c ≡ 0) }
    {
        Collector::with_capacity(alloc, 0, floor, seqs, deeper)
    }

    /// The same, with room for so many versions.
    pub fn with_capacity(
        alloc: Global,
        capacity: usize,
        floor: Ts,
        seqs: &[Seq],
        deeper: &'a [KeySpan],
    ) -> Result<Collector<'a>, NoMemory>
        ensures collected { IfOk result (λ c. HasCollected c [] []) }
        ensures collects { IfOk result (λ c. (ps : List VersionOf) → collection c ps ≡ collect ps floor seqs.now deeper.now) }
        ensures held { IfOk result (λ c. held_of c ≡ 0) }
        ensures room { IfOk result (λ c. capacity ≤ room_of c) }
    {
        let mut ascending = seqs.to_vec(alloc)?;
        ascending.sort_unstable_by_key(|s| s.0);
        Ok(Collector {
            queue: VecDeque::with_capacity(alloc, capacity)?,
            decided: 0,
            class: 0,
            least: 0,
            floor,
            seqs: ascending,
            deeper,
        })
    }

    /// Takes a version that is of the family of those before and stands behind them. Where memory is wanting it is given back,
    /// and all is as before; where there is room for it, it is taken. It takes the logarithm of the number of snapshots.
    pub fn push(&mut self, version: Version) -> Result<(), (Version, NoMemory)>
        ensures collected { (ps qs : List VersionOf) → HasCollected self.old ps qs → MayFollow ps version → MatchResult result
            (λ _. HasCollected self.new (ps ++ version ∷ []) qs)
            (λ _. HasCollected self.new ps qs) }
        ensures refused { IfErr result (λ refused. refused.0 ≡ version) }
        ensures unchanged { OnErr result (IsAsBefore self.old self.new) }
        ensures taken { held_of self.old < room_of self.old → IsOk result }
        ensures held { held_of self.new ≤ held_of self.old + 1 }
        ensures room { room_of self.old ≤ room_of self.new }
        ensures alike { CollectsAlike self.old self.new }
    {
        if let Err(e) = self.queue.reserve(1) {
            return Err((version, e));
        }
        let same_key = self.is_of_run(&version);
        self.settle_unless(same_key);
        if !self.notes(&version, same_key) {
            return Ok(());
        }
        append(&mut self.queue, version);
        Ok(())
    }

    /// Decides what is kept of the last key.
    fn settle(&mut self)
        ensures trimmed { (k : List ℕ) → AllOf k (drop self.old.decided self.old.queue.items) → self.new.queue.items ≡ take self.old.decided self.old.queue.items ++ trim (is_low self.old.floor self.old.deeper.now) (drop self.old.decided self.old.queue.items) }
        ensures decided { self.new.decided ≡ length self.new.queue.items }
        ensures capacity { room_of self.new ≡ room_of self.old }
        ensures shorter { held_of self.new ≤ held_of self.old }
        ensures same { (self.new.class ≡ self.old.class) × (self.new.least ≡ self.old.least) }
        ensures alike { CollectsAlike self.old self.new }
    {
        close_run(&mut self.queue, self.decided, self.floor, self.deeper);
        self.decided = self.queue.len();
    }

    /// Decides what is kept of the last key, unless another version of it comes.
    fn settle_unless(&mut self, same_key: bool)
        ensures kept { same_key ≡ true → (self.new.queue.items ≡ self.old.queue.items) × (self.new.decided ≡ self.old.decided) }
        ensures closed { same_key ≡ false → (k : List ℕ) → AllOf k (drop self.old.decided self.old.queue.items) → (self.new.queue.items ≡ take self.old.decided self.old.queue.items ++ trim (is_low self.old.floor self.old.deeper.now) (drop self.old.decided self.old.queue.items)) × (self.new.decided ≡ length self.new.queue.items) }
        ensures capacity { room_of self.new ≡ room_of self.old }
        ensures shorter { held_of self.new ≤ held_of self.old }
        ensures same { (self.new.class ≡ self.old.class) × (self.new.least ≡ self.old.least) }
        ensures alike { CollectsAlike self.old self.new }
    {
        if !same_key {
            self.settle();
        }
    }

    /// Remembers a version, and says whether it is kept.
    fn notes(&mut self, version: &Version, same_key: bool) -> bool
        ensures kept { result ≡ (not (same_key && self.old.class == max version.now.ts.0 self.old.floor.0) || list_any (is_snapshot_between version.now.seq.0 self.old.least) self.old.seqs.items) }
        ensures class { self.new.class ≡ max version.now.ts.0 self.old.floor.0 }
        ensures least { self.new.least ≡ (if same_key && self.old.class == max version.now.ts.0 self.old.floor.0 then min self.old.least version.now.seq.0 else version.now.seq.0) }
        ensures same { (self.new.queue ≡ self.old.queue) × (self.new.decided ≡ self.old.decided) }
        ensures alike { CollectsAlike self.old self.new }
    {
        let class = version.ts.0.max(self.floor.0);
        let same = is_same_class(same_key, self.class, class);
        let kept = is_kept_now(same, &self.seqs, version.seq.0, self.least);
        self.least = least_with(same, self.least, version.seq.0);
        self.class = class;
        kept
    }

    /// Whether the version is of the key of the last run.
    fn is_of_run(&self, version: &Version) -> bool
        ensures { result ≡ is_key (state self.now).last version.now }
    {
        if self.decided >= self.queue.len() {
            return false;
        }
        match self.queue.back() {
            None => false,
            Some(last) => last.key.bytes() == version.key.bytes(),
        }
    }

    /// No version comes any more.
    pub fn finish(&mut self)
        ensures finished { (ps qs : List VersionOf) → HasCollected self.old ps qs → HasFinished self.new ps qs }
        ensures room { room_of self.new ≡ room_of self.old }
        ensures held { held_of self.new ≤ held_of self.old }
        ensures alike { CollectsAlike self.old self.new }
    {
        self.settle();
    }

    /// The next version that is kept; `None` where what was given is all that is kept of all keys but the last, or, after the end,
    /// of all.
    pub fn pop(&mut self) -> Option<Version>
        ensures collected { (ps qs : List VersionOf) → HasCollected self.old ps qs → MatchOption result (HasGivenSettled self.new ps qs) (HasGiven self.new ps qs) }
        ensures finished { (ps qs : List VersionOf) → HasFinished self.old ps qs → MatchOption result (HasGivenAll self.new ps qs) (λ v. HasFinished self.new ps (qs ++ v ∷ [])) }
        ensures held { MatchOption result (held_of self.new ≡ held_of self.old) (λ _. held_of self.new + 1 ≡ held_of self.old) }
        ensures room { room_of self.new ≡ room_of self.old }
        ensures alike { CollectsAlike self.old self.new }
    {
        if self.decided == 0 {
            return None;
        }
        self.decided -= 1;
        self.queue.pop_front()
    }

    /// How many versions it holds.
    pub fn held(&self) -> usize
        ensures { result ≡ held_of self.now }
    {
        self.queue.len()
    }
}
