//! A scan downwards.
ghost use Rattle.std.specs.Prelude.{ℕ, [], ◌∷◌, ◌≡◌, ◌<◌, ◌-◌, Some, true, false, reverse, IfOk, MatchOption, MatchResult};
ghost use Rattle.ts_key.specs.Items.{Item};
ghost use Rattle.ts_key.specs.Lists.{below, standing};
ghost use Rattle.ts_key.specs.Order.{sort_key_of};
ghost use Rattle.ts_key.specs.Visible.{is_item_seen};
ghost use Rattle.ts_iterator.specs.Rows.{emit_of, given_before, is_passed, least_key, range_rows};
ghost use Rattle.ts_iterator.specs.Helds.{item_held_by, held_item};
ghost use Rattle.ts_iterator.specs.Rests.{StandsIn, rest_down, rest_down_from, rows_given};
ghost use Rattle.ts_iterator.specs.Walks.{IsLastBelow, StandsUpto, top_of};

use crate::NoMemory;
use crate::held::{Held, Holding};
use crate::passed::Passed;
use crate::rows::{is_below, is_past, row_of};
use merge_cursor::{Cursor, Placed};
use std::alloc::Global;
use ts_key::{Key, KeyRef, Seq, Ts};
use udt_model::Row;

/// The rows of a range, descending.
#[derive(Drop)]
pub(crate) struct Down<'a, C> {
    cursor: C,
    /// The last version found that the read sees, where its row is still to be given.
    best: Option<Held<'a>>,
    passed: Passed<'a>,
    low: Option<Key>,
    high: Option<Key>,
    floor: Ts,
    t: Ts,
    s: Seq,
}

/// Whether the version isn't below the upper bound, or the read doesn't see it.
fn is_passed_over(high: &Option<Key>, key: &KeyRef<'_>, t: Ts, s: Seq) -> bool
    ensures { (v : Item) → v.sort_key ≡ sort_key_of key.now → result ≡ is_passed high.now t.0 s.0 v }
{
    is_past(high, key.key) || !(key.ts.0 <= t.0 && key.seq.0 <= s.0)
}

/// Goes to the last version before the key's first one.
fn go_before<'a, C: Cursor<'a>>(cursor: &mut C, key: &KeyRef<'_>)
    ensures same { C.items cursor.new ≡ C.items cursor.old }
    ensures place { C.place cursor.new ≡ below (top_of key.now.key.now) (C.items cursor.old) }
{
    cursor.seek(&KeyRef {
        key: key.key,
        ts: Ts(u64::MAX),
        seq: Seq(u64::MAX),
    });
    cursor.prev();
}

fn is_seen(seen: &KeyRef<'_>, key: &[u8], t: Ts, s: Seq) -> bool
    ensures { (v : Item) → v.sort_key ≡ sort_key_of seen.now → result ≡ is_item_seen key.now t.0 s.0 v }
{
    seen.key == key && (seen.ts.0 <= t.0 && seen.seq.0 <= s.0)
}

/// Goes to the key's newest version that the read sees, where there is one.
fn go_to_newest<'a, C: Holding<'a>>(cursor: &mut C, key: &[u8], t: Ts, s: Seq) -> Option<Held<'a>>
    ensures same { C.items cursor.new ≡ C.items cursor.old }
    ensures newest { (place : ℕ) (v : Item) → Some v ≡ standing (C.items cursor.old) place → is_item_seen key.now t.0 s.0 v ≡ true
        → StandsUpto key.now t.0 s.0 (C.items cursor.old) place (C.place cursor.new) (item_held_by result) }
{
    cursor.seek(&KeyRef { key, ts: t, seq: s });
    loop {
        let Some(found) = cursor.held() else {
            return None;
        };
        if is_seen(&found.key_ref(), key, t, s) {
            return Some(found);
        }
        cursor.next();
    }
}

/// Stays at this version, which the read sees, or where many of its key were passed goes to the newest that it sees.
fn go_to_best<'a, C: Holding<'a>>(
    cursor: &mut C,
    held: Held<'a>,
    many: bool,
    t: Ts,
    s: Seq,
) -> Option<Held<'a>>
    ensures same { C.items cursor.new ≡ C.items cursor.old }
    ensures best { let v = held_item held.entry in Some v ≡ standing (C.items cursor.old) (C.place cursor.old) → is_item_seen v.sort_key.key t.0 s.0 v ≡ true
        → StandsUpto v.sort_key.key t.0 s.0 (C.items cursor.old) (C.place cursor.old) (C.place cursor.new) (item_held_by result) }
{
    if many {
        return go_to_newest(cursor, held.key_ref().key, t, s);
    }
    Some(held)
}

/// The row of the last version found, where the next one that the read sees is of another key.
fn row_before(
    alloc: Global,
    floor: Ts,
    best: Option<Held<'_>>,
    key: &KeyRef<'_>,
) -> Result<Option<Row>, NoMemory>
    ensures { (v : Item) → v.sort_key ≡ sort_key_of key.now
        → IfOk result (λ row. rows_given row ≡ given_before floor (item_held_by best.entry) v) }
{
    let Some(last) = best else {
        return Ok(None);
    };
    if last.key_ref().key == key.key {
        return Ok(None);
    }
    row_of(alloc, floor, &last)
}

/// The row of the last version found, if there is one.
fn row_at_end(alloc: Global, floor: Ts, best: Option<Held<'_>>) -> Result<Option<Row>, NoMemory>
    ensures { IfOk result (λ row. rows_given row ≡ emit_of floor (item_held_by best.entry)) }
{
    match best {
        None => Ok(None),
        Some(last) => row_of(alloc, floor, &last),
    }
}

impl<'a, C: Holding<'a> + Drop> Down<'a, C> {
    /// The rows of the keys from `low` on and below `high`, over a cursor at the last version before `high`.
    pub(crate) fn new(
        cursor: C,
        low: Option<Key>,
        high: Option<Key>,
        floor: Ts,
        t: Ts,
        s: Seq,
    ) -> Down<'a, C>
        ensures { IsLastBelow high (C.place cursor) (C.items cursor)
            → rest_down C.items C.place result ≡ reverse (range_rows (C.items cursor) floor (least_key low) high t.0 s.0) }
    {
        Down {
            cursor,
            best: None,
            passed: Passed::none(),
            low,
            high,
            floor,
            t,
            s,
        }
    }

    /// Goes back past a version that gives nothing; where many of its key were passed, past all that are above the timestamp.
    fn pass_over(&mut self, key: &KeyRef<'a>)
        ensures lower { (v : Item) → v.sort_key ≡ sort_key_of key.now
            → StandsIn C.items C.place self.old v true → C.place self.new.cursor < C.place self.old.cursor }
        ensures rest { (v : Item) → v.sort_key ≡ sort_key_of key.now
            → StandsIn C.items C.place self.old v true → rest_down C.items C.place self.new ≡ rest_down C.items C.place self.old }
    {
        if self.passed.are_many() && self.t.0 < key.ts.0 {
            go_before(&mut self.cursor, key);
        } else {
            self.cursor.prev();
        }
    }

    /// Goes back past the last version found; where many of its key were passed, past all others that the read sees.
    fn pass_found(&mut self, held: Held<'a>)
        ensures lower { StandsIn C.items C.place self.old (held_item held.entry) false
            → C.place self.new.cursor < C.place self.old.cursor }
        ensures rest { StandsIn C.items C.place self.old (held_item held.entry) false → rest_down C.items C.place self.new
            ≡ rest_down_from C.items self.old (Some (held_item held.entry)) (C.place self.old.cursor - 1) }
    {
        let many = self.passed.are_many();
        self.best = go_to_best(&mut self.cursor, held, many, self.t, self.s);
        self.cursor.prev();
    }

    /// The next row. Where it answers `NoMemory` the same one is still to come.
    pub(crate) fn next(&mut self, alloc: Global) -> Result<Option<Row>, NoMemory>
        ensures { MatchResult result
            (λ found. MatchOption found
            ((rest_down C.items C.place self.old ≡ []) × (rest_down C.items C.place self.new ≡ []))
            (λ row. rest_down C.items C.place self.old ≡ row ∷ rest_down C.items C.place self.new))
            (λ _. rest_down C.items C.place self.new ≡ rest_down C.items C.place self.old) }
    {
        loop {
            let Some(held) = self.cursor.held() else {
                let row = row_at_end(alloc, self.floor, self.best)?;
                self.best = None;
                return Ok(row);
            };
            let key = held.key_ref();
            if is_below(&self.low, key.key) {
                let row = row_at_end(alloc, self.floor, self.best)?;
                self.best = None;
                return Ok(row);
            }
            self.passed = self.passed.with(key.key);
            if is_passed_over(&self.high, &key, self.t, self.s) {
                self.pass_over(&key);
                continue;
            }
            let row = row_before(alloc, self.floor, self.best, &key)?;
            self.pass_found(held);
            if let Some(row) = row {
                return Ok(Some(row));
            }
        }
    }
}
