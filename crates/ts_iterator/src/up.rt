//! A scan upwards.
ghost use Rattle.std.specs.Prelude.{ℕ, List, [], ◌∷◌, ◌≡◌, ◌+◌, ◌||◌, None, not, true, MatchOption, MatchResult};
ghost use Rattle.std.specs.Option.{option_copied};
ghost use Rattle.ts_key.specs.Items.{Item};
ghost use Rattle.ts_key.specs.Lists.{below};
ghost use Rattle.ts_key.specs.Order.{SortKey, is_before, sort_key_of};
ghost use Rattle.ts_key.specs.Visible.{is_item_within};
ghost use Rattle.ts_iterator.specs.Rows.{end_of as end_of_key, is_decided as is_decided_by, range_rows};
ghost use Rattle.ts_iterator.specs.Rests.{rest_up};

use crate::NoMemory;
use crate::held::Holding;
use crate::passed::Passed;
use crate::rows::{is_past, row_of};
use merge_cursor::{Cursor, Placed};
use std::alloc::Global;
use ts_key::{Key, KeyRef, Seq, Ts, compare};
use udt_model::Row;

/// The rows of a range, ascending.
#[derive(Drop)]
pub(crate) struct Up<'a, C> {
    cursor: C,
    /// The key whose row was given, or that has none.
    decided: Option<&'a [u8]>,
    passed: Passed<'a>,
    high: Option<Key>,
    floor: Ts,
    t: Ts,
    s: Seq,
}

fn is_decided(decided: Option<&[u8]>, key: &[u8]) -> bool
    ensures { result ≡ is_decided_by (option_copied decided.entry) key.now }
{
    match decided {
        None => false,
        Some(decided) => decided == key,
    }
}

/// Whether the key is decided, or the read doesn't see the version.
fn is_passed_over(decided: Option<&[u8]>, key: &KeyRef<'_>, t: Ts, s: Seq) -> bool
    ensures { (v : Item) → v.sort_key ≡ sort_key_of key.now
        → result ≡ (is_decided_by (option_copied decided.entry) v.sort_key.key || not (is_item_within t.0 s.0 v)) }
{
    is_decided(decided, key.key) || !(key.ts.0 <= t.0 && key.seq.0 <= s.0)
}

/// Where the versions of a key end that give nothing more.
fn end_of<'k>(decided: Option<&[u8]>, key: &KeyRef<'k>, t: Ts, s: Seq) -> KeyRef<'k>
    ensures { sort_key_of result ≡ end_of_key (option_copied decided.entry) key.now.key.now t.0 s.0 }
{
    let (ts, seq) = if is_decided(decided, key.key) {
        (Ts(0), Seq(0))
    } else {
        (t, s)
    };
    KeyRef {
        key: key.key,
        ts,
        seq,
    }
}

/// Whether a seek to that end is the shorter way, and one that goes on.
fn is_worth_a_seek(passed: Passed<'_>, key: &KeyRef<'_>, end: &KeyRef<'_>) -> bool
    ensures { result ≡ true → is_before (sort_key_of key.now) (sort_key_of end.now) ≡ true }
{
    passed.are_many() && compare(key, end).is_lt()
}

impl<'a, C: Holding<'a> + Drop> Up<'a, C> {
    /// The rows of the keys below `high`, over a cursor at the first version that isn't before `low` at `t` and `s`.
    pub(crate) fn new(cursor: C, high: Option<Key>, floor: Ts, t: Ts, s: Seq) -> Up<'a, C>
        ensures { (low : List ℕ) → C.place cursor ≡ below (record { key = low; ts = t.0; seq = s.0 }) (C.items cursor) + 1
            → rest_up C.items C.place result ≡ range_rows (C.items cursor) floor low high t.0 s.0 }
    {
        Up {
            cursor,
            decided: None,
            passed: Passed::none(),
            high,
            floor,
            t,
            s,
        }
    }

    /// The next row. Where it answers `NoMemory` the same one is still to come.
    pub(crate) fn next(&mut self, alloc: Global) -> Result<Option<Row>, NoMemory>
        ensures { MatchResult result
            (λ found. MatchOption found
            ((rest_up C.items C.place self.old ≡ []) × (rest_up C.items C.place self.new ≡ []))
            (λ row. rest_up C.items C.place self.old ≡ row ∷ rest_up C.items C.place self.new))
            (λ _. rest_up C.items C.place self.new ≡ rest_up C.items C.place self.old) }
    {
        loop {
            let Some(held) = self.cursor.held() else {
                return Ok(None);
            };
            let key = held.key_ref();
            if is_past(&self.high, key.key) {
                return Ok(None);
            }
            if is_passed_over(self.decided, &key, self.t, self.s) {
                self.passed = self.passed.with(key.key);
                let end = end_of(self.decided, &key, self.t, self.s);
                if is_worth_a_seek(self.passed, &key, &end) {
                    self.cursor.seek(&end);
                } else {
                    self.cursor.next();
                }
                continue;
            }
            let row = row_of(alloc, self.floor, &held)?;
            self.decided = Some(key.key);
            self.cursor.next();
            if let Some(row) = row {
                return Ok(Some(row));
            }
        }
    }
}
