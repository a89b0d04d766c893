//! The moves of the cursors that are merged. They always stand as for going forward: each at its first version that the
//! merged place has not passed. So a change of direction needs nothing.
ghost use Rattle.std.specs.Prelude.{ℕ, List, Option, MatchOption, ◌≡◌, ◌+◌, ◌-◌, ◌≤◌, ◌<◌, All, length, map, slice_get, if◌then◌else◌};
ghost use Rattle.ts_key.specs.Order.{sort_key_of, is_before};
ghost use Rattle.ts_key.specs.Items.{shown_by};
ghost use Rattle.ts_key.specs.Lists.{below};
ghost use Rattle.std.specs.Option.{unwrap_or};
ghost use Rattle.merge_cursor.specs.Sides.{IsMerge, IsLow, IsTop, sides, side, all, passed, front, back, key_lent, is_first, is_higher};

use crate::cursor::{Cursor, Placed};
use ts_key::{Hit, KeyRef, compare};

/// Whether the first key doesn't stand higher; no key is above all.
fn is_first_key(a: &Option<KeyRef<'_>>, b: &Option<KeyRef<'_>>) -> bool
    ensures { result ≡ is_first (key_lent a.now) (key_lent b.now) }
{
    match (a, b) {
        (None, _) => false,
        (Some(_), None) => true,
        (Some(a), Some(b)) => !compare(b, a).is_lt(),
    }
}

/// Whether the first key stands higher; no key is below all.
fn is_higher_key(a: &Option<KeyRef<'_>>, b: &Option<KeyRef<'_>>) -> bool
    ensures { result ≡ is_higher (key_lent a.now) (key_lent b.now) }
{
    match (a, b) {
        (None, _) => false,
        (Some(_), None) => true,
        (Some(a), Some(b)) => compare(b, a).is_lt(),
    }
}

/// The key where a cursor stands.
fn front_key<'a, C: Cursor<'a>>(c: &C) -> Option<KeyRef<'a>>
    requires { 1 ≤ C.place c.now }
    ensures { key_lent result ≡ front (side C.items C.place c.now) }
{
    match c.at() {
        None => None,
        Some((key, _)) => Some(key),
    }
}

/// The key before the one where a cursor stands.
fn back_key<'a, C: Cursor<'a>>(c: &mut C) -> Option<KeyRef<'a>>
    requires { 1 ≤ C.place c.old }
    ensures over { C.over c.new ≡ C.over c.old }
    ensures items { C.items c.new ≡ C.items c.old }
    ensures place { C.place c.new ≡ C.place c.old }
    ensures key { key_lent result ≡ back (side C.items C.place c.old) }
{
    c.prev();
    let found = match c.at() {
        None => None,
        Some((key, _)) => Some(key),
    };
    c.next();
    found
}

/// The first child whose version stands lowest, or how many there are where all are past their end.
pub(crate) fn lowest<'a, C: Cursor<'a>>(children: &[C]) -> usize
    requires { All (λ c. 1 ≤ C.place c) children.now }
    ensures { IsLow (sides C.items C.place children.now) result }
{
    let mut low = children.len();
    let mut best = None;
    let mut i = children.len();
    while i > 0 {
        i -= 1;
        let key = front_key(&children[i]);
        if is_first_key(&key, &best) {
            low = i;
            best = key;
        }
    }
    low
}

/// The last child whose version before its place stands highest, or how many there are where all are at their first.
fn highest<'a, C: Cursor<'a>>(children: &mut [C]) -> usize
    requires { All (λ c. 1 ≤ C.place c) children.old }
    ensures over { map C.over children.new ≡ map C.over children.old }
    ensures same { sides C.items C.place children.new ≡ sides C.items C.place children.old }
    ensures started { All (λ c. 1 ≤ C.place c) children.new }
    ensures top { IsTop (sides C.items C.place children.old) result }
{
    let mut top = children.len();
    let mut best = None;
    let mut i = children.len();
    while i > 0 {
        i -= 1;
        let key = back_key(&mut children[i]);
        if is_higher_key(&key, &best) {
            top = i;
            best = key;
        }
    }
    top
}

/// Moves the child with the lowest version one place on, and finds the lowest then.
pub(crate) fn step_on<'a, C: Cursor<'a>>(children: &mut [C], low: usize) -> usize
    requires merge { IsMerge (sides C.items C.place children.old) low }
    requires started { All (λ c. 1 ≤ C.place c) children.old }
    requires inside { low < length children.old }
    ensures over { map C.over children.new ≡ map C.over children.old }
    ensures merge { IsMerge (sides C.items C.place children.new) result }
    ensures started { All (λ c. 1 ≤ C.place c) children.new }
    ensures same { all (sides C.items C.place children.new) ≡ all (sides C.items C.place children.old) }
    ensures passed { passed (sides C.items C.place children.new) ≡ passed (sides C.items C.place children.old) + 1 }
{
    let c = &mut children[low];
    c.next();
    lowest(children)
}

/// Moves the child with the highest version before its place one place back, if there is one; it is the lowest then.
pub(crate) fn step_back<'a, C: Cursor<'a>>(children: &mut [C], low: usize) -> Option<usize>
    requires merge { IsMerge (sides C.items C.place children.old) low }
    requires started { All (λ c. 1 ≤ C.place c) children.old }
    ensures over { map C.over children.new ≡ map C.over children.old }
    ensures merge { IsMerge (sides C.items C.place children.new) (unwrap_or result low) }
    ensures started { All (λ c. 1 ≤ C.place c) children.new }
    ensures same { all (sides C.items C.place children.new) ≡ all (sides C.items C.place children.old) }
    ensures passed { MatchOption result ((passed (sides C.items C.place children.old) ≡ 0) × (passed (sides C.items C.place children.new) ≡ 0)) (λ _. passed (sides C.items C.place children.new) + 1 ≡ passed (sides C.items C.place children.old)) }
{
    let top = highest(children);
    if top >= children.len() {
        return None;
    }
    let c = &mut children[top];
    c.prev();
    Some(top)
}

/// Moves all children to the first version that isn't before the key, and finds the lowest then.
pub(crate) fn seek_all<'a, C: Cursor<'a>>(children: &mut [C], to: &KeyRef<'_>) -> usize
    ensures over { map C.over children.new ≡ map C.over children.old }
    ensures items { map C.items children.new ≡ map C.items children.old }
    ensures merge { IsMerge (sides C.items C.place children.new) result }
    ensures started { All (λ c. 1 ≤ C.place c) children.new }
    ensures same { all (sides C.items C.place children.new) ≡ all (sides C.items C.place children.old) }
    ensures passed { passed (sides C.items C.place children.new) ≡ below (sort_key_of to.now) (all (sides C.items C.place children.old)) }
{
    let mut i = 0;
    while i < children.len() {
        let c = &mut children[i];
        c.seek(to);
        i += 1;
    }
    lowest(children)
}

/// Moves all children after their last version, and finds the lowest then.
pub(crate) fn end_all<'a, C: Cursor<'a>>(children: &mut [C]) -> usize
    ensures over { map C.over children.new ≡ map C.over children.old }
    ensures merge { IsMerge (sides C.items C.place children.new) result }
    ensures started { All (λ c. 1 ≤ C.place c) children.new }
    ensures same { all (sides C.items C.place children.new) ≡ all (sides C.items C.place children.old) }
    ensures passed { passed (sides C.items C.place children.new) ≡ length (all (sides C.items C.place children.old)) }
{
    let mut i = 0;
    while i < children.len() {
        let c = &mut children[i];
        c.seek_end();
        i += 1;
    }
    lowest(children)
}

/// The version where the lowest child stands.
pub(crate) fn shown_at<'a, C: Cursor<'a>>(
    children: &[C],
    low: usize,
) -> Option<(KeyRef<'a>, Hit<'a>)>
    requires merge { IsMerge (sides C.items C.place children.now) low }
    requires started { All (λ c. 1 ≤ C.place c) children.now }
    ensures { shown_by result ≡ slice_get (all (sides C.items C.place children.now)) (passed (sides C.items C.place children.now)) }
{
    if low >= children.len() {
        return None;
    }
    children[low].at()
}
