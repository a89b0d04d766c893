//! The games between cursors. Places are counted as in a heap: 1 is the top, below a place j stand 2j and 2j + 1, and the
//! leaves come last, one for each cursor.
ghost use Rattle.std.specs.Prelude.{◌≡◌, ◌+◌, ◌*◌, ◌-◌, ◌/◌, ◌≤◌, ◌<◌, ℕ, All, IfOk, length, map, slice_get};
ghost use Rattle.ts_key.specs.Items.{shown_by};
ghost use Rattle.merge_cursor.specs.Sides.{AreSidesCut, all, front, is_lower, key_lent, passed, side, sides};
ghost use Rattle.merge_tree.specs.Games.{AreWon, AreWonBut, IsBetter, front_at, winner_at};

use merge_cursor::{Cursor, Placed};
use std::alloc::{AllocError, Global};
use ts_key::{Hit, KeyRef, compare};

/// The key where a cursor stands.
fn front_key<'a, C: Cursor<'a>>(c: &C) -> Option<KeyRef<'a>>
    requires { 1 ≤ C.place c.now }
    ensures { key_lent result ≡ front (side C.items C.place c.now) }
{
    match c.at() {
        None => None,
        Some((key, _)) => Some(key),
    }
}

/// Whether the first key stands lower; no key is above all.
fn is_lower_key(a: &Option<KeyRef<'_>>, b: &Option<KeyRef<'_>>) -> bool
    ensures { result ≡ is_lower (key_lent a.now) (key_lent b.now) }
{
    match (a, b) {
        (None, _) => false,
        (Some(_), None) => true,
        (Some(a), Some(b)) => compare(a, b).is_lt(),
    }
}

/// Whether the first of two cursors stands lower.
fn is_lower_at<'a, C: Cursor<'a>>(cursors: &[C], a: usize, b: usize) -> bool
    requires first { a < length cursors.now }
    requires second { b < length cursors.now }
    requires started { All (λ c. 1 ≤ C.place c) cursors.now }
    ensures { result ≡ is_lower (front_at (sides C.items C.place cursors.now) a) (front_at (sides C.items C.place cursors.now) b) }
{
    let first = front_key(&cursors[a]);
    let second = front_key(&cursors[b]);
    is_lower_key(&first, &second)
}

/// The better of two cursors of which the first isn't the later one.
fn better_of<'a, C: Cursor<'a>>(cursors: &[C], a: usize, b: usize) -> usize
    requires order { a ≤ b }
    requires inside { b < length cursors.now }
    requires started { All (λ c. 1 ≤ C.place c) cursors.now }
    ensures { IsBetter (sides C.items C.place cursors.now) a b result }
{
    if is_lower_at(cursors, b, a) { b } else { a }
}

/// The better of two cursors: the one that stands lower, and the earlier where none does.
fn better<'a, C: Cursor<'a>>(cursors: &[C], a: usize, b: usize) -> usize
    requires first { a < length cursors.now }
    requires second { b < length cursors.now }
    requires started { All (λ c. 1 ≤ C.place c) cursors.now }
    ensures { IsBetter (sides C.items C.place cursors.now) a b result }
{
    if a < b {
        better_of(cursors, a, b)
    } else {
        better_of(cursors, b, a)
    }
}

/// The cursor that stands at a place of the tree: at a leaf its own, and else the winner of the game there.
pub(crate) fn winner_at(winners: &[usize], place: usize) -> usize
    ensures { result ≡ winner_at winners.now place }
{
    if place < winners.len() {
        winners[place]
    } else {
        place - winners.len()
    }
}

/// Who wins the game at a place between the two below it.
fn game<'a, C: Cursor<'a>>(cursors: &[C], winners: &[usize], place: usize) -> usize
    requires count { length winners.now ≡ length cursors.now }
    requires within { All (λ w. w < length cursors.now) winners.now }
    requires started { All (λ c. 1 ≤ C.place c) cursors.now }
    requires above { 1 ≤ place }
    requires inside { place < length winners.now }
    ensures better { IsBetter (sides C.items C.place cursors.now) (winner_at winners.now (2 * place)) (winner_at winners.now (2 * place + 1)) result }
    ensures inside { result < length cursors.now }
{
    let left = winner_at(winners, 2 * place);
    let right = winner_at(winners, 2 * place + 1);
    better(cursors, left, right)
}

/// The winners of all games, of which the lowest are played first.
pub(crate) fn play_all<'a, C: Cursor<'a>>(
    alloc: Global,
    cursors: &[C],
) -> Result<Vec<usize>, AllocError>
    requires { All (λ c. 1 ≤ C.place c) cursors.now }
    ensures count { IfOk result (λ ws. length ws.items ≡ length cursors.now) }
    ensures within { IfOk result (λ ws. All (λ w. w < length cursors.now) ws.items) }
    ensures won { IfOk result (λ ws. AreWon (sides C.items C.place cursors.now) ws.items) }
{
    let mut winners = vec![in alloc; 0; cursors.len()]?;
    let mut place = winners.len();
    while place > 1 {
        place -= 1;
        winners[place] = game(cursors, &winners, place);
    }
    Ok(winners)
}

/// Plays the games again on the way from a cursor that moved to the top.
fn replay<'a, C: Cursor<'a>>(cursors: &[C], winners: &mut [usize], moved: usize)
    requires count { length winners.old ≡ length cursors.now }
    requires within { All (λ w. w < length cursors.now) winners.old }
    requires started { All (λ c. 1 ≤ C.place c) cursors.now }
    requires moved { moved < length cursors.now }
    requires won { AreWonBut (sides C.items C.place cursors.now) winners.old ((length winners.old + moved) / 2) }
    ensures within { All (λ w. w < length cursors.now) winners.new }
    ensures won { AreWon (sides C.items C.place cursors.now) winners.new }
{
    let mut place = (winners.len() + moved) / 2;
    while place > 0 {
        winners[place] = game(cursors, winners, place);
        place /= 2;
    }
}

/// The version where the winner of all games stands.
pub(crate) fn shown_at<'a, C: Cursor<'a>>(
    cursors: &[C],
    winners: &[usize],
) -> Option<(KeyRef<'a>, Hit<'a>)>
    requires cut { AreSidesCut (sides C.items C.place cursors.now) }
    requires started { All (λ c. 1 ≤ C.place c) cursors.now }
    requires count { length winners.now ≡ length cursors.now }
    requires within { All (λ w. w < length cursors.now) winners.now }
    requires won { AreWon (sides C.items C.place cursors.now) winners.now }
    ensures { shown_by result ≡ slice_get (all (sides C.items C.place cursors.now)) (passed (sides C.items C.place cursors.now)) }
{
    if cursors.is_empty() {
        return None;
    }
    cursors[winner_at(winners, 1)].at()
}

/// Moves the winner of all games one version on, and plays its games again.
pub(crate) fn step<'a, C: Cursor<'a>>(cursors: &mut [C], winners: &mut [usize])
    requires cut { AreSidesCut (sides C.items C.place cursors.old) }
    requires started { All (λ c. 1 ≤ C.place c) cursors.old }
    requires count { length winners.old ≡ length cursors.old }
    requires within { All (λ w. w < length cursors.old) winners.old }
    requires won { AreWon (sides C.items C.place cursors.old) winners.old }
    requires more { passed (sides C.items C.place cursors.old) < length (all (sides C.items C.place cursors.old)) }
    ensures over { map C.over cursors.new ≡ map C.over cursors.old }
    ensures same { all (sides C.items C.place cursors.new) ≡ all (sides C.items C.place cursors.old) }
    ensures passed { passed (sides C.items C.place cursors.new) ≡ passed (sides C.items C.place cursors.old) + 1 }
    ensures cut { AreSidesCut (sides C.items C.place cursors.new) }
    ensures started { All (λ c. 1 ≤ C.place c) cursors.new }
    ensures within { All (λ w. w < length cursors.new) winners.new }
    ensures won { AreWon (sides C.items C.place cursors.new) winners.new }
{
    let first = winner_at(winners, 1);
    let c = &mut cursors[first];
    c.next();
    replay(cursors, winners, first);
}
