//! A cursor over all versions of several cursors.
ghost use Rattle.std.specs.Prelude.{◌≡◌, ◌≤◌, All, IfSome, List, map, slice_get, true, false};
ghost use Rattle.ts_key.specs.Order.{sort_key_of};
ghost use Rattle.ts_key.specs.Lists.{joined_lists, below, standing, merged};
ghost use Rattle.ts_key.specs.Ordered.{stored_ordered};
ghost use Rattle.merge_cursor.specs.Sides.{IsMerge, StandsAt, sides, all, passed, lists, merged_place};
ghost use Rattle.merge_cursor.specs.Shows.{place_within};

use crate::children::{end_all, lowest, seek_all, shown_at, step_back, step_on};
use crate::cursor::{Cursor, Placed};
use ts_key::{Hit, KeyRef};

/// A cursor over all versions of several cursors, in the stored order. Of two with one key, timestamp and sequence that of
/// the earlier cursor comes first. Each step compares at most one key fewer than there are cursors.
#[derive(Drop)]
pub struct Merge<C: Placed> {
    children: Vec<C>,
    lowest: usize,
    before: bool,
    ghost merge: { IsMerge (sides C.items C.place children.items) lowest },
    ghost started: { All (λ c. 1 ≤ C.place c) children.items },
    ghost ahead: { before ≡ true → passed (sides C.items C.place children.items) ≡ 0 },
}

impl<C: Placed> Merge<C> {
    /// A cursor at the first version, where each of the cursors is at its first.
    pub fn new<'a>(children: Vec<C>) -> Merge<C>
    where
        C: Cursor<'a>,
        requires { All (λ c. C.place c ≡ 1) children.items }
        ensures children { result.children ≡ children }
        ensures first { result.before ≡ false }
        ensures items { all (sides C.items C.place result.children.items) ≡ merged (map C.items children.items) }
        ensures none { passed (sides C.items C.place result.children.items) ≡ 0 }
    {
        let lowest = lowest(&children);
        Merge {
            children,
            lowest,
            before: false,
        }
    }

    /// A cursor at the first version that isn't before the key, wherever the cursors stand.
    pub fn seeking<'a>(mut children: Vec<C>, to: &KeyRef<'_>) -> Merge<C>
    where
        C: Cursor<'a>,
        ensures over { map C.over result.children.items ≡ map C.over children.items }
        ensures children { map C.items result.children.items ≡ map C.items children.items }
        ensures items { all (sides C.items C.place result.children.items) ≡ merged (map C.items children.items) }
        ensures place { passed (sides C.items C.place result.children.items) ≡ below (sort_key_of to.now) (merged (map C.items children.items)) }
        ensures started { result.before ≡ false }
    {
        let lowest = seek_all(&mut children, to);
        Merge {
            children,
            lowest,
            before: false,
        }
    }

    /// The cursor whose version it shows.
    pub fn child(&self) -> Option<&C>
        ensures lowest { IfSome result (λ c. slice_get self.now.children.items self.now.lowest ≡ Some c.now) }
        ensures stands { let ss = sides C.items C.place self.now.children.items in StandsAt C.items C.place result (standing (all ss) (merged_place self.now.before ss)) }
    {
        if self.before {
            return None;
        }
        if self.lowest >= self.children.len() {
            return None;
        }
        Some(&self.children[self.lowest])
    }
}

impl<C: Placed> Placed for Merge<C> {
    ghost Over = { List C.Over };

    ghost over = { λ m. map C.over m.children.items };

    ghost items = { λ m. all (sides C.items C.place m.children.items) };

    ghost place = { λ m. merged_place m.before (sides C.items C.place m.children.items) };

    ghost ordered = { λ m. stored_ordered (joined_lists (lists (sides C.items C.place m.children.items))) };

    ghost within = { λ m. place_within (sides C.items C.place m.children.items) m.lowest m.before m.merge };
}

impl<'a, C: Cursor<'a>> Cursor<'a> for Merge<C> {
    fn seek(&mut self, to: &KeyRef<'_>) {
        self.lowest = seek_all(&mut self.children, to);
        self.before = false;
    }

    fn seek_end(&mut self) {
        self.lowest = end_all(&mut self.children);
        self.before = false;
    }

    fn next(&mut self) {
        if self.before {
            self.before = false;
        } else if self.lowest < self.children.len() {
            self.lowest = step_on(&mut self.children, self.lowest);
        }
    }

    fn prev(&mut self) {
        if !self.before {
            match step_back(&mut self.children, self.lowest) {
                Some(low) => self.lowest = low,
                None => self.before = true,
            }
        }
    }

    fn at(&self) -> Option<(KeyRef<'a>, Hit<'a>)> {
        if self.before {
            return None;
        }
        shown_at(&self.children, self.lowest)
    }
}
