//! Cursors that are walked forward as one.
ghost use Rattle.std.specs.Prelude.{◌≡◌, ◌+◌, ◌≤◌, ◌<◌, All, IfOk, length, map, slice_get};
ghost use Rattle.ts_key.specs.Items.{shown_by};
ghost use Rattle.ts_key.specs.Lists.{merged};
ghost use Rattle.merge_cursor.specs.Sides.{AreSidesCut, all, passed, sides};
ghost use Rattle.merge_tree.specs.Games.{AreWon};

use crate::games::{play_all, shown_at, step};
use merge_cursor::{Cursor, Placed};
use std::alloc::{AllocError, Global};
use ts_key::{Hit, KeyRef};

/// All versions of several cursors, walked forward in the stored order. Of two with one key, timestamp and sequence that of
/// the earlier cursor comes first.
#[derive(Drop)]
pub struct MergeTree<C: Placed> {
    cursors: Vec<C>,
    /// Who won each game.
    winners: Vec<usize>,
    ghost cut: { AreSidesCut (sides C.items C.place cursors.items) },
    ghost started: { All (λ c. 1 ≤ C.place c) cursors.items },
    ghost count: { length winners.items ≡ length cursors.items },
    ghost within: { All (λ w. w < length cursors.items) winners.items },
    ghost won: { AreWon (sides C.items C.place cursors.items) winners.items },
}

impl<C: Placed> MergeTree<C> {
    /// A walk that stands at the first version, where each of the cursors is at its first.
    pub fn new<'a>(alloc: Global, cursors: Vec<C>) -> Result<MergeTree<C>, AllocError>
    where
        C: Cursor<'a> + Drop,
        requires { All (λ c. C.place c ≡ 1) cursors.items }
        ensures cursors { IfOk result (λ t. t.cursors ≡ cursors) }
        ensures items { IfOk result (λ t. all (sides C.items C.place t.cursors.items) ≡ merged (map C.items cursors.items)) }
        ensures none { IfOk result (λ t. passed (sides C.items C.place t.cursors.items) ≡ 0) }
    {
        let winners = play_all(alloc, &cursors)?;
        Ok(MergeTree { cursors, winners })
    }

    /// The version where it stands; none after the last.
    pub fn at<'a>(&self) -> Option<(KeyRef<'a>, Hit<'a>)>
    where
        C: Cursor<'a>,
        ensures { shown_by result ≡ slice_get (all (sides C.items C.place self.now.cursors.items)) (passed (sides C.items C.place self.now.cursors.items)) }
    {
        shown_at(&self.cursors, &self.winners)
    }

    /// Goes one version on.
    pub fn next<'a>(&mut self)
    where
        C: Cursor<'a>,
        requires { passed (sides C.items C.place self.old.cursors.items) < length (all (sides C.items C.place self.old.cursors.items)) }
        ensures over { map C.over self.new.cursors.items ≡ map C.over self.old.cursors.items }
        ensures same { all (sides C.items C.place self.new.cursors.items) ≡ all (sides C.items C.place self.old.cursors.items) }
        ensures passed { passed (sides C.items C.place self.new.cursors.items) ≡ passed (sides C.items C.place self.old.cursors.items) + 1 }
    {
        step(&mut self.cursors, &mut self.winners);
    }
}
