//! A cursor over the versions of a block.

ghost use Rattle.std.specs.Prelude.{◌≡◌, ◌≤◌, ◌+◌, length};
ghost use Rattle.ts_key.specs.Lists.{IsSorted};
ghost use Rattle.ts_key.specs.Ordered.{ordered_from};
ghost use Rattle.ts_key.specs.Props.{sorted_prop};

use crate::block::Block;
use merge_cursor::{Cursor, Placed};
use ts_key::{Hit, KeyRef};

/// It stands before the first version of a block, at one of them, or after the last. A block names no family, so what
/// it is `over` is its items alone: a cursor that is to stand for a family brings the family along.
#[derive(Drop)]
pub struct BlockCursor<'a> {
    block: &'a Block,
    place: usize,
    ghost sorted: { IsSorted block.now } by { sorted_prop block.now },
    ghost within: { place ≤ length block.now + 1 },
}

impl<'a> BlockCursor<'a> {
    ghost use Rattle.data_block.specs.Cursors.{cursor_items, place_of};

    /// A cursor at the first version.
    pub(crate) fn new(block: &'a Block) -> BlockCursor<'a>
        requires { IsSorted block.now }
        ensures versions { cursor_items result ≡ block.now }
        ensures place { place_of result ≡ 1 }
    {
        BlockCursor { block, place: 1 }
    }
}

impl Placed for BlockCursor<'_> {
    ghost use Rattle.std.specs.Prelude.{List};
    ghost use Rattle.ts_key.specs.Items.{Item};

    ghost Over = { List Item };

    ghost over = { λ c. c.block.now };

    ghost items = { λ c. c.block.now };

    ghost place = { λ c. c.place };

    ghost ordered = { λ c. ordered_from c.block.now c.sorted };

    ghost within = { λ c. c.within };
}

impl<'a> Cursor<'a> for BlockCursor<'a> {
    fn seek(&mut self, to: &KeyRef<'_>) {
        self.place = self.block.before(to) + 1;
    }

    fn seek_end(&mut self) {
        self.place = self.block.len() + 1;
    }

    fn next(&mut self) {
        if self.place <= self.block.len() {
            self.place += 1;
        }
    }

    fn prev(&mut self) {
        if self.place > 0 {
            self.place -= 1;
        }
    }

    /// It is lent for as long as the block lives.
    fn at(&self) -> Option<(KeyRef<'a>, Hit<'a>)> {
        if self.place == 0 || self.place > self.block.len() {
            return None;
        }
        let block = self.block;
        Some(block.version(self.place - 1))
    }
}
