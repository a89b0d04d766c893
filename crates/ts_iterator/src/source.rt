//! A cursor over one list of a family.

use block_table::TableCursor;
use merge_cursor::{Cursor, Placed, SliceCursor};
use ts_key::{Hit, KeyRef};

/// A cursor over a run of a memtable, or over a table.
#[derive(Drop)]
pub(crate) enum Source<'a> {
    Run(SliceCursor<'a>),
    Table(TableCursor<'a>),
}

impl Placed for Source<'_> {
    ghost use Rattle.std.specs.Prelude.{List};
    ghost use Rattle.ts_key.specs.Items.{Item};
    ghost use Rattle.ts_iterator.specs.Sources as sources;

    ghost Over = { List Item };

    ghost over = { sources.items };

    ghost items = { sources.items };

    ghost place = { sources.place };

    ghost ordered = { sources.ordered };

    ghost within = { sources.within };
}

impl<'a> Cursor<'a> for Source<'a> {
    fn seek(&mut self, to: &KeyRef<'_>) {
        match self {
            Source::Run(c) => c.seek(to),
            Source::Table(c) => c.seek(to),
        }
    }

    fn seek_end(&mut self) {
        match self {
            Source::Run(c) => c.seek_end(),
            Source::Table(c) => c.seek_end(),
        }
    }

    fn next(&mut self) {
        match self {
            Source::Run(c) => c.next(),
            Source::Table(c) => c.next(),
        }
    }

    fn prev(&mut self) {
        match self {
            Source::Run(c) => c.prev(),
            Source::Table(c) => c.prev(),
        }
    }

    fn at(&self) -> Option<(KeyRef<'a>, Hit<'a>)> {
        match self {
            Source::Run(c) => c.at(),
            Source::Table(c) => c.at(),
        }
    }
}
