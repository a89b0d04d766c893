//! What lists hold of versions.
ghost use Rattle.std.specs.Prelude.{◌≡◌};
ghost use Rattle.ts_key.specs.Lists.{standing};
ghost use Rattle.ts_key.specs.Order.{sort_key_of};
ghost use Rattle.ts_iterator.specs.Helds.{item_held_by, held_item};

use crate::source::Source;
use merge_cursor::{Cursor, Merge, Placed};
use ts_key::{Hit, KeyRef, Version};

/// What a list holds of a version: the whole of it, or its bytes.
#[derive(Clone, Copy)]
pub(crate) enum Held<'a> {
    Whole(&'a Version),
    Lent(KeyRef<'a>, Hit<'a>),
}

impl<'a> Held<'a> {
    pub(crate) fn key_ref(&self) -> KeyRef<'a>
        ensures { sort_key_of result ≡ (held_item self.now).sort_key }
    {
        match self {
            Held::Whole(version) => version.key_ref(),
            Held::Lent(key, _) => *key,
        }
    }
}

/// A cursor that gives what the list holds of the version where it stands.
pub(crate) trait Holding<'a>: Cursor<'a> {
    fn held(&self) -> Option<Held<'a>>
        ensures { item_held_by result ≡ standing (Self.items self.now) (Self.place self.now) };
}

impl<'a> Holding<'a> for Source<'a> {
    fn held(&self) -> Option<Held<'a>> {
        match self {
            Source::Run(c) => match c.version() {
                None => None,
                Some(version) => Some(Held::Whole(version)),
            },
            Source::Table(c) => match c.at() {
                None => None,
                Some((key, hit)) => Some(Held::Lent(key, hit)),
            },
        }
    }
}

impl<'a> Holding<'a> for Merge<Source<'a>> {
    fn held(&self) -> Option<Held<'a>> {
        match self.child() {
            None => None,
            Some(source) => source.held(),
        }
    }
}
