//! A cursor over a slice of versions.
ghost use Rattle.std.specs.Prelude.{◌≡◌, ◌+◌, ◌≤◌, List, length};
ghost use Rattle.std.specs.Option.{option_copied};
ghost use Rattle.ts_key.specs.Items.{items_of, item_of, shown};
ghost use Rattle.ts_key.specs.Lists.{IsOrdered, standing};
ghost use Rattle.ts_key.specs.Props.{ordered_prop};
ghost use Rattle.merge_cursor.specs.Slices.{length_within};

use crate::cursor::{Cursor, Placed};
use ts_key::{Hit, KeyRef, Version, lower_bound};

/// A cursor over a slice of versions, which `seek` halves.
#[derive(Drop)]
pub struct SliceCursor<'a> {
    versions: &'a [Version],
    place: usize,
    ghost ordered: { IsOrdered (items_of versions.now) } by { ordered_prop (items_of versions.now) },
    ghost within: { place ≤ length versions.now + 1 },
}

impl<'a> SliceCursor<'a> {
    /// A cursor at the first version.
    pub fn new(versions: &'a [Version]) -> SliceCursor<'a>
        requires { IsOrdered (items_of versions.now) }
        ensures versions { result.versions.now ≡ versions.now }
        ensures first { result.place ≡ 1 }
    {
        SliceCursor { versions, place: 1 }
    }

    /// The version where it stands, whole.
    pub fn version(&self) -> Option<&'a Version>
        ensures { option_copied result ≡ standing self.now.versions.now self.now.place }
    {
        if self.place == 0 || self.place > self.versions.len() {
            return None;
        }
        let versions = self.versions;
        Some(&versions[self.place - 1])
    }
}

impl Placed for SliceCursor<'_> {
    ghost use Rattle.ts_key.specs.declared.version.Version.{Version};

    ghost Over = { List Version };

    ghost over = { λ c. c.versions.now };

    ghost items = { λ c. items_of c.versions.now };

    ghost place = { λ c. c.place };

    ghost ordered = { λ c. c.ordered };

    ghost within = { λ c. length_within c.versions.now c.place c.within };
}

/// What a version shows.
fn show(v: &Version) -> (KeyRef<'_>, Hit<'_>)
    ensures { shown result ≡ item_of v.now }
{
    (v.key_ref(), v.hit())
}

impl<'a> Cursor<'a> for SliceCursor<'a> {
    fn seek(&mut self, to: &KeyRef<'_>) {
        self.place = lower_bound(self.versions, to) + 1;
    }

    fn seek_end(&mut self) {
        self.place = self.versions.len() + 1;
    }

    fn next(&mut self) {
        if self.place <= self.versions.len() {
            self.place += 1;
        }
    }

    fn prev(&mut self) {
        if self.place > 0 {
            self.place -= 1;
        }
    }

    fn at(&self) -> Option<(KeyRef<'a>, Hit<'a>)> {
        if self.place == 0 || self.place > self.versions.len() {
            return None;
        }
        let versions = self.versions;
        Some(show(&versions[self.place - 1]))
    }
}
