//! A list of versions that knows a bound of their timestamps, so that most writes need no look-up.
ghost use Rattle.std.specs.Prelude.{◌≡◌, ◌≤◌, [], ◌∷◌, ◌++◌, length, take, IfOk, OnErr};
ghost use Rattle.udt_model.specs.Versions.{newest_of, of_key};
ghost use Rattle.solo_runner.specs.VersionLists.{IsBound, above};

use std::alloc::Global;
use std::marker::Model;
use ts_key::{Family, NoMemory, Ts, Version};
use udt_model::plain_newest;

/// The versions of a store in the order in which they were written, and a bound of their timestamps.
#[derive(Drop)]
pub struct Versions {
    items: Vec<Version>,
    latest: Ts,
}

impl Model for Versions {
    ghost use Rattle.std.specs.Prelude.{List};
    ghost use Rattle.ts_key.specs.declared.version.Version.{Version};
    ghost use Rattle.solo_runner.specs.VersionLists.{IsBound};

    ghost Value = { List Version };

    ghost view = { λ s. s.items.items };

    ghost invariant = { λ s. IsBound s.latest s.items.items };
}

/// The greatest timestamp of these versions, 0 where there are none.
fn latest_of(versions: &[Version]) -> Ts
    ensures { IsBound result versions.now }
{
    let mut latest = Ts(0);
    for version in versions {
        latest = later(latest, version.ts);
    }
    latest
}

/// The later of two timestamps.
fn later(a: Ts, b: Ts) -> Ts
    ensures first { a.0 ≤ result.0 }
    ensures second { b.0 ≤ result.0 }
{
    if a.0 < b.0 { b } else { a }
}

impl Versions {
    /// These versions.
    pub fn of(items: Vec<Version>) -> Versions
        ensures { result ≡ items.items }
    {
        let latest = latest_of(&items);
        Versions { items, latest }
    }

    /// Adds a version behind the others. Where there is no memory for it, nothing changes.
    pub fn push(&mut self, version: Version) -> Result<(), NoMemory>
        ensures ok { IfOk result (λ _. self.new ≡ self.old ++ version ∷ []) }
        ensures err { OnErr result (self.new ≡ self.old) }
    {
        let latest = later(self.latest, version.ts);
        self.items.push(version)?;
        self.latest = latest;
        Ok(())
    }

    /// Forgets the versions behind the first `count`.
    pub fn truncate(&mut self, count: usize)
        ensures { self.new ≡ take count self.old }
    {
        self.items.truncate(count);
    }

    /// The versions in the order in which they were written.
    pub fn as_slice(&self) -> &[Version]
        ensures { result.now ≡ self.now }
    {
        self.items.as_slice()
    }

    /// How many versions there are.
    pub fn len(&self) -> usize
        ensures { result ≡ length self.now }
    {
        self.items.len()
    }

    /// The allocator of the list.
    pub fn allocator(&self) -> Global {
        *self.items.allocator()
    }

    /// The timestamp of the newest version of a key, where it is above `ts`. Where `ts` is at least the bound,
    /// nothing is looked up.
    pub fn newest_above(&self, family: Family, key: &[u8], ts: Ts) -> Option<Ts>
        ensures { result ≡ above ts (newest_of (of_key self.now family key.now)) }
    {
        if self.latest.0 <= ts.0 {
            return None;
        }
        let newest = plain_newest(&self.items, family, key)?;
        if ts.0 < newest.ts.0 {
            Some(newest.ts)
        } else {
            None
        }
    }
}
