//! A sorted run.
ghost use Rattle.std.specs.Prelude.{◌≡◌, ◌+◌, ◌++◌, ◌==◌, length, IfOk, IfSome, Contains, option_map};
ghost use Rattle.std.specs.Option.{option_copied};
ghost use Rattle.ts_key.specs.Items.{item_of, items_of};
ghost use Rattle.ts_key.specs.Lists.{IsOrdered};
ghost use Rattle.ts_key.specs.Visible.{newest_ts, visible_item};
ghost use Rattle.sorted_run.specs.Runs.{latest_of, stamps_of};
ghost use Rattle.sorted_run.specs.Sorts.{sorted as sorted_versions};

use crate::hints::Hints;
use crate::steps::Steps;
use crate::{merging, search};
use std::alloc::Global;
use std::marker::Model;
use std::sync::ledger::Ledger;
use ts_key::{NoMemory, Seq, Ts, Version};

/// Versions of one family in the stored order: by key, and of one key the larger timestamp first, then the larger
/// sequence.
#[derive(Drop)]
pub struct Run {
    versions: Vec<Version>,
    stamps: Vec<u64>,
    latest: u64,
    hints: Hints,
}

impl Model for Run {
    ghost use Rattle.std.specs.Prelude.{List};
    ghost use Rattle.ts_key.specs.declared.version.Version.{Version};

    ghost Value = { List Version };

    ghost use Rattle.sorted_run.specs.Runs.{IsSortedRun};

    ghost view = { λ r. r.versions.items };

    ghost invariant = { λ r. IsSortedRun r.versions.items r.stamps.items r.latest };
}

impl Run {
    /// The run of these versions, which are in the stored order.
    pub fn of(alloc: Global, versions: Vec<Version>) -> Result<Run, NoMemory>
        requires { IsOrdered (items_of versions.items) }
        ensures { IfOk result (λ run. run ≡ versions.items) }
    {
        let mut stamps = Vec::with_capacity(alloc, versions.len())?;
        let mut latest = 0u64;
        for v in &versions {
            stamps.push(v.ts.0)?;
            latest = latest.max(v.ts.0);
        }
        let hints = Hints::of(alloc, &versions)?;
        Ok(Run {
            versions,
            stamps,
            latest,
            hints,
        })
    }

    /// The run of these versions in whatever order. Of two with one sort key the first comes first.
    pub fn sorted(alloc: Global, versions: &[Version]) -> Result<Run, NoMemory>
        ensures { IfOk result (λ run. run ≡ sorted_versions versions.now) }
    {
        Run::of(alloc, merging::sorted(alloc, versions)?)
    }

    /// The run of the versions of both. Of two with one sort key the one of `a` comes first.
    pub fn merge(alloc: Global, a: &Run, b: &Run) -> Result<Run, NoMemory>
        ensures { IfOk result (λ run. run ≡ sorted_versions (a.now ++ b.now)) }
    {
        Run::of(alloc, merging::merged(alloc, &a.versions, &b.versions)?)
    }

    /// The newest version of the key, by timestamp and then by sequence, among those with a timestamp up to `t` and a
    /// sequence up to `s`.
    pub fn find(&self, key: &[u8], t: Ts, s: Seq) -> Option<&Version>
        ensures visible { option_map item_of (option_copied result) ≡ visible_item (items_of self.now) key.now t.0 s.0 }
        ensures among { IfSome result (λ v. Contains self.now v.now) }
    {
        search::find_in(
            &self.versions,
            &self.stamps,
            self.hints.place_of(key),
            key,
            t,
            s,
        )
    }

    /// As `find`, in one step.
    pub fn find_counted<L: Ledger>(
        &self,
        key: &[u8],
        t: Ts,
        s: Seq,
        steps: &mut Steps<L>,
    ) -> Option<&Version>
        ensures visible { option_map item_of (option_copied result) ≡ visible_item (items_of self.now) key.now t.0 s.0 }
        ensures among { IfSome result (λ v. Contains self.now v.now) }
        ensures steps { steps.new ≡ steps.old + 1 }
    {
        steps.tick();
        self.find(key, t, s)
    }

    /// The greatest timestamp of the key's versions; none where it has no version here.
    pub fn newest(&self, key: &[u8]) -> Option<Ts>
        ensures { option_map (λ ts. ts.0) result ≡ newest_ts (items_of self.now) key.now }
    {
        search::newest_in(&self.versions, self.hints.place_of(key), key)
    }

    /// The versions, in the stored order.
    pub fn versions(&self) -> &[Version]
        ensures versions { result.now ≡ self.now }
        ensures order { IsOrdered (items_of self.now) }
    {
        &self.versions
    }

    /// The versions, in the stored order, taken out.
    pub fn into_versions(self) -> Vec<Version>
        ensures versions { result.items ≡ self }
        ensures order { IsOrdered (items_of self) }
    {
        let Run {
            versions,
            stamps: _stamps,
            latest: _,
            hints: _hints,
        } = self;
        versions
    }

    /// The timestamps of the versions, in their order.
    pub fn stamps(&self) -> &[u64]
        ensures { result.now ≡ stamps_of self.now }
    {
        &self.stamps
    }

    /// How many versions it holds.
    pub fn len(&self) -> usize
        ensures { result ≡ length self.now }
    {
        self.versions.len()
    }

    pub fn is_empty(&self) -> bool
        ensures { result ≡ (length self.now == 0) }
    {
        self.versions.is_empty()
    }

    /// The greatest timestamp of its versions, 0 where it has none.
    pub fn latest(&self) -> Ts
        ensures { result.0 ≡ latest_of self.now }
    {
        Ts(self.latest)
    }
}
