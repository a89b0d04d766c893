//! A memtable.
ghost use Rattle.std.specs.Prelude.{◌≡◌, ◌+◌, ◌-◌, ◌^◌, ◌≤◌, ◌++◌, [], length, map, min, option_map, slice_get, All, Contains, IfOk, IfSome};
ghost use Rattle.std.specs.Arc.{arc_value};
ghost use Rattle.std.specs.Option.{option_copied};
ghost use Rattle.ts_key.specs.Items.{item_of, items_of};
ghost use Rattle.ts_key.specs.Lists.{IsOrdered};
ghost use Rattle.ts_key.specs.Visible.{newest_ts, visible_item};
ghost use Rattle.sorted_run.specs.Runs.{latest_of};
ghost use Rattle.sorted_run.specs.Sorts.{sorted};
ghost use Rattle.memtable.specs.Memtables.{AreDoubled, KeepsRuns, Memtable, MergesLeast, capped_weight, joined, versions_of_memtable};

use crate::limits::BYTES_LIMIT;
use crate::runs;
use sorted_run::{Run, Steps};
use std::alloc::Global;
use std::marker::Model;
use std::sync::Arc;
use std::sync::ledger::Ledger;
use ts_key::{Family, NoMemory, Seq, Ts, Version};

/// The versions of one family in memory: a list of runs, the newest first, each at least twice as long as the one before
/// it. Copies share the runs. Contracts see the family and the runs; `versions_of_memtable` is what they hold together,
/// in the
/// stored order.
#[derive(Drop)]
pub struct Mem {
    alloc: Global,
    family: Family,
    runs: Vec<Arc<Run>>,
    bytes: u64,
}

impl Model for Mem {
    ghost use Rattle.std.specs.Prelude.{map};
    ghost use Rattle.std.specs.Arc.{arc_value};
    ghost use Rattle.memtable.specs.Memtables.{IsMemtable, Memtable};

    ghost Value = { Memtable };

    ghost view = { λ m. record { family = m.family; runs = map arc_value m.runs.items } };

    ghost invariant = { λ m. IsMemtable m.family (map arc_value m.runs.items) m.bytes };
}

impl Mem {
    /// A memtable of the family, with no version.
    pub fn empty(alloc: Global, family: Family) -> Mem
        ensures { result ≡ record { family = family; runs = [] } }
    {
        Mem {
            alloc,
            family,
            runs: Vec::new(alloc),
            bytes: 0,
        }
    }

    /// The memtable with these versions more, which are of its family; `self` stays as it is. They become the newest run,
    /// into which runs are merged that aren't twice as long. With no version it is a copy that shares all runs.
    pub fn with(&self, versions: &[Version]) -> Result<Mem, NoMemory>
        requires { All (λ v. v.family ≡ self.now.family) versions.now }
        ensures family { IfOk result (λ mem. mem.family ≡ self.now.family) }
        ensures versions { IfOk result (λ mem. versions_of_memtable mem ≡ sorted (versions.now ++ versions_of_memtable self.now)) }
        ensures copy { versions.now ≡ [] → IfOk result (λ mem. mem ≡ self.now) }
        ensures keeps { 1 ≤ length versions.now → IfOk result (λ mem. KeepsRuns versions.now self.now.runs mem.runs) }
        ensures merges { 1 ≤ length versions.now → IfOk result (λ mem. MergesLeast versions.now self.now.runs mem.runs) }
    {
        if versions.is_empty() {
            return self.copy();
        }
        let absorbed = runs::absorbed(self.alloc, versions, &self.runs)?;
        let (run, count) = absorbed;
        let (_, older) = self.runs.split_at(count);
        let mut runs = Vec::with_capacity(self.alloc, older.len() + 1)?;
        runs.push(Arc::new(self.alloc, run)?)?;
        runs::share(&mut runs, older)?;
        Ok(Mem {
            alloc: self.alloc,
            family: self.family,
            runs,
            bytes: (self.bytes + runs::bytes_in(versions)).min(BYTES_LIMIT),
        })
    }

    /// The same memtable, which shares all runs.
    pub fn copy(&self) -> Result<Mem, NoMemory>
        ensures { IfOk result (λ mem. mem ≡ self.now) }
    {
        let mut runs = Vec::with_capacity(self.alloc, self.runs.len())?;
        runs::share(&mut runs, &self.runs)?;
        Ok(Mem {
            alloc: self.alloc,
            family: self.family,
            runs,
            bytes: self.bytes,
        })
    }

    /// The family of its versions.
    pub fn family(&self) -> Family
        ensures { result ≡ self.now.family }
    {
        self.family
    }

    /// The newest version of the key, by timestamp and then by sequence, among those with a timestamp up to `t` and a
    /// sequence up to `s`.
    pub fn find(&self, key: &[u8], t: Ts, s: Seq) -> Option<&Version>
        ensures visible { option_map item_of (option_copied result) ≡ visible_item (items_of (versions_of_memtable self.now)) key.now t.0 s.0 }
        ensures among { IfSome result (λ v. Contains (joined self.now.runs) v.now) }
    {
        runs::find_in(&self.runs, key, t, s)
    }

    /// As `find`; for n versions the steps taken, k, meet 2^k <= n + 1.
    pub fn find_counted<L: Ledger>(
        &self,
        key: &[u8],
        t: Ts,
        s: Seq,
        steps: &mut Steps<L>,
    ) -> Option<&Version>
        ensures visible { option_map item_of (option_copied result) ≡ visible_item (items_of (versions_of_memtable self.now)) key.now t.0 s.0 }
        ensures among { IfSome result (λ v. Contains (joined self.now.runs) v.now) }
        ensures rises { steps.old ≤ steps.new }
        ensures steps { 2 ^ (steps.new - steps.old) ≤ length (versions_of_memtable self.now) + 1 }
    {
        runs::find_counted_in(&self.runs, key, t, s, steps)
    }

    /// The greatest timestamp of the key's versions; none where it has no version here.
    pub fn newest(&self, key: &[u8]) -> Option<Ts>
        ensures { option_map (λ ts. ts.0) result ≡ newest_ts (items_of (versions_of_memtable self.now)) key.now }
    {
        runs::newest_in(&self.runs, key)
    }

    /// The greatest timestamp of all its versions, 0 where it has none: `newest` of a key is never above it.
    pub fn latest(&self) -> Ts
        ensures { result.0 ≡ latest_of (versions_of_memtable self.now) }
    {
        runs::latest_in(&self.runs)
    }

    /// The sum, over its versions, of the bytes of the key and of the value and 32 more; `BYTES_LIMIT` where it is more.
    pub fn bytes(&self) -> u64
        ensures { result ≡ capped_weight (versions_of_memtable self.now) }
    {
        self.bytes
    }

    /// Copies of the versions, in the stored order.
    pub fn versions(&self) -> Result<Vec<Version>, NoMemory>
        ensures versions { IfOk result (λ vs. vs.items ≡ versions_of_memtable self.now) }
        ensures order { IsOrdered (items_of (versions_of_memtable self.now)) }
        ensures family { All (λ v. v.family ≡ self.now.family) (versions_of_memtable self.now) }
    {
        let all = runs::merged(self.alloc, &self.runs)?;
        Ok(all.into_versions())
    }

    /// How many runs it has.
    pub fn runs(&self) -> u32
        ensures runs { result ≡ length self.now.runs }
        ensures few { 2 ^ result ≤ length (versions_of_memtable self.now) + 1 }
        ensures doubled { AreDoubled self.now.runs }
    {
        match self.runs.last() {
            None => 0,
            Some(oldest) => {
                let _most = oldest.as_ref().len();
                self.runs.len() as u32
            }
        }
    }

    /// The run at an index, the newest at 0; none exactly from `runs` on.
    pub fn run(&self, index: u32) -> Option<&Run>
        ensures { option_copied result ≡ slice_get self.now.runs index }
    {
        match self.runs.get(index as usize) {
            None => None,
            Some(run) => Some(run.as_ref()),
        }
    }
}
