//! A super version.
ghost use Rattle.std.specs.Prelude.{◌≡◌, ◌+◌, ◌<◌, ◌≤◌, length, option_map, slice_get, slice_set, IfOk};
ghost use Rattle.std.specs.Option.{option_copied};
ghost use Rattle.ts_key.specs.Visible.{newest_ts};
ghost use Rattle.super_version.specs.Changes.{ChangesFamily, family_with_floor, family_with_seal, family_with_flush, family_with_compaction};
ghost use Rattle.super_version.specs.Contents.{newest_in_family};
ghost use Rattle.super_version.specs.Writes.{AddsBatch};

use crate::NoMemory;
use crate::family::FamilyState;
use crate::live_table::LiveTable;
use crate::shared::SharedList;
use crate::writing::written;
use std::alloc::Global;
use std::sync::Arc;
use ts_key::limits::SEQUENCE_LIMIT;
use ts_key::{Batch, Family, Seq, Ts};

/// What the store has at one moment: the last sequence, and the families by their numbers. It never changes: each call
/// makes a new one, which shares with `self` the states of the families that it doesn't touch, and of the one that it
/// touches whatever else stays.
#[derive(Drop)]
pub struct SuperVersion {
    pub last: Seq,
    pub families: SharedList<FamilyState>,
}

impl SuperVersion {
    /// The state of a family; none exactly where no family has the number.
    pub fn family(&self, family: Family) -> Option<&FamilyState>
        ensures { option_copied result ≡ slice_get self.now.families family.0 }
    {
        self.families.get(family.0 as usize)
    }

    /// The same super version, shared.
    pub fn copy(&self) -> Result<SuperVersion, NoMemory>
        ensures { IfOk result (λ new. new ≡ self.now) }
    {
        Ok(SuperVersion {
            last: self.last,
            families: self.families.copy()?,
        })
    }

    /// The super version with a batch more: its operations have the sequences behind the last one, in their order, and each
    /// is in the active memtable of its family. No list of tables and no sealed memtable is copied.
    pub fn with_write(&self, alloc: Global, batch: &Batch) -> Result<SuperVersion, NoMemory>
        requires { self.now.last.0 + length batch.now ≤ SEQUENCE_LIMIT }
        ensures { IfOk result (AddsBatch batch.now self.now) }
    {
        let ops = batch.ops();
        let first = self.last.0 + 1;
        let mut families = Vec::with_capacity(alloc, self.families.len())?;
        for state in self.families.as_slice() {
            families.push(written(alloc, state, ops, first)?)?;
        }
        Ok(SuperVersion {
            last: Seq(self.last.0 + ops.len() as u64),
            families: SharedList::of(alloc, families)?,
        })
    }

    /// The super version with another state of a family that there is.
    fn with_family(
        &self,
        alloc: Global,
        family: Family,
        state: FamilyState,
    ) -> Result<SuperVersion, NoMemory>
        requires { family.0 < length self.now.families }
        ensures last { IfOk result (λ new. new.last ≡ self.now.last) }
        ensures families { IfOk result (λ new. new.families ≡ slice_set self.now.families family.0 state) }
    {
        let index = family.0 as usize;
        let state = Arc::new(alloc, state)?;
        Ok(SuperVersion {
            last: self.last,
            families: self.families.with_item(alloc, index, state)?,
        })
    }

    /// The super version with another floor of a family.
    pub fn with_floor(
        &self,
        alloc: Global,
        family: Family,
        floor: Ts,
    ) -> Result<SuperVersion, NoMemory>
        ensures { IfOk result (ChangesFamily family.0 (family_with_floor floor) self.now) }
    {
        let Some(state) = self.family(family) else {
            return self.copy();
        };
        self.with_family(alloc, family, state.with_floor(floor)?)
    }

    /// The super version in which the active memtable of a family is the newest of its sealed ones, and an empty one takes
    /// what is written.
    pub fn sealed(&self, alloc: Global, family: Family) -> Result<SuperVersion, NoMemory>
        ensures { IfOk result (ChangesFamily family.0 family_with_seal self.now) }
    {
        let Some(state) = self.family(family) else {
            return self.copy();
        };
        self.with_family(alloc, family, state.with_seal(alloc)?)
    }

    /// The super version after a flush of a family: its `gone` oldest sealed memtables are out, and the table is in front
    /// of level 0. All its versions up to `through` are in tables, and it has this floor.
    pub fn with_flush(
        &self,
        alloc: Global,
        family: Family,
        gone: usize,
        through: Seq,
        floor: Ts,
        added: LiveTable,
    ) -> Result<SuperVersion, NoMemory>
        ensures { IfOk result (ChangesFamily family.0 (family_with_flush gone through floor added) self.now) }
    {
        let Some(state) = self.family(family) else {
            return self.copy();
        };
        let state = state.with_flush(alloc, gone, through, floor, added)?;
        self.with_family(alloc, family, state)
    }

    /// The super version after a compaction of a family: its tables of the numbers `gone` are out, on whatever level, and
    /// the tables `added` are on a level, each where it belongs.
    pub fn with_compaction(
        &self,
        alloc: Global,
        family: Family,
        gone: &[u64],
        level: u32,
        added: Vec<LiveTable>,
    ) -> Result<SuperVersion, NoMemory>
        ensures { IfOk result (ChangesFamily family.0 (family_with_compaction gone.now level added.items) self.now) }
    {
        let Some(state) = self.family(family) else {
            return self.copy();
        };
        let state = state.with_compaction(alloc, gone, level, &added)?;
        self.with_family(alloc, family, state)
    }

    /// The greatest timestamp of a key of a family in all lists; none where it has no version in any.
    pub fn newest(&self, family: Family, key: &[u8]) -> Option<Ts>
        ensures { option_map (λ ts. ts.0) result ≡ newest_in_family (slice_get self.now.families family.0) key.now }
    {
        match self.family(family) {
            None => None,
            Some(state) => state.newest(key),
        }
    }
}
