//! One family of a super version.
ghost use Rattle.std.specs.Prelude.{◌≡◌, option_map, All, IfOk};
ghost use Rattle.ts_key.specs.Visible.{newest_ts};
ghost use Rattle.super_version.specs.Changes.{empty_family, family_with_floor, family_with_seal, family_with_flush, family_with_compaction};
ghost use Rattle.super_version.specs.Contents.{items_of_family};
ghost use Rattle.super_version.specs.Writes.{IsWrittenTo};

use crate::live_table::LiveTable;
use crate::newest::{later_in_levels, later_in_mem, later_in_mems};
use crate::shared::SharedList;
use crate::{NoMemory, levels};
use memtable::Mem;
use std::alloc::Global;
use std::sync::Arc;
use ts_key::{Family, Form, Seq, Ts, Version};

/// How many levels of tables a family has.
pub const LEVELS: usize = 7;

/// What a family has at one moment. Two lists of it may hold the same version.
#[derive(Drop)]
pub struct FamilyState {
    pub form: Form,
    /// No read below it is answered.
    pub floor: Ts,
    /// The sequence up to which its versions are in tables.
    pub through: Seq,
    /// The memtable that takes what is written, of the family's number.
    pub active: Mem,
    /// The memtables that take no more, the newest first.
    pub sealed: SharedList<Mem>,
    /// The tables, level by level: on level 0 the one with the greatest sequence first, on the others by their least keys.
    pub levels: SharedList<SharedList<LiveTable>>,
}

impl FamilyState {
    /// A family without a version.
    pub fn empty(
        alloc: Global,
        family: Family,
        form: Form,
        floor: Ts,
    ) -> Result<FamilyState, NoMemory>
        ensures { IfOk result (λ f. f ≡ empty_family family form floor) }
    {
        Ok(FamilyState {
            form,
            floor,
            through: Seq(0),
            active: Mem::empty(alloc, family),
            sealed: SharedList::empty(alloc)?,
            levels: levels::empty(alloc)?,
        })
    }

    /// The family with these versions more, all its own, in its active memtable.
    pub(crate) fn with_versions(&self, versions: &[Version]) -> Result<FamilyState, NoMemory>
        requires { All (λ v. v.family ≡ self.now.active.family) versions.now }
        ensures { IfOk result (IsWrittenTo versions.now self.now) }
    {
        Ok(FamilyState {
            form: self.form,
            floor: self.floor,
            through: self.through,
            active: self.active.with(versions)?,
            sealed: self.sealed.copy()?,
            levels: self.levels.copy()?,
        })
    }

    /// The family with another floor.
    pub(crate) fn with_floor(&self, floor: Ts) -> Result<FamilyState, NoMemory>
        ensures { IfOk result (λ f. f ≡ family_with_floor floor self.now) }
    {
        Ok(FamilyState {
            form: self.form,
            floor,
            through: self.through,
            active: self.active.copy()?,
            sealed: self.sealed.copy()?,
            levels: self.levels.copy()?,
        })
    }

    /// The family with its active memtable sealed, and an empty one in its place.
    pub(crate) fn with_seal(&self, alloc: Global) -> Result<FamilyState, NoMemory>
        ensures { IfOk result (λ f. f ≡ family_with_seal self.now) }
    {
        let full = Arc::new(alloc, self.active.copy()?)?;
        Ok(FamilyState {
            form: self.form,
            floor: self.floor,
            through: self.through,
            active: Mem::empty(alloc, self.active.family()),
            sealed: self.sealed.with_front(alloc, full)?,
            levels: self.levels.copy()?,
        })
    }

    /// The family without its `gone` oldest sealed memtables, and with a table more in front of level 0.
    pub(crate) fn with_flush(
        &self,
        alloc: Global,
        gone: usize,
        through: Seq,
        floor: Ts,
        added: LiveTable,
    ) -> Result<FamilyState, NoMemory>
        ensures { IfOk result (λ f. f ≡ family_with_flush gone through floor added self.now) }
    {
        let left = self.sealed.len().saturating_sub(gone);
        Ok(FamilyState {
            form: self.form,
            floor,
            through,
            active: self.active.copy()?,
            sealed: self.sealed.first(alloc, left)?,
            levels: levels::with_front(alloc, &self.levels, added)?,
        })
    }

    /// The family without the tables of these numbers, and with others on a level, each where it belongs.
    pub(crate) fn with_compaction(
        &self,
        alloc: Global,
        gone: &[u64],
        level: u32,
        added: &[LiveTable],
    ) -> Result<FamilyState, NoMemory>
        ensures { IfOk result (λ f. f ≡ family_with_compaction gone.now level added.now self.now) }
    {
        Ok(FamilyState {
            form: self.form,
            floor: self.floor,
            through: self.through,
            active: self.active.copy()?,
            sealed: self.sealed.copy()?,
            levels: levels::compacted(alloc, &self.levels, gone, level, added)?,
        })
    }

    /// The greatest timestamp of the key in all lists; none where it has no version in any.
    pub fn newest(&self, key: &[u8]) -> Option<Ts>
        ensures { option_map (λ ts. ts.0) result ≡ newest_ts (items_of_family self.now) key.now }
    {
        let best = later_in_mem(None, &self.active, key);
        let best = later_in_mems(best, self.sealed.as_slice(), key);
        later_in_levels(best, self.levels.as_slice(), key)
    }
}
