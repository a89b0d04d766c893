//! The super version of what was read: the memtables hold versions of the logs, each family's in one run, and the levels the
//! tables.

ghost use Rattle.std.specs.Prelude.{◌≡◌, ◌≤◌, length, map, IfOk};
ghost use Rattle.std.specs.List.{list_all};
ghost use Rattle.std.specs.Arc.{arc_value};
ghost use Rattle.std.specs.Ordering.{is_lt};
ghost use Rattle.ts_key.specs.declared.limits.TheConstants.{FAMILY_LIMIT};
ghost use Rattle.sorted_run.specs.Sorts.{sorted};
ghost use Rattle.memtable.specs.Memtables.{versions_of_memtable};
ghost use Rattle.super_version.specs.Levels.{stands_before};
ghost use Rattle.super_version.specs.Writes.{of_family};
ghost use Rattle.recovery.specs.Versions.{AreLevels, AreStates, IsLevel, ShowsFamily, ShowsVersion, is_own, level_tables};

use crate::NoMemory;
use crate::tables::Opened;
use manifest_fold::{FamilyFold, Folded};
use memtable::Mem;
use std::alloc::Global;
use std::cmp::Ordering;
use std::sync::Arc;
use super_version::{FamilyState, LEVELS, LiveTable, SharedList, SuperVersion};
use ts_key::{Family, Seq, Version};

/// The versions of a family, shared.
fn own_versions(
    alloc: Global,
    family: Family,
    versions: &[Version],
) -> Result<Vec<Version>, NoMemory>
    ensures { IfOk result (λ own. own.items ≡ of_family family versions.now) }
{
    let mut own = Vec::new(alloc);
    for version in versions {
        if version.family.0 == family.0 {
            own.push(version.copy()?)?;
        }
    }
    Ok(own)
}

/// Whether all versions are of a family.
fn are_own(family: Family, versions: &[Version]) -> bool
    ensures { result ≡ list_all (is_own family) versions.now }
{
    versions.iter().all(|version| version.family.0 == family.0)
}

/// The memtable of a family: one run of its versions, where it has any. They are listed apart only where others have some too.
fn memtable_of(alloc: Global, family: Family, versions: &[Version]) -> Result<Mem, NoMemory>
    ensures family { IfOk result (λ mem. mem.family ≡ family) }
    ensures versions { IfOk result (λ mem. versions_of_memtable mem ≡ sorted (of_family family versions.now)) }
    ensures runs { IfOk result (λ mem. length mem.runs ≤ 1) }
{
    if are_own(family, versions) {
        return Mem::empty(alloc, family).with(versions);
    }
    let own = own_versions(alloc, family, versions)?;
    Mem::empty(alloc, family).with(&own)
}

/// The tables of a family on a level, by ascending number.
pub(crate) fn tables_on(
    alloc: Global,
    family: Family,
    level: u32,
    opened: &[Opened],
) -> Result<Vec<Arc<LiveTable>>, NoMemory>
    ensures { IfOk result (λ tables. map arc_value tables.items ≡ level_tables family level opened.now) }
{
    let mut tables = Vec::new(alloc);
    for table in opened {
        if table.family.0 == family.0 && table.level == level {
            tables.push(Arc::new(alloc, table.table.copy()?)?)?;
        }
    }
    Ok(tables)
}

/// How two tables of level 0 stand to each other.
fn by_sequence(a: &LiveTable, b: &LiveTable) -> Ordering
    ensures { is_lt result ≡ stands_before 0 a.now b.now }
{
    let a = a.table().properties();
    let b = b.table().properties();
    b.greatest_seq.0.cmp(&a.greatest_seq.0)
}

/// How two tables of a deeper level stand to each other.
fn by_least_key(a: &LiveTable, b: &LiveTable) -> Ordering
    ensures { is_lt result ≡ stands_before 1 a.now b.now }
{
    let a = a.table().properties();
    let b = b.table().properties();
    a.least.bytes().cmp(b.least.bytes())
}

/// The tables of level 0, in order.
fn newest_first(tables: Vec<Arc<LiveTable>>) -> Vec<Arc<LiveTable>>
    ensures { IsLevel 0 (map arc_value tables.items) (map arc_value result.items) }
{
    let mut tables = tables;
    tables.sort_unstable_by(|a, b| by_sequence(a.as_ref(), b.as_ref()));
    tables
}

/// The tables of a deeper level, in order.
pub(crate) fn least_first(tables: Vec<Arc<LiveTable>>) -> Vec<Arc<LiveTable>>
    ensures { IsLevel 1 (map arc_value tables.items) (map arc_value result.items) }
{
    let mut tables = tables;
    tables.sort_unstable_by(|a, b| by_least_key(a.as_ref(), b.as_ref()));
    tables
}

/// A level of a family's tables.
fn level_of(
    alloc: Global,
    family: Family,
    level: u32,
    opened: &[Opened],
) -> Result<SharedList<LiveTable>, NoMemory>
    ensures { IfOk result (IsLevel level (level_tables family level opened.now)) }
{
    let tables = tables_on(alloc, family, level, opened)?;
    if level == 0 {
        SharedList::of(alloc, newest_first(tables))
    } else {
        SharedList::of(alloc, least_first(tables))
    }
}

/// All levels of a family's tables.
fn levels_of(
    alloc: Global,
    family: Family,
    opened: &[Opened],
) -> Result<SharedList<SharedList<LiveTable>>, NoMemory>
    ensures { IfOk result (AreLevels family opened.now LEVELS) }
{
    let mut levels = Vec::with_capacity(alloc, LEVELS)?;
    for level in 0..LEVELS as u32 {
        let tables = level_of(alloc, family, level, opened)?;
        levels.push(Arc::new(alloc, tables)?)?;
    }
    SharedList::of(alloc, levels)
}

/// The state of a family.
fn family_state(
    alloc: Global,
    family: Family,
    fold: &FamilyFold,
    opened: &[Opened],
    versions: &[Version],
) -> Result<FamilyState, NoMemory>
    ensures { IfOk result (ShowsFamily family opened.now versions.now fold.now) }
{
    Ok(FamilyState {
        form: fold.form,
        floor: fold.floor,
        through: fold.through,
        active: memtable_of(alloc, family, versions)?,
        sealed: SharedList::empty(alloc)?,
        levels: levels_of(alloc, family, opened)?,
    })
}

/// The states of families, the first of which has the number 0.
fn states_of(
    alloc: Global,
    families: &[FamilyFold],
    opened: &[Opened],
    versions: &[Version],
) -> Result<Vec<Arc<FamilyState>>, NoMemory>
    requires { length families.now ≤ FAMILY_LIMIT }
    ensures { IfOk result (λ states. AreStates opened.now versions.now families.now (length families.now) (map arc_value states.items)) }
{
    let mut states = Vec::with_capacity(alloc, families.len())?;
    for (index, family) in families.iter().enumerate() {
        let state = family_state(alloc, Family(index as u32), family, opened, versions)?;
        states.push(Arc::new(alloc, state)?)?;
    }
    Ok(states)
}

/// The super version of a fold, of the tables that were opened and of versions, with this last sequence. It takes the time of a
/// sort of the versions and of one of the tables, and for each family that of a look at them.
pub(crate) fn version_of(
    alloc: Global,
    fold: &Folded,
    opened: &[Opened],
    versions: &[Version],
    last: Seq,
) -> Result<SuperVersion, NoMemory>
    requires { length fold.now.families ≤ FAMILY_LIMIT }
    ensures { IfOk result (ShowsVersion fold.now opened.now versions.now last) }
{
    let states = states_of(alloc, fold.families.as_slice(), opened, versions)?;
    Ok(SuperVersion {
        last,
        families: SharedList::of(alloc, states)?,
    })
}
