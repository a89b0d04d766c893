//! The tables of a family, level by level.
ghost use Rattle.std.specs.Prelude.{◌≡◌, ◌≤◌, Bool, filter, length, map, IfOk};
ghost use Rattle.std.specs.Arc.{arc_value};
ghost use Rattle.super_version.specs.Changes.{no_levels, with_level, in_front};
ghost use Rattle.super_version.specs.Levels.{compacted_levels, count_before, is_table_kept, placed_on_level, placed_all, stands_before};

use crate::NoMemory;
use crate::family::LEVELS;
use crate::live_table::LiveTable;
use crate::shared::{SharedList, share};
use std::alloc::Global;
use std::sync::Arc;

/// All levels, without a table.
pub fn empty(alloc: Global) -> Result<SharedList<SharedList<LiveTable>>, NoMemory>
    ensures { IfOk result (λ levels. levels ≡ no_levels) }
{
    let mut levels = Vec::with_capacity(alloc, LEVELS)?;
    while levels.len() < LEVELS {
        let level = SharedList::empty(alloc)?;
        levels.push(Arc::new(alloc, level)?)?;
    }
    SharedList::of(alloc, levels)
}

/// The levels with a table more on level 0, before all others.
pub fn with_front(
    alloc: Global,
    levels: &SharedList<SharedList<LiveTable>>,
    table: LiveTable,
) -> Result<SharedList<SharedList<LiveTable>>, NoMemory>
    ensures { IfOk result (λ new. new ≡ with_level 0 (in_front table) levels.now) }
{
    match levels.get(0) {
        None => levels.copy(),
        Some(tables) => {
            let tables = tables.with_front(alloc, Arc::new(alloc, table)?)?;
            levels.with_item(alloc, 0, Arc::new(alloc, tables)?)
        }
    }
}

// ---- taking out

/// Whether a table has none of these numbers.
fn stays(table: &LiveTable, gone: &[u64]) -> bool
    ensures { result ≡ is_table_kept gone.now table.now }
{
    !gone.contains(&table.number())
}

/// The tables that have none of these numbers.
fn kept(
    alloc: Global,
    tables: &SharedList<LiveTable>,
    gone: &[u64],
) -> Result<SharedList<LiveTable>, NoMemory>
    ensures { IfOk result (λ left. left ≡ filter (is_table_kept gone.now) tables.now) }
{
    let mut left = Vec::new(alloc);
    for table in tables.as_slice() {
        if stays(table.as_ref(), gone) {
            left.push(Arc::try_clone(table)?)?;
        }
    }
    SharedList::of(alloc, left)
}

/// The levels without the tables of these numbers.
fn without(
    alloc: Global,
    levels: &SharedList<SharedList<LiveTable>>,
    gone: &[u64],
) -> Result<SharedList<SharedList<LiveTable>>, NoMemory>
    ensures { IfOk result (λ left. left ≡ map (filter (is_table_kept gone.now)) levels.now) }
{
    let mut left = Vec::with_capacity(alloc, levels.len())?;
    for tables in levels.as_slice() {
        let tables = kept(alloc, tables.as_ref(), gone)?;
        left.push(Arc::new(alloc, tables)?)?;
    }
    SharedList::of(alloc, left)
}

// ---- putting in

/// Whether a table of a level stands before another one there.
fn is_before(level: u32, a: &LiveTable, b: &LiveTable) -> bool
    ensures { result ≡ stands_before level a.now b.now }
{
    let a = a.table().properties();
    let b = b.table().properties();
    if level == 0 {
        b.greatest_seq.0 < a.greatest_seq.0
    } else {
        a.least.bytes().cmp(&b.least.bytes()).is_lt()
    }
}

/// How many tables at the front of a level stand before this one.
fn place_of(level: u32, tables: &[Arc<LiveTable>], table: &LiveTable) -> usize
    ensures count { result ≡ count_before level table.now (map arc_value tables.now) }
    ensures within { result ≤ length tables.now }
{
    for (place, other) in tables.iter().enumerate() {
        if !is_before(level, other.as_ref(), table) {
            return place;
        }
    }
    tables.len()
}

/// The tables of a level with one more, where it belongs.
fn place(
    alloc: Global,
    level: u32,
    tables: &[Arc<LiveTable>],
    table: &LiveTable,
) -> Result<Vec<Arc<LiveTable>>, NoMemory>
    ensures { IfOk result (λ new. map arc_value new.items ≡ placed_on_level level table.now (map arc_value tables.now)) }
{
    let (before, after) = tables.split_at(place_of(level, tables, table));
    let mut all = Vec::with_capacity(alloc, tables.len() + 1)?;
    share(&mut all, before)?;
    all.push(Arc::new(alloc, table.copy()?)?)?;
    share(&mut all, after)?;
    Ok(all)
}

/// The tables of a level with these more, each where it belongs.
fn place_all(
    alloc: Global,
    level: u32,
    tables: &SharedList<LiveTable>,
    added: &[LiveTable],
) -> Result<SharedList<LiveTable>, NoMemory>
    ensures { IfOk result (λ new. new ≡ placed_all level added.now tables.now) }
{
    let mut all = Vec::with_capacity(alloc, tables.len())?;
    share(&mut all, tables.as_slice())?;
    for table in added {
        let more = place(alloc, level, &all, table)?;
        all = more;
    }
    SharedList::of(alloc, all)
}

/// The levels without the tables of these numbers, and with others on a level, each where it belongs.
pub fn compacted(
    alloc: Global,
    levels: &SharedList<SharedList<LiveTable>>,
    gone: &[u64],
    level: u32,
    added: &[LiveTable],
) -> Result<SharedList<SharedList<LiveTable>>, NoMemory>
    ensures { IfOk result (λ new. new ≡ compacted_levels gone.now level added.now levels.now) }
{
    let left = without(alloc, levels, gone)?;
    let index = level as usize;
    match left.get(index) {
        None => left.copy(),
        Some(tables) => {
            let tables = place_all(alloc, level, tables, added)?;
            left.with_item(alloc, index, Arc::new(alloc, tables)?)
        }
    }
}
