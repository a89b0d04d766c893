//! Plans: all tables of a family, or those of the first level that is due.
ghost use Rattle.std.specs.Prelude.{◌≡◌, List, ◌<◌, ◌+◌, ◌++◌, ◌==◌, ◌&&◌, ◌∷◌, [], nat_lt, not, if◌then◌else◌, filter, map, slice_get, IfOk, OnOk, None, Some};
ghost use Rattle.compaction.specs.Plans.{Leveled, choice_of, first_number, hull_if_any, is_number, is_picked, is_taken, of_level, picked_of, picked_plan, plan_of, table_span, ranges_of, whole_of, whole_plan};

use crate::NoMemory;
use crate::due::due_level;
use crate::leveled::{LeveledTable, tables_by_number};
use crate::sizes::LOWEST_LEVEL;
use crate::spans::{meets_some, range_of, with_span};
use std::alloc::Global;
use super_version::{LiveTable, Plan, SuperVersion};
use ts_key::Family;
use udt_model::{Items, KeySpan};

// ---- all tables

/// The tables, shared.
fn all_tables(alloc: Global, tables: &[LeveledTable]) -> Result<Vec<LiveTable>, NoMemory>
    ensures { IfOk result (λ all. all.items ≡ map (λ t. t.table) tables.now) }
{
    let mut all = Vec::with_capacity(alloc, tables.len())?;
    for t in tables {
        all.push(t.table.copy()?)?;
    }
    Ok(all)
}

/// The plan that takes all tables to the lowest level.
fn whole_from(
    alloc: Global,
    family: Family,
    tables: &[LeveledTable],
) -> Result<Option<Plan>, NoMemory>
    ensures { IfOk result (λ plan. plan ≡ whole_of family tables.now) }
{
    if tables.is_empty() {
        return Ok(None);
    }
    Ok(Some(Plan {
        family,
        inputs: Items::of(all_tables(alloc, tables)?),
        level: LOWEST_LEVEL as u32,
        deeper: Items::of(Vec::new(alloc)),
    }))
}

/// The plan that takes all tables of a family to the lowest level; none exactly where it has no table, or isn't there.
pub fn whole(alloc: Global, now: &SuperVersion, family: Family) -> Result<Option<Plan>, NoMemory>
    ensures { IfOk result (λ plan. plan ≡ whole_plan family (slice_get now.now.families family.0)) }
{
    let Some(state) = now.family(family) else {
        return Ok(None);
    };
    let tables = tables_by_number(alloc, &state.levels)?;
    whole_from(alloc, family, &tables)
}

// ---- the tables of a level that is due

/// What is taken of a level.
#[derive(Drop)]
pub(crate) struct Choice {
    pub(crate) level: usize,
    /// The number of the first table of the level.
    pub(crate) first: Option<u64>,
    /// The hull of the tables that are taken.
    pub(crate) hull: Option<KeySpan>,
}

fn is_number(first: Option<u64>, number: u64) -> bool
    ensures { result ≡ is_number first number }
{
    match first {
        None => false,
        Some(first) => first == number,
    }
}

/// Whether the table is taken: of level 0 each is, of another level the first.
fn is_taken(t: &LeveledTable, level: usize, first: Option<u64>) -> bool
    ensures { result ≡ is_taken level first t.now }
{
    t.level == level && (level == 0 || is_number(first, t.table.number))
}

/// The number of the first table of the level.
fn first_on(tables: &[LeveledTable], level: usize) -> Option<u64>
    ensures { result ≡ first_number (of_level level tables.now) }
{
    for t in tables {
        if t.level == level {
            return Some(t.table.number);
        }
    }
    None
}

/// The hull with the range of a table more, where that is taken.
fn widened(
    before: Option<KeySpan>,
    t: &LeveledTable,
    taken: bool,
) -> Result<Option<KeySpan>, NoMemory>
    ensures { (tables : List Leveled) → before ≡ hull_if_any (ranges_of tables) → IfOk result (λ hull. hull ≡ hull_if_any (ranges_of (if taken then tables ++ t.now ∷ [] else tables))) }
{
    if !taken {
        return Ok(before);
    }
    let span = range_of(t)?;
    Ok(Some(with_span(before, span)))
}

/// The hull of the tables that are taken, where there are some.
fn hull_of_taken(
    tables: &[LeveledTable],
    level: usize,
    first: Option<u64>,
) -> Result<Option<KeySpan>, NoMemory>
    ensures { IfOk result (λ hull. hull ≡ hull_if_any (ranges_of (filter (is_taken level first) tables.now))) }
{
    let mut hull = None;
    for t in tables {
        hull = widened(hull, t, is_taken(t, level, first))?;
    }
    Ok(hull)
}

fn choose(tables: &[LeveledTable], level: usize) -> Result<Choice, NoMemory>
    ensures { IfOk result (λ choice. choice ≡ choice_of tables.now level) }
{
    let first = first_on(tables, level);
    Ok(Choice {
        level,
        first,
        hull: hull_of_taken(tables, level, first)?,
    })
}

/// Whether the table is taken, or is one of the next level that goes with those.
fn is_picked(choice: &Choice, t: &LeveledTable) -> Result<bool, NoMemory>
    requires { choice.now.level < LOWEST_LEVEL }
    ensures { IfOk result (λ yes. yes ≡ is_picked choice.now t.now) }
{
    if is_taken(t, choice.level, choice.first) {
        return Ok(true);
    }
    if t.level != choice.level + 1 {
        return Ok(false);
    }
    let range = range_of(t)?;
    Ok(meets_some(&choice.hull, &range))
}

/// Appends the table, shared, where it is kept.
fn push_table(out: &mut Vec<LiveTable>, t: &LeveledTable, keep: bool) -> Result<(), NoMemory>
    ensures { OnOk result (out.new.items ≡ (if keep then out.old.items ++ t.now.table ∷ [] else out.old.items)) }
{
    if !keep {
        return Ok(());
    }
    out.push(t.table.copy()?)?;
    Ok(())
}

/// The tables that are picked, shared.
fn picked_tables(
    alloc: Global,
    tables: &[LeveledTable],
    choice: &Choice,
) -> Result<Vec<LiveTable>, NoMemory>
    requires { choice.now.level < LOWEST_LEVEL }
    ensures { IfOk result (λ all. all.items ≡ map (λ t. t.table) (filter (is_picked choice.now) tables.now)) }
{
    let mut all = Vec::new(alloc);
    for t in tables {
        push_table(&mut all, t, is_picked(choice, t)?)?;
    }
    Ok(all)
}

/// Whether the table lies below the level that is written: such a table isn't picked.
fn is_deeper(choice: &Choice, t: &LeveledTable) -> bool
    requires { choice.now.level < LOWEST_LEVEL }
    ensures { result ≡ (nat_lt (choice.now.level + 1) t.now.level && not (is_picked choice.now t.now)) }
{
    t.level > choice.level + 1
}

/// Appends the range of the table where it is kept.
fn push_range(out: &mut Vec<KeySpan>, t: &LeveledTable, keep: bool) -> Result<(), NoMemory>
    ensures { OnOk result (out.new.items ≡ (if keep then out.old.items ++ table_span t.now ∷ [] else out.old.items)) }
{
    if !keep {
        return Ok(());
    }
    out.push(range_of(t)?)?;
    Ok(())
}

/// The ranges of the tables below the level that is written that aren't picked.
fn deeper_ranges(
    alloc: Global,
    tables: &[LeveledTable],
    choice: &Choice,
) -> Result<Vec<KeySpan>, NoMemory>
    requires { choice.now.level < LOWEST_LEVEL }
    ensures { IfOk result (λ spans. spans.items ≡ ranges_of (filter (λ t. nat_lt (choice.now.level + 1) t.level && not (is_picked choice.now t)) tables.now)) }
{
    let mut spans = Vec::new(alloc);
    for t in tables {
        push_range(&mut spans, t, is_deeper(choice, t))?;
    }
    Ok(spans)
}

/// The plan of what is picked of a level.
fn plan_from(
    alloc: Global,
    family: Family,
    tables: &[LeveledTable],
    level: usize,
) -> Result<Plan, NoMemory>
    requires { level < LOWEST_LEVEL }
    ensures { IfOk result (λ plan. plan ≡ plan_of family (level + 1) (is_picked (choice_of tables.now level)) tables.now) }
{
    let choice = choose(tables, level)?;
    Ok(Plan {
        family,
        inputs: Items::of(picked_tables(alloc, tables, &choice)?),
        level: (level + 1) as u32,
        deeper: Items::of(deeper_ranges(alloc, tables, &choice)?),
    })
}

/// The plan of the first level that is due, where one is.
fn picked_from(
    alloc: Global,
    family: Family,
    tables: &[LeveledTable],
) -> Result<Option<Plan>, NoMemory>
    ensures { IfOk result (λ plan. plan ≡ picked_of family tables.now) }
{
    let Some(level) = due_level(tables) else {
        return Ok(None);
    };
    let plan = plan_from(alloc, family, tables, level)?;
    Ok(Some(plan))
}

/// The plan that takes what is picked of the first level that is due to the next; none exactly where no level is due, or the
/// family isn't there.
///
/// Level 0 is due from 4 tables on: all are taken, with the tables of level 1 whose keys meet their hull. A level from 1 to 5
/// is due where its files have more bytes than it may have: its table with the smallest number is taken, with the tables of
/// the next level whose keys meet that one's.
pub fn pick(alloc: Global, now: &SuperVersion, family: Family) -> Result<Option<Plan>, NoMemory>
    ensures { IfOk result (λ plan. plan ≡ picked_plan family (slice_get now.now.families family.0)) }
{
    let Some(state) = now.family(family) else {
        return Ok(None);
    };
    let tables = tables_by_number(alloc, &state.levels)?;
    picked_from(alloc, family, &tables)
}
