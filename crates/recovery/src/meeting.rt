//! Tables of a level from 1 on whose keys' spans meet: the first of them by number.

ghost use Rattle.std.specs.Prelude.{◌≡◌, ◌≤◌, ◌<◌, length, map, IfOk};
ghost use Rattle.std.specs.Arc.{arc_value};
ghost use Rattle.std.specs.List.Sorted.{IsSortedBy};
ghost use Rattle.ts_key.specs.declared.limits.TheConstants.{FAMILY_LIMIT};
ghost use Rattle.udt_model.specs.Orders.{meets as spans_meet};
ghost use Rattle.super_version.specs.Levels.{stands_before};
ghost use Rattle.recovery.specs.Meeting.{AreOfFiles, AreOnLevels, ClashesAmong, ClashesIn, ClashesOn, IsFirst, Meets, kept_of_two, lesser_of, live_number, number_met as number_met_by, opened_number, span_at, table_in};

use crate::NoMemory;
use crate::tables::Opened;
use crate::version::{least_first, tables_on};
use manifest_fold::Folded;
use std::alloc::Global;
use std::sync::Arc;
use super_version::{LEVELS, LiveTable};
use ts_key::Family;

/// Whether the spans of their keys meet.
fn meets(a: &LiveTable, b: &LiveTable) -> bool
    ensures { result ≡ spans_meet (span_at a.now) (span_at b.now) }
{
    let a = a.table().properties();
    let b = b.table().properties();
    a.least.bytes().cmp(&b.greatest.bytes()).is_le()
        && b.least.bytes().cmp(&a.greatest.bytes()).is_le()
}

/// The greater number of two tables, where their spans meet.
fn number_met(a: &LiveTable, b: &LiveTable) -> Option<u64>
    ensures { result ≡ number_met_by a.now b.now }
{
    if !meets(a, b) {
        None
    } else if a.number() < b.number() {
        Some(b.number())
    } else if b.number() < a.number() {
        Some(a.number())
    } else {
        None
    }
}

/// Of two tables that meet the one with the smaller number, and otherwise the second.
fn kept<'a>(a: &'a LiveTable, b: &'a LiveTable) -> &'a LiveTable
    ensures { result.now ≡ kept_of_two a.now b.now }
{
    if meets(a, b) && a.number() <= b.number() {
        a
    } else {
        b
    }
}

/// The lesser, where there are two.
fn least(a: Option<u64>, b: Option<u64>) -> Option<u64>
    ensures { result ≡ lesser_of a b }
{
    match (a, b) {
        (Some(a), Some(b)) => Some(a.min(b)),
        (Some(a), None) => Some(a),
        (None, b) => b,
    }
}

/// Of tables of a level, by ascending least key, the first by number that meets one with a smaller number. Each is looked at
/// once: of two that meet, the one with the greater number can't make another the first.
fn first_along(tables: &[Arc<LiveTable>]) -> Option<u64>
    requires { IsSortedBy (stands_before 1) (map arc_value tables.now) }
    ensures { AreOfFiles (map arc_value tables.now) → IsFirst live_number Meets (map arc_value tables.now) result }
{
    let mut last = tables.first()?.as_ref();
    let mut first = None;
    for table in tables {
        first = least(first, number_met(last, table.as_ref()));
        last = kept(last, table.as_ref());
    }
    first
}

/// Of the tables of a family on a level from 1 on.
fn first_on(
    alloc: Global,
    family: Family,
    level: u32,
    opened: &[Opened],
) -> Result<Option<u64>, NoMemory>
    requires { 0 < level }
    ensures { IfOk result (λ first. AreOfFiles (map table_in opened.now) → IsFirst opened_number (ClashesOn family level) opened.now first) }
{
    let tables = least_first(tables_on(alloc, family, level, opened)?);
    Ok(first_along(&tables))
}

/// Of the tables of a family.
fn first_in(alloc: Global, family: Family, opened: &[Opened]) -> Result<Option<u64>, NoMemory>
    ensures { IfOk result (λ first. AreOnLevels opened.now → IsFirst opened_number (ClashesIn family) opened.now first) }
{
    let mut first = None;
    for level in 1..LEVELS as u32 {
        first = least(first, first_on(alloc, family, level, opened)?);
    }
    Ok(first)
}

/// The first by number of the live tables that meets one with a smaller number on its family's level, from 1 on. It takes the
/// time of a sort of the tables, and for each family and level that of a look at them.
pub(crate) fn first_meeting(
    alloc: Global,
    fold: &Folded,
    opened: &[Opened],
) -> Result<Option<u64>, NoMemory>
    requires { length fold.now.families ≤ FAMILY_LIMIT }
    ensures { IfOk result (λ first. AreOnLevels opened.now → IsFirst opened_number (ClashesAmong (length fold.now.families)) opened.now first) }
{
    let mut first = None;
    for index in 0..fold.families.as_slice().len() {
        first = least(first, first_in(alloc, Family(index as u32), opened)?);
    }
    Ok(first)
}
