//! The live tables of a family in one list.
ghost use Rattle.std.specs.Prelude.{◌≡◌, ◌++◌, map, IfOk, OnOk};
ghost use Rattle.std.specs.Arc.{arc_value};
ghost use Rattle.compaction.specs.Plans.{by_number, on_level, on_levels};

use crate::NoMemory;
use std::alloc::Global;
use std::marker::Model;
use std::sync::Arc;
use super_version::{LiveTable, SharedList};

/// A live table, and the level that it stands on.
#[derive(Drop)]
pub(crate) struct LeveledTable {
    pub(crate) level: usize,
    pub(crate) table: LiveTable,
}

impl Model for LeveledTable {
    ghost use Rattle.compaction.specs.Plans.{Leveled};

    ghost Value = { Leveled };

    ghost view = { λ t. record { level = t.level; table = t.table } };
}

/// Puts the tables of a level at the end.
fn push_level(
    out: &mut Vec<LeveledTable>,
    level: usize,
    tables: &[Arc<LiveTable>],
) -> Result<(), NoMemory>
    ensures { OnOk result (out.new.items ≡ out.old.items ++ on_level level (map arc_value tables.now)) }
{
    for table in tables {
        out.push(LeveledTable {
            level,
            table: table.as_ref().copy()?,
        })?;
    }
    Ok(())
}

/// The tables of all levels, each with its level.
fn tables_on_levels(
    alloc: Global,
    levels: &[Arc<SharedList<LiveTable>>],
) -> Result<Vec<LeveledTable>, NoMemory>
    ensures { IfOk result (λ tables. tables.items ≡ on_levels 0 (map arc_value levels.now)) }
{
    let mut tables = Vec::new(alloc);
    for (level, list) in levels.iter().enumerate() {
        push_level(&mut tables, level, list.as_ref().as_slice())?;
    }
    Ok(tables)
}

/// The tables of all levels by ascending number, in the time of a sort.
pub(crate) fn tables_by_number(
    alloc: Global,
    levels: &SharedList<SharedList<LiveTable>>,
) -> Result<Vec<LeveledTable>, NoMemory>
    ensures { IfOk result (λ tables. tables.items ≡ by_number (on_levels 0 levels.now)) }
{
    let mut tables = tables_on_levels(alloc, levels.as_slice())?;
    tables.sort_by_key(|t| t.table.number)?;
    Ok(tables)
}
