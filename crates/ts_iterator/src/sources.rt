//! Cursors over all lists of a family.
ghost use Rattle.std.specs.Prelude.{◌≡◌, ◌++◌, IfOk, OnOk, map};
ghost use Rattle.std.specs.Arc.{arc_value};
ghost use Rattle.std.specs.List.{flat_map};
ghost use Rattle.super_version.specs.Contents.{items_of_level};
ghost use Rattle.ts_iterator.specs.Sources.{items_of_all, items_of_runs, runs_and_tables};

use crate::NoMemory;
use crate::source::Source;
use memtable::Mem;
use merge_cursor::SliceCursor;
use std::alloc::Global;
use std::sync::Arc;
use super_version::{FamilyState, LiveTable, SharedList};

/// Puts cursors over the runs of a memtable at the end.
fn push_runs<'a>(sources: &mut Vec<Source<'a>>, mem: &'a Mem) -> Result<(), NoMemory>
    ensures { OnOk result (items_of_all sources.new.items ≡ items_of_all sources.old.items ++ items_of_runs mem.now) }
{
    for index in 0..mem.runs() {
        let Some(run) = mem.run(index) else {
            return Ok(());
        };
        sources.push(Source::Run(SliceCursor::new(run.versions())))?;
    }
    Ok(())
}

/// Puts cursors over the runs of memtables at the end.
fn push_mems<'a>(sources: &mut Vec<Source<'a>>, mems: &'a [Arc<Mem>]) -> Result<(), NoMemory>
    ensures { OnOk result (items_of_all sources.new.items
        ≡ items_of_all sources.old.items ++ flat_map items_of_runs (map arc_value mems.now)) }
{
    for mem in mems {
        push_runs(sources, mem.as_ref())?;
    }
    Ok(())
}

/// Puts cursors over the tables of a level at the end.
fn push_tables<'a>(
    alloc: Global,
    sources: &mut Vec<Source<'a>>,
    tables: &'a [Arc<LiveTable>],
) -> Result<(), NoMemory>
    ensures { OnOk result (items_of_all sources.new.items
        ≡ items_of_all sources.old.items ++ items_of_level (map arc_value tables.now)) }
{
    for table in tables {
        let cursor = table.as_ref().table().cursor(alloc)?;
        sources.push(Source::Table(cursor))?;
    }
    Ok(())
}

/// Puts cursors over the tables of all levels at the end.
fn push_levels<'a>(
    alloc: Global,
    sources: &mut Vec<Source<'a>>,
    levels: &'a [Arc<SharedList<LiveTable>>],
) -> Result<(), NoMemory>
    ensures { OnOk result (items_of_all sources.new.items
        ≡ items_of_all sources.old.items ++ flat_map items_of_level (map arc_value levels.now)) }
{
    for tables in levels {
        push_tables(alloc, sources, tables.as_ref().as_slice())?;
    }
    Ok(())
}

/// Cursors over the runs and the tables of a family.
pub(crate) fn sources_of(alloc: Global, state: &FamilyState) -> Result<Vec<Source<'_>>, NoMemory>
    ensures { IfOk result (λ sources. items_of_all sources.items ≡ runs_and_tables state.now) }
{
    let mut sources = Vec::new(alloc);
    push_runs(&mut sources, &state.active)?;
    push_mems(&mut sources, state.sealed.as_slice())?;
    push_levels(alloc, &mut sources, state.levels.as_slice())?;
    Ok(sources)
}
