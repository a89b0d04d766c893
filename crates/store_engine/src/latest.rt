//! The greatest timestamp of a family, as its memtables and tables tell theirs.
ghost use Rattle.std.specs.Prelude.{◌≡◌, map};
ghost use Rattle.std.specs.Arc.{arc_value};
ghost use Rattle.std.specs.List.{flat_map};
ghost use Rattle.super_version.specs.Contents.{items_of_family, items_of_level, items_of_memtable};
ghost use Rattle.store_engine.specs.Admission.{latest_stamp};

use memtable::Mem;
use std::sync::Arc;
use super_version::{FamilyState, LiveTable, SharedList};
use ts_key::Ts;

/// The greatest timestamp in memtables.
fn latest_in_mems(mems: &[Arc<Mem>]) -> Ts
    ensures { result.0 ≡ latest_stamp (flat_map items_of_memtable (map arc_value mems.now)) }
{
    let mut latest = 0u64;
    for mem in mems {
        latest = latest.max(mem.as_ref().latest().0);
    }
    Ts(latest)
}

/// The greatest timestamp in the tables of a level.
fn latest_in_level(tables: &[Arc<LiveTable>]) -> Ts
    ensures { result.0 ≡ latest_stamp (items_of_level (map arc_value tables.now)) }
{
    let mut latest = 0u64;
    for table in tables {
        latest = latest.max(table.as_ref().latest().0);
    }
    Ts(latest)
}

/// The greatest timestamp in the tables of all levels.
fn latest_in_levels(levels: &[Arc<SharedList<LiveTable>>]) -> Ts
    ensures { result.0 ≡ latest_stamp (flat_map items_of_level (map arc_value levels.now)) }
{
    let mut latest = 0u64;
    for tables in levels {
        latest = latest.max(latest_in_level(tables.as_ref().as_slice()).0);
    }
    Ts(latest)
}

/// The greatest timestamp of all versions of a family, 0 where it has none. It asks each memtable and each table for its own.
pub fn latest_in(state: &FamilyState) -> Ts
    ensures { result.0 ≡ latest_stamp (items_of_family state.now) }
{
    let active = state.active.latest();
    let sealed = latest_in_mems(state.sealed.as_slice());
    let tables = latest_in_levels(state.levels.as_slice());
    Ts(active.0.max(sealed.0).max(tables.0))
}
