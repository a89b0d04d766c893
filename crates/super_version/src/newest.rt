//! The greatest timestamp of a key in several lists.
ghost use Rattle.std.specs.Prelude.{◌≡◌, map, option_map};
ghost use Rattle.std.specs.List.{flat_map};
ghost use Rattle.std.specs.Arc.{arc_value};
ghost use Rattle.ts_key.specs.Visible.{newest_ts};
ghost use Rattle.memtable.specs.Memtables.{greater};
ghost use Rattle.super_version.specs.Contents.{items_of_level, items_of_memtable, items_of_table};

use crate::live_table::LiveTable;
use crate::shared::SharedList;
use memtable::{Mem, later_of, reaches};
use std::sync::Arc;
use ts_key::Ts;

/// The later of the best so far and what a memtable has.
pub fn later_in_mem(best: Option<Ts>, mem: &Mem, key: &[u8]) -> Option<Ts>
    ensures { option_map (λ ts. ts.0) result ≡ greater (option_map (λ ts. ts.0) best) (newest_ts (items_of_memtable mem.now) key.now) }
{
    if reaches(best, mem.latest()) {
        return best;
    }
    later_of(best, mem.newest(key))
}

/// The later of the best so far and what memtables have.
pub fn later_in_mems(best: Option<Ts>, mems: &[Arc<Mem>], key: &[u8]) -> Option<Ts>
    ensures { option_map (λ ts. ts.0) result
        ≡ greater (option_map (λ ts. ts.0) best) (newest_ts (flat_map items_of_memtable (map arc_value mems.now)) key.now) }
{
    let mut later = best;
    for mem in mems {
        later = later_in_mem(later, mem.as_ref(), key);
    }
    later
}

/// The later of the best so far and what a table has.
fn later_in_table(best: Option<Ts>, table: &LiveTable, key: &[u8]) -> Option<Ts>
    ensures { option_map (λ ts. ts.0) result ≡ greater (option_map (λ ts. ts.0) best) (newest_ts (items_of_table table.now) key.now) }
{
    if reaches(best, table.latest()) {
        return best;
    }
    later_of(best, table.table().newest(key))
}

/// The later of the best so far and what the tables of a level have.
fn later_in_level(best: Option<Ts>, tables: &[Arc<LiveTable>], key: &[u8]) -> Option<Ts>
    ensures { option_map (λ ts. ts.0) result
        ≡ greater (option_map (λ ts. ts.0) best) (newest_ts (items_of_level (map arc_value tables.now)) key.now) }
{
    let mut later = best;
    for table in tables {
        later = later_in_table(later, table.as_ref(), key);
    }
    later
}

/// The later of the best so far and what the tables of all levels have.
pub fn later_in_levels(
    best: Option<Ts>,
    levels: &[Arc<SharedList<LiveTable>>],
    key: &[u8],
) -> Option<Ts>
    ensures { option_map (λ ts. ts.0) result
        ≡ greater (option_map (λ ts. ts.0) best) (newest_ts (flat_map items_of_level (map arc_value levels.now)) key.now) }
{
    let mut later = best;
    for tables in levels {
        later = later_in_level(later, tables.as_ref().as_slice(), key);
    }
    later
}
