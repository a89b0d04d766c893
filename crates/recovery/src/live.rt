//! The live tables of a fold, by ascending number.

ghost use Rattle.std.specs.Prelude.{◌≡◌, ◌≤◌, ◌++◌, length, map, IfOk, OnOk};
ghost use Rattle.ts_key.specs.declared.limits.TheConstants.{FAMILY_LIMIT};
ghost use Rattle.recovery.specs.Places.{AreLivePlaces, HasPlaces, place_in, places_from};

use crate::NoMemory;
use manifest_edit::TableAt;
use manifest_fold::{FamilyFold, Folded};
use std::alloc::Global;
use ts_key::Family;

/// A live table, and its family.
#[derive(Clone, Copy, Debug)]
pub(crate) struct TablePlace {
    pub(crate) family: Family,
    pub(crate) table: TableAt,
}

/// Adds the tables of a family.
fn push_tables(
    places: &mut Vec<TablePlace>,
    family: Family,
    tables: &[TableAt],
) -> Result<(), NoMemory>
    ensures { OnOk result (places.new.items ≡ places.old.items ++ map (place_in family) tables.now) }
{
    for table in tables {
        places.push(TablePlace {
            family,
            table: *table,
        })?;
    }
    Ok(())
}

/// The tables of families, the first of which has the number 0.
fn tables_of(alloc: Global, families: &[FamilyFold]) -> Result<Vec<TablePlace>, NoMemory>
    requires { length families.now ≤ FAMILY_LIMIT }
    ensures { IfOk result (λ places. places.items ≡ places_from 0 families.now) }
{
    let mut places = Vec::new(alloc);
    for (index, family) in families.iter().enumerate() {
        let tables = family.tables.to_vec(alloc)?;
        push_tables(&mut places, Family(index as u32), &tables)?;
    }
    Ok(places)
}

/// The live tables of a fold, each once, by ascending number.
pub(crate) fn live_tables(alloc: Global, fold: &Folded) -> Result<Vec<TablePlace>, NoMemory>
    requires few { length fold.now.families ≤ FAMILY_LIMIT }
    requires places { HasPlaces fold.now }
    ensures { IfOk result (λ places. AreLivePlaces fold.now places.items) }
{
    let mut places = tables_of(alloc, fold.families.as_slice())?;
    places.sort_unstable_by_key(|place| place.table.number);
    Ok(places)
}
