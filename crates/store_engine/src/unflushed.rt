//! Whether a family has versions that are in no table.
ghost use Rattle.std.specs.Prelude.{◌≡◌, ◌==◌, length, map, not};
ghost use Rattle.std.specs.Arc.{arc_value};
ghost use Rattle.std.specs.List.{flat_map};
ghost use Rattle.memtable.specs.Memtables.{versions_of_memtable};
ghost use Rattle.store_engine.specs.Now.{versions_held};

use memtable::Mem;
use std::sync::Arc;
use super_version::FamilyState;

/// The memtable has a version.
pub(crate) fn has_versions(mem: &Mem) -> bool
    ensures { result ≡ not (length (versions_of_memtable mem.now) == 0) }
{
    mem.runs() > 0
}

/// One of the memtables has a version.
fn have_versions(mems: &[Arc<Mem>]) -> bool
    ensures { result ≡ not (length (flat_map versions_of_memtable (map arc_value mems.now)) == 0) }
{
    for mem in mems {
        if has_versions(mem.as_ref()) {
            return true;
        }
    }
    false
}

/// The family has a version that is in no table.
pub(crate) fn has_unflushed(state: &FamilyState) -> bool
    ensures { result ≡ not (length (versions_held state.now) == 0) }
{
    has_versions(&state.active) || have_versions(state.sealed.as_slice())
}
