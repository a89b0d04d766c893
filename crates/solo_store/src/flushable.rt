//! Whether memtables may be flushed.

ghost use Rattle.std.specs.Prelude.{◌≡◌, ℕ, ◌++◌, ◌<◌, ◌≤◌, All, IfOk, IsTrue, length, map};
ghost use Rattle.std.specs.Arc.{arc_value};
ghost use Rattle.std.specs.List.{flat_map};
ghost use Rattle.std.specs.List.Sorted.{IsStrictlyIncreasing};
ghost use Rattle.ts_key.specs.declared.numbers.Family.{Family as FamilyOf};
ghost use Rattle.ts_key.specs.declared.version.Version.{Version as VersionOf};
ghost use Rattle.memtable.specs.Memtables.{versions_of_memtable};
ghost use Rattle.flush_job.specs.Flushes.{AreFlushable};
ghost use Rattle.flush_job.specs.Walks.{versions_of_all};
ghost use Rattle.solo_store.specs.Flushable.{AreVersionsSpelled, MayBeFlushed, sequence_of};

use crate::NoMemory;
use memtable::Mem;
use std::alloc::Global;
use std::sync::Arc;
use ts_key::limits::{SEQUENCE_LIMIT, STAMP_LIMIT};
use ts_key::{Family, Version};

/// The version has a spelling.
fn is_spelled(version: &Version) -> bool
    ensures { IsTrue result → MayBeFlushed version.now }
{
    version.ts.0 <= STAMP_LIMIT && 0 < version.seq.0 && version.seq.0 <= SEQUENCE_LIMIT
}

/// Adds the sequences of these versions to those before, up to the first version that has no spelling; then it answers false.
fn add_sequences(numbers: &mut Vec<u64>, versions: &[Version]) -> Result<bool, NoMemory>
    ensures spelled { IfOk result (λ all. IsTrue all → All MayBeFlushed versions.now) }
    ensures numbers { IfOk result (λ all. IsTrue all → numbers.new.items ≡ numbers.old.items ++ map sequence_of versions.now) }
{
    for version in versions {
        if !is_spelled(version) {
            return Ok(false);
        }
        numbers.push(version.seq.0)?;
    }
    Ok(true)
}

/// The same for the versions of a memtable, which is of this family; else it answers false.
fn add_memtable(numbers: &mut Vec<u64>, family: Family, mem: &Mem) -> Result<bool, NoMemory>
    ensures spelled { IfOk result (λ all. IsTrue all → AreVersionsSpelled family (versions_of_memtable mem.now)) }
    ensures numbers { IfOk result (λ all. IsTrue all → numbers.new.items ≡ numbers.old.items ++ map sequence_of (versions_of_memtable mem.now)) }
{
    if mem.family().0 != family.0 {
        return Ok(false);
    }
    let versions = mem.versions()?;
    add_sequences(numbers, &versions)
}

/// The same for the versions of memtables.
fn add_memtables(
    numbers: &mut Vec<u64>,
    family: Family,
    mems: &[Arc<Mem>],
) -> Result<bool, NoMemory>
    ensures spelled { IfOk result (λ all. IsTrue all → AreVersionsSpelled family (versions_of_all (map arc_value mems.now))) }
    ensures numbers { IfOk result (λ all. IsTrue all → numbers.new.items ≡ numbers.old.items ++ map sequence_of (versions_of_all (map arc_value mems.now))) }
{
    for mem in mems {
        if !add_memtable(numbers, family, mem.as_ref())? {
            return Ok(false);
        }
    }
    Ok(true)
}

/// Each number is above the one before it.
fn rise(numbers: &[u64]) -> bool
    ensures { IsTrue result → IsStrictlyIncreasing numbers.now }
{
    for i in 1..numbers.len() {
        if numbers[i] <= numbers[i - 1] {
            return false;
        }
    }
    true
}

/// Whether these memtables may be flushed: they are of the family, they have a version, no two have one sequence, and each has a
/// spelling. The memtables of a store that was written and opened as it should be always may.
pub(crate) fn are_flushable(
    alloc: Global,
    family: Family,
    mems: &[Arc<Mem>],
) -> Result<bool, NoMemory>
    ensures { IfOk result (λ may. IsTrue may → AreFlushable family (versions_of_all (map arc_value mems.now))) }
{
    let mut numbers = Vec::new(alloc);
    if !add_memtables(&mut numbers, family, mems)? {
        return Ok(false);
    }
    if numbers.is_empty() {
        return Ok(false);
    }
    numbers.sort_unstable();
    Ok(rise(&numbers))
}
