//! Tables of a few versions, and super versions that hold them.

ghost use Rattle.std.specs.Bool.{OnTrue};
ghost use Rattle.std.specs.Prelude.{◌≡◌, ℕ, All, IfOk};
ghost use Rattle.std.specs.declared.cmp.Ordering.TheVariants.{Less};
ghost use Rattle.ts_key.specs.Items.{item_of, items_of};
ghost use Rattle.ts_key.specs.Lists.{IsSorted};
ghost use Rattle.ts_key.specs.Order.{sort_cmp};
ghost use Rattle.ts_key.specs.StoredKeys.{IsSequence, IsStamp};
ghost use Rattle.ts_key.specs.declared.version.Form.TheVariants.{Persist};
ghost use Rattle.compaction_rows.specs.Inputs.{IsOfFirst};

use super::files::DiskFiles;
use block_table::{Table, write_table};
use merge_cursor::Cursor;
use std::alloc::Global;
use std::sync::Arc;
use std::test::Fail;
use super_version::{FamilyState, LiveTable, SharedList, SuperVersion};
use ts_key::{
    Family, Form, Hit, Key, Op, SEQUENCE_LIMIT, STAMP_LIMIT, Seq, Ts, Value, Version, compare,
};
use udt_disk::{Disk, FileName, MemDisk};

/// A put of a key.
pub fn put(alloc: Global, key: &[u8], ts: u64, seq: u64, value: &[u8]) -> Result<Version, Fail> {
    Ok(Version {
        family: Family(0),
        key: Key::of(alloc, key)?,
        ts: Ts(ts),
        seq: Seq(seq),
        op: Op::Put(Value::of(alloc, value)?),
    })
}

fn are_of(family: Family, versions: &[Version]) -> bool
    ensures { OnTrue result (All (λ v. v.family ≡ family) versions.now) }
{
    versions.iter().all(|v| v.family == family)
}

fn are_stamps(versions: &[Version]) -> bool
    ensures { OnTrue result (All (λ v. IsStamp Persist v.ts.0) versions.now) }
{
    versions.iter().all(|v| v.ts.0 <= STAMP_LIMIT)
}

fn is_sequence(seq: Seq) -> bool
    ensures { OnTrue result (IsSequence seq.0) }
{
    seq.0 >= 1 && seq.0 <= SEQUENCE_LIMIT
}

fn are_sequences(versions: &[Version]) -> bool
    ensures { OnTrue result (All (λ v. IsSequence v.seq.0) versions.now) }
{
    versions.iter().all(|v| is_sequence(v.seq))
}

fn comes_before(a: &Version, b: &Version) -> bool
    ensures { OnTrue result (sort_cmp (item_of a.now).sort_key (item_of b.now).sort_key ≡ Less) }
{
    compare(&a.key_ref(), &b.key_ref()).is_lt()
}

/// Each version stands before the next one.
fn are_sorted(versions: &[Version]) -> bool
    ensures { OnTrue result (IsSorted (items_of versions.now)) }
{
    for i in 1..versions.len() {
        let last = i - 1;
        if !comes_before(&versions[last], &versions[i]) {
            return false;
        }
    }
    true
}

/// The table of versions of the first family in the stored order.
fn written(alloc: Global, versions: &[Version]) -> Result<Table, Fail>
    ensures { IfOk result (λ t. (number : ℕ) → IsOfFirst (record { number = number; table = t })) }
{
    if versions.is_empty() {
        return Err(Fail::new("no version"));
    }
    if !are_of(Family(0), versions) || !are_sorted(versions) {
        return Err(Fail::new("these versions are of another family or not in order"));
    }
    if !are_stamps(versions) || !are_sequences(versions) {
        return Err(Fail::new("these versions have no spelling"));
    }
    let mut disk = MemDisk::new(alloc, Vec::new(alloc))?;
    let Ok(mut file) = disk.create(FileName::Table(1)) else {
        return Err(Fail::new("no file"));
    };
    let result = write_table(alloc, versions, Form::Persist, Ts(0), &mut file);
    disk.retire(file);
    match result {
        Ok(table) => Ok(table),
        Err(_) => Err(Fail::new("no table")),
    }
}

/// The same as a live table of this number.
pub fn table(alloc: Global, number: u64, versions: &[Version]) -> Result<LiveTable, Fail>
    ensures { IfOk result IsOfFirst }
{
    let table = written(alloc, versions)?;
    Ok(LiveTable {
        number,
        table: Arc::new(alloc, table)?,
    })
}

/// A table of two puts.
pub fn two_keys(alloc: Global, number: u64, low: &[u8], high: &[u8]) -> Result<LiveTable, Fail> {
    let mut versions = Vec::new(alloc);
    versions.push(put(alloc, low, 1, number, b"v")?)?;
    versions.push(put(alloc, high, 1, number, b"v")?)?;
    table(alloc, number, &versions)
}

/// A super version of one family without a table.
pub fn empty_store(alloc: Global) -> Result<SuperVersion, Fail> {
    let family = FamilyState::empty(alloc, Family(0), Form::Persist, Ts(0))?;
    let mut families = Vec::new(alloc);
    families.push(Arc::new(alloc, family)?)?;
    Ok(SuperVersion {
        last: Seq(0),
        families: SharedList::of(alloc, families)?,
    })
}

/// The super version with these tables more on a level.
pub fn with_tables(
    alloc: Global,
    now: &SuperVersion,
    level: u32,
    tables: Vec<LiveTable>,
) -> Result<SuperVersion, Fail> {
    Ok(now.with_compaction(alloc, Family(0), &[], level, tables)?)
}

fn is_hit(v: &Version, hit: &Hit<'_>) -> bool {
    hit.ts == v.ts && hit.seq == v.seq && hit.kind == v.op.kind() && hit.value == v.op.value()
}

/// The table holds these versions, in this order, and no others.
pub fn holds(alloc: Global, table: &Table, versions: &[Version]) -> Result<bool, Fail> {
    let mut cursor = table.cursor(alloc)?;
    for v in versions {
        let Some((key, hit)) = cursor.at() else {
            return Ok(false);
        };
        if key.key != v.key.bytes() || !is_hit(v, &hit) {
            return Ok(false);
        }
        cursor.next();
    }
    Ok(cursor.at().is_none())
}

/// New files on an empty disk, from this number on.
pub fn files(alloc: Global, next: u64) -> Result<DiskFiles, Fail> {
    Ok(DiskFiles::new(MemDisk::new(alloc, Vec::new(alloc))?, next, None))
}
