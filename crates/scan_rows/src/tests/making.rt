//! What the tests share: families, writes and tables in memory, and the rows of scans.

ghost use Rattle.std.specs.Bool.{OnTrue};
ghost use Rattle.std.specs.Prelude.{◌≡◌, ◌<◌, ◌≤◌, All, length};
ghost use Rattle.std.specs.declared.cmp.Ordering.TheVariants.{Less};
ghost use Rattle.ts_key.specs.Items.{item_of, items_of};
ghost use Rattle.ts_key.specs.Lists.{IsSorted};
ghost use Rattle.ts_key.specs.Order.{sort_cmp};
ghost use Rattle.ts_key.specs.StoredKeys.{IsSequence, IsStamp};
ghost use Rattle.ts_key.specs.declared.numbers.Family.{Family as FamilyOf};

use block_table::write_table;
use std::alloc::Global;
use std::sync::Arc;
use std::test::Fail;
use super_version::{FamilyState, LiveTable, SharedList, SuperVersion};
use ts_iterator::{Row, Scan};
use ts_key::{
    Batch, Family, Form, Key, Op, SEQUENCE_LIMIT, STAMP_LIMIT, Seq, Ts, Value, Version, WriteOp,
    compare,
};
use udt_disk::{Disk, FileName, MemDisk};

/// The bounds of a range.
#[derive(Drop)]
pub struct Bounds {
    pub low: Option<Key>,
    pub high: Option<Key>,
}

/// Families without a version, all of the form Persist.
pub fn fresh(alloc: Global, count: u32) -> Result<SuperVersion, Fail> {
    let mut families = Vec::new(alloc);
    for number in 0..count {
        let state = FamilyState::empty(alloc, Family(number), Form::Persist, Ts(0))?;
        families.push(Arc::new(alloc, state)?)?;
    }
    Ok(SuperVersion {
        last: Seq(0),
        families: SharedList::of(alloc, families)?,
    })
}

/// A put of one operation.
pub fn put(alloc: Global, family: u32, key: &[u8], ts: u64, value: &[u8]) -> Result<WriteOp, Fail> {
    Ok(WriteOp {
        family: Family(family),
        key: Key::of(alloc, key)?,
        ts: Ts(ts),
        op: Op::Put(Value::of(alloc, value)?),
    })
}

/// The super version with these operations more.
pub fn written(alloc: Global, now: &SuperVersion, ops: Vec<WriteOp>) -> Result<SuperVersion, Fail> {
    if now.last.0 > 1_000_000 {
        return Err(Fail::new("too many operations"));
    }
    let Ok(batch) = Batch::of(ops) else {
        return Err(Fail::new("no batch"));
    };
    Ok(now.with_write(alloc, &batch)?)
}

/// The rows of a scan, up to its `None`.
pub fn rows(
    alloc: Global,
    now: &SuperVersion,
    range: &Bounds,
    t: u64,
    forward: bool,
) -> Result<Vec<Row>, Fail> {
    rows_upto(alloc, now, range, t, u64::MAX, forward)
}

/// The rows of a scan that sees sequences up to `s`.
pub fn rows_upto(
    alloc: Global,
    now: &SuperVersion,
    range: &Bounds,
    t: u64,
    s: u64,
    forward: bool,
) -> Result<Vec<Row>, Fail> {
    if now.families.len() == 0 {
        return Err(Fail::new("no family"));
    }
    let (low, high) = (range.low.as_ref(), range.high.as_ref());
    let scan = Scan::new(alloc, now, Family(0), low, high, Ts(t), Seq(s), forward);
    let Ok(mut scan) = scan else {
        return Err(Fail::new("no scan"));
    };
    let mut all = Vec::new(alloc);
    for _ in 0..1_000 {
        let Some(row) = scan.next()? else {
            return Ok(all);
        };
        all.push(row)?;
    }
    Err(Fail::new("the scan doesn't end"))
}

/// Where a version stands in the stored order.
pub fn place_of(all: &[Version], version: &Version) -> usize
    ensures { result ≤ length all.now }
{
    for (place, other) in all.iter().enumerate() {
        if compare(&version.key_ref(), &other.key_ref()).is_lt() {
            return place;
        }
    }
    all.len()
}

fn is_same(a: &Row, b: &Row) -> bool {
    a.key.bytes() == b.key.bytes() && a.value.bytes() == b.value.bytes() && a.stamp == b.stamp
}

/// Whether both have the same rows, the second in the other order where it goes down.
pub fn are_same(plain: &[Row], given: &[Row], forward: bool) -> bool {
    if plain.len() != given.len() {
        return false;
    }
    let mut turned = given.iter().rev();
    for (there, back) in plain.iter().zip(given.iter()) {
        let Some(last) = turned.next() else {
            return false;
        };
        let row = if forward { back } else { last };
        if !is_same(there, row) {
            return false;
        }
    }
    true
}

fn are_stamps(versions: &[Version]) -> bool
    ensures { OnTrue result (All (λ v. IsStamp Form.Persist v.ts.0) versions.now) }
{
    versions.iter().all(|v| v.ts.0 <= STAMP_LIMIT)
}

fn are_sequences(versions: &[Version]) -> bool
    ensures { OnTrue result (All (λ v. IsSequence v.seq.0) versions.now) }
{
    versions
        .iter()
        .all(|v| v.seq.0 >= 1 && v.seq.0 <= SEQUENCE_LIMIT)
}

fn are_of(family: Family, versions: &[Version]) -> bool
    ensures { OnTrue result (All (λ v. v.family ≡ family) versions.now) }
{
    versions.iter().all(|v| v.family == family)
}

/// All versions are of one family, the first one's.
fn are_of_one_family(versions: &[Version]) -> bool
    requires { 0 < length versions.now }
    ensures { OnTrue result ((family : FamilyOf) × All (λ v. v.family ≡ family) versions.now) }
{
    are_of(versions[0].family, versions)
}

fn comes_before(a: &Version, b: &Version) -> bool
    ensures { OnTrue result (sort_cmp (item_of a.now).sort_key (item_of b.now).sort_key ≡ Less) }
{
    compare(&a.key_ref(), &b.key_ref()).is_lt()
}

/// Each version stands before the next one.
fn are_sorted(versions: &[Version]) -> bool
    ensures { OnTrue result (IsSorted (items_of versions.now)) }
{
    for i in 1..versions.len() {
        let last = i - 1;
        if !comes_before(&versions[last], &versions[i]) {
            return false;
        }
    }
    true
}

/// The live table of this number that holds these versions.
pub fn table(alloc: Global, number: u64, versions: &[Version]) -> Result<LiveTable, Fail> {
    if versions.is_empty() {
        return Err(Fail::new("no version"));
    }
    if !are_of_one_family(versions) || !are_sorted(versions) {
        return Err(Fail::new("these versions are no table's"));
    }
    if !are_stamps(versions) || !are_sequences(versions) {
        return Err(Fail::new("these versions have no spelling"));
    }
    let mut disk = MemDisk::new(alloc, Vec::new(alloc))?;
    let Ok(mut file) = disk.create(FileName::Table(number)) else {
        return Err(Fail::new("no file"));
    };
    let made = write_table(alloc, versions, Form::Persist, Ts(0), &mut file);
    disk.retire(file);
    Ok(LiveTable {
        number,
        table: Arc::new(alloc, made?)?,
    })
}
