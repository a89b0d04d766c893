//! What the tests of tables share: versions, and tables that are written to files in memory and read.

ghost use Rattle.std.specs.Bool.{OnTrue};
ghost use Rattle.std.specs.Prelude.{◌≡◌, ◌<◌, All, length};
ghost use Rattle.std.specs.declared.cmp.Ordering.TheVariants.{Less};
ghost use Rattle.ts_key.specs.Items.{item_of, items_of};
ghost use Rattle.ts_key.specs.Lists.{IsSorted};
ghost use Rattle.ts_key.specs.Order.{sort_cmp};
ghost use Rattle.ts_key.specs.StoredKeys.{IsStamp, IsSequence};
ghost use Rattle.ts_key.specs.declared.numbers.Family.{Family as FamilyOf};

use block_table::{Table, TableFault, TableWriteFault, write_table};
use bytes::Bytes;
use std::alloc::Global;
use std::test::Fail;
use ts_key::{
    Family, Form, Hit, Key, Op, SEQUENCE_LIMIT, STAMP_LIMIT, Seq, Ts, Value, Version, compare,
};
use udt_disk::{Disk, FileName, MemDisk};

/// The file that tables are written to.
pub const TABLE: FileName = FileName::Table(3);

/// A put of a key.
pub fn put(alloc: Global, key: &[u8], ts: u64, seq: u64, value: &[u8]) -> Result<Version, Fail> {
    Ok(Version {
        family: Family(0),
        key: Key::of(alloc, key)?,
        ts: Ts(ts),
        seq: Seq(seq),
        op: Op::Put(Value::of(alloc, value)?),
    })
}

pub fn is_stamp(form: Form, ts: Ts) -> bool
    ensures { OnTrue result (IsStamp form ts.0) }
{
    match form {
        Form::Persist => ts.0 <= STAMP_LIMIT,
        Form::Strip => ts.0 == 0,
    }
}

pub fn is_sequence(seq: Seq) -> bool
    ensures { OnTrue result (IsSequence seq.0) }
{
    seq.0 >= 1 && seq.0 <= SEQUENCE_LIMIT
}

fn are_stamps(form: Form, versions: &[Version]) -> bool
    ensures { OnTrue result (All (λ v. IsStamp form v.ts.0) versions.now) }
{
    versions.iter().all(|v| is_stamp(form, v.ts))
}

fn are_sequences(versions: &[Version]) -> bool
    ensures { OnTrue result (All (λ v. IsSequence v.seq.0) versions.now) }
{
    versions.iter().all(|v| is_sequence(v.seq))
}

fn are_of(family: Family, versions: &[Version]) -> bool
    ensures { OnTrue result (All (λ v. v.family ≡ family) versions.now) }
{
    versions.iter().all(|v| v.family == family)
}

/// All versions are of one family, the first one's.
fn are_of_one_family(versions: &[Version]) -> bool
    requires { 0 < length versions.now }
    ensures { OnTrue result ((family : FamilyOf) × All (λ v. v.family ≡ family) versions.now) }
{
    are_of(versions[0].family, versions)
}

fn comes_before(a: &Version, b: &Version) -> bool
    ensures { OnTrue result (sort_cmp (item_of a.now).sort_key (item_of b.now).sort_key ≡ Less) }
{
    compare(&a.key_ref(), &b.key_ref()).is_lt()
}

/// Each version stands before the next one.
fn are_sorted(versions: &[Version]) -> bool
    ensures { OnTrue result (IsSorted (items_of versions.now)) }
{
    for i in 1..versions.len() {
        let last = i - 1;
        if !comes_before(&versions[last], &versions[i]) {
            return false;
        }
    }
    true
}

/// Writes the table of the versions to a new file of the disk.
pub fn write(
    alloc: Global,
    disk: &mut MemDisk,
    versions: &[Version],
    form: Form,
    collected_by: Ts,
) -> Result<Result<Table, TableWriteFault>, Fail> {
    if versions.is_empty() {
        return Err(Fail::new("no version"));
    }
    if !are_of_one_family(versions) {
        return Err(Fail::new("these versions are of several families"));
    }
    if !are_sorted(versions) {
        return Err(Fail::new("these versions aren't in the stored order"));
    }
    if !are_stamps(form, versions) || !are_sequences(versions) {
        return Err(Fail::new("these versions have no spelling"));
    }
    let Ok(mut file) = disk.create(TABLE) else {
        return Err(Fail::new("no file"));
    };
    let result = write_table(alloc, versions, form, collected_by, &mut file);
    disk.retire(file);
    Ok(result)
}

/// The bytes of the table of the versions.
pub fn image_of(
    alloc: Global,
    versions: &[Version],
    form: Form,
    collected_by: Ts,
) -> Result<Vec<u8>, Fail> {
    let mut disk = MemDisk::new(alloc, Vec::new(alloc))?;
    let _table = write(alloc, &mut disk, versions, form, collected_by)??;
    let contents = disk.contents(TABLE).ok_or("no contents")?;
    let mut image = Vec::new(alloc);
    image.extend_from_slice(contents)?;
    Ok(image)
}

pub fn read(alloc: Global, image: &[u8]) -> Result<Result<Table, TableFault>, Fail> {
    let image = Bytes::copy_from_slice(alloc, image)?;
    Ok(Table::read(alloc, image))
}

/// The image is outside the grammar.
pub fn is_bad(alloc: Global, image: &[u8]) -> Result<bool, Fail> {
    Ok(matches!(read(alloc, image)?.err(), Some(TableFault::Bad)))
}

pub fn is_hit(v: &Version, hit: &Hit<'_>) -> bool {
    hit.ts == v.ts && hit.seq == v.seq && hit.kind == v.op.kind() && hit.value == v.op.value()
}
