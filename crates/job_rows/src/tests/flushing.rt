//! Memtables, their flushes into files in memory, and what such a flush is to keep.

ghost use Rattle.std.specs.Bool.{OnTrue};
ghost use Rattle.std.specs.Prelude.{◌≡◌, ◌≢◌, All, IfOk, map};
ghost use Rattle.std.specs.Arc.{arc_value};
ghost use Rattle.ts_key.specs.StoredKeys.{IsSequence, IsStamp};
ghost use Rattle.ts_key.specs.declared.numbers.Family.{Family as FamilyOf};
ghost use Rattle.ts_key.specs.declared.version.Form.TheVariants.{Persist};
ghost use Rattle.floor_laws.specs.Lists.{HaveOwnSequences};
ghost use Rattle.flush_job.specs.Flushes.{AreFlushable};
ghost use Rattle.flush_job.specs.Walks.{versions_of_all};

use block_table::Table;
use collection_laws::{in_order, plain_collect};
use flush_job::{JobCause, TableOut, run_flush};
use memtable::Mem;
use merge_cursor::Cursor;
use std::alloc::Global;
use std::sync::Arc;
use std::test::Fail;
use ts_key::{Family, Form, Hit, Key, NoMemory, Op, SEQUENCE_LIMIT, STAMP_LIMIT, Seq, Ts, Version};
use udt_disk::{Disk, FileName, MemDisk};
use udt_model::KeySpan;

/// The file that flushes write to.
pub const TABLE: FileName = FileName::Table(3);

/// The memtable with one version more.
pub fn with_op(
    alloc: Global,
    mem: &Mem,
    key: &[u8],
    ts: u64,
    seq: u64,
    op: Op,
) -> Result<Mem, Fail> {
    let batch = [Version {
        family: mem.family(),
        key: Key::of(alloc, key)?,
        ts: Ts(ts),
        seq: Seq(seq),
        op,
    }];
    Ok(mem.with(&batch)?)
}

/// All versions of the memtables, memtable by memtable.
pub fn all_versions(alloc: Global, mems: &[Arc<Mem>]) -> Result<Vec<Version>, NoMemory>
    ensures { IfOk result (λ vs. vs.items ≡ versions_of_all (map arc_value mems.now)) }
{
    let mut all = Vec::new(alloc);
    for mem in mems {
        let mut versions = mem.as_ref().versions()?;
        all.append(&mut versions)?;
    }
    Ok(all)
}

fn are_of(family: Family, versions: &[Version]) -> bool
    ensures { OnTrue result (All (λ v. v.family ≡ family) versions.now) }
{
    versions.iter().all(|v| v.family == family)
}

/// None of the versions has this sequence.
fn have_others(versions: &[Version], seq: Seq) -> bool
    ensures { OnTrue result (All (λ v. seq.0 ≢ v.seq.0) versions.now) }
{
    versions.iter().all(|v| seq.0 != v.seq.0)
}

fn have_own_sequences(versions: &[Version]) -> bool
    ensures { OnTrue result (HaveOwnSequences versions.now) }
{
    let mut rest = versions;
    while let Some((first, more)) = rest.split_first() {
        if !have_others(more, first.seq) {
            return false;
        }
        rest = more;
    }
    true
}

fn are_stamps(versions: &[Version]) -> bool
    ensures { OnTrue result (All (λ v. IsStamp Persist v.ts.0) versions.now) }
{
    versions.iter().all(|v| v.ts.0 <= STAMP_LIMIT)
}

fn is_sequence(seq: Seq) -> bool
    ensures { OnTrue result (IsSequence seq.0) }
{
    seq.0 >= 1 && seq.0 <= SEQUENCE_LIMIT
}

fn are_sequences(versions: &[Version]) -> bool
    ensures { OnTrue result (All (λ v. IsSequence v.seq.0) versions.now) }
{
    versions.iter().all(|v| is_sequence(v.seq))
}

/// The versions are of one family, the first one's, and may be flushed.
fn are_flushable(versions: &[Version]) -> bool
    ensures { OnTrue result ((family : FamilyOf) × AreFlushable family versions.now) }
{
    if versions.is_empty() {
        return false;
    }
    if !are_of(versions[0].family, versions) {
        return false;
    }
    if !have_own_sequences(versions) {
        return false;
    }
    if !are_stamps(versions) {
        return false;
    }
    are_sequences(versions)
}

/// Flushes the memtables into a new file of the disk.
pub fn flush(
    alloc: Global,
    disk: &mut MemDisk,
    mems: &[Arc<Mem>],
    form: Form,
    floor: Ts,
    seqs: &[Seq],
) -> Result<Result<TableOut, JobCause>, Fail> {
    let versions = all_versions(alloc, mems)?;
    if !are_flushable(&versions) {
        return Err(Fail::new("these versions can't be flushed"));
    }
    let Ok(mut file) = disk.create(TABLE) else {
        return Err(Fail::new("no file"));
    };
    let result = run_flush(alloc, mems, form, floor, seqs, &mut file);
    disk.retire(file);
    Ok(result)
}

/// What a flush of the versions is to keep, by the definition.
pub fn plain_kept(
    alloc: Global,
    versions: &[Version],
    floor: Ts,
    seqs: &[Seq],
) -> Result<Vec<Version>, Fail> {
    let all_keys = [KeySpan {
        low: Key::of(alloc, b"")?,
        high: Key::of(alloc, &[0xFF; 16])?,
    }];
    Ok(plain_collect(alloc, versions, floor, seqs, &all_keys)?)
}

/// The same stripped.
pub fn plain_stripped(alloc: Global, kept: Vec<Version>) -> Result<Vec<Version>, Fail> {
    let mut kept = kept;
    for i in 0..kept.len() {
        kept[i].ts = Ts(0);
    }
    Ok(in_order(alloc, kept)?)
}

fn is_hit(v: &Version, hit: &Hit<'_>) -> bool {
    hit.ts == v.ts && hit.seq == v.seq && hit.kind == v.op.kind() && hit.value == v.op.value()
}

/// The table holds these versions, in this order, and no others.
pub fn holds(alloc: Global, table: &Table, versions: &[Version]) -> Result<bool, Fail> {
    let mut cursor = table.cursor(alloc)?;
    for v in versions {
        let Some((key, hit)) = cursor.at() else {
            return Ok(false);
        };
        if key.key != v.key.bytes() || !is_hit(v, &hit) {
            return Ok(false);
        }
        cursor.next();
    }
    Ok(cursor.at().is_none())
}
