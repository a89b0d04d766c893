//! Runs of compactions, and files that fail.

ghost use Rattle.std.specs.Prelude.{All, IfOk};
ghost use Rattle.ts_key.specs.declared.version.Form.TheVariants.{Persist};
ghost use Rattle.compaction.specs.Made.{IsInput};
ghost use Rattle.compaction_rows.specs.Inputs.{IsOfFirst};

use super::files::DiskFiles;
use super::plans::is_plan;
use super::tables::{empty_store, files, holds, put, table, with_tables};
use collection_laws::plain_collect;
use compaction::{JobCause, Output, Plan, pick, run_compaction, whole};
use std::alloc::Global;
use std::test::Fail;
use super_version::LiveTable;
use ts_key::{Family, Form, Key, Op, Seq, Ts, Version};
use udt_disk::{FileName, MemDisk, MemFile, Trouble};
use udt_model::{Items, KeySpan};

fn plan(inputs: Vec<LiveTable>, deeper: Vec<KeySpan>) -> Plan
    requires { All IsOfFirst inputs.items }
    ensures { All (IsInput result.family Persist) result.inputs }
{
    Plan {
        family: Family(0),
        inputs: Items::of(inputs),
        level: 1,
        deeper: Items::of(deeper),
    }
}

/// The plan of one table.
fn plan_of(alloc: Global, versions: &[Version]) -> Result<Plan, Fail>
    ensures { IfOk result (λ p. All (IsInput p.family Persist) p.inputs) }
{
    let mut tables = Vec::new(alloc);
    tables.push(table(alloc, 3, versions)?)?;
    Ok(plan(tables, Vec::new(alloc)))
}

/// The plan of two tables.
fn plan_of_both(alloc: Global, a: &[Version], b: &[Version]) -> Result<Plan, Fail>
    ensures { IfOk result (λ p. All (IsInput p.family Persist) p.inputs) }
{
    let mut tables = Vec::new(alloc);
    tables.push(table(alloc, 3, a)?)?;
    tables.push(table(alloc, 4, b)?)?;
    Ok(plan(tables, Vec::new(alloc)))
}

/// How many versions each table has.
fn counts(alloc: Global, outs: &[Output<MemFile>]) -> Result<Vec<u64>, Fail> {
    let mut counts = Vec::new(alloc);
    for out in outs {
        counts.push(out.kept)?;
    }
    Ok(counts)
}

/// Forty versions of forty keys, with large values.
fn forty(alloc: Global) -> Result<Vec<Version>, Fail> {
    let value = vec![in alloc; b'v'; 65536]?;
    let mut versions = Vec::new(alloc);
    for i in 10..50u64 {
        let key = format!(in alloc; "k{i}")?;
        versions.push(put(alloc, key.as_bytes(), 1, i - 9, &value)?)?;
    }
    Ok(versions)
}

#[test]
fn tables_end_at_their_size(rt: HostRuntime) -> Result<(), Fail> {
    let alloc = rt.alloc();
    let plan = plan_of(alloc, &forty(alloc)?)?;
    let mut files = files(alloc, 4)?;
    let Ok(outs) = run_compaction(alloc, &plan, Form::Persist, Ts(0), &[], &mut files) else {
        return Err(Fail::new("no tables"));
    };
    assert!(rt; files.next == 6 && files.out == 2);
    let counts = counts(alloc, &outs)?;
    assert!(rt; counts.as_slice() == [32, 8].as_slice());
    Ok(())
}

#[test]
fn what_the_floor_hides_is_left_out(rt: HostRuntime) -> Result<(), Fail> {
    let alloc = rt.alloc();
    let mut versions = Vec::new(alloc);
    versions.push(put(alloc, b"a", 9, 3, b"w")?)?;
    versions.push(put(alloc, b"a", 8, 2, b"v")?)?;
    versions.push(put(alloc, b"a", 5, 1, b"u")?)?;
    let plan = plan_of(alloc, &versions)?;
    let mut files = files(alloc, 4)?;
    let Ok(outs) = run_compaction(alloc, &plan, Form::Persist, Ts(8), &[], &mut files) else {
        return Err(Fail::new("no tables"));
    };
    let counts = counts(alloc, &outs)?;
    assert!(rt; counts.as_slice() == [2].as_slice());
    Ok(())
}

#[test]
fn what_is_kept_already_is_kept_again(rt: HostRuntime) -> Result<(), Fail> {
    let alloc = rt.alloc();
    let mut versions = Vec::new(alloc);
    versions.push(put(alloc, b"a", 9, 3, b"w")?)?;
    versions.push(put(alloc, b"a", 8, 2, b"v")?)?;
    let mut flushed = Vec::new(alloc);
    flushed.push(table(alloc, 3, &versions)?)?;
    let now = with_tables(alloc, &empty_store(alloc)?, 0, flushed)?;
    assert!(rt; is_plan(&whole(alloc, &now, Family(0))?, &[3], 6, 0));
    assert!(rt; pick(alloc, &now, Family(0))?.is_none());
    let plan = plan_of(alloc, &versions)?;
    let mut files = files(alloc, 4)?;
    let Ok(outs) = run_compaction(alloc, &plan, Form::Persist, Ts(8), &[], &mut files) else {
        return Err(Fail::new("no tables"));
    };
    assert!(rt; outs.len() == 1 && outs[0].number == 4);
    assert!(rt; holds(alloc, &outs[0].table, &versions)?);
    Ok(())
}

#[test]
fn nothing_is_kept_and_drawn(rt: HostRuntime) -> Result<(), Fail> {
    let alloc = rt.alloc();
    let mut versions = Vec::new(alloc);
    let mut delete = put(alloc, b"a", 6, 2, b"")?;
    delete.op = Op::Del;
    versions.push(delete)?;
    versions.push(put(alloc, b"a", 5, 1, b"v")?)?;
    let plan = plan_of(alloc, &versions)?;
    let mut files = files(alloc, 4)?;
    let Ok(outs) = run_compaction(alloc, &plan, Form::Persist, Ts(6), &[], &mut files) else {
        return Err(Fail::new("no tables"));
    };
    assert!(rt; outs.is_empty() && files.next == 4);
    Ok(())
}

#[test]
fn one_version_in_two_inputs_is_want_of_memory(rt: HostRuntime) -> Result<(), Fail> {
    let alloc = rt.alloc();
    let mut versions = Vec::new(alloc);
    versions.push(put(alloc, b"a", 5, 1, b"v")?)?;
    let plan = plan_of_both(alloc, &versions, &versions)?;
    let mut files = files(alloc, 5)?;
    match run_compaction(alloc, &plan, Form::Persist, Ts(0), &[], &mut files) {
        Ok(_) => return Err(Fail::new("tables")),
        Err(cause) => assert!(rt; cause == JobCause::Memory && files.out == 0),
    }
    Ok(())
}

/// Why a compaction is refused with these files, where it is.
fn refused(alloc: Global, plan: &Plan, files: &mut DiskFiles) -> Result<Option<JobCause>, Fail>
    requires { All (IsInput plan.now.family Persist) plan.now.inputs }
{
    match run_compaction(alloc, plan, Form::Persist, Ts(0), &[], files) {
        Ok(_) => Ok(None),
        Err(cause) => Ok(Some(cause)),
    }
}

/// Files on a disk on which a call of one of them fails.
fn failing(alloc: Global, name: u64, call: u64) -> Result<DiskFiles, Fail> {
    let mut troubles = Vec::new(alloc);
    troubles.push(Trouble {
        name: FileName::Table(name),
        call,
        lasting: false,
    })?;
    let disk = MemDisk::new(alloc, troubles)?;
    Ok(DiskFiles::new(disk, 10, None))
}

#[test]
fn files_are_given_back_on_a_refusal(rt: HostRuntime) -> Result<(), Fail> {
    let alloc = rt.alloc();
    let plan = plan_of(alloc, &forty(alloc)?)?;
    for (name, call, next) in [
        (10, 1, 10),
        (10, 2, 11),
        (11, 1, 11),
        (11, 2, 12),
        (11, 3, 12),
    ] {
        let mut files = failing(alloc, name, call)?;
        assert!(rt; refused(alloc, &plan, &mut files)? == Some(JobCause::Fault));
        // No file is drawn behind the one that fails, which the first call makes.
        assert!(rt; files.out == 0 && files.next == next);
    }
    let mut few = files(alloc, u64::MAX / 2)?;
    assert!(rt; refused(alloc, &plan, &mut few)? == Some(JobCause::Files { next: 1 << 63 }));
    assert!(rt; few.out == 0 && few.next == 1 << 63);
    let mut halted = files(alloc, 10)?;
    halted.halted = Some(7);
    assert!(rt; refused(alloc, &plan, &mut halted)? == Some(JobCause::Halted { since: 7 }));
    assert!(rt; halted.out == 0 && halted.next == 10);
    Ok(())
}

/// A scrambled list of versions of a few keys, with sequences from one on.
fn scrambled(alloc: Global, from: u64, count: u64) -> Result<Vec<Version>, Fail> {
    let mut versions = Vec::new(alloc);
    for index in 0..count {
        let seq = from.wrapping_add(index);
        let key = format!(in alloc; "key{:02}", seq.wrapping_mul(7919) % 13)?;
        let mut v = put(alloc, key.as_bytes(), 1 + seq % 97 * 31 % 97, seq, b"value")?;
        if seq % 5 == 3 {
            v.op = Op::Del;
        }
        versions.push(v)?;
    }
    Ok(collection_laws::in_order(alloc, versions)?)
}

/// A compaction of so many tables, where keys of a span lie deeper.
#[derive(Clone, Copy)]
struct Row {
    count: u64,
    floor: Ts,
    seqs: &'static [Seq],
    low: &'static [u8],
    high: &'static [u8],
}

const ROWS: &[Row] = &[
    Row {
        count: 3,
        floor: Ts(0),
        seqs: &[],
        low: b"z",
        high: b"z",
    },
    Row {
        count: 3,
        floor: Ts(40),
        seqs: &[Seq(120), Seq(60), Seq(200)],
        low: b"z",
        high: b"z",
    },
    Row {
        count: 3,
        floor: Ts(96),
        seqs: &[Seq(150)],
        low: b"key02",
        high: b"key05",
    },
    Row {
        count: 3,
        floor: Ts(200),
        seqs: &[],
        low: b"key00",
        high: b"key03",
    },
    Row {
        count: 2,
        floor: Ts(200),
        seqs: &[],
        low: b"key00",
        high: b"key12",
    },
    Row {
        count: 1,
        floor: Ts(60),
        seqs: &[Seq(30)],
        low: b"z",
        high: b"z",
    },
];

/// How many versions each of the tables has.
const TABLE_VERSIONS: u64 = 70;

/// The first sequence of a table.
fn first_of(index: u64) -> u64 {
    index.wrapping_mul(TABLE_VERSIONS).wrapping_add(1)
}

fn tables_of(alloc: Global, count: u64) -> Result<Vec<LiveTable>, Fail>
    ensures { IfOk result (λ all. All IsOfFirst all.items) }
{
    let mut all = Vec::new(alloc);
    for index in 0..count {
        let versions = scrambled(alloc, first_of(index), TABLE_VERSIONS)?;
        all.push(table(alloc, index.wrapping_add(3), &versions)?)?;
    }
    Ok(all)
}

fn span(alloc: Global, low: &[u8], high: &[u8]) -> Result<KeySpan, Fail> {
    Ok(KeySpan {
        low: Key::of(alloc, low)?,
        high: Key::of(alloc, high)?,
    })
}

/// Whether the compaction keeps what the definition says.
fn is_right(alloc: Global, row: &Row) -> Result<bool, Fail> {
    let spans = [span(alloc, row.low, row.high)?];
    let count = row.count.wrapping_mul(TABLE_VERSIONS);
    let all = scrambled(alloc, 1, count)?;
    let wanted = plain_collect(alloc, &all, row.floor, row.seqs, &spans)?;
    let mut deeper = Vec::new(alloc);
    deeper.push(span(alloc, row.low, row.high)?)?;
    let plan = plan(tables_of(alloc, row.count)?, deeper);
    let mut files = files(alloc, 300)?;
    let Ok(outs) = run_compaction(alloc, &plan, Form::Persist, row.floor, row.seqs, &mut files)
    else {
        return Ok(false);
    };
    let right = outs.len() == 1 && holds(alloc, &outs[0].table, &wanted)?;
    Ok(right)
}

#[test]
fn tables_keep_what_the_definition_says(rt: HostRuntime) -> Result<(), Fail> {
    for row in ROWS {
        assert!(rt; is_right(rt.alloc(), row)?);
    }
    Ok(())
}
