//! Flushes against the plain collection, and files that fail.

use super::flushing::{TABLE, all_versions, flush, holds, plain_kept, plain_stripped, with_op};
use block_table::Table;
use bytes::Bytes;
use flush_job::JobCause;
use memtable::Mem;
use std::alloc::Global;
use std::sync::Arc;
use std::test::Fail;
use ts_key::{Family, Form, Op, Seq, Ts, Value, Version};
use udt_disk::{MemDisk, Outcome, Trouble};

/// A memtable with three puts of one key, at 5, 8 and 9.
fn three_puts(alloc: Global) -> Result<Vec<Arc<Mem>>, Fail> {
    let mut mem = Mem::empty(alloc, Family(0));
    for (seq, ts) in [(1, 5), (2, 8), (3, 9)] {
        mem = with_op(alloc, &mem, b"a", ts, seq, Op::Put(Value::of(alloc, b"v")?))?;
    }
    let mut mems = Vec::new(alloc);
    mems.push(Arc::new(alloc, mem)?)?;
    Ok(mems)
}

#[test]
fn what_the_floor_hides_is_left_out(rt: HostRuntime) -> Result<(), Fail> {
    let alloc = rt.alloc();
    let mems = three_puts(alloc)?;
    let mut disk = MemDisk::new(alloc, Vec::new(alloc))?;
    let Ok(out) = flush(alloc, &mut disk, &mems, Form::Persist, Ts(8), &[])? else {
        return Err(Fail::new("no table"));
    };
    assert!(rt; out.kept == 2 && out.floor == Ts(8));
    let properties = out.table.properties();
    assert!(rt; properties.count == 2 && properties.collected_by == Ts(8));
    assert!(rt; properties.family == Family(0) && properties.form == Form::Persist);
    let left = disk.after_crash(alloc, Outcome::Lost)?;
    assert_eq!(rt;
        left.contents(TABLE).map_or(0, |bytes| bytes.len() as u64),
        out.table.size()
    );
    Ok(())
}

#[test]
fn a_stripping_flush_raises_the_floor(rt: HostRuntime) -> Result<(), Fail> {
    let alloc = rt.alloc();
    let mems = three_puts(alloc)?;
    for (floor, left) in [(0, 10), (10, 10), (11, 11)] {
        let mut disk = MemDisk::new(alloc, Vec::new(alloc))?;
        let Ok(out) = flush(alloc, &mut disk, &mems, Form::Strip, Ts(floor), &[])? else {
            return Err(Fail::new("no table"));
        };
        assert!(rt; out.floor == Ts(left) && out.table.properties().collected_by == Ts(floor));
    }
    Ok(())
}

/// A memtable of 200 versions of 20 keys, with sequences behind these.
fn scrambled(alloc: Global, behind: u64) -> Result<Mem, Fail> {
    let mut mem = Mem::empty(alloc, Family(0));
    for index in 0..200u64 {
        let key = format!(in alloc; "key{:02}", index * 7919 % 20)?;
        let op = if index % 5 == 3 {
            Op::Del
        } else {
            Op::Put(Value::of(alloc, &[b'v'; 9])?)
        };
        let seq = behind.wrapping_add(index + 1);
        let ts = 1 + seq % 97 * 31 % 97;
        mem = with_op(alloc, &mem, key.as_bytes(), ts, seq, op)?;
    }
    Ok(mem)
}

fn three_memtables(alloc: Global) -> Result<Vec<Arc<Mem>>, Fail> {
    let mut mems = Vec::new(alloc);
    for behind in [400, 200, 0] {
        mems.push(Arc::new(alloc, scrambled(alloc, behind)?)?)?;
    }
    Ok(mems)
}

/// Whether a flush of the memtables keeps the wanted versions, in the table that it answers and in its file.
fn keeps(
    alloc: Global,
    mems: &[Arc<Mem>],
    form: Form,
    floor: Ts,
    seqs: &[Seq],
    wanted: &[Version],
) -> Result<bool, Fail> {
    let mut disk = MemDisk::new(alloc, Vec::new(alloc))?;
    let Ok(out) = flush(alloc, &mut disk, mems, form, floor, seqs)? else {
        return Ok(false);
    };
    let bytes = disk.contents(TABLE).ok_or("no contents")?;
    let Ok(table) = Table::read(alloc, Bytes::copy_from_slice(alloc, bytes)?) else {
        return Ok(false);
    };
    Ok(
        out.kept == wanted.len() as u64
            && holds(alloc, &out.table, wanted)?
            && holds(alloc, &table, wanted)?,
    )
}

/// Whether flushes of both forms keep what the definition says.
fn are_right(alloc: Global, mems: &[Arc<Mem>], floor: Ts, seqs: &[Seq]) -> Result<bool, Fail> {
    let versions = all_versions(alloc, mems)?;
    let kept = plain_kept(alloc, &versions, floor, seqs)?;
    if !keeps(alloc, mems, Form::Persist, floor, seqs, &kept)? {
        return Ok(false);
    }
    let stripped = plain_stripped(alloc, kept)?;
    keeps(alloc, mems, Form::Strip, floor, seqs, &stripped)
}

#[test]
fn three_memtables_keep_what_the_definition_says(rt: HostRuntime) -> Result<(), Fail> {
    let alloc = rt.alloc();
    let mems = three_memtables(alloc)?;
    assert!(rt; are_right(alloc, &mems, Ts(0), &[])?);
    assert!(rt; are_right(alloc, &mems, Ts(40), &[Seq(420), Seq(60), Seq(300)])?);
    assert!(rt; are_right(alloc, &mems, Ts(96), &[Seq(150)])?);
    assert!(rt; are_right(alloc, &mems, Ts(200), &[])?);
    Ok(())
}

/// The call of this number on the file fails: the first creates it.
fn failing(alloc: Global, call: u64) -> Result<MemDisk, Fail> {
    let mut troubles = Vec::new(alloc);
    troubles.push(Trouble {
        name: TABLE,
        call,
        lasting: false,
    })?;
    Ok(MemDisk::new(alloc, troubles)?)
}

#[test]
fn a_file_that_fails_is_a_fault(rt: HostRuntime) -> Result<(), Fail> {
    let alloc = rt.alloc();
    let mems = three_puts(alloc)?;
    for call in [2, 3] {
        let mut disk = failing(alloc, call)?;
        let result = flush(alloc, &mut disk, &mems, Form::Persist, Ts(0), &[])?;
        assert!(rt; matches!(result.err(), Some(JobCause::Fault)));
    }
    let mut disk = failing(alloc, 4)?;
    let result = flush(alloc, &mut disk, &mems, Form::Persist, Ts(0), &[])?;
    assert!(rt; matches!(result.map_or(0, |out| out.kept), 3));
    Ok(())
}
