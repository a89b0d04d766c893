//! Scans over two memtables and six tables, against scans over one table with all their versions.

use super::making::{Bounds, are_same, fresh, place_of, put, rows_upto, table, written};
use std::alloc::Global;
use std::test::Fail;
use super_version::SuperVersion;
use ts_key::{Family, Key, Op, Seq, Ts, Value, Version};

/// How many versions a batch has.
const BATCH: u64 = 60;

/// How many versions each of the eight lists has.
const EACH: u64 = 4 * BATCH;

/// The key with this number, of 300.
fn key_of(alloc: Global, number: u64) -> Result<Key, Fail> {
    let (front, back) = ((number / 100 % 256) as u8, (number % 100) as u8);
    Ok(Key::of(alloc, &[front, back])?)
}

/// The version with this sequence, with timestamps from 1 to 5 that don't rise; each ninth is a delete, and each third of one
/// of two keys, which so have many versions in each list.
fn version(alloc: Global, seq: u64) -> Result<Version, Fail> {
    let number = if seq % 3 == 0 {
        seq % 2 * 150
    } else {
        seq.wrapping_mul(7) % 300
    };
    let op = if seq % 9 == 4 {
        Op::Del
    } else {
        Op::Put(Value::of(alloc, &[(seq / 256 % 256) as u8, (seq % 256) as u8])?)
    };
    Ok(Version {
        family: Family(0),
        key: key_of(alloc, number)?,
        ts: Ts(seq.wrapping_mul(11) % 5 + 1),
        seq: Seq(seq),
        op,
    })
}

/// So many versions from this sequence on, in the stored order.
fn versions(alloc: Global, first: u64, count: u64) -> Result<Vec<Version>, Fail> {
    let mut all: Vec<Version> = Vec::new(alloc);
    for i in 0..count {
        let v = version(alloc, first.wrapping_add(i))?;
        let place = place_of(&all, &v);
        all.insert(place, v)?;
    }
    Ok(all)
}

/// The super version with the next batch, from this sequence on.
fn with_batch(alloc: Global, now: &SuperVersion, first: u64) -> Result<SuperVersion, Fail> {
    let mut ops = Vec::new(alloc);
    for i in 0..BATCH {
        let v = version(alloc, first.wrapping_add(i))?;
        let mut op = put(alloc, 0, v.key.bytes(), v.ts.0, b"")?;
        op.op = v.op;
        ops.push(op)?;
    }
    written(alloc, now, ops)
}

/// Two memtables over six tables, two on each of the levels 0, 1 and 2. The memtables have the least sequences.
fn many(alloc: Global) -> Result<SuperVersion, Fail> {
    let mut now = fresh(alloc, 1)?;
    for i in 0..8u64 {
        if i == 4 {
            now = now.sealed(alloc, Family(0))?;
        }
        now = with_batch(alloc, &now, BATCH * i + 1)?;
    }
    for i in 2..8u64 {
        let t = table(alloc, i, &versions(alloc, EACH * i + 1, EACH)?)?;
        if i < 4 {
            now = now.with_flush(alloc, Family(0), 0, Seq(0), Ts(0), t)?;
        } else {
            let mut added = Vec::new(alloc);
            added.push(t)?;
            now = now.with_compaction(alloc, Family(0), &[], (i / 2 - 1) as u32, added)?;
        }
    }
    Ok(now)
}

/// All these versions in one table.
fn plain(alloc: Global) -> Result<SuperVersion, Fail> {
    let all = table(alloc, 1, &versions(alloc, 1, 8 * EACH)?)?;
    Ok(fresh(alloc, 1)?.with_flush(alloc, Family(0), 0, Seq(0), Ts(0), all)?)
}

/// One of twenty bounds: none, or on a key, or between two.
fn bound(alloc: Global, n: u64) -> Result<Option<Key>, Fail> {
    if n >= 19 {
        return Ok(None);
    }
    let number = n * 16;
    let (front, back) = ((number / 100 % 256) as u8, (number % 100) as u8);
    let key = if n % 2 == 0 {
        Key::of(alloc, &[front, back])?
    } else {
        Key::of(alloc, &[front, back, 0])?
    };
    Ok(Some(key))
}

/// Whether the scans of a range, both ways, are the same over both.
fn agree(
    alloc: Global,
    many: &SuperVersion,
    plain: &SuperVersion,
    range: &Bounds,
) -> Result<bool, Fail> {
    for t in 1..6u64 {
        let s = if t == 4 { 5 * EACH } else { u64::MAX };
        let there = rows_upto(alloc, plain, range, t, s, true)?;
        for forward in [true, false] {
            let given = rows_upto(alloc, many, range, t, s, forward)?;
            if !are_same(&there, &given, forward) {
                return Ok(false);
            }
        }
    }
    Ok(true)
}

#[test]
fn scans_of_many_lists_are_those_of_one_table(rt: HostRuntime) -> Result<(), Fail> {
    let alloc = rt.alloc();
    let (many, plain) = (many(alloc)?, plain(alloc)?);
    for low in 0..20u64 {
        for high in 0..20u64 {
            let range = Bounds {
                low: bound(alloc, low)?,
                high: bound(alloc, high)?,
            };
            assert!(rt; agree(alloc, &many, &plain, &range)?);
        }
    }
    Ok(())
}
