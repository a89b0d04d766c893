//! Scans over many lists, against the plain list of all versions.

use super::making::{Bounds, are_same, fresh, place_of, put, rows, table, written};
use std::alloc::Global;
use std::test::Fail;
use super_version::SuperVersion;
use ts_iterator::Row;
use ts_key::{Family, Key, Op, Seq, Ts, Value, Version};
use udt_model::{Answer, ModelRead, plain_read};

/// How many versions each list has.
const EACH: u64 = 6;

/// The version with this sequence: one of five keys, with timestamps from 1 to 7 that don't rise; each fourth is a delete.
fn version(alloc: Global, seq: u64) -> Result<Version, Fail> {
    let key = [b'k', (seq.wrapping_mul(7) % 5) as u8];
    let op = if seq % 4 == 3 {
        Op::Del
    } else {
        Op::Put(Value::of(alloc, &[(seq % 256) as u8])?)
    };
    Ok(Version {
        family: Family(0),
        key: Key::of(alloc, &key)?,
        ts: Ts(seq.wrapping_mul(11) % 7 + 1),
        seq: Seq(seq),
        op,
    })
}

/// The versions with the sequences from this one on, in the stored order.
fn versions(alloc: Global, first: u64) -> Result<Vec<Version>, Fail> {
    let mut all: Vec<Version> = Vec::new(alloc);
    for i in 0..EACH {
        let v = version(alloc, first.wrapping_add(i))?;
        let place = place_of(&all, &v);
        all.insert(place, v)?;
    }
    Ok(all)
}

/// Three memtables over eight tables: three on level 0, three on level 1 and two on level 2. The tables have the sequences
/// from 19 on, so that the newest lists don't have the newest versions.
fn many(alloc: Global) -> Result<SuperVersion, Fail> {
    let mut now = fresh(alloc, 1)?;
    for i in 0..3u64 {
        let mut ops = Vec::new(alloc);
        for seq in EACH * i + 1..EACH * i + EACH + 1 {
            let v = version(alloc, seq)?;
            let mut op = put(alloc, 0, v.key.bytes(), v.ts.0, b"")?;
            op.op = v.op;
            ops.push(op)?;
        }
        now = written(alloc, &now, ops)?;
        if i < 2 {
            now = now.sealed(alloc, Family(0))?;
        }
    }
    for i in 0..8u64 {
        let t = table(alloc, i + 3, &versions(alloc, EACH * (i + 3) + 1)?)?;
        if i < 3 {
            now = now.with_flush(alloc, Family(0), 0, Seq(0), Ts(0), t)?;
        } else {
            let mut added = Vec::new(alloc);
            added.push(t)?;
            let level = if i < 6 { 1 } else { 2 };
            now = now.with_compaction(alloc, Family(0), &[], level, added)?;
        }
    }
    Ok(now)
}

fn is_in(range: &Bounds, key: &[u8]) -> bool {
    let from = match &range.low {
        None => true,
        Some(low) => low.bytes().cmp(&key).is_le(),
    };
    let under = match &range.high {
        None => true,
        Some(high) => key.cmp(&high.bytes()).is_lt(),
    };
    from && under
}

/// The rows of the plain list, by ascending key.
fn plain_rows(
    alloc: Global,
    all: &[Version],
    floor: u64,
    range: &Bounds,
    t: u64,
) -> Result<Vec<Row>, Fail> {
    let mut rows = Vec::new(alloc);
    for k in 0..6u8 {
        let key = Key::of(alloc, &[b'k', k])?;
        let read = plain_read(
            alloc,
            all,
            Ts(floor),
            Family(0),
            key.bytes(),
            Ts(t),
            Seq(u64::MAX),
        )?;
        if let ModelRead::Told(Answer::Found { value, stamp }) = read {
            if is_in(range, key.bytes()) {
                rows.push(Row { key, value, stamp })?;
            }
        }
    }
    Ok(rows)
}

/// A bound between, on, before or after the keys, or none.
fn bound(alloc: Global, n: u8) -> Result<Option<Key>, Fail> {
    if n >= 14 {
        return Ok(None);
    }
    let key = if n % 2 == 0 {
        Key::of(alloc, &[b'k', n / 2])?
    } else {
        Key::of(alloc, &[b'k', n / 2, 0])?
    };
    Ok(Some(key))
}

/// Whether the scans of a range, both ways, are those of the plain list.
fn agree(
    alloc: Global,
    now: &SuperVersion,
    all: &[Version],
    floor: u64,
    range: &Bounds,
) -> Result<bool, Fail> {
    for t in floor..9u64 {
        let plain = plain_rows(alloc, all, floor, range, t)?;
        for forward in [true, false] {
            let given = rows(alloc, now, range, t, forward)?;
            if !are_same(&plain, &given, forward) {
                return Ok(false);
            }
        }
    }
    Ok(true)
}

#[test]
fn scans_are_those_of_the_plain_list(rt: HostRuntime) -> Result<(), Fail> {
    let alloc = rt.alloc();
    let now = many(alloc)?;
    let mut all = Vec::new(alloc);
    for seq in 1..EACH * 11 + 1 {
        all.push(version(alloc, seq)?)?;
    }
    for floor in [0u64, 4] {
        let now = now.with_floor(alloc, Family(0), Ts(floor))?;
        for low in 0..15u8 {
            for high in 0..15u8 {
                let range = Bounds {
                    low: bound(alloc, low)?,
                    high: bound(alloc, high)?,
                };
                assert!(rt; agree(alloc, &now, &all, floor, &range)?);
            }
        }
    }
    Ok(())
}
