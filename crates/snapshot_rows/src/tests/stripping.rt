//! `strip`: timestamps to 0, and one above the greatest.

use std::alloc::Global;
use std::test::Fail;
use strip::{cutoff, strip_versions};
use ts_key::{Family, Key, Op, Seq, Ts, Value, Version};
use udt_model::{Answer, ModelRead, Stamp, plain_read};

fn delete(alloc: Global, key: &[u8], ts: u64, seq: u64) -> Result<Version, Fail> {
    Ok(Version {
        family: Family(1),
        key: Key::of(alloc, key)?,
        ts: Ts(ts),
        seq: Seq(seq),
        op: Op::Del,
    })
}

#[test]
fn one_above_the_greatest(rt: HostRuntime) -> Result<(), Fail> {
    let alloc = rt.alloc();
    assert_eq!(rt; cutoff(&[]), Ts(0));
    let mut versions = Vec::new(alloc);
    versions.push(delete(alloc, b"a", 5, 1)?)?;
    assert_eq!(rt; cutoff(&versions), Ts(6));
    versions.push(delete(alloc, b"b", 3, 2)?)?;
    assert_eq!(rt; cutoff(&versions), Ts(6));
    versions.push(delete(alloc, b"b", 0, 3)?)?;
    assert_eq!(rt; cutoff(&versions), Ts(6));
    versions.push(delete(alloc, b"c", u64::MAX, 4)?)?;
    assert_eq!(rt; cutoff(&versions), Ts(u64::MAX));
    Ok(())
}

#[test]
fn the_newer_write_stands_first(rt: HostRuntime) -> Result<(), Fail> {
    let alloc = rt.alloc();
    let mut versions = Vec::new(alloc);
    versions.push(delete(alloc, b"a", 9, 1)?)?;
    versions.push(delete(alloc, b"a", 5, 7)?)?;
    versions.push(delete(alloc, b"b", 2, 4)?)?;
    versions.push(delete(alloc, b"b", 1, 8)?)?;
    strip_versions(&mut versions);
    let mut seen = Vec::new(alloc);
    for version in &versions {
        assert_eq!(rt; version.ts, Ts(0));
        seen.push(version.seq.0)?;
    }
    assert_eq!(rt; seen.as_slice(), [7, 1, 8, 4].as_slice());
    Ok(())
}

/// The read is refused below this floor.
fn is_collapsed(read: &ModelRead, at: Ts) -> bool {
    match read {
        ModelRead::Collapsed { floor } => *floor == at,
        ModelRead::Told(_) => false,
    }
}

/// The read found this value, written below the floor.
fn is_found_below(read: &ModelRead, bytes: &[u8]) -> bool {
    match read {
        ModelRead::Told(Answer::Found { value, stamp }) => {
            *stamp == Stamp::Below && value.bytes() == bytes
        }
        _ => false,
    }
}

#[test]
fn a_stripped_put_is_read_below_the_cutoff(rt: HostRuntime) -> Result<(), Fail> {
    let alloc = rt.alloc();
    let mut put = delete(alloc, b"a", 5, 1)?;
    put.op = Op::Put(Value::of(alloc, b"v")?);
    let mut versions = Vec::new(alloc);
    versions.push(put)?;
    let floor = cutoff(&versions);
    strip_versions(&mut versions);
    let early = plain_read(alloc, &versions, floor, Family(1), b"a", Ts(5), Seq(1))?;
    assert!(rt; is_collapsed(&early, Ts(6)));
    let at_floor = plain_read(alloc, &versions, floor, Family(1), b"a", Ts(6), Seq(1))?;
    assert!(rt; is_found_below(&at_floor, b"v"));
    Ok(())
}
