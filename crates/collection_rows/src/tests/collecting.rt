//! `collect` and `plain_collect`: which versions a collection keeps.

use collection_laws::plain_collect;
use history_gc::collect;
use std::alloc::Global;
use std::test::Fail;
use ts_key::{Family, Key, Op, Seq, Ts, Value, Version};
use udt_model::{Answer, KeySpan, ModelRead, Stamp, plain_read};

fn version(alloc: Global, ts: u64, seq: u64, op: Op) -> Result<Version, Fail> {
    Ok(Version {
        family: Family(1),
        key: Key::of(alloc, b"a")?,
        ts: Ts(ts),
        seq: Seq(seq),
        op,
    })
}

/// A put of an empty value under the key `a`.
pub fn put(alloc: Global, ts: u64, seq: u64) -> Result<Version, Fail> {
    version(alloc, ts, seq, Op::Put(Value::of(alloc, b"")?))
}

/// A delete of the key `a`.
pub fn delete(alloc: Global, ts: u64, seq: u64) -> Result<Version, Fail> {
    version(alloc, ts, seq, Op::Del)
}

/// A put at 5, and then a delete at 6.
fn put_and_delete(alloc: Global) -> Result<Vec<Version>, Fail> {
    let mut versions = Vec::new(alloc);
    versions.push(put(alloc, 5, 1)?)?;
    versions.push(delete(alloc, 6, 2)?)?;
    Ok(versions)
}

/// The versions stand by these sequences.
pub fn have_seqs(versions: &[Version], seqs: &[u64]) -> bool {
    versions.len() == seqs.len() && versions.iter().zip(seqs).all(|(v, s)| v.seq.0 == *s)
}

/// Both keep of the put and the delete those with these sequences.
fn keep(
    alloc: Global,
    floor: Ts,
    snapshots: &[Seq],
    deeper: &[KeySpan],
    seqs: &[u64],
) -> Result<bool, Fail> {
    let mut versions = put_and_delete(alloc)?;
    let plain = plain_collect(alloc, &versions, floor, snapshots, deeper)?;
    collect(alloc, &mut versions, floor, snapshots, deeper)?;
    Ok(have_seqs(&versions, seqs) && have_seqs(&plain, seqs))
}

#[test]
fn a_delete_at_the_floor_takes_its_put_and_goes(rt: HostRuntime) -> Result<(), Fail> {
    assert!(rt; keep(rt.alloc(), Ts(6), &[], &[], &[])?);
    Ok(())
}

#[test]
fn above_the_floor_both_stay(rt: HostRuntime) -> Result<(), Fail> {
    assert!(rt; keep(rt.alloc(), Ts(5), &[], &[], &[2, 1])?);
    Ok(())
}

#[test]
fn a_snapshot_keeps_what_it_sees(rt: HostRuntime) -> Result<(), Fail> {
    assert!(rt; keep(rt.alloc(), Ts(6), &[Seq(1)], &[], &[2, 1])?);
    Ok(())
}

#[test]
fn a_delete_stays_where_versions_may_lie_deeper(rt: HostRuntime) -> Result<(), Fail> {
    let alloc = rt.alloc();
    let span = KeySpan {
        low: Key::of(alloc, b"")?,
        high: Key::of(alloc, b"a")?,
    };
    assert!(rt; keep(alloc, Ts(6), &[], &[span], &[2])?);
    Ok(())
}

/// The read found a value that was written below the floor.
fn is_below(read: &ModelRead) -> bool {
    match read {
        ModelRead::Told(Answer::Found { stamp, .. }) => *stamp == Stamp::Below,
        _ => false,
    }
}

#[test]
fn the_newest_below_the_floor_stays(rt: HostRuntime) -> Result<(), Fail> {
    let alloc = rt.alloc();
    let mut versions = Vec::new(alloc);
    versions.push(put(alloc, 5, 1)?)?;
    versions.push(put(alloc, 9, 2)?)?;
    let plain = plain_collect(alloc, &versions, Ts(8), &[], &[])?;
    collect(alloc, &mut versions, Ts(8), &[], &[])?;
    assert!(rt; have_seqs(&versions, &[2, 1]));
    assert!(rt; have_seqs(&plain, &[2, 1]));
    let read = plain_read(alloc, &versions, Ts(8), Family(1), b"a", Ts(8), Seq(2))?;
    assert!(rt; is_below(&read));
    Ok(())
}
