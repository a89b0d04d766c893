//! Short lists, floors and snapshots, one by one: `collect` and `plain_collect` keep the same.

use super::collecting::{delete, put};
use collection_laws::plain_collect;
use history_gc::collect;
use std::alloc::Global;
use std::test::Fail;
use ts_key::{Key, Seq, Ts, Version};
use udt_model::KeySpan;

/// A put or a delete at 1, 2 or 3, by a digit from 1 to 6.
fn version(alloc: Global, digit: u64, seq: u64) -> Result<Version, Fail> {
    if digit < 4 {
        return put(alloc, digit, seq);
    }
    delete(alloc, digit - 3, seq)
}

/// The list that a code stands for: of four digits to the base 7, the lowest first, each a version or none.
fn list_of(alloc: Global, code: u64) -> Result<Vec<Version>, Fail> {
    let mut versions = Vec::new(alloc);
    let mut rest = code;
    for seq in 1..5 {
        let digit = rest % 7;
        rest /= 7;
        if digit > 0 {
            versions.push(version(alloc, digit, seq)?)?;
        }
    }
    Ok(versions)
}

fn copies(alloc: Global, versions: &[Version]) -> Result<Vec<Version>, Fail> {
    let mut copies = Vec::new(alloc);
    for version in versions {
        copies.push(version.copy()?)?;
    }
    Ok(copies)
}

/// Both are the same version, where they have one key.
fn is_like(v: &Version, w: &Version) -> bool {
    v.ts == w.ts && v.seq == w.seq && v.op.kind() == w.op.kind()
}

/// Both are the same versions of one key in the same order.
fn are_alike(a: &[Version], b: &[Version]) -> bool {
    a.len() == b.len() && a.iter().zip(b).all(|(v, w)| is_like(v, w))
}

/// Both collections keep the same.
fn agree(
    alloc: Global,
    versions: &[Version],
    floor: Ts,
    seqs: &[Seq],
    deeper: &[KeySpan],
) -> Result<bool, Fail> {
    let mut kept = copies(alloc, versions)?;
    collect(alloc, &mut kept, floor, seqs, deeper)?;
    let plain = plain_collect(alloc, versions, floor, seqs, deeper)?;
    Ok(are_alike(&kept, &plain))
}

/// With no snapshot, and with each one alone and beside one of sequence 2.
fn agree_for_snapshots(
    alloc: Global,
    versions: &[Version],
    floor: Ts,
    deeper: &[KeySpan],
) -> Result<bool, Fail> {
    let mut agree_so_far = agree(alloc, versions, floor, &[], deeper)?;
    for s in 0..5 {
        agree_so_far &= agree(alloc, versions, floor, &[Seq(s)], deeper)?;
        agree_so_far &= agree(alloc, versions, floor, &[Seq(2), Seq(s)], deeper)?;
    }
    Ok(agree_so_far)
}

/// At each floor from 0 to 4.
fn agree_for_floors(alloc: Global, code: u64, deeper: &[KeySpan]) -> Result<bool, Fail> {
    let versions = list_of(alloc, code)?;
    let mut agree_so_far = true;
    for floor in 0..5 {
        agree_so_far &= agree_for_snapshots(alloc, &versions, Ts(floor), deeper)?;
    }
    Ok(agree_so_far)
}

/// A span of keys around the versions' key.
fn around(alloc: Global) -> Result<KeySpan, Fail> {
    Ok(KeySpan {
        low: Key::of(alloc, b"a")?,
        high: Key::of(alloc, b"b")?,
    })
}

#[test]
fn every_list_up_to_three_with_nothing_deeper(rt: HostRuntime) -> Result<(), Fail> {
    for code in 0..343 {
        assert!(rt; agree_for_floors(rt.alloc(), code, &[])?);
    }
    Ok(())
}

#[test]
fn every_list_up_to_three_over_a_deeper_span(rt: HostRuntime) -> Result<(), Fail> {
    let deeper = [around(rt.alloc())?];
    for code in 0..343 {
        assert!(rt; agree_for_floors(rt.alloc(), code, &deeper)?);
    }
    Ok(())
}

#[test]
fn each_sixteenth_list_of_four(rt: HostRuntime) -> Result<(), Fail> {
    let deeper = [around(rt.alloc())?];
    for i in 0..128 {
        assert!(rt; agree_for_floors(rt.alloc(), 343 + 16 * i, &[])?);
        assert!(rt; agree_for_floors(rt.alloc(), 343 + 16 * i, &deeper)?);
    }
    Ok(())
}
