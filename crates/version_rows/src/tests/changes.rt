//! The changes one after the other, and what each leaves.

use super::making::{fresh, put, read, table, with_put, written};
use point_read::Read;
use std::alloc::Global;
use std::sync::Arc;
use std::test::Fail;
use super_version::{LiveTable, SuperVersion};
use ts_key::{Family, Key, Op, Seq, Ts, Value, Version};
use udt_model::Stamp;

/// The floor of a family.
fn floor_of(now: &SuperVersion, family: u32) -> Option<Ts> {
    now.family(Family(family)).map(|f| f.floor)
}

/// How many sealed memtables a family has.
fn sealed_in(now: &SuperVersion, family: u32) -> Option<usize> {
    now.family(Family(family)).map(|f| f.sealed.len())
}

/// How many tables are on a level of family 0.
fn tables_on(now: &SuperVersion, level: usize) -> Option<usize> {
    let state = now.family(Family(0))?;
    let tables = state.levels.get(level)?;
    Some(tables.len())
}

/// How many super versions share the state of a family.
fn owners_of(now: &SuperVersion, family: usize) -> Option<usize> {
    let state = now.families.as_slice().get(family)?;
    Some(Arc::strong_count(state))
}

/// A version of family 0 with this value.
fn version(alloc: Global, ts: u64, seq: u64, value: &[u8]) -> Result<Version, Fail> {
    Ok(Version {
        family: Family(0),
        key: Key::of(alloc, b"a")?,
        ts: Ts(ts),
        seq: Seq(seq),
        op: Op::Put(Value::of(alloc, value)?),
    })
}

fn is_found(read: Option<Read<'_>>, wanted: &[u8], wanted_stamp: Stamp) -> bool {
    match read {
        Some(Read::Found { value, stamp }) => value == wanted && stamp == wanted_stamp,
        _ => false,
    }
}

/// A family in which `a` was put at 5, at 8 and at 9.
fn three_puts(alloc: Global) -> Result<SuperVersion, Fail> {
    let now = fresh(alloc, 1)?;
    let now = with_put(alloc, &now, 0, b"a", 5, b"u")?;
    let now = with_put(alloc, &now, 0, b"a", 8, b"v")?;
    with_put(alloc, &now, 0, b"a", 9, b"w")
}

/// Its floor is raised to 8.
fn raised(alloc: Global) -> Result<SuperVersion, Fail> {
    Ok(three_puts(alloc)?.with_floor(alloc, Family(0), Ts(8))?)
}

/// Its memtable is sealed.
fn sealed(alloc: Global) -> Result<SuperVersion, Fail> {
    Ok(raised(alloc)?.sealed(alloc, Family(0))?)
}

/// What a collection by the floor leaves of it, in a table of this number.
fn collected(alloc: Global, number: u64) -> Result<LiveTable, Fail> {
    let versions = [version(alloc, 9, 3, b"w")?, version(alloc, 8, 2, b"v")?];
    table(alloc, number, &versions)
}

/// A flush has written it to table 3.
fn flushed(alloc: Global) -> Result<SuperVersion, Fail> {
    let added = collected(alloc, 3)?;
    Ok(sealed(alloc)?.with_flush(alloc, Family(0), 1, Seq(3), Ts(8), added)?)
}

#[test]
fn writes_are_read(rt: HostRuntime) -> Result<(), Fail> {
    let now = three_puts(rt.alloc())?;
    assert!(rt; now.last == Seq(3) && now.newest(Family(0), b"a") == Some(Ts(9)));
    assert!(rt; is_found(read(&now, 0, b"a", 8, 3), b"v", Stamp::At(Ts(8))));
    assert!(rt; is_found(read(&now, 0, b"a", 8, 1), b"u", Stamp::At(Ts(5))));
    assert!(rt; matches!(read(&now, 0, b"a", 4, 3), Some(Read::Absent)));
    Ok(())
}

#[test]
fn a_floor_is_raised(rt: HostRuntime) -> Result<(), Fail> {
    let now = raised(rt.alloc())?;
    assert!(rt; floor_of(&now, 0) == Some(Ts(8)));
    assert!(rt;
        matches!(
            read(&now, 0, b"a", 7, 3),
            Some(Read::Collapsed { floor: Ts(8) })
        )
    );
    assert!(rt; is_found(read(&now, 0, b"a", 8, 1), b"u", Stamp::Below));
    assert!(rt; is_found(read(&now, 0, b"a", 8, 3), b"v", Stamp::At(Ts(8))));
    Ok(())
}

#[test]
fn a_worked_run(rt: HostRuntime) -> Result<(), Fail> {
    let alloc = rt.alloc();
    let now = sealed(alloc)?;
    assert!(rt; sealed_in(&now, 0) == Some(1) && now.newest(Family(0), b"a") == Some(Ts(9)));
    let now = flushed(alloc)?;
    assert!(rt; sealed_in(&now, 0) == Some(0) && tables_on(&now, 0) == Some(1));
    let mut added = Vec::new(alloc);
    added.push(collected(alloc, 4)?)?;
    let now = now.with_compaction(alloc, Family(0), &[3], 6, added)?;
    assert!(rt; now.last == Seq(3) && floor_of(&now, 0) == Some(Ts(8)));
    assert!(rt; tables_on(&now, 0) == Some(0) && tables_on(&now, 6) == Some(1));
    assert!(rt; is_found(read(&now, 0, b"a", 9, 3), b"w", Stamp::At(Ts(9))));
    Ok(())
}

/// Two families, with two puts and one.
fn two_families(alloc: Global) -> Result<SuperVersion, Fail> {
    let mut ops = Vec::new(alloc);
    ops.push(put(alloc, 0, b"a", 5, b"d")?)?;
    ops.push(put(alloc, 1, b"a", 6, b"e")?)?;
    ops.push(put(alloc, 0, b"b", 7, b"f")?)?;
    written(alloc, &fresh(alloc, 2)?, ops)
}

#[test]
fn a_change_leaves_other_families(rt: HostRuntime) -> Result<(), Fail> {
    let alloc = rt.alloc();
    let first = two_families(alloc)?;
    let raised = first.with_floor(alloc, Family(1), Ts(6))?;
    assert!(rt; owners_of(&raised, 0) == Some(2) && owners_of(&raised, 1) == Some(1));
    let sealed = raised.sealed(alloc, Family(1))?;
    assert!(rt; owners_of(&sealed, 0) == Some(3) && owners_of(&sealed, 1) == Some(1));
    let now = with_put(alloc, &sealed, 1, b"a", 8, b"g")?;
    assert!(rt; owners_of(&now, 0) == Some(4) && owners_of(&now, 1) == Some(1));
    assert!(rt; floor_of(&now, 0) == Some(Ts(0)) && floor_of(&now, 1) == Some(Ts(6)));
    assert!(rt; sealed_in(&now, 0) == Some(0) && sealed_in(&now, 1) == Some(1));
    assert!(rt; now.newest(Family(0), b"a") == Some(Ts(5)));
    assert!(rt; now.newest(Family(1), b"a") == Some(Ts(8)));
    assert!(rt; is_found(read(&now, 0, b"b", 9, 4), b"f", Stamp::At(Ts(7))));
    assert!(rt; is_found(read(&now, 1, b"a", 7, 4), b"e", Stamp::At(Ts(6))));
    Ok(())
}

#[test]
fn there_is_no_other_family(rt: HostRuntime) -> Result<(), Fail> {
    let now = two_families(rt.alloc())?;
    assert!(rt; now.newest(Family(1), b"b").is_none() && now.newest(Family(2), b"a").is_none());
    assert!(rt; now.family(Family(2)).is_none() && now.copy()?.last == Seq(3));
    Ok(())
}
