//! Merges of slices, walked up and down, against the list of all.
ghost use Rattle.std.specs.Prelude.{◌≡◌, ◌≤◌, ◌<◌, length};
ghost use Rattle.std.specs.Bool.{OnTrue};
ghost use Rattle.ts_key.specs.Items.{items_of};
ghost use Rattle.ts_key.specs.Lists.{IsOrdered};

use merge_cursor::{Cursor, Merge, SliceCursor};
use std::alloc::Global;
use std::test::Fail;
use ts_key::{Family, Key, KeyRef, Kind, Op, Seq, Ts, Value, Version, compare};

/// A key and a timestamp, as numbers.
type Row = (u64, u64);

/// Are these versions in the stored order?
fn are_ordered(versions: &[Version]) -> bool
    ensures { OnTrue result (IsOrdered (items_of versions.now)) }
{
    match versions.split_first() {
        None => true,
        Some((first, rest)) => match rest.first() {
            None => true,
            Some(next) => {
                !compare(&next.key_ref(), &first.key_ref()).is_lt() && are_ordered(rest)
            }
        },
    }
}

/// Puts of the keys 0 to `len` - 1 of a family, all at a timestamp.
fn run_of(alloc: Global, family: Family, len: u8, ts: u64) -> Result<Vec<Version>, Fail> {
    let mut versions = Vec::new(alloc);
    for key in 0..len {
        versions.push(Version {
            family,
            key: Key::of(alloc, &[key])?,
            ts: Ts(ts),
            seq: Seq(1),
            op: Op::Put(Value::of(alloc, &[key])?),
        })?;
    }
    Ok(versions)
}

/// The same of family 0.
fn run(alloc: Global, len: u8, ts: u64) -> Result<Vec<Version>, Fail> {
    run_of(alloc, Family(0), len, ts)
}

/// Runs at the timestamps 0 to `count` - 1.
fn runs(alloc: Global, count: u64, len: u8) -> Result<Vec<Vec<Version>>, Fail> {
    let mut runs = Vec::new(alloc);
    for ts in 0..count {
        runs.push(run(alloc, len, ts)?)?;
    }
    Ok(runs)
}

/// Their rows in the stored order.
fn rows(alloc: Global, count: u64, len: u8) -> Result<Vec<Row>, Fail> {
    let mut rows = Vec::new(alloc);
    for key in 0..len {
        for ts in (0..count).rev() {
            rows.push((key as u64, ts))?;
        }
    }
    Ok(rows)
}

/// A merge that stands at its first version.
fn merge(alloc: Global, runs: &[Vec<Version>]) -> Result<Merge<SliceCursor<'_>>, Fail> {
    let mut cursors = Vec::new(alloc);
    for run in runs {
        if !are_ordered(run) {
            return Err("a run is not in order".into());
        }
        cursors.push(SliceCursor::new(run))?;
    }
    let first = KeyRef {
        key: b"",
        ts: Ts(u64::MAX),
        seq: Seq(u64::MAX),
    };
    Ok(Merge::seeking(cursors, &first))
}

/// What a cursor shows.
fn row<'a, C: Cursor<'a>>(cursor: &C) -> Option<Row> {
    let (key, hit) = cursor.at()?;
    let first = key.key.first()?;
    Some((*first as u64, hit.ts.0))
}

/// Does the merge show these rows, and then none?
fn shows_up(merge: &mut Merge<SliceCursor<'_>>, rows: &[Row]) -> bool {
    for wanted in rows {
        if row(merge) != Some(*wanted) {
            return false;
        }
        merge.next();
    }
    row(merge).is_none()
}

/// Does the merge show these rows from its end on, the last one first, and then none?
fn shows_down(merge: &mut Merge<SliceCursor<'_>>, rows: &[Row]) -> bool {
    merge.seek_end();
    for wanted in rows.iter().rev() {
        merge.prev();
        if row(merge) != Some(*wanted) {
            return false;
        }
    }
    merge.prev();
    row(merge).is_none()
}

#[test]
fn merges_walk_up(rt: HostRuntime) -> Result<(), Fail> {
    for count in [0, 1, 2, 9] {
        let runs = runs(rt.alloc(), count, 4)?;
        let rows = rows(rt.alloc(), count, 4)?;
        let mut merge = merge(rt.alloc(), &runs)?;
        assert!(rt; shows_up(&mut merge, &rows), "{count}");
        merge.next();
        assert!(rt; row(&merge).is_none());
    }
    Ok(())
}

#[test]
fn merges_walk_down(rt: HostRuntime) -> Result<(), Fail> {
    for count in [0, 1, 2, 9] {
        let runs = runs(rt.alloc(), count, 4)?;
        let rows = rows(rt.alloc(), count, 4)?;
        let mut merge = merge(rt.alloc(), &runs)?;
        assert!(rt; shows_down(&mut merge, &rows), "{count}");
        merge.prev();
        merge.next();
        assert!(rt; row(&merge) == rows.first().copied());
    }
    Ok(())
}

/// A key, a timestamp, and what a merge of nine runs shows that was sent there.
const SEEKS: [(&[u8], u64, Option<Row>); 5] = [
    (b"\x02", 5, Some((2, 5))),
    (b"\x02", u64::MAX, Some((2, 8))),
    (b"\x01\0", 3, Some((2, 8))),
    (b"\x04", 3, None),
    (b"", 3, Some((0, 8))),
];

#[test]
fn seeks_come_to_the_first_that_is_not_before(rt: HostRuntime) -> Result<(), Fail> {
    let runs = runs(rt.alloc(), 9, 4)?;
    let mut merge = merge(rt.alloc(), &runs)?;
    for (key, ts, wanted) in SEEKS {
        let to = KeyRef {
            key,
            ts: Ts(ts),
            seq: Seq(1),
        };
        merge.seek(&to);
        assert_eq!(rt; row(&merge), wanted);
    }
    Ok(())
}

/// The family of the version where a merge stands.
fn family_shown(merge: &Merge<SliceCursor<'_>>) -> Option<Family> {
    let child = merge.child()?;
    let version = child.version()?;
    Some(version.family)
}

/// Steps on or back, each with the row that is shown then and its family.
const TURNS: [(bool, Option<Row>, Option<Family>); 5] = [
    (true, Some((0, 7)), Some(Family(2))),
    (true, Some((1, 7)), Some(Family(2))),
    (false, Some((0, 7)), Some(Family(2))),
    (false, Some((0, 7)), Some(Family(1))),
    (false, None, None),
];

fn step(merge: &mut Merge<SliceCursor<'_>>, is_on: bool) {
    if is_on {
        merge.next();
    } else {
        merge.prev();
    }
}

#[test]
fn of_two_equal_versions_the_earlier_cursor_has_the_first(rt: HostRuntime) -> Result<(), Fail> {
    let mut runs = Vec::new(rt.alloc());
    runs.push(run_of(rt.alloc(), Family(1), 1, 7)?)?;
    runs.push(run_of(rt.alloc(), Family(2), 2, 7)?)?;
    let mut merge = merge(rt.alloc(), &runs)?;
    assert_eq!(rt; family_shown(&merge), Some(Family(1)));
    for (is_on, wanted, family) in TURNS {
        step(&mut merge, is_on);
        assert_eq!(rt; (row(&merge), family_shown(&merge)), (wanted, family));
    }
    Ok(())
}

#[test]
fn a_delete_shows_no_value(rt: HostRuntime) -> Result<(), Fail> {
    let alloc = rt.alloc();
    let mut versions = run(alloc, 1, 7)?;
    for version in &mut versions {
        version.op = Op::Del;
    }
    if !are_ordered(&versions) {
        return Err("not in order".into());
    }
    let cursor = SliceCursor::new(&versions);
    let (_, hit) = cursor.at().ok_or("no version")?;
    assert_eq!(rt; hit.kind, Kind::Del);
    assert_eq!(rt; hit.value, b"".as_slice());
    Ok(())
}
