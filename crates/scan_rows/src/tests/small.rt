//! Scans of three rows, and scans below a floor.

use super::making::{Bounds, fresh, put, rows, written};
use std::alloc::Global;
use std::test::Fail;
use super_version::SuperVersion;
use ts_iterator::{Row, Scan, ScanFault};
use ts_key::{Family, Key, Seq, Ts};
use udt_model::Stamp;

/// Three keys with one version each, at 5: the empty one, one letter, and the same letter with a zero behind it.
fn three(alloc: Global) -> Result<SuperVersion, Fail> {
    let mut ops = Vec::new(alloc);
    ops.push(put(alloc, 0, b"a", 5, b"v")?)?;
    ops.push(put(alloc, 0, b"a\0", 5, b"w")?)?;
    ops.push(put(alloc, 0, b"", 5, b"e")?)?;
    written(alloc, &fresh(alloc, 1)?, ops)
}

/// Whether the row at an index is this one.
fn is_row(rows: &[Row], index: usize, key: &[u8], value: &[u8], stamp: Stamp) -> bool {
    match rows.get(index) {
        None => false,
        Some(row) => row.key.bytes() == key && row.value.bytes() == value && row.stamp == stamp,
    }
}

fn range(alloc: Global, low: &[u8], high: &[u8]) -> Result<Bounds, Fail> {
    Ok(Bounds {
        low: Some(Key::of(alloc, low)?),
        high: Some(Key::of(alloc, high)?),
    })
}

#[test]
fn three_rows_come_up_and_down(rt: HostRuntime) -> Result<(), Fail> {
    let alloc = rt.alloc();
    let now = three(alloc)?;
    let all = Bounds {
        low: None,
        high: None,
    };
    let stamp = Stamp::At(Ts(5));
    let up = rows(alloc, &now, &all, 5, true)?;
    assert!(rt; up.len() == 3);
    assert!(rt; is_row(&up, 0, b"", b"e", stamp));
    assert!(rt; is_row(&up, 1, b"a", b"v", stamp));
    assert!(rt; is_row(&up, 2, b"a\0", b"w", stamp));
    let down = rows(alloc, &now, &all, 5, false)?;
    assert!(rt; down.len() == 3);
    assert!(rt; is_row(&down, 0, b"a\0", b"w", stamp));
    assert!(rt; is_row(&down, 1, b"a", b"v", stamp));
    assert!(rt; is_row(&down, 2, b"", b"e", stamp));
    assert!(rt; rows(alloc, &now, &all, 4, true)?.is_empty());
    assert!(rt; rows(alloc, &now, &all, 4, false)?.is_empty());
    Ok(())
}

#[test]
fn the_lower_bound_is_in_and_the_upper_one_out(rt: HostRuntime) -> Result<(), Fail> {
    let alloc = rt.alloc();
    let now = three(alloc)?;
    let one = range(alloc, b"a", b"a\0")?;
    for forward in [true, false] {
        let rows = rows(alloc, &now, &one, 5, forward)?;
        assert!(rt; rows.len() == 1);
        assert!(rt; is_row(&rows, 0, b"a", b"v", Stamp::At(Ts(5))));
    }
    let none = range(alloc, b"b", b"a")?;
    assert!(rt; rows(alloc, &now, &none, 5, true)?.is_empty());
    assert!(rt; rows(alloc, &now, &none, 5, false)?.is_empty());
    Ok(())
}

/// Whether a scan of the family without bounds collapses at this floor.
fn collapses(alloc: Global, now: &SuperVersion, t: u64, floor: u64, forward: bool) -> bool {
    if now.families.len() == 0 {
        return false;
    }
    match Scan::new(alloc, now, Family(0), None, None, Ts(t), Seq(1), forward) {
        Err(ScanFault::Collapsed { floor: told }) => told.0 == floor,
        _ => false,
    }
}

#[test]
fn below_the_floor_scans_collapse(rt: HostRuntime) -> Result<(), Fail> {
    let alloc = rt.alloc();
    let now = three(alloc)?.with_floor(alloc, Family(0), Ts(6))?;
    for forward in [true, false] {
        assert!(rt; collapses(alloc, &now, 5, 6, forward));
        assert!(rt; !collapses(alloc, &now, 6, 6, forward));
    }
    let all = Bounds {
        low: None,
        high: None,
    };
    let up = rows(alloc, &now, &all, 6, true)?;
    assert!(rt; up.len() == 3);
    assert!(rt; is_row(&up, 1, b"a", b"v", Stamp::Below));
    Ok(())
}
