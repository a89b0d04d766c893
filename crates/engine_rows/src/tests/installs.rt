//! What installs of flushes leave.

use crate::flushes::Flush;
use crate::script::{Step, history, version_of};
use crate::tests::{OUTCOMES, floor_of, has_file, made, made_in};
use point_read::{Read, get};
use std::alloc::Global;
use std::test::Fail;
use store_engine::EngineFault;
use super_version::SuperVersion;
use ts_key::{Family, Form, Seq, Ts};
use udt_disk::{FileName, Outcome, Trouble};
use udt_model::Stamp;

/// The table of the put of `\0` at 7 with sequence 1 and value `v` in family 0.
const OF_FIRST: &[u8] =
    b"\0\0\x11\0\x01\0\0\0\0\x07\0\0\0\0\0\0\0\x01\x01\0\0\0\0\0\0v\0\0\0\0\x01\0\0\0\
\x01\0\0\0\0\0\0\0\0\0\0\0\x22\0\0\0\0\0\0\0\x01\0\0\0\
\0\0\0\0\0\x01\0\0\0\0\0\0\0\x01\0\0\x01\0\0\x01\0\0\0\0\0\0\0\x01\0\0\0\0\0\0\0\x07\0\0\0\0\0\0\0\0\0\0\0\0\0\0\0\
\x22\0\0\0\0\0\0\0\x3A\0\0\0\0\0\0\0udttab01";

/// The same with sequence 2 in family 1.
const OF_SECOND: &[u8] =
    b"\0\0\x11\0\x01\0\0\0\0\x07\0\0\0\0\0\0\0\x01\x02\0\0\0\0\0\0v\0\0\0\0\x01\0\0\0\
\x01\0\0\0\0\0\0\0\0\0\0\0\x22\0\0\0\0\0\0\0\x01\0\0\0\
\x01\0\0\0\0\x01\0\0\0\0\0\0\0\x01\0\0\x01\0\0\x02\0\0\0\0\0\0\0\x02\0\0\0\0\0\0\0\x07\0\0\0\0\0\0\0\0\0\0\0\0\0\0\0\
\x22\0\0\0\0\0\0\0\x3A\0\0\0\0\0\0\0udttab01";

/// The first one with its timestamp stripped.
const STRIPPED: &[u8] = b"\0\0\x09\0\x01\0\0\0\0\x01\x01\0\0\0\0\0\0v\0\0\0\0\x01\0\0\0\
\x01\0\0\0\0\0\0\0\0\0\0\0\x1A\0\0\0\0\0\0\0\x01\0\0\0\
\0\0\0\0\x01\x01\0\0\0\0\0\0\0\x01\0\0\x01\0\0\x01\0\0\0\0\0\0\0\x01\0\0\0\0\0\0\0\0\0\0\0\0\0\0\0\0\0\0\0\0\0\0\0\
\x1A\0\0\0\0\0\0\0\x32\0\0\0\0\0\0\0udttab01";

/// Of family 0 the puts of `\0` at 9 with sequence 3 and at 8 with sequence 2, collected by 8.
const OF_TWO: &[u8] = b"\0\0\x11\0\x01\0\0\0\0\x09\0\0\0\0\0\0\0\x01\x03\0\0\0\0\0\0v\
\x01\0\x10\0\x01\0\0\0\x08\0\0\0\0\0\0\0\x01\x02\0\0\0\0\0\0v\0\0\0\0\x01\0\0\0\
\x01\0\0\0\0\0\0\0\0\0\0\0\x3B\0\0\0\0\0\0\0\x02\0\0\0\
\0\0\0\0\0\x02\0\0\0\0\0\0\0\x01\0\0\x01\0\0\x02\0\0\0\0\0\0\0\x03\0\0\0\0\0\0\0\x09\0\0\0\0\0\0\0\x08\0\0\0\0\0\0\0\
\x3B\0\0\0\0\0\0\0\x53\0\0\0\0\0\0\0udttab01";

/// An unsynced put of `\0`.
const fn put(family: u32, ts: u64) -> Step {
    Step::Write {
        family,
        ts,
        count: 1,
        sync: false,
    }
}

const FLUSH_FIRST: Step = Step::Flush(Flush {
    family: 0,
    through: 1,
    floor: 0,
    image: OF_FIRST,
});

const FLUSH_SECOND: Step = Step::Flush(Flush {
    family: 1,
    through: 2,
    floor: 0,
    image: OF_SECOND,
});

/// The sequence up to which a family is flushed, and how many tables it has on level 0.
fn flushed_of(version: &SuperVersion, family: u32) -> Option<(u64, usize)> {
    let state = version.family(Family(family))?;
    Some((state.through.0, state.levels.get(0)?.len()))
}

/// The calls by which a put that was sealed is flushed: those on its table, and the edit. With each the call that
/// follows the last, which isn't made.
const FLUSH_CALLS: &[(FileName, u64, u64)] = &[
    (FileName::Table(3), 1, 4),
    (FileName::Manifest0, 15, 19),
];

/// What the folder has behind a trouble in a flush and a crash, and why the flush failed, where it did.
fn behind(
    alloc: Global,
    trouble: Trouble,
    outcome: Outcome,
) -> Result<(SuperVersion, Option<EngineFault>), Fail> {
    let steps = [put(0, 7), Step::Seal { family: 0 }, FLUSH_FIRST];
    let disk = made(alloc, vec![in alloc; trouble]?)?.ok_or("no store")?;
    let (disk, fault) = history(alloc, disk, &steps)?;
    let version = version_of(alloc, disk.after_crash(alloc, outcome)?)?;
    Ok((version, fault))
}

#[test]
fn a_flush_that_stops_is_made_or_not(rt: HostRuntime) -> Result<(), Fail> {
    for (name, first, last) in FLUSH_CALLS {
        for call in *first..=*last {
            for outcome in OUTCOMES {
                let trouble = Trouble {
                    name: *name,
                    call,
                    lasting: true,
                };
                let (version, fault) = behind(rt.alloc(), trouble, *outcome)?;
                let is_made = flushed_of(&version, 0) == Some((1, 1));
                assert_eq!(rt; version.last, Seq(1));
                assert_eq!(rt; fault.is_none(), call == *last, "{name:?} {call}");
                assert!(rt;
                    is_made || (fault.is_some() && flushed_of(&version, 0) == Some((0, 0)))
                );
            }
        }
    }
    Ok(())
}

#[test]
fn a_log_stays_while_a_family_needs_it(rt: HostRuntime) -> Result<(), Fail> {
    let steps = [put(0, 7), put(1, 7), Step::Seal { family: 1 }, FLUSH_SECOND];
    for outcome in OUTCOMES {
        let disk = made(rt.alloc(), Vec::new(rt.alloc()))?.ok_or("no store")?;
        let (disk, fault) = history(rt.alloc(), disk, &steps)?;
        assert_eq!(rt; fault, None);
        let mut left = disk.after_crash(rt.alloc(), *outcome)?;
        assert!(rt; has_file(&mut left, FileName::Log(1))?);
        let version = version_of(rt.alloc(), left)?;
        assert_eq!(rt; version.last, Seq(2));
        assert_eq!(rt; flushed_of(&version, 1), Some((2, 1)));
        assert_eq!(rt; flushed_of(&version, 0), Some((0, 0)));
        assert!(rt; is_found(&version, 0, 7, Stamp::At(Ts(7))));
    }
    Ok(())
}

#[test]
fn logs_that_no_family_needs_are_gone(rt: HostRuntime) -> Result<(), Fail> {
    let steps = [
        put(0, 7),
        put(1, 7),
        Step::Seal { family: 1 },
        FLUSH_SECOND,
        Step::Seal { family: 0 },
        FLUSH_FIRST,
    ];
    let disk = made(rt.alloc(), Vec::new(rt.alloc()))?.ok_or("no store")?;
    let (mut disk, fault) = history(rt.alloc(), disk, &steps)?;
    assert_eq!(rt; fault, None);
    for (number, is_live) in [(1, false), (2, false), (4, true)] {
        assert_eq!(rt; has_file(&mut disk, FileName::Log(number))?, is_live);
    }
    let version = version_of(rt.alloc(), disk)?;
    assert_eq!(rt; version.last, Seq(2));
    assert_eq!(rt; flushed_of(&version, 0), Some((1, 1)));
    assert_eq!(rt; flushed_of(&version, 1), Some((2, 1)));
    Ok(())
}

#[test]
fn a_log_that_cant_be_removed_stays(rt: HostRuntime) -> Result<(), Fail> {
    let trouble = Trouble {
        name: FileName::Log(1),
        call: 10,
        lasting: true,
    };
    for outcome in OUTCOMES {
        let (version, fault) = behind(rt.alloc(), trouble, *outcome)?;
        assert_eq!(rt; fault, None);
        assert_eq!(rt; flushed_of(&version, 0), Some((1, 1)));
    }
    Ok(())
}

#[test]
fn the_next_job_has_the_next_number(rt: HostRuntime) -> Result<(), Fail> {
    let steps = [
        put(0, 5),
        put(0, 8),
        put(0, 9),
        Step::Raise {
            family: 0,
            floor: 8,
        },
        Step::Seal { family: 0 },
        Step::Flush(Flush {
            family: 0,
            through: 3,
            floor: 8,
            image: OF_TWO,
        }),
        Step::JobFile,
    ];
    let disk = made(rt.alloc(), Vec::new(rt.alloc()))?.ok_or("no store")?;
    let (mut disk, fault) = history(rt.alloc(), disk, &steps)?;
    assert_eq!(rt; fault, None);
    for (number, is_made) in [(2, false), (3, true), (4, true), (5, false)] {
        assert_eq!(rt; has_file(&mut disk, FileName::Table(number))?, is_made);
    }
    let version = version_of(rt.alloc(), disk)?;
    assert_eq!(rt; version.last, Seq(3));
    assert_eq!(rt; floor_of(&version, 0), 8);
    assert_eq!(rt; flushed_of(&version, 0), Some((3, 1)));
    Ok(())
}

/// Whether a read of a key of family 0 at `t` finds `v` with this stamp.
fn is_found(version: &SuperVersion, key: u8, t: u64, wanted: Stamp) -> bool {
    if version.families.len() == 0 {
        return false;
    }
    match get(version, Family(0), &[key], Ts(t), version.last) {
        Read::Found { value, stamp } => value == b"v".as_slice() && stamp == wanted,
        _ => false,
    }
}

#[test]
fn a_stripping_flush_raises_the_floor(rt: HostRuntime) -> Result<(), Fail> {
    let synced = |key, ts| Step::Put { family: 0, key, ts };
    let flush = Step::Flush(Flush {
        family: 0,
        through: 1,
        floor: 11,
        image: STRIPPED,
    });
    let steps = [synced(0, 10), Step::Seal { family: 0 }, synced(1, 5), flush];
    for outcome in OUTCOMES {
        let disk = made_in(rt.alloc(), Form::Strip, Vec::new(rt.alloc()))?.ok_or("no store")?;
        let (disk, fault) = history(rt.alloc(), disk, &steps)?;
        assert_eq!(rt; fault, None);
        let left = disk.after_crash(rt.alloc(), *outcome)?;
        let (disk, fault) = history(rt.alloc(), left, &[synced(1, 5)])?;
        let floor = Ts(11);
        assert_eq!(rt; fault, Some(EngineFault::BelowFloor { op: 1, floor }));
        let version = version_of(rt.alloc(), disk)?;
        assert_eq!(rt; version.last, Seq(2));
        assert_eq!(rt; floor_of(&version, 0), 11);
        assert_eq!(rt; flushed_of(&version, 0), Some((1, 1)));
        assert!(rt; is_found(&version, 1, 11, Stamp::Below));
    }
    Ok(())
}
