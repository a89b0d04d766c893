//! The folders that scripts leave.

mod installs;

use crate::script::{Step, history, version_of};
use manifest::Head;
use manifest_edit::{Edit, write_edit};
use recovery::{OpenFault, make_store};
use std::alloc::Global;
use std::test::Fail;
use store_engine::EngineFault;
use super_version::SuperVersion;
use ts_key::{Family, Form, Name, Seq, Ts};
use udt_disk::{Disk, DiskFile, Failed, FileName, MemDisk, Outcome, Trouble};
use udt_model::{FamilyHead, Items};

const OUTCOMES: &[Outcome] = &[Outcome::Lost, Outcome::Kept, Outcome::Hostile];

const THREE_PUTS: &[Step] = &[Step::Write {
    family: 0,
    ts: 1,
    count: 3,
    sync: true,
}];

const PUT_AND_RAISE: &[Step] = &[
    Step::Write {
        family: 0,
        ts: 7,
        count: 1,
        sync: false,
    },
    Step::Raise {
        family: 0,
        floor: 5,
    },
];

const PUT_AND_SEAL: &[Step] = &[
    Step::Write {
        family: 0,
        ts: 7,
        count: 1,
        sync: false,
    },
    Step::Seal { family: 0 },
];

/// By the second seal nothing is in the active memtable, and a sealed one waits.
const PUT_AND_TWO_SEALS: &[Step] = &[
    Step::Put {
        family: 0,
        key: 0,
        ts: 7,
    },
    Step::Seal { family: 0 },
    Step::Seal { family: 0 },
];

const SEAL: &[Step] = &[Step::Seal { family: 0 }];

const JOB_FILE: &[Step] = &[Step::JobFile];

/// A family of a new store.
fn head_of(alloc: Global, name: &[u8], form: Form) -> Result<FamilyHead, Fail> {
    Ok(FamilyHead {
        name: Name::of(alloc, name)?,
        form,
        floor: Ts(0),
    })
}

/// A folder with a new store of two families of a form, or None where its making failed.
fn made_in(alloc: Global, form: Form, troubles: Vec<Trouble>) -> Result<Option<MemDisk>, Fail> {
    let mut disk = MemDisk::new(alloc, troubles)?;
    let head = Head {
        families: Items::of(vec![in alloc;
            head_of(alloc, b"d", form)?,
            head_of(alloc, b"e", form)?,
        ]?),
    };
    if !head.is_allowed() || make_store(alloc, &mut disk, &head).is_err() {
        return Ok(None);
    }
    Ok(Some(disk))
}

/// The same of two that keep timestamps.
fn made(alloc: Global, troubles: Vec<Trouble>) -> Result<Option<MemDisk>, Fail> {
    made_in(alloc, Form::Persist, troubles)
}

/// The floor of a family.
fn floor_of(version: &SuperVersion, family: u32) -> u64 {
    match version.family(Family(family)) {
        Some(state) => state.floor.0,
        None => u64::MAX,
    }
}

/// The last sequence and the first family's floor behind steps and a crash, and whether all steps were made. None where the store
/// wasn't made or opened.
fn left(
    alloc: Global,
    trouble: Trouble,
    steps: &[Step],
    outcome: Outcome,
) -> Result<Option<(u64, u64, bool)>, Fail> {
    let Some(disk) = made(alloc, vec![in alloc; trouble]?)? else {
        return Ok(None);
    };
    let Ok((disk, fault)) = history(alloc, disk, steps) else {
        return Ok(None);
    };
    let version = version_of(alloc, disk.after_crash(alloc, outcome)?)?;
    Ok(Some((version.last.0, floor_of(&version, 0), fault.is_none())))
}

/// The calls on log 1 by which a synced write is made, the first of a new store.
const LOG_CALLS: &[u64] = &[6, 7, 8, 9];

#[test]
fn a_synced_write_is_there_or_not(rt: HostRuntime) -> Result<(), Fail> {
    for call in LOG_CALLS {
        for lasting in [false, true] {
            for outcome in OUTCOMES {
                let trouble = Trouble {
                    name: FileName::Log(1),
                    call: *call,
                    lasting,
                };
                let (last, _, done) = left(rt.alloc(), trouble, THREE_PUTS, *outcome)?.ok_or(
                    "not opened",
                )?;
                assert!(rt; !done && (last == 0 || last == 3), "{call}");
            }
        }
    }
    Ok(())
}

/// The calls by which an unsynced put and a raise behind it are made, the first of a new store: the put's sync on log 1, and then
/// the edit. With each the call that follows the last, which isn't made.
const RAISE_CALLS: &[(FileName, u64, u64)] = &[
    (FileName::Log(1), 6, 10),
    (FileName::Manifest0, 11, 15),
];

#[test]
fn a_raise_that_stops_is_made_or_not(rt: HostRuntime) -> Result<(), Fail> {
    for (name, first, behind) in RAISE_CALLS {
        for call in *first..=*behind {
            for outcome in OUTCOMES {
                let trouble = Trouble {
                    name: *name,
                    call,
                    lasting: true,
                };
                let (last, floor, done) = left(rt.alloc(), trouble, PUT_AND_RAISE, *outcome)?.ok_or(
                    "not opened",
                )?;
                let is_made = floor == 5 && last == 1;
                assert_eq!(rt; done, call == *behind);
                assert!(rt; is_made || (floor == 0 && !done), "{name:?} {call}");
            }
        }
    }
    Ok(())
}

/// The calls by which an unsynced put and a seal behind it are made, the first of a new store: the put's sync on log 1, the new log
/// 2, and the edit that adds it. With each the call that follows the last, which isn't made.
const SEAL_CALLS: &[(FileName, u64, u64)] = &[
    (FileName::Log(1), 6, 10),
    (FileName::Log(2), 1, 4),
    (FileName::Manifest0, 11, 15),
];

#[test]
fn a_seal_that_stops_loses_nothing(rt: HostRuntime) -> Result<(), Fail> {
    for (name, first, behind) in SEAL_CALLS {
        for call in *first..=*behind {
            for outcome in OUTCOMES {
                let trouble = Trouble {
                    name: *name,
                    call,
                    lasting: true,
                };
                let (last, _, done) = left(rt.alloc(), trouble, PUT_AND_SEAL, *outcome)?.ok_or(
                    "not opened",
                )?;
                assert_eq!(rt; done, call == *behind);
                assert!(rt; last == 1 || (last == 0 && !done), "{name:?} {call}");
            }
        }
    }
    Ok(())
}

/// Whether there is a file of the name.
fn has_file(disk: &mut MemDisk, name: FileName) -> Result<bool, Failed> {
    match disk.open_file(name)? {
        Some(file) => {
            disk.retire(file);
            Ok(true)
        }
        None => Ok(false),
    }
}

#[test]
fn each_job_gets_a_number_of_its_own(rt: HostRuntime) -> Result<(), Fail> {
    let steps = [
        PUT_AND_SEAL[0],
        PUT_AND_SEAL[1],
        Step::JobFile,
        Step::JobFile,
    ];
    let disk = made(rt.alloc(), Vec::new(rt.alloc()))?.ok_or("no store")?;
    let (mut disk, fault) = history(rt.alloc(), disk, &steps)?;
    assert_eq!(rt; fault, None);
    for (number, wanted) in [(1, false), (2, false), (3, true), (4, true), (5, false)] {
        assert_eq!(rt; has_file(&mut disk, FileName::Table(number))?, wanted);
    }
    Ok(())
}

#[test]
fn what_waits_is_lost_by_a_close(rt: HostRuntime) -> Result<(), Fail> {
    let put = Step::Write {
        family: 0,
        ts: 1,
        count: 1,
        sync: false,
    };
    let disk = made(rt.alloc(), Vec::new(rt.alloc()))?.ok_or("no store")?;
    let (disk, _) = history(rt.alloc(), disk, &[put, Step::Sync, put])?;
    let version = version_of(rt.alloc(), disk)?;
    assert_eq!(rt; version.last, Seq(1));
    Ok(())
}

#[test]
fn families_are_written_and_raised(rt: HostRuntime) -> Result<(), Fail> {
    let write = |family, ts| Step::Write {
        family,
        ts,
        count: 1,
        sync: false,
    };
    let steps = [
        write(0, 5),
        Step::Raise {
            family: 0,
            floor: 4,
        },
        write(1, 2),
        Step::Raise {
            family: 1,
            floor: 2,
        },
        write(0, 5),
        Step::Sync,
        write(0, 3),
    ];
    let disk = made(rt.alloc(), Vec::new(rt.alloc()))?.ok_or("no store")?;
    let (disk, fault) = history(rt.alloc(), disk, &steps)?;
    assert_eq!(rt;
        fault,
        Some(EngineFault::BelowFloor {
            op: 1,
            floor: Ts(4)
        })
    );
    let version = version_of(rt.alloc(), disk)?;
    assert_eq!(rt; version.last, Seq(3));
    assert_eq!(rt; floor_of(&version, 0), 4);
    assert_eq!(rt; floor_of(&version, 1), 2);
    Ok(())
}

fn put(disk: &mut MemDisk, name: FileName, bytes: &[u8]) -> Result<(), Failed> {
    let mut file = disk.create(name)?;
    let written = file.write_at(0, bytes);
    disk.retire(file);
    written
}

/// A store of one family, whose manifest has an edit with this number of the next file and this last sequence.
fn store_at(alloc: Global, next_file: u64, last: Seq) -> Result<MemDisk, Fail> {
    let edit = Edit {
        add_logs: Items::of(Vec::new(alloc)),
        drop_logs: Items::of(Vec::new(alloc)),
        next_file,
        last,
        family: None,
    };
    let body = write_edit(alloc, &edit)?;
    let mut manifest = Vec::new(alloc);
    manifest.extend_from_slice(b"\xA5\x0A\0\0\0\x01\x01\x01\0\0\0\x01d\0\x08\xA5")?;
    manifest.extend_from_slice(&u32::try_from(body.len())?.to_le_bytes())?;
    manifest.extend_from_slice(&body)?;
    manifest.push(0x5A)?;
    let mut disk = MemDisk::new(alloc, Vec::new(alloc))?;
    put(&mut disk, FileName::Manifest0, &manifest)?;
    put(&mut disk, FileName::Log(1), b"\x5A")?;
    put(&mut disk, FileName::Made, b"")?;
    Ok(disk)
}

#[test]
fn sequences_end(rt: HostRuntime) -> Result<(), Fail> {
    let last = Seq((1 << 56) - 1);
    let disk = store_at(rt.alloc(), 2, last)?;
    let (_disk, fault) = history(rt.alloc(), disk, THREE_PUTS)?;
    assert_eq!(rt; fault, Some(EngineFault::SequenceFull { last }));
    Ok(())
}

#[test]
fn file_numbers_end(rt: HostRuntime) -> Result<(), Fail> {
    let next = 1 << 63;
    let full = Some(EngineFault::FilesFull { next });
    for (first, steps, wanted) in [
        (next, SEAL, None),
        (next, PUT_AND_SEAL, full),
        (next, JOB_FILE, full),
        (next - 1, PUT_AND_TWO_SEALS, full),
    ] {
        let disk = store_at(rt.alloc(), first, Seq(0))?;
        let (_disk, fault) = history(rt.alloc(), disk, steps)?;
        assert_eq!(rt; fault, wanted);
    }
    Ok(())
}
