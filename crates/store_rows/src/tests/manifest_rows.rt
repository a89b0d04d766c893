//! Manifests of folders in memory.

use gate_log::LogFault;
use head_manifest::{Head, Manifest, ManifestFault};
use std::alloc::Global;
use std::test::Fail;
use ts_key::{Form, Name, Ts};
use udt_disk::{Disk, DiskFile, Failed, FileName, MemDisk, MemFile, Outcome, Trouble};
use udt_model::{FamilyHead, Items};

/// The manifest of a new store with the family `d`.
const ONE: &[u8] = b"\xA5\x0A\0\0\0\x01\x01\x01\0\0\0\x01d\x00\x08\x5A";

/// The same with the family `e`.
const OTHER: &[u8] = b"\xA5\x0A\0\0\0\x01\x01\x01\0\0\0\x01e\x00\x08\x5A";

/// What a folder says. Of a store: the first byte of the name of its first family, and the number of its next file.
#[derive(Clone, Copy, Debug, PartialEq, Eq)]
enum Meaning {
    NoStore,
    Store(u8, u64),
    Bad(u64),
}

/// What the folder says, after which all of it is given back.
fn found(alloc: Global, disk: &mut MemDisk) -> Result<Meaning, ManifestFault> {
    match Manifest::read(alloc, disk) {
        Ok(None) => Ok(Meaning::NoStore),
        Ok(Some((manifest, fold))) => {
            disk.retire(manifest.into_file());
            let Some(family) = fold.families.as_slice().first() else {
                return Err(ManifestFault::NoMemory);
            };
            let name = family.name.bytes();
            Ok(Meaning::Store(name.first().copied().unwrap_or(0), fold.next_file))
        }
        Err(ManifestFault::BadManifest { at }) => Ok(Meaning::Bad(at)),
        Err(fault) => Err(fault),
    }
}

/// Puts a file of these bytes there, on the disk.
fn put(disk: &mut MemDisk, name: FileName, bytes: &[u8]) -> Result<(), Failed> {
    let mut file = disk.create(name)?;
    let written = file.write_at(0, bytes);
    let synced = file.sync();
    disk.retire(file);
    written?;
    synced
}

/// What a folder with this `MANIFEST-0` says, and with `MADE`, if it is made.
fn found_in(alloc: Global, manifest: &[u8], is_made: bool) -> Result<Meaning, ManifestFault> {
    let mut disk = MemDisk::new(alloc, Vec::new(alloc))?;
    put(&mut disk, FileName::Manifest0, manifest)?;
    if is_made {
        put(&mut disk, FileName::Made, b"any bytes")?;
    }
    found(alloc, &mut disk)
}

/// What a folder says that has both manifests and this `CURRENT`.
fn found_by(alloc: Global, current: &[u8]) -> Result<Meaning, ManifestFault> {
    let mut disk = MemDisk::new(alloc, Vec::new(alloc))?;
    put(&mut disk, FileName::Manifest0, ONE)?;
    put(&mut disk, FileName::Manifest1, OTHER)?;
    put(&mut disk, FileName::Current, current)?;
    put(&mut disk, FileName::Made, b"")?;
    found(alloc, &mut disk)
}

fn one_family(alloc: Global) -> Result<Head, LogFault> {
    let Ok(name) = Name::of(alloc, b"d") else {
        return Err(LogFault::NoMemory);
    };
    let mut families = Vec::new(alloc);
    let family = FamilyHead {
        name,
        form: Form::Persist,
        floor: Ts(0),
    };
    match families.push(family) {
        Ok(()) => Ok(Head {
            families: Items::of(families),
        }),
        Err(_) => Err(LogFault::NoMemory),
    }
}

/// Makes a store with the family `d`.
fn make(alloc: Global, disk: &mut MemDisk) -> Result<Manifest<MemFile>, LogFault> {
    let head = one_family(alloc)?;
    if !head.is_allowed() {
        return Err(LogFault::NoMemory);
    }
    Manifest::create(alloc, disk, &head)
}

#[test]
fn a_new_store_has_these_bytes(rt: HostRuntime) -> Result<(), Fail> {
    let alloc = rt.alloc();
    let mut disk = MemDisk::new(alloc, Vec::new(alloc))?;
    assert_eq!(rt; found(alloc, &mut disk), Ok(Meaning::NoStore));
    let Ok(manifest) = make(alloc, &mut disk) else {
        assert!(rt; false, "a new store");
        return Ok(());
    };
    disk.retire(manifest.into_file());
    assert!(rt; disk.contents(FileName::Manifest0) == Some(ONE));
    assert!(rt; disk.contents(FileName::Made) == Some(b"".as_slice()));
    assert!(rt; disk.contents(FileName::Current) == None);
    assert_eq!(rt; found(alloc, &mut disk), Ok(Meaning::Store(b'd', 2)));
    Ok(())
}

#[test]
fn a_cut_manifest_is_bad_at_0(rt: HostRuntime) {
    for len in 0..=ONE.len() {
        let want = if len < 16 {
            Meaning::Bad(0)
        } else {
            Meaning::Store(b'd', 2)
        };
        let bytes = &ONE[..len];
        assert_eq!(rt; found_in(rt.alloc(), bytes, true), Ok(want), "{len} bytes");
        assert_eq!(rt;
            found_in(rt.alloc(), bytes, false),
            Ok(Meaning::NoStore),
            "{len} bytes"
        );
    }
}

#[test]
fn current_chooses_the_manifest(rt: HostRuntime) {
    for (current, family) in [
        (b"".as_slice(), b'd'),
        (b"\x5A", b'd'),
        (b"\0\xA5", b'd'),
        (b"\xA5", b'e'),
        (b"\xA5\0", b'e'),
    ] {
        let found = found_by(rt.alloc(), current);
        assert_eq!(rt; found, Ok(Meaning::Store(family, 2)), "{current:?}");
    }
}

#[test]
fn a_missing_manifest_is_bad_at_0(rt: HostRuntime) -> Result<(), Fail> {
    let alloc = rt.alloc();
    let mut disk = MemDisk::new(alloc, Vec::new(alloc))?;
    assert_eq!(rt; put(&mut disk, FileName::Made, b""), Ok(()));
    assert_eq!(rt; found(alloc, &mut disk), Ok(Meaning::Bad(0)));
    assert_eq!(rt; put(&mut disk, FileName::Current, b"\xA5"), Ok(()));
    assert_eq!(rt; put(&mut disk, FileName::Manifest0, ONE), Ok(()));
    assert_eq!(rt; found(alloc, &mut disk), Ok(Meaning::Bad(0)));
    Ok(())
}

#[test]
fn the_first_frame_outside_the_grammar_answers(rt: HostRuntime) {
    for (bytes, at) in [
        // Another kind, another version, no family, and 17.
        (
            b"\xA5\x0A\0\0\0\x02\x01\x01\0\0\0\x01d\x00\x08\x5A".as_slice(),
            0,
        ),
        (b"\xA5\x0A\0\0\0\x01\x02\x01\0\0\0\x01d\x00\x08\x5A", 0),
        (b"\xA5\x06\0\0\0\x01\x01\0\0\0\0\x5A", 0),
        (b"\xA5\x0A\0\0\0\x01\x01\x11\0\0\0\x01d\x00\x08\x5A", 0),
        // A name outside the grammar, or none; form strip; another size.
        (b"\xA5\x0A\0\0\0\x01\x01\x01\0\0\0\x01D\x00\x08\x5A", 0),
        (b"\xA5\x09\0\0\0\x01\x01\x01\0\0\0\0\x00\x08\x5A", 0),
        (b"\xA5\x0A\0\0\0\x01\x01\x01\0\0\0\x01d\x01\x08\x5A", 0),
        (b"\xA5\x0A\0\0\0\x01\x01\x01\0\0\0\x01d\x00\0\x5A", 0),
        // A byte too many, and too few.
        (b"\xA5\x0B\0\0\0\x01\x01\x01\0\0\0\x01d\x00\x08\0\x5A", 0),
        (b"\xA5\x09\0\0\0\x01\x01\x01\0\0\0\x01d\x00\x5A", 0),
        // One name twice.
        (
            b"\xA5\x0E\0\0\0\x01\x01\x02\0\0\0\x01d\x00\x08\x01d\x00\x08\x5A",
            0,
        ),
        // A frame behind the head; one that isn't whole; a bad head before it.
        (
            b"\xA5\x0A\0\0\0\x01\x01\x01\0\0\0\x01d\x00\x08\xA5\x01\0\0\0\x02\x5A",
            15,
        ),
        (
            b"\xA5\x0A\0\0\0\x01\x01\x01\0\0\0\x01d\x00\x08\xA5\x01\0\0",
            15,
        ),
        (
            b"\xA5\x0A\0\0\0\x01\x01\x01\0\0\0\x01D\x00\x08\xA5\x01\0\0",
            0,
        ),
    ] {
        let found = found_in(rt.alloc(), bytes, true);
        assert_eq!(rt; found, Ok(Meaning::Bad(at)), "{bytes:?}");
    }
}

/// What a folder says after a crash, in which a store was made while this call failed.
fn found_after(
    alloc: Global,
    trouble: Trouble,
    outcome: Outcome,
) -> Result<Meaning, ManifestFault> {
    let mut disk = MemDisk::new(alloc, Vec::from_slice(alloc, &[trouble])?)?;
    if let Ok(manifest) = make(alloc, &mut disk) {
        disk.retire(manifest.into_file());
    }
    let mut disk = disk.after_crash(alloc, outcome)?;
    found(alloc, &mut disk)
}

#[test]
fn a_store_that_is_half_made_is_none(rt: HostRuntime) {
    let alloc = rt.alloc();
    for name in [FileName::Current, FileName::Manifest0, FileName::Made] {
        for call in 1..=8 {
            for outcome in [Outcome::Lost, Outcome::Kept, Outcome::Hostile] {
                let trouble = Trouble {
                    name,
                    call,
                    lasting: false,
                };
                let found = found_after(alloc, trouble, outcome);
                let is_whole = found == Ok(Meaning::NoStore)
                    || found == Ok(Meaning::Store(b'd', 2));
                assert!(rt; is_whole, "{name:?} {call} {outcome:?}: {found:?}");
            }
        }
    }
}
