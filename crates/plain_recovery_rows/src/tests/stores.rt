//! Stores in folders in memory: made, opened and refused.

use head_manifest::Head;
use plain_recovery::{InitFault, OpenFault, Parts, make_store, open_store};
use std::alloc::Global;
use std::test::Fail;
use ts_key::{Form, Name, Ts};
use udt_disk::{Disk, FileName, MemDisk};
use udt_model::{FamilyHead, Items};

/// A head of the one family `d`.
fn one_family(alloc: Global) -> Result<Head, Fail> {
    let family = FamilyHead {
        name: Name::of(alloc, b"d")?,
        form: Form::Persist,
        floor: Ts(0),
    };
    Ok(Head {
        families: Items::of(vec![in alloc; family]?),
    })
}

/// Makes a store of the one family `d`, or tells why not.
fn make(alloc: Global, disk: &mut MemDisk) -> Result<Result<(), InitFault>, Fail> {
    let head = one_family(alloc)?;
    if !head.is_allowed() {
        return Ok(Err(InitFault::NoMemory));
    }
    Ok(make_store(alloc, disk, &head))
}

/// A folder with a new store.
fn made(alloc: Global) -> Result<MemDisk, Fail> {
    let mut disk = MemDisk::new(alloc, Vec::new(alloc))?;
    make(alloc, &mut disk)??;
    Ok(disk)
}

/// The folder of a store, with its files given back.
fn closed(parts: Parts<MemDisk>) -> MemDisk {
    let Parts {
        mut disk,
        manifest,
        wal,
        heads: _,
        versions: _,
        last: _,
    } = parts;
    disk.retire(wal.into_file());
    disk.retire(manifest.into_file());
    disk
}

/// The folder, and why it isn't opened, where it isn't.
fn opened(alloc: Global, disk: MemDisk) -> (MemDisk, Option<OpenFault>) {
    match open_store(alloc, disk) {
        Ok(parts) => (closed(parts), None),
        Err((disk, fault)) => (disk, Some(fault)),
    }
}

/// How many families, versions and sequences a store has that is opened.
fn counts(alloc: Global, disk: MemDisk) -> Option<(usize, usize, u64)> {
    let parts = open_store(alloc, disk).ok()?;
    let counts = (parts.heads.len(), parts.versions.len(), parts.last.0);
    let _disk = closed(parts);
    Some(counts)
}

#[test]
fn a_new_store_has_no_versions(rt: HostRuntime) -> Result<(), Fail> {
    let disk = made(rt.alloc())?;
    assert_eq!(rt; counts(rt.alloc(), disk), Some((1, 0, 0)));
    Ok(())
}

#[test]
fn a_store_is_made_once(rt: HostRuntime) -> Result<(), Fail> {
    let disk = made(rt.alloc())?;
    let (mut disk, fault) = opened(rt.alloc(), disk);
    assert_eq!(rt; fault, None);
    assert_eq!(rt; make(rt.alloc(), &mut disk)?, Err(InitFault::StoreExists));
    Ok(())
}

#[test]
fn a_folder_without_a_store_is_refused(rt: HostRuntime) -> Result<(), Fail> {
    let disk = MemDisk::new(rt.alloc(), Vec::new(rt.alloc()))?;
    let (mut disk, fault) = opened(rt.alloc(), disk);
    assert_eq!(rt; fault, Some(OpenFault::NoStore));
    assert_eq!(rt; make(rt.alloc(), &mut disk)?, Ok(()));
    Ok(())
}

#[test]
fn a_missing_log_is_bad_at_its_front(rt: HostRuntime) -> Result<(), Fail> {
    let mut disk = made(rt.alloc())?;
    assert_eq!(rt; disk.remove(FileName::Log(1)), Ok(()));
    let (_disk, fault) = opened(rt.alloc(), disk);
    assert_eq!(rt; fault, Some(OpenFault::BadLog { number: 1, at: 0 }));
    Ok(())
}

#[test]
fn faults_have_their_texts(rt: HostRuntime) -> Result<(), Fail> {
    let fault = OpenFault::BadLog { number: 3, at: 17 };
    let text = format!(in rt.alloc(); "{fault}, {}", InitFault::StoreExists)?;
    assert_eq!(rt; text.as_str(), "bad log 3 17, store exists");
    Ok(())
}
