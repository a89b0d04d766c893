//! Stores that are made in folders in memory.

use crate::tests::opening::opened_version;
use manifest::Head;
use recovery::{InitFault, make_store};
use std::alloc::Global;
use std::test::Fail;
use ts_key::{Family, Form, Name, Seq, Ts};
use udt_disk::{Disk, DiskFile, Failed, FileName, MemDisk};
use udt_model::{FamilyHead, Items};

/// The manifest of a new store with the family `d`, which strips its timestamps.
const STRIP: &[u8] = b"\xA5\x0A\0\0\0\x01\x01\x01\0\0\0\x01d\x01\x08\x5A";

/// Makes a store of the one family `d`, or tells why not.
fn make(alloc: Global, disk: &mut MemDisk, form: Form) -> Result<Result<(), InitFault>, Fail> {
    make_of(alloc, disk, vec![in alloc; head_of(alloc, b"d", form)?]?)
}

/// Makes a store of these families, or tells why not.
fn make_of(
    alloc: Global,
    disk: &mut MemDisk,
    families: Vec<FamilyHead>,
) -> Result<Result<(), InitFault>, Fail> {
    let head = Head {
        families: Items::of(families),
    };
    if !head.is_allowed() {
        return Ok(Err(InitFault::NoMemory));
    }
    Ok(make_store(alloc, disk, &head))
}

/// A family of a new store.
fn head_of(alloc: Global, name: &[u8], form: Form) -> Result<FamilyHead, Fail> {
    Ok(FamilyHead {
        name: Name::of(alloc, name)?,
        form,
        floor: Ts(0),
    })
}

pub(super) fn put(disk: &mut MemDisk, name: FileName, bytes: &[u8]) -> Result<(), Failed> {
    let mut file = disk.create(name)?;
    let written = file.write_at(0, bytes);
    disk.retire(file);
    written
}

#[test]
fn a_new_store_has_these_files(rt: HostRuntime) -> Result<(), Fail> {
    let alloc = rt.alloc();
    let mut disk = MemDisk::new(alloc, Vec::new(alloc))?;
    assert_eq!(rt; make(alloc, &mut disk, Form::Strip)?, Ok(()));
    assert!(rt; disk.contents(FileName::Log(1)) == Some(b"\x5A".as_slice()));
    assert!(rt; disk.contents(FileName::Manifest0) == Some(STRIP));
    assert!(rt; disk.contents(FileName::Made) == Some(b"".as_slice()));
    assert!(rt; disk.contents(FileName::Current) == None);
    assert_eq!(rt;
        make(alloc, &mut disk, Form::Persist)?,
        Err(InitFault::StoreExists)
    );
    assert!(rt; disk.contents(FileName::Manifest0) == Some(STRIP));
    Ok(())
}

#[test]
fn a_bad_manifest_is_kept(rt: HostRuntime) -> Result<(), Fail> {
    let alloc = rt.alloc();
    let mut disk = MemDisk::new(alloc, Vec::new(alloc))?;
    assert_eq!(rt; put(&mut disk, FileName::Manifest0, b"\xA5"), Ok(()));
    assert_eq!(rt; put(&mut disk, FileName::Made, b""), Ok(()));
    assert_eq!(rt;
        make(alloc, &mut disk, Form::Persist)?,
        Err(InitFault::BadManifest { at: 0 })
    );
    assert!(rt; disk.contents(FileName::Manifest0) == Some(b"\xA5".as_slice()));
    assert!(rt; disk.contents(FileName::Log(1)) == None);
    Ok(())
}

#[test]
fn a_new_store_of_both_forms_opens(rt: HostRuntime) -> Result<(), Fail> {
    let alloc = rt.alloc();
    let mut disk = MemDisk::new(alloc, Vec::new(alloc))?;
    let kept = head_of(alloc, b"d", Form::Persist)?;
    let stripped = head_of(alloc, b"e", Form::Strip)?;
    let families = vec![in alloc; kept, stripped]?;
    assert_eq!(rt; make_of(alloc, &mut disk, families)?, Ok(()));
    let version = opened_version(alloc, disk)?;
    let first = version.family(Family(0)).ok_or("there is no family")?;
    let second = version.family(Family(1)).ok_or("there is one family")?;
    assert_eq!(rt; first.form, Form::Persist);
    assert_eq!(rt; second.form, Form::Strip);
    assert!(rt; version.family(Family(2)).is_none());
    assert_eq!(rt; version.last, Seq(0));
    Ok(())
}
