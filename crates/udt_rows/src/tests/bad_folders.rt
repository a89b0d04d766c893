//! Folders that are no store, or whose manifest or log is bad.

use super::stage::{LOG, NAMES, copy_of, folder_of, host_of, runs, write_file};
use client_runner::Status;
use std::alloc::Global;
use std::test::Fail;
use udt_disk::{FileName, MemDisk, MemHost};

/// The manifest of a store with the family `d`.
const MANIFEST: &[u8] = b"\xA5\x0A\0\0\0\x01\x01\x01\0\0\0\x01d\0\x08\x5A";

/// The log after one put of `a` at 5 with the value `v`.
const ONE_PUT: &[u8] = b"\xA5\x29\0\0\0\x01\x01\0\0\0\0\0\0\0\x08\x02\x01\0\0\0\0\0\0\0\x01\
    \0\0\0\0\x01\x05\0\0\0\0\0\0\0\x01\0a\x01\0\0\0v\x5A";

const ABSENT: &str =
    "udt 1\nopened 0\nfamily d persist 0\nbegin\n1 c1 get d a 5 = absent\n2 r sync = ok\n";

const FOUND: &str =
    "udt 1\nopened 1\nfamily d persist 0\nbegin\n1 c1 get d a 5 = found v 5\n2 r sync = ok\n";

/// A folder with `MADE`, and with this manifest, `CURRENT` and log, where they are given.
fn folder(
    alloc: Global,
    manifest: Option<&[u8]>,
    current: Option<&[u8]>,
    log: Option<&[u8]>,
) -> Result<MemDisk, Fail> {
    let mut disk = MemDisk::new(alloc, Vec::new(alloc))?;
    write_file(&mut disk, FileName::Made, b"")?;
    if let Some(bytes) = manifest {
        write_file(&mut disk, FileName::Manifest0, bytes)?;
    }
    if let Some(bytes) = current {
        write_file(&mut disk, FileName::Current, bytes)?;
    }
    if let Some(bytes) = log {
        write_file(&mut disk, LOG, bytes)?;
    }
    Ok(disk)
}

/// Does each file hold the same bytes in both folders?
fn are_alike(one: &MemDisk, other: &MemDisk) -> bool {
    NAMES
        .iter()
        .all(|name| one.contents(*name) == other.contents(*name))
}

/// A run over this folder ends with this status and text, and leaves each file as it was.
fn ends_and_stays(
    alloc: Global,
    disk: MemDisk,
    file: &str,
    status: Status,
    text: &str,
) -> Result<(), Fail> {
    let before = copy_of(alloc, &disk, None)?;
    let mut host = host_of(alloc, disk)?;
    runs(alloc, &mut host, file, status, text)?;
    let after = folder_of(alloc, &mut host)?;
    if are_alike(&before, &after) {
        Ok(())
    } else {
        Err("a file has changed".into())
    }
}

/// A frame that isn't whole.
const TORN: &[u8] = b"\xA5\x29\0\0\00123456789";

const LOGS: [(Option<&[u8]>, Status, &str); 9] = [
    (Some(b"\x5A"), Status::Done, ABSENT),
    (
        Some(b"\x5A\xA5\xA5\xA5\xA5\xA5\xA5\xA5"),
        Status::Done,
        ABSENT,
    ),
    (Some(b"\x5A\x29\0\0\0\x01\x01"), Status::Done, ABSENT),
    (Some(b"\0\xA5"), Status::Done, ABSENT),
    (Some(ONE_PUT), Status::Done, FOUND),
    (Some(TORN), Status::Folder, "bad log 1 0\n"),
    (Some(b"\xA5"), Status::Folder, "bad log 1 0\n"),
    (Some(b""), Status::Folder, "bad log 1 0\n"),
    (None, Status::Folder, "bad log 1 0\n"),
];

#[test]
fn a_log_ends_at_its_first_closed_gate(rt: HostRuntime) -> Result<(), Fail> {
    for (log, status, text) in LOGS {
        let disk = folder(rt.alloc(), Some(MANIFEST), None, log)?;
        ends_and_stays(rt.alloc(), disk, "get d a 5\n", status, text)?;
    }
    Ok(())
}

#[test]
fn a_bad_log_is_left_by_writes(rt: HostRuntime) -> Result<(), Fail> {
    let disk = folder(rt.alloc(), Some(MANIFEST), None, Some(TORN))?;
    let file = "put d a 1 x sync\n";
    ends_and_stays(rt.alloc(), disk, file, Status::Folder, "bad log 1 0\n")
}

/// A manifest and a `CURRENT`, where they are there, and how a run ends.
const MANIFESTS: [(Option<&[u8]>, Option<&[u8]>, Status, &str); 8] = [
    (Some(MANIFEST), None, Status::Done, ABSENT),
    (Some(MANIFEST), Some(b"\x5A"), Status::Done, ABSENT),
    (Some(MANIFEST), Some(b""), Status::Done, ABSENT),
    (
        Some(MANIFEST),
        Some(b"\xA5"),
        Status::Folder,
        "bad manifest 0\n",
    ),
    (Some(b"\0"), None, Status::Folder, "bad manifest 0\n"),
    (Some(b""), None, Status::Folder, "bad manifest 0\n"),
    (Some(b"\x5A"), None, Status::Folder, "bad manifest 0\n"),
    (None, None, Status::Folder, "bad manifest 0\n"),
];

#[test]
fn bad_manifests(rt: HostRuntime) -> Result<(), Fail> {
    for (manifest, current, status, text) in MANIFESTS {
        let disk = folder(rt.alloc(), manifest, current, Some(b"\x5A"))?;
        ends_and_stays(rt.alloc(), disk, "get d a 5\n", status, text)?;
    }
    Ok(())
}

/// A folder without `MADE`, in which the other files don't count.
fn unmade(alloc: Global) -> Result<MemDisk, Fail> {
    let mut disk = MemDisk::new(alloc, Vec::new(alloc))?;
    write_file(&mut disk, FileName::Manifest0, MANIFEST)?;
    write_file(&mut disk, LOG, ONE_PUT)?;
    Ok(disk)
}

#[test]
fn folders_that_are_no_store(rt: HostRuntime) -> Result<(), Fail> {
    let file = "put d a 1 x\n";
    let mut missing = MemHost::new(rt.alloc());
    runs(rt.alloc(), &mut missing, file, Status::Folder, "no store\n")?;
    let empty = MemDisk::new(rt.alloc(), Vec::new(rt.alloc()))?;
    ends_and_stays(rt.alloc(), empty, file, Status::Folder, "no store\n")?;
    let unmade = unmade(rt.alloc())?;
    ends_and_stays(
        rt.alloc(),
        unmade,
        "get d a 5\n",
        Status::Folder,
        "no store\n",
    )
}
