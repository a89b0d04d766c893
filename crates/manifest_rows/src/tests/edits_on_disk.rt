//! Edits added to a log in memory, and read again.

ghost use Rattle.std.specs.Prelude.{IfOk, OnOk};
ghost use Rattle.edit_log.specs.Logs.{IsEditLogReady};

use edit_log::{EditLog, EditsFault};
use gate_log::GateLog;
use manifest_edit::{Edit, FamilyEdit, LiveTables};
use manifest_fold::{FamilyFold, Folded};
use std::alloc::Global;
use std::test::Fail;
use ts_key::{Family, Form, Name, Seq, Ts};
use udt_disk::{Disk, DiskFile, Failed, FileName, MemDisk, MemFile};
use udt_model::Items;

const FILE: FileName = FileName::Manifest0;

/// The head of a store of the one family `d`.
const HEAD: &[u8] = b"\x01\x01\x01\0\0\0\x01d\0\x08";

/// The file of that head and of a raise of family 0 to 8.
pub(super) const RAISED: &[u8] =
    b"\xA5\x0A\0\0\0\x01\x01\x01\0\0\0\x01d\0\x08\xA5\x36\0\0\0\x02\0\0\0\0\0\0\0\0\x02\0\0\0\0\0\0\0\0\0\0\0\0\0\0\0\x01\0\0\0\0\x08\0\0\0\0\0\0\0\0\0\0\0\0\0\0\0\0\0\0\0\0\0\0\0\x5A";

/// The same, and behind it a raise of family 0 to 7.
pub(super) const FALLEN: &[u8] =
    b"\xA5\x0A\0\0\0\x01\x01\x01\0\0\0\x01d\0\x08\xA5\x36\0\0\0\x02\0\0\0\0\0\0\0\0\x02\0\0\0\0\0\0\0\0\0\0\0\0\0\0\0\x01\0\0\0\0\x08\0\0\0\0\0\0\0\0\0\0\0\0\0\0\0\0\0\0\0\0\0\0\0\xA5\x36\0\0\0\x02\0\0\0\0\0\0\0\0\x02\0\0\0\0\0\0\0\0\0\0\0\0\0\0\0\x01\0\0\0\0\x07\0\0\0\0\0\0\0\0\0\0\0\0\0\0\0\0\0\0\0\0\0\0\0\x5A";

/// The offset of the gate behind the first raise.
const BEHIND_RAISE: usize = 74;

/// What that head stands for.
fn new_fold(alloc: Global) -> Result<Folded, Failed> {
    let name = Name::of(alloc, b"d").map_err(|_| Failed)?;
    let family = FamilyFold {
        name,
        form: Form::Persist,
        floor: Ts(0),
        through: Seq(0),
        tables: LiveTables::new(alloc),
    };
    let mut families = Vec::new(alloc);
    families.push(family).map_err(|_| Failed)?;
    let logs = [1].to_vec(alloc).map_err(|_| Failed)?;
    Ok(Folded {
        families: Items::of(families),
        logs: Items::of(logs),
        next_file: 2,
        last: Seq(0),
    })
}

pub(super) fn raise(alloc: Global, floor: u64) -> Edit {
    Edit {
        add_logs: Items::of(Vec::new(alloc)),
        drop_logs: Items::of(Vec::new(alloc)),
        next_file: 2,
        last: Seq(0),
        family: Some(FamilyEdit {
            family: Family(0),
            floor: Ts(floor),
            through: Seq(0),
            add: Items::of(Vec::new(alloc)),
            remove: Items::of(Vec::new(alloc)),
        }),
    }
}

/// A file of these bytes.
fn written(disk: &mut MemDisk, bytes: &[u8]) -> Result<MemFile, Failed> {
    let mut file = disk.create(FILE)?;
    file.write_at(0, bytes)?;
    Ok(file)
}

/// What reading gives: the floor of the one family, or the offset of the first frame that is refused.
#[derive(Clone, Copy, Debug, PartialEq, Eq)]
enum Reading {
    Floor(u64),
    Bad(u64),
}

fn floor_of(fold: &Folded) -> Result<Reading, Failed> {
    match fold.families.as_slice().first() {
        Some(family) => Ok(Reading::Floor(family.floor.0)),
        None => Err(Failed),
    }
}

/// What reading a manifest of these bytes gives. Its head is taken as that of the one family.
fn read(alloc: Global, bytes: &[u8]) -> Result<Reading, Failed> {
    let start = new_fold(alloc)?;
    let mut disk = MemDisk::new(alloc, Vec::new(alloc)).map_err(|_| Failed)?;
    let file = written(&mut disk, bytes)?;
    let Ok((log, frames)) = GateLog::of(alloc, file) else {
        return Err(Failed);
    };
    let later = frames.get(1..).unwrap_or(&[]);
    match EditLog::read(alloc, log, start, later) {
        Ok(edits) => {
            let reading = floor_of(edits.fold());
            disk.retire(edits.into_file());
            reading
        }
        Err((_, EditsFault::BadEdit { at })) => Ok(Reading::Bad(at)),
        Err((_, EditsFault::NoMemory)) => Err(Failed),
    }
}

/// A new manifest of the one family, without edits.
fn new_edits(alloc: Global, disk: &mut MemDisk) -> Result<EditLog<MemFile>, Failed>
    ensures { IfOk result (λ edits. IsEditLogReady (⟦<MemFile as DiskFile>⟧) edits) }
{
    let start = new_fold(alloc)?;
    let file = disk.create(FILE)?;
    let Ok(mut log) = GateLog::create(alloc, file) else {
        return Err(Failed);
    };
    match log.reserve(HEAD.len()) {
        Ok(()) => {}
        Err(_) => {
            disk.retire(log.into_file());
            return Err(Failed);
        }
    }
    match log.append(HEAD) {
        Ok(()) => Ok(EditLog::of(log, start)),
        Err(Failed) => {
            disk.retire(log.into_file());
            Err(Failed)
        }
    }
}

/// Adds a raise.
fn add_raise(alloc: Global, edits: &mut EditLog<MemFile>, floor: u64) -> Result<(), Failed>
    requires { IsEditLogReady (⟦<MemFile as DiskFile>⟧) edits.old }
    ensures { OnOk result (IsEditLogReady (⟦<MemFile as DiskFile>⟧) edits.new) }
{
    let edit = raise(alloc, floor);
    if !edits.fold().accepts(&edit) {
        return Err(Failed);
    }
    match edits.reserve(alloc, &edit) {
        Ok(()) => edits.append(&edit),
        Err(_) => Err(Failed),
    }
}

/// Adds raises to 8, 9 and on, below `end`.
fn add_raises(alloc: Global, edits: &mut EditLog<MemFile>, end: u64) -> Result<(), Failed>
    requires { IsEditLogReady (⟦<MemFile as DiskFile>⟧) edits.old }
{
    for floor in 8..end {
        add_raise(alloc, edits, floor)?;
    }
    Ok(())
}

/// The bytes of a new manifest with raises to 8, 9 and on, below `end`.
fn raised(alloc: Global, end: u64) -> Result<Vec<u8>, Failed> {
    let mut disk = MemDisk::new(alloc, Vec::new(alloc)).map_err(|_| Failed)?;
    let mut edits = new_edits(alloc, &mut disk)?;
    let added = add_raises(alloc, &mut edits, end);
    disk.retire(edits.into_file());
    added?;
    match disk.contents(FILE) {
        Some(bytes) => bytes.to_vec(alloc).map_err(|_| Failed),
        None => Err(Failed),
    }
}

#[test]
fn a_raise_has_these_bytes_behind_its_head(rt: HostRuntime) {
    let bytes = raised(rt.alloc(), 9);
    assert!(rt; bytes.is_ok());
    if let Ok(bytes) = bytes {
        assert_eq!(rt; bytes.as_slice(), RAISED);
    }
}

#[test]
fn a_raise_is_read_behind_its_head(rt: HostRuntime) {
    assert_eq!(rt; read(rt.alloc(), RAISED), Ok(Reading::Floor(8)));
}

#[test]
fn each_front_of_frames_is_read(rt: HostRuntime) {
    for end in 8..12 {
        let bytes = raised(rt.alloc(), end);
        assert!(rt; bytes.is_ok());
        if let Ok(bytes) = bytes {
            let floor = if end == 8 { 0 } else { end - 1 };
            assert_eq!(rt; read(rt.alloc(), &bytes), Ok(Reading::Floor(floor)));
        }
    }
}

#[test]
fn an_edit_that_is_not_accepted_is_bad_at_its_frame(rt: HostRuntime) {
    assert_eq!(rt; read(rt.alloc(), FALLEN), Ok(Reading::Bad(74)));
}

#[test]
fn behind_a_closed_gate_it_does_not_count(rt: HostRuntime) -> Result<(), Fail> {
    let mut bytes = FALLEN.to_vec(rt.alloc())?;
    if let Some(gate) = bytes.get_mut(BEHIND_RAISE) {
        *gate = 0x5A;
    }
    assert_eq!(rt; read(rt.alloc(), &bytes), Ok(Reading::Floor(8)));
    Ok(())
}
