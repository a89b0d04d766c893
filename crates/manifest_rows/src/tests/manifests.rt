//! Whole manifests, made, read and edited in folders in memory.

ghost use Rattle.std.specs.Prelude.{IfOk, OnOk};
ghost use Rattle.manifest.specs.Manifest.{IsManifestReady};

use super::acceptance::{REFUSED, Row, edit};
use super::edits_on_disk::{FALLEN, RAISED, raise};
use manifest::{Head, Manifest, ManifestFault};
use manifest_edit::{TableAt, write_edit};
use std::alloc::Global;
use std::test::Fail;
use ts_key::{Form, Name, Ts};
use udt_disk::{Disk, DiskFile, Failed, FileName, MemDisk, MemFile};
use udt_model::{FamilyHead, Items};

/// The manifest of a new store with the family `d`, which strips its timestamps.
const STRIP: &[u8] = b"\xA5\x0A\0\0\0\x01\x01\x01\0\0\0\x01d\x01\x08\x5A";

/// How many bytes the first frame has, and each later one.
const HEAD_FRAME: usize = 15;

const RAISE_FRAME: usize = 59;

/// The head of a store of the families `d` and `e`.
const TWO: &[u8] = b"\x01\x01\x02\0\0\0\x01d\0\x08\x01e\0\x08";

/// The edits that lead from that head to the fold of the table of refused edits.
const LEADING: &[Row] = &[
    Row {
        add_logs: &[2, 4],
        drop_logs: &[1],
        next_file: 10,
        last: 7,
        family: 0,
        floor: 4,
        through: 4,
        add: &[
            TableAt {
                level: 0,
                number: 3,
            },
            TableAt {
                level: 1,
                number: 5,
            },
        ],
        remove: &[],
    },
    Row {
        add_logs: &[],
        drop_logs: &[],
        next_file: 10,
        last: 7,
        family: 1,
        floor: 4,
        through: 4,
        add: &[TableAt {
            level: 0,
            number: 6,
        }],
        remove: &[],
    },
];

/// What a folder says: of a store the form and the floor of its first family.
#[derive(Clone, Copy, Debug, PartialEq, Eq)]
enum Reading {
    NoStore,
    Store(Form, u64),
    Bad(u64),
}

fn head(alloc: Global, form: Form) -> Result<Head, Failed> {
    let name = Name::of(alloc, b"d").map_err(|_| Failed)?;
    let mut families = Vec::new(alloc);
    let family = FamilyHead {
        name,
        form,
        floor: Ts(0),
    };
    families.push(family).map_err(|_| Failed)?;
    Ok(Head {
        families: Items::of(families),
    })
}

/// Makes a store with the family `d`.
fn made(alloc: Global, disk: &mut MemDisk, form: Form) -> Result<Manifest<MemFile>, Failed>
    ensures { IfOk result (λ m. IsManifestReady (⟦<MemFile as DiskFile>⟧) m) }
{
    let head = head(alloc, form)?;
    if !head.is_allowed() {
        return Err(Failed);
    }
    Manifest::create(alloc, disk, &head).map_err(|_| Failed)
}

/// Raises the floor of the family.
fn add_raise(alloc: Global, manifest: &mut Manifest<MemFile>, floor: u64) -> Result<(), Failed>
    requires { IsManifestReady (⟦<MemFile as DiskFile>⟧) manifest.old }
    ensures { OnOk result (IsManifestReady (⟦<MemFile as DiskFile>⟧) manifest.new) }
{
    let edit = raise(alloc, floor);
    if !manifest.fold().accepts(&edit) {
        return Err(Failed);
    }
    match manifest.reserve(alloc, &edit) {
        Ok(()) => manifest.append(&edit),
        Err(_) => Err(Failed),
    }
}

/// Adds raises to 8, 9 and on, below `end`.
fn add_raises(alloc: Global, manifest: &mut Manifest<MemFile>, end: u64) -> Result<(), Failed>
    requires { IsManifestReady (⟦<MemFile as DiskFile>⟧) manifest.old }
{
    for floor in 8..end {
        add_raise(alloc, manifest, floor)?;
    }
    Ok(())
}

/// The bytes of a new manifest with raises to 8, 9 and on, below `end`.
fn raised(alloc: Global, form: Form, end: u64) -> Result<Vec<u8>, Failed> {
    let mut disk = MemDisk::new(alloc, Vec::new(alloc)).map_err(|_| Failed)?;
    let mut manifest = made(alloc, &mut disk, form)?;
    let added = add_raises(alloc, &mut manifest, end);
    disk.retire(manifest.into_file());
    added?;
    match disk.contents(FileName::Manifest0) {
        Some(bytes) => bytes.to_vec(alloc).map_err(|_| Failed),
        None => Err(Failed),
    }
}

fn put(disk: &mut MemDisk, name: FileName, bytes: &[u8]) -> Result<(), Failed> {
    let mut file = disk.create(name)?;
    let written = file.write_at(0, bytes);
    disk.retire(file);
    written
}

/// What a folder says whose manifest has these bytes.
fn read(alloc: Global, bytes: &[u8]) -> Result<Reading, Failed> {
    let mut disk = MemDisk::new(alloc, Vec::new(alloc)).map_err(|_| Failed)?;
    put(&mut disk, FileName::Manifest0, bytes)?;
    put(&mut disk, FileName::Made, b"")?;
    match Manifest::read(alloc, &mut disk) {
        Ok(None) => Ok(Reading::NoStore),
        Ok(Some(manifest)) => {
            let found = match manifest.fold().families.as_slice().first() {
                Some(family) => Ok(Reading::Store(family.form, family.floor.0)),
                None => Err(Failed),
            };
            disk.retire(manifest.into_file());
            found
        }
        Err(ManifestFault::BadManifest { at }) => Ok(Reading::Bad(at)),
        Err(_) => Err(Failed),
    }
}

fn push_frame(bytes: &mut Vec<u8>, body: &[u8]) -> Result<(), Fail> {
    let length = u32::try_from(body.len())?;
    bytes.push(0xA5)?;
    bytes.extend_from_slice(&length.to_le_bytes())?;
    bytes.extend_from_slice(body)?;
    Ok(())
}

/// The frames of the store of two families, as far as the table of refused edits begins.
fn front(alloc: Global) -> Result<Vec<u8>, Fail> {
    let mut bytes = Vec::new(alloc);
    push_frame(&mut bytes, TWO)?;
    for row in LEADING {
        push_frame(&mut bytes, &write_edit(alloc, &edit(alloc, row)?)?)?;
    }
    Ok(bytes)
}

/// Where the frame stands that these many bytes of a manifest of raises don't hold whole.
fn broken_frame(len: usize) -> u64 {
    if len <= HEAD_FRAME {
        0
    } else {
        (HEAD_FRAME + (len - HEAD_FRAME - 1) / RAISE_FRAME * RAISE_FRAME) as u64
    }
}

#[test]
fn a_raise_has_these_bytes(rt: HostRuntime) {
    let bytes = raised(rt.alloc(), Form::Persist, 9);
    assert!(rt; bytes.is_ok_and(|bytes| bytes.as_slice() == RAISED));
    assert_eq!(rt;
        read(rt.alloc(), RAISED),
        Ok(Reading::Store(Form::Persist, 8))
    );
}

#[test]
fn a_family_may_strip(rt: HostRuntime) {
    let bytes = raised(rt.alloc(), Form::Strip, 8);
    assert!(rt; bytes.is_ok_and(|bytes| bytes.as_slice() == STRIP));
    assert_eq!(rt; read(rt.alloc(), STRIP), Ok(Reading::Store(Form::Strip, 0)));
}

#[test]
fn each_prefix_is_bad_at_its_broken_frame(rt: HostRuntime) -> Result<(), Fail> {
    let Ok(bytes) = raised(rt.alloc(), Form::Persist, 11) else {
        assert!(rt; false, "a manifest with three raises");
        return Ok(());
    };
    assert_eq!(rt;
        read(rt.alloc(), &bytes),
        Ok(Reading::Store(Form::Persist, 10))
    );
    for len in 0..bytes.len() {
        assert_eq!(rt;
            read(rt.alloc(), &bytes[..len]),
            Ok(Reading::Bad(broken_frame(len)))
        );
    }
    Ok(())
}

#[test]
fn bad_frames_are_told(rt: HostRuntime) -> Result<(), Fail> {
    assert_eq!(rt; read(rt.alloc(), FALLEN), Ok(Reading::Bad(74)));
    let mut closed = FALLEN.to_vec(rt.alloc())?;
    if let Some(gate) = closed.get_mut(HEAD_FRAME + RAISE_FRAME) {
        *gate = 0x5A;
    }
    assert_eq!(rt;
        read(rt.alloc(), &closed),
        Ok(Reading::Store(Form::Persist, 8))
    );
    let mut form = STRIP.to_vec(rt.alloc())?;
    if let Some(code) = form.get_mut(13) {
        *code = 2;
    }
    assert_eq!(rt; read(rt.alloc(), &form), Ok(Reading::Bad(0)));
    Ok(())
}

#[test]
fn each_refused_edit_is_bad_at_its_frame(rt: HostRuntime) -> Result<(), Fail> {
    let alloc = rt.alloc();
    let front = front(alloc)?;
    for (what, row) in REFUSED {
        let mut bytes = front.to_vec(alloc)?;
        push_frame(&mut bytes, &write_edit(alloc, &edit(alloc, row)?)?)?;
        bytes.push(0x5A)?;
        assert_eq!(rt;
            read(alloc, &bytes),
            Ok(Reading::Bad(front.len() as u64)),
            "{what}"
        );
        if let Some(gate) = bytes.get_mut(front.len()) {
            *gate = 0x5A;
        }
        assert_eq!(rt;
            read(alloc, &bytes),
            Ok(Reading::Store(Form::Persist, 4)),
            "{what}"
        );
    }
    Ok(())
}
