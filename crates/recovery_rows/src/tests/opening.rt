//! Folders of edits, tables and logs in memory: opened, and refused.

use crate::tests::making::put;
use manifest_edit::{Edit, FamilyEdit, TableAt, write_edit};
use recovery::{OpenFault, Parts, open_store};
use std::alloc::Global;
use std::test::Fail;
use super_version::SuperVersion;
use ts_key::{Family, Seq, Ts};
use udt_disk::{Disk, FileName, MemDisk};
use udt_model::Items;

/// The head of a store of the one family `d`.
const HEAD: &[u8] = b"\x01\x01\x01\0\0\0\x01d\0\x08";

/// The same, where `d` strips its timestamps.
const STRIP_HEAD: &[u8] = b"\x01\x01\x01\0\0\0\x01d\x01\x08";

/// The table of family 0 of the put of `a` at 5 with sequence 1 and value `v`.
const TABLE: &[u8] =
    b"\0\0\x11\0\x01\0\0\0a\x05\0\0\0\0\0\0\0\x01\x01\0\0\0\0\0\0v\0\0\0\0\x01\0\0\0\
\x01\0\0\0\0\0\0\0\0\0\0\0\x22\0\0\0\0\0\0\0\x01\0\0\0\
\0\0\0\0\0\x01\0\0\0\0\0\0\0\x01\0a\x01\0a\x01\0\0\0\0\0\0\0\x01\0\0\0\0\0\0\0\x05\0\0\0\0\0\0\0\0\0\0\0\0\0\0\0\
\x22\0\0\0\0\0\0\0\x3A\0\0\0\0\0\0\0udttab01";

/// The log of that put.
const LOG: &[u8] =
    b"\xA5\x29\0\0\0\x01\x01\0\0\0\0\0\0\0\x08\x02\x01\0\0\0\0\0\0\0\x01\0\0\0\0\x01\x05\0\0\0\0\0\0\0\x01\0a\x01\0\0\0v\x5A";

/// Where the sequence of the log's put stands.
const LOG_SEQUENCE: usize = 16;

/// A log without a batch.
const EMPTY: &[u8] = b"\x5A";

/// A file: its name, and bytes of which some are others.
type File = (FileName, &'static [u8], &'static [(usize, u8)]);

/// The edit of a folder's manifest, in plain numbers.
#[derive(Clone, Copy)]
struct Change {
    add_logs: &'static [u64],
    last: u64,
    floor: u64,
    through: u64,
    add: &'static [TableAt],
}

/// A folder, and why it isn't opened.
#[derive(Clone, Copy)]
struct Row {
    head: &'static [u8],
    change: Change,
    files: &'static [File],
    fault: Option<OpenFault>,
}

const NONE: Change = Change {
    add_logs: &[],
    last: 0,
    floor: 0,
    through: 0,
    add: &[],
};

const TABLE_3: TableAt = TableAt {
    level: 0,
    number: 3,
};

/// Table 3 is live, and all up to sequence 5 is in tables.
const FLUSH: Change = Change {
    last: 5,
    through: 5,
    add: &[TABLE_3],
    ..NONE
};

const MEETING: Change = Change {
    add: &[
        TableAt {
            level: 1,
            number: 3,
        },
        TableAt {
            level: 1,
            number: 4,
        },
    ],
    ..FLUSH
};

/// A third table on the level.
const THREE_TABLES: Change = Change {
    add: &[
        TableAt {
            level: 1,
            number: 3,
        },
        TableAt {
            level: 1,
            number: 4,
        },
        TableAt {
            level: 1,
            number: 5,
        },
    ],
    ..FLUSH
};

const TWO_LEVELS: Change = Change {
    add: &[
        TableAt {
            level: 1,
            number: 3,
        },
        TableAt {
            level: 2,
            number: 4,
        },
    ],
    ..FLUSH
};

const TWO_LOGS: Change = Change {
    add_logs: &[2],
    ..NONE
};

const THREE_LOGS: Change = Change {
    add_logs: &[2, 3],
    ..NONE
};

const NEW: Row = Row {
    head: HEAD,
    change: NONE,
    files: &[(FileName::Log(1), EMPTY, &[])],
    fault: None,
};

/// A folder whose log has a version below the floor.
const BELOW_FLOOR: Row = Row {
    change: Change { floor: 8, ..NONE },
    files: &[(FileName::Log(1), LOG, &[])],
    ..NEW
};

/// A folder whose log has a version that is in a table.
const AT_THROUGH: Row = Row {
    change: Change {
        last: 1,
        through: 1,
        add: &[TABLE_3],
        ..NONE
    },
    files: &[
        (FileName::Log(1), LOG, &[]),
        (FileName::Table(3), TABLE, &[]),
    ],
    ..NEW
};

const BAD_3: Option<OpenFault> = Some(OpenFault::BadTable { number: 3 });

const ROWS: &[(&str, Row)] = &[
    ("a new store", NEW),
    (
        "no log",
        Row {
            files: &[],
            fault: Some(OpenFault::BadLog { number: 1, at: 0 }),
            ..NEW
        },
    ),
    (
        "no table",
        Row {
            change: FLUSH,
            fault: Some(OpenFault::MissingTable { number: 3 }),
            ..NEW
        },
    ),
    (
        "a table",
        Row {
            change: FLUSH,
            files: &[
                (FileName::Log(1), EMPTY, &[]),
                (FileName::Table(3), TABLE, &[]),
            ],
            ..NEW
        },
    ),
    (
        "files that aren't live",
        Row {
            change: FLUSH,
            files: &[
                (FileName::Log(1), EMPTY, &[]),
                (FileName::Table(3), TABLE, &[]),
                (FileName::Table(4), b"\xA5", &[]),
                (FileName::Log(5), b"\xA5", &[]),
                (FileName::Manifest1, b"\xA5", &[]),
            ],
            ..NEW
        },
    ),
    (
        "another last byte",
        Row {
            change: FLUSH,
            files: &[
                (FileName::Log(1), EMPTY, &[]),
                (FileName::Table(3), TABLE, &[(132, 0x32)]),
            ],
            fault: BAD_3,
            ..NEW
        },
    ),
    (
        "another family",
        Row {
            change: FLUSH,
            files: &[
                (FileName::Log(1), EMPTY, &[]),
                (FileName::Table(3), TABLE, &[(58, 1)]),
            ],
            fault: BAD_3,
            ..NEW
        },
    ),
    (
        "another form",
        Row {
            head: STRIP_HEAD,
            change: FLUSH,
            files: &[
                (FileName::Log(1), EMPTY, &[]),
                (FileName::Table(3), TABLE, &[]),
            ],
            fault: BAD_3,
        },
    ),
    (
        "collected by more than the floor",
        Row {
            change: FLUSH,
            files: &[
                (FileName::Log(1), EMPTY, &[]),
                (FileName::Table(3), TABLE, &[(101, 1)]),
            ],
            fault: BAD_3,
            ..NEW
        },
    ),
    (
        "a sequence above through",
        Row {
            change: FLUSH,
            files: &[
                (FileName::Log(1), EMPTY, &[]),
                (FileName::Table(3), TABLE, &[(18, 6), (77, 6), (85, 6)]),
            ],
            fault: BAD_3,
            ..NEW
        },
    ),
    (
        "tables that meet on level 1",
        Row {
            change: MEETING,
            files: &[
                (FileName::Log(1), EMPTY, &[]),
                (FileName::Table(3), TABLE, &[]),
                (FileName::Table(4), TABLE, &[]),
            ],
            fault: Some(OpenFault::BadTable { number: 4 }),
            ..NEW
        },
    ),
    (
        "tables that meet before a missing one",
        Row {
            change: THREE_TABLES,
            files: &[
                (FileName::Log(1), EMPTY, &[]),
                (FileName::Table(3), TABLE, &[]),
                (FileName::Table(4), TABLE, &[]),
            ],
            fault: Some(OpenFault::BadTable { number: 4 }),
            ..NEW
        },
    ),
    (
        "tables that meet behind a missing one",
        Row {
            change: THREE_TABLES,
            files: &[
                (FileName::Log(1), EMPTY, &[]),
                (FileName::Table(4), TABLE, &[]),
                (FileName::Table(5), TABLE, &[]),
            ],
            fault: Some(OpenFault::MissingTable { number: 3 }),
            ..NEW
        },
    ),
    (
        "tables of one span on two levels",
        Row {
            change: TWO_LEVELS,
            files: &[
                (FileName::Log(1), EMPTY, &[]),
                (FileName::Table(3), TABLE, &[]),
                (FileName::Table(4), TABLE, &[]),
            ],
            ..NEW
        },
    ),
    (
        "two logs",
        Row {
            change: TWO_LOGS,
            files: &[
                (FileName::Log(1), LOG, &[]),
                (FileName::Log(2), LOG, &[(LOG_SEQUENCE, 2)]),
            ],
            ..NEW
        },
    ),
    (
        "no second log",
        Row {
            change: TWO_LOGS,
            files: &[(FileName::Log(1), LOG, &[])],
            fault: Some(OpenFault::BadLog { number: 2, at: 0 }),
            ..NEW
        },
    ),
    (
        "a gap between logs",
        Row {
            change: TWO_LOGS,
            files: &[
                (FileName::Log(1), LOG, &[]),
                (FileName::Log(2), LOG, &[(LOG_SEQUENCE, 3)]),
            ],
            fault: Some(OpenFault::BadLog { number: 2, at: 0 }),
            ..NEW
        },
    ),
    (
        "a log of its own fault behind a gap",
        Row {
            change: THREE_LOGS,
            files: &[
                (FileName::Log(1), LOG, &[]),
                (FileName::Log(2), LOG, &[(LOG_SEQUENCE, 3)]),
                (FileName::Log(3), b"\xA5", &[]),
            ],
            fault: Some(OpenFault::BadLog { number: 3, at: 0 }),
            ..NEW
        },
    ),
    (
        "the manifest's last above those of two logs",
        Row {
            change: Change {
                last: 3,
                ..TWO_LOGS
            },
            files: &[
                (FileName::Log(1), LOG, &[]),
                (FileName::Log(2), LOG, &[(LOG_SEQUENCE, 2)]),
            ],
            fault: Some(OpenFault::BadLog { number: 2, at: 0 }),
            ..NEW
        },
    ),
    (
        "the manifest's last above the log's",
        Row {
            change: Change { last: 2, ..NONE },
            files: &[(FileName::Log(1), LOG, &[])],
            fault: Some(OpenFault::BadLog { number: 1, at: 0 }),
            ..NEW
        },
    ),
];

fn edit(alloc: Global, change: &Change) -> Result<Edit, Fail> {
    let family = FamilyEdit {
        family: Family(0),
        floor: Ts(change.floor),
        through: Seq(change.through),
        add: Items::of(change.add.to_vec(alloc)?),
        remove: Items::of(Vec::new(alloc)),
    };
    Ok(Edit {
        add_logs: Items::of(change.add_logs.to_vec(alloc)?),
        drop_logs: Items::of(Vec::new(alloc)),
        next_file: 10,
        last: Seq(change.last),
        family: Some(family),
    })
}

fn push_frame(bytes: &mut Vec<u8>, body: &[u8]) -> Result<(), Fail> {
    let length = u32::try_from(body.len())?;
    bytes.push(0xA5)?;
    bytes.extend_from_slice(&length.to_le_bytes())?;
    bytes.extend_from_slice(body)?;
    Ok(())
}

/// The manifest of a head and an edit.
fn manifest_of(alloc: Global, head: &[u8], change: &Change) -> Result<Vec<u8>, Fail> {
    let mut bytes = Vec::new(alloc);
    push_frame(&mut bytes, head)?;
    push_frame(&mut bytes, &write_edit(alloc, &edit(alloc, change)?)?)?;
    bytes.push(0x5A)?;
    Ok(bytes)
}

/// Bytes of which some are others.
fn altered(alloc: Global, bytes: &[u8], others: &[(usize, u8)]) -> Result<Vec<u8>, Fail> {
    let mut bytes = bytes.to_vec(alloc)?;
    for (at, byte) in others {
        if let Some(old) = bytes.get_mut(*at) {
            *old = *byte;
        }
    }
    Ok(bytes)
}

fn folder(alloc: Global, row: &Row) -> Result<MemDisk, Fail> {
    let mut disk = MemDisk::new(alloc, Vec::new(alloc))?;
    let manifest = manifest_of(alloc, row.head, &row.change)?;
    put(&mut disk, FileName::Manifest0, &manifest)?;
    for (name, bytes, others) in row.files {
        let bytes = altered(alloc, bytes, others)?;
        put(&mut disk, *name, &bytes)?;
    }
    put(&mut disk, FileName::Made, b"")?;
    Ok(disk)
}

/// The super version of a store, whose files are given back.
fn closed(parts: Parts<MemDisk>) -> SuperVersion {
    let Parts {
        mut disk,
        manifest,
        wal,
        version,
    } = parts;
    disk.retire(wal.into_file());
    disk.retire(manifest.into_file());
    version
}

/// What is opened in a folder, or why it isn't.
pub(super) fn opened_version(alloc: Global, disk: MemDisk) -> Result<SuperVersion, OpenFault> {
    match open_store(alloc, disk) {
        Ok(parts) => Ok(closed(parts)),
        Err((_disk, fault)) => Err(fault),
    }
}

fn opened(alloc: Global, row: &Row) -> Result<Result<SuperVersion, OpenFault>, Fail> {
    Ok(opened_version(alloc, folder(alloc, row)?))
}

/// How many versions are in the active memtable.
fn unflushed(alloc: Global, row: &Row) -> Result<usize, Fail> {
    let version = opened(alloc, row)??;
    let state = version.family(Family(0)).ok_or("there is no family")?;
    Ok(state.active.versions()?.len())
}

#[test]
fn each_folder_is_told(rt: HostRuntime) -> Result<(), Fail> {
    for (what, row) in ROWS {
        let fault = opened(rt.alloc(), row)?.err();
        assert_eq!(rt; fault, row.fault, "{what}");
    }
    Ok(())
}

#[test]
fn what_is_above_through_is_in_memory(rt: HostRuntime) -> Result<(), Fail> {
    assert_eq!(rt; unflushed(rt.alloc(), &BELOW_FLOOR)?, 1);
    assert_eq!(rt; unflushed(rt.alloc(), &AT_THROUGH)?, 0);
    Ok(())
}

#[test]
fn a_refusal_is_said_in_words(rt: HostRuntime) -> Result<(), Fail> {
    let missing = OpenFault::MissingTable { number: 3 };
    let bad = OpenFault::BadLog { number: 2, at: 41 };
    assert_eq!(rt;
        format!(in rt.alloc(); "{missing}")?.as_str(),
        "missing table 3"
    );
    assert_eq!(rt; format!(in rt.alloc(); "{bad}")?.as_str(), "bad log 2 41");
    Ok(())
}

#[test]
fn a_folder_without_a_store_is_refused(rt: HostRuntime) -> Result<(), Fail> {
    let disk = MemDisk::new(rt.alloc(), Vec::new(rt.alloc()))?;
    match open_store(rt.alloc(), disk) {
        Ok(parts) => {
            let _version = closed(parts);
            assert!(rt; false, "no store");
        }
        Err((_disk, fault)) => assert_eq!(rt; fault, OpenFault::NoStore),
    }
    Ok(())
}
