//! Which edits a fold accepts: each condition is broken once, alone; and what an accepted edit makes of the fold.

use manifest_edit::{Edit, FamilyEdit, LiveTables, TableAt};
use manifest_fold::{FamilyFold, Folded};
use std::alloc::Global;
use std::test::Fail;
use ts_key::{Family, Form, Name, Seq, Ts};
use udt_model::Items;

/// An edit in plain numbers.
#[derive(Clone, Copy)]
pub(super) struct Row {
    pub(super) add_logs: &'static [u64],
    pub(super) drop_logs: &'static [u64],
    pub(super) next_file: u64,
    pub(super) last: u64,
    pub(super) family: u32,
    pub(super) floor: u64,
    pub(super) through: u64,
    pub(super) add: &'static [TableAt],
    pub(super) remove: &'static [u64],
}

/// An edit that the fold accepts: log 7 comes, and log 2 goes; the floor of family 0 rises to 5, and its versions through 5 are
/// in tables, of which table 9 comes and table 3 goes.
const GOOD: Row = Row {
    add_logs: &[7],
    drop_logs: &[2],
    next_file: 10,
    last: 7,
    family: 0,
    floor: 5,
    through: 5,
    add: &[TableAt {
        level: 0,
        number: 9,
    }],
    remove: &[3],
};

const TABLE_3: TableAt = TableAt {
    level: 1,
    number: 3,
};

/// Edits that are accepted too.
const ACCEPTED: &[(&str, Row)] = &[
    (
        "the greatest next file",
        Row {
            next_file: 1 << 63,
            ..GOOD
        },
    ),
    (
        "the greatest last sequence",
        Row {
            last: (1 << 56) - 1,
            ..GOOD
        },
    ),
    (
        "both old logs dropped, two new ones",
        Row {
            add_logs: &[7, 8],
            drop_logs: &[2, 4],
            ..GOOD
        },
    ),
    (
        "through as far as the last sequence",
        Row { through: 7, ..GOOD },
    ),
    (
        "both tables removed",
        Row {
            remove: &[3, 5],
            ..GOOD
        },
    ),
    (
        "a table that the edit removes",
        Row {
            add: &[TABLE_3],
            ..GOOD
        },
    ),
    (
        "a table on the lowest level",
        Row {
            add: &[TableAt {
                level: 6,
                number: 9,
            }],
            ..GOOD
        },
    ),
];

/// The good edit, with one condition broken in each.
pub(super) const REFUSED: &[(&str, Row)] = &[
    (
        "the next file falls",
        Row {
            next_file: 9,
            add: &[],
            ..GOOD
        },
    ),
    (
        "the next file passes its limit",
        Row {
            next_file: (1 << 63) + 1,
            ..GOOD
        },
    ),
    ("the last sequence falls", Row { last: 6, ..GOOD }),
    (
        "the last sequence passes its limit",
        Row {
            last: 1 << 56,
            ..GOOD
        },
    ),
    (
        "added logs don't ascend",
        Row {
            add_logs: &[8, 7],
            ..GOOD
        },
    ),
    (
        "an added log is live",
        Row {
            add_logs: &[4],
            ..GOOD
        },
    ),
    (
        "an added log isn't below the next file",
        Row {
            add_logs: &[10],
            ..GOOD
        },
    ),
    (
        "the dropped log isn't the oldest",
        Row {
            drop_logs: &[4],
            ..GOOD
        },
    ),
    (
        "no log stays live",
        Row {
            add_logs: &[],
            drop_logs: &[2, 4],
            ..GOOD
        },
    ),
    (
        "there is no such family",
        Row {
            family: 2,
            add: &[],
            remove: &[],
            ..GOOD
        },
    ),
    ("the floor falls", Row { floor: 3, ..GOOD }),
    ("through falls", Row { through: 3, ..GOOD }),
    (
        "through passes the last sequence",
        Row { through: 8, ..GOOD },
    ),
    (
        "removed tables don't ascend",
        Row {
            remove: &[5, 3],
            ..GOOD
        },
    ),
    (
        "a removed table is another family's",
        Row {
            remove: &[6],
            ..GOOD
        },
    ),
    (
        "a level is too low",
        Row {
            add: &[TableAt {
                level: 7,
                number: 9,
            }],
            ..GOOD
        },
    ),
    (
        "an added table isn't below the next file",
        Row {
            add: &[TableAt {
                level: 0,
                number: 10,
            }],
            ..GOOD
        },
    ),
    (
        "an added table is live",
        Row {
            add: &[TableAt {
                level: 0,
                number: 5,
            }],
            ..GOOD
        },
    ),
    (
        "an added table is live in another family",
        Row {
            add: &[TableAt {
                level: 0,
                number: 6,
            }],
            ..GOOD
        },
    ),
    (
        "added tables don't ascend",
        Row {
            add: &[
                TableAt {
                    level: 0,
                    number: 9,
                },
                TableAt {
                    level: 0,
                    number: 8,
                },
            ],
            ..GOOD
        },
    ),
];

pub(super) fn edit(alloc: Global, row: &Row) -> Result<Edit, Fail> {
    let family = FamilyEdit {
        family: Family(row.family),
        floor: Ts(row.floor),
        through: Seq(row.through),
        add: Items::of(row.add.to_vec(alloc)?),
        remove: Items::of(row.remove.to_vec(alloc)?),
    };
    Ok(Edit {
        add_logs: Items::of(row.add_logs.to_vec(alloc)?),
        drop_logs: Items::of(row.drop_logs.to_vec(alloc)?),
        next_file: row.next_file,
        last: Seq(row.last),
        family: Some(family),
    })
}

fn family(alloc: Global, name: &[u8], tables: &[TableAt]) -> Result<FamilyFold, Fail> {
    let mut live = LiveTables::new(alloc);
    live.insert_all(tables)?;
    Ok(FamilyFold {
        name: Name::of(alloc, name)?,
        form: Form::Persist,
        floor: Ts(4),
        through: Seq(4),
        tables: live,
    })
}

/// Two families: the first has the tables 3 and 5, the second has table 6. The logs 2 and 4 are live.
fn fold(alloc: Global) -> Result<Folded, Fail> {
    let first = family(
        alloc,
        b"d",
        &[
            TableAt {
                level: 0,
                number: 3,
            },
            TableAt {
                level: 1,
                number: 5,
            },
        ],
    )?;
    let second = family(
        alloc,
        b"e",
        &[TableAt {
            level: 0,
            number: 6,
        }],
    )?;
    let mut families = Vec::new(alloc);
    families.push(first)?;
    families.push(second)?;
    Ok(Folded {
        families: Items::of(families),
        logs: Items::of([2, 4].to_vec(alloc)?),
        next_file: 10,
        last: Seq(7),
    })
}

fn is_accepted(alloc: Global, row: &Row) -> Result<bool, Fail> {
    let edit = edit(alloc, row)?;
    let fold = fold(alloc)?;
    Ok(fold.accepts(&edit))
}

#[test]
fn good_edits_are_accepted(rt: HostRuntime) -> Result<(), Fail> {
    assert!(rt; is_accepted(rt.alloc(), &GOOD)?);
    for (what, row) in ACCEPTED {
        assert!(rt; is_accepted(rt.alloc(), row)?, "{what}");
    }
    Ok(())
}

#[test]
fn each_condition_refuses(rt: HostRuntime) -> Result<(), Fail> {
    for (what, row) in REFUSED {
        assert!(rt; !is_accepted(rt.alloc(), row)?, "{what}");
    }
    Ok(())
}

#[test]
fn the_fold_is_changed(rt: HostRuntime) -> Result<(), Fail> {
    let alloc = rt.alloc();
    let fold = fold(alloc)?.with(&edit(alloc, &GOOD)?)?;
    assert_eq!(rt; fold.logs.as_slice(), [4, 7].as_slice());
    let first = fold
        .families
        .as_slice()
        .first()
        .ok_or("there is no family")?;
    assert!(rt; first.floor == Ts(5) && first.through == Seq(5));
    assert!(rt; !first.tables.has(3) && first.tables.has(5) && first.tables.has(9));
    Ok(())
}
