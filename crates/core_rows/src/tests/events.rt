//! Events as rows of a table, and what is replied to them.

use floor_core::{Core, CoreEvent, CoreReply, Piece};
use std::alloc::Global;
use std::process::Abort;
use std::test::Fail;
use ts_key::{Batch, Family, Form, Key, Op, Ts, Value, WriteOp};
use udt_model::{Answer, Items, ModelRead, Stamp};

/// An event of a core, written short: a key and a value are one byte.
#[derive(Clone, Copy, Debug)]
pub enum Ask<'a> {
    /// A family, a key, a timestamp and a value: none deletes.
    Write(u32, u8, u64, Option<u8>),
    /// A family, a key, a timestamp and a snapshot.
    Get(u32, u8, u64, Option<u64>),
    /// A pin, a family, a key, a timestamp and a snapshot.
    PinnedGet(u64, u32, u8, u64, Option<u64>),
    /// A family and a floor.
    Raise(u32, u64),
    Snap,
    Release(u64),
    Pin,
    FlushStart(u32),
    FlushEnd(u64),
    FlushDrop,
    /// A family, tables and a level.
    CompactStart(u32, &'a [u64], u32),
    /// Tables with their counts of versions.
    CompactEnd(&'a [(u64, u64)]),
    CompactDrop,
    Halt,
}

/// A reply of a core, written short.
#[derive(Clone, Copy, Debug, PartialEq)]
pub enum Told {
    Done,
    /// The last sequence.
    Written(u64),
    Absent,
    Found(u8, Stamp),
    /// The floor.
    Collapsed(u64),
    Refused,
}

/// One operation on a key of a family.
pub fn write_op(
    alloc: Global,
    family: u32,
    key: u8,
    ts: u64,
    value: Option<u8>,
) -> Result<WriteOp, Fail> {
    let op = match value {
        None => Op::Del,
        Some(byte) => Op::Put(Value::of(alloc, &[byte])?),
    };
    Ok(WriteOp {
        family: Family(family),
        key: Key::of(alloc, &[key])?,
        ts: Ts(ts),
        op,
    })
}

/// A write of one operation.
fn write(
    alloc: Global,
    family: u32,
    key: u8,
    ts: u64,
    value: Option<u8>,
) -> Result<CoreEvent, Fail> {
    let op = write_op(alloc, family, key, ts, value)?;
    let batch = Batch::of(vec![in alloc; op]?)?;
    Ok(CoreEvent::Write { batch })
}

/// The start of a compaction of these tables.
fn compaction(alloc: Global, family: u32, tables: &[u64], level: u32) -> Result<CoreEvent, Fail> {
    let mut inputs = Vec::new(alloc);
    for table in tables {
        inputs.push(*table)?;
    }
    Ok(CoreEvent::CompactStart {
        family: Family(family),
        inputs: Items::of(inputs),
        level,
    })
}

/// The end of a compaction with these tables.
fn ended(alloc: Global, tables: &[(u64, u64)]) -> Result<CoreEvent, Fail> {
    let mut pieces = Vec::new(alloc);
    for (table, count) in tables {
        pieces.push(Piece {
            table: *table,
            count: *count,
        })?;
    }
    Ok(CoreEvent::CompactEnd {
        pieces: Items::of(pieces),
    })
}

/// The event of a row.
fn event(alloc: Global, ask: Ask) -> Result<CoreEvent, Fail> {
    Ok(match ask {
        Ask::Write(family, key, ts, value) => write(alloc, family, key, ts, value)?,
        Ask::Get(family, key, t, snap) => CoreEvent::Get {
            family: Family(family),
            key: Key::of(alloc, &[key])?,
            t: Ts(t),
            snap,
        },
        Ask::PinnedGet(pin, family, key, t, snap) => CoreEvent::PinnedGet {
            pin,
            family: Family(family),
            key: Key::of(alloc, &[key])?,
            t: Ts(t),
            snap,
        },
        Ask::Raise(family, floor) => CoreEvent::Raise {
            family: Family(family),
            floor: Ts(floor),
        },
        Ask::Snap => CoreEvent::Snap,
        Ask::Release(id) => CoreEvent::Release { id },
        Ask::Pin => CoreEvent::Pin,
        Ask::FlushStart(family) => CoreEvent::FlushStart {
            family: Family(family),
        },
        Ask::FlushEnd(table) => CoreEvent::FlushEnd { table },
        Ask::FlushDrop => CoreEvent::FlushDrop,
        Ask::CompactStart(family, tables, level) => compaction(alloc, family, tables, level)?,
        Ask::CompactEnd(tables) => ended(alloc, tables)?,
        Ask::CompactDrop => CoreEvent::CompactDrop,
        Ask::Halt => CoreEvent::Halt,
    })
}

impl Told {
    pub fn of_read(read: &ModelRead) -> Told {
        match read {
            ModelRead::Collapsed { floor } => Told::Collapsed(floor.0),
            ModelRead::Told(Answer::Absent) => Told::Absent,
            ModelRead::Told(Answer::Found { value, stamp }) => match value.bytes() {
                [byte] => Told::Found(*byte, *stamp),
                _ => Told::Absent,
            },
        }
    }

    fn of(reply: &CoreReply) -> Told {
        match reply {
            CoreReply::Done => Told::Done,
            CoreReply::Written { last } => Told::Written(last.0),
            CoreReply::Read(read) => Told::of_read(read),
            CoreReply::Refused => Told::Refused,
        }
    }
}

/// What the core replies to the event of a row.
pub fn reply_to(alloc: Global, core: &mut Core, ask: Ask) -> Result<Told, Fail> {
    let reply = core.step(&event(alloc, ask)?)?;
    Ok(Told::of(&reply))
}

/// A core with one family of this form replies to each row what stands there.
pub fn replies(
    rt: &(impl Abort + AllocGlobal),
    form: Form,
    rows: &[(Ask, Told)],
) -> Result<(), Fail> {
    let alloc = rt.alloc();
    let mut core = Core::fresh(vec![in alloc; form]?)?;
    for (ask, wanted) in rows {
        assert_eq!(rt; reply_to(alloc, &mut core, *ask)?, *wanted, "{ask:?}");
    }
    Ok(())
}
