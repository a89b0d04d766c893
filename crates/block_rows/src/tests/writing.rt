//! What the tests of blocks share: versions that are pushed, images that are read.

ghost use Rattle.std.specs.Prelude.{◌≡◌};
ghost use Rattle.std.specs.Bool.{OnTrue};
ghost use Rattle.ts_key.specs.StoredKeys.{IsStamp, IsSequence};

use bytes::Bytes;
use data_block::{Block, BlockFault, BlockWriter};
use std::alloc::Global;
use std::test::Fail;
use ts_key::{
    Family, Form, Hit, Key, KeyRef, Op, SEQUENCE_LIMIT, STAMP_LIMIT, Seq, Ts, Value, Version,
};

/// A put of a key.
pub fn put(alloc: Global, key: &[u8], ts: u64, seq: u64, value: &[u8]) -> Result<Version, Fail> {
    Ok(Version {
        family: Family(0),
        key: Key::of(alloc, key)?,
        ts: Ts(ts),
        seq: Seq(seq),
        op: Op::Put(Value::of(alloc, value)?),
    })
}

fn is_stamp(form: Form, ts: Ts) -> bool
    ensures { OnTrue result (IsStamp form ts.0) }
{
    match form {
        Form::Persist => ts.0 <= STAMP_LIMIT,
        Form::Strip => ts.0 == 0,
    }
}

fn is_sequence(seq: Seq) -> bool
    ensures { OnTrue result (IsSequence seq.0) }
{
    seq.0 >= 1 && seq.0 <= SEQUENCE_LIMIT
}

/// A writer and its form.
#[derive(Drop)]
pub struct Writing {
    writer: BlockWriter,
    form: Form,
    ghost same: { writer.form ≡ form },
}

impl Writing {
    pub fn new(alloc: Global, form: Form) -> Result<Writing, Fail> {
        let writer = BlockWriter::new(alloc, form)?;
        Ok(Writing { writer, form })
    }

    pub fn push(&mut self, v: &Version) -> Result<(), Fail> {
        if self.writer.full() || !is_stamp(self.form, v.ts) || !is_sequence(v.seq) {
            return Err(Fail::new("this version can't be pushed"));
        }
        self.writer.push(v)?;
        Ok(())
    }

    pub fn finish(self) -> Result<Vec<u8>, Fail> {
        let Writing { writer, form: _ } = self;
        Ok(writer.finish()?)
    }
}

pub fn read(alloc: Global, image: &[u8], form: Form) -> Result<Result<Block, BlockFault>, Fail> {
    let image = Bytes::copy_from_slice(alloc, image)?;
    Ok(Block::read(alloc, image, form))
}

/// The image is outside the grammar.
pub fn is_bad(alloc: Global, image: &[u8], form: Form) -> Result<bool, Fail> {
    match read(alloc, image, form)?.err() {
        Some(BlockFault::Bad { at }) => Ok(at <= image.len() as u64),
        _ => Ok(false),
    }
}

pub fn is_hit(v: &Version, hit: &Hit<'_>) -> bool {
    hit.ts == v.ts && hit.seq == v.seq && hit.kind == v.op.kind() && hit.value == v.op.value()
}

pub fn is_shown(v: &Version, key: &KeyRef<'_>, hit: &Hit<'_>) -> bool {
    key.key == v.key.bytes() && is_hit(v, hit)
}
