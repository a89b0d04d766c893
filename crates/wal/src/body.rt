//! Reads the bodies of frames: the records of a log file, from the front of the bytes on.

ghost use Rattle.std.specs.Prelude.{◌≡◌, ℕ, ◌<◌, ◌≤◌, List, ◌++◌, length, All, ⊤, MatchResult};
ghost use Rattle.std.specs.List.{flat_map};
ghost use Rattle.ts_key.specs.Numbers.{number_bytes};
ghost use Rattle.ts_key.specs.Reading.{ReadsFront, StandsBehind};
ghost use Rattle.wal.specs.Reading.{BodyFaultTells};
ghost use Rattle.wal.specs.declared.fault.BodyFault.TheVariants.{Bad};
ghost use Rattle.wal.specs.Bodies.{front_bytes, AreBatches, ReadsBody};
ghost use Rattle.wal.specs.Heads.{op_head_bytes, batch_head_bytes, IsAllowedOpHead, IsAllowedBatchHead};
ghost use Rattle.wal.specs.Records.{kind_code, value_bytes, op_bytes, batch_bytes, IsShortValue, IsLoggedOp, IsLoggedBatch};

use crate::fault::BodyFault;
use crate::head::{BATCH_HEAD_LEN, BatchHead, OP_HEAD_LEN, OpHead};
use crate::numbered::Numbered;
use crate::record::put_sizes;
use crate::sizes::Sizes;
use std::alloc::{AllocError, Global};
use ts_key::coding::{Reader, Truncated, u32_of};
use ts_key::{
    Batch, FAMILY_LIMIT, Family, KEY_LIMIT, Key, Op, Seq, Ts, VALUE_LIMIT, Value, WriteOp,
};

/// The next `n` bytes. `Bad` comes exactly where there are fewer.
fn take<'a>(reader: &mut Reader<'a>, n: usize) -> Result<&'a [u8], BodyFault>
    ensures { MatchResult result
        (λ taken. (reader.old.left.now ≡ taken.now ++ reader.new.left.now) × (length taken.now ≡ n))
        (λ fault. (fault ≡ Bad) × (length reader.old.left.now < n)) }
{
    match reader.take(n) {
        Ok(taken) => Ok(taken),
        Err(Truncated) => Err(BodyFault::Bad),
    }
}

/// The next operation's head.
fn take_op_head(reader: &mut Reader<'_>, families: usize) -> Result<OpHead, BodyFault>
    requires { families ≤ FAMILY_LIMIT }
    ensures { ReadsFront BodyFaultTells (λ head. head) op_head_bytes (IsAllowedOpHead families) reader.old.left.now reader.new.left.now result }
{
    let head = OpHead::of(take(reader, OP_HEAD_LEN)?);
    if head.is_allowed(families) {
        Ok(head)
    } else {
        Err(BodyFault::Bad)
    }
}

/// The next `len` bytes as a key.
fn take_key(reader: &mut Reader<'_>, alloc: Global, len: usize) -> Result<Key, BodyFault>
    requires { len ≤ KEY_LIMIT }
    ensures { ReadsFront BodyFaultTells (λ key. key) (λ key. key) (λ key. length key ≡ len) reader.old.left.now reader.new.left.now result }
{
    match Key::of(alloc, take(reader, len)?) {
        Ok(key) => Ok(key),
        Err(_) => Err(BodyFault::NoMemory),
    }
}

/// The next value, behind its length.
fn take_value(reader: &mut Reader<'_>, alloc: Global) -> Result<Value, BodyFault>
    ensures { ReadsFront BodyFaultTells (λ value. value) (λ value. number_bytes 4 (length value) ++ value) (λ value. length value ≤ VALUE_LIMIT) reader.old.left.now reader.new.left.now result }
{
    let len = u32_of(take(reader, 4)?) as usize;
    if len > VALUE_LIMIT {
        return Err(BodyFault::Bad);
    }
    match Value::of(alloc, take(reader, len)?) {
        Ok(value) => Ok(value),
        Err(_) => Err(BodyFault::NoMemory),
    }
}

/// What an operation of this kind does.
fn take_change(reader: &mut Reader<'_>, alloc: Global, kind: u8) -> Result<Op, BodyFault>
    requires { kind ≤ 1 }
    ensures { ReadsFront BodyFaultTells (λ op. op) value_bytes (λ op. (kind_code op ≡ kind) × IsShortValue op) reader.old.left.now reader.new.left.now result }
{
    if kind == 0 {
        return Ok(Op::Del);
    }
    Ok(Op::Put(take_value(reader, alloc)?))
}

/// The next operation.
fn take_op(reader: &mut Reader<'_>, alloc: Global, families: usize) -> Result<WriteOp, BodyFault>
    requires { families ≤ FAMILY_LIMIT }
    ensures { ReadsFront BodyFaultTells (λ op. op) op_bytes (IsLoggedOp families) reader.old.left.now reader.new.left.now result }
{
    let head = take_op_head(reader, families)?;
    let key = take_key(reader, alloc, head.key_len as usize)?;
    let op = take_change(reader, alloc, head.kind)?;
    Ok(WriteOp {
        family: Family(head.family),
        key,
        ts: Ts(head.ts),
        op,
    })
}

/// The next `count` operations.
fn take_ops(
    reader: &mut Reader<'_>,
    alloc: Global,
    families: usize,
    count: usize,
) -> Result<Vec<WriteOp>, BodyFault>
    requires { families ≤ FAMILY_LIMIT }
    ensures { ReadsFront BodyFaultTells (λ ops. ops.items) (flat_map op_bytes) (λ ops. (length ops ≡ count) × All (IsLoggedOp families) ops) reader.old.left.now reader.new.left.now result }
{
    let mut ops = Vec::new(alloc);
    for _ in 0..count {
        let op = take_op(reader, alloc, families)?;
        ops.push(op).map_err(AllocError::from)?;
    }
    Ok(ops)
}

/// The next batch's head.
fn take_batch_head(reader: &mut Reader<'_>) -> Result<BatchHead, BodyFault>
    ensures { ReadsFront BodyFaultTells (λ head. head) batch_head_bytes IsAllowedBatchHead reader.old.left.now reader.new.left.now result }
{
    let Some(head) = BatchHead::of(take(reader, BATCH_HEAD_LEN)?) else {
        return Err(BodyFault::Bad);
    };
    if head.is_allowed() {
        Ok(head)
    } else {
        Err(BodyFault::Bad)
    }
}

/// The next batch record.
fn take_batch(
    reader: &mut Reader<'_>,
    alloc: Global,
    families: usize,
) -> Result<Numbered, BodyFault>
    requires { families ≤ FAMILY_LIMIT }
    ensures { ReadsFront BodyFaultTells (λ batch. batch) batch_bytes (IsLoggedBatch families) reader.old.left.now reader.new.left.now result }
{
    let head = take_batch_head(reader)?;
    let ops = take_ops(reader, alloc, families, head.count as usize)?;
    let Ok(batch) = Batch::of(ops) else {
        unreachable!()
    };
    Ok(Numbered {
        first: Seq(head.first),
        batch,
    })
}

/// The batches that these bytes are records of, to their end.
fn read_batches(alloc: Global, bytes: &[u8], families: usize) -> Result<Vec<Numbered>, BodyFault>
    requires { families ≤ FAMILY_LIMIT }
    ensures { AreBatches families bytes.now result }
{
    let mut reader = Reader { left: bytes };
    let mut batches = Vec::new(alloc);
    while !reader.left.is_empty() {
        let batch = take_batch(&mut reader, alloc, families)?;
        batches.push(batch).map_err(AllocError::from)?;
    }
    Ok(batches)
}

/// What stands behind a front. `Bad` comes exactly where the bytes don't begin so.
fn strip<'a>(bytes: &'a [u8], front: &[u8]) -> Result<&'a [u8], BodyFault>
    ensures { StandsBehind BodyFaultTells front.now bytes.now result }
{
    match bytes.strip_prefix(front) {
        Some(rest) => Ok(rest),
        None => Err(BodyFault::Bad),
    }
}

/// What stands behind the size record in the first body, and a whole body else.
fn behind_sizes<'a>(
    alloc: Global,
    body: &'a [u8],
    sizes: &Sizes,
    is_first: bool,
) -> Result<&'a [u8], BodyFault>
    ensures { StandsBehind BodyFaultTells (front_bytes sizes.now is_first) body.now result }
{
    if !is_first {
        return Ok(body);
    }
    let mut record = Vec::new(alloc);
    put_sizes(&mut record, sizes.sizes())?;
    strip(body, &record)
}

/// The batches that the body of a frame holds. `Bad` comes exactly where it is outside of the grammar.
pub(crate) fn read_body(
    alloc: Global,
    body: &[u8],
    sizes: &Sizes,
    is_first: bool,
) -> Result<Vec<Numbered>, BodyFault>
    ensures read { ReadsBody sizes.now is_first body.now result }
    ensures few { length sizes.now ≤ FAMILY_LIMIT }
{
    let families = sizes.sizes().len();
    let records = behind_sizes(alloc, body, sizes, is_first)?;
    if records.is_empty() {
        return Err(BodyFault::Bad);
    }
    read_batches(alloc, records, families)
}
