//! The format of a log file. It is a gate log, and the body of each of its frames is records to its end:
//!
//!    body      := sizes batch+                                     in the first frame
//!               | batch+                                           in each later one
//!    sizes     := 0x01 count:u32 (family:u32 size:u8)*             all families of the folder, in order
//!    batch     := 0x02 first:u64 count:u8 operation*               1 to 64 operations
//!    operation := family:u32 0x00 ts:u64 length:u16 key            a delete
//!               | family:u32 0x01 ts:u64 length:u16 key length:u32 value
//!
//! Numbers are little-endian. A family is in the list, a timestamp is at most 2^64 - 2, a key has at most 1,024 bytes and a
//! value at most 65,536. The operations of a batch have the sequences from `first` on, which are 1 to 2^56 - 1, and each
//! batch of a log goes on where the one before it ends.

ghost use Rattle.std.specs.Prelude.{◌≡◌, ◌≤◌, ◌++◌, ◌∷◌, [], List, length, All, OnOk};
ghost use Rattle.std.specs.List.{flat_map};
ghost use Rattle.ts_key.specs.Numbers.{number_bytes};
ghost use Rattle.wal.specs.Records.{kind_code, value_bytes, op_head, op_bytes, batch_bytes, sizes_bytes, families_bytes, IsShortValue};
ghost use Rattle.ts_key.specs.Batches.{IsBatch};
ghost use Rattle.ts_key.specs.Writing.{Extends};
ghost use Rattle.wal.specs.Writing.{IsShortOp};

use crate::NoMemory;
use crate::head::{BATCH_TAG, SIZES_TAG};
use ts_key::coding::{put_bytes, put_u8, put_u16, put_u32, put_u64};
use ts_key::{Batch, FAMILY_LIMIT, Op, Seq, WriteOp};

fn kind_byte(op: &Op) -> u8
    ensures { result ≡ kind_code op.now }
{
    match op {
        Op::Put(_) => 1,
        Op::Del => 0,
    }
}

/// Adds the value of a put, behind its length.
#[tactic(auto, using(ts_key::proofs::Writing::extends_on, std::proofs::lemmas::List::append_assoc))]
fn put_value(out: &mut Vec<u8>, op: &Op) -> Result<(), NoMemory>
    ensures written { OnOk result (out.new.items ≡ out.old.items ++ value_bytes op.now) }
    ensures short { OnOk result (IsShortValue op.now) }
    ensures extends { Extends out.old.items out.new.items }
{
    match op {
        Op::Put(value) => {
            let bytes = value.bytes();
            put_u32(out, bytes.len() as u32)?;
            put_bytes(out, bytes)
        }
        Op::Del => Ok(()),
    }
}

/// Adds the family and the kind of an operation.
#[tactic(auto, using(ts_key::proofs::Writing::extends_on, std::proofs::lemmas::List::append_assoc))]
fn put_op_kind(out: &mut Vec<u8>, op: &WriteOp) -> Result<(), NoMemory>
    ensures written { OnOk result (out.new.items ≡ out.old.items ++ (number_bytes 4 op.now.family.0 ++ kind_code op.now.op ∷ [])) }
    ensures extends { Extends out.old.items out.new.items }
{
    put_u32(out, op.family.0)?;
    put_u8(out, kind_byte(&op.op))
}

/// Adds what stands before the key of an operation.
#[tactic(auto, using(ts_key::proofs::Writing::extends_on, std::proofs::lemmas::List::append_assoc))]
fn put_op_head(out: &mut Vec<u8>, op: &WriteOp, key_len: u16) -> Result<(), NoMemory>
    ensures written { OnOk result (out.new.items ≡ out.old.items ++ op_head op.now.family.0 (kind_code op.now.op) op.now.ts.0 key_len) }
    ensures extends { Extends out.old.items out.new.items }
{
    put_op_kind(out, op)?;
    put_u64(out, op.ts.0)?;
    put_u16(out, key_len)
}

#[tactic(auto, using(ts_key::proofs::Writing::extends_on, std::proofs::lemmas::List::append_assoc))]
fn put_op(out: &mut Vec<u8>, op: &WriteOp) -> Result<(), NoMemory>
    ensures written { OnOk result (out.new.items ≡ out.old.items ++ op_bytes op.now) }
    ensures short { OnOk result (IsShortOp op.now) }
    ensures extends { Extends out.old.items out.new.items }
{
    let key = op.key.bytes();
    put_op_head(out, op, key.len() as u16)?;
    put_bytes(out, key)?;
    put_value(out, &op.op)
}

#[tactic(auto, using(ts_key::proofs::Writing::extends_on, std::proofs::lemmas::List::append_assoc))]
fn put_ops(out: &mut Vec<u8>, ops: &[WriteOp]) -> Result<(), NoMemory>
    ensures written { OnOk result (out.new.items ≡ out.old.items ++ flat_map op_bytes ops.now) }
    ensures short { OnOk result (All IsShortOp ops.now) }
    ensures extends { Extends out.old.items out.new.items }
{
    for op in ops {
        put_op(out, op)?;
    }
    Ok(())
}

/// Adds the record of a batch.
#[tactic(auto, using(ts_key::proofs::Writing::extends_on, std::proofs::lemmas::List::append_assoc))]
pub(crate) fn put_batch(out: &mut Vec<u8>, first: Seq, batch: &Batch) -> Result<(), NoMemory>
    ensures written { OnOk result (out.new.items ≡ out.old.items ++ batch_bytes (record { first = first; batch = batch.now })) }
    ensures valid { IsBatch batch.now }
    ensures short { OnOk result (All IsShortOp batch.now) }
    ensures extends { Extends out.old.items out.new.items }
{
    let ops = batch.ops();
    put_bytes(out, &[BATCH_TAG])?;
    put_u64(out, first.0)?;
    put_bytes(out, &[ops.len() as u8])?;
    put_ops(out, ops)
}

#[tactic(auto, using(ts_key::proofs::Writing::extends_on, std::proofs::lemmas::List::append_assoc))]
fn put_families(out: &mut Vec<u8>, sizes: &[u8]) -> Result<(), NoMemory>
    requires { length sizes.now ≤ FAMILY_LIMIT }
    ensures written { OnOk result (out.new.items ≡ out.old.items ++ families_bytes 0 sizes.now) }
    ensures extends { Extends out.old.items out.new.items }
{
    for (family, size) in sizes.iter().enumerate() {
        put_u32(out, family as u32)?;
        put_bytes(out, &[*size])?;
    }
    Ok(())
}

/// Adds the size record.
#[tactic(auto, using(ts_key::proofs::Writing::extends_on, std::proofs::lemmas::List::append_assoc))]
pub(crate) fn put_sizes(out: &mut Vec<u8>, sizes: &[u8]) -> Result<(), NoMemory>
    requires { length sizes.now ≤ FAMILY_LIMIT }
    ensures written { OnOk result (out.new.items ≡ out.old.items ++ sizes_bytes sizes.now) }
    ensures extends { Extends out.old.items out.new.items }
{
    put_bytes(out, &[SIZES_TAG])?;
    put_u32(out, sizes.len() as u32)?;
    put_families(out, sizes)
}
