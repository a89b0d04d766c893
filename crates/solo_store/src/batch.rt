//! The batch of a write.

ghost use Rattle.std.specs.Prelude.{◌≡◌, ◌^◌, ◌<◌, length, map, IfOk};
ghost use Rattle.ts_key.specs.Batches.{IsBatch};
ghost use Rattle.solo_store.specs.Names.{op_named};

use crate::NoMemory;
use crate::names::family_named;
use std::alloc::Global;
use ts_key::{Batch, Name, WriteOp};
use udt_model::NamedOp;

/// The operation by its family's number. It shares the bytes of the key and of the value.
fn op_of(names: &[Name], op: &NamedOp) -> Result<WriteOp, NoMemory>
    requires { length names.now < 2 ^ 32 }
    ensures { IfOk result (λ made. made ≡ op_named names.now op.now) }
{
    Ok(WriteOp {
        family: family_named(names, &op.family),
        key: op.key.copy()?,
        ts: op.ts,
        op: op.op.copy()?,
    })
}

/// The batch of these operations.
pub(crate) fn batch_of(alloc: Global, names: &[Name], ops: &[NamedOp]) -> Result<Batch, NoMemory>
    requires names { length names.now < 2 ^ 32 }
    requires batch { IsBatch (map (op_named names.now) ops.now) }
    ensures { IfOk result (λ batch. batch ≡ map (op_named names.now) ops.now) }
{
    let mut made = Vec::with_capacity(alloc, ops.len())?;
    for op in ops {
        made.push(op_of(names, op)?)?;
    }
    match Batch::of(made) {
        Ok(batch) => Ok(batch),
        Err(_) => unreachable!(),
    }
}
