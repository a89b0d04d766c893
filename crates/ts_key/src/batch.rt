//! Operations of a write, and batches of them.
ghost use Rattle.std.specs.Prelude.{◌≡◌, ℕ, ◌<◌, [], length, All, IsOk, IsNone, IfNone, IfOk, IfErr, OnOk};
ghost use Rattle.ts_key.specs.Batches.{IsBatch, IsBatchFault, IsBadStamp, IsStamped, first_bad_stamp as first_bad};

use crate::NoMemory;
use crate::bytes::Key;
use crate::limits::BATCH_LIMIT;
use crate::numbers::{Family, Seq, Ts};
use crate::version::{Op, Version};
use std::marker::Model;

/// An operation on a key of a family, at a timestamp.
#[derive(Debug, Drop)]
pub struct WriteOp {
    pub family: Family,
    pub key: Key,
    pub ts: Ts,
    pub op: Op,
}

/// Why operations are no batch.
#[derive(Clone, Copy, Debug, PartialEq, Eq)]
pub enum BatchFault {
    /// There is no operation.
    Empty,
    /// There are `count` operations, more than `BATCH_LIMIT`.
    TooMany { count: u64 },
    /// Operation number `op`, counted from 1, is the first whose timestamp is the greatest number.
    BadStamp { op: u32 },
}

/// Operations that are written together: 1 to `BATCH_LIMIT`, no timestamp the greatest number.
#[derive(Debug, Drop)]
pub struct Batch {
    ops: Vec<WriteOp>,
}

impl Model for Batch {
    ghost use Rattle.std.specs.Prelude.{List};
    ghost use Rattle.ts_key.specs.declared.batch.WriteOp.{WriteOp};

    ghost Value = { List WriteOp };

    ghost use Rattle.ts_key.specs.Batches.{IsBatch};

    ghost view = { λ b. b.ops.items };

    ghost invariant = { λ b. IsBatch b.ops.items };
}

impl WriteOp {
    /// The same operation, which shares the bytes of the key and the value.
    pub fn copy(&self) -> Result<WriteOp, NoMemory>
        ensures { IfOk result (λ op. op ≡ self.now) }
    {
        Ok(WriteOp {
            family: self.family,
            key: self.key.copy()?,
            ts: self.ts,
            op: self.op.copy()?,
        })
    }

    /// The version that the operation makes under a sequence. It shares the bytes of the key and the value.
    pub fn version(&self, sequence: Seq) -> Result<Version, NoMemory>
        ensures { IfOk result (λ v. v ≡ record { family = self.now.family; key = self.now.key; ts = self.now.ts; seq = sequence; op = self.now.op }) }
    {
        Ok(Version {
            family: self.family,
            key: self.key.copy()?,
            ts: self.ts,
            seq: sequence,
            op: self.op.copy()?,
        })
    }
}

impl Batch {
    /// The batch of these operations. `Empty` comes exactly where there is none, else `TooMany` exactly where they are more
    /// than `BATCH_LIMIT`, else `BadStamp` exactly where a timestamp is the greatest number.
    pub fn of(ops: Vec<WriteOp>) -> Result<Batch, BatchFault>
        ensures batch { IfOk result (λ batch. batch ≡ ops.items) }
        ensures valid { OnOk result (IsBatch ops.items) }
        ensures taken { IsBatch ops.items → IsOk result }

        ensures refused { IfErr result (IsBatchFault ops.items) }
        ensures empty { ops.items ≡ [] → result ≡ Err BatchFault.Empty }
        ensures too_many { BATCH_LIMIT < length ops.items → result ≡ Err (BatchFault.TooMany (length ops.items)) }
        ensures bad_stamp { (op : ℕ) → IsBadStamp ops.items op → result ≡ Err (BatchFault.BadStamp op) }
    {
        if ops.is_empty() {
            return Err(BatchFault::Empty);
        }
        if ops.len() > BATCH_LIMIT {
            return Err(BatchFault::TooMany {
                count: ops.len() as u64,
            });
        }
        match first_bad_stamp(&ops) {
            Some(index) => Err(BatchFault::BadStamp {
                op: index as u32 + 1,
            }),
            None => Ok(Batch { ops }),
        }
    }

    /// The operations, in their order.
    pub fn ops(&self) -> &[WriteOp]
        ensures ops { result.now ≡ self.now }
        ensures valid { IsBatch self.now }
    {
        &self.ops
    }
}

/// The index of the first operation whose timestamp is the greatest number.
fn first_bad_stamp(ops: &[WriteOp]) -> Option<usize>
    ensures first { result ≡ first_bad ops.now }
    ensures stamped { IfNone result (All IsStamped ops.now) }
    ensures none { All IsStamped ops.now → IsNone result }
{
    ops.iter().position(|op| op.ts.0 == u64::MAX)
}
