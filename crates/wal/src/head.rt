//! What stands before the parts of the records of a log file.

ghost use Rattle.std.specs.Prelude.{◌≡◌, length, MatchOption};
ghost use Rattle.std.specs.Bool.{OnTrue, OnFalse};

use ts_key::coding::{u16_of, u32_of, u64_of};
use ts_key::{BATCH_LIMIT, KEY_LIMIT, SEQUENCE_LIMIT, STAMP_LIMIT};

/// The byte that begins the size record.
pub(crate) const SIZES_TAG: u8 = 1;

/// The byte that begins a batch record.
pub(crate) const BATCH_TAG: u8 = 2;

/// The bytes before the operations of a batch record.
pub(crate) const BATCH_HEAD_LEN: usize = 10;

/// The bytes before the key of an operation.
pub(crate) const OP_HEAD_LEN: usize = 15;

/// What stands before the key of an operation.
#[derive(Clone, Copy, Debug, Drop)]
pub(crate) struct OpHead {
    pub(crate) family: u32,
    pub(crate) kind: u8,
    pub(crate) ts: u64,
    pub(crate) key_len: u16,
}

/// What stands before the operations of a batch.
#[derive(Clone, Copy, Debug, Drop)]
pub(crate) struct BatchHead {
    pub(crate) first: u64,
    pub(crate) count: u8,
}

impl OpHead {
    ghost use Rattle.wal.specs.Heads.{IsAllowedOpHead, FitsOpHead, op_head_bytes};

    pub(crate) fn of(bytes: &[u8]) -> OpHead
        requires { length bytes.now ≡ OP_HEAD_LEN }
        ensures spelled { bytes.now ≡ op_head_bytes result }
        ensures fits { FitsOpHead result }
    {
        OpHead {
            family: u32_of(&bytes[..4]),
            kind: bytes[4],
            ts: u64_of(&bytes[5..13]),
            key_len: u16_of(&bytes[13..]),
        }
    }

    /// May an operation with this head stand in a log of this many families?
    pub(crate) fn is_allowed(&self, families: usize) -> bool
        ensures allowed { OnTrue result (IsAllowedOpHead families self.now) }
        ensures refused { OnFalse result (¬ IsAllowedOpHead families self.now) }
    {
        if self.family as usize >= families {
            return false;
        }
        if self.kind > 1 {
            return false;
        }
        if self.ts > STAMP_LIMIT {
            return false;
        }
        self.key_len as usize <= KEY_LIMIT
    }
}

impl BatchHead {
    ghost use Rattle.wal.specs.declared.head.BatchHead.{BatchHead as Head};
    ghost use Rattle.wal.specs.Heads.{IsAllowedBatchHead, FitsBatchHead, batch_head_bytes};

    /// The head in these bytes, where they begin as a batch record does.
    pub(crate) fn of(bytes: &[u8]) -> Option<BatchHead>
        requires { length bytes.now ≡ BATCH_HEAD_LEN }
        ensures { MatchOption result ((head : Head) → bytes.now ≡ batch_head_bytes head → ⊥) (λ head. (bytes.now ≡ batch_head_bytes head) × FitsBatchHead head) }
    {
        if bytes[0] != BATCH_TAG {
            return None;
        }
        Some(BatchHead {
            first: u64_of(&bytes[1..9]),
            count: bytes[9],
        })
    }

    /// May a batch with this head stand in a log?
    pub(crate) fn is_allowed(&self) -> bool
        ensures allowed { OnTrue result (IsAllowedBatchHead self.now) }
        ensures refused { OnFalse result (¬ IsAllowedBatchHead self.now) }
    {
        if self.count == 0 || self.count as usize > BATCH_LIMIT {
            return false;
        }
        if self.first == 0 || self.first > SEQUENCE_LIMIT {
            return false;
        }
        self.first + self.count as u64 <= SEQUENCE_LIMIT + 1
    }
}
