//! Versions, and what they do to their keys.
ghost use Rattle.std.specs.Prelude.{◌≡◌, ◌≤◌, IfOk, length};
ghost use Rattle.ts_key.specs.Items.{kind_of, value_of, item_of, hit_at};
ghost use Rattle.ts_key.specs.Order.{sort_key_of};

use crate::NoMemory;
use crate::bytes::{Key, Value};
use crate::lent::{Hit, KeyRef};
use crate::limits::VALUE_LIMIT;
use crate::numbers::{Family, Seq, Ts};

/// What a version does to its key: deletes it or puts a value.
#[derive(Clone, Copy, Debug, PartialEq, Eq)]
pub enum Kind {
    Del,
    Put,
}

/// What is written at a key.
#[derive(Debug, Drop)]
pub enum Op {
    Put(Value),
    Del,
}

/// How a family's timestamps are kept: in its tables too, or only until its versions are flushed.
#[derive(Clone, Copy, Debug, PartialEq, Eq)]
pub enum Form {
    Persist,
    Strip,
}

/// What was written at a key of a family, at which timestamp and under which sequence number.
#[derive(Debug, Drop)]
pub struct Version {
    pub family: Family,
    pub key: Key,
    pub ts: Ts,
    pub seq: Seq,
    pub op: Op,
}

impl Op {
    /// The same operation, which shares the value's bytes.
    pub fn copy(&self) -> Result<Op, NoMemory>
        ensures { IfOk result (λ op. op ≡ self.now) }
    {
        match self {
            Op::Put(value) => Ok(Op::Put(value.copy()?)),
            Op::Del => Ok(Op::Del),
        }
    }

    /// Whether it deletes or puts.
    pub fn kind(&self) -> Kind
        ensures { result ≡ kind_of self.now }
    {
        match self {
            Op::Put(_) => Kind::Put,
            Op::Del => Kind::Del,
        }
    }

    /// The bytes of the value, of which a delete has none.
    pub fn value(&self) -> &[u8]
        ensures value { result.now ≡ value_of self.now }
        ensures within { length result.now ≤ VALUE_LIMIT }
    {
        match self {
            Op::Put(value) => value.bytes(),
            Op::Del => &[],
        }
    }
}

impl Version {
    /// The same version, which shares the bytes of the key and the value.
    pub fn copy(&self) -> Result<Version, NoMemory>
        ensures { IfOk result (λ version. version ≡ self.now) }
    {
        Ok(Version {
            family: self.family,
            key: self.key.copy()?,
            ts: self.ts,
            seq: self.seq,
            op: self.op.copy()?,
        })
    }

    /// Where it stands in the stored order.
    pub fn key_ref(&self) -> KeyRef<'_>
        ensures { sort_key_of result ≡ (item_of self.now).sort_key }
    {
        KeyRef {
            key: self.key.bytes(),
            ts: self.ts,
            seq: self.seq,
        }
    }

    /// What a look-up of its key shows.
    pub fn hit(&self) -> Hit<'_>
        ensures { hit_at self.now.key result ≡ item_of self.now }
    {
        Hit {
            ts: self.ts,
            seq: self.seq,
            kind: self.op.kind(),
            value: self.op.value(),
        }
    }
}
