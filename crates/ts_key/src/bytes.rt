//! Keys and values: bytes that copies share.
ghost use Rattle.std.specs.Prelude.{◌≡◌, ◌<◌, ◌≤◌, length, IfOk, IfErr, OnOk};
ghost use Rattle.ts_key.specs.Bytes.{IsBytesFault};

use crate::NoMemory;
use crate::limits::{KEY_LIMIT, VALUE_LIMIT};
use std::alloc::{AllocError, Global};
use std::marker::Model;
use std::sync::ArcSlice;

/// Why bytes are no key or no value.
#[derive(Clone, Copy, Debug, PartialEq, Eq)]
pub enum BytesFault {
    /// The bytes are `len`, more than the limit.
    TooLong { len: u64 },
    /// Memory ran out.
    NoMemory,
}

impl From<AllocError> for BytesFault {
    ghost use Rattle.ts_key.specs.declared.bytes.BytesFault.{BytesFault};

    ghost from_gives = { λ _ fault. fault ≡ BytesFault.NoMemory };

    fn from(_: AllocError) -> BytesFault {
        BytesFault::NoMemory
    }
}

/// The bytes of a key, at most `KEY_LIMIT`, shared with its copies.
#[derive(Debug, Drop)]
pub struct Key {
    bytes: ArcSlice<u8>,
}

impl Model for Key {
    ghost use Rattle.std.specs.Prelude.{List, ℕ, ◌≤◌, length};
    ghost use Rattle.std.specs.Arc.{arc_slice_items};
    ghost use Rattle.ts_key.specs.declared.limits.TheConstants.{KEY_LIMIT};

    ghost Value = { List ℕ };

    ghost view = { λ k. arc_slice_items k.bytes };

    ghost invariant = { λ k. length (arc_slice_items k.bytes) ≤ KEY_LIMIT };
}

impl Key {
    /// The key of these bytes. `TooLong` comes exactly where they are more than `KEY_LIMIT`.
    pub fn of(alloc: Global, bytes: &[u8]) -> Result<Key, BytesFault>
        ensures key { IfOk result (λ key. key ≡ bytes.now) }
        ensures within { OnOk result (length bytes.now ≤ KEY_LIMIT) }

        ensures too_long { KEY_LIMIT < length bytes.now → result ≡ Err (BytesFault.TooLong (length bytes.now)) }
        ensures refused { IfErr result (IsBytesFault KEY_LIMIT bytes.now) }
    {
        if bytes.len() > KEY_LIMIT {
            return Err(BytesFault::TooLong {
                len: bytes.len() as u64,
            });
        }
        Ok(Key {
            bytes: ArcSlice::from_slice(alloc, bytes)?,
        })
    }

    /// The key's bytes.
    pub fn bytes(&self) -> &[u8]
        ensures bytes { result.now ≡ self.now }
        ensures within { length self.now ≤ KEY_LIMIT }
    {
        self.bytes.as_slice()
    }

    /// The same key, which shares the bytes.
    pub fn copy(&self) -> Result<Key, NoMemory>
        ensures { IfOk result (λ key. key ≡ self.now) }
    {
        Ok(Key {
            bytes: self.bytes.clone()?,
        })
    }
}

/// The bytes of a value, at most `VALUE_LIMIT`, shared with its copies.
#[derive(Debug, Drop)]
pub struct Value {
    bytes: ArcSlice<u8>,
}

impl Model for Value {
    ghost use Rattle.std.specs.Prelude.{List, ℕ, ◌≤◌, length};
    ghost use Rattle.std.specs.Arc.{arc_slice_items};
    ghost use Rattle.ts_key.specs.declared.limits.TheConstants.{VALUE_LIMIT};

    ghost Value = { List ℕ };

    ghost view = { λ v. arc_slice_items v.bytes };

    ghost invariant = { λ v. length (arc_slice_items v.bytes) ≤ VALUE_LIMIT };
}

impl Value {
    /// The value of these bytes. `TooLong` comes exactly where they are more than `VALUE_LIMIT`.
    pub fn of(alloc: Global, bytes: &[u8]) -> Result<Value, BytesFault>
        ensures value { IfOk result (λ value. value ≡ bytes.now) }
        ensures within { OnOk result (length bytes.now ≤ VALUE_LIMIT) }

        ensures too_long { VALUE_LIMIT < length bytes.now → result ≡ Err (BytesFault.TooLong (length bytes.now)) }
        ensures refused { IfErr result (IsBytesFault VALUE_LIMIT bytes.now) }
    {
        if bytes.len() > VALUE_LIMIT {
            return Err(BytesFault::TooLong {
                len: bytes.len() as u64,
            });
        }
        Ok(Value {
            bytes: ArcSlice::from_slice(alloc, bytes)?,
        })
    }

    /// The value's bytes.
    pub fn bytes(&self) -> &[u8]
        ensures bytes { result.now ≡ self.now }
        ensures within { length self.now ≤ VALUE_LIMIT }
    {
        self.bytes.as_slice()
    }

    /// The same value, which shares the bytes.
    pub fn copy(&self) -> Result<Value, NoMemory>
        ensures { IfOk result (λ value. value ≡ self.now) }
    {
        Ok(Value {
            bytes: self.bytes.clone()?,
        })
    }
}
