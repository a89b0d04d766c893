//! Versions whose bytes are lent.

use crate::numbers::{Seq, Ts};
use crate::version::Kind;

/// Where a version stands in the stored order.
#[derive(Clone, Copy, Debug)]
pub struct KeyRef<'a> {
    pub key: &'a [u8],
    pub ts: Ts,
    pub seq: Seq,
}

/// What a look-up of a key found. The value of a delete is empty.
#[derive(Clone, Copy, Debug)]
pub struct Hit<'a> {
    pub ts: Ts,
    pub seq: Seq,
    pub kind: Kind,
    pub value: &'a [u8],
}
