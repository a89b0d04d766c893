//! Rows of versions, and the bounds of a range.
ghost use Rattle.std.specs.Prelude.{◌≡◌, IfOk};
ghost use Rattle.std.specs.Option.{option_copied};
ghost use Rattle.ts_key.specs.Items.{item_of, shown};
ghost use Rattle.udt_model.specs.Orders.{is_below as is_below_key};
ghost use Rattle.udt_model.specs.Reads.{stamp_of};
ghost use Rattle.ts_iterator.specs.Rows.{emit, is_past as is_past_bound, least_key};
ghost use Rattle.ts_iterator.specs.Helds.{held_item};
ghost use Rattle.ts_iterator.specs.Rests.{rows_given};

use crate::NoMemory;
use crate::held::Held;
use std::alloc::{AllocError, Global};
use ts_key::{Hit, Key, KeyRef, Kind, Op, Ts, Value, Version};
use udt_model::{Row, Stamp};

/// Whether the key isn't below the upper bound.
pub(crate) fn is_past(high: &Option<Key>, key: &[u8]) -> bool
    ensures { result ≡ is_past_bound high.now key.now }
{
    match high {
        None => false,
        Some(high) => !key.cmp(&high.bytes()).is_lt(),
    }
}

/// Whether the key is below the lower bound.
pub(crate) fn is_below(low: &Option<Key>, key: &[u8]) -> bool
    ensures { result ≡ is_below_key key.now (least_key low.now) }
{
    match low {
        None => false,
        Some(low) => key.cmp(&low.bytes()).is_lt(),
    }
}

/// The same bound, which shares the bytes.
pub(crate) fn bound(key: Option<&Key>) -> Result<Option<Key>, NoMemory>
    ensures { IfOk result (λ bound. bound ≡ option_copied key.entry) }
{
    match key {
        None => Ok(None),
        Some(key) => Ok(Some(key.copy()?)),
    }
}

/// The timestamp of a version, which isn't told below the floor.
fn stamp(floor: Ts, ts: Ts) -> Stamp
    ensures { result ≡ stamp_of floor ts }
{
    if ts.0 < floor.0 {
        Stamp::Below
    } else {
        Stamp::At(ts)
    }
}

fn key_of(alloc: Global, bytes: &[u8]) -> Result<Key, NoMemory>
    ensures { IfOk result (λ key. key ≡ bytes.now) }
{
    match Key::of(alloc, bytes) {
        Ok(key) => Ok(key),
        Err(_) => Err(AllocError),
    }
}

fn value_of(alloc: Global, bytes: &[u8]) -> Result<Value, NoMemory>
    ensures { IfOk result (λ value. value ≡ bytes.now) }
{
    match Value::of(alloc, bytes) {
        Ok(value) => Ok(value),
        Err(_) => Err(AllocError),
    }
}

/// The row of a whole version, which shares its bytes; a delete has none.
fn shared_row(floor: Ts, version: &Version) -> Result<Option<Row>, NoMemory>
    ensures { IfOk result (λ row. rows_given row ≡ emit floor (item_of version.now)) }
{
    match &version.op {
        Op::Del => Ok(None),
        Op::Put(value) => Ok(Some(Row {
            key: version.key.copy()?,
            value: value.copy()?,
            stamp: stamp(floor, version.ts),
        })),
    }
}

/// The row of a version whose bytes are lent; a delete has none.
fn copied_row(
    alloc: Global,
    floor: Ts,
    key: &KeyRef<'_>,
    hit: &Hit<'_>,
) -> Result<Option<Row>, NoMemory>
    ensures { IfOk result (λ row. rows_given row ≡ emit floor (shown (key.now, hit.now))) }
{
    match hit.kind {
        Kind::Del => Ok(None),
        Kind::Put => Ok(Some(Row {
            key: key_of(alloc, key.key)?,
            value: value_of(alloc, hit.value)?,
            stamp: stamp(floor, key.ts),
        })),
    }
}

/// The row of a version; a delete has none.
pub(crate) fn row_of(alloc: Global, floor: Ts, held: &Held<'_>) -> Result<Option<Row>, NoMemory>
    ensures { IfOk result (λ row. rows_given row ≡ emit floor (held_item held.now)) }
{
    match held {
        Held::Whole(version) => shared_row(floor, version),
        Held::Lent(key, hit) => copied_row(alloc, floor, key, hit),
    }
}
