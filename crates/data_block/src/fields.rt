//! The parts of an entry, as they stand at the front of bytes.

ghost use Rattle.std.specs.Prelude.{◌≡◌, ◌<◌, ◌^◌, ◌++◌, MatchOption, length};
ghost use Rattle.ts_key.specs.Numbers.{number_bytes};
ghost use Rattle.data_block.specs.Fields.{ReadsFields};

use ts_key::coding::{u16_of, u32_of};

/// The parts of an entry, and the bytes behind it.
#[derive(Clone, Copy, Debug)]
pub(crate) struct Fields<'a> {
    /// How many bytes its stored key shares with the one before it.
    pub(crate) shared: usize,
    /// The other bytes of the stored key.
    pub(crate) key: &'a [u8],
    pub(crate) value: &'a [u8],
    pub(crate) rest: &'a [u8],
}

fn u16_at(bytes: &[u8]) -> Option<(u16, &[u8])>
    ensures { MatchOption result (length bytes.now < 2) (λ x. (x.0 < 2 ^ 16) × (bytes.now ≡ number_bytes 2 x.0 ++ x.1.now)) }
{
    if bytes.len() < 2 {
        return None;
    }
    let (front, rest) = bytes.split_at(2);
    let n = u16_of(front);
    Some((n, rest))
}

fn u32_at(bytes: &[u8]) -> Option<(u32, &[u8])>
    ensures { MatchOption result (length bytes.now < 4) (λ x. (x.0 < 2 ^ 32) × (bytes.now ≡ number_bytes 4 x.0 ++ x.1.now)) }
{
    if bytes.len() < 4 {
        return None;
    }
    let (front, rest) = bytes.split_at(4);
    let n = u32_of(front);
    Some((n, rest))
}

fn part_at(bytes: &[u8], n: usize) -> Option<(&[u8], &[u8])>
    ensures { MatchOption result (length bytes.now < n) (λ x. (length x.0.now ≡ n) × (bytes.now ≡ x.0.now ++ x.1.now)) }
{
    if bytes.len() < n {
        return None;
    }
    Some(bytes.split_at(n))
}

/// The parts of the entry at the front, where there is one.
pub(crate) fn fields_at(bytes: &[u8]) -> Option<Fields<'_>>
    ensures { ReadsFields bytes.now result }
{
    let (shared, rest) = u16_at(bytes)?;
    let (key_len, rest) = u16_at(rest)?;
    let (value_len, rest) = u32_at(rest)?;
    let (key, rest) = part_at(rest, key_len as usize)?;
    let (value, rest) = part_at(rest, value_len as usize)?;
    Some(Fields {
        shared: shared as usize,
        key,
        value,
        rest,
    })
}
