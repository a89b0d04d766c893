//! Common prefixes of strings of bytes, 32 bytes at a time.
ghost use Rattle.std.specs.Prelude.{◌≡◌, ◌≤◌, ◌<◌, ◌+◌, length, drop, min, nat_eq};
ghost use Rattle.std.specs.List.{common_prefix_len};
ghost use Rattle.std.specs.Simd.Lanes.{chunk};

use std::simd::prelude::*;

/// The bytes that are compared at once.
const LANES: usize = 32;

/// The greatest number, at most both lengths, for which so many first bytes are the same in both.
pub fn common_prefix(a: &[u8], b: &[u8]) -> usize
    ensures { result ≡ common_prefix_len nat_eq a.now b.now }
{
    let both = a.len().min(b.len());
    let at = same_blocks(a, b, both);
    if at + LANES <= both {
        at + prefix_in(a, b, at)
    } else {
        prefix_from(a, b, at, both)
    }
}

/// How many bytes are in the blocks from the front on that are the same in both.
fn same_blocks(a: &[u8], b: &[u8], both: usize) -> usize
    requires { both ≡ min (length a.now) (length b.now) }
    ensures within { result ≤ both }
    ensures same { result + common_prefix_len nat_eq (drop result a.now) (drop result b.now) ≡ common_prefix_len nat_eq a.now b.now }
    ensures ends { result + LANES ≤ both → common_prefix_len nat_eq (chunk result LANES a.now) (chunk result LANES b.now) < LANES }
{
    let mut at = 0;
    while at + LANES <= both {
        if prefix_in(a, b, at) < LANES {
            return at;
        }
        at += LANES;
    }
    at
}

/// How many bytes from the front on are the same in the blocks at a place.
fn prefix_in(a: &[u8], b: &[u8], at: usize) -> usize
    requires in_a { at + LANES ≤ length a.now }
    requires in_b { at + LANES ≤ length b.now }
    ensures value { result ≡ common_prefix_len nat_eq (chunk at LANES a.now) (chunk at LANES b.now) }
    ensures within { result ≤ LANES }
{
    let left = u8x32::from_slice(&a[at..]);
    let right = u8x32::from_slice(&b[at..]);
    let apart = left.simd_ne(right).to_bitmask();
    if apart == 0 {
        LANES
    } else {
        apart.trailing_zeros() as usize
    }
}

/// The common prefix, where the bytes up to a place are the same, one by one.
fn prefix_from(a: &[u8], b: &[u8], from: usize, both: usize) -> usize
    requires both { both ≡ min (length a.now) (length b.now) }
    requires from { from ≤ both }
    ensures { result ≡ from + common_prefix_len nat_eq (drop from a.now) (drop from b.now) }
{
    let mut at = from;
    while at < both {
        if a[at] != b[at] {
            return at;
        }
        at += 1;
    }
    at
}
