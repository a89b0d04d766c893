//! A search among timestamps, 8 at a time.
ghost use Rattle.std.specs.Prelude.{◌≡◌, ◌≤◌, ◌<◌, ◌+◌, ℕ, length, drop, get_or, not, false, nat_le, MatchOption};
ghost use Rattle.std.specs.List.{prefix_len, position};
ghost use Rattle.std.specs.Simd.Lanes.{chunk};

use std::simd::prelude::*;

/// The timestamps that are compared at once.
const LANES: usize = 8;

/// The least index whose number is at most `t`.
pub fn first_at_most(ts: &[u64], t: u64) -> Option<usize>
    ensures { result ≡ position (λ x. nat_le x t) ts.now }
{
    let at = blocks_above(ts, t);
    if at + LANES <= ts.len() {
        Some(at + first_in(ts, at, t))
    } else {
        first_from(ts, at, t)
    }
}

/// How many numbers are in the blocks from the front on that are above `t`.
fn blocks_above(ts: &[u64], t: u64) -> usize
    ensures within { result ≤ length ts.now }
    ensures above { (k : ℕ) → k < result → nat_le (get_or ts.now k 0) t ≡ false }
    ensures ends { result + LANES ≤ length ts.now → prefix_len (λ x. not (nat_le x t)) (chunk result LANES ts.now) < LANES }
{
    let mut at = 0;
    while at + LANES <= ts.len() {
        if first_in(ts, at, t) < LANES {
            return at;
        }
        at += LANES;
    }
    at
}

/// How many numbers from the front on are above `t` in the block at a place.
fn first_in(ts: &[u64], at: usize, t: u64) -> usize
    requires { at + LANES ≤ length ts.now }
    ensures value { result ≡ prefix_len (λ x. not (nat_le x t)) (chunk at LANES ts.now) }
    ensures within { result ≤ LANES }
{
    let lanes = u64x8::from_slice(&ts[at..]);
    let low = lanes.simd_le(u64x8::splat(t)).to_bitmask();
    if low == 0 {
        LANES
    } else {
        low.trailing_zeros() as usize
    }
}

/// The search, where the numbers up to a place are above `t`, one by one.
fn first_from(ts: &[u64], from: usize, t: u64) -> Option<usize>
    requires within { from ≤ length ts.now }
    requires above { (k : ℕ) → k < from → nat_le (get_or ts.now k 0) t ≡ false }
    ensures { result ≡ position (λ x. nat_le x t) ts.now }
{
    let mut at = from;
    while at < ts.len() {
        if ts[at] <= t {
            return Some(at);
        }
        at += 1;
    }
    None
}
