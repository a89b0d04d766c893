//! A column of numbers that tells where a key may stand. Nothing rests on it: a place that it tells is tried.

use std::alloc::Global;
use ts_key::{NoMemory, Version};
use ts_lanes::common_prefix;

/// From so many versions on the column is kept.
const LONG: usize = 64;

/// Of each version's key the eight bytes behind those that all keys share, as a number.
#[derive(Drop)]
pub struct Hints {
    shared: usize,
    numbers: Vec<u64>,
}

/// The eight bytes of the key from an index on, the first the highest; behind its end they are 0.
fn number_at(key: &[u8], from: usize) -> u64 {
    let mut number = 0u64;
    for i in 0..8 {
        let byte = match key.get(from.saturating_add(i)) {
            Some(b) => *b,
            None => 0,
        };
        number = number.wrapping_mul(256).wrapping_add(byte as u64);
    }
    number
}

/// How many bytes the first and the last key have in common, and so all between them.
fn shared_of(versions: &[Version]) -> usize {
    let Some(first) = versions.first() else {
        return 0;
    };
    let Some(last) = versions.last() else {
        return 0;
    };
    common_prefix(first.key.bytes(), last.key.bytes())
}

impl Hints {
    /// The numbers of versions in the stored order; none where the versions are few.
    pub fn of(alloc: Global, versions: &[Version]) -> Result<Hints, NoMemory> {
        let shared = shared_of(versions);
        let mut numbers = Vec::new(alloc);
        if versions.len() >= LONG {
            numbers = Vec::with_capacity(alloc, versions.len())?;
            for v in versions {
                numbers.push(number_at(v.key.bytes(), shared))?;
            }
        }
        Ok(Hints { shared, numbers })
    }

    /// Where the first version of the key may stand, found by halving; past every end where there are no numbers.
    pub fn place_of(&self, key: &[u8]) -> usize {
        if self.numbers.is_empty() {
            return usize::MAX;
        }
        let number = number_at(key, self.shared);
        self.numbers.partition_point(|n| *n < number)
    }
}
