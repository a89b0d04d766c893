//! The restarts behind the entries of a block.

ghost use Rattle.std.specs.Prelude.{◌≡◌, ◌<◌, ◌^◌, All, MatchOption, IfOk, IsTrue, ◌↔◌};
ghost use Rattle.data_block.specs.Grammar.{numbers, AreShort};
ghost use Rattle.data_block.specs.Faults.{EndsAt, HasNoEnd};

use crate::NoMemory;
use crate::writer::put_numbers;
use std::alloc::Global;
use ts_key::coding::u32_of;

/// Where the entries end, and the restarts and their count begin; none where these don't fit.
pub(crate) fn entries_end(image: &[u8]) -> Option<usize>
    ensures { MatchOption result (HasNoEnd image.now) (EndsAt image.now) }
{
    if image.len() < 4 {
        return None;
    }
    let (front, last) = image.split_at(image.len() - 4);
    let count = u32_of(last) as usize;
    if front.len() < 4 * count {
        return None;
    }
    Some(front.len() - 4 * count)
}

/// The numbers as numbers of 32 bits, where each is one.
fn narrowed(alloc: Global, ns: &[usize]) -> Result<Option<Vec<u32>>, NoMemory>
    ensures { IfOk result (λ o. MatchOption o (All (λ n. n < 2 ^ 32) ns.now → ⊥) (λ out. All (λ n. n < 2 ^ 32) ns.now × (out.items ≡ ns.now))) }
{
    let mut out = Vec::new(alloc);
    for n in ns {
        if *n > u32::MAX as usize {
            return Ok(None);
        }
        out.push(*n as u32)?;
    }
    Ok(Some(out))
}

/// The tail of a block is these restarts and their count.
pub(crate) fn is_tail(alloc: Global, tail: &[u8], ns: &[usize]) -> Result<bool, NoMemory>
    ensures { IfOk result (λ same. IsTrue same ↔ (AreShort ns.now × (tail.now ≡ numbers ns.now))) }
{
    if ns.len() > u32::MAX as usize {
        return Ok(false);
    }
    let Some(short) = narrowed(alloc, ns)? else {
        return Ok(false);
    };
    let mut spelled = Vec::new(alloc);
    put_numbers(&mut spelled, &short)?;
    Ok(tail == spelled.as_slice())
}
