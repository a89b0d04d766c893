//! The sequences of batches, which have no gap inside a log.

ghost use Rattle.std.specs.Prelude.{◌≡◌, ◌+◌, ◌^◌, ◌<◌, ◌≤◌, length, All, IsTrue};
ghost use Rattle.std.specs.Bool.{OnTrue, OnFalse};
ghost use Rattle.wal.specs.Sequences.{sequence_after as sequence_behind, next_sequence as next_of, IsNextSequence, GoesOn, IsNumberedWithin};

use crate::numbered::Numbered;

/// One above the last sequence of a batch.
fn sequence_after(numbered: &Numbered) -> u64
    requires { IsNumberedWithin numbered.now }
    ensures { result ≡ sequence_behind numbered.now }
{
    numbered.first.0 + numbered.batch.ops().len() as u64
}

/// The sequence that the batch behind these begins with. Behind none it is free.
pub(crate) fn next_sequence(batches: &[Numbered]) -> Option<u64>
    requires { All IsNumberedWithin batches.now }
    ensures { result ≡ next_of batches.now }
{
    let last = batches.last()?;
    Some(sequence_after(last))
}

fn is_next(next: Option<u64>, first: u64) -> bool
    ensures yes { OnTrue result (IsNextSequence next first) }
    ensures no { OnFalse result (¬ IsNextSequence next first) }
{
    match next {
        Some(n) => first == n,
        None => true,
    }
}

/// Do these batches go on without a gap, the first of them with the sequence `next`?
pub(crate) fn goes_on(next: Option<u64>, batches: &[Numbered]) -> bool
    requires { All IsNumberedWithin batches.now }
    ensures yes { OnTrue result (GoesOn next batches.now) }
    ensures no { OnFalse result (¬ GoesOn next batches.now) }
{
    let mut wanted = next;
    for numbered in batches {
        if !is_next(wanted, numbered.first.0) {
            return false;
        }
        wanted = Some(sequence_after(numbered));
    }
    true
}
