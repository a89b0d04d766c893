//! What logs say together: their versions above `through`, the sequence that comes next, and the first gap.

ghost use Rattle.std.specs.Prelude.{◌≡◌, ◌++◌, [], None, All, OnOk, slice_get};
ghost use Rattle.wal.specs.Sequences.{IsNumberedWithin};
ghost use Rattle.udt_model.specs.Versions.{logged};
ghost use Rattle.engine_laws.specs.Logs.{versions_of};
ghost use Rattle.recovery.specs.Replayed.{IsNextWithin, gap_behind, is_over, next_behind as next_of, starts_at as starts_at_next, above_through};

use crate::NoMemory;
use manifest_fold::FamilyFold;
use std::alloc::Global;
use ts_key::{Seq, Version, WriteOp};
use wal::Numbered;

/// What the logs that were read say together.
#[derive(Drop)]
pub(crate) struct Gathered {
    /// The versions above their family's `through`, in order.
    pub(crate) versions: Vec<Version>,
    /// The sequence that comes next, where there is a batch.
    pub(crate) next: Option<u64>,
    /// The first log whose batches don't go on where those before it end.
    pub(crate) gap: Option<u64>,
}

/// Whether an operation's version, under this sequence, is above its family's `through`.
fn is_unflushed(families: &[FamilyFold], op: &WriteOp, sequence: u64) -> bool
    ensures { result ≡ is_over (slice_get families.now op.now.family.0) sequence }
{
    match families.get(op.family.0 as usize) {
        None => false,
        Some(family) => family.through.0 < sequence,
    }
}

/// Adds the versions of a batch that are above their family's `through`.
fn push_batch(
    versions: &mut Vec<Version>,
    families: &[FamilyFold],
    numbered: &Numbered,
) -> Result<(), NoMemory>
    requires { IsNumberedWithin numbered.now }
    ensures { OnOk result (versions.new.items ≡ versions.old.items ++ above_through families.now (logged numbered.now.first.0 numbered.now.batch)) }
{
    let first = numbered.first.0;
    for (i, op) in numbered.batch.ops().iter().enumerate() {
        let sequence = first + i as u64;
        if is_unflushed(families, op, sequence) {
            versions.push(op.version(Seq(sequence))?)?;
        }
    }
    Ok(())
}

/// Adds those of batches.
fn push_batches(
    versions: &mut Vec<Version>,
    families: &[FamilyFold],
    batches: &[Numbered],
) -> Result<(), NoMemory>
    requires { All IsNumberedWithin batches.now }
    ensures { OnOk result (versions.new.items ≡ versions.old.items ++ above_through families.now (versions_of batches.now)) }
{
    for numbered in batches {
        push_batch(versions, families, numbered)?;
    }
    Ok(())
}

/// The sequence that comes behind batches, where `next` comes before them.
fn next_behind(next: Option<u64>, batches: &[Numbered]) -> Option<u64>
    requires { All IsNumberedWithin batches.now }
    ensures next { result ≡ next_of next batches.now }
    ensures within { IsNextWithin next → IsNextWithin result }
{
    match batches.last() {
        None => next,
        Some(last) => Some(last.first.0 + last.batch.ops().len() as u64),
    }
}

/// Whether the first batch, where there is one, begins with the sequence that comes next.
fn starts_at(next: Option<u64>, batches: &[Numbered]) -> bool
    ensures { result ≡ starts_at_next next batches.now }
{
    match (next, batches.first()) {
        (Some(next), Some(first)) => first.first.0 == next,
        _ => true,
    }
}

impl Gathered {
    /// Nothing was read.
    pub(crate) fn new(alloc: Global) -> Gathered
        ensures versions { result.versions.items ≡ [] }
        ensures next { result.next ≡ None }
        ensures gap { result.gap ≡ None }
    {
        Gathered {
            versions: Vec::new(alloc),
            next: None,
            gap: None,
        }
    }

    /// Adds what log `number` says, which is the next one.
    pub(crate) fn add(
        &mut self,
        families: &[FamilyFold],
        number: u64,
        batches: &[Numbered],
    ) -> Result<(), NoMemory>
        requires { All IsNumberedWithin batches.now }
        ensures versions { OnOk result (self.new.versions.items ≡ self.old.versions.items ++ above_through families.now (versions_of batches.now)) }
        ensures next { OnOk result (self.new.next ≡ next_of self.old.next batches.now) }
        ensures within { IsNextWithin self.old.next → OnOk result (IsNextWithin self.new.next) }
        ensures gap { OnOk result (self.new.gap ≡ gap_behind self.old.gap self.old.next number batches.now) }
    {
        if self.gap.is_none() && !starts_at(self.next, batches) {
            self.gap = Some(number);
        }
        push_batches(&mut self.versions, families, batches)?;
        self.next = next_behind(self.next, batches);
        Ok(())
    }
}
