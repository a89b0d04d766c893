//! What a manifest and its live log say of a store.
ghost use Rattle.std.specs.Prelude.{◌≡◌, ◌+◌, ◌<◌, [], ◌∷◌, ◌++◌, map, All, IfOk, OnOk};
ghost use Rattle.ts_key.specs.declared.limits.TheConstants.{SEQUENCE_LIMIT};
ghost use Rattle.wal.specs.Sequences.{next_sequence, IsNextSequence, IsNumberedWithin};
ghost use Rattle.udt_model.specs.Versions.{logged};
ghost use Rattle.plain_recovery.specs.Stores.{versions_of as versions_in, last_of, head_of as head_in};
ghost use Rattle.plain_recovery.specs.Opening.{IsSaid};

use head_manifest::{FamilyFold, Folded};
use std::alloc::Global;
use ts_key::{NoMemory, Seq, Version, WriteOp};
use udt_model::FamilyHead;
use wal::Numbered;

/// What a manifest and its live log say: the families, each version in order, and the last sequence.
#[derive(Drop)]
pub(crate) struct Said {
    pub(crate) heads: Vec<FamilyHead>,
    pub(crate) versions: Vec<Version>,
    pub(crate) last: Seq,
}

/// A family as a transcript's header has it. It shares the name's bytes.
fn head_of(family: &FamilyFold) -> Result<FamilyHead, NoMemory>
    ensures { IfOk result (λ head. head ≡ head_in family.now) }
{
    Ok(FamilyHead {
        name: family.name.copy()?,
        form: family.form,
        floor: family.floor,
    })
}

/// The families as a transcript's header has them.
fn heads_of(alloc: Global, families: &[FamilyFold]) -> Result<Vec<FamilyHead>, NoMemory>
    ensures { IfOk result (λ heads. heads.items ≡ map head_in families.now) }
{
    let mut heads = Vec::new(alloc);
    for family in families {
        heads.push(head_of(family)?)?;
    }
    Ok(heads)
}

/// Adds the versions that a batch made, as it is: operations aren't judged again.
fn add_batch(versions: &mut Vec<Version>, numbered: &Numbered) -> Result<(), NoMemory>
    requires { IsNumberedWithin numbered.now }
    ensures { OnOk result (versions.new.items ≡ versions.old.items ++ logged numbered.now.first.0 numbered.now.batch) }
{
    let first = numbered.first.0;
    for (i, op) in numbered.batch.ops().iter().enumerate() {
        versions.push(op.version(Seq(first + i as u64))?)?;
    }
    Ok(())
}

/// The versions that batches made, in their order.
fn versions_of(alloc: Global, batches: &[Numbered]) -> Result<Vec<Version>, NoMemory>
    requires { All IsNumberedWithin batches.now }
    ensures { IfOk result (λ versions. versions.items ≡ versions_in batches.now) }
{
    let mut versions = Vec::new(alloc);
    for numbered in batches {
        add_batch(&mut versions, numbered)?;
    }
    Ok(versions)
}

/// The last sequence of batches, or this one where there is none.
fn last_sequence(last: Seq, batches: &[Numbered]) -> Seq
    requires last { last.0 < SEQUENCE_LIMIT + 1 }
    requires batches { All IsNumberedWithin batches.now }
    ensures last { result.0 ≡ last_of last.0 batches.now }
    ensures within { result.0 < SEQUENCE_LIMIT + 1 }
    ensures next { IsNextSequence (next_sequence batches.now) (result.0 + 1) }
{
    match batches.last() {
        Some(numbered) => Seq(numbered.first.0 + numbered.batch.ops().len() as u64 - 1),
        None => last,
    }
}

/// What a fold and the batches of its live log say.
pub(crate) fn said_of(alloc: Global, fold: &Folded, batches: &[Numbered]) -> Result<Said, NoMemory>
    requires last { fold.now.last.0 < SEQUENCE_LIMIT + 1 }
    requires batches { All IsNumberedWithin batches.now }
    ensures { IfOk result (IsSaid fold.now batches.now) }
{
    Ok(Said {
        heads: heads_of(alloc, fold.families.as_slice())?,
        versions: versions_of(alloc, batches)?,
        last: last_sequence(fold.last, batches),
    })
}
