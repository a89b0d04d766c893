//! What a batch makes of the families.
ghost use Rattle.std.specs.Prelude.{◌≡◌, ◌+◌, ◌≤◌, ◌++◌, [], ◌∷◌, length, IfOk, OnOk};
ghost use Rattle.std.specs.Arc.{arc_value};
ghost use Rattle.ts_key.specs.declared.limits.TheConstants.{SEQUENCE_LIMIT};
ghost use Rattle.udt_model.specs.Versions.{logged, version_of};
ghost use Rattle.super_version.specs.Writes.{IsWrittenTo, of_family};

use crate::NoMemory;
use crate::family::FamilyState;
use std::alloc::Global;
use std::sync::Arc;
use ts_key::{Family, Seq, Version, WriteOp};

/// Puts the version that an operation makes at the end, where it is of the family.
fn add_own(
    out: &mut Vec<Version>,
    family: Family,
    op: &WriteOp,
    sequence: u64,
) -> Result<(), NoMemory>
    ensures { OnOk result (out.new.items ≡ out.old.items ++ of_family family (version_of op.now sequence ∷ [])) }
{
    if op.family.0 != family.0 {
        return Ok(());
    }
    out.push(op.version(Seq(sequence))?)?;
    Ok(())
}

/// The versions of a family that operations make, the first of all with this sequence.
fn versions_of(
    alloc: Global,
    family: Family,
    ops: &[WriteOp],
    first: u64,
) -> Result<Vec<Version>, NoMemory>
    requires { first + length ops.now ≤ SEQUENCE_LIMIT + 1 }
    ensures { IfOk result (λ vs. vs.items ≡ of_family family (logged first ops.now)) }
{
    let mut versions = Vec::new(alloc);
    for (i, op) in ops.iter().enumerate() {
        add_own(&mut versions, family, op, first + i as u64)?;
    }
    Ok(versions)
}

/// A family after operations, the first of which has this sequence: the same, shared, where none is its own.
pub fn written(
    alloc: Global,
    state: &Arc<FamilyState>,
    ops: &[WriteOp],
    first: u64,
) -> Result<Arc<FamilyState>, NoMemory>
    requires { first + length ops.now ≤ SEQUENCE_LIMIT + 1 }
    ensures { IfOk result (λ new. IsWrittenTo (of_family (arc_value state.now).active.family (logged first ops.now)) (arc_value state.now) (arc_value new)) }
{
    let family = state.as_ref().active.family();
    let versions = versions_of(alloc, family, ops, first)?;
    let own = versions.as_slice();
    if own.is_empty() {
        return Arc::try_clone(state);
    }
    Ok(Arc::new(alloc, state.as_ref().with_versions(own)?)?)
}
