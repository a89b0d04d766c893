//! The families of a store by their names.

ghost use Rattle.std.specs.Prelude.{◌≡◌, ◌^◌, ◌<◌, length, map, IfOk};
ghost use Rattle.manifest_fold.specs.declared.fold.FamilyFold.{FamilyFold as Fold};
ghost use Rattle.solo_store.specs.Names.{family_named as number_named, is_any_unnamed};

use crate::NoMemory;
use manifest_fold::FamilyFold;
use std::alloc::Global;
use ts_key::{Family, Name};
use udt_model::NamedOp;

/// The names of families, in order.
pub(crate) fn names_of(alloc: Global, families: &[FamilyFold]) -> Result<Vec<Name>, NoMemory>
    ensures { IfOk result (λ names. names.items ≡ map (λ (f : Fold). f.name) families.now) }
{
    let mut names = Vec::with_capacity(alloc, families.len())?;
    for family in families {
        names.push(family.name.copy()?)?;
    }
    Ok(names)
}

/// The number of the family of this name; where there is none, the one behind the last.
pub(crate) fn family_named(names: &[Name], name: &Name) -> Family
    requires { length names.now < 2 ^ 32 }
    ensures { result ≡ number_named names.now name.now }
{
    for (i, other) in names.iter().enumerate() {
        if other.bytes() == name.bytes() {
            return Family(i as u32);
        }
    }
    Family(names.len() as u32)
}

/// Whether one of the operations names no family.
pub(crate) fn any_unnamed(names: &[Name], ops: &[NamedOp]) -> bool
    requires { length names.now < 2 ^ 32 }
    ensures { result ≡ is_any_unnamed names.now ops.now }
{
    for op in ops {
        if family_named(names, &op.family).0 as usize >= names.len() {
            return true;
        }
    }
    false
}
