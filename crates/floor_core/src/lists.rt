//! Lists of versions.
ghost use Rattle.std.specs.Prelude.{◌≡◌, ◌++◌, ◌∷◌, [], ◌&&◌, ◌==◌, nat_le, nat_lt, if◌then◌else◌, IfOk, OnOk};
ghost use Rattle.floor_laws.specs.Tables.{contents};
ghost use Rattle.udt_model.specs.Versions.{between, up_to};

use crate::parts::CoreTable;
use std::alloc::Global;
use ts_key::{Family, NoMemory, Seq, Version};

/// Appends a copy of a version where it is kept.
fn push_if(kept: &mut Vec<Version>, v: &Version, keep: bool) -> Result<(), NoMemory>
    ensures { OnOk result (kept.new.items ≡ (if keep then kept.old.items ++ v.now ∷ [] else kept.old.items)) }
{
    if !keep {
        return Ok(());
    }
    kept.push(v.copy()?)?;
    Ok(())
}

/// Whether the version is of this family with a sequence above `low`, up to `high`.
fn lies_between(v: &Version, family: Family, low: Seq, high: Seq) -> bool
    ensures { result ≡ (v.now.family.0 == family.0 && nat_lt low.0 v.now.seq.0 && nat_le v.now.seq.0 high.0) }
{
    v.family.0 == family.0 && low.0 < v.seq.0 && v.seq.0 <= high.0
}

/// The versions of a family with sequences above `low`, up to `high`.
pub(crate) fn between_of(
    alloc: Global,
    versions: &[Version],
    family: Family,
    low: Seq,
    high: Seq,
) -> Result<Vec<Version>, NoMemory>
    ensures { IfOk result (λ kept. kept.items ≡ between family low.0 high.0 versions.now) }
{
    let mut kept = Vec::new(alloc);
    for v in versions {
        push_if(&mut kept, v, lies_between(v, family, low, high))?;
    }
    Ok(kept)
}

/// Whether the version has a sequence up to this one.
fn is_upto(v: &Version, s: Seq) -> bool
    ensures { result ≡ nat_le v.now.seq.0 s.0 }
{
    v.seq.0 <= s.0
}

/// The versions with sequences up to this one.
pub(crate) fn first_of(
    alloc: Global,
    versions: &[Version],
    s: Seq,
) -> Result<Vec<Version>, NoMemory>
    ensures { IfOk result (λ kept. kept.items ≡ up_to s.0 versions.now) }
{
    let mut kept = Vec::new(alloc);
    for v in versions {
        push_if(&mut kept, v, is_upto(v, s))?;
    }
    Ok(kept)
}

/// Appends copies of the versions.
pub(crate) fn append(list: &mut Vec<Version>, versions: &[Version]) -> Result<(), NoMemory>
    ensures { OnOk result (list.new.items ≡ list.old.items ++ versions.now) }
{
    for v in versions {
        list.push(v.copy()?)?;
    }
    Ok(())
}

/// Appends copies of what the tables hold.
pub(crate) fn append_contents(list: &mut Vec<Version>, tables: &[CoreTable]) -> Result<(), NoMemory>
    ensures { OnOk result (list.new.items ≡ list.old.items ++ contents tables.now) }
{
    for table in tables {
        append(list, &table.versions)?;
    }
    Ok(())
}
