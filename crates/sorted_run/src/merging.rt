//! Sorting and merging of versions.
ghost use Rattle.std.specs.Prelude.{◌≡◌, ◌<◌, ◌≤◌, ◌++◌, length, IfOk, OnOk};
ghost use Rattle.ts_key.specs.Items.{items_of};
ghost use Rattle.ts_key.specs.Lists.{IsOrdered};
ghost use Rattle.sorted_run.specs.Sorts.{is_sorted_before, sorted as sorted_of};

use std::alloc::Global;
use ts_key::{NoMemory, Version, compare};

/// Whether `a` stands before `b` in the stored order.
fn is_before(a: &Version, b: &Version) -> bool
    ensures { result ≡ is_sorted_before a.now b.now }
{
    compare(&a.key_ref(), &b.key_ref()).is_lt()
}

/// Puts copies of the versions at the end.
fn copy_all(out: &mut Vec<Version>, versions: &[Version]) -> Result<(), NoMemory>
    ensures { OnOk result (out.new.items ≡ out.old.items ++ versions.now) }
{
    for v in versions {
        out.push(v.copy()?)?;
    }
    Ok(())
}

/// The versions of both, each in the stored order, in that order; of two with one sort key the one of `a` comes first.
/// A version shares its bytes with the one that it is a copy of.
pub fn merged(alloc: Global, a: &[Version], b: &[Version]) -> Result<Vec<Version>, NoMemory>
    requires a_order { IsOrdered (items_of a.now) }
    requires b_order { IsOrdered (items_of b.now) }
    ensures { IfOk result (λ vs. vs.items ≡ sorted_of (a.now ++ b.now)) }
{
    let mut out = Vec::with_capacity(alloc, a.len() + b.len())?;
    let (mut i, mut j) = (0, 0);
    while i < a.len() && j < b.len() {
        if is_before(&b[j], &a[i]) {
            out.push(b[j].copy()?)?;
            j += 1;
        } else {
            out.push(a[i].copy()?)?;
            i += 1;
        }
    }
    let (_, a_rest) = a.split_at(i);
    let (_, b_rest) = b.split_at(j);
    copy_all(&mut out, a_rest)?;
    copy_all(&mut out, b_rest)?;
    Ok(out)
}

/// The versions in the stored order; of two with one sort key the first comes first. Each is copied once.
pub fn sorted(alloc: Global, versions: &[Version]) -> Result<Vec<Version>, NoMemory>
    ensures { IfOk result (λ vs. vs.items ≡ sorted_of versions.now) }
{
    let mut out = Vec::with_capacity(alloc, versions.len())?;
    copy_all(&mut out, versions)?;
    out.sort_by(|a, b| compare(&a.key_ref(), &b.key_ref()))?;
    Ok(out)
}
