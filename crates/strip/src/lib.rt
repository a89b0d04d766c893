//! Versions whose timestamps are stripped, for a family that keeps them in memory and log alone.
#![tactic(auto)]

ghost use Rattle.std.specs.Prelude.{◌≡◌, ◌-◌, ◌^◌, min, map};
ghost use Rattle.std.specs.List.Sorted.{IsPermutation};
ghost use Rattle.collection_laws.specs.Places.{AreApart, AreSortedByPlace};
ghost use Rattle.udt_model.specs.Collecting as collecting;

use ts_key::{Ts, Version, compare};

/// Sets each timestamp to 0.
fn clear_timestamps(versions: &mut Vec<Version>)
    ensures { versions.new.items ≡ map collecting.without_ts versions.old.items }
{
    for i in 0..versions.len() {
        versions[i].ts = Ts(0);
    }
}

/// Sets each timestamp to 0 and sorts the versions again in the stored order. Where no two then have one key and sequence the
/// result is fixed. It takes no memory, and the time of a sort.
pub fn strip_versions(versions: &mut Vec<Version>)
    ensures stripped { AreApart (map collecting.without_ts versions.old.items) → versions.new.items ≡ collecting.stripped versions.old.items }
    ensures ordered { AreSortedByPlace versions.new.items }
    ensures same { IsPermutation (map collecting.without_ts versions.old.items) versions.new.items }
{
    clear_timestamps(versions);
    versions.sort_unstable_by(|a, b| compare(&a.key_ref(), &b.key_ref()));
}

/// One above the greatest timestamp, 0 where there is no version; where the greatest is the greatest number, that number. It
/// looks at each version once.
pub fn cutoff(versions: &[Version]) -> Ts
    ensures { result.0 ≡ min (collecting.cutoff versions.now) (2 ^ 64 - 1) }
{
    let mut cutoff = 0;
    for version in versions {
        cutoff = version.ts.0.saturating_add(1).max(cutoff);
    }
    Ts(cutoff)
}
