//! The stored order of versions.
ghost use Rattle.std.specs.Prelude.{◌≡◌, ◌≤◌, length};
ghost use Rattle.std.specs.Cmp.{IsTotalOrder};
ghost use Rattle.std.specs.declared.cmp.Ordering.TheVariants.{Equal};
ghost use Rattle.ts_key.specs.Order.{sort_cmp, sort_key_of};
ghost use Rattle.ts_key.specs.Items.{items_of};
ghost use Rattle.ts_key.specs.Lists.{IsOrdered, below};

use crate::lent::KeyRef;
use crate::version::Version;
use std::cmp::Ordering;

/// The stored order: by key, bytewise ascending, then by timestamp and then by sequence, the larger first. It is total,
/// and calls only the same ones equal.
pub fn compare(a: &KeyRef<'_>, b: &KeyRef<'_>) -> Ordering
    ensures order { result ≡ sort_cmp (sort_key_of a.now) (sort_key_of b.now) }
    ensures total { IsTotalOrder sort_cmp }
    ensures same { result ≡ Equal → sort_key_of a.now ≡ sort_key_of b.now }
{
    a.key
        .cmp(&b.key)
        .then(b.ts.0.cmp(&a.ts.0))
        .then(b.seq.0.cmp(&a.seq.0))
}

/// How many of the versions stand before a key, found by halving.
pub fn lower_bound(versions: &[Version], to: &KeyRef<'_>) -> usize
    requires { IsOrdered (items_of versions.now) }
    ensures count { result ≡ below (sort_key_of to.now) (items_of versions.now) }
    ensures within { result ≤ length versions.now }
{
    let mut low = 0;
    let mut high = versions.len();
    while low < high {
        let mid = low + (high - low) / 2;
        if compare(&versions[mid].key_ref(), to).is_lt() {
            low = mid + 1;
        } else {
            high = mid;
        }
    }
    low
}
