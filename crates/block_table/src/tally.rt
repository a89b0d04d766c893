//! What is counted of versions, one after the other.

ghost use Rattle.std.specs.Prelude.{◌≡◌, ◌<◌, ◌+◌, ◌-◌, ◌^◌, [], ◌++◌, ◌∷◌, List, length};
ghost use Rattle.ts_key.specs.Items.{Item};

use ts_key::{Seq, Ts};

/// How many versions there are, their least and greatest sequences, and their greatest timestamp.
#[derive(Clone, Copy, Debug)]
pub(crate) struct Tally {
    pub(crate) count: u64,
    pub(crate) least_seq: Seq,
    pub(crate) greatest_seq: Seq,
    pub(crate) greatest_ts: Ts,
}

impl Tally {
    ghost use Rattle.block_table.specs.Tallies.{tally_of};

    /// Of no version.
    pub(crate) fn new() -> Tally
        ensures { result ≡ tally_of [] }
    {
        Tally {
            count: 0,
            least_seq: Seq(u64::MAX),
            greatest_seq: Seq(0),
            greatest_ts: Ts(0),
        }
    }

    /// With one version more.
    pub(crate) fn and(self, ts: Ts, seq: Seq) -> Tally
        requires { self.count < 2 ^ 64 - 1 }
        ensures count { result.count ≡ self.count + 1 }
        ensures tally { (vs : List Item) (v : Item) → self ≡ tally_of vs → v.sort_key.ts ≡ ts.0 → v.sort_key.seq ≡ seq.0 → result ≡ tally_of (vs ++ v ∷ []) }
    {
        let least = self.least_seq.0.min(seq.0);
        let greatest = self.greatest_seq.0.max(seq.0);
        let stamp = self.greatest_ts.0.max(ts.0);
        Tally {
            count: self.count + 1,
            least_seq: Seq(least),
            greatest_seq: Seq(greatest),
            greatest_ts: Ts(stamp),
        }
    }
}
