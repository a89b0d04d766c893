//! The registered snapshots of a store: the sequences up to which reads may still ask.
#![tactic(auto)]

ghost use Rattle.std.specs.Prelude.{◌≡◌, ◌<◌, ◌≤◌, true, false, [], length, IfOk, MatchResult, position, ◌==◌};
ghost use Rattle.ts_key.specs.Ascending.{AreAscending};
ghost use Rattle.snapshot_list.specs.Registered.{has_id, registered_seqs, with_snapshot, without_id};

use std::alloc::Global;
use std::marker::Model;
pub use ts_key::SNAPSHOT_LIMIT;
use ts_key::{NoMemory, Seq};

/// As many snapshots are registered as may be: `count`, which is `SNAPSHOT_LIMIT`.
#[derive(Clone, Copy, Debug, PartialEq, Eq)]
pub struct SnapsFull {
    pub count: u32,
}

/// The registered snapshots, each with the number by which it is known and the sequence up to which it sees, in the order of
/// the sequences. There is room for `SNAPSHOT_LIMIT` from the start.
#[derive(Debug, Drop)]
pub struct Snaps {
    ids: Vec<u64>,
    seqs: Vec<Seq>,
}

impl Model for Snaps {
    ghost use Rattle.std.specs.Prelude.{List, ◌≤◌, vec_capacity};
    ghost use Rattle.ts_key.specs.declared.limits.TheConstants.{SNAPSHOT_LIMIT};
    ghost use Rattle.snapshot_list.specs.Registered.{IsList, Registered, paired};

    ghost Value = { List Registered };

    ghost view = { λ s. paired s.ids.items s.seqs.items };

    ghost invariant = { λ s. IsList s.ids.items s.seqs.items × (SNAPSHOT_LIMIT ≤ vec_capacity s.ids) × (SNAPSHOT_LIMIT ≤ vec_capacity s.seqs) };
}

/// The place of the first number that is this one.
fn place_of(ids: &[u64], id: u64) -> Option<usize>
    ensures { result ≡ position (λ i. i == id) ids.now }
{
    ids.iter().position(|i| *i == id)
}

impl Snaps {
    /// No snapshot, with room for `SNAPSHOT_LIMIT`.
    pub fn new(alloc: Global) -> Result<Snaps, NoMemory>
        ensures { IfOk result (λ snaps. snaps ≡ []) }
    {
        Ok(Snaps {
            ids: Vec::with_capacity(alloc, SNAPSHOT_LIMIT)?,
            seqs: Vec::with_capacity(alloc, SNAPSHOT_LIMIT)?,
        })
    }

    /// Registers a snapshot under a number; where the number is registered already, nothing changes. `SnapsFull` comes exactly
    /// where `SNAPSHOT_LIMIT` are registered, and then nothing changes. It looks at each number, finds the place by halving, and
    /// moves the snapshots behind it.
    pub fn add(&mut self, id: u64, seq: Seq) -> Result<(), SnapsFull>
        ensures added { length self.old < SNAPSHOT_LIMIT → has_id self.old id ≡ false → (result ≡ Ok tt) × (self.new ≡ with_snapshot (record { id = id; seq = seq }) self.old) }
        ensures known { length self.old < SNAPSHOT_LIMIT → has_id self.old id ≡ true → (result ≡ Ok tt) × (self.new ≡ self.old) }
        ensures full { length self.old ≡ SNAPSHOT_LIMIT → (result ≡ Err (record { count = SNAPSHOT_LIMIT })) × (self.new ≡ self.old) }
    {
        if self.seqs.len() == SNAPSHOT_LIMIT {
            return Err(SnapsFull {
                count: SNAPSHOT_LIMIT as u32,
            });
        }
        if place_of(&self.ids, id).is_some() {
            return Ok(());
        }
        let place = self.seqs.partition_point(|s| s.0 <= seq.0);
        let _ = self.ids.insert(place, id);
        let _ = self.seqs.insert(place, seq);
        Ok(())
    }

    /// Takes the snapshot of this number out; where none has it, nothing changes. It looks at each number up to it, and moves
    /// the snapshots behind it.
    pub fn remove(&mut self, id: u64)
        ensures { self.new ≡ without_id self.old id }
    {
        if let Some(place) = place_of(&self.ids, id) {
            let _ = self.ids.remove(place);
            let _ = self.seqs.remove(place);
        }
    }

    /// The sequences of the registered snapshots, ascending, each as often as snapshots have it.
    pub fn seqs(&self) -> &[Seq]
        ensures seqs { result.now ≡ registered_seqs self.now }
        ensures ascending { AreAscending result.now }
        ensures within { length self.now ≤ SNAPSHOT_LIMIT }
    {
        &self.seqs
    }
}
