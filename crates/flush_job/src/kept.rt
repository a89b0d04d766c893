//! What a collection keeps of versions that are taken one by one.
ghost use Rattle.std.specs.Prelude.{◌≤◌, ◌+◌, ◌++◌, ◌∷◌, [], List, OnOk};
ghost use Rattle.ts_key.specs.declared.version.Version.{Version as VersionOf};
ghost use Rattle.history_gc.specs.Pushed.{MayFollow};
ghost use Rattle.history_gc.specs.Collecting.{CollectsAlike, HasCollected, held_of};

use crate::NoMemory;
use crate::feed::Feed;
use history_gc::Collector;
use std::alloc::Global;
use ts_key::{Seq, Ts, Version};
use udt_model::KeySpan;

/// What a collection keeps of the versions of a feed, given one by one in the stored order. It holds the versions of one key and
/// the first of the next. After `NoMemory` it serves no more.
#[derive(Drop)]
pub struct Kept<'a, S: Feed> {
    feed: S,
    collector: Collector<'a>,
    ended: bool,
}

/// Pushes a version, which is lost where memory is wanting.
fn push(collector: &mut Collector<'_>, version: Version) -> Result<(), NoMemory>
    ensures collected { (ps qs : List VersionOf) → HasCollected collector.old ps qs → MayFollow ps version → OnOk result (HasCollected collector.new (ps ++ version ∷ []) qs) }
    ensures held { held_of collector.new ≤ held_of collector.old + 1 }
    ensures alike { CollectsAlike collector.old collector.new }
{
    match collector.push(version) {
        Ok(()) => Ok(()),
        Err((_, e)) => Err(e),
    }
}

impl<'a, S: Feed + Drop> Kept<'a, S> {
    ghost use Rattle.std.specs.Prelude.{◌≡◌, ◌<◌, ◌≤◌, ◌+◌, ◌++◌, [], List, false, IfOk, IfSome, OnOk};
    ghost use Rattle.ts_key.specs.declared.version.Version.{Version as VersionOf};
    ghost use Rattle.udt_model.specs.Collecting.{collect};
    ghost use Rattle.flush_job.specs.Keeping.{GivesNext, Keeps, all_of, kept_of, left_of, steps_of};

    /// Of a feed of which nothing was taken: by the history floor, by the sequences of the registered snapshots, in any order, and by
    /// the spans of keys that may have versions deeper.
    pub fn new(
        alloc: Global,
        feed: S,
        floor: Ts,
        seqs: &[Seq],
        deeper: &'a [KeySpan],
    ) -> Result<Kept<'a, S>, NoMemory>
        ensures fresh { S.taken feed ≡ [] → IfOk result (λ k. Keeps S.Feed k []) }
        ensures all { IfOk result (λ k. all_of S.Feed k ≡ S.taken feed ++ S.coming feed) }
        ensures kept { IfOk result (λ k. kept_of S.Feed k ≡ collect (S.taken feed ++ S.coming feed) floor seqs.now deeper.now) }
    {
        let collector = Collector::new(alloc, floor, seqs, deeper)?;
        Ok(Kept {
            feed,
            collector,
            ended: false,
        })
    }

    /// Takes one version more into the collector, or ends it where there is none.
    fn pull(&mut self) -> Result<(), NoMemory>
        ensures pulled { self.old.ended ≡ false → (given : List VersionOf) → Keeps S.Feed self.old given → OnOk result (Keeps S.Feed self.new given) }
        ensures all { all_of S.Feed self.new ≡ all_of S.Feed self.old }
        ensures kept { kept_of S.Feed self.new ≡ kept_of S.Feed self.old }
        ensures fewer { self.old.ended ≡ false → OnOk result (steps_of S.Feed self.new < steps_of S.Feed self.old) }
        ensures left { left_of S.Feed self.new ≤ left_of S.Feed self.old }
    {
        let Some(version) = self.feed.next()? else {
            self.collector.finish();
            self.ended = true;
            return Ok(());
        };
        push(&mut self.collector, version)
    }

    /// The next version that is kept; `None` where there is none.
    pub fn next(&mut self) -> Result<Option<Version>, NoMemory>
        ensures given { (given : List VersionOf) → Keeps S.Feed self.old given → GivesNext S.Feed self.new given result }
        ensures all { all_of S.Feed self.new ≡ all_of S.Feed self.old }
        ensures kept { kept_of S.Feed self.new ≡ kept_of S.Feed self.old }
        ensures fewer { IfOk result (λ o. IfSome o (λ _. left_of S.Feed self.new < left_of S.Feed self.old)) }
    {
        while !self.ended {
            if let Some(version) = self.collector.pop() {
                return Ok(Some(version));
            }
            self.pull()?;
        }
        Ok(self.collector.pop())
    }
}
