//! Lists of shared runs, the newest first.
ghost use Rattle.std.specs.Prelude.{◌≡◌, ◌+◌, ◌<◌, ◌≤◌, ◌++◌, List, length, map, min, option_map, Contains, IfOk, IfSome, OnOk};
ghost use Rattle.std.specs.Arc.{arc_value};
ghost use Rattle.std.specs.Option.{option_copied};
ghost use Rattle.ts_key.specs.declared.version.Version.{Version as VersionOf};
ghost use Rattle.ts_key.specs.Items.{item_of, items_of};
ghost use Rattle.ts_key.specs.Visible.{is_item_newer, newer_item, newest_ts, visible_item};
ghost use Rattle.sorted_run.specs.Runs.{latest_of};
ghost use Rattle.sorted_run.specs.Sorts.{sorted};
ghost use Rattle.memtable.specs.Memtables.{AreDoubled, IsAbsorbed, capped_weight, greater, is_version_above, joined, newer_of as newer_version, reaches as reaches_ts};

use crate::limits::BYTES_LIMIT;
use sorted_run::{Run, Steps};
use std::alloc::Global;
use std::sync::Arc;
use std::sync::ledger::Ledger;
use ts_key::{NoMemory, Seq, Ts, Version};

/// Puts the runs at the end, shared.
pub fn share(out: &mut Vec<Arc<Run>>, runs: &[Arc<Run>]) -> Result<(), NoMemory>
    ensures { OnOk result (map arc_value out.new.items ≡ map arc_value out.old.items ++ map arc_value runs.now) }
{
    for run in runs {
        out.push(Arc::try_clone(run)?)?;
    }
    Ok(())
}

// ---- look-ups

fn is_newer_than(a: &Version, b: &Version) -> bool
    ensures { result ≡ is_item_newer (item_of a.now) (item_of b.now) }
{
    b.ts.0 < a.ts.0 || (a.ts.0 == b.ts.0 && b.seq.0 < a.seq.0)
}

/// The newer of the best so far and what an older run has, the best where neither is.
fn newer_of<'a>(best: Option<&'a Version>, found: Option<&'a Version>) -> Option<&'a Version>
    ensures { option_copied result ≡ newer_version (option_copied best.entry) (option_copied found.entry) }
{
    let Some(a) = best else {
        return found;
    };
    let Some(b) = found else {
        return best;
    };
    if is_newer_than(b, a) { found } else { best }
}

/// Whether the best so far is above every timestamp of a run.
fn is_above(best: Option<&Version>, latest: Ts) -> bool
    ensures { result ≡ is_version_above (option_copied best.entry) latest.0 }
{
    match best {
        None => false,
        Some(v) => latest.0 < v.ts.0,
    }
}

/// The newer of the best so far and what a read sees in an older run. A run whose timestamps are all smaller is passed
/// over.
fn newer_in<'a>(
    best: Option<&'a Version>,
    run: &'a Run,
    key: &[u8],
    t: Ts,
    s: Seq,
) -> Option<&'a Version>
    ensures visible { option_map item_of (option_copied result)
        ≡ newer_item (option_map item_of (option_copied best.entry)) (visible_item (items_of run.now) key.now t.0 s.0) }
    ensures among { (vs : List VersionOf) → IfSome best.entry (λ v. Contains vs v.now)
        → ((v : VersionOf) → Contains run.now v → Contains vs v) → IfSome result (λ v. Contains vs v.now) }
{
    if is_above(best, run.latest()) {
        return best;
    }
    newer_of(best, run.find(key, t, s))
}

/// The newest version of the key that a read sees.
pub fn find_in<'a>(runs: &'a [Arc<Run>], key: &[u8], t: Ts, s: Seq) -> Option<&'a Version>
    ensures visible { option_map item_of (option_copied result) ≡ visible_item (items_of (joined (map arc_value runs.now))) key.now t.0 s.0 }
    ensures among { IfSome result (λ v. Contains (joined (map arc_value runs.now)) v.now) }
{
    let mut best = None;
    for run in runs {
        best = newer_in(best, run.as_ref(), key, t, s);
    }
    best
}

/// As `newer_in`, in at most one step.
fn newer_counted<'a, L: Ledger>(
    best: Option<&'a Version>,
    run: &'a Run,
    key: &[u8],
    t: Ts,
    s: Seq,
    steps: &mut Steps<L>,
) -> Option<&'a Version>
    ensures visible { option_map item_of (option_copied result)
        ≡ newer_item (option_map item_of (option_copied best.entry)) (visible_item (items_of run.now) key.now t.0 s.0) }
    ensures among { (vs : List VersionOf) → IfSome best.entry (λ v. Contains vs v.now)
        → ((v : VersionOf) → Contains run.now v → Contains vs v) → IfSome result (λ v. Contains vs v.now) }
    ensures rises { steps.old ≤ steps.new }
    ensures steps { steps.new ≤ steps.old + 1 }
{
    if is_above(best, run.latest()) {
        return best;
    }
    newer_of(best, run.find_counted(key, t, s, steps))
}

/// As `find_in`, in at most a step a run.
pub fn find_counted_in<'a, L: Ledger>(
    runs: &'a [Arc<Run>],
    key: &[u8],
    t: Ts,
    s: Seq,
    steps: &mut Steps<L>,
) -> Option<&'a Version>
    ensures visible { option_map item_of (option_copied result) ≡ visible_item (items_of (joined (map arc_value runs.now))) key.now t.0 s.0 }
    ensures among { IfSome result (λ v. Contains (joined (map arc_value runs.now)) v.now) }
    ensures rises { steps.old ≤ steps.new }
    ensures steps { steps.new ≤ steps.old + length runs.now }
{
    let mut best = None;
    for run in runs {
        best = newer_counted(best, run.as_ref(), key, t, s, steps);
    }
    best
}

/// The later of two timestamps that may be missing.
pub fn later_of(a: Option<Ts>, b: Option<Ts>) -> Option<Ts>
    ensures { option_map (λ ts. ts.0) result ≡ greater (option_map (λ ts. ts.0) a) (option_map (λ ts. ts.0) b) }
{
    let Some(x) = a else {
        return b;
    };
    let Some(y) = b else {
        return a;
    };
    Some(Ts(x.0.max(y.0)))
}

/// Whether the best timestamp so far is at or above every timestamp of a list whose greatest this is.
pub fn reaches(best: Option<Ts>, latest: Ts) -> bool
    ensures { result ≡ reaches_ts (option_map (λ ts. ts.0) best) latest.0 }
{
    match best {
        None => false,
        Some(ts) => latest.0 <= ts.0,
    }
}

fn later_in(best: Option<Ts>, run: &Run, key: &[u8]) -> Option<Ts>
    ensures { option_map (λ ts. ts.0) result ≡ greater (option_map (λ ts. ts.0) best) (newest_ts (items_of run.now) key.now) }
{
    if reaches(best, run.latest()) {
        return best;
    }
    later_of(best, run.newest(key))
}

/// The greatest timestamp of the key.
pub fn newest_in(runs: &[Arc<Run>], key: &[u8]) -> Option<Ts>
    ensures { option_map (λ ts. ts.0) result ≡ newest_ts (items_of (joined (map arc_value runs.now))) key.now }
{
    let mut best = None;
    for run in runs {
        best = later_in(best, run.as_ref(), key);
    }
    best
}

/// The greatest timestamp of all, 0 where there is none.
pub fn latest_in(runs: &[Arc<Run>]) -> Ts
    ensures { result.0 ≡ latest_of (joined (map arc_value runs.now)) }
{
    let mut latest = 0u64;
    for run in runs {
        latest = latest.max(run.as_ref().latest().0);
    }
    Ts(latest)
}

// ---- merging

/// The run of a batch, with the newest runs merged into it that aren't twice as long, and how many those are.
pub fn absorbed(
    alloc: Global,
    versions: &[Version],
    runs: &[Arc<Run>],
) -> Result<(Run, usize), NoMemory>
    requires some { 0 < length versions.now }
    requires doubled { AreDoubled (map arc_value runs.now) }
    ensures { IfOk result (λ r. IsAbsorbed versions.now (map arc_value runs.now) r.0 r.1) }
{
    let mut run = Run::sorted(alloc, versions)?;
    let mut next = 0;
    while next < runs.len() {
        let older = runs[next].as_ref();
        if older.len() / 2 >= run.len() {
            break;
        }
        let larger = Run::merge(alloc, &run, older)?;
        run = larger;
        next += 1;
    }
    Ok((run, next))
}

/// The run of all.
pub fn merged(alloc: Global, runs: &[Arc<Run>]) -> Result<Run, NoMemory>
    ensures { IfOk result (λ run. run ≡ sorted (joined (map arc_value runs.now))) }
{
    let mut all = Run::sorted(alloc, &[])?;
    for run in runs {
        let more = Run::merge(alloc, &all, run.as_ref())?;
        all = more;
    }
    Ok(all)
}

/// The bytes of these versions, at most `BYTES_LIMIT`.
pub fn bytes_in(versions: &[Version]) -> u64
    ensures bytes { result ≡ capped_weight versions.now }
    ensures within { result ≤ BYTES_LIMIT }
{
    let mut bytes = 0u64;
    for v in versions {
        let weight = v.key.bytes().len() as u64 + v.op.value().len() as u64 + 32;
        bytes = (bytes + weight).min(BYTES_LIMIT);
    }
    bytes
}
