//! What a collection keeps, as the definition says it.
ghost use Rattle.std.specs.Prelude.{◌≡◌, ◌≤◌, ◌&&◌, ◌++◌, ◌∷◌, [], not, nat_le, if◌then◌else◌, length, position, IfOk, OnOk};
ghost use Rattle.std.specs.List.{list_any, position_or_len};
ghost use Rattle.udt_model.specs.Orders.{is_version_before, is_in, is_in_some, stored};
ghost use Rattle.udt_model.specs.Versions.{is_newer, is_of};
ghost use Rattle.udt_model.specs.Collecting.{collect, hides, is_hidden, is_put_below, is_ever_seen, is_seen_at, is_useless, seen_of, without_useless};

use std::alloc::Global;
use ts_key::{NoMemory, Op, Seq, Ts, Version, compare};
use udt_model::KeySpan;

fn is_same_key(a: &Version, b: &Version) -> bool
    ensures { result ≡ is_of b.now.family b.now.key a.now }
{
    a.family.0 == b.family.0 && a.key.bytes() == b.key.bytes()
}

/// Whether the first version is newer: by timestamp, then by sequence.
fn is_newer_than(a: &Version, b: &Version) -> bool
    ensures { result ≡ is_newer a.now b.now }
{
    b.ts.0 < a.ts.0 || (a.ts.0 == b.ts.0 && b.seq.0 < a.seq.0)
}

/// Whether the first version hides the second.
fn hides_it(floor: Ts, o: &Version, v: &Version) -> bool
    ensures { result ≡ hides floor o.now v.now }
{
    is_same_key(o, v) && is_newer_than(o, v) && o.ts.0 <= v.ts.0.max(floor.0)
}

fn is_hidden_now(versions: &[Version], floor: Ts, v: &Version) -> bool
    ensures { result ≡ is_hidden versions.now floor v.now }
{
    versions.iter().any(|o| hides_it(floor, o, v))
}

/// Whether one of the versions up to the sequence hides it.
fn is_hidden_from(versions: &[Version], floor: Ts, v: &Version, s: Seq) -> bool
    ensures { result ≡ list_any (λ o. nat_le o.seq.0 s.0 && hides floor o v.now) versions.now }
{
    versions
        .iter()
        .any(|o| o.seq.0 <= s.0 && hides_it(floor, o, v))
}

/// Whether a snapshot of this sequence sees it.
fn is_seen_by(versions: &[Version], floor: Ts, v: &Version, s: Seq) -> bool
    ensures { result ≡ is_seen_at versions.now floor v.now s }
{
    v.seq.0 <= s.0 && !is_hidden_from(versions, floor, v, s)
}

fn is_seen_by_some(versions: &[Version], floor: Ts, v: &Version, seqs: &[Seq]) -> bool
    ensures { result ≡ list_any (is_seen_at versions.now floor v.now) seqs.now }
{
    seqs.iter().any(|s| is_seen_by(versions, floor, v, *s))
}

/// Whether a read may see it.
fn is_seen_at_all(versions: &[Version], floor: Ts, seqs: &[Seq], v: &Version) -> bool
    ensures { result ≡ is_ever_seen versions.now floor seqs.now v.now }
{
    !is_hidden_now(versions, floor, v) || is_seen_by_some(versions, floor, v, seqs)
}

/// Appends a copy of a version where it is kept.
fn push_if(kept: &mut Vec<Version>, v: &Version, keep: bool) -> Result<(), NoMemory>
    ensures { OnOk result (kept.new.items ≡ (if keep then kept.old.items ++ v.now ∷ [] else kept.old.items)) }
{
    if !keep {
        return Ok(());
    }
    kept.push(v.copy()?)?;
    Ok(())
}

/// The versions that a read may see.
fn keep_seen(
    alloc: Global,
    versions: &[Version],
    floor: Ts,
    seqs: &[Seq],
) -> Result<Vec<Version>, NoMemory>
    ensures { IfOk result (λ kept. kept.items ≡ seen_of versions.now floor seqs.now) }
{
    let mut kept = Vec::new(alloc);
    for v in versions {
        push_if(&mut kept, v, is_seen_at_all(versions, floor, seqs, v))?;
    }
    Ok(kept)
}

fn is_key_in(span: &KeySpan, v: &Version) -> bool
    ensures { result ≡ is_in span.now v.now.key }
{
    let key = v.key.bytes();
    span.low.bytes().cmp(&key).is_le() && key.cmp(&span.high.bytes()).is_le()
}

fn is_deeper(deeper: &[KeySpan], v: &Version) -> bool
    ensures { result ≡ is_in_some deeper.now v.now.key }
{
    deeper.iter().any(|span| is_key_in(span, v))
}

/// Whether the second is a put that is older than the first, of its key.
fn is_older_put(v: &Version, p: &Version) -> bool
    ensures { result ≡ is_put_below v.now p.now }
{
    match &p.op {
        Op::Del => false,
        Op::Put(_) => is_same_key(p, v) && is_newer_than(v, p),
    }
}

fn has_older_put(kept: &[Version], v: &Version) -> bool
    ensures { result ≡ list_any (is_put_below v.now) kept.now }
{
    kept.iter().any(|p| is_older_put(v, p))
}

/// Whether it is a delete that has no use.
fn has_no_use(kept: &[Version], floor: Ts, deeper: &[KeySpan], v: &Version) -> bool
    ensures { result ≡ is_useless kept.now floor deeper.now v.now }
{
    match &v.op {
        Op::Put(_) => false,
        Op::Del => v.ts.0 <= floor.0 && !is_deeper(deeper, v) && !has_older_put(kept, v),
    }
}

/// The versions without the deletes that have no use.
fn keep_useful(
    alloc: Global,
    kept: &[Version],
    floor: Ts,
    deeper: &[KeySpan],
) -> Result<Vec<Version>, NoMemory>
    ensures { IfOk result (λ useful. useful.items ≡ without_useless floor deeper.now kept.now) }
{
    let mut useful = Vec::new(alloc);
    for v in kept {
        push_if(&mut useful, v, !has_no_use(kept, floor, deeper, v))?;
    }
    Ok(useful)
}

/// Whether the first stands before the second in the stored order.
fn stands_before(a: &Version, b: &Version) -> bool
    ensures { result ≡ is_version_before a.now b.now }
{
    compare(&a.key_ref(), &b.key_ref()).is_lt()
}

/// The place of the first version that doesn't stand before this one.
fn first_behind(versions: &[Version], v: &Version) -> Option<usize>
    ensures { result ≡ position (λ o. not (is_version_before o v.now)) versions.now }
{
    versions.iter().position(|o| !stands_before(o, v))
}

/// The same, or behind the last.
fn place_of(versions: &[Version], v: &Version) -> usize
    ensures place { result ≡ position_or_len (λ o. not (is_version_before o v.now)) versions.now }
    ensures within { result ≤ length versions.now }
{
    match first_behind(versions, v) {
        Some(place) => place,
        None => versions.len(),
    }
}

/// The versions in the stored order, in the time of their square.
pub fn in_order(alloc: Global, versions: Vec<Version>) -> Result<Vec<Version>, NoMemory>
    ensures { IfOk result (λ ordered. ordered.items ≡ stored versions.items) }
{
    let mut rest = versions;
    let mut ordered = Vec::new(alloc);
    while let Some(v) = rest.pop() {
        let place = place_of(&ordered, &v);
        ordered.insert(place, v)?;
    }
    Ok(ordered)
}

/// The versions that a collection keeps, in the stored order: by the history floor, by the sequences of the registered snapshots,
/// and by the spans of keys that may have versions deeper. It is the definition computed, in the time of the cube of the
/// versions.
pub fn plain_collect(
    alloc: Global,
    v: &[Version],
    floor: Ts,
    seqs: &[Seq],
    deeper: &[KeySpan],
) -> Result<Vec<Version>, NoMemory>
    ensures { IfOk result (λ kept. kept.items ≡ collect v.now floor seqs.now deeper.now) }
{
    let seen = keep_seen(alloc, v, floor, seqs)?;
    let useful = keep_useful(alloc, &seen, floor, deeper)?;
    in_order(alloc, useful)
}
