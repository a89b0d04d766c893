//! Reads of a plain list of versions.
ghost use Rattle.std.specs.Prelude.{◌≡◌, IfOk, Some};
ghost use Rattle.std.specs.Option.{option_copied};
ghost use Rattle.udt_model.specs.Versions.{is_newer, newer, newest_of, of_key, visible};
ghost use Rattle.udt_model.specs.Reads.{answer_of, read, stamp_of};

use crate::reply::Stamp;
use std::alloc::Global;
use ts_key::{Family, NoMemory, Op, Seq, Ts, Value, Version};

/// What a read at or above the floor finds.
#[derive(Debug, Drop)]
pub enum Answer {
    Absent,
    Found { value: Value, stamp: Stamp },
}

/// What a read gives: it is refused below the floor.
#[derive(Debug, Drop)]
pub enum ModelRead {
    Collapsed { floor: Ts },
    Told(Answer),
}

/// Whether the first version is newer: by timestamp, then by sequence.
fn is_newer_than(a: &Version, b: &Version) -> bool
    ensures { result ≡ is_newer a.now b.now }
{
    b.ts.0 < a.ts.0 || (a.ts.0 == b.ts.0 && b.seq.0 < a.seq.0)
}

/// The newer of the best so far and a version behind it.
fn newer_of<'a>(best: Option<&'a Version>, version: &'a Version) -> Option<&'a Version>
    ensures { option_copied result ≡ newer (option_copied best.entry) (Some version.now) }
{
    match best {
        None => Some(version),
        Some(other) => {
            if is_newer_than(version, other) {
                Some(version)
            } else {
                Some(other)
            }
        }
    }
}

/// The newest version of a key with a timestamp up to `t` and a sequence up to `s`.
pub fn plain_visible<'a>(
    w: &'a [Version],
    family: Family,
    key: &[u8],
    t: Ts,
    s: Seq,
) -> Option<&'a Version>
    ensures { option_copied result ≡ visible w.now family key.now t s }
{
    let mut best = None;
    for version in w {
        if version.family.0 == family.0
            && version.key.bytes() == key
            && version.ts.0 <= t.0
            && version.seq.0 <= s.0
        {
            best = newer_of(best, version);
        }
    }
    best
}

/// The newest version of a key.
pub fn plain_newest<'a>(w: &'a [Version], family: Family, key: &[u8]) -> Option<&'a Version>
    ensures { option_copied result ≡ newest_of (of_key w.now family key.now) }
{
    let mut best = None;
    for version in w {
        if version.family.0 == family.0 && version.key.bytes() == key {
            best = newer_of(best, version);
        }
    }
    best
}

fn plain_stamp(floor: Ts, ts: Ts) -> Stamp
    ensures { result ≡ stamp_of floor ts }
{
    if ts.0 < floor.0 {
        Stamp::Below
    } else {
        Stamp::At(ts)
    }
}

/// The read of a key at `t` that sees sequences up to `s`, over the list `w` of all versions ever written.
/// The answer shares its value, so nothing is allocated for it today.
pub fn plain_read(
    _alloc: Global,
    w: &[Version],
    floor: Ts,
    family: Family,
    key: &[u8],
    t: Ts,
    s: Seq,
) -> Result<ModelRead, NoMemory>
    ensures { IfOk result (λ told. told ≡ read w.now floor family key.now t s) }
{
    if t.0 < floor.0 {
        return Ok(ModelRead::Collapsed { floor });
    }
    let Some(version) = plain_visible(w, family, key, t, s) else {
        return Ok(ModelRead::Told(Answer::Absent));
    };
    match &version.op {
        Op::Del => Ok(ModelRead::Told(Answer::Absent)),
        Op::Put(value) => Ok(ModelRead::Told(Answer::Found {
            value: value.copy()?,
            stamp: plain_stamp(floor, version.ts),
        })),
    }
}
