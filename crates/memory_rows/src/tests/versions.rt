//! Versions in a fixed scrambled order, and plain look-ups in them.
ghost use Rattle.std.specs.Prelude.{◌≡◌, ◌<◌, IfOk};

use std::alloc::Global;
use std::test::Fail;
use ts_key::{Family, Key, Op, Seq, Ts, Value, Version};

/// How many versions there are.
pub const VERSIONS: u64 = 2_000;

/// A put of a value of one byte.
pub fn put(alloc: Global, family: Family, key: &[u8], ts: u64, seq: u64) -> Result<Version, Fail>
    ensures { IfOk result (λ v. v.family ≡ family) }
{
    Ok(Version {
        family,
        key: Key::of(alloc, key)?,
        ts: Ts(ts),
        seq: Seq(seq),
        op: Op::Put(Value::of(alloc, b"v")?),
    })
}

/// Version number `index` of 50 keys, with timestamps from 1 to 97, which repeat and don't rise.
pub fn scrambled(alloc: Global, family: Family, index: u64) -> Result<Version, Fail>
    requires { index < VERSIONS }
    ensures { IfOk result (λ v. v.family ≡ family) }
{
    let key = format!(in alloc; "key{:02}", index * 7919 % 50)?;
    put(
        alloc,
        family,
        key.as_bytes(),
        1 + index * 31 % 97,
        1 + index * 1009 % VERSIONS,
    )
}

/// All of them.
pub fn all_scrambled(alloc: Global) -> Result<Vec<Version>, Fail> {
    let mut versions = Vec::new(alloc);
    for index in 0..VERSIONS {
        versions.push(scrambled(alloc, Family(0), index)?)?;
    }
    Ok(versions)
}

fn is_newer(a: &Version, b: &Version) -> bool {
    b.ts.0 < a.ts.0 || (b.ts.0 == a.ts.0 && b.seq.0 < a.seq.0)
}

/// The newest version of the key up to `t` and `s`, found by looking at each.
pub fn plain_find<'a>(versions: &'a [Version], key: &[u8], t: Ts, s: Seq) -> Option<&'a Version> {
    let mut best: Option<&'a Version> = None;
    for v in versions {
        if v.key.bytes() == key && v.ts.0 <= t.0 && v.seq.0 <= s.0 {
            best = match best {
                Some(other) if is_newer(other, v) => Some(other),
                _ => Some(v),
            };
        }
    }
    best
}

/// Whether both are the same version, or none.
pub fn are_same(a: Option<&Version>, b: Option<&Version>) -> bool {
    match (a, b) {
        (None, None) => true,
        (Some(x), Some(y)) => x.key.bytes() == y.key.bytes() && x.ts == y.ts && x.seq == y.seq,
        _ => false,
    }
}
