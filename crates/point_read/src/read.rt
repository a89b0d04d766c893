//! A read of one key.
ghost use Rattle.std.specs.Prelude.{◌≡◌, ℕ, ◌<◌, List, length, slice_get, Some};
ghost use Rattle.ts_key.specs.declared.numbers.Family.{Family as FamilyOf};
ghost use Rattle.ts_key.specs.Items.{found};
ghost use Rattle.ts_key.specs.Visible.{visible_item};
ghost use Rattle.udt_model.specs.Reads.{read, stamp_of};
ghost use Rattle.super_version.specs.declared.family.FamilyState.{FamilyState as StateOf};
ghost use Rattle.super_version.specs.Contents.{items_of_family, versions_in};
ghost use Rattle.point_read.specs.Tells.{answered, model_read};

use crate::hits::{newer_in_levels, newer_in_mem, newer_in_mems};
use super_version::{FamilyState, SuperVersion};
use ts_key::{Family, Hit, Kind, Seq, Ts};
use udt_model::Stamp;

/// What a read finds. The value is lent from the super version.
#[derive(Clone, Copy, Debug)]
pub enum Read<'a> {
    /// The read is below the floor.
    Collapsed { floor: Ts },
    /// There is no version that it sees, or it sees a delete.
    Absent,
    Found { value: &'a [u8], stamp: Stamp },
}

/// The timestamp of a version, which isn't told below the floor.
fn stamp(floor: Ts, ts: Ts) -> Stamp
    ensures { result ≡ stamp_of floor ts }
{
    if ts.0 < floor.0 {
        Stamp::Below
    } else {
        Stamp::At(ts)
    }
}

/// The newest version of the key with a timestamp up to `t` and a sequence up to `s`, in all lists of a family.
fn find<'a>(state: &'a FamilyState, key: &[u8], t: Ts, s: Seq) -> Option<Hit<'a>>
    ensures { found key.now result ≡ visible_item (items_of_family state.now) key.now t.0 s.0 }
{
    let best = newer_in_mem(None, &state.active, key, t, s);
    let best = newer_in_mems(best, state.sealed.as_slice(), key, t, s);
    newer_in_levels(best, state.levels.as_slice(), key, t, s)
}

/// What the newest version that it sees answers to a read: a put its value, a delete nothing.
fn answer(floor: Ts, newest: Option<Hit<'_>>) -> Read<'_>
    ensures { (family : FamilyOf) (key : List ℕ) → model_read result ≡ answered floor family key newest.entry }
{
    let Some(hit) = newest else {
        return Read::Absent;
    };
    match hit.kind {
        Kind::Del => Read::Absent,
        Kind::Put => Read::Found {
            value: hit.value,
            stamp: stamp(floor, hit.ts),
        },
    }
}

/// The read of a key of a family in this state.
fn read_in<'a>(state: &'a FamilyState, key: &[u8], t: Ts, s: Seq) -> Read<'a>
    ensures { (family : FamilyOf) → model_read result ≡ read (versions_in family state.now) state.now.floor family key.now t s }
{
    if t.0 < state.floor.0 {
        return Read::Collapsed { floor: state.floor };
    }
    answer(state.floor, find(state, key, t, s))
}

/// The read of a key at `t` that sees sequences up to `s`, over all versions of the family. `Collapsed` comes exactly
/// where `t` is below the family's floor. The stamp is `Below` exactly where the version's timestamp is below the floor.
pub fn get<'a>(now: &'a SuperVersion, family: Family, key: &[u8], t: Ts, s: Seq) -> Read<'a>
    requires { family.0 < length now.now.families }
    ensures { (f : StateOf) → slice_get now.now.families family.0 ≡ Some f
        → model_read result ≡ read (versions_in family f) f.floor family key.now t s }
{
    match now.family(family) {
        None => Read::Absent,
        Some(state) => read_in(state, key, t, s),
    }
}
