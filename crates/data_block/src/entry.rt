//! The entry that parts are, behind the stored key before it.

ghost use Rattle.std.specs.Prelude.{◌≡◌, ℕ, List, IsTrue, ◌↔◌};
ghost use Rattle.ts_key.specs.Items.{IsValue};
ghost use Rattle.data_block.specs.Fields.{IsFit};
ghost use Rattle.data_block.specs.Reading.{IsJoined, joined_key, ReadsNext};

use crate::fields::Fields;
use crate::writer::RESTART_INTERVAL;
use ts_key::{Form, KeyRef, Kind, VALUE_LIMIT, decode_key_as};
use ts_lanes::common_prefix;

/// The entry with index `n` shares as many bytes with the stored key before it as the grammar wants.
pub(crate) fn is_joined(n: usize, last: &[u8], f: &Fields<'_>) -> bool
    ensures { IsTrue result ↔ IsJoined n last.now f.now }
{
    if f.shared > last.len() {
        return false;
    }
    if n % RESTART_INTERVAL == 0 {
        return f.shared == 0;
    }
    let (_, rest) = last.split_at(f.shared);
    common_prefix(rest, f.key) == 0
}

fn is_value(kind: Kind, value: &[u8]) -> bool
    ensures { IsTrue result ↔ IsValue kind value.now }
{
    match kind {
        Kind::Del => value.is_empty(),
        Kind::Put => value.len() <= VALUE_LIMIT,
    }
}

/// The key and the kind of the version that the parts are, with their stored key joined.
pub(crate) fn key_at<'a>(form: Form, f: &Fields<'_>, key: &'a [u8]) -> Option<(KeyRef<'a>, Kind)>
    requires { IsFit f.now }
    ensures { (n : ℕ) (last : List ℕ) → IsJoined n last f.now → key.now ≡ joined_key last f.now → ReadsNext form n last f.now result }
{
    match decode_key_as(form, key) {
        Err(_) => None,
        Ok((k, kind)) => {
            if !is_value(kind, f.value) {
                return None;
            }
            Some((k, kind))
        }
    }
}
