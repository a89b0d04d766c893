//! Families by their names.
ghost use Rattle.std.specs.Prelude.{◌≡◌, ◌^◌, ◌<◌, length};
ghost use Rattle.udt_model.specs.State.{place_from};

use crate::line::FamilyHead;
use ts_key::{Family, Name, Ts};

/// A family of the store: its place in the list, counted from 0, and its history floor.
#[derive(Clone, Copy, Debug, PartialEq, Eq)]
pub struct Place {
    pub family: Family,
    pub floor: Ts,
}

/// The place of the first family of this name.
pub fn plain_place(heads: &[FamilyHead], name: &Name) -> Option<Place>
    requires { length heads.now < 2 ^ 32 }
    ensures { result ≡ place_from 0 heads.now name.now }
{
    for (i, head) in heads.iter().enumerate() {
        if head.name.bytes() == name.bytes() {
            return Some(Place {
                family: Family(i as u32),
                floor: head.floor,
            });
        }
    }
    None
}
