//! Names of families.
ghost use Rattle.std.specs.Prelude.{◌≡◌, ◌≤◌, false, length, IsTrue, IfOk, IfErr, OnOk};
ghost use Rattle.std.specs.List.{list_all};
ghost use Rattle.ts_key.specs.Names as names;

use crate::NoMemory;
use crate::limits::NAME_LIMIT;
use std::alloc::{AllocError, Global};
use std::marker::Model;
use std::sync::ArcSlice;

/// Why bytes are no name.
#[derive(Clone, Copy, Debug, PartialEq, Eq)]
pub enum NameFault {
    /// The bytes are not 1 to `NAME_LIMIT` of a to z, 0 to 9 and _.
    Bad,
    /// Memory ran out.
    NoMemory,
}

impl From<AllocError> for NameFault {
    ghost use Rattle.ts_key.specs.declared.name.NameFault.{NameFault};

    ghost from_gives = { λ _ fault. fault ≡ NameFault.NoMemory };

    fn from(_: AllocError) -> NameFault {
        NameFault::NoMemory
    }
}

/// A name of a family: 1 to `NAME_LIMIT` bytes of a to z, 0 to 9 and _, shared with its copies.
#[derive(Debug, Drop)]
pub struct Name {
    bytes: ArcSlice<u8>,
}

impl Model for Name {
    ghost use Rattle.std.specs.Prelude.{List, ℕ, IsTrue};
    ghost use Rattle.std.specs.Arc.{arc_slice_items};
    ghost use Rattle.ts_key.specs.Names as names;

    ghost Value = { List ℕ };

    ghost view = { λ n. arc_slice_items n.bytes };

    ghost invariant = { λ n. IsTrue (names.is_name (arc_slice_items n.bytes)) };
}

impl Name {
    /// The name of these bytes. `Bad` comes exactly where `is_name` is false of them.
    pub fn of(alloc: Global, bytes: &[u8]) -> Result<Name, NameFault>
        ensures name { IfOk result (λ name. name ≡ bytes.now) }
        ensures named { OnOk result (IsTrue (names.is_name bytes.now)) }

        ensures bad { names.is_name bytes.now ≡ false → result ≡ Err NameFault.Bad }
        ensures refused { IfErr result (names.IsNameFault bytes.now) }
    {
        if !is_name(bytes) {
            return Err(NameFault::Bad);
        }
        Ok(Name {
            bytes: ArcSlice::from_slice(alloc, bytes)?,
        })
    }

    /// The name's bytes.
    pub fn bytes(&self) -> &[u8]
        ensures bytes { result.now ≡ self.now }
        ensures named { IsTrue (names.is_name self.now) }
        ensures within { length self.now ≤ NAME_LIMIT }
    {
        self.bytes.as_slice()
    }

    /// The same name, which shares the bytes.
    pub fn copy(&self) -> Result<Name, NoMemory>
        ensures { IfOk result (λ name. name ≡ self.now) }
    {
        Ok(Name {
            bytes: self.bytes.clone()?,
        })
    }
}

/// Are these the bytes of a name: 1 to `NAME_LIMIT` of a to z, 0 to 9 and _?
pub fn is_name(bytes: &[u8]) -> bool
    ensures { result ≡ names.is_name bytes.now }
{
    !bytes.is_empty() && bytes.len() <= NAME_LIMIT && are_name_bytes(bytes)
}

fn are_name_bytes(bytes: &[u8]) -> bool
    ensures { result ≡ list_all names.is_name_byte bytes.now }
{
    bytes.iter().all(|b| is_name_byte(*b))
}

fn is_name_byte(b: u8) -> bool
    ensures { result ≡ names.is_name_byte b }
{
    b.is_ascii_lowercase() || b.is_ascii_digit() || b == b'_'
}
