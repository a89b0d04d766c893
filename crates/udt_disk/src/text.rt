//! Texts of a host: paths and words.

ghost use Rattle.std.specs.Prelude.{◌≡◌, ℕ, ◌<◌, ◌≤◌, ◌↔◌, length, IfOk};
ghost use Rattle.udt_disk.specs.declared.text.TextFault.TheVariants.{NoMemory};

use std::alloc::{AllocError, Global};
use std::marker::Model;

/// The most bytes that a text has.
pub const TEXT_LIMIT: usize = 4096;

/// A path, or a word of a command line: at most `TEXT_LIMIT` bytes, of any values.
#[derive(Debug, Drop)]
pub struct Text {
    bytes: Vec<u8>,
}

/// Why bytes make no `Text`.
#[derive(Clone, Copy, Debug, PartialEq, Eq)]
pub enum TextFault {
    /// There are `len` bytes, more than the limit.
    TooLong { len: u64 },
    /// Memory ran out.
    NoMemory,
}

impl From<AllocError> for TextFault {
    ghost from_gives = { λ _ fault. fault ≡ NoMemory };

    fn from(_: AllocError) -> Self {
        TextFault::NoMemory
    }
}

impl Model for Text {
    ghost use Rattle.std.specs.Prelude.{List, ℕ, ◌≤◌, length};

    ghost Value = { List ℕ };

    ghost view = { λ text. text.bytes.items };

    ghost invariant = { λ text. length text.bytes.items ≤ 4096 };
}

impl Text {
    /// The text of these bytes. `TooLong` comes exactly where they are more than `TEXT_LIMIT`.
    pub fn of(alloc: Global, bytes: &[u8]) -> Result<Text, TextFault>
        ensures ok { IfOk result (λ text. text ≡ bytes.now) }
        ensures too_long { (len : ℕ) → (result ≡ Err (TextFault.TooLong len)) ↔ ((TEXT_LIMIT < length bytes.now) × (len ≡ length bytes.now)) }
    {
        if bytes.len() > TEXT_LIMIT {
            return Err(TextFault::TooLong {
                len: bytes.len() as u64,
            });
        }
        Ok(Text {
            bytes: Vec::from_slice(alloc, bytes)?,
        })
    }

    /// A copy of the text.
    pub(crate) fn copy(&self, alloc: Global) -> Result<Text, AllocError>
        ensures { IfOk result (λ text. text ≡ self.now) }
    {
        Ok(Text {
            bytes: Vec::from_slice(alloc, &self.bytes)?,
        })
    }

    /// The bytes of the text.
    pub fn bytes(&self) -> &[u8]
        ensures bytes { result.now ≡ self.now }
        ensures within { length self.now ≤ TEXT_LIMIT }
    {
        &self.bytes
    }
}
