//! Numbers of fixed size and strings of bytes, added at the end of a text and read from its front.
//!
//!    u8      := 1 byte
//!    u16     := 2 bytes        the lowest first; so the others
//!    u32     := 4 bytes
//!    u64     := 8 bytes

ghost use Rattle.std.specs.Prelude.{◌≡◌, ◌<◌, ◌^◌, ◌++◌, ◌∷◌, [], length, MatchResult, OnOk, OnErr};
ghost use Rattle.ts_key.specs.Numbers.{number_bytes};
ghost use Rattle.ts_key.specs.Reading.{ReadsFront, OnlyBad};
ghost use Rattle.ts_key.specs.Writing.{Extends};

use crate::NoMemory;
use byteorder::{ByteOrder, LittleEndian};

/// There are fewer bytes than are to be read.
#[derive(Clone, Copy, Debug, PartialEq, Eq)]
pub struct Truncated;

/// Bytes that are read from the front. After an error those that are left are as they were.
#[derive(Clone, Copy, Debug)]
pub struct Reader<'a> {
    pub left: &'a [u8],
}

impl<'a> Reader<'a> {
    /// The next `n` bytes. The error comes exactly where there are fewer.
    pub fn take(&mut self, n: usize) -> Result<&'a [u8], Truncated>
        ensures taken { MatchResult result
            (λ taken. (self.old.left.now ≡ taken.now ++ self.new.left.now) × (length taken.now ≡ n))
            (λ _. length self.old.left.now < n) }
        ensures kept { OnErr result (self.new.left.now ≡ self.old.left.now) }
    {
        match self.left.split_at_checked(n) {
            Some((taken, left)) => {
                self.left = left;
                Ok(taken)
            }
            None => Err(Truncated),
        }
    }

    /// The next byte. The error comes exactly where there is none.
    pub fn take_u8(&mut self) -> Result<u8, Truncated>
        ensures read { ReadsFront OnlyBad (λ n. n) (λ n. n ∷ []) (λ n. n < 2 ^ 8) self.old.left.now self.new.left.now result }
        ensures kept { OnErr result (self.new.left.now ≡ self.old.left.now) }
    {
        let bytes = self.take(1)?;
        Ok(bytes[0])
    }

    /// The next u16. The error comes exactly where there are fewer than 2 bytes.
    pub fn take_u16(&mut self) -> Result<u16, Truncated>
        ensures read { ReadsFront OnlyBad (λ n. n) (number_bytes 2) (λ n. n < 2 ^ 16) self.old.left.now self.new.left.now result }
        ensures kept { OnErr result (self.new.left.now ≡ self.old.left.now) }
    {
        let bytes = self.take(2)?;
        Ok(u16_of(bytes))
    }

    /// The next u32. The error comes exactly where there are fewer than 4 bytes.
    pub fn take_u32(&mut self) -> Result<u32, Truncated>
        ensures read { ReadsFront OnlyBad (λ n. n) (number_bytes 4) (λ n. n < 2 ^ 32) self.old.left.now self.new.left.now result }
        ensures kept { OnErr result (self.new.left.now ≡ self.old.left.now) }
    {
        let bytes = self.take(4)?;
        Ok(u32_of(bytes))
    }

    /// The next u64. The error comes exactly where there are fewer than 8 bytes.
    pub fn take_u64(&mut self) -> Result<u64, Truncated>
        ensures read { ReadsFront OnlyBad (λ n. n) (number_bytes 8) (λ n. n < 2 ^ 64) self.old.left.now self.new.left.now result }
        ensures kept { OnErr result (self.new.left.now ≡ self.old.left.now) }
    {
        let bytes = self.take(8)?;
        Ok(u64_of(bytes))
    }
}

/// The number in 2 bytes.
pub fn u16_of(bytes: &[u8]) -> u16
    requires { length bytes.now ≡ 2 }
    ensures { bytes.now ≡ number_bytes 2 result }
{
    LittleEndian::read_u16(bytes)
}

/// The number in 4 bytes.
pub fn u32_of(bytes: &[u8]) -> u32
    requires { length bytes.now ≡ 4 }
    ensures { bytes.now ≡ number_bytes 4 result }
{
    LittleEndian::read_u32(bytes)
}

/// The number in 8 bytes.
pub fn u64_of(bytes: &[u8]) -> u64
    requires { length bytes.now ≡ 8 }
    ensures { bytes.now ≡ number_bytes 8 result }
{
    LittleEndian::read_u64(bytes)
}

/// Adds bytes at the end. After `NoMemory` the text is as before.
pub fn put_bytes(out: &mut Vec<u8>, bytes: &[u8]) -> Result<(), NoMemory>
    ensures written { OnOk result (out.new.items ≡ out.old.items ++ bytes.now) }
    ensures extends { Extends out.old.items out.new.items }
    ensures kept { OnErr result (out.new.items ≡ out.old.items) }
{
    let end = out.len();
    match out.extend_from_slice(bytes) {
        Ok(()) => Ok(()),
        Err(e) => {
            out.truncate(end);
            Err(e)
        }
    }
}

/// Adds a byte at the end. After `NoMemory` the text is as before.
pub fn put_u8(out: &mut Vec<u8>, n: u8) -> Result<(), NoMemory>
    ensures written { OnOk result (out.new.items ≡ out.old.items ++ n ∷ []) }
    ensures extends { Extends out.old.items out.new.items }
    ensures kept { OnErr result (out.new.items ≡ out.old.items) }
{
    put_bytes(out, &[n])
}

/// Adds a u16 at the end. After `NoMemory` the text is as before.
#[tactic(auto, unfolding(crate::specs::Numbers::number_bytes))]
pub fn put_u16(out: &mut Vec<u8>, n: u16) -> Result<(), NoMemory>
    ensures written { OnOk result (out.new.items ≡ out.old.items ++ number_bytes 2 n) }
    ensures extends { Extends out.old.items out.new.items }
    ensures kept { OnErr result (out.new.items ≡ out.old.items) }
{
    let mut bytes = [0; 2];
    LittleEndian::write_u16(&mut bytes, n);
    put_bytes(out, &bytes)
}

/// Adds a u32 at the end. After `NoMemory` the text is as before.
#[tactic(auto, unfolding(crate::specs::Numbers::number_bytes))]
pub fn put_u32(out: &mut Vec<u8>, n: u32) -> Result<(), NoMemory>
    ensures written { OnOk result (out.new.items ≡ out.old.items ++ number_bytes 4 n) }
    ensures extends { Extends out.old.items out.new.items }
    ensures kept { OnErr result (out.new.items ≡ out.old.items) }
{
    let mut bytes = [0; 4];
    LittleEndian::write_u32(&mut bytes, n);
    put_bytes(out, &bytes)
}

/// Adds a u64 at the end. After `NoMemory` the text is as before.
#[tactic(auto, unfolding(crate::specs::Numbers::number_bytes))]
pub fn put_u64(out: &mut Vec<u8>, n: u64) -> Result<(), NoMemory>
    ensures written { OnOk result (out.new.items ≡ out.old.items ++ number_bytes 8 n) }
    ensures extends { Extends out.old.items out.new.items }
    ensures kept { OnErr result (out.new.items ≡ out.old.items) }
{
    let mut bytes = [0; 8];
    LittleEndian::write_u64(&mut bytes, n);
    put_bytes(out, &bytes)
}
