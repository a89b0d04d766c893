//! The words of a command: names, numbers and byte words.
ghost use Rattle.std.specs.Prelude.{◌≡◌, ◌≢◌, ◌<◌, ◌≤◌, ℕ, List, length, IfOk, IfSome, IfNone};
ghost use Rattle.hex.specs.Hex.{decode_of};
ghost use Rattle.client_lang.specs.Grammar.{Reads, IsName, IsNumber, IsByteWord, IsHexWord};

use crate::print::is_plain;
use hex::FromHexError;
use itoa::Buffer;
use std::alloc::{AllocError, Global};
use ts_key::{BytesFault, KEY_LIMIT, Key, Name, NameFault, VALUE_LIMIT, Value};

/// The family name that the word is.
pub fn read_name(alloc: Global, word: &[u8]) -> Result<Option<Name>, AllocError>
    ensures { IfOk result (Reads (IsName word.now)) }
{
    match Name::of(alloc, word) {
        Ok(name) => Ok(Some(name)),
        Err(NameFault::Bad) => Ok(None),
        Err(NameFault::NoMemory) => Err(AllocError),
    }
}

/// The number that the word spells, without leading zeros.
pub fn read_number(word: &[u8]) -> Option<u64>
    ensures { Reads (IsNumber word.now) result }
{
    let Ok(text) = str::from_utf8(word) else {
        return None;
    };
    let Ok(number) = text.parse::<u64>() else {
        return None;
    };
    let mut buffer = Buffer::new();
    let spelled = buffer.format(number);
    if spelled.as_bytes() == word {
        Some(number)
    } else {
        None
    }
}

/// The key that the word spells, in either form.
pub fn read_key(alloc: Global, word: &[u8]) -> Result<Option<Key>, AllocError>
    ensures { IfOk result (Reads (IsByteWord KEY_LIMIT word.now)) }
{
    if is_plain(word) {
        return key_of(alloc, word);
    }
    match read_hex(alloc, word, KEY_LIMIT)? {
        Some(bytes) => key_of(alloc, &bytes),
        None => Ok(None),
    }
}

/// The value that the word spells, in either form.
pub fn read_value(alloc: Global, word: &[u8]) -> Result<Option<Value>, AllocError>
    ensures { IfOk result (Reads (IsByteWord VALUE_LIMIT word.now)) }
{
    if is_plain(word) {
        return value_of(alloc, word);
    }
    match read_hex(alloc, word, VALUE_LIMIT)? {
        Some(bytes) => value_of(alloc, &bytes),
        None => Ok(None),
    }
}

/// The key of these bytes, or None where they are too many.
fn key_of(alloc: Global, bytes: &[u8]) -> Result<Option<Key>, AllocError>
    ensures key { IfOk result (λ found. IfSome found (λ key. (key ≡ bytes.now) × (length bytes.now ≤ KEY_LIMIT))) }
    ensures none { IfOk result (λ found. IfNone found (KEY_LIMIT < length bytes.now)) }
{
    match Key::of(alloc, bytes) {
        Ok(key) => Ok(Some(key)),
        Err(BytesFault::TooLong { .. }) => Ok(None),
        Err(BytesFault::NoMemory) => Err(AllocError),
    }
}

/// The value of these bytes, or None where they are too many.
fn value_of(alloc: Global, bytes: &[u8]) -> Result<Option<Value>, AllocError>
    ensures value { IfOk result (λ found. IfSome found (λ value. (value ≡ bytes.now) × (length bytes.now ≤ VALUE_LIMIT))) }
    ensures none { IfOk result (λ found. IfNone found (VALUE_LIMIT < length bytes.now)) }
{
    match Value::of(alloc, bytes) {
        Ok(value) => Ok(Some(value)),
        Err(BytesFault::TooLong { .. }) => Ok(None),
        Err(BytesFault::NoMemory) => Err(AllocError),
    }
}

/// The bytes, at most `most`, that the word spells in the second form.
fn read_hex(alloc: Global, word: &[u8], most: usize) -> Result<Option<Vec<u8>>, AllocError>
    ensures bytes { IfOk result (λ found. IfSome found (λ bytes. IsHexWord word.now bytes.items)) }
    ensures none { IfOk result (λ found. IfNone found ((bytes : List ℕ) → IsHexWord word.now bytes → most < length bytes)) }
{
    let Some(digits) = word.strip_prefix(b"0x") else {
        return Ok(None);
    };
    if digits.len() / 2 > most {
        return Ok(None);
    }
    let Some(bytes) = decode(alloc, digits)? else {
        return Ok(None);
    };
    let spelled = hex::encode(alloc, bytes.as_slice())?;
    if spelled.as_bytes() == digits {
        Ok(Some(bytes))
    } else {
        Ok(None)
    }
}

/// The bytes of these digits, in either case.
fn decode(alloc: Global, digits: &[u8]) -> Result<Option<Vec<u8>>, AllocError>
    ensures bytes { IfOk result (λ found. IfSome found (λ bytes. decode_of digits.now ≡ Ok bytes.items)) }
    ensures none { IfOk result (λ found. IfNone found ((bytes : List ℕ) → decode_of digits.now ≢ Ok bytes)) }
{
    match hex::decode(alloc, digits) {
        Ok(bytes) => Ok(Some(bytes)),
        Err(FromHexError::OutOfMemory) => Err(AllocError),
        Err(_) => Ok(None),
    }
}
