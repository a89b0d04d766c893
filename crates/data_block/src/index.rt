//! An index of the entries of a block, made once when it is read. Beside the joined keys it has 40 bytes for each
//! entry.

ghost use Rattle.std.specs.Prelude.{◌≡◌, ◌≤◌, ◌<◌, ◌+◌, ◌^◌, [], ◌∷◌, ◌++◌, All, IsTrue, ◌↔◌, OnOk, length, nat_le, ◌&&◌};
ghost use Rattle.std.specs.Str.{bytes_eq};
ghost use Rattle.ts_key.specs.Order.{sort_key_of, is_before};
ghost use Rattle.data_block.specs.Index.{key_at, value_at, sort_key_at, items_at, IsWithin};
ghost use Rattle.data_block.specs.Grammar.{restart};
ghost use Rattle.data_block.specs.Reading.{EndsBefore};
ghost use Rattle.data_block.specs.Regions.{items_in, item_in};

use crate::NoMemory;
use crate::fields::Fields;
use crate::writer::RESTART_INTERVAL;
use std::alloc::Global;
use ts_key::{Hit, KeyRef, Kind, Seq, Ts, compare};

/// Where the key and the value of an entry lie.
#[derive(Clone, Copy, Debug)]
pub(crate) struct Entry {
    pub(crate) ts: Ts,
    pub(crate) seq: Seq,
    /// In the joined keys.
    pub(crate) key_from: usize,
    /// In the image.
    pub(crate) value_from: usize,
    pub(crate) value_len: u32,
    pub(crate) key_len: u16,
    pub(crate) kind: Kind,
}

impl Entry {
    pub(crate) fn key<'a>(&self, keys: &'a [u8]) -> &'a [u8]
        requires { self.now.key_from + self.now.key_len ≤ length keys.now }
        ensures { result.now ≡ key_at keys.now self.now }
    {
        &keys[self.key_from..self.key_from + self.key_len as usize]
    }

    pub(crate) fn key_ref<'a>(&self, keys: &'a [u8]) -> KeyRef<'a>
        requires { self.now.key_from + self.now.key_len ≤ length keys.now }
        ensures { sort_key_of result ≡ sort_key_at keys.now self.now }
    {
        KeyRef {
            key: self.key(keys),
            ts: self.ts,
            seq: self.seq,
        }
    }

    pub(crate) fn hit<'a>(&self, image: &'a [u8]) -> Hit<'a>
        requires { self.now.value_from + self.now.value_len ≤ length image.now }
        ensures ts { result.ts ≡ self.now.ts }
        ensures seq { result.seq ≡ self.now.seq }
        ensures kind { result.kind ≡ self.now.kind }
        ensures value { result.value.now ≡ value_at image.now self.now }
    {
        Hit {
            ts: self.ts,
            seq: self.seq,
            kind: self.kind,
            value: &image[self.value_from..self.value_from + self.value_len as usize],
        }
    }

    /// It is a version of this key.
    pub(crate) fn is_of(&self, keys: &[u8], key: &[u8]) -> bool
        requires { self.now.key_from + self.now.key_len ≤ length keys.now }
        ensures { result ≡ bytes_eq (key_at keys.now self.now) key.now }
    {
        self.key(keys) == key
    }

    /// It isn't above this timestamp and this sequence.
    pub(crate) fn is_within(&self, t: Ts, s: Seq) -> bool
        ensures { result ≡ (nat_le self.now.ts.0 t.0 && nat_le self.now.seq.0 s.0) }
    {
        self.ts.0 <= t.0 && self.seq.0 <= s.0
    }

    /// It stands before the key.
    pub(crate) fn is_before(&self, keys: &[u8], to: &KeyRef<'_>) -> bool
        requires { self.now.key_from + self.now.key_len ≤ length keys.now }
        ensures { result ≡ is_before (sort_key_at keys.now self.now) (sort_key_of to.now) }
    {
        compare(&self.key_ref(keys), to).is_lt()
    }
}

/// The entries that were read, their joined keys, the offset of every sixteenth, and that of the last.
#[derive(Debug, Drop)]
pub(crate) struct Index {
    pub(crate) keys: Vec<u8>,
    pub(crate) entries: Vec<Entry>,
    pub(crate) restarts: Vec<usize>,
    pub(crate) last_at: usize,
}

impl Index {
    pub(crate) fn new(alloc: Global) -> Index
        ensures keys { result.keys.items ≡ [] }
        ensures entries { result.entries.items ≡ [] }
        ensures restarts { result.restarts.items ≡ [] }
    {
        Index {
            keys: Vec::new(alloc),
            entries: Vec::new(alloc),
            restarts: Vec::new(alloc),
            last_at: 0,
        }
    }
}

/// The last entry, if there is one, stands before the key.
pub(crate) fn is_last_before(image: &[u8], keys: &[u8], entries: &[Entry], to: &KeyRef<'_>) -> bool
    requires { All (IsWithin keys.now image.now) entries.now }
    ensures { IsTrue result ↔ EndsBefore (items_at keys.now image.now entries.now) (sort_key_of to.now) }
{
    if entries.is_empty() {
        return true;
    }
    entries[entries.len() - 1].is_before(keys, to)
}

/// The key stands after the last entry.
pub(crate) fn is_after(image: &[u8], index: &Index, to: &KeyRef<'_>) -> bool
    requires { All (IsWithin index.now.keys.items image.now) index.now.entries.items }
    ensures { IsTrue result ↔ EndsBefore (items_in image.now index.now) (sort_key_of to.now) }
{
    is_last_before(image, &index.keys, &index.entries, to)
}

/// Notes the offset of the entry with index `count`, where it is a restart.
fn note_restart(restarts: &mut Vec<usize>, count: usize, at: usize) -> Result<(), NoMemory>
    ensures { OnOk result (restarts.new.items ≡ restarts.old.items ++ restart count at) }
{
    if count % RESTART_INTERVAL == 0 {
        restarts.push(at)?;
    }
    Ok(())
}

/// Adds the entry at an offset, whose parts were read.
pub(crate) fn add(
    image: &[u8],
    index: &mut Index,
    at: usize,
    f: &Fields<'_>,
    k: &KeyRef<'_>,
    kind: Kind,
) -> Result<(), NoMemory>
    requires within { All (IsWithin index.old.keys.items image.now) index.old.entries.items }
    requires image { at + 8 + length f.now.key.now + length f.now.value.now ≤ length image.now }
    requires key { length k.now.key.now < 2 ^ 16 }
    requires value { length f.now.value.now < 2 ^ 32 }
    ensures within { OnOk result (All (IsWithin index.new.keys.items image.now) index.new.entries.items) }
    ensures items { OnOk result (items_in image.now index.new ≡ items_in image.now index.old ++ item_in image.now at f.now (sort_key_of k.now) kind ∷ []) }
    ensures restarts { OnOk result (index.new.restarts.items ≡ index.old.restarts.items ++ restart (length index.old.entries.items) at) }
    ensures last { OnOk result (index.new.last_at ≡ at) }
{
    note_restart(&mut index.restarts, index.entries.len(), at)?;
    let key_from = index.keys.len();
    index.keys.extend_from_slice(k.key)?;
    index.entries.push(Entry {
        ts: k.ts,
        seq: k.seq,
        key_from,
        value_from: at + 8 + f.key.len(),
        value_len: f.value.len() as u32,
        key_len: k.key.len() as u16,
        kind,
    })?;
    index.last_at = at;
    Ok(())
}
