//! The format of a block, and its writer. A block is entries, and then where every sixteenth of them begins:
//!
//!    block    := entry+ restart* count:u32        as many restarts as the count says
//!    entry    := shared:u16 unshared:u16 length:u32 key value
//!    key      := the bytes of the stored key behind the first `shared` ones, `unshared` of them
//!    value    := `length` bytes; none for a delete
//!    restart  := offset:u32                       of an entry whose index from 0 is a multiple of 16
//!
//! Numbers are little-endian. An entry at a restart shares nothing; each other one shares exactly the common prefix of
//! its stored key with the one before it. The versions stand in the stored order, no two at one place.

ghost use Rattle.std.specs.Prelude.{◌≡◌, ◌<◌, ◌≤◌, ◌+◌, ◌^◌, List, [], ◌∷◌, ◌++◌, length, IsTrue, ◌↔◌, IsOk, IfOk, OnOk, OnErr};
ghost use Rattle.ts_key.specs.Numbers.{number_bytes};
ghost use Rattle.ts_key.specs.StoredKeys.{IsStamp, IsSequence, stored_key, IsStored};
ghost use Rattle.ts_key.specs.Items.{Item, item_of};
ghost use Rattle.data_block.specs.Grammar.{IsBlock, block, block_target, entry, numbers, shared, restart};
ghost use Rattle.ts_key.specs.Lists.{IsSorted};
ghost use Rattle.ts_key.specs.Writing.{Extends};
ghost use Rattle.data_block.specs.Written.{HasWritten};

use crate::NoMemory;
use std::alloc::Global;
use std::marker::Model;
use std::mem::swap;
use ts_key::coding::{put_bytes, put_u16, put_u32};
use ts_key::{Form, Version, encode_key_as};
use ts_lanes::common_prefix;

/// The bytes of entries from which on a block is full.
pub const BLOCK_TARGET: usize = 4096;

/// From one restart to the next there are so many entries.
pub const RESTART_INTERVAL: usize = 16;

/// A block as it is written, entry by entry.
#[derive(Debug, Drop)]
pub struct BlockWriter {
    form: Form,
    out: Vec<u8>,
    restarts: Vec<u32>,
    count: usize,
    last: Vec<u8>,
    key: Vec<u8>,
}

impl Model for BlockWriter {
    ghost use Rattle.std.specs.Prelude.{◌<◌, ◌≤◌, ◌^◌, length};
    ghost use Rattle.data_block.specs.Written.{Written};

    ghost Value = { Written };

    ghost view = { λ w. record { form = w.form; entries = w.out.items; restarts = w.restarts.items; count = w.count; last = w.last.items } };

    ghost invariant = { λ w. (length w.out.items < 2 ^ 17) × (length w.restarts.items ≤ w.count) × (w.count ≤ length w.out.items) };
}

/// Adds the entry of a stored key and a value.
#[tactic(auto, using(ts_key::proofs::Writing::extends_on, std::proofs::lemmas::List::append_assoc))]
fn put_entry(out: &mut Vec<u8>, shared: usize, key: &[u8], value: &[u8]) -> Result<(), NoMemory>
    requires shared { shared ≤ length key.now }
    requires key { length key.now < 2 ^ 16 }
    requires value { length value.now < 2 ^ 32 }
    ensures written { OnOk result (out.new.items ≡ out.old.items ++ entry shared key.now value.now) }
    ensures extends { Extends out.old.items out.new.items }
{
    let (_, rest) = key.split_at(shared);
    put_u16(out, shared as u16)?;
    put_u16(out, (key.len() - shared) as u16)?;
    put_u32(out, value.len() as u32)?;
    put_bytes(out, rest)?;
    put_bytes(out, value)
}

/// The same, with nothing added where memory is wanting.
fn append_entry(out: &mut Vec<u8>, shared: usize, key: &[u8], value: &[u8]) -> Result<(), NoMemory>
    requires shared { shared ≤ length key.now }
    requires key { length key.now < 2 ^ 16 }
    requires value { length value.now < 2 ^ 32 }
    ensures written { OnOk result (out.new.items ≡ out.old.items ++ entry shared key.now value.now) }
    ensures kept { OnErr result (out.new.items ≡ out.old.items) }
{
    let end = out.len();
    match put_entry(out, shared, key, value) {
        Ok(()) => Ok(()),
        Err(e) => {
            out.truncate(end);
            Err(e)
        }
    }
}

/// How many bytes of its stored key the entry with index `count` shares with the one before it.
fn shared_len(count: usize, last: &[u8], key: &[u8]) -> usize
    ensures shared { result ≡ shared count last.now key.now }
    ensures within { result ≤ length key.now }
{
    if count % RESTART_INTERVAL == 0 {
        return 0;
    }
    common_prefix(last, key)
}

/// Notes the offset of the entry with index `count`, where it is a restart.
fn note_restart(restarts: &mut Vec<u32>, count: usize, at: u32) -> Result<(), NoMemory>
    ensures noted { OnOk result (restarts.new.items ≡ restarts.old.items ++ restart count at) }
    ensures kept { OnErr result (restarts.new.items ≡ restarts.old.items) }
{
    if count % RESTART_INTERVAL == 0 {
        restarts.push(at)?;
    }
    Ok(())
}

/// Adds the restarts and their count.
pub(crate) fn put_numbers(out: &mut Vec<u8>, ns: &[u32]) -> Result<(), NoMemory>
    requires { length ns.now < 2 ^ 32 }
    ensures { OnOk result (out.new.items ≡ out.old.items ++ numbers ns.now) }
{
    for n in ns {
        put_u32(out, *n)?;
    }
    put_u32(out, ns.len() as u32)
}

impl BlockWriter {
    /// A writer that has written nothing. Making it takes no memory.
    pub fn new(alloc: Global, form: Form) -> Result<BlockWriter, NoMemory>
        ensures made { IsOk result }
        ensures form { IfOk result (λ w. w.form ≡ form) }
        ensures written { IfOk result (λ w. HasWritten w []) }
    {
        Ok(BlockWriter {
            form,
            out: Vec::new(alloc),
            restarts: Vec::new(alloc),
            count: 0,
            last: Vec::new(alloc),
            key: Vec::new(alloc),
        })
    }

    /// Adds a version, which the writer's form can spell, to a block that isn't full. Versions come in the stored
    /// order, each after the last one: only then `Block::read` reads back what `finish` gives. After `NoMemory` the
    /// writer is as before. It copies the version's key twice and its value once.
    pub fn push(&mut self, v: &Version) -> Result<(), NoMemory>
        requires room { length self.old.entries < block_target }
        requires stamp { IsStamp self.old.form v.now.ts.0 }
        requires sequence { IsSequence v.now.seq.0 }
        ensures pushed { (vs : List Item) → HasWritten self.old vs
            → OnOk result (HasWritten self.new (vs ++ item_of v.now ∷ [])) }
        ensures form { self.new.form ≡ self.old.form }
        ensures kept { OnErr result (self.new ≡ self.old) }
    {
        self.key.clear();
        encode_key_as(self.form, v, &mut self.key)?;
        let at = self.out.len();
        let shared = shared_len(self.count, &self.last, &self.key);
        append_entry(&mut self.out, shared, &self.key, v.op.value())?;
        if let Err(e) = note_restart(&mut self.restarts, self.count, at as u32) {
            self.out.truncate(at);
            return Err(e);
        }
        swap(&mut self.last, &mut self.key);
        self.count += 1;
        Ok(())
    }

    /// It takes no more versions: its entries have at least `BLOCK_TARGET` bytes.
    pub fn full(&self) -> bool
        ensures { IsTrue result ↔ (block_target ≤ length self.now.entries) }
    {
        self.out.len() >= BLOCK_TARGET
    }

    /// How many bytes the block would have if it ended here.
    pub fn size(&self) -> usize
        ensures value { (vs : List Item) → HasWritten self.now vs → result ≡ length (block self.now.form vs) }
        ensures bound { result < 2 ^ 20 }
    {
        self.out.len() + 4 * self.restarts.len() + 4
    }

    /// The block of the versions that were pushed. `Block::read` reads it back where they came in the stored order and
    /// there is one.
    pub fn finish(self) -> Result<Vec<u8>, NoMemory>
        ensures written { (vs : List Item) → HasWritten self vs
            → IfOk result (λ image. image.items ≡ block self.form vs) }
        ensures readable { (vs : List Item) → HasWritten self vs → IsSorted vs → 0 < length vs → IsBlock self.form vs }
    {
        let BlockWriter {
            form: _,
            mut out,
            restarts,
            count: _,
            last: _,
            key: _,
        } = self;
        put_numbers(&mut out, &restarts)?;
        Ok(out)
    }
}
