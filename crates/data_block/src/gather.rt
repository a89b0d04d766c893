//! Blocks of one image, read one after the other into one index.

ghost use Rattle.std.specs.Prelude.{◌≡◌, ◌≤◌, ◌+◌, ◌<◌, ◌^◌, ◌++◌, [], All, IsTrue, ◌↔◌, OnOk, length, slice_range};
ghost use Rattle.ts_key.specs.Lists.{IsSorted};
ghost use Rattle.data_block.specs.Index.{items_at, IsWithin};
ghost use Rattle.data_block.specs.Regions.{items_in};
ghost use Rattle.data_block.specs.Gathered.{ComesAfter, GathersBlock};

use crate::NoMemory;
use crate::block::{Block, BlockFault, read_index};
use crate::index::{Entry, Index, is_last_before};
use bytes::Bytes;
use std::alloc::Global;
use std::marker::Model;
use ts_key::Form;

/// What a block that was read says of how its versions were cut.
#[derive(Clone, Copy, Debug, PartialEq, Eq)]
pub struct BlockCut {
    /// How many versions it has.
    pub versions: usize,
    /// The bytes of its entries.
    pub entries: usize,
    /// The bytes of the entries before its last.
    pub before_last: usize,
    /// Its first version stands after the last one before it.
    pub follows: bool,
}

/// Blocks of one image that were read, seen as the image and their versions, one block after the other.
#[derive(Drop)]
pub struct Gathering {
    image: Bytes,
    keys: Vec<u8>,
    entries: Vec<Entry>,
}

impl Model for Gathering {
    ghost use Rattle.std.specs.Prelude.{All};
    ghost use Rattle.data_block.specs.Index.{items_at, IsWithin};
    ghost use Rattle.data_block.specs.Gathered.{Gathered};

    ghost Value = { Gathered };

    ghost view = { λ g. record { image = g.image; items = items_at g.keys.items g.image g.entries.items } };

    ghost invariant = { λ g. All (IsWithin g.keys.items g.image) g.entries.items };
}

/// The first entry of a block stands after the last one before it.
fn follows(image: &[u8], keys: &[u8], entries: &[Entry], region: &[u8], x: &Index) -> bool
    requires before { All (IsWithin keys.now image.now) entries.now }
    requires within { All (IsWithin x.now.keys.items region.now) x.now.entries.items }
    ensures { IsTrue result ↔ ComesAfter (items_at keys.now image.now entries.now) (items_in region.now x.now) }
{
    if x.entries.is_empty() {
        return true;
    }
    let first = x.entries[0].key_ref(&x.keys);
    is_last_before(image, keys, entries, &first)
}

/// Puts the entries of a block, which begins at an offset of the image, behind those before them.
fn append(
    image: &[u8],
    keys: &mut Vec<u8>,
    entries: &mut Vec<Entry>,
    region: &[u8],
    x: &Index,
    from: usize,
) -> Result<(), NoMemory>
    requires before { All (IsWithin keys.old.items image.now) entries.old.items }
    requires within { All (IsWithin x.now.keys.items region.now) x.now.entries.items }
    requires there { region.now ≡ slice_range image.now from (from + length region.now) }
    requires inside { from + length region.now ≤ length image.now }
    ensures within { All (IsWithin keys.new.items image.now) entries.new.items }
    ensures items { OnOk result (items_at keys.new.items image.now entries.new.items
        ≡ items_at keys.old.items image.now entries.old.items ++ items_in region.now x.now) }
{
    let base = keys.len();
    keys.extend_from_slice(&x.keys)?;
    for e in &x.entries {
        entries.push(Entry {
            key_from: base + e.key_from,
            value_from: from + e.value_from,
            ..*e
        })?;
    }
    Ok(())
}

impl Gathering {
    /// Nothing of an image was read. Making it takes no memory.
    pub fn new(alloc: Global, image: Bytes) -> Gathering
        ensures image { result.image ≡ image }
        ensures items { result.items ≡ [] }
    {
        Gathering {
            image,
            keys: Vec::new(alloc),
            entries: Vec::new(alloc),
        }
    }

    /// Reads the block between two offsets of the image, and puts its versions behind those before. `Bad` comes
    /// exactly where these bytes are no block: its `at` counts from `from`, and the value stays as it was. After
    /// `NoMemory` the value serves no more, as a part of the block may be in it. It takes time linear in these bytes
    /// and in the block's keys, which it joins and then copies behind those before, and one comparison of keys for
    /// each version.
    pub fn add(
        &mut self,
        alloc: Global,
        form: Form,
        from: usize,
        to: usize,
    ) -> Result<BlockCut, BlockFault>
        requires order { from ≤ to }
        requires within { to ≤ length self.old.image }
        ensures image { self.new.image ≡ self.old.image }
        ensures added { GathersBlock form (slice_range self.old.image from to) self.old.items self.new.items result }
    {
        let mut x = Index::new(alloc);
        let image = self.image.as_slice();
        let end = read_index(alloc, form, &image[from..to], &mut x)?;
        let region = &image[from..from + end];
        let follows = follows(image, &self.keys, &self.entries, region, &x);
        append(image, &mut self.keys, &mut self.entries, region, &x, from)?;
        Ok(BlockCut {
            versions: x.entries.len(),
            entries: end,
            before_last: x.last_at,
            follows,
        })
    }

    /// All that was read, as one list that is sorted over its blocks.
    pub fn finish(self) -> Block
        requires { IsSorted self.items }
        ensures { result ≡ self.items }
    {
        let Gathering {
            image,
            keys,
            entries,
        } = self;
        Block::of(image, keys, entries)
    }
}
