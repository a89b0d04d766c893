//! A block that was read: its image, which it shares, and an index of its entries.

ghost use Rattle.std.specs.Prelude.{◌≡◌, ◌<◌, ◌≤◌, ◌^◌, [], All, IsOk, IfOk, length, slice_index_or};
ghost use Rattle.ts_key.specs.Order.{sort_key_of};
ghost use Rattle.ts_key.specs.Items.{Item, shown, found};
ghost use Rattle.ts_key.specs.Lists.{below};
ghost use Rattle.ts_key.specs.Visible.{visible_item};
ghost use Rattle.ts_key.specs.Lists.{IsSorted};
ghost use Rattle.data_block.specs.Index.{items_at, IsWithin};
ghost use Rattle.data_block.specs.Faults.{ReadsBlock, ReadsImage};

use crate::NoMemory;
use crate::cursor::BlockCursor;
use crate::index::{Entry, Index};
use crate::region::read_region;
use crate::search::{find_in, lower_bound};
use crate::tail::{entries_end, is_tail};
use bytes::Bytes;
use std::alloc::{AllocError, Global};
use std::marker::Model;
use ts_key::{Form, Hit, KeyRef, Seq, Ts};

/// Why a block wasn't read.
#[derive(Clone, Copy, Debug, PartialEq, Eq)]
pub enum BlockFault {
    /// The image is outside the grammar. `at` is its length where the restarts and their count don't fit in it, else
    /// the offset of the first entry that isn't in the grammar, else the offset where the restarts begin.
    Bad { at: u64 },
    /// Memory ran out.
    NoMemory,
}

impl From<AllocError> for BlockFault {
    ghost use Rattle.std.specs.Prelude.{◌≡◌};
    ghost use Rattle.data_block.specs.declared.block.BlockFault.{BlockFault};

    ghost from_gives = { λ _ fault. fault ≡ BlockFault.NoMemory };

    fn from(_: AllocError) -> BlockFault {
        BlockFault::NoMemory
    }
}

/// A block, seen as its versions in stored order.
#[derive(Drop)]
pub struct Block {
    entries_image: Bytes,
    keys: Vec<u8>,
    entries: Vec<Entry>,
}

impl Model for Block {
    ghost use Rattle.std.specs.Prelude.{List, All};
    ghost use Rattle.ts_key.specs.Items.{Item};
    ghost use Rattle.ts_key.specs.Lists.{IsSorted};
    ghost use Rattle.data_block.specs.Index.{items_at, IsWithin};

    ghost Value = { List Item };

    ghost view = { λ b. items_at b.keys.items b.entries_image b.entries.items };

    ghost invariant = { λ b. All (IsWithin b.keys.items b.entries_image) b.entries.items × IsSorted (items_at b.keys.items b.entries_image b.entries.items) };
}

/// Reads the entries of an image and its tail into an index, and answers where the entries end.
pub(crate) fn read_index(
    alloc: Global,
    form: Form,
    image: &[u8],
    x: &mut Index,
) -> Result<usize, BlockFault>
    requires keys { x.old.keys.items ≡ [] }
    requires entries { x.old.entries.items ≡ [] }
    requires restarts { x.old.restarts.items ≡ [] }
    ensures { ReadsImage form image.now x.new result }
{
    let Some(end) = entries_end(image) else {
        return Err(BlockFault::Bad {
            at: image.len() as u64,
        });
    };
    let (region, tail) = image.split_at(end);
    if let Some(at) = read_region(alloc, form, region, x)? {
        return Err(BlockFault::Bad { at: at as u64 });
    }
    if x.entries.is_empty() {
        return Err(BlockFault::Bad { at: end as u64 });
    }
    if !is_tail(alloc, tail, &x.restarts)? {
        return Err(BlockFault::Bad { at: end as u64 });
    }
    Ok(end)
}

impl Block {
    /// The entries of an image. It gives back the memory that their keys and they don't take.
    pub(crate) fn of(entries_image: Bytes, mut keys: Vec<u8>, mut entries: Vec<Entry>) -> Block
        requires within { All (IsWithin keys.items entries_image) entries.items }
        requires sorted { IsSorted (items_at keys.items entries_image entries.items) }
        ensures { result ≡ items_at keys.items entries_image entries.items }
    {
        keys.shrink_to_fit();
        entries.shrink_to_fit();
        Block {
            entries_image,
            keys,
            entries,
        }
    }

    ghost use Rattle.data_block.specs.Cursors.{cursor_items, place_of};

    /// Reads an image, which the block shares. `Bad` comes exactly where it is the block of no list of versions.
    pub fn read(alloc: Global, image: Bytes, form: Form) -> Result<Block, BlockFault>
        ensures { ReadsBlock form image result }
    {
        let mut index = Index::new(alloc);
        let end = read_index(alloc, form, image.as_slice(), &mut index)?;
        let mut entries_image = image;
        entries_image.truncate(end);
        let Index {
            keys,
            entries,
            restarts: _,
            last_at: _,
        } = index;
        Ok(Block::of(entries_image, keys, entries))
    }

    /// The newest version of the key with a timestamp up to `t` and a sequence up to `s`.
    pub fn find(&self, key: &[u8], t: Ts, s: Seq) -> Option<Hit<'_>>
        ensures { found key.now result ≡ visible_item self.now key.now t.0 s.0 }
    {
        find_in(
            &self.keys,
            self.entries_image.as_slice(),
            &self.entries,
            key,
            t,
            s,
        )
    }

    /// A cursor at the first version. Making it takes no memory.
    pub fn cursor(&self, _alloc: Global) -> Result<BlockCursor<'_>, NoMemory>
        ensures made { IsOk result }
        ensures versions { IfOk result (λ c. cursor_items c ≡ self.now) }
        ensures first { IfOk result (λ c. place_of c ≡ 1) }
    {
        let _entries = &self.entries;
        Ok(BlockCursor::new(self))
    }

    pub(crate) fn len(&self) -> usize
        ensures value { result ≡ length self.now }
        ensures bound { result < 2 ^ 63 }
    {
        self.entries.len()
    }

    /// How many versions stand before a key.
    pub(crate) fn before(&self, to: &KeyRef<'_>) -> usize
        ensures value { result ≡ below (sort_key_of to.now) self.now }
        ensures bound { result ≤ length self.now }
        ensures small { result < 2 ^ 63 }
    {
        lower_bound(&self.keys, self.entries_image.as_slice(), &self.entries, to)
    }

    /// The version with an index.
    pub(crate) fn version(&self, i: usize) -> (KeyRef<'_>, Hit<'_>)
        requires { i < length self.now }
        ensures { (d : Item) → shown result ≡ slice_index_or self.now i d }
    {
        let e = &self.entries[i];
        (e.key_ref(&self.keys), e.hit(self.entries_image.as_slice()))
    }
}
