//! A table in memory: its image, its properties, and one index of all its versions.

ghost use Rattle.std.specs.Prelude.{◌≡◌, ◌<◌, ◌^◌, Some, IsOk, IfOk, IsTrue, ◌↔◌, length, option_map};
ghost use Rattle.ts_key.specs.Items.{Item, found};
ghost use Rattle.ts_key.specs.Lists.{standing};
ghost use Rattle.ts_key.specs.Visible.{visible_item, newest_ts};
ghost use Rattle.data_block.specs.Cursors.{cursor_items, place_of};
ghost use Rattle.block_table.specs.Contents.{properties_of};
ghost use Rattle.block_table.specs.Tallies.{tally_of};
ghost use Rattle.block_table.specs.Tables.{properties};
ghost use Rattle.block_table.specs.Reads.{ReadsContents, contents_with};

use crate::gather::read_blocks;
use crate::index::read_index;
use crate::parts::{Head, head_of, parts_of};
use crate::properties::Properties;
use crate::spelling::put_properties;
use crate::tally::Tally;
use crate::{NoMemory, TableFault};
use bytes::Bytes;
use data_block::{Block, BlockCursor};
use merge_cursor::Cursor;
use std::alloc::{AllocError, Global};
use std::marker::Model;
use ts_key::{Hit, Key, Seq, Ts};

/// A table, which was read or written.
#[derive(Drop)]
pub struct Table {
    image: Bytes,
    properties: Properties,
    versions: Block,
}

impl Model for Table {
    ghost use Rattle.std.specs.Prelude.{◌≡◌};
    ghost use Rattle.std.specs.List.{AllByRecursion};
    ghost use Rattle.ts_key.specs.StoredKeys.{IsItem};
    ghost use Rattle.block_table.specs.Contents.{properties_of};
    ghost use Rattle.block_table.specs.Held.{Held};
    ghost use Rattle.block_table.specs.Reads.{contents_in};

    ghost Value = { Held };

    ghost view = { λ t. record { image = t.image; contents = contents_in t.properties t.versions } };

    ghost invariant = { λ t. (t.properties ≡ properties_of (contents_in t.properties t.versions)) × AllByRecursion (IsItem t.properties.form) t.versions };
}

/// A walk over all versions of a table goes by the calls of a walk over one block.
pub type TableCursor<'a> = BlockCursor<'a>;

/// Counts all versions.
fn tally_in(alloc: Global, versions: &Block) -> Result<Tally, NoMemory>
    ensures { IfOk result (λ tally. tally ≡ tally_of versions.now) }
{
    let mut tally = Tally::new();
    let mut c = versions.cursor(alloc)?;
    while let Some((key, _)) = c.at() {
        if tally.count == u64::MAX {
            return Err(AllocError);
        }
        tally = tally.and(key.ts, key.seq);
        c.next();
    }
    Ok(tally)
}

/// The key where a cursor stands.
fn key_at(alloc: Global, c: &BlockCursor<'_>) -> Result<Key, NoMemory>
    ensures { (v : Item) → Some v ≡ standing (cursor_items c.now) (place_of c.now) → IfOk result (λ key. key ≡ v.sort_key.key) }
{
    let Some((k, _)) = c.at() else {
        return Err(AllocError);
    };
    match Key::of(alloc, k.key) {
        Ok(key) => Ok(key),
        Err(_) => Err(AllocError),
    }
}

/// The properties of a table with these versions.
fn properties_in(alloc: Global, head: &Head, versions: &Block) -> Result<Properties, NoMemory>
    requires { 0 < length versions.now }
    ensures { IfOk result (λ p. p ≡ properties_of (contents_with head.now versions.now)) }
{
    let tally = tally_in(alloc, versions)?;
    let mut c = versions.cursor(alloc)?;
    let least = key_at(alloc, &c)?;
    c.seek_end();
    c.prev();
    let greatest = key_at(alloc, &c)?;
    Ok(Properties {
        family: head.family,
        form: head.form,
        count: tally.count,
        least,
        greatest,
        least_seq: tally.least_seq,
        greatest_seq: tally.greatest_seq,
        greatest_ts: tally.greatest_ts,
        collected_by: head.collected_by,
    })
}

/// The bytes are the spelling of the properties.
fn is_spelled(alloc: Global, p: &Properties, bytes: &[u8]) -> Result<bool, NoMemory>
    ensures { IfOk result (λ same. IsTrue same ↔ (bytes.now ≡ properties p.now)) }
{
    let mut spelled = Vec::new(alloc);
    put_properties(&mut spelled, p)?;
    Ok(bytes == spelled.as_slice())
}

/// The properties and the versions of the table that an image is.
fn read_contents(alloc: Global, image: &Bytes) -> Result<(Properties, Block), TableFault>
    ensures { ReadsContents image.now result }
{
    let Some(parts) = parts_of(image.as_slice()) else {
        return Err(TableFault::Bad);
    };
    let Some(head) = head_of(parts.properties) else {
        return Err(TableFault::Bad);
    };
    let handles = match read_index(alloc, parts.index)? {
        Some(handles) => handles,
        None => return Err(TableFault::Bad),
    };
    let end = parts.blocks.len();
    let versions = read_blocks(alloc, head.form, image.clone()?, end, &handles)?;
    let p = properties_in(alloc, &head, &versions)?;
    if !is_spelled(alloc, &p, parts.properties)? {
        return Err(TableFault::Bad);
    }
    Ok((p, versions))
}

impl Table {
    ghost use Rattle.block_table.specs.Reads.{ReadsTable};

    /// Reads an image, which the table shares, in time linear in its bytes. `Bad` comes exactly where it is no table.
    pub fn read(alloc: Global, image: Bytes) -> Result<Table, TableFault>
        ensures { ReadsTable image result }
    {
        let (properties, versions) = read_contents(alloc, &image)?;
        Ok(Table {
            image,
            properties,
            versions,
        })
    }

    /// The newest version of the key with a timestamp up to `t` and a sequence up to `s`.
    pub fn find(&self, key: &[u8], t: Ts, s: Seq) -> Option<Hit<'_>>
        ensures { found key.now result ≡ visible_item self.now.contents.items key.now t.0 s.0 }
    {
        self.versions.find(key, t, s)
    }

    /// The greatest timestamp of the key, if it has a version.
    pub fn newest(&self, key: &[u8]) -> Option<Ts>
        ensures { option_map (λ ts. ts.0) result ≡ newest_ts self.now.contents.items key.now }
    {
        let _image = &self.image;
        match self.find(key, Ts(u64::MAX), Seq(u64::MAX)) {
            Some(hit) => Some(hit.ts),
            None => None,
        }
    }

    /// What it says of its versions.
    pub fn properties(&self) -> &Properties
        ensures { result.now ≡ properties_of self.now.contents }
    {
        &self.properties
    }

    /// Its bytes.
    pub(crate) fn bytes(&self) -> &[u8]
        ensures { result.now ≡ self.now.image }
    {
        self.image.as_slice()
    }

    /// How many bytes it has.
    pub fn size(&self) -> u64
        ensures { result ≡ length self.now.image }
    {
        self.image.len() as u64
    }

    /// A cursor at the first version. It takes no memory yet.
    pub fn cursor(&self, alloc: Global) -> Result<TableCursor<'_>, NoMemory>
        ensures made { IsOk result }
        ensures versions { IfOk result (λ c. cursor_items c ≡ self.now.contents.items) }
        ensures first { IfOk result (λ c. place_of c ≡ 1) }
    {
        self.versions.cursor(alloc)
    }
}
