//! A table as it is written, version by version.

ghost use Rattle.std.specs.Prelude.{◌≡◌, ◌<◌, ◌≤◌, ◌+◌, ◌^◌, List, [], ◌∷◌, ◌++◌, length, IsOk, OnOk, IfOk, Some};
ghost use Rattle.ts_key.specs.Items.{Item, item_of};
ghost use Rattle.ts_key.specs.StoredKeys.{IsStamp, IsSequence, IsItem};
ghost use Rattle.data_block.specs.Grammar.{block_target};
ghost use Rattle.data_block.specs.Written.{HasWritten};
ghost use Rattle.block_table.specs.Contents.{Contents};
ghost use Rattle.block_table.specs.Tables.{index, properties, with_footer};
ghost use Rattle.block_table.specs.Ranges.{IsRangeOf};
ghost use Rattle.block_table.specs.Forms.{form_prop};

use crate::NoMemory;
use crate::handle::BlockHandle;
use crate::properties::Properties;
use crate::spelling::{put_footer, put_index, put_properties};
use crate::tally::Tally;
use data_block::BlockWriter;
use std::alloc::{AllocError, Global};
use std::mem;
use ts_key::{Family, Form, Key, Ts, Version};

/// The least and the greatest key.
#[derive(Debug, Drop)]
pub(crate) struct KeyRange {
    pub(crate) least: Key,
    pub(crate) greatest: Key,
}

/// A table as it is written. After `NoMemory` it serves no more.
#[derive(Drop)]
pub struct TableWriter {
    family: Family,
    form: Form,
    collected_by: Ts,
    /// The blocks that are done.
    blocks: Vec<u8>,
    handles: Vec<BlockHandle>,
    /// The block that isn't.
    block: BlockWriter,
    /// How many versions that has.
    versions: u64,
    tally: Tally,
    range: Option<KeyRange>,
    ghost room: { length block.entries < block_target },
    ghost alike: { block.form ≡ form } by { form_prop block.form form },
    ghost within: { versions ≤ tally.count },
}

/// The range with one key more, which stands after the others.
fn widened(range: Option<KeyRange>, key: &Key) -> Result<KeyRange, NoMemory>
    ensures { (vs : List Item) (v : Item) → IsRangeOf range vs → v.sort_key.key ≡ key.now → IfOk result (λ r. IsRangeOf (Some r) (vs ++ v ∷ [])) }
{
    let greatest = key.copy()?;
    match range {
        Some(r) => {
            let KeyRange { least, greatest: _ } = r;
            Ok(KeyRange { least, greatest })
        }
        None => {
            let least = key.copy()?;
            Ok(KeyRange { least, greatest })
        }
    }
}

/// Adds what stands behind the blocks.
pub(crate) fn put_tail(
    out: &mut Vec<u8>,
    handles: &[BlockHandle],
    p: &Properties,
) -> Result<(), NoMemory>
    requires { length handles.now < 2 ^ 32 }
    ensures { OnOk result (out.new.items ≡ with_footer out.old.items (index handles.now) (properties p.now)) }
{
    let index_at = out.len() as u64;
    put_index(out, handles)?;
    let properties_at = out.len() as u64;
    put_properties(out, p)?;
    put_footer(out, index_at, properties_at)?;
    Ok(())
}

impl TableWriter {
    ghost use Rattle.block_table.specs.Pushed.{IsBehind, IsOpen, HasPushed, HaveBlockBytes, AreBlocksDone, IsSpelled, contents_of, and_version};

    /// A writer that no version was pushed to. It takes no memory yet.
    pub fn new(
        alloc: Global,
        family: Family,
        form: Form,
        collected_by: Ts,
    ) -> Result<TableWriter, NoMemory>
        ensures made { IsOk result }
        ensures form { IfOk result (λ w. w.form ≡ form) }
        ensures pushed { IfOk result (λ w. HasPushed w (contents_of family form collected_by [])) }
    {
        let block = BlockWriter::new(alloc, form)?;
        Ok(TableWriter {
            family,
            form,
            collected_by,
            blocks: Vec::new(alloc),
            handles: Vec::new(alloc),
            block,
            versions: 0,
            tally: Tally::new(),
            range: None,
        })
    }

    /// Puts a block behind those that are done.
    fn close(&mut self, block: BlockWriter) -> Result<(), NoMemory>
        ensures form { self.new.form ≡ self.old.form }
        ensures closed { (t : Contents) (done : List (List Item)) (open_items : List Item) → IsBehind self.old t done open_items → IsOpen t.form block open_items → OnOk result (IsBehind self.new t (done ++ open_items ∷ []) []) }
        ensures block { self.new.block ≡ self.old.block }
    {
        if self.versions > u32::MAX as u64 {
            return Err(AllocError);
        }
        let bytes = block.finish()?;
        self.handles.push(BlockHandle {
            offset: self.blocks.len() as u64,
            length: bytes.len() as u64,
            versions: self.versions as u32,
        })?;
        self.versions = 0;
        self.blocks.extend_from_slice(&bytes)?;
        Ok(())
    }

    /// Takes the open block out, and puts an empty one in its place.
    fn take_block(&mut self, alloc: Global) -> Result<BlockWriter, NoMemory>
        ensures taken { IfOk result (λ block. block ≡ self.old.block) }
        ensures empty { OnOk result (HasWritten self.new.block []) }
        ensures form { self.new.form ≡ self.old.form }
        ensures kept { (t : Contents) (done : List (List Item)) (open_items : List Item) → IsBehind self.old t done open_items → IsBehind self.new t done open_items }
    {
        let empty = BlockWriter::new(alloc, self.form)?;
        Ok(mem::replace(&mut self.block, empty))
    }

    /// Notes a version that comes into the open block.
    fn note(&mut self, v: &Version) -> Result<(), NoMemory>
        ensures form { self.new.form ≡ self.old.form }
        ensures block { self.new.block ≡ self.old.block }
        ensures noted { (t : Contents) (done : List (List Item)) (open_items : List Item) → IsBehind self.old t done open_items → IsItem t.form (item_of v.now) → OnOk result (IsBehind self.new (and_version t v.now) done (open_items ++ item_of v.now ∷ [])) }
    {
        if self.tally.count == u64::MAX {
            return Err(AllocError);
        }
        let range = widened(self.range.take(), &v.key)?;
        self.range = Some(range);
        self.tally = self.tally.and(v.ts, v.seq);
        self.versions += 1;
        Ok(())
    }

    /// Adds a version of the writer's family, which the form can spell. The family of `v` isn't looked at.
    pub fn push(&mut self, alloc: Global, v: &Version) -> Result<(), NoMemory>
        requires stamp { IsStamp self.old.form v.now.ts.0 }
        requires sequence { IsSequence v.now.seq.0 }
        ensures form { self.new.form ≡ self.old.form }
        ensures pushed { (t : Contents) → HasPushed self.old t → OnOk result (HasPushed self.new (and_version t v.now)) }
    {
        let mut block = self.take_block(alloc)?;
        block.push(v)?;
        self.note(v)?;
        if block.full() {
            self.close(block)?;
            return Ok(());
        }
        self.block = block;
        Ok(())
    }

    /// How many bytes the blocks of the table would have if it ended here.
    pub fn bytes(&self) -> usize
        ensures { (t : Contents) → HasPushed self.now t → HaveBlockBytes t result }
    {
        if self.versions == 0 {
            return self.blocks.len();
        }
        self.blocks.len() + self.block.size()
    }

    /// With the open block put behind the others, if it has a version.
    fn closed(self, alloc: Global) -> Result<TableWriter, NoMemory>
        ensures { (t : Contents) → HasPushed self t → 0 < length t.items → IfOk result (λ w. (cuts : List (List Item)) × AreBlocksDone w t cuts) }
    {
        let mut w = self;
        if w.versions == 0 {
            return Ok(w);
        }
        let block = w.take_block(alloc)?;
        w.close(block)?;
        Ok(w)
    }

    /// The bytes of the table, where no block is open.
    fn spell(self) -> Result<Vec<u8>, NoMemory>
        ensures { (t : Contents) (cuts : List (List Item)) → AreBlocksDone self t cuts → IfOk result (λ image. IsSpelled t image.items) }
    {
        let TableWriter {
            family,
            form,
            collected_by,
            blocks: mut out,
            handles,
            block: _,
            versions: _,
            tally,
            range,
        } = self;
        let Some(KeyRange { least, greatest }) = range else {
            return Err(AllocError);
        };
        if handles.len() > u32::MAX as usize {
            return Err(AllocError);
        }
        let p = Properties {
            family,
            form,
            count: tally.count,
            least,
            greatest,
            least_seq: tally.least_seq,
            greatest_seq: tally.greatest_seq,
            greatest_ts: tally.greatest_ts,
            collected_by,
        };
        put_tail(&mut out, &handles, &p)?;
        Ok(out)
    }

    /// The table of the versions that were pushed.
    pub(crate) fn into_image(self, alloc: Global) -> Result<Vec<u8>, NoMemory>
        ensures { (t : Contents) → HasPushed self t → 0 < length t.items → IfOk result (λ image. IsSpelled t image.items) }
    {
        let w = self.closed(alloc)?;
        w.spell()
    }
}
