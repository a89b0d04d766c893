//! Tables that are written to files.

ghost use Rattle.std.specs.Prelude.{◌≡◌, ◌<◌, length, All, IfOk, IsTrue, []};
ghost use Rattle.ts_key.specs.Items.{items_of};
ghost use Rattle.ts_key.specs.Lists.{IsSorted};
ghost use Rattle.ts_key.specs.StoredKeys.{IsStamp, IsSequence};
ghost use Rattle.ts_key.specs.declared.numbers.Family.{Family as FamilyOf};
ghost use Rattle.block_table.specs.Contents.{Contents};
ghost use Rattle.block_table.specs.Reads.{ReadsTable};
ghost use Rattle.block_table.specs.Writes.{WritesTable};
ghost use Rattle.block_table.specs.Pushed.{HasPushed, contents_of};

use crate::file::write_image;
use crate::table::Table;
use crate::writer::TableWriter;
use crate::{NoMemory, TableFault, TableWriteFault};
use bytes::Bytes;
use std::alloc::Global;
use ts_key::{Form, Ts, Version};
use udt_disk::{DiskFile, Failed};

/// The table of these bytes.
fn table_of(alloc: Global, image: Vec<u8>) -> Result<Table, TableFault>
    ensures { ReadsTable image.items result }
{
    match Bytes::from_vec(image) {
        Ok(bytes) => Table::read(alloc, bytes),
        Err(_) => Err(TableFault::NoMemory),
    }
}

impl TableWriter {
    ghost use Rattle.block_table.specs.Pushed.{IsWholeTable};

    /// Writes the table of the versions that were pushed to a file that was just made, in one piece, and syncs it. They were
    /// pushed in the stored order, and there was one. All memory is taken before the first call of the file.
    pub fn finish<F: DiskFile>(self, alloc: Global, file: &mut F) -> Result<Table, TableWriteFault>
        requires whole { (t : Contents) × IsWholeTable self t }
        requires empty { IsTrue (F.is_told file.old) → F.seen file.old ≡ [] }
        ensures { (t : Contents) → IsWholeTable self t → WritesTable F.DiskFile t file.old file.new result }
    {
        let image = self.into_image(alloc)?;
        let table = match table_of(alloc, image) {
            Ok(table) => table,
            Err(TableFault::NoMemory) => return Err(TableWriteFault::NoMemory),
            Err(TableFault::Bad) => unreachable!(),
        };
        match write_image(file, table.bytes()) {
            Ok(()) => Ok(table),
            Err(Failed) => Err(TableWriteFault::DiskFault),
        }
    }
}

/// The writer of these versions.
fn writer_of(
    alloc: Global,
    versions: &[Version],
    form: Form,
    collected_by: Ts,
) -> Result<TableWriter, NoMemory>
    requires some { 0 < length versions.now }
    requires stamps { All (λ v. IsStamp form v.ts.0) versions.now }
    requires sequences { All (λ v. IsSequence v.seq.0) versions.now }
    ensures { (family : FamilyOf) → All (λ v. v.family ≡ family) versions.now → IfOk result (λ w. HasPushed w (contents_of family form collected_by (items_of versions.now))) }
{
    let mut w = TableWriter::new(alloc, versions[0].family, form, collected_by)?;
    for v in versions {
        w.push(alloc, v)?;
    }
    Ok(w)
}

/// Writes the table of versions of one family, in the stored order, to a file that was just made, and syncs it. It answers
/// the table over the bytes that it wrote. All memory is taken before the first call of the file.
pub fn write_table<F: DiskFile>(
    alloc: Global,
    versions: &[Version],
    form: Form,
    collected_by: Ts,
    file: &mut F,
) -> Result<Table, TableWriteFault>
    requires some { 0 < length versions.now }
    requires one_family { (family : FamilyOf) × All (λ v. v.family ≡ family) versions.now }
    requires sorted { IsSorted (items_of versions.now) }
    requires stamps { All (λ v. IsStamp form v.ts.0) versions.now }
    requires sequences { All (λ v. IsSequence v.seq.0) versions.now }
    requires empty { IsTrue (F.is_told file.old) → F.seen file.old ≡ [] }
    ensures { (family : FamilyOf) → All (λ v. v.family ≡ family) versions.now → WritesTable F.DiskFile (contents_of family form collected_by (items_of versions.now)) file.old file.new result }
{
    let writer = writer_of(alloc, versions, form, collected_by)?;
    writer.finish(alloc, file)
}
