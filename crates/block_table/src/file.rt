//! The file of a table.

ghost use Rattle.udt_disk.specs.Runs.{WritesSynced};

use udt_disk::{DiskFile, Failed};

/// Writes all bytes to a file at once, from its start on, and syncs it.
pub(crate) fn write_image<F: DiskFile>(file: &mut F, image: &[u8]) -> Result<(), Failed>
    ensures { WritesSynced F.DiskFile 0 image.now file.old file.new result }
{
    file.write_at(0, image)?;
    file.sync()
}
