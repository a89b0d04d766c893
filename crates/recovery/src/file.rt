//! Files read whole.

ghost use Rattle.std.specs.Prelude.{◌≡◌, ◌≤◌, IfOk, IfErr, OnOk, IsTrue};
ghost use Rattle.udt_disk.specs.Causes.{IsCause};
ghost use Rattle.udt_disk.specs.Runs.{IsOnlyRead};
ghost use Rattle.udt_disk.specs.declared.name.FileName.{FileName as NameOf};
ghost use Rattle.recovery.specs.Fault.{IsStop, is_open_disk_fault};
ghost use Rattle.recovery.specs.Looks.{Looks};

use crate::OpenFault;
use bytes::Bytes;
use std::alloc::Global;
use udt_disk::{Disk, DiskFile, FileName};

/// All bytes of a file.
fn read_file<F: DiskFile>(alloc: Global, file: &mut F) -> Result<Bytes, OpenFault>
    ensures read { IfOk result (λ bytes. IsTrue (F.is_told file.old) → bytes ≡ F.seen file.old) }
    ensures stopped { IfErr result IsStop }
    ensures same { IsOnlyRead F.DiskFile file.old file.new }
    ensures kept { OnOk result (F.faults file.new ≡ F.faults file.old) }
    ensures cause { IfErr result (λ fault. IsCause (is_open_disk_fault fault) (F.faults file.old) (F.faults file.new)) }
{
    let size = file.len()?;
    let mut bytes = Vec::new(alloc);
    bytes.resize(size as usize, 0)?;
    let count = file.read_at(0, &mut bytes)?;
    bytes.truncate(count);
    match Bytes::from_vec(bytes) {
        Ok(bytes) => Ok(bytes),
        Err(_) => Err(OpenFault::NoMemory),
    }
}

/// All bytes of the file of this name, or None where there is none. The file is given back.
pub(crate) fn read_image<D: Disk>(
    alloc: Global,
    disk: &mut D,
    name: FileName,
) -> Result<Option<Bytes>, OpenFault>
    ensures read { IfOk result (λ image. IsTrue (D.is_told disk.old) → image ≡ D.stands disk.old name) }
    ensures stopped { IfErr result IsStop }
    ensures looks { Looks D.Disk D.File.DiskFile (λ (n : NameOf). n ≡ name) disk.old disk.new }
    ensures kept { OnOk result (D.faults disk.new ≡ D.faults disk.old) }
    ensures cause { IfErr result (λ fault. IsCause (is_open_disk_fault fault) (D.faults disk.old) (D.faults disk.new)) }
    ensures later { D.faults disk.old ≤ D.faults disk.new }
{
    let Some(mut file) = disk.open_file(name)? else {
        return Ok(None);
    };
    let bytes = read_file(alloc, &mut file);
    disk.retire(file);
    match bytes {
        Ok(bytes) => Ok(Some(bytes)),
        Err(fault) => Err(fault),
    }
}
