//! Small pieces of work on a folder.
ghost use Rattle.std.specs.Prelude.{◌≡◌, ◌≢◌, ◌⊎◌, ◌∷◌, [], ℕ, List, Some, is_some, IfOk, OnOk, OnErr, IsTrue};
ghost use Rattle.udt_disk.specs.Causes.{HasCause};
ghost use Rattle.udt_disk.specs.Crash.{Only};
ghost use Rattle.udt_disk.specs.Moments.{OnlyReads, alone};
ghost use Rattle.udt_disk.specs.Touches.{Touches};
ghost use Rattle.udt_disk.specs.declared.name.FileName.{FileName as NameOf};
ghost use Rattle.udt_disk.specs.declared.name.FileName.TheVariants.{Manifest0, Manifest1, Current};
ghost use Rattle.manifest.specs.Folders.{IsManifestName, chosen_by};

use udt_disk::{Disk, DiskFile, Failed, FileName};

/// The first byte of a `CURRENT` that chooses `MANIFEST-1`.
const CHOOSES_OTHER: u8 = 0xA5;

/// Is there a file of this name?
pub(crate) fn is_there<D: Disk>(disk: &mut D, name: FileName) -> Result<bool, Failed>
    ensures there { IfOk result (λ b. IsTrue (D.is_told disk.old) → b ≡ is_some (D.stands disk.old name)) }
    ensures looks { OnlyReads D.Disk D.File.DiskFile (alone disk.old) (alone disk.new) }
    ensures touches { Touches D.Disk (λ (n : NameOf). n ≡ name) disk.old disk.new }
    ensures cause { HasCause (D.faults disk.old) (D.faults disk.new) result }
{
    match disk.open_file(name)? {
        None => Ok(false),
        Some(file) => {
            disk.retire(file);
            Ok(true)
        }
    }
}

/// The name of the chosen manifest, by `CURRENT`.
pub(crate) fn chosen<D: Disk>(disk: &mut D) -> Result<FileName, Failed>
    ensures chosen { IfOk result (λ name. IsTrue (D.is_told disk.old) → name ≡ chosen_by (D.stands disk.old Current)) }
    ensures either { IfOk result IsManifestName }
    ensures looks { OnlyReads D.Disk D.File.DiskFile (alone disk.old) (alone disk.new) }
    ensures touches { Touches D.Disk (λ (n : NameOf). n ≡ Current) disk.old disk.new }
    ensures cause { HasCause (D.faults disk.old) (D.faults disk.new) result }
{
    let Some(mut file) = disk.open_file(FileName::Current)? else {
        return Ok(FileName::Manifest0);
    };
    let mut first = [0];
    match file.read_at(0, &mut first) {
        Ok(count) => {
            disk.retire(file);
            Ok(choice(&first[..count]))
        }
        Err(Failed) => {
            disk.retire(file);
            Err(Failed)
        }
    }
}

/// The manifest that a `CURRENT` with this front chooses.
fn choice(front: &[u8]) -> FileName
    ensures chosen { result ≡ chosen_by (Some front.now) }
    ensures either { IsManifestName result }
{
    if !front.is_empty() && front[0] == CHOOSES_OTHER {
        FileName::Manifest1
    } else {
        FileName::Manifest0
    }
}

/// Makes an empty file of this name, or empties the one that is there, and syncs it.
pub(crate) fn make_empty<D: Disk>(disk: &mut D, name: FileName) -> Result<(), Failed>
    ensures empty { OnOk result (IsTrue (D.is_told disk.old) → D.stands disk.new name ≡ Some []) }
    ensures durable { OnOk result (IsTrue (D.is_told disk.old) → Only [] (D.may_leave disk.new name)) }
    ensures failed { OnErr result (IsTrue (D.is_told disk.old) → (D.stands disk.new name ≡ D.stands disk.old name) ⊎ (D.stands disk.new name ≡ Some [])) }
    ensures touches { Touches D.Disk (λ (n : NameOf). n ≡ name) disk.old disk.new }
    ensures cause { HasCause (D.faults disk.old) (D.faults disk.new) result }
{
    let mut file = disk.create(name)?;
    let synced = file.sync();
    disk.retire(file);
    synced
}
