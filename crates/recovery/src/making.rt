//! Making a store in a folder that has none. `MADE` comes last, once the first log and the manifest are on the disk, so
//! at each moment there is no store, or one in which nothing was written.
ghost use Rattle.std.specs.Prelude.{◌≡◌, ◌⊎◌, ◌∷◌, [], ℕ, ◌≤◌, Some, IfErr, OnOk, OnErr, IsErrOf, IsTrue};
ghost use Rattle.udt_disk.specs.Causes.{IsCause};
ghost use Rattle.udt_disk.specs.Crash.{NoMore, Only};
ghost use Rattle.udt_disk.specs.Joint.{Folder, LeavesNow, Ran};
ghost use Rattle.udt_disk.specs.Moments.{MayLeaveFolder, OnlyReads, alone};
ghost use Rattle.udt_disk.specs.Touches.{Touches};
ghost use Rattle.udt_disk.specs.declared.name.FileName.{FileName as NameOf};
ghost use Rattle.udt_disk.specs.declared.name.FileName.TheVariants.{Log, Made};
ghost use Rattle.gate_log.specs.Faults.{is_log_disk_fault};
ghost use Rattle.manifest.specs.Folders.{Means};
ghost use Rattle.manifest.specs.Folders.Meaning.{no_store, store};
ghost use Rattle.manifest.specs.Folds.{fold_of};
ghost use Rattle.manifest.specs.Heads.{AreNew};
ghost use Rattle.manifest.specs.Making.{IsEarlyName, IsStoreName, IsUnmade, IsNoneOrAll};
ghost use Rattle.recovery.specs.Making.{is_init_disk_fault, RefusesMaking, IsMakingRefusal, IsMakingName, IsNewStore, IsNoneOrNew, KeepsOthers};

use crate::InitFault;
use gate_log::LogFault;
use manifest::{Head, Manifest, ManifestFault};
use std::alloc::{AllocError, Global};
use ts_key::{FAMILY_LIMIT, FIRST_LOG, STAMP_SIZE};
use udt_disk::Disk;
use wal::{Sizes, Wal};

/// Makes a store of these families in a folder that has none. Where one is there, or its manifest is bad, nothing is
/// written.
pub fn make_store<D: Disk>(alloc: Global, disk: &mut D, head: &Head) -> Result<(), InitFault>
    requires { AreNew head.now.families }
    ensures made { OnOk result (IsTrue (D.is_told disk.old) → IsNewStore head.now.families (D.stands disk.new)) }
    ensures none { OnOk result (IsTrue (D.is_told disk.old) → Means (D.stands disk.old) no_store) }
    // Where it wasn't made, there is no store still, or all of it.
    ensures stopped { OnErr result (IsTrue (D.is_told disk.old) → Means (D.stands disk.old) no_store → IsNoneOrNew head.now.families (D.stands disk.new)) }
    ensures no_memory { IsErrOf result InitFault.NoMemory → IsTrue (D.is_told disk.old) → Means (D.stands disk.old) no_store → Means (D.stands disk.new) no_store }

    // Files that belong to no new store are left alone.
    ensures others { IsTrue (D.is_told disk.old) → KeepsOthers D.Disk disk.old disk.new }

    // Where there is no store, and none comes back, a crash at any moment leaves no store or all of it, after `Ok` all of
    // it, and where memory ran out no store; then none comes back still, and it may be called again. A folder that was
    // just opened and has no store is such a one.
    ensures moments { IsUnmade D.Disk disk.old → Ran D.Disk D.File.DiskFile (IsNoneOrNew head.now.families) (alone disk.old) (alone disk.new) }
    ensures stopped_crash { IsUnmade D.Disk disk.old
        → (folder : Folder) → MayLeaveFolder D.Disk disk.new folder → IsNoneOrNew head.now.families folder }
    ensures durable { OnOk result (IsUnmade D.Disk disk.old
        → (folder : Folder) → MayLeaveFolder D.Disk disk.new folder → IsNewStore head.now.families folder) }
    ensures no_memory_crash { IsErrOf result InitFault.NoMemory → IsUnmade D.Disk disk.old
        → (folder : Folder) → MayLeaveFolder D.Disk disk.new folder → Means folder no_store }
    ensures unmade { IsErrOf result InitFault.NoMemory → IsUnmade D.Disk disk.old → IsUnmade D.Disk disk.new }

    // Where there is a store, or a bad manifest, the folder was only looked at.
    ensures refused { IfErr result (λ e. IsTrue (D.is_told disk.old) → RefusesMaking (D.stands disk.old) e) }
    ensures only_looked { IfErr result (λ e. IsMakingRefusal e → OnlyReads D.Disk D.File.DiskFile (alone disk.old) (alone disk.new)) }
    ensures kept { IsTrue (D.is_told disk.old) → ¬ Means (D.stands disk.old) no_store → OnlyReads D.Disk D.File.DiskFile (alone disk.old) (alone disk.new) }

    ensures told { D.is_told disk.new ≡ D.is_told disk.old }
    ensures model { D.keeps_model disk.new ≡ D.keeps_model disk.old }
    ensures no_fault { OnOk result (D.faults disk.new ≡ D.faults disk.old) }
    ensures cause { IfErr result (λ fault. IsCause (is_init_disk_fault fault) (D.faults disk.old) (D.faults disk.new)) }
{
    find_none(alloc, disk)?;
    match make_files(alloc, disk, head) {
        Ok(()) => Ok(()),
        Err(LogFault::DiskFault) => Err(InitFault::DiskFault),
        Err(LogFault::NoMemory) => Err(InitFault::NoMemory),
    }
}

/// Is there no store? It is refused where there is one.
fn find_none<D: Disk>(alloc: Global, disk: &mut D) -> Result<(), InitFault>
    ensures none { OnOk result (IsTrue (D.is_told disk.old) → Means (D.stands disk.old) no_store) }
    ensures refused { IfErr result (λ e. IsTrue (D.is_told disk.old) → RefusesMaking (D.stands disk.old) e) }
    ensures looks { OnlyReads D.Disk D.File.DiskFile (alone disk.old) (alone disk.new) }
    ensures told { D.is_told disk.new ≡ D.is_told disk.old }
    ensures model { D.keeps_model disk.new ≡ D.keeps_model disk.old }
    ensures no_fault { OnOk result (D.faults disk.new ≡ D.faults disk.old) }
    ensures cause { IfErr result (λ fault. IsCause (is_init_disk_fault fault) (D.faults disk.old) (D.faults disk.new)) }
{
    match Manifest::read(alloc, disk) {
        Ok(None) => Ok(()),
        Ok(Some(manifest)) => {
            disk.retire(manifest.into_file());
            Err(InitFault::StoreExists)
        }
        Err(ManifestFault::BadManifest { at }) => Err(InitFault::BadManifest { at }),
        Err(ManifestFault::DiskFault) => Err(InitFault::DiskFault),
        Err(ManifestFault::NoMemory) => Err(InitFault::NoMemory),
    }
}

/// Makes the first log, and then the manifest, in a folder that has no store.
fn make_files<D: Disk>(alloc: Global, disk: &mut D, head: &Head) -> Result<(), LogFault>
    requires { AreNew head.now.families }
    ensures made { OnOk result (IsTrue (D.is_told disk.old) → IsNewStore head.now.families (D.stands disk.new)) }
    ensures stopped { OnErr result (IsTrue (D.is_told disk.old) → Means (D.stands disk.old) no_store → IsNoneOrNew head.now.families (D.stands disk.new)) }
    ensures touches { IsTrue (D.is_told disk.old) → Touches D.Disk IsMakingName disk.old disk.new }
    ensures no_memory { IsErrOf result LogFault.NoMemory → D.stands disk.new Made ≡ D.stands disk.old Made }
    ensures no_memory_crash { IsErrOf result LogFault.NoMemory → NoMore (D.may_leave disk.old Made) (D.may_leave disk.new Made) }
    ensures unmade { IsErrOf result LogFault.NoMemory → IsUnmade D.Disk disk.old → IsUnmade D.Disk disk.new }
    ensures moments { IsUnmade D.Disk disk.old → Ran D.Disk D.File.DiskFile (IsNoneOrNew head.now.families) (alone disk.old) (alone disk.new) }
    ensures durable { IsUnmade D.Disk disk.old → OnOk result (LeavesNow D.Disk D.File.DiskFile (IsNewStore head.now.families) (alone disk.new)) }
    ensures told { D.is_told disk.new ≡ D.is_told disk.old }
    ensures model { D.keeps_model disk.new ≡ D.keeps_model disk.old }
    ensures no_fault { OnOk result (D.faults disk.new ≡ D.faults disk.old) }
    ensures cause { IfErr result (λ fault. IsCause (is_log_disk_fault fault) (D.faults disk.old) (D.faults disk.new)) }
{
    let Ok(sizes) = stamp_sizes(alloc, head.families.as_slice().len()) else {
        return Err(LogFault::NoMemory);
    };
    make_first_log(alloc, disk, sizes)?;
    make_manifest(alloc, disk, head)
}

/// The sizes of the timestamps of so many families.
fn stamp_sizes(alloc: Global, count: usize) -> Result<Sizes, AllocError>
    requires some { 1 ≤ count }
    requires few { count ≤ FAMILY_LIMIT }
{
    let sizes = [STAMP_SIZE; FAMILY_LIMIT];
    Sizes::of(alloc, &sizes[..count])
}

/// Makes the first log, which has no batch, on the disk.
fn make_first_log<D: Disk>(alloc: Global, disk: &mut D, sizes: Sizes) -> Result<(), LogFault>
    ensures made { OnOk result (IsTrue (D.is_told disk.old) → D.stands disk.new (Log 1) ≡ Some (90 ∷ [])) }
    ensures durable { OnOk result (IsTrue (D.is_told disk.old) → Only (90 ∷ []) (D.may_leave disk.new (Log 1))) }
    ensures touches { Touches D.Disk (λ (n : NameOf). n ≡ Log 1) disk.old disk.new }
    ensures no_fault { OnOk result (D.faults disk.new ≡ D.faults disk.old) }
    ensures cause { IfErr result (λ fault. IsCause (is_log_disk_fault fault) (D.faults disk.old) (D.faults disk.new)) }
{
    let wal = Wal::create(alloc, disk, FIRST_LOG, sizes)?;
    disk.retire(wal.into_file());
    Ok(())
}

/// Makes the manifest, and `MADE` last, in a folder that has no store.
fn make_manifest<D: Disk>(alloc: Global, disk: &mut D, head: &Head) -> Result<(), LogFault>
    requires { AreNew head.now.families }
    ensures made { OnOk result (IsTrue (D.is_told disk.old) → Means (D.stands disk.new) (store (fold_of head.now.families))) }
    ensures stopped { OnErr result (IsTrue (D.is_told disk.old) → Means (D.stands disk.old) no_store
        → Means (D.stands disk.new) no_store ⊎ Means (D.stands disk.new) (store (fold_of head.now.families))) }
    ensures no_memory { IsErrOf result LogFault.NoMemory → Touches D.Disk IsEarlyName disk.old disk.new }
    ensures unmade { IsErrOf result LogFault.NoMemory → IsUnmade D.Disk disk.old → IsUnmade D.Disk disk.new }
    ensures moments { IsUnmade D.Disk disk.old → Ran D.Disk D.File.DiskFile (IsNoneOrAll D.Disk disk.old head.now.families) (alone disk.old) (alone disk.new) }
    ensures durable { IsUnmade D.Disk disk.old → OnOk result (LeavesNow D.Disk D.File.DiskFile (λ (folder : Folder). Means folder (store (fold_of head.now.families))) (alone disk.new)) }
    ensures touches { IsTrue (D.is_told disk.old) → Touches D.Disk IsStoreName disk.old disk.new }
    ensures told { D.is_told disk.new ≡ D.is_told disk.old }
    ensures model { D.keeps_model disk.new ≡ D.keeps_model disk.old }
    ensures no_fault { OnOk result (D.faults disk.new ≡ D.faults disk.old) }
    ensures cause { IfErr result (λ fault. IsCause (is_log_disk_fault fault) (D.faults disk.old) (D.faults disk.new)) }
{
    let manifest = Manifest::create(alloc, disk, head)?;
    disk.retire(manifest.into_file());
    Ok(())
}
