//! The command `run`: the commands of a file over the store in a folder.
ghost use Rattle.std.specs.Prelude.{◌≡◌, ◌≢◌, ◌+◌, ◌-◌, ◌<◌, ◌≤◌, [], IsTrue, Some, All, length, vec_capacity, IfOk, IfErr};
ghost use Rattle.ts_key.specs.declared.limits.TheConstants.{FAMILY_LIMIT, SEQUENCE_LIMIT};
ghost use Rattle.std.specs.List.{list_any};
ghost use Rattle.udt_disk.specs.Causes.{plus_faults};
ghost use Rattle.udt_disk.specs.Crash.{Image, NoMore};
ghost use Rattle.udt_disk.specs.Opens.{StaysBut};
ghost use Rattle.udt_disk.specs.OpensFolder.{KeepsFoldersBut, LeavesNoMoreBut};
ghost use Rattle.udt_disk.specs.declared.name.FileName.{FileName as NameOf};
ghost use Rattle.wal.specs.Wals.{wal_file, wal_sizes, wal_pending, MayGoOn};
ghost use Rattle.client_lang.specs.Print.{IsBuiltCommand};
ghost use Rattle.client_lang.specs.Stamps.{IsStampedCommand};
ghost use Rattle.client_runner.specs.Hosts.{UsesFolder, StaysElsewhere, FileStaysOrGoes};
ghost use Rattle.client_runner.specs.HostRuns.{IsRunAt, IsRunFrom, IsStoppedAt, IsStoppedFrom};
ghost use Rattle.client_runner.specs.Left.{crashes, status_of_lines as status_of_list, tells_fault as reply_tells};
ghost use Rattle.solo_runner.specs.LoggedStores.{IsInStep, store_state, wal_of};
ghost use Rattle.client_runner.specs.Runs.{CanRun, HasRunOver, HasRunParts, IsRunReady, IsRunRefused, stop_of_opening};

use crate::output::{Ready, header_of, ready_of};
use crate::reading::read_commands;
use crate::status::{Status, Stop};
use client_lang::Command;
use plain_recovery::{OpenFault, Parts, open_store};
use solo_runner::{LoggedStore, PlainStore, run_and_sync};
use std::alloc::{AllocError, Global};
use ts_key::NoMemory;
use udt_disk::{Disk, DiskFile, Host, Text};
use udt_model::{Line, Reply};

/// The reply tells that the disk failed, now or before.
fn tells_fault(reply: &Reply) -> bool
    ensures { result ≡ reply_tells reply.now }
{
    matches!(
        reply,
        Reply::Fault | Reply::DroppedFault | Reply::Halted { .. }
    )
}

/// One of the lines tells that the disk failed, now or before.
fn any_tells_fault(lines: &[Line]) -> bool
    ensures { result ≡ list_any (λ l. reply_tells l.reply) lines.now }
{
    lines.iter().any(|line| tells_fault(&line.reply))
}

/// The status of a run with these lines.
pub fn status_of_lines(lines: &[Line]) -> Status
    ensures { result ≡ status_of_list lines.now }
{
    if any_tells_fault(lines) {
        Status::DiskFault
    } else {
        Status::Done
    }
}

/// Makes commands and the runner's sync over a store. Their lines wait behind the header, where there is memory for that.
fn run_over<F: DiskFile>(
    alloc: Global,
    store: &mut LoggedStore<F>,
    commands: Vec<Command>,
    lines: Vec<Line>,
    header: Vec<u8>,
) -> Result<Ready, NoMemory>
    requires can_run { CanRun commands.items lines }
    requires in_step { IsInStep F.DiskFile (wal_of store.old) (store_state store.old) }
    ensures { HasRunOver F.DiskFile store.old store.new commands.items header.items result }
{
    let lines = run_and_sync(store, commands, lines);
    ready_of(alloc, header, lines)
}

/// Gives the files of the log and of the manifest back to the folder, and answers the folder.
fn close_files<D: Disk>(mut disk: D, log: D::File, manifest: D::File) -> D
    ensures log_stands { IsTrue (D.is_told disk) → IsTrue (D.File.is_told log) → D.File.name manifest ≢ D.File.name log → D.stands result (D.File.name log) ≡ Some (D.File.seen log) }
    ensures log_leaves { D.File.name manifest ≢ D.File.name log → NoMore (D.File.may_leave log) (D.may_leave result (D.File.name log)) }
    ensures manifest_stands { IsTrue (D.is_told disk) → IsTrue (D.File.is_told manifest) → D.stands result (D.File.name manifest) ≡ Some (D.File.seen manifest) }
    ensures manifest_leaves { NoMore (D.File.may_leave manifest) (D.may_leave result (D.File.name manifest)) }
    // Other names are left alone.
    ensures others { (n : NameOf) (c : Image) → n ≢ D.File.name manifest → n ≢ D.File.name log → D.may_leave result n c → D.may_leave disk n c }
    ensures others_stand { (n : NameOf) → n ≢ D.File.name manifest → n ≢ D.File.name log → D.stands result n ≡ D.stands disk n }
    ensures told { D.is_told result ≡ D.is_told disk }
    ensures model { D.keeps_model result ≡ D.keeps_model disk }
    ensures faults { D.faults result ≡ plus_faults (plus_faults (D.faults disk) (D.File.faults log)) (D.File.faults manifest) }
    ensures later { D.faults disk ≤ D.faults result }
{
    disk.retire(log);
    disk.retire(manifest);
    disk
}

/// Makes commands and the runner's sync over a store that was opened, and gives its folder back.
fn run_parts<D: Disk>(
    alloc: Global,
    parts: Parts<D>,
    commands: Vec<Command>,
    lines: Vec<Line>,
) -> (D, Result<Ready, NoMemory>)
    requires can_run { CanRun commands.items lines }
    requires heads { length parts.heads.items ≤ FAMILY_LIMIT }
    requires sizes { length (wal_sizes parts.wal) ≡ length parts.heads.items }
    requires pending { wal_pending parts.wal ≡ 0 }
    requires within { parts.last.0 < SEQUENCE_LIMIT + 1 }
    requires goes_on { MayGoOn D.File.DiskFile parts.wal (parts.last.0 + 1) }
    requires fresh { D.File.faults (wal_file parts.wal) ≡ 0 }
    ensures run { HasRunParts D.Disk D.File.DiskFile parts result.0 commands.items result.1 }
    ensures told { D.is_told result.0 ≡ D.is_told parts.disk }
    ensures model { D.keeps_model result.0 ≡ D.keeps_model parts.disk }
{
    let Parts {
        disk,
        manifest,
        wal,
        heads,
        versions,
        last,
    } = parts;
    let header = header_of(alloc, last.0, &heads);
    let mut store = LoggedStore::new(PlainStore::of(heads, versions, last), wal);
    let ready = match header {
        Ok(header) => run_over(alloc, &mut store, commands, lines, header),
        Err(_) => Err(AllocError),
    };
    (
        close_files(disk, store.into_file(), manifest.into_file()),
        ready,
    )
}

fn stop_of_opening(fault: OpenFault) -> Stop
    ensures { result ≡ stop_of_opening fault }
{
    match fault {
        OpenFault::NoStore => Stop::NoStore,
        OpenFault::BadManifest { at } => Stop::BadManifest { at },
        OpenFault::BadLog { number, at } => Stop::BadLog { number, at },
        OpenFault::DiskFault => Stop::DiskFault,
        OpenFault::NoMemory => Stop::NoMemory,
    }
}

/// Opens a folder as a store and makes commands and the runner's sync over it.
fn run_disk<D: Disk>(
    alloc: Global,
    disk: D,
    commands: Vec<Command>,
    lines: Vec<Line>,
) -> (D, Result<Ready, Stop>)
    requires can_run { CanRun commands.items lines }
    ensures ready { IfOk result.1 (IsRunReady D.Disk disk result.0 commands.items) }
    ensures stopped { IfErr result.1 (IsRunRefused D.Disk disk result.0 commands.items) }
    ensures told { D.is_told result.0 ≡ D.is_told disk }
    ensures model { D.keeps_model result.0 ≡ D.keeps_model disk }
    ensures later { D.faults disk ≤ D.faults result.0 }
{
    match open_store(alloc, disk) {
        Ok(parts) => {
            let (disk, ready) = run_parts(alloc, parts, commands, lines);
            match ready {
                Ok(ready) => (disk, Ok(ready)),
                Err(_) => (disk, Err(Stop::NoMemory)),
            }
        }
        Err((disk, fault)) => (disk, Err(stop_of_opening(fault))),
    }
}

/// Makes commands and the runner's sync over the store in the folder under a path.
fn run_folder<H: Host>(
    alloc: Global,
    path: &Text,
    commands: Vec<Command>,
    lines: Vec<Line>,
    host: &mut H,
) -> Result<Ready, Stop>
    requires can_run { CanRun commands.items lines }
    ensures ready { IfOk result (IsRunAt (H.folder_at host.old path.now) (H.folder_at host.new path.now) (H.leaves_at host.new path.now) (H.faults host.old) (H.faults host.new) commands.items) }
    ensures stopped { IfErr result (IsStoppedAt (H.folder_at host.old path.now) (H.folder_at host.new path.now) (crashes (H.leaves_at host.old path.now) (H.leaves_at host.new path.now)) (H.faults host.old) (H.faults host.new) commands.items) }
    ensures uses { UsesFolder H.Host path.now host.old host.new }
{
    let Ok(opened) = host.open_folder(path, false) else {
        return Err(Stop::DiskFault);
    };
    let Some(disk) = opened else {
        return Err(Stop::NoStore);
    };
    let (disk, ready) = run_disk(alloc, disk, commands, lines);
    host.close_folder(path, disk);
    ready
}

/// Makes the commands of the file under a path, and the runner's sync, over the store in the folder under another. The file is
/// read, and there is memory for a line of each command, before the folder is asked for.
pub fn run_path<H: Host>(
    alloc: Global,
    folder: &Text,
    file: &Text,
    host: &mut H,
) -> Result<Ready, Stop>
    ensures ready { IfOk result (IsRunFrom (H.standing host.old file.now) (H.folder_at host.old folder.now) (H.folder_at host.new folder.now) (H.leaves_at host.new folder.now) (H.faults host.old) (H.faults host.new)) }
    ensures stopped { IfErr result (IsStoppedFrom (H.standing host.old file.now) (H.folder_at host.old folder.now) (H.folder_at host.new folder.now) (crashes (H.leaves_at host.old folder.now) (H.leaves_at host.new folder.now)) (H.faults host.old) (H.faults host.new)) }
    ensures others { StaysElsewhere file.now folder.now (H.standing host.old) (H.standing host.new) }
    ensures taken { FileStaysOrGoes file.now folder.now (H.standing host.old) (H.standing host.new) }
    ensures folders { KeepsFoldersBut folder.now (H.folder_at host.old) (H.folder_at host.new) }
    ensures leaves { LeavesNoMoreBut folder.now (H.leaves_at host.old) (H.leaves_at host.new) }
    ensures later { H.faults host.old ≤ H.faults host.new }
{
    let commands = read_commands(alloc, file, host)?;
    match Vec::with_capacity(alloc, commands.len() + 1) {
        Ok(lines) => run_folder(alloc, folder, commands, lines, host),
        Err(_) => Err(Stop::NoMemory),
    }
}
