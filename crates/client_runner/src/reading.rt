//! The commands of a file under a path.
ghost use Rattle.std.specs.Prelude.{◌≡◌, ◌≤◌, Some, IfOk, IfErr};
ghost use Rattle.udt_disk.specs.Opens.{IsStanding, StaysBut};
ghost use Rattle.udt_disk.specs.OpensFolder.{KeepsFolders, LeavesNoMore};
ghost use Rattle.client_runner.specs.Hosts.{UsesFile, StaysOrGoes};
ghost use Rattle.client_runner.specs.Ready.{IsReadAs, stop_of_read};
ghost use Rattle.client_runner.specs.Stops.{IsFileStop};

use crate::flow::{FlowFault, read_whole};
use crate::status::Stop;
use client_lang::{Command, ReadFault, read_client};
use std::alloc::Global;
use udt_disk::{Host, Text};

/// The bytes of the file under a path.
fn read_file<H: Host>(alloc: Global, path: &Text, host: &mut H) -> Result<Vec<u8>, Stop>
    ensures ok { IfOk result (λ bytes. IsStanding (H.standing host.old path.now) (Some bytes.items)) }
    ensures stopped { IfErr result (IsFileStop (H.standing host.old path.now) (H.faults host.old) (H.faults host.new)) }
    ensures uses { UsesFile H.Host path.now host.old host.new }
{
    let Ok(opened) = host.open_source(path) else {
        return Err(Stop::SourceFault);
    };
    let Some(mut input) = opened else {
        return Err(Stop::NoFile);
    };
    let read = read_whole(alloc, &mut input);
    host.close_source(input);
    match read {
        Ok(bytes) => Ok(bytes),
        Err(FlowFault::Failed) => Err(Stop::SourceFault),
        Err(FlowFault::TooLong) => Err(Stop::TooLong),
        Err(FlowFault::NoMemory) => Err(Stop::NoMemory),
    }
}

fn stop_of_fault(fault: ReadFault) -> Stop
    ensures { result ≡ stop_of_read fault }
{
    match fault {
        ReadFault::BadLine { line } => Stop::BadLine { line },
        ReadFault::TooMany { line } => Stop::TooMany { line },
        ReadFault::TooLong => Stop::TooLong,
        ReadFault::NoMemory => Stop::NoMemory,
    }
}

/// The commands of the file under a path.
pub fn read_commands<H: Host>(
    alloc: Global,
    path: &Text,
    host: &mut H,
) -> Result<Vec<Command>, Stop>
    ensures read { IfOk result (λ commands. IsReadAs (H.standing host.old path.now) commands.items) }
    ensures stopped { IfErr result (IsFileStop (H.standing host.old path.now) (H.faults host.old) (H.faults host.new)) }
    ensures uses { UsesFile H.Host path.now host.old host.new }
{
    let bytes = read_file(alloc, path, host)?;
    match read_client(alloc, &bytes) {
        Ok(commands) => Ok(commands),
        Err(fault) => Err(stop_of_fault(fault)),
    }
}
