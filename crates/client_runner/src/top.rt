//! The top call.
ghost use Rattle.std.specs.Prelude.{◌≡◌, ℕ, List, ◌-◌, ◌^◌, ◌<◌, ◌≤◌, ◌++◌, [], All, length, IfOk, IfErr, IfNone, IfSome, OnOk};
ghost use Rattle.udt_disk.specs.Causes.{Rose};
ghost use Rattle.udt_disk.specs.Crash.{NoMore};
ghost use Rattle.udt_disk.specs.Opens.{StaysBut};
ghost use Rattle.udt_disk.specs.OpensFolder.{KeepsFolders, KeepsFoldersBut, LeavesNoMore, LeavesNoMoreBut};
ghost use Rattle.udt_disk.specs.declared.name.FileName.{FileName as NameOf};
ghost use Rattle.head_manifest.specs.Heads.{AreNew};
ghost use Rattle.client_lang.specs.Print.{IsBuiltCommand, IsBuiltLine};
ghost use Rattle.client_lang.specs.Stamps.{IsStampedCommand};
ghost use Rattle.client_runner.specs.Refusals.{IsAnswered, IsInitRefused, IsOpenRefused, IsRefused, IsStopped};
ghost use Rattle.client_runner.specs.Completions.{IsComplete, IsInitComplete, IsRunComplete};
ghost use Rattle.client_runner.specs.Ends.{IsWorkEnd, IsPrinted};
ghost use Rattle.client_runner.specs.Works.{IsFileWork, IsInitWork, IsRunWork, IsWork};
ghost use Rattle.client_runner.specs.Hosts.{UsesFile, UsesFolder, IsFileOf, IsFolderOf, StaysElsewhere, FileStaysOrGoes, StaysOrGoes};
ghost use Rattle.client_runner.specs.Left.{crashes, crashes_at};
ghost use Rattle.client_runner.specs.Output.{HasRoomForLines};
ghost use Rattle.client_runner.specs.Ready.{IsMessage, IsTranscribed, IsTried, text_of};
ghost use Rattle.client_runner.specs.Stops.{IsFileStop, TakesMemory, message, status_of as status_of_stop};

use crate::flow::write_whole;
use crate::init::init_folder;
use crate::output::{Ready, header_of, ready_of, write_lines};
use crate::reading::read_commands;
use crate::run::{run_path, status_of_lines};
use crate::status::{Status, Stop};
use crate::words::{Command, HELP, VERSION, command_of};
use client_lang::{Word, push_line};
use head_manifest::Head;
use solo_runner::{PlainStore, Ran, fresh_heads, run};
use std::alloc::Global;
use ts_key::NoMemory;
use udt_disk::{Host, Sink, Text};

/// The transcript of commands over a store in memory, ready to be written.
fn transcribe(alloc: Global, commands: Vec<client_lang::Command>) -> Result<Ready, NoMemory>
    requires built { All IsBuiltCommand commands.items }
    requires stamped { All IsStampedCommand commands.items }
    requires few { length commands.items < 2 ^ 32 - 1 }
    ensures { IfOk result (IsTranscribed commands.items) }
{
    let mut store = PlainStore::new(alloc, fresh_heads(alloc)?);
    let lines = Vec::with_capacity(alloc, commands.len())?;
    let Ran { lines, last: _ } = run(&mut store, commands, lines);
    let heads = fresh_heads(alloc)?;
    let header = header_of(alloc, 0, &heads)?;
    ready_of(alloc, header, lines)
}

/// The transcript of the file under a path, ready to be written.
fn try_path<H: Host>(alloc: Global, path: &Text, host: &mut H) -> Result<Ready, Stop>
    ensures ready { IfOk result (IsTried (H.standing host.old path.now)) }
    ensures stopped { IfErr result (IsFileStop (H.standing host.old path.now) (H.faults host.old) (H.faults host.new)) }
    ensures uses { UsesFile H.Host path.now host.old host.new }
{
    let commands = read_commands(alloc, path, host)?;
    match transcribe(alloc, commands) {
        Ok(ready) => Ok(ready),
        Err(_) => Err(Stop::NoMemory),
    }
}

fn status_of(stop: Stop) -> Status
    ensures { result ≡ status_of_stop stop }
{
    match stop {
        Stop::SourceFault => Status::SourceFault,
        Stop::DiskFault => Status::DiskFault,
        Stop::NoMemory => Status::NoMemory,
        Stop::StoreExists | Stop::NoStore | Stop::BadManifest { .. } | Stop::BadLog { .. } =>
            Status::Folder,
        Stop::BadWords
        | Stop::NoFile
        | Stop::TooLong
        | Stop::TooMany { .. }
        | Stop::BadLine { .. } => Status::Usage,
    }
}

/// The line that is printed for a stop, where it is a fixed one.
fn fixed_line(stop: Stop) -> Option<&'static [u8]>
    ensures line { IfSome result (λ line. (path : List ℕ) → line.now ≡ message path stop) }
    ensures none { IfNone result (TakesMemory stop) }
{
    match stop {
        Stop::BadWords => Some(b"bad words\n"),
        Stop::SourceFault => Some(b"source fault\n"),
        Stop::StoreExists => Some(b"store exists\n"),
        Stop::NoStore => Some(b"no store\n"),
        Stop::DiskFault => Some(b"disk fault\n"),
        Stop::NoFile
        | Stop::TooLong
        | Stop::TooMany { .. }
        | Stop::BadLine { .. }
        | Stop::BadManifest { .. }
        | Stop::BadLog { .. }
        | Stop::NoMemory => None,
    }
}

/// Adds the line that is printed for a stop at the file of this path.
fn push_message(text: &mut Vec<u8>, path: &[u8], stop: Stop) -> Result<(), NoMemory>
    requires { TakesMemory stop }
    ensures { OnOk result (text.new.items ≡ text.old.items ++ message path.now stop) }
{
    match stop {
        Stop::NoFile => push_line(text, &[Word::Text(b"no file"), Word::Text(path)]),
        Stop::TooLong => push_line(text, &[Word::Text(b"too long"), Word::Text(path)]),
        Stop::TooMany { line } => push_line(
            text,
            &[
                Word::Text(b"too many"),
                Word::Text(path),
                Word::Number(line),
            ],
        ),
        Stop::BadLine { line } => push_line(
            text,
            &[
                Word::Text(b"bad line"),
                Word::Text(path),
                Word::Number(line),
            ],
        ),
        Stop::BadManifest { at } => {
            push_line(text, &[Word::Text(b"bad manifest"), Word::Number(at)])
        }
        Stop::BadLog { number, at } => push_line(
            text,
            &[
                Word::Text(b"bad log"),
                Word::Number(number),
                Word::Number(at),
            ],
        ),
        Stop::NoMemory => Ok(()),
        Stop::BadWords | Stop::SourceFault | Stop::StoreExists | Stop::NoStore | Stop::DiskFault =>
            unreachable!(),
    }
}

/// Writes a text and answers the status, or that the sink failed.
fn say<K: Sink>(out: &mut K, text: &[u8], status: Status) -> Status
    ensures { IsPrinted result status text.now (K.taken out.old) (K.taken out.new) (Rose (K.faults out.old) (K.faults out.new)) }
{
    match write_whole(out, text) {
        Ok(()) => status,
        Err(_) => Status::SinkFault,
    }
}

/// Writes that the words of a command line are no command. The program calls it for words that don't fit in a `Text`.
pub fn refuse_words<K: Sink>(out: &mut K) -> Status
    ensures { IsPrinted result Status.Usage (message [] Stop.BadWords) (K.taken out.old) (K.taken out.new) (Rose (K.faults out.old) (K.faults out.new)) }
{
    say(out, b"bad words\n", Status::Usage)
}

/// Writes the line of a stop. One that isn't fixed takes memory; where there is none, nothing is written.
fn say_stop<K: Sink>(alloc: Global, out: &mut K, path: &[u8], stop: Stop) -> Status
    ensures { IsWorkEnd (IsMessage path.now stop) result (K.taken out.old) (K.taken out.new) (Rose (K.faults out.old) (K.faults out.new)) }
{
    if let Some(line) = fixed_line(stop) {
        return say(out, line, status_of(stop));
    }
    let mut text = Vec::new(alloc);
    match push_message(&mut text, path, stop) {
        Ok(()) => say(out, &text, status_of(stop)),
        Err(_) => Status::NoMemory,
    }
}

/// Writes a transcript, and answers the status, or that the sink failed.
fn say_ready<K: Sink>(out: &mut K, mut ready: Ready, status: Status) -> Status
    requires built { All IsBuiltLine ready.lines.items }
    requires room { HasRoomForLines ready.buffer ready.lines.items }
    ensures { IsPrinted result status (text_of ready) (K.taken out.old) (K.taken out.new) (Rose (K.faults out.old) (K.faults out.new)) }
{
    match write_lines(out, &mut ready.buffer, &ready.lines) {
        Ok(()) => status,
        Err(_) => Status::SinkFault,
    }
}

/// Prints the transcript of the file under a path, or why there is none.
fn try_file<H: Host, K: Sink>(alloc: Global, path: &Text, host: &mut H, out: &mut K) -> Status
    ensures ends { IsWorkEnd (IsFileWork (H.standing host.old path.now) (H.faults host.old) (H.faults host.new) path.now)
        result (K.taken out.old) (K.taken out.new) (Rose (K.faults out.old) (K.faults out.new)) }
    ensures uses { UsesFile H.Host path.now host.old host.new }
{
    match try_path(alloc, path, host) {
        Ok(ready) => say_ready(out, ready, Status::Done),
        Err(stop) => say_stop(alloc, out, path.bytes(), stop),
    }
}

/// Makes a store of these families in the folder under a path, and says so, or why there is none.
fn init<H: Host, K: Sink>(
    alloc: Global,
    path: &Text,
    head: &Head,
    host: &mut H,
    out: &mut K,
) -> Status
    requires { AreNew head.now.families }
    ensures ends { IsWorkEnd (IsInitWork (H.folder_at host.old path.now) (H.folder_at host.new path.now) (crashes (H.leaves_at host.old path.now) (H.leaves_at host.new path.now)) (H.faults host.old) (H.faults host.new) head.now.families)
        result (K.taken out.old) (K.taken out.new) (Rose (K.faults out.old) (K.faults out.new)) }
    ensures uses { UsesFolder H.Host path.now host.old host.new }
{
    // The line is made first: no memory is wanted once the store is.
    let mut text = Vec::new(alloc);
    let count = head.families.as_slice().len() as u64;
    match push_line(&mut text, &[Word::Text(b"made"), Word::Number(count)]) {
        Ok(()) => {}
        Err(_) => return Status::NoMemory,
    }
    match init_folder(alloc, path, head, host) {
        Ok(()) => say(out, &text, Status::Done),
        Err(stop) => say_stop(alloc, out, b"", stop),
    }
}

/// Runs the commands of the file under a path over the store in the folder under another, and prints the transcript, or why
/// there is none.
fn run_file<H: Host, K: Sink>(
    alloc: Global,
    folder: &Text,
    file: &Text,
    host: &mut H,
    out: &mut K,
) -> Status
    ensures ends { IsWorkEnd (IsRunWork (H.standing host.old file.now) (H.folder_at host.old folder.now) (H.folder_at host.new folder.now) (crashes (H.leaves_at host.old folder.now) (H.leaves_at host.new folder.now)) (H.faults host.old) (H.faults host.new) file.now)
        result (K.taken out.old) (K.taken out.new) (Rose (K.faults out.old) (K.faults out.new)) }
    ensures others { StaysElsewhere file.now folder.now (H.standing host.old) (H.standing host.new) }
    ensures taken { FileStaysOrGoes file.now folder.now (H.standing host.old) (H.standing host.new) }
    ensures folders { KeepsFoldersBut folder.now (H.folder_at host.old) (H.folder_at host.new) }
    ensures leaves { LeavesNoMoreBut folder.now (H.leaves_at host.old) (H.leaves_at host.new) }
    ensures later { H.faults host.old ≤ H.faults host.new }
{
    match run_path(alloc, folder, file, host) {
        Ok(ready) => {
            let status = status_of_lines(&ready.lines);
            say_ready(out, ready, status)
        }
        Err(stop) => say_stop(alloc, out, file.bytes(), stop),
    }
}

fn plain<H: Host, K: Sink>(alloc: Global, words: &[Text], host: &mut H, out: &mut K) -> Status
    ensures ends { IsWorkEnd (IsWork words.now (H.standing host.old) (H.folder_at host.old) (H.folder_at host.new) (crashes_at (H.leaves_at host.old) (H.leaves_at host.new)) (H.faults host.old) (H.faults host.new))
        result (K.taken out.old) (K.taken out.new) (Rose (K.faults out.old) (K.faults out.new)) }
    ensures others { (path : List ℕ) → ¬ IsFileOf words.now path → ¬ IsFolderOf words.now path → H.standing host.new path ≡ H.standing host.old path }
    ensures taken { (path : List ℕ) → IsFileOf words.now path → ¬ IsFolderOf words.now path → StaysOrGoes (H.standing host.old path) (H.standing host.new path) }
    ensures folders { (path : List ℕ) → ¬ IsFolderOf words.now path → H.folder_at host.new path ≡ H.folder_at host.old path }
    ensures leaves { (path : List ℕ) (n : NameOf) → ¬ IsFolderOf words.now path → NoMore (H.leaves_at host.old path n) (H.leaves_at host.new path n) }
    ensures later { H.faults host.old ≤ H.faults host.new }
{
    let Ok(command) = command_of(alloc, words) else {
        return Status::NoMemory;
    };
    match command {
        None => refuse_words(out),
        Some(Command::Help) => say(out, HELP.as_bytes(), Status::Done),
        Some(Command::Version) => say(out, VERSION.as_bytes(), Status::Done),
        Some(Command::Try(path)) => try_file(alloc, path, host, out),
        Some(Command::Init { folder, head }) => init(alloc, folder, &head, host, out),
        Some(Command::Run { folder, file }) => run_file(alloc, folder, file, host, out),
    }
}

/// Runs the command of a command line, and answers its status.
///
/// `try FILE` takes the command file under the path out of the host, reads it, and prints the transcript of its commands
/// over an empty store in memory. `init FOLDER NAME:persist ..` makes a store of these families in the folder under the path.
/// `run FOLDER FILE` reads the file, opens the folder, runs the commands over the store in it, puts all that was written on its
/// disk and prints the transcript.
///
/// Where the words are no command, or the file isn't there, is too long, has too many commands or a line outside the grammar,
/// one line says so; likewise where a folder has no store, or one already, or its manifest or log is bad. A fault of a folder's
/// disk ends an opening or a making; it halts a run, which its transcript tells. Want of memory may come in the place of any answer
/// but help and the version, and then nothing is printed. What stands under other paths stays.
pub fn store_plain<H: Host, K: Sink>(
    alloc: Global,
    words: &[Text],
    host: &mut H,
    out: &mut K,
) -> Status
    // What the status says has its cause, the sink took what belongs to it, and the folder keeps it.
    ensures ends { IsWorkEnd (IsWork words.now (H.standing host.old) (H.folder_at host.old) (H.folder_at host.new) (crashes_at (H.leaves_at host.old) (H.leaves_at host.new)) (H.faults host.old) (H.faults host.new))
        result (K.taken out.old) (K.taken out.new) (Rose (K.faults out.old) (K.faults out.new)) }

    // A command is done, where nothing fails and there is memory.
    ensures complete { IsComplete result words.now (H.standing host.old)
        (Rose (H.faults host.old) (H.faults host.new)) (Rose (K.faults out.old) (K.faults out.new)) }
    ensures complete_init { IsInitComplete result words.now (H.folder_at host.old)
        (Rose (H.faults host.old) (H.faults host.new)) (Rose (K.faults out.old) (K.faults out.new)) }
    ensures complete_run { IsRunComplete result words.now (H.standing host.old) (H.folder_at host.old)
        (Rose (H.faults host.old) (H.faults host.new)) (Rose (K.faults out.old) (K.faults out.new)) }

    // Each cause of a refusal is told, where nothing fails and there is memory.
    ensures stopped { IsStopped result words.now (H.standing host.old) (K.taken out.old) (K.taken out.new) }
    ensures refused_folder { IsOpenRefused result words.now (H.standing host.old) (H.folder_at host.old) (K.taken out.old) (K.taken out.new) }
    ensures refused_init { IsInitRefused result words.now (H.folder_at host.old) (K.taken out.old) (K.taken out.new) }
    ensures refused { IsRefused result words.now (K.taken out.old) (K.taken out.new) }
    ensures answered { IsAnswered result words.now (K.taken out.old) (K.taken out.new) }

    // What stands under other paths stays, and the file stays or is taken out.
    ensures others { (path : List ℕ) → ¬ IsFileOf words.now path → ¬ IsFolderOf words.now path → H.standing host.new path ≡ H.standing host.old path }
    ensures taken { (path : List ℕ) → IsFileOf words.now path → ¬ IsFolderOf words.now path → StaysOrGoes (H.standing host.old path) (H.standing host.new path) }
    ensures folders { (path : List ℕ) → ¬ IsFolderOf words.now path → H.folder_at host.new path ≡ H.folder_at host.old path }
    ensures leaves { (path : List ℕ) (n : NameOf) → ¬ IsFolderOf words.now path → NoMore (H.leaves_at host.old path n) (H.leaves_at host.new path n) }
    ensures later { H.faults host.old ≤ H.faults host.new }
{
    plain(alloc, words, host, out)
}
