//! Folders in memory, what crashes leave of them, and real folders, files and hosts.

use Step::{Create, Remove, Sync, Write};
use std::alloc::Global;
use std::test::Fail;
use std::{env, fs, process};
use udt_disk::{
    Disk, DiskFile, Failed, FileName, Host, HostSink, MemDisk, MemFile, Outcome, RealHost, Sink,
    Source, Text, Trouble,
};

/// What becomes of a file in a test.
#[derive(Clone, Copy, Debug)]
enum Step {
    /// The file is made, or emptied.
    Create,
    /// These bytes are written at its start.
    Write(&'static str),
    Sync,
    Remove,
}

/// Writes the file or syncs it, as the step says, and gives it back.
fn touch(disk: &mut MemDisk, mut file: MemFile, step: Step) -> Result<(), Failed> {
    let done = match step {
        Write(bytes) => file.write_at(0, bytes.as_bytes()),
        Sync => file.sync(),
        Create | Remove => Ok(()),
    };
    disk.retire(file);
    done
}

fn take_step(disk: &mut MemDisk, step: Step) -> Result<(), Failed> {
    let name = FileName::Current;
    let file = match step {
        Remove => return disk.remove(name),
        Create => disk.create(name)?,
        Write(_) | Sync => disk.open_file(name)?.ok_or(Failed)?,
    };
    touch(disk, file, step)
}

/// The folder after a crash with the outcome behind these steps.
fn crashed(alloc: Global, steps: &[Step], outcome: Outcome) -> Result<MemDisk, Fail> {
    let mut disk = MemDisk::new(alloc, Vec::new(alloc))?;
    for step in steps {
        take_step(&mut disk, *step)?;
    }
    Ok(disk.after_crash(alloc, outcome)?)
}

const CREATED: [Step; 1] = [Create];

const UNSYNCED: [Step; 2] = [Create, Write("abc")];

const SYNCED: [Step; 3] = [Create, Write("abc"), Sync];

const REWRITTEN: [Step; 4] = [Create, Write("abc"), Sync, Write("xy")];

const EMPTIED: [Step; 4] = [Create, Write("abc"), Sync, Create];

const REFILLED: [Step; 5] = [Create, Write("abc"), Sync, Create, Write("xy")];

const REMOVED: [Step; 4] = [Create, Write("abc"), Sync, Remove];

/// Bytes of which a crash spoilt as many as were not synced.
const SPOILT: &[u8] = b"\xA5\xA5\xA5";

/// What crashes leave of the file behind steps.
const LEFT: [(&[Step], Outcome, Option<&[u8]>); 21] = [
    (&SYNCED, Outcome::Lost, Some(b"abc")),
    (&SYNCED, Outcome::Kept, Some(b"abc")),
    (&SYNCED, Outcome::Hostile, Some(b"abc")),
    (&CREATED, Outcome::Lost, None),
    (&CREATED, Outcome::Kept, Some(b"")),
    (&CREATED, Outcome::Hostile, Some(b"")),
    (&UNSYNCED, Outcome::Lost, None),
    (&UNSYNCED, Outcome::Kept, Some(b"abc")),
    (&UNSYNCED, Outcome::Hostile, Some(SPOILT)),
    (&REWRITTEN, Outcome::Lost, Some(b"abc")),
    (&REWRITTEN, Outcome::Kept, Some(b"xyc")),
    (&REWRITTEN, Outcome::Hostile, Some(b"\xA5\xA5c")),
    (&EMPTIED, Outcome::Lost, Some(b"abc")),
    (&EMPTIED, Outcome::Kept, Some(b"")),
    (&EMPTIED, Outcome::Hostile, Some(SPOILT)),
    (&REFILLED, Outcome::Lost, Some(b"abc")),
    (&REFILLED, Outcome::Kept, Some(b"xy")),
    (&REFILLED, Outcome::Hostile, Some(SPOILT)),
    (&REMOVED, Outcome::Lost, Some(b"abc")),
    (&REMOVED, Outcome::Kept, None),
    (&REMOVED, Outcome::Hostile, Some(b"abc")),
];

#[test]
fn crashes_leave_what_was_synced(rt: HostRuntime) -> Result<(), Fail> {
    for (steps, outcome, want) in LEFT {
        let disk = crashed(rt.alloc(), steps, outcome)?;
        assert!(rt;
            disk.contents(FileName::Current) == want,
            "{steps:?} {outcome:?}"
        );
        assert_eq!(rt; disk.starved(), 0);
    }
    Ok(())
}

/// A call that fails, for good or not, and which of four calls fail by that.
const TROUBLES: [(u64, bool, [bool; 4]); 5] = [
    (1, false, [true, false, false, false]),
    (2, false, [false, true, false, false]),
    (2, true, [false, true, true, true]),
    (4, false, [false, false, false, true]),
    (5, true, [false, false, false, false]),
];

#[test]
fn a_trouble_fires_at_its_call(rt: HostRuntime) -> Result<(), Fail> {
    for (call, lasting, want) in TROUBLES {
        let trouble = Trouble {
            name: FileName::Log(1),
            call,
            lasting,
        };
        let mut disk = MemDisk::new(rt.alloc(), Vec::from_slice(rt.alloc(), &[trouble])?)?;
        for fails in want {
            let other = disk.remove(FileName::Log(2));
            let removed = disk.remove(FileName::Log(1));
            assert!(rt; other.is_ok() && removed.is_err() == fails, "call {call}");
        }
    }
    Ok(())
}

/// What a host or a folder answers where something is asked for.
#[derive(Clone, Copy, Debug, PartialEq, Eq)]
enum Asked {
    Found,
    Missing,
    Fails,
}

fn ask_for_folder<H: Host>(host: &mut H, place: &Text, make: bool) -> Asked {
    match host.open_folder(place, make) {
        Ok(Some(folder)) => {
            host.close_folder(place, folder);
            Asked::Found
        }
        Ok(None) => Asked::Missing,
        Err(Failed) => Asked::Fails,
    }
}

fn ask_for_source<H: Host>(host: &mut H, place: &Text) -> Asked {
    match host.open_source(place) {
        Ok(Some(source)) => {
            host.close_source(source);
            Asked::Found
        }
        Ok(None) => Asked::Missing,
        Err(Failed) => Asked::Fails,
    }
}

fn ask_for_file<D: Disk>(disk: &mut D, name: FileName) -> Asked {
    match disk.open_file(name) {
        Ok(Some(file)) => {
            disk.retire(file);
            Asked::Found
        }
        Ok(None) => Asked::Missing,
        Err(Failed) => Asked::Fails,
    }
}

fn ask_for_new_file<D: Disk>(disk: &mut D, name: FileName) -> Asked {
    match disk.create(name) {
        Ok(file) => {
            disk.retire(file);
            Asked::Found
        }
        Err(Failed) => Asked::Fails,
    }
}

/// Writes twice, syncs and answers the length.
fn write_twice<F: DiskFile>(file: &mut F) -> Result<u64, Failed> {
    file.write_at(0, b"abcd")?;
    file.write_at(0, b"xy")?;
    file.sync()?;
    file.len()
}

fn write<D: Disk>(disk: &mut D, name: FileName) -> Result<u64, Failed> {
    let mut file = disk.create(name)?;
    let written = write_twice(&mut file);
    disk.retire(file);
    written
}

/// Reads a file from its second byte on.
fn read<D: Disk>(disk: &mut D, name: FileName, into: &mut [u8]) -> Result<usize, Failed> {
    let Some(mut file) = disk.open_file(name)? else {
        return Err(Failed);
    };
    let read = file.read_at(1, into);
    disk.retire(file);
    read
}

/// Are four bytes written to a file, three of them read, and is it removed?
fn is_kept<D: Disk>(disk: &mut D, into: &mut [u8]) -> Result<bool, Failed> {
    let name = FileName::Log(7);
    let written = write(disk, name)?;
    let read = read(disk, name, into)?;
    disk.remove(name)?;
    Ok(written == 4 && read == 3 && ask_for_file(disk, name) == Asked::Missing)
}

/// A path of its own for a test, in the place for temporary files.
fn temporary(rt: &HostRuntime, name: &str) -> Result<String, Fail> {
    let place = env::temp_dir(rt)?;
    let id = process::id(rt.process());
    Ok(format!(in rt.alloc(); "{}/udt_disk-{id}-{name}", place.display())?)
}

/// What a real host answers where a folder, made or not, and a source are asked for under a path.
fn ask_host(rt: &HostRuntime, path: &[u8], make: bool) -> Result<(Asked, Asked), Fail> {
    let place = Text::of(rt.alloc(), path)?;
    let mut host = RealHost::new(rt);
    let folder = ask_for_folder(&mut host, &place, make);
    Ok((folder, ask_for_source(&mut host, &place)))
}

fn is_kept_in(rt: &HostRuntime, path: &str, make: bool, into: &mut [u8]) -> Result<bool, Fail> {
    let place = Text::of(rt.alloc(), path.as_bytes())?;
    let mut host = RealHost::new(rt);
    let mut folder = host.open_folder(&place, make)?.ok_or("no folder")?;
    let kept = is_kept(&mut folder, into);
    host.close_folder(&place, folder);
    Ok(kept?)
}

#[test]
fn a_real_folder_keeps_its_files(rt: HostRuntime) -> Result<(), Fail> {
    let path = temporary(&rt, "folder")?;
    let (missing, _) = ask_host(&rt, path.as_bytes(), false)?;
    assert_eq!(rt; missing, Asked::Missing);
    for make in [true, false] {
        let mut into = [0u8; 3];
        assert!(rt; is_kept_in(&rt, &path, make, &mut into)?);
        assert_eq!(rt; into.as_slice(), b"ycd".as_slice());
    }
    Ok(fs::remove_dir_all(&rt, path.as_str())?)
}

fn read_found(rt: &HostRuntime, path: &str, into: &mut [u8]) -> Result<usize, Fail> {
    let place = Text::of(rt.alloc(), path.as_bytes())?;
    let mut host = RealHost::new(rt);
    let mut folder = host.open_folder(&place, false)?.ok_or("no folder")?;
    let read = read(&mut folder, FileName::Log(1), into);
    host.close_folder(&place, folder);
    Ok(read?)
}

/// Does a file hold this text?
fn holds(rt: &HostRuntime, path: &str, text: &str) -> Result<bool, Fail> {
    Ok(fs::read_to_string(rt, path)?.as_str() == text)
}

#[test]
fn a_real_file_that_is_found_is_read_and_stays(rt: HostRuntime) -> Result<(), Fail> {
    let path = temporary(&rt, "found")?;
    let log = format!(in rt.alloc(); "{path}/1.log")?;
    fs::create_dir(&rt, path.as_str())?;
    fs::write(&rt, log.as_str(), "bytes of a log")?;
    let mut into = [0u8; 3];
    assert_eq!(rt; read_found(&rt, &path, &mut into)?, 3);
    assert_eq!(rt; into.as_slice(), b"yte".as_slice());
    assert!(rt; holds(&rt, &log, "bytes of a log")?);
    Ok(fs::remove_dir_all(&rt, path.as_str())?)
}

#[test]
fn a_real_folder_is_made_at_a_path_of_one_word(rt: HostRuntime) -> Result<(), Fail> {
    let path = format!(in rt.alloc(); "udt_disk-{}-word", process::id(rt.process()))?;
    let (made, _) = ask_host(&rt, path.as_bytes(), true)?;
    assert_eq!(rt; made, Asked::Found);
    Ok(fs::remove_dir(&rt, path.as_str())?)
}

/// Makes a folder with a file.
fn make_file(rt: &HostRuntime, folder: &str, file: &str, text: &str) -> Result<(), Fail> {
    fs::create_dir(rt, folder)?;
    let path = format!(in rt.alloc(); "{folder}/{file}")?;
    Ok(fs::write(rt, path.as_str(), text)?)
}

/// Paths below a folder with the file `file`, and what is answered where a folder, made or not, and a source are asked for.
const OTHERS: [(&str, bool, (Asked, Asked)); 3] = [
    ("file", true, (Asked::Fails, Asked::Found)),
    ("file/below", true, (Asked::Fails, Asked::Fails)),
    ("missing", false, (Asked::Missing, Asked::Missing)),
];

#[test]
fn a_real_host_answers_failed_where_something_else_stands(rt: HostRuntime) -> Result<(), Fail> {
    let path = temporary(&rt, "other")?;
    make_file(&rt, &path, "file", "bytes")?;
    for (name, make, wanted) in OTHERS {
        let place = format!(in rt.alloc(); "{path}/{name}")?;
        assert_eq!(rt; ask_host(&rt, place.as_bytes(), make)?, wanted, "{name}");
    }
    Ok(fs::remove_dir_all(&rt, path.as_str())?)
}

#[test]
fn a_real_host_answers_failed_where_a_path_is_no_text(rt: HostRuntime) -> Result<(), Fail> {
    assert_eq!(rt; ask_host(&rt, &[255], true)?, (Asked::Fails, Asked::Fails));
    Ok(())
}

/// Does each call on `CURRENT` fail, and none on `MADE`?
fn current_fails<D: Disk>(disk: &mut D) -> bool {
    ask_for_new_file(disk, FileName::Current) == Asked::Fails
        && ask_for_file(disk, FileName::Current) == Asked::Fails
        && disk.remove(FileName::Current).is_err()
        && disk.remove(FileName::Made).is_ok()
}

fn current_fails_in(rt: &HostRuntime, path: &str) -> Result<bool, Fail> {
    let place = Text::of(rt.alloc(), path.as_bytes())?;
    let mut host = RealHost::new(rt);
    let mut folder = host.open_folder(&place, false)?.ok_or("no folder")?;
    let fails = current_fails(&mut folder);
    host.close_folder(&place, folder);
    Ok(fails)
}

#[test]
fn a_folder_in_the_place_of_a_real_file_fails(rt: HostRuntime) -> Result<(), Fail> {
    let path = temporary(&rt, "place")?;
    let current = format!(in rt.alloc(); "{path}/CURRENT")?;
    fs::create_dir(&rt, path.as_str())?;
    fs::create_dir(&rt, current.as_str())?;
    assert!(rt; current_fails_in(&rt, &path)?);
    Ok(fs::remove_dir_all(&rt, path.as_str())?)
}

/// What a source answers to a read into this room, and to one more.
type Reads = (Result<usize, Failed>, Result<usize, Failed>);

fn read_twice(rt: &HostRuntime, path: &str, into: &mut [u8]) -> Result<Reads, Fail> {
    let place = Text::of(rt.alloc(), path.as_bytes())?;
    let mut host = RealHost::new(rt);
    let mut source = host.open_source(&place)?.ok_or("no source")?;
    let first = source.read(into);
    let second = source.read(&mut [0u8; 8]);
    host.close_source(source);
    Ok((first, second))
}

#[test]
fn a_real_source_is_read_to_its_end(rt: HostRuntime) -> Result<(), Fail> {
    let path = temporary(&rt, "source")?;
    let file = format!(in rt.alloc(); "{path}/file")?;
    make_file(&rt, &path, "file", "bytes")?;
    let mut into = [0u8; 8];
    assert_eq!(rt;
        read_twice(&rt, &path, &mut into)?,
        (Err(Failed), Err(Failed))
    );
    assert_eq!(rt; read_twice(&rt, &file, &mut into)?, (Ok(5), Ok(0)));
    assert_eq!(rt; into.as_slice(), b"bytes\0\0\0".as_slice());
    Ok(fs::remove_dir_all(&rt, path.as_str())?)
}

fn write_out(rt: &HostRuntime, path: &str) -> Result<usize, Fail> {
    let mut sink = HostSink::new(fs::File::create(rt, path)?);
    Ok(sink.write(b"out")?)
}

#[test]
fn a_real_sink_takes_its_bytes(rt: HostRuntime) -> Result<(), Fail> {
    let path = temporary(&rt, "sink")?;
    assert_eq!(rt; write_out(&rt, &path)?, 3);
    assert!(rt; holds(&rt, &path, "out")?);
    Ok(fs::remove_file(&rt, path.as_str())?)
}
