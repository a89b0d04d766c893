//! Reasons of command lines, and of files and folders of the operating system.
use super::reason;
use client_runner::{Status, store_plain};
use std::alloc::Global;
use std::test::Fail;
use std::{env, fs, process};
use udt_disk::{Host, MemSink, RealHost, Text};

fn texts(alloc: Global, words: &[&str]) -> Result<Vec<Text>, Fail> {
    let mut texts = Vec::new(alloc);
    for word in words {
        texts.push(Text::of(alloc, word.as_bytes())?)?;
    }
    Ok(texts)
}

/// The status of these words over the real host, and why.
fn why(rt: &HostRuntime, words: &[&str]) -> Result<(Status, String), Fail> {
    let alloc = rt.alloc();
    let words = texts(alloc, words)?;
    let mut host = RealHost::new(rt);
    let mut out = MemSink::new(alloc, None);
    let status = store_plain(alloc, &words, &mut host, &mut out);
    let said = reason(rt, &words, status, host.last_error())?;
    Ok((status, said.ok_or("no reason")?))
}

/// The words end with this status and reason.
fn says(rt: &HostRuntime, words: &[&str], status: Status, reason: &str) -> Result<(), Fail> {
    let (ended, said) = why(rt, words)?;
    if ended == status && said.as_str() == reason {
        Ok(())
    } else {
        Err(said.into())
    }
}

const COMMAND_LINES: [(&[&str], &str); 11] = [
    (&[], "a command is missing; see udtstore --help"),
    (&["-h"], "unknown command -h; see udtstore --help"),
    (&["frob", "x"], "unknown command frob; see udtstore --help"),
    (&["try"], "try wants one file"),
    (&["run", "X"], "run wants a folder and a file"),
    (&["--help", "me"], "--help and --version stand alone"),
    (
        &["init", "X"],
        "init wants 1 to 16 families behind the folder, as NAME:persist",
    ),
    (&["init", "X", "d"], "d: a family is NAME:persist"),
    (
        &["init", "X", "d:strip"],
        "d:strip: a family is NAME:persist",
    ),
    (
        &["init", "X", "D:persist"],
        "D:persist: a name is 1 to 32 of a-z, 0-9 and _",
    ),
    (
        &["init", "X", "d:persist", "d:persist"],
        "two families have one name",
    ),
];

#[test]
fn command_lines_have_their_reasons(rt: HostRuntime) -> Result<(), Fail> {
    for (words, wanted) in COMMAND_LINES {
        says(&rt, words, Status::Usage, wanted)?;
    }
    Ok(())
}

/// A folder of its own for a test, in the place for temporary files, with the command files `F` and, with a bad line, `B`.
fn temporary(rt: &HostRuntime, name: &str) -> Result<String, Fail> {
    let place = env::temp_dir(rt)?;
    let id = process::id(rt.process());
    let path = format!(in rt.alloc(); "{}/udtstore-{id}-{name}", place.display())?;
    fs::create_dir(rt, path.as_str())?;
    write(rt, path.as_str(), "F", "put d a 1 x\n")?;
    write(rt, path.as_str(), "B", "put d a 1 x\nput d a 1\n")?;
    Ok(path)
}

fn write(rt: &HostRuntime, place: &str, name: &str, text: &str) -> Result<(), Fail> {
    let path = format!(in rt.alloc(); "{place}/{name}")?;
    Ok(fs::write(rt, path.as_str(), text)?)
}

/// The words tell why of this path below a place.
fn tells(
    rt: &HostRuntime,
    words: &[&str],
    status: Status,
    place: &str,
    told: (&str, &str),
) -> Result<(), Fail> {
    let (name, reason) = told;
    let wanted = format!(in rt.alloc(); "{place}/{name}: {reason}")?;
    says(rt, words, status, wanted.as_str())
}

/// A run of a file over the folder `X`, both below the place, tells why of one of them.
fn run_tells(
    rt: &HostRuntime,
    place: &str,
    file: &str,
    status: Status,
    told: (&str, &str),
) -> Result<(), Fail> {
    let folder = format!(in rt.alloc(); "{place}/X")?;
    let file = format!(in rt.alloc(); "{place}/{file}")?;
    tells(
        rt,
        &["run", folder.as_str(), file.as_str()],
        status,
        place,
        told,
    )
}

/// An init of a folder below the place tells why of it.
fn init_tells(
    rt: &HostRuntime,
    place: &str,
    folder: &str,
    status: Status,
    reason: &str,
) -> Result<(), Fail> {
    let path = format!(in rt.alloc(); "{place}/{folder}")?;
    tells(
        rt,
        &["init", path.as_str(), "d:persist"],
        status,
        place,
        (folder, reason),
    )
}

/// Files that are run over a folder without a store, and what is told of the file or the folder.
const RUNS: [(&str, Status, (&str, &str)); 3] = [
    (
        "B",
        Status::Usage,
        (
            "B",
            "line 2: put wants a family, a key, a timestamp and a value",
        ),
    ),
    ("G", Status::Usage, ("G", "there is no such file")),
    (
        "F",
        Status::Folder,
        ("X", "there is no store; udtstore init makes one"),
    ),
];

#[test]
fn folders_and_files_have_their_reasons(rt: HostRuntime) -> Result<(), Fail> {
    let place = temporary(&rt, "reasons")?;
    for (file, status, told) in RUNS {
        run_tells(&rt, place.as_str(), file, status, told)?;
    }
    for folder in ["F/X", "F"] {
        let status = Status::DiskFault;
        init_tells(&rt, place.as_str(), folder, status, "not a directory")?;
    }
    Ok(fs::remove_dir_all(&rt, place.as_str())?)
}

/// A run over a folder that another host holds tells that it is locked.
fn held_tells(rt: &HostRuntime, place: &str) -> Result<(), Fail> {
    let path = format!(in rt.alloc(); "{place}/X")?;
    let text = Text::of(rt.alloc(), path.as_bytes())?;
    let mut holder = RealHost::new(rt);
    let held = holder.open_folder(&text, true)?.ok_or("no folder")?;
    let told = ("X", "it is locked by another process");
    let ran = run_tells(rt, place, "F", Status::DiskFault, told);
    holder.close_folder(&text, held);
    ran
}

#[test]
fn a_held_folder_has_its_reason(rt: HostRuntime) -> Result<(), Fail> {
    let place = temporary(&rt, "held")?;
    held_tells(&rt, place.as_str())?;
    Ok(fs::remove_dir_all(&rt, place.as_str())?)
}
