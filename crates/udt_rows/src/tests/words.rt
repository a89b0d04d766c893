//! Words and command files that are refused before a folder is looked at.

use super::stage::{ends, folder_of, runs, store_of};
use client_runner::Status;
use std::alloc::Global;
use std::test::Fail;
use udt_disk::{FileName, MemHost, Text};

const NO_COMMANDS: [&[&str]; 13] = [
    &["init"],
    &["init", "X"],
    &["init", "X", "d"],
    &["init", "X", "d:strip"],
    &["init", "X", ":persist"],
    &["init", "X", "D:persist"],
    &["init", "X", "d:persist "],
    &["init", "X", "d:persist", "d:persist"],
    &[
        "init",
        "X",
        "a:persist",
        "b:persist",
        "c:persist",
        "d:persist",
        "e:persist",
        "f:persist",
        "g:persist",
        "h:persist",
        "i:persist",
        "j:persist",
        "k:persist",
        "l:persist",
        "m:persist",
        "n:persist",
        "o:persist",
        "p:persist",
        "q:persist",
    ],
    &["run"],
    &["run", "X"],
    &["run", "X", "F", "G"],
    &["RUN", "X", "F"],
];

/// The words are no command, and no folder comes by them.
fn refuses(alloc: Global, words: &[&str]) -> Result<(), Fail> {
    let mut host = MemHost::new(alloc);
    ends(alloc, &mut host, words, Status::Usage, "bad words\n")?;
    match host.take_folder(&Text::of(alloc, b"X")?) {
        None => Ok(()),
        Some(_folder) => Err("a folder is there".into()),
    }
}

#[test]
fn words_that_are_no_command(rt: HostRuntime) -> Result<(), Fail> {
    for words in NO_COMMANDS {
        refuses(rt.alloc(), words)?;
    }
    Ok(())
}

/// Over the host a run is refused without a file, and with one whose second line is bad.
fn refuses_file(alloc: Global, host: &mut MemHost, file: &str) -> Result<(), Fail> {
    ends(
        alloc,
        host,
        &["run", "X", "F"],
        Status::Usage,
        "no file F\n",
    )?;
    runs(alloc, host, file, Status::Usage, "bad line F 2\n")
}

#[test]
fn files_are_read_before_the_folder(rt: HostRuntime) -> Result<(), Fail> {
    let mut missing = MemHost::new(rt.alloc());
    refuses_file(rt.alloc(), &mut missing, "get d a 5\nget d a\n")?;
    let mut host = store_of(rt.alloc(), &["init", "X", "d:persist"], None)?;
    refuses_file(rt.alloc(), &mut host, "put d a 1 x sync\nput d a 1\n")?;
    let after = folder_of(rt.alloc(), &mut host)?;
    assert!(rt; after.contents(FileName::Log(1)) == Some(b"\x5A".as_slice()));
    Ok(())
}
