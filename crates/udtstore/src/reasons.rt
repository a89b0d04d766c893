//! Why the program ended as it did, in words for people: one line for standard error. No contract promises anything of
//! them, and where they can't be had there are none.

use client_lang::{COMMAND_LIMIT, FILE_LIMIT, ReadFault, read_client, wrong_with};
use client_runner::Status;
use std::alloc::Global;
use std::fs::File;
use std::io::ErrorKind;
use std::rt::Files;
use std::{fs, io};
use ts_key::{FAMILY_LIMIT, Name, NameFault};
use udt_disk::Text;

/// Why these words ended with this status, where the host's last failure was this.
pub fn reason<R: Files<File = File> + AllocGlobal>(
    rt: &R,
    words: &[Text],
    status: Status,
    error: Option<ErrorKind>,
) -> io::Result<Option<String>> {
    let alloc = rt.alloc();
    match (status, words) {
        (Status::Usage, words) => usage(rt, words),
        (Status::Folder, [verb, folder, ..]) => refused(rt, text(verb), text(folder)).map(Some),
        (Status::DiskFault, [_, folder, ..]) => failure(alloc, text(folder), error).map(Some),
        (Status::SourceFault, [_, .., file]) => failure(alloc, text(file), error).map(Some),
        _ => Ok(None),
    }
}

fn text(word: &Text) -> &str {
    str::from_utf8(word.bytes()).unwrap_or("?")
}

/// Why words are no command, or their file is no command file.
fn usage<R: Files<File = File> + AllocGlobal>(
    rt: &R,
    words: &[Text],
) -> io::Result<Option<String>> {
    let alloc = rt.alloc();
    let said = match words {
        [] => "a command is missing; see udtstore --help",
        [verb, behind @ ..] => match (text(verb), behind) {
            ("try", [file]) | ("run", [_, file]) => return file_reason(rt, text(file)),
            ("try", _) => "try wants one file",
            ("run", _) => "run wants a folder and a file",
            ("init", [_, families @ ..]) => return families_reason(alloc, families),
            ("init", []) => "init wants a folder, and families as NAME:persist",
            ("--help" | "--version", _) => "--help and --version stand alone",
            (other, _) => return unknown(alloc, other).map(Some),
        },
    };
    Ok(Some(String::from_str(alloc, said)?))
}

fn unknown(alloc: Global, verb: &str) -> io::Result<String> {
    Ok(format!(in alloc; "unknown command {verb}; see udtstore --help")?)
}

/// Why the words behind a folder aren't the families of a store.
fn families_reason(alloc: Global, families: &[Text]) -> io::Result<Option<String>> {
    let count = families.len();
    if count == 0 {
        let said = "init wants 1 to 16 families behind the folder, as NAME:persist";
        return Ok(Some(String::from_str(alloc, said)?));
    }
    if count > FAMILY_LIMIT {
        return Ok(Some(format!(in alloc; "a store has at most {FAMILY_LIMIT} families")?));
    }
    for family in families {
        if let Some(said) = family_reason(alloc, text(family))? {
            return Ok(Some(said));
        }
    }
    Ok(Some(String::from_str(alloc, "two families have one name")?))
}

/// Why a word is no family.
fn family_reason(alloc: Global, word: &str) -> io::Result<Option<String>> {
    let Some(name) = word.strip_suffix(":persist") else {
        return Ok(Some(format!(in alloc; "{word}: a family is NAME:persist")?));
    };
    match Name::of(alloc, name.as_bytes()) {
        Err(NameFault::Bad) => Ok(Some(format!(in alloc;
            "{word}: a name is 1 to 32 of a-z, 0-9 and _"
        )?)),
        Ok(_) | Err(NameFault::NoMemory) => Ok(None),
    }
}

/// Why the file under a path is no command file.
fn file_reason<R: Files<File = File> + AllocGlobal>(
    rt: &R,
    path: &str,
) -> io::Result<Option<String>> {
    let alloc = rt.alloc();
    let length = match fs::metadata(rt, path) {
        Err(e) if e.kind() == ErrorKind::NotFound => {
            return Ok(Some(format!(in alloc; "{path}: there is no such file")?));
        }
        metadata => metadata?.len(),
    };
    if length > FILE_LIMIT as u64 {
        return Ok(Some(format!(in alloc; "{path}: it has more than {FILE_LIMIT} bytes")?));
    }
    let bytes = fs::read(rt, path)?;
    match read_client(alloc, &bytes) {
        Err(ReadFault::BadLine { line }) => line_reason(alloc, path, &bytes, line),
        Err(ReadFault::TooMany { line }) => Ok(Some(format!(in alloc;
            "{path}: line {line}: a file has at most {COMMAND_LIMIT} commands"
        )?)),
        Ok(_) | Err(ReadFault::TooLong) | Err(ReadFault::NoMemory) => Ok(None),
    }
}

/// Why this line of a file, counted from 1, is no command.
fn line_reason(alloc: Global, path: &str, bytes: &[u8], line: u64) -> io::Result<Option<String>> {
    let index = line.saturating_sub(1) as usize;
    let Some(found) = bytes.split(|b| *b == b'\n').nth(index) else {
        return Ok(None);
    };
    let wrong = wrong_with(alloc, found)?;
    Ok(Some(format!(in alloc; "{path}: line {line}: {wrong}")?))
}

/// Why a folder is refused for what it holds.
fn refused<R: Files<File = File> + AllocGlobal>(
    rt: &R,
    verb: &str,
    folder: &str,
) -> io::Result<String> {
    let alloc = rt.alloc();
    let made = format!(in alloc; "{folder}/MADE")?;
    let said = match (verb, fs::metadata(rt, made.as_str())) {
        ("init", Ok(_)) => "there is a store already",
        (_, Err(e)) if e.kind() == ErrorKind::NotFound => {
            "there is no store; udtstore init makes one"
        }
        _ => "the manifest or a log is missing or damaged; nothing was changed",
    };
    Ok(format!(in alloc; "{folder}: {said}")?)
}

/// What the system said of a path.
fn failure(alloc: Global, path: &str, error: Option<ErrorKind>) -> io::Result<String> {
    let said = match error {
        Some(ErrorKind::WouldBlock) => "it is locked by another process",
        Some(error) => return Ok(format!(in alloc; "{path}: {error}")?),
        None => "it failed",
    };
    Ok(format!(in alloc; "{path}: {said}")?)
}

#[cfg(test)]
mod tests;
