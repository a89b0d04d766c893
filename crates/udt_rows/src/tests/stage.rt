//! Command lines over a host in memory, with a folder under `X` and a command file under `F`.

use client_runner::{Status, store_plain};
use std::alloc::Global;
use std::str;
use std::test::Fail;
use udt_disk::{FileName, Host, MemDisk, MemHost, MemSink, MemSource, Outcome, Text, Trouble};

/// The name of the live log.
pub const LOG: FileName = FileName::Log(1);

/// The names of the files that a folder of these tests may have.
pub const NAMES: [FileName; 5] = [
    FileName::Manifest0,
    FileName::Manifest1,
    FileName::Current,
    FileName::Made,
    LOG,
];

/// What a crash may leave.
pub const OUTCOMES: [Outcome; 3] = [Outcome::Lost, Outcome::Kept, Outcome::Hostile];

/// How many calls it takes to write a file of a folder: it is made, written and synced.
const WRITING: u64 = 3;

/// What a command line came to: its status, and all that the sink took.
#[derive(Debug, Drop)]
pub struct Ended {
    pub status: Status,
    pub text: String,
}

impl Ended {
    /// Is it this status with this text?
    pub fn is(&self, status: Status, text: &str) -> bool {
        self.status == status && self.text.as_str() == text
    }

    /// Is this in the text?
    pub fn tells(&self, part: &str) -> bool {
        self.text.as_str().contains(part)
    }

    /// It is this status with this text, or the test fails with what it is.
    fn wants(self, status: Status, text: &str) -> Result<(), Fail> {
        if self.is(status, text) {
            Ok(())
        } else {
            Err(self.into())
        }
    }
}

fn texts(alloc: Global, words: &[&str]) -> Result<Vec<Text>, Fail> {
    let mut texts = Vec::new(alloc);
    for word in words {
        texts.push(Text::of(alloc, word.as_bytes())?)?;
    }
    Ok(texts)
}

/// Runs the words of a command line over a host.
pub fn command<H: Host>(alloc: Global, host: &mut H, words: &[&str]) -> Result<Ended, Fail> {
    let mut out = MemSink::new(alloc, None);
    let status = store_plain(alloc, &texts(alloc, words)?, host, &mut out);
    Ok(Ended {
        status,
        text: String::from_str(alloc, str::from_utf8(out.taken())?)?,
    })
}

/// The words of a command line end with this status and text over a host.
pub fn ends<H: Host>(
    alloc: Global,
    host: &mut H,
    words: &[&str],
    status: Status,
    text: &str,
) -> Result<(), Fail> {
    command(alloc, host, words)?.wants(status, text)
}

/// Runs `run X F` over a host, with these bytes under `F`.
pub fn run(alloc: Global, host: &mut MemHost, file: &str) -> Result<Ended, Fail> {
    let source = MemSource::new(Vec::from_slice(alloc, file.as_bytes())?, None);
    host.put_source(Text::of(alloc, b"F")?, source)?;
    command(alloc, host, &["run", "X", "F"])
}

/// `run X F` over a host, with these bytes under `F`, ends with this status and text.
pub fn runs(
    alloc: Global,
    host: &mut MemHost,
    file: &str,
    status: Status,
    text: &str,
) -> Result<(), Fail> {
    run(alloc, host, file)?.wants(status, text)
}

/// A host with this folder under `X`.
pub fn host_of(alloc: Global, disk: MemDisk) -> Result<MemHost, Fail> {
    let mut host = MemHost::new(alloc);
    host.put_folder(Text::of(alloc, b"X")?, disk)?;
    Ok(host)
}

/// The folder under `X`, which the host has no longer. Where there is none, the test fails.
pub fn folder_of(alloc: Global, host: &mut MemHost) -> Result<MemDisk, Fail> {
    let folder = host.take_folder(&Text::of(alloc, b"X")?);
    Ok(folder.ok_or("no folder")?)
}

/// Writes a file of a folder, whole and synced.
pub fn write_file(disk: &mut MemDisk, name: FileName, bytes: &[u8]) -> Result<(), Fail> {
    let mut file = disk.create(name)?;
    file.write_at(0, bytes)?;
    file.sync()?;
    disk.retire(file);
    Ok(())
}

/// The number of a call on a file of this folder's copy, counted from before the copy was written.
fn call_of(disk: &MemDisk, name: FileName, call: u64) -> u64 {
    match disk.contents(name) {
        Some(_) => call.saturating_add(WRITING),
        None => call,
    }
}

/// A folder with the files of another, in which this call fails, counted from now on.
pub fn copy_of(alloc: Global, disk: &MemDisk, trouble: Option<Trouble>) -> Result<MemDisk, Fail> {
    let mut troubles = Vec::new(alloc);
    if let Some(trouble) = trouble {
        let call = call_of(disk, trouble.name, trouble.call);
        troubles.push(Trouble { call, ..trouble })?;
    }
    let mut copy = MemDisk::new(alloc, troubles)?;
    for name in NAMES {
        if let Some(bytes) = disk.contents(name) {
            write_file(&mut copy, name, bytes)?;
        }
    }
    Ok(copy)
}

/// A host with a store under `X` that `init` with these words made, and in whose folder this call fails, counted from
/// now on.
pub fn store_of(alloc: Global, words: &[&str], trouble: Option<Trouble>) -> Result<MemHost, Fail> {
    let mut host = MemHost::new(alloc);
    command(alloc, &mut host, words)?;
    let made = folder_of(alloc, &mut host)?;
    host_of(alloc, copy_of(alloc, &made, trouble)?)
}

/// A host whose folder under `X` is what a crash with the outcome leaves of this host's.
pub fn crashed(alloc: Global, mut host: MemHost, outcome: Outcome) -> Result<MemHost, Fail> {
    let folder = folder_of(alloc, &mut host)?;
    host_of(alloc, folder.after_crash(alloc, outcome)?)
}
