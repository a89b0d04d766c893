//! Commands over folders of the operating system.

use super::stage;
use client_runner::Status;
use std::test::Fail;
use std::{env, fs, process};
use udt_disk::{Host, RealHost, Text};

/// A folder of its own for a test, and the paths in it of a store and of a command file.
#[derive(Drop)]
struct Place {
    path: String,
    store: String,
    file: String,
}

impl Place {
    /// The folder is made in the place for temporary files, and the command file in it.
    fn make(rt: &HostRuntime, name: &str, commands: &str) -> Result<Place, Fail> {
        let parent = env::temp_dir(rt)?;
        let id = process::id(rt.process());
        let path = format!(in rt.alloc(); "{}/udt_rows-{id}-{name}", parent.display())?;
        let store = format!(in rt.alloc(); "{path}/X")?;
        let file = format!(in rt.alloc(); "{path}/F")?;
        fs::create_dir(rt, path.as_str())?;
        fs::write(rt, file.as_str(), commands)?;
        Ok(Place { path, store, file })
    }

    fn remove(self, rt: &HostRuntime) -> Result<(), Fail> {
        Ok(fs::remove_dir_all(rt, self.path.as_str())?)
    }

    /// Running the command file over the store ends with this status and text.
    fn runs(&self, rt: &HostRuntime, status: Status, text: &str) -> Result<(), Fail> {
        runs(rt, self.store.as_str(), self.file.as_str(), status, text)
    }

    /// Making the store ends with this status and text.
    fn inits(&self, rt: &HostRuntime, status: Status, text: &str) -> Result<(), Fail> {
        inits(rt, self.store.as_str(), status, text)
    }
}

/// Making a store of the families `d` and `e` in a folder ends with this status and text.
fn inits(rt: &HostRuntime, store: &str, status: Status, text: &str) -> Result<(), Fail> {
    let mut host = RealHost::new(rt);
    let words = ["init", store, "d:persist", "e:persist"];
    stage::ends(rt.alloc(), &mut host, &words, status, text)
}

/// Running a command file over the store in a folder ends with this status and text.
fn runs(rt: &HostRuntime, store: &str, file: &str, status: Status, text: &str) -> Result<(), Fail> {
    let mut host = RealHost::new(rt);
    stage::ends(rt.alloc(), &mut host, &["run", store, file], status, text)
}

/// Does a file hold these bytes?
fn holds(rt: &HostRuntime, path: &str, bytes: &[u8]) -> Result<bool, Fail> {
    Ok(fs::read(rt, path)?.as_slice() == bytes)
}

/// What each of two runs of four commands prints.
const RUNS: [&str; 2] = [
    "udt 1\nopened 0\nfamily d persist 0\nfamily e persist 0\nbegin\n\
    1 c1 get d a 1 = absent\n\
    2 c1 put d a 1 x = ok 1\n\
    3 c1 put d b 2 y sync = ok 2\n\
    4 c1 get d a 9 = found x 1\n\
    5 r sync = ok\n",
    "udt 1\nopened 2\nfamily d persist 0\nfamily e persist 0\nbegin\n\
    1 c1 get d a 1 = found x 1\n\
    2 c1 put d a 1 x = ok 3\n\
    3 c1 put d b 2 y sync = ok 4\n\
    4 c1 get d a 9 = found x 1\n\
    5 r sync = ok\n",
];

#[test]
fn a_real_folder_keeps_what_was_synced(rt: HostRuntime) -> Result<(), Fail> {
    let commands = "get d a 1\nput d a 1 x\nput d b 2 y sync\nget d a 9\n";
    let place = Place::make(&rt, "runs", commands)?;
    place.runs(&rt, Status::Folder, "no store\n")?;
    place.inits(&rt, Status::Done, "made 2\n")?;
    place.inits(&rt, Status::Folder, "store exists\n")?;
    for wanted in RUNS {
        place.runs(&rt, Status::Done, wanted)?;
    }
    place.remove(&rt)
}

/// Paths in the place where no store is, with how a run ends there and then an init. The second is a path under a file.
const REFUSED: [(&str, Status, &str, Status, &str); 4] = [
    (
        "missing/below",
        Status::Folder,
        "no store\n",
        Status::DiskFault,
        "disk fault\n",
    ),
    (
        "F/below",
        Status::DiskFault,
        "disk fault\n",
        Status::DiskFault,
        "disk fault\n",
    ),
    (
        "F",
        Status::DiskFault,
        "disk fault\n",
        Status::DiskFault,
        "disk fault\n",
    ),
    ("X", Status::Folder, "no store\n", Status::Done, "made 2\n"),
];

#[test]
fn real_folders_that_are_refused(rt: HostRuntime) -> Result<(), Fail> {
    let place = Place::make(&rt, "refused", "get d a 1\n")?;
    for (name, ran, told, made, answered) in REFUSED {
        let store = format!(in rt.alloc(); "{}/{name}", place.path)?;
        runs(&rt, store.as_str(), place.file.as_str(), ran, told)?;
        inits(&rt, store.as_str(), made, answered)?;
    }
    place.remove(&rt)
}

#[test]
fn a_missing_real_file_is_told(rt: HostRuntime) -> Result<(), Fail> {
    let place = Place::make(&rt, "file", "")?;
    let other = format!(in rt.alloc(); "{}/G", place.path)?;
    let wanted = format!(in rt.alloc(); "no file {other}\n")?;
    let store = place.store.as_str();
    runs(&rt, store, other.as_str(), Status::Usage, wanted.as_str())?;
    place.remove(&rt)
}

/// The log of a store whose first frame isn't whole.
const DAMAGED: &[u8] = b"\xA5\x29\0\0\00123456789";

#[test]
fn a_damaged_log_stays(rt: HostRuntime) -> Result<(), Fail> {
    let place = Place::make(&rt, "damaged", "put d a 1 x sync\n")?;
    let log = format!(in rt.alloc(); "{}/1.log", place.store)?;
    place.inits(&rt, Status::Done, "made 2\n")?;
    fs::write(&rt, log.as_str(), DAMAGED)?;
    place.runs(&rt, Status::Folder, "bad log 1 0\n")?;
    assert!(rt; holds(&rt, log.as_str(), DAMAGED)?);
    fs::remove_file(&rt, log.as_str())?;
    place.runs(&rt, Status::Folder, "bad log 1 0\n")?;
    place.remove(&rt)
}

/// Neither a run nor an init can open the folder of the store.
fn is_refused(rt: &HostRuntime, place: &Place) -> Result<(), Fail> {
    place.runs(rt, Status::DiskFault, "disk fault\n")?;
    place.inits(rt, Status::DiskFault, "disk fault\n")
}

/// While one host holds the folder of the store, others can't open it.
fn is_held(rt: &HostRuntime, place: &Place) -> Result<(), Fail> {
    let store = Text::of(rt.alloc(), place.store.as_bytes())?;
    let mut holder = RealHost::new(rt);
    let held = holder.open_folder(&store, false)?.ok_or("no folder")?;
    let refused = is_refused(rt, place);
    holder.close_folder(&store, held);
    refused
}

const PUT: &str = "udt 1\nopened 0\nfamily d persist 0\nfamily e persist 0\nbegin\n\
    1 c1 put d a 1 x = ok 1\n\
    2 r sync = ok\n";

#[test]
fn a_folder_that_is_held_is_opened_by_no_other(rt: HostRuntime) -> Result<(), Fail> {
    let place = Place::make(&rt, "held", "put d a 1 x\n")?;
    let log = format!(in rt.alloc(); "{}/1.log", place.store)?;
    place.inits(&rt, Status::Done, "made 2\n")?;
    is_held(&rt, &place)?;
    assert!(rt; holds(&rt, log.as_str(), b"\x5A")?);
    place.runs(&rt, Status::Done, PUT)?;
    place.remove(&rt)
}

#[test]
fn a_missing_folder_is_made_by_init_alone(rt: HostRuntime) -> Result<(), Fail> {
    let place = Place::make(&rt, "missing", "put d a 1 x\n")?;
    place.runs(&rt, Status::Folder, "no store\n")?;
    assert!(rt; fs::metadata(&rt, place.store.as_str()).is_err());
    fs::create_dir(&rt, place.store.as_str())?;
    place.inits(&rt, Status::Done, "made 2\n")?;
    place.runs(&rt, Status::Done, PUT)?;
    place.remove(&rt)
}

/// Runs of one put, behind each of which the log grows to three gigabytes.
const TAILED: [&str; 3] = [
    PUT,
    "udt 1\nopened 1\nfamily d persist 0\nfamily e persist 0\nbegin\n\
    1 c1 put d a 1 x = ok 2\n\
    2 r sync = ok\n",
    "udt 1\nopened 2\nfamily d persist 0\nfamily e persist 0\nbegin\n\
    1 c1 put d a 1 x = ok 3\n\
    2 r sync = ok\n",
];

fn grow(rt: &HostRuntime, path: &str) -> Result<(), Fail> {
    let file = fs::OpenOptions::new().write(true).open(rt, path)?;
    Ok(file.set_len(3 << 30)?)
}

#[test]
fn what_stands_behind_a_log_costs_nothing(rt: HostRuntime) -> Result<(), Fail> {
    let place = Place::make(&rt, "tail", "put d a 1 x\n")?;
    let log = format!(in rt.alloc(); "{}/1.log", place.store)?;
    place.inits(&rt, Status::Done, "made 2\n")?;
    for wanted in TAILED {
        place.runs(&rt, Status::Done, wanted)?;
        grow(&rt, log.as_str())?;
    }
    place.remove(&rt)
}
