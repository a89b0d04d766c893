//! Making stores.

use super::stage::{LOG, OUTCOMES, crashed, ends, host_of, run, runs};
use client_runner::Status;
use std::alloc::Global;
use std::test::Fail;
use udt_disk::{FileName, MemDisk, MemHost, Outcome, Trouble};

const EMPTY: &str =
    "udt 1\nopened 0\nfamily a persist 0\nfamily b persist 0\nbegin\n1 r sync = ok\n";

/// The files that an init in an empty folder uses, and how many calls it makes on each.
const CALLS: [(FileName, u64); 4] = [
    (LOG, 3),
    (FileName::Current, 1),
    (FileName::Manifest0, 7),
    (FileName::Made, 3),
];

/// Making a store of two families ends with this status and text.
fn inits(alloc: Global, host: &mut MemHost, status: Status, text: &str) -> Result<(), Fail> {
    ends(
        alloc,
        host,
        &["init", "X", "a:persist", "b:persist"],
        status,
        text,
    )
}

/// A host with an empty folder in which this call fails.
fn empty_folder(alloc: Global, trouble: Trouble) -> Result<MemHost, Fail> {
    let mut troubles = Vec::new(alloc);
    troubles.push(trouble)?;
    host_of(alloc, MemDisk::new(alloc, troubles)?)
}

#[test]
fn a_store_is_made_once(rt: HostRuntime) -> Result<(), Fail> {
    let mut host = MemHost::new(rt.alloc());
    inits(rt.alloc(), &mut host, Status::Done, "made 2\n")?;
    inits(rt.alloc(), &mut host, Status::Folder, "store exists\n")?;
    runs(rt.alloc(), &mut host, "", Status::Done, EMPTY)
}

const SIXTEEN: [&str; 18] = [
    "init",
    "X",
    "a:persist",
    "b:persist",
    "c:persist",
    "d:persist",
    "e:persist",
    "f:persist",
    "g:persist",
    "h:persist",
    "i:persist",
    "j:persist",
    "k:persist",
    "l:persist",
    "m:persist",
    "n:persist",
    "o:persist",
    "p:persist",
];

const RUN_OF_SIXTEEN: &str = "udt 1\nopened 0\n\
    family a persist 0\n\
    family b persist 0\n\
    family c persist 0\n\
    family d persist 0\n\
    family e persist 0\n\
    family f persist 0\n\
    family g persist 0\n\
    family h persist 0\n\
    family i persist 0\n\
    family j persist 0\n\
    family k persist 0\n\
    family l persist 0\n\
    family m persist 0\n\
    family n persist 0\n\
    family o persist 0\n\
    family p persist 0\n\
    begin\n\
    1 c1 put p k 1 v = ok 1\n\
    2 c1 get o k 1 = absent\n\
    3 c1 get p k 1 = found v 1\n\
    4 r sync = ok\n";

#[test]
fn sixteen_families_are_made(rt: HostRuntime) -> Result<(), Fail> {
    let mut host = MemHost::new(rt.alloc());
    ends(rt.alloc(), &mut host, &SIXTEEN, Status::Done, "made 16\n")?;
    let file = "put p k 1 v\nget o k 1\nget p k 1\n";
    runs(rt.alloc(), &mut host, file, Status::Done, RUN_OF_SIXTEEN)
}

/// An init in which this call fails, and then another one. The third call on `MADE` syncs it: it stands by then.
fn is_made_again(alloc: Global, trouble: Trouble) -> Result<(), Fail> {
    let (status, text) = if trouble.name == FileName::Made && trouble.call == 3 {
        (Status::Folder, "store exists\n")
    } else {
        (Status::Done, "made 2\n")
    };
    let mut host = empty_folder(alloc, trouble)?;
    inits(alloc, &mut host, Status::DiskFault, "disk fault\n")?;
    inits(alloc, &mut host, status, text)?;
    runs(alloc, &mut host, "", Status::Done, EMPTY)
}

#[test]
fn an_init_that_failed_is_made_again(rt: HostRuntime) -> Result<(), Fail> {
    for (name, calls) in CALLS {
        for call in 1..=calls {
            let trouble = Trouble {
                name,
                call,
                lasting: false,
            };
            is_made_again(rt.alloc(), trouble)?;
        }
    }
    Ok(())
}

/// Makes the store where there is none.
fn make_where_none(alloc: Global, host: &mut MemHost) -> Result<(), Fail> {
    let ran = run(alloc, host, "")?;
    if ran.is(Status::Folder, "no store\n") {
        return inits(alloc, host, Status::Done, "made 2\n");
    }
    Ok(())
}

/// A crash behind an init in which this call fails leaves the empty store, or no store, and then one can be made.
fn is_there_or_none(alloc: Global, trouble: Trouble, outcome: Outcome) -> Result<(), Fail> {
    let mut host = empty_folder(alloc, trouble)?;
    inits(alloc, &mut host, Status::DiskFault, "disk fault\n")?;
    let mut host = crashed(alloc, host, outcome)?;
    make_where_none(alloc, &mut host)?;
    runs(alloc, &mut host, "", Status::Done, EMPTY)
}

/// A crash behind an init in which no call fails leaves the empty store.
fn is_there(alloc: Global, trouble: Trouble, outcome: Outcome) -> Result<(), Fail> {
    let mut host = empty_folder(alloc, trouble)?;
    inits(alloc, &mut host, Status::Done, "made 2\n")?;
    let mut host = crashed(alloc, host, outcome)?;
    runs(alloc, &mut host, "", Status::Done, EMPTY)
}

/// The call of this number on the file, which fails from then on.
fn lasting(name: FileName, call: u64) -> Trouble {
    Trouble {
        name,
        call,
        lasting: true,
    }
}

#[test]
fn a_crash_leaves_no_store_or_the_empty_one(rt: HostRuntime) -> Result<(), Fail> {
    for (name, calls) in CALLS {
        for outcome in OUTCOMES {
            for call in 1..=calls {
                is_there_or_none(rt.alloc(), lasting(name, call), outcome)?;
            }
            // The call behind the last one isn't made.
            is_there(rt.alloc(), lasting(name, calls.saturating_add(1)), outcome)?;
        }
    }
    Ok(())
}
