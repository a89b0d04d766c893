//! A run of ten commands, each of whose calls on the folder fails in turn, with each outcome of a crash after it.

use super::stage::{Ended, LOG, OUTCOMES, crashed, run, runs, store_of};
use client_runner::Status;
use std::alloc::Global;
use std::test::Fail;
use udt_disk::{FileName, MemHost, Outcome, Trouble};

const INIT: [&str; 4] = ["init", "X", "d:persist", "e:persist"];

const COMMANDS: &str = "put d a 1 v1\n\
    put d b 1 v2 ; put e a 1 v3\n\
    get d a 1\n\
    put d c 2 v4 sync\n\
    del d a 3\n\
    sync\n\
    put d a 4 v5 ; del d b 4 ; put e b 4 v6 sync\n\
    get d b 4\n\
    put d d 5 v7\n\
    get e b 9\n";

/// What the run prints where each of its four commits fails, and where none does.
const TOLD: [&str; 5] = [
    "udt 1\nopened 0\nfamily d persist 0\nfamily e persist 0\nbegin\n\
    1 c1 put d a 1 v1 = ok 1\n\
    2 c1 put d b 1 v2 ; put e a 1 v3 = ok 3\n\
    3 c1 get d a 1 = found v1 1\n\
    4 c1 put d c 2 v4 sync = fault\n\
    5 c1 del d a 3 = halted 4\n\
    6 c1 sync = halted 4\n\
    7 c1 put d a 4 v5 ; del d b 4 ; put e b 4 v6 sync = halted 4\n\
    8 c1 get d b 4 = found v2 1\n\
    9 c1 put d d 5 v7 = halted 4\n\
    10 c1 get e b 9 = absent\n\
    11 r sync = halted 4\n",
    "udt 1\nopened 0\nfamily d persist 0\nfamily e persist 0\nbegin\n\
    1 c1 put d a 1 v1 = ok 1\n\
    2 c1 put d b 1 v2 ; put e a 1 v3 = ok 3\n\
    3 c1 get d a 1 = found v1 1\n\
    4 c1 put d c 2 v4 sync = ok 4\n\
    5 c1 del d a 3 = ok 5\n\
    6 c1 sync = fault\n\
    7 c1 put d a 4 v5 ; del d b 4 ; put e b 4 v6 sync = halted 6\n\
    8 c1 get d b 4 = found v2 1\n\
    9 c1 put d d 5 v7 = halted 6\n\
    10 c1 get e b 9 = absent\n\
    11 r sync = halted 6\n",
    "udt 1\nopened 0\nfamily d persist 0\nfamily e persist 0\nbegin\n\
    1 c1 put d a 1 v1 = ok 1\n\
    2 c1 put d b 1 v2 ; put e a 1 v3 = ok 3\n\
    3 c1 get d a 1 = found v1 1\n\
    4 c1 put d c 2 v4 sync = ok 4\n\
    5 c1 del d a 3 = ok 5\n\
    6 c1 sync = ok\n\
    7 c1 put d a 4 v5 ; del d b 4 ; put e b 4 v6 sync = fault\n\
    8 c1 get d b 4 = found v2 1\n\
    9 c1 put d d 5 v7 = halted 7\n\
    10 c1 get e b 9 = absent\n\
    11 r sync = halted 7\n",
    "udt 1\nopened 0\nfamily d persist 0\nfamily e persist 0\nbegin\n\
    1 c1 put d a 1 v1 = ok 1\n\
    2 c1 put d b 1 v2 ; put e a 1 v3 = ok 3\n\
    3 c1 get d a 1 = found v1 1\n\
    4 c1 put d c 2 v4 sync = ok 4\n\
    5 c1 del d a 3 = ok 5\n\
    6 c1 sync = ok\n\
    7 c1 put d a 4 v5 ; del d b 4 ; put e b 4 v6 sync = ok 8\n\
    8 c1 get d b 4 = absent\n\
    9 c1 put d d 5 v7 = ok 9\n\
    10 c1 get e b 9 = found v6 4\n\
    11 r sync = fault\n",
    "udt 1\nopened 0\nfamily d persist 0\nfamily e persist 0\nbegin\n\
    1 c1 put d a 1 v1 = ok 1\n\
    2 c1 put d b 1 v2 ; put e a 1 v3 = ok 3\n\
    3 c1 get d a 1 = found v1 1\n\
    4 c1 put d c 2 v4 sync = ok 4\n\
    5 c1 del d a 3 = ok 5\n\
    6 c1 sync = ok\n\
    7 c1 put d a 4 v5 ; del d b 4 ; put e b 4 v6 sync = ok 8\n\
    8 c1 get d b 4 = absent\n\
    9 c1 put d d 5 v7 = ok 9\n\
    10 c1 get e b 9 = found v6 4\n\
    11 r sync = ok\n",
];

/// The lines of the accepted syncs, each of which covers the writes before it.
const SYNCED: [&str; 4] = [
    "\n4 c1 put d c 2 v4 sync = ok 4\n",
    "\n6 c1 sync = ok\n",
    "\n7 c1 put d a 4 v5 ; del d b 4 ; put e b 4 v6 sync = ok 8\n",
    "\n11 r sync = ok\n",
];

const READS: &str = "get d a 1\n\
    get d b 1\n\
    get e a 1\n\
    get d c 2\n\
    get d a 3\n\
    get d a 4\n\
    get d b 4\n\
    get e b 4\n\
    get d d 5\n";

/// What the reads find where none of the commits is there, the first one, the first two, and so on.
const FOUND: [&str; 5] = [
    "udt 1\nopened 0\nfamily d persist 0\nfamily e persist 0\nbegin\n\
    1 c1 get d a 1 = absent\n\
    2 c1 get d b 1 = absent\n\
    3 c1 get e a 1 = absent\n\
    4 c1 get d c 2 = absent\n\
    5 c1 get d a 3 = absent\n\
    6 c1 get d a 4 = absent\n\
    7 c1 get d b 4 = absent\n\
    8 c1 get e b 4 = absent\n\
    9 c1 get d d 5 = absent\n\
    10 r sync = ok\n",
    "udt 1\nopened 4\nfamily d persist 0\nfamily e persist 0\nbegin\n\
    1 c1 get d a 1 = found v1 1\n\
    2 c1 get d b 1 = found v2 1\n\
    3 c1 get e a 1 = found v3 1\n\
    4 c1 get d c 2 = found v4 2\n\
    5 c1 get d a 3 = found v1 1\n\
    6 c1 get d a 4 = found v1 1\n\
    7 c1 get d b 4 = found v2 1\n\
    8 c1 get e b 4 = absent\n\
    9 c1 get d d 5 = absent\n\
    10 r sync = ok\n",
    "udt 1\nopened 5\nfamily d persist 0\nfamily e persist 0\nbegin\n\
    1 c1 get d a 1 = found v1 1\n\
    2 c1 get d b 1 = found v2 1\n\
    3 c1 get e a 1 = found v3 1\n\
    4 c1 get d c 2 = found v4 2\n\
    5 c1 get d a 3 = absent\n\
    6 c1 get d a 4 = absent\n\
    7 c1 get d b 4 = found v2 1\n\
    8 c1 get e b 4 = absent\n\
    9 c1 get d d 5 = absent\n\
    10 r sync = ok\n",
    "udt 1\nopened 8\nfamily d persist 0\nfamily e persist 0\nbegin\n\
    1 c1 get d a 1 = found v1 1\n\
    2 c1 get d b 1 = found v2 1\n\
    3 c1 get e a 1 = found v3 1\n\
    4 c1 get d c 2 = found v4 2\n\
    5 c1 get d a 3 = absent\n\
    6 c1 get d a 4 = found v5 4\n\
    7 c1 get d b 4 = absent\n\
    8 c1 get e b 4 = found v6 4\n\
    9 c1 get d d 5 = absent\n\
    10 r sync = ok\n",
    "udt 1\nopened 9\nfamily d persist 0\nfamily e persist 0\nbegin\n\
    1 c1 get d a 1 = found v1 1\n\
    2 c1 get d b 1 = found v2 1\n\
    3 c1 get e a 1 = found v3 1\n\
    4 c1 get d c 2 = found v4 2\n\
    5 c1 get d a 3 = absent\n\
    6 c1 get d a 4 = found v5 4\n\
    7 c1 get d b 4 = absent\n\
    8 c1 get e b 4 = found v6 4\n\
    9 c1 get d d 5 = found v7 5\n\
    10 r sync = ok\n",
];

/// The files that the run uses, and how many calls it makes on each: three to read the manifest, two to read the log, which
/// has no frame, and four a commit.
const CALLS: [(FileName, u64); 4] = [
    (FileName::Made, 1),
    (FileName::Current, 1),
    (FileName::Manifest0, 3),
    (LOG, 18),
];

/// Each call of the run, failing once and for good, and of each file the call behind its last, which isn't made.
fn troubles(alloc: Global) -> Result<Vec<Trouble>, Fail> {
    let mut troubles = Vec::new(alloc);
    for (name, calls) in CALLS {
        for call in 1..=calls.saturating_add(1) {
            for lasting in [false, true] {
                troubles.push(Trouble {
                    name,
                    call,
                    lasting,
                })?;
            }
        }
    }
    Ok(troubles)
}

/// Is the call behind the last one on its file?
fn is_behind(trouble: Trouble) -> bool {
    CALLS.iter().any(|(name, calls)| *name == trouble.name && trouble.call > *calls)
}

/// The status and the text of the run where this call fails.
fn told(trouble: Trouble) -> (Status, &'static str) {
    if is_behind(trouble) {
        return (Status::Done, TOLD[4]);
    }
    if trouble.name != LOG {
        return (Status::DiskFault, "disk fault\n");
    }
    let text = match trouble.call {
        0..=2 => "disk fault\n",
        3..=6 => TOLD[0],
        7..=10 => TOLD[1],
        11..=14 => TOLD[2],
        _ => TOLD[3],
    };
    (Status::DiskFault, text)
}

/// Are the writes that accepted syncs covered found in the folder, and those of one more commit at most?
fn are_found(told: &str, found: &Ended) -> bool {
    let accepted = SYNCED.iter().filter(|line| told.contains(**line)).count();
    FOUND.iter().enumerate().any(|(commits, text)| {
        found.is(Status::Done, text)
            && (commits >= accepted && commits.saturating_sub(accepted) <= 1)
    })
}

/// Behind a run that printed this, the reads find what was accepted.
fn finds(alloc: Global, host: &mut MemHost, told: &str) -> Result<(), Fail> {
    let found = run(alloc, host, READS)?;
    if are_found(told, &found) {
        Ok(())
    } else {
        Err(found.into())
    }
}

/// The run in which this call fails prints what it should, and after a crash what was accepted is found.
fn is_kept(alloc: Global, trouble: Trouble, outcome: Outcome) -> Result<(), Fail> {
    let (status, text) = told(trouble);
    let mut host = store_of(alloc, &INIT, Some(trouble))?;
    runs(alloc, &mut host, COMMANDS, status, text)?;
    let mut host = crashed(alloc, host, outcome)?;
    finds(alloc, &mut host, text)
}

#[test]
fn accepted_syncs_are_found_after_each_failing_call(rt: HostRuntime) -> Result<(), Fail> {
    for trouble in troubles(rt.alloc())? {
        for outcome in OUTCOMES {
            is_kept(rt.alloc(), trouble, outcome)?;
        }
    }
    Ok(())
}
