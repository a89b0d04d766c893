//! One commit of three writes, each of whose calls fails in turn: all of it or nothing is there again.

use super::stage::{LOG, OUTCOMES, crashed, runs, store_of};
use client_runner::Status;
use std::alloc::Global;
use std::test::Fail;
use udt_disk::{Outcome, Trouble};

const INIT: [&str; 3] = ["init", "X", "d:persist"];

const WRITES: &str = "put d a 1 x\nput d b 1 y\nput d c 1 z sync\n";

const FAILED: &str = "udt 1\nopened 0\nfamily d persist 0\nbegin\n\
    1 c1 put d a 1 x = ok 1\n\
    2 c1 put d b 1 y = ok 2\n\
    3 c1 put d c 1 z sync = fault\n\
    4 r sync = halted 3\n";

const WRITES_AND_READ: &str = "put d a 1 x\nput d b 1 y\nput d c 1 z sync\nget d c 1\n";

const FAILED_AND_READ: &str = "udt 1\nopened 0\nfamily d persist 0\nbegin\n\
    1 c1 put d a 1 x = ok 1\n\
    2 c1 put d b 1 y = ok 2\n\
    3 c1 put d c 1 z sync = fault\n\
    4 c1 get d c 1 = absent\n\
    5 r sync = halted 3\n";

const READS: &str = "get d a 1\nget d b 1\nget d c 1\n";

const NONE_OF_IT: &str = "udt 1\nopened 0\nfamily d persist 0\nbegin\n\
    1 c1 get d a 1 = absent\n\
    2 c1 get d b 1 = absent\n\
    3 c1 get d c 1 = absent\n\
    4 r sync = ok\n";

const ALL_OF_IT: &str = "udt 1\nopened 3\nfamily d persist 0\nbegin\n\
    1 c1 get d a 1 = found x 1\n\
    2 c1 get d b 1 = found y 1\n\
    3 c1 get d c 1 = found z 1\n\
    4 r sync = ok\n";

/// What a crash leaves where this call of the log's file failed, counted from the opening, which makes two. The
/// fourth call of a commit syncs the gate that its third one opened; the bytes behind it were synced by the second.
fn left(call: u64, outcome: Outcome) -> &'static str {
    if call == 6 && outcome != Outcome::Lost {
        ALL_OF_IT
    } else {
        NONE_OF_IT
    }
}

/// A call of the log's file.
fn call_of_log(call: u64, lasting: bool) -> Trouble {
    Trouble {
        name: LOG,
        call,
        lasting,
    }
}

/// Where the call fails a run prints this, and after a crash the reads print what is left.
fn fails_and_is_left(
    alloc: Global,
    trouble: Trouble,
    file: &str,
    text: &str,
    outcome: Outcome,
) -> Result<(), Fail> {
    let mut host = store_of(alloc, &INIT, Some(trouble))?;
    runs(alloc, &mut host, file, Status::DiskFault, text)?;
    let mut host = crashed(alloc, host, outcome)?;
    runs(
        alloc,
        &mut host,
        READS,
        Status::Done,
        left(trouble.call, outcome),
    )
}

#[test]
fn a_commit_that_fails_is_there_whole_or_not_at_all(rt: HostRuntime) -> Result<(), Fail> {
    for call in 3..7 {
        for outcome in OUTCOMES {
            fails_and_is_left(rt.alloc(), call_of_log(call, true), WRITES, FAILED, outcome)?;
        }
    }
    Ok(())
}

#[test]
fn a_write_that_failed_is_not_read(rt: HostRuntime) -> Result<(), Fail> {
    for outcome in OUTCOMES {
        let trouble = call_of_log(6, false);
        fails_and_is_left(
            rt.alloc(),
            trouble,
            WRITES_AND_READ,
            FAILED_AND_READ,
            outcome,
        )?;
    }
    Ok(())
}
