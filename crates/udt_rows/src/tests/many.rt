//! Some thousand commands in one file, which end as a few do.

use super::stage::{Ended, run, store_of};
use client_runner::Status;
use std::alloc::Global;
use std::test::Fail;
use udt_disk::MemHost;

const INIT: [&str; 3] = ["init", "X", "d:persist"];

const COUNT: u64 = 1_000;

/// A put of each key, and then a get of each.
fn puts_and_gets(alloc: Global) -> Result<String, Fail> {
    let mut file = String::new(alloc);
    for n in 0..COUNT {
        let put = format!(in alloc; "put d k{n} 5 v{n}\n")?;
        file.push_str(put.as_str())?;
    }
    for n in 0..COUNT {
        let get = format!(in alloc; "get d k{n} 9\n")?;
        file.push_str(get.as_str())?;
    }
    Ok(file)
}

fn are_told(ran: &Ended, parts: [&str; 2]) -> bool {
    ran.status == Status::Done && parts.iter().all(|part| ran.tells(part))
}

/// A run of the file over the host ends with 0, and tells these parts.
fn tells(alloc: Global, host: &mut MemHost, file: &str, parts: [&str; 2]) -> Result<(), Fail> {
    let ran = run(alloc, host, file)?;
    if are_told(&ran, parts) {
        Ok(())
    } else {
        Err(ran.into())
    }
}

#[test]
fn two_thousand_commands_end_with_0(rt: HostRuntime) -> Result<(), Fail> {
    let mut host = store_of(rt.alloc(), &INIT, None)?;
    let file = puts_and_gets(rt.alloc())?;
    let parts = [
        "1000 c1 put d k999 5 v999 = ok 1000\n1001 c1 get d k0 9 = found v0 5\n",
        "2000 c1 get d k999 9 = found v999 5\n2001 r sync = ok\n",
    ];
    tells(rt.alloc(), &mut host, file.as_str(), parts)?;
    tells(
        rt.alloc(),
        &mut host,
        "get d k7 9\n",
        ["opened 1000\n", "= found v7 5\n"],
    )
}
