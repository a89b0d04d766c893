//! Files that are tried, with the lines that they print.

use super::stage::{prints, ran, repeated};
use client_runner::Status;
use std::test::Fail;

/// Files, each with the lines that it prints.
const TRIES: [(&str, &str); 14] = [
    // Comments and empty lines print nothing.
    ("", ""),
    (
        "\n\
            # nothing\n\
            \n\
            get d a 1\n\
            #",
        "1 c1 get d a 1 = absent\n",
    ),
    // Reads at timestamps.
    (
        "put d a 5 v\n\
            get d a 4\n\
            get d a 5\n\
            get d a 18446744073709551615\n",
        "1 c1 put d a 5 v = ok 1\n\
            2 c1 get d a 4 = absent\n\
            3 c1 get d a 5 = found v 5\n\
            4 c1 get d a 18446744073709551615 = found v 5\n",
    ),
    (
        "put d a 5 v\n\
            put d a 5 w\n\
            get d a 5",
        "1 c1 put d a 5 v = ok 1\n\
            2 c1 put d a 5 w = ok 2\n\
            3 c1 get d a 5 = found w 5\n",
    ),
    // A timestamp below the newest of its key fell.
    (
        "put d a 5 v\n\
            put d a 4 w\n\
            get d a 5\n",
        "1 c1 put d a 5 v = ok 1\n\
            2 c1 put d a 4 w = fell 1 5\n\
            3 c1 get d a 5 = found v 5\n",
    ),
    // Deletes.
    (
        "put d a 5 v\n\
            del d a 7\n\
            get d a 6\n\
            get d a 7\n",
        "1 c1 put d a 5 v = ok 1\n\
            2 c1 del d a 7 = ok 2\n\
            3 c1 get d a 6 = found v 5\n\
            4 c1 get d a 7 = absent\n",
    ),
    // An unknown family.
    (
        "put e a 5 v\n\
            get e a 5\n\
            del e a 5\n",
        "1 c1 put e a 5 v = unknown\n\
            2 c1 get e a 5 = unknown\n\
            3 c1 del e a 5 = unknown\n",
    ),
    // Words of bytes print in one spelling.
    (
        "put d a 5 v\n\
            put d 0x6100 5 w\n\
            put d 0x 5 e\n",
        "1 c1 put d a 5 v = ok 1\n\
            2 c1 put d 0x6100 5 w = ok 2\n\
            3 c1 put d 0x 5 e = ok 3\n",
    ),
    (
        "put d 0x61 5 v\n\
            get d a 5\n\
            put d b 1 0x3078\n\
            get d 0x62 1\n",
        "1 c1 put d a 5 v = ok 1\n\
            2 c1 get d a 5 = found v 5\n\
            3 c1 put d b 1 0x3078 = ok 2\n\
            4 c1 get d b 1 = found 0x3078 1\n",
    ),
    // Timestamps of one key in a batch.
    (
        "put d a 5 v ; put d a 7 w\n\
            get d a 6\n\
            get d a 7\n",
        "1 c1 put d a 5 v ; put d a 7 w = ok 2\n\
            2 c1 get d a 6 = found v 5\n\
            3 c1 get d a 7 = found w 7\n",
    ),
    (
        "put d a 5 v ; put d a 5 w\n\
            get d a 5\n\
            put d b 6 u ; put d a 4 t\n",
        "1 c1 put d a 5 v ; put d a 5 w = ok 2\n\
            2 c1 get d a 5 = found w 5\n\
            3 c1 put d b 6 u ; put d a 4 t = fell 2 5\n",
    ),
    // A refused batch writes nothing.
    (
        "put d b 9 u\n\
            put d b 9 v ; put d a 7 w ; put d a 6 x sync\n\
            get d a 9\n\
            get d b 9\n",
        "1 c1 put d b 9 u = ok 1\n\
            2 c1 put d b 9 v ; put d a 7 w ; put d a 6 x sync = fell 3 7\n\
            3 c1 get d a 9 = absent\n\
            4 c1 get d b 9 = found u 9\n",
    ),
    // `unknown` stands before `fell`.
    (
        "put d a 5 v ; put d a 4 w ; del e a 6\n\
            get d a 5\n",
        "1 c1 put d a 5 v ; put d a 4 w ; del e a 6 = unknown\n\
            2 c1 get d a 5 = absent\n",
    ),
    // Syncs.
    (
        "sync\n\
            del d a 5 sync\n\
            put d a 5 sync\n\
            sync",
        "1 c1 sync = ok\n\
            2 c1 del d a 5 sync = ok 1\n\
            3 c1 put d a 5 sync = ok 2\n\
            4 c1 sync = ok\n",
    ),
];

#[test]
fn files_print_their_lines(rt: HostRuntime) -> Result<(), Fail> {
    for (file, lines) in TRIES {
        prints(&rt, file.as_bytes(), lines.as_bytes())?;
    }
    Ok(())
}

#[test]
fn the_longest_batch(rt: HostRuntime) -> Result<(), Fail> {
    let batch = repeated(&rt, b"", b"put d a 5 v ; ", 63, b"put d a 5 v")?;
    let line = repeated(&rt, b"1 c1 ", &batch, 1, b" = ok 64\n")?;
    prints(&rt, &batch, &line)
}

#[test]
fn the_longest_key(rt: HostRuntime) -> Result<(), Fail> {
    let put = repeated(&rt, b"put d ", b"k", 1024, b" 5 v")?;
    let line = repeated(&rt, b"1 c1 ", &put, 1, b" = ok 1\n")?;
    prints(&rt, &put, &line)
}

#[test]
fn the_most_commands(rt: HostRuntime) -> Result<(), Fail> {
    let file = repeated(&rt, b"", b"sync\n", 100_000, b"")?;
    let outcome = ran(&rt, &[b"try", b"FILE"], &file, None, None)?;
    assert_eq!(rt; outcome.status, Status::Done);
    assert!(rt; outcome.text.ends_with(b"\n100000 c1 sync = ok\n"));
    Ok(())
}
