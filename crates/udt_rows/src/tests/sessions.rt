//! Runs over what earlier runs wrote.

use super::stage::{LOG, ends, folder_of, run, runs, store_of};
use client_runner::Status;
use std::alloc::Global;
use std::test::Fail;
use udt_disk::MemHost;

/// Files that are run one after the other, each with what it prints.
const RUNS: [(&str, &str); 4] = [
    (
        "put d a 1 x\nput d a 3 y ; put e a 3 z\n",
        "udt 1\nopened 0\nfamily d persist 0\nfamily e persist 0\nbegin\n\
            1 c1 put d a 1 x = ok 1\n\
            2 c1 put d a 3 y ; put e a 3 z = ok 3\n\
            3 r sync = ok\n",
    ),
    (
        "get d a 0\nget d a 1\nget d a 2\nget d a 3\nget e a 9\nget f a 1\nput f a 1 x\n\
            put d a 2 w\ndel d a 4 sync\n",
        "udt 1\nopened 3\nfamily d persist 0\nfamily e persist 0\nbegin\n\
            1 c1 get d a 0 = absent\n\
            2 c1 get d a 1 = found x 1\n\
            3 c1 get d a 2 = found x 1\n\
            4 c1 get d a 3 = found y 3\n\
            5 c1 get e a 9 = found z 3\n\
            6 c1 get f a 1 = unknown\n\
            7 c1 put f a 1 x = unknown\n\
            8 c1 put d a 2 w = fell 1 3\n\
            9 c1 del d a 4 sync = ok 4\n\
            10 r sync = ok\n",
    ),
    (
        "get d a 3\nget d a 4\n",
        "udt 1\nopened 4\nfamily d persist 0\nfamily e persist 0\nbegin\n\
            1 c1 get d a 3 = found y 3\n\
            2 c1 get d a 4 = absent\n\
            3 r sync = ok\n",
    ),
    (
        "",
        "udt 1\nopened 4\nfamily d persist 0\nfamily e persist 0\nbegin\n1 r sync = ok\n",
    ),
];

#[test]
fn a_run_goes_on_where_the_last_one_ended(rt: HostRuntime) -> Result<(), Fail> {
    let mut host = store_of(rt.alloc(), &["init", "X", "d:persist", "e:persist"], None)?;
    for (file, wanted) in RUNS {
        runs(rt.alloc(), &mut host, file, Status::Done, wanted)?;
    }
    Ok(())
}

/// The log after one put of `a` at 5 with the value `v`, and one more of `b` at 6 in a second run.
const TWO_RUNS: &[u8] = b"\xA5\x29\0\0\0\x01\x01\0\0\0\0\0\0\0\x08\x02\x01\0\0\0\0\0\0\0\x01\
    \0\0\0\0\x01\x05\0\0\0\0\0\0\0\x01\0a\x01\0\0\0v\
    \xA5\x1F\0\0\0\x02\x02\0\0\0\0\0\0\0\x01\0\0\0\0\x01\x06\0\0\0\0\0\0\0\x01\0b\x01\0\0\0w\x5A";

/// The log of a store over which these files were run.
fn is_log(alloc: Global, files: &[&str], log: &[u8]) -> Result<bool, Fail> {
    let mut host = store_of(alloc, &["init", "X", "d:persist"], None)?;
    for file in files {
        if run(alloc, &mut host, file)?.status != Status::Done {
            return Ok(false);
        }
    }
    Ok(folder_of(alloc, &mut host)?.contents(LOG) == Some(log))
}

#[test]
fn runs_write_the_format_of_logs(rt: HostRuntime) -> Result<(), Fail> {
    let files = [
        "put d a 5 v\n",
        "get d a 5\nput d a 4 u\n",
        "put d b 6 w sync\n",
    ];
    assert!(rt; is_log(rt.alloc(), &files, TWO_RUNS)?);
    Ok(())
}

const MONDAY: &str = "\
# Monday: stock comes in, and two orders are taken. A timestamp is the time: year, month, day, hour, minute.
put stock bolt 202612070900 500 ; put stock nut 202612070900 800

# An order and what it leaves of the stock are one write.
put orders 1001 202612070915 bolt:120 ; put stock bolt 202612070915 380
put orders 1002 202612071030 nut:50 ; put stock nut 202612071030 750 sync
get stock nut 202612071000
get stock nut 202612071100
";

const TUESDAY: &str = "\
# Tuesday: the bolts as they were on Monday at 09:10, and as they are.
get stock bolt 202612070910
get stock bolt 202612080900

# Order 1001 is called off: it is deleted, and its bolts come back.
del orders 1001 202612080905 ; put stock bolt 202612080905 500
get orders 1001 202612080900
get orders 1001 202612080905

# One timestamp is older than the newest of its key, so nothing of the write is taken.
put orders 1003 202612080910 nut:10 ; put stock nut 202612070910 740
put orders 1003 202612080910 nut:10 ; put stock nut 202612080910 740 sync
get stock nut 202612080910
";

const DAYS: [(&str, &str); 2] = [
    (
        MONDAY,
        "udt 1\nopened 0\nfamily orders persist 0\nfamily stock persist 0\nbegin\n\
            1 c1 put stock bolt 202612070900 500 ; put stock nut 202612070900 800 = ok 2\n\
            2 c1 put orders 1001 202612070915 bolt:120 ; put stock bolt 202612070915 380 = ok 4\n\
            3 c1 put orders 1002 202612071030 nut:50 ; put stock nut 202612071030 750 sync = ok 6\n\
            4 c1 get stock nut 202612071000 = found 800 202612070900\n\
            5 c1 get stock nut 202612071100 = found 750 202612071030\n\
            6 r sync = ok\n",
    ),
    (
        TUESDAY,
        "udt 1\nopened 6\nfamily orders persist 0\nfamily stock persist 0\nbegin\n\
            1 c1 get stock bolt 202612070910 = found 500 202612070900\n\
            2 c1 get stock bolt 202612080900 = found 380 202612070915\n\
            3 c1 del orders 1001 202612080905 ; put stock bolt 202612080905 500 = ok 8\n\
            4 c1 get orders 1001 202612080900 = found bolt:120 202612070915\n\
            5 c1 get orders 1001 202612080905 = absent\n\
            6 c1 put orders 1003 202612080910 nut:10 ; put stock nut 202612070910 740 = fell 2 202612071030\n\
            7 c1 put orders 1003 202612080910 nut:10 ; put stock nut 202612080910 740 sync = ok 10\n\
            8 c1 get stock nut 202612080910 = found 740 202612080910\n\
            9 r sync = ok\n",
    ),
];

#[test]
fn a_shop_keeps_its_orders_and_stock(rt: HostRuntime) -> Result<(), Fail> {
    let mut host = MemHost::new(rt.alloc());
    let words = ["init", "X", "orders:persist", "stock:persist"];
    ends(rt.alloc(), &mut host, &words, Status::Done, "made 2\n")?;
    for (file, wanted) in DAYS {
        runs(rt.alloc(), &mut host, file, Status::Done, wanted)?;
    }
    Ok(())
}
