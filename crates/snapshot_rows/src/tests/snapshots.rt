//! `snapshot_list`: at most 1,024 snapshots, in the order of their sequences.

use snapshot_list::{SNAPSHOT_LIMIT, Snaps, SnapsFull};
use std::process::Abort;
use std::test::Fail;
use ts_key::Seq;

/// Registers a snapshot whose number is its sequence.
fn add(rt: &impl Abort, snaps: &mut Snaps, id: u64) {
    assert!(rt; snaps.add(id, Seq(id)).is_ok());
}

#[test]
fn none_is_registered_at_first(rt: HostRuntime) -> Result<(), Fail> {
    let snaps = Snaps::new(rt.alloc())?;
    assert!(rt; snaps.seqs().is_empty());
    Ok(())
}

/// Registers three snapshots in an order, and removes them in another.
fn come_and_go(rt: &impl Abort, snaps: &mut Snaps, come: [u64; 3], go: [u64; 3]) {
    add(rt, snaps, come[0]);
    add(rt, snaps, come[1]);
    add(rt, snaps, come[2]);
    assert!(rt; snaps.seqs() == [Seq(1), Seq(2), Seq(3)].as_slice());
    snaps.remove(go[0]);
    let rest = [Seq(go[1].min(go[2])), Seq(go[1].max(go[2]))];
    assert!(rt; snaps.seqs() == rest.as_slice());
    snaps.remove(go[1]);
    assert!(rt; snaps.seqs() == [Seq(go[2])].as_slice());
    snaps.remove(go[2]);
    assert!(rt; snaps.seqs().is_empty());
}

/// The orders of three.
const ORDERS: [[u64; 3]; 6] = [
    [1, 2, 3],
    [1, 3, 2],
    [2, 1, 3],
    [2, 3, 1],
    [3, 1, 2],
    [3, 2, 1],
];

#[test]
fn three_come_and_go_in_every_order(rt: HostRuntime) -> Result<(), Fail> {
    let mut snaps = Snaps::new(rt.alloc())?;
    for come in &ORDERS {
        for go in &ORDERS {
            come_and_go(&rt, &mut snaps, *come, *go);
        }
    }
    Ok(())
}

#[test]
fn a_sequence_stands_there_as_often_as_snapshots_have_it(rt: HostRuntime) -> Result<(), Fail> {
    let mut snaps = Snaps::new(rt.alloc())?;
    assert!(rt; snaps.add(1, Seq(7)).is_ok());
    assert!(rt; snaps.add(2, Seq(7)).is_ok());
    assert!(rt;
        snaps.add(2, Seq(9)).is_ok(),
        "the number is registered already"
    );
    assert!(rt; snaps.seqs() == [Seq(7), Seq(7)].as_slice());
    snaps.remove(1);
    snaps.remove(1);
    assert!(rt; snaps.seqs() == [Seq(7)].as_slice());
    Ok(())
}

#[test]
fn the_1025th_is_refused(rt: HostRuntime) -> Result<(), Fail> {
    let mut snaps = Snaps::new(rt.alloc())?;
    for id in 0..SNAPSHOT_LIMIT as u64 {
        add(&rt, &mut snaps, id);
    }
    assert!(rt; snaps.add(9999, Seq(0)) == Err(SnapsFull { count: 1024 }));
    assert!(rt; snaps.seqs().len() == SNAPSHOT_LIMIT);
    snaps.remove(500);
    assert!(rt; snaps.add(9999, Seq(0)).is_ok());
    assert!(rt; snaps.seqs().len() == SNAPSHOT_LIMIT);
    Ok(())
}
