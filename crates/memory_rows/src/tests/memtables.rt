//! Memtables against plain look-ups, and what their copies share.
ghost use Rattle.std.specs.Prelude.{◌≡◌, ◌<◌, IfOk};

use super::versions::{VERSIONS, all_scrambled, are_same, plain_find, put, scrambled};
use memtable::Mem;
use std::alloc::Global;
use std::test::Fail;
use ts_key::{Family, Seq, Ts, Version};

/// The memtable with one version more.
fn with_put(alloc: Global, mem: &Mem, key: &[u8], ts: u64, seq: u64) -> Result<Mem, Fail> {
    let batch = [put(alloc, mem.family(), key, ts, seq)?];
    Ok(mem.with(&batch)?)
}

#[test]
fn a_batch_of_two(rt: HostRuntime) -> Result<(), Fail> {
    let alloc = rt.alloc();
    let empty = Mem::empty(alloc, Family(0));
    assert!(rt; empty.runs() == 0 && empty.bytes() == 0 && empty.run(0).is_none());
    let batch = [
        put(alloc, empty.family(), b"a", 5, 1)?,
        put(alloc, empty.family(), b"a", 7, 2)?,
    ];
    let mem = empty.with(&batch)?;
    assert_eq!(rt; mem.bytes(), 68);
    let versions = mem.versions()?;
    assert_eq!(rt; versions.len(), 2);
    assert!(rt; versions[0].ts == Ts(7) && versions[1].ts == Ts(5));
    assert!(rt; mem.latest() == Ts(7) && mem.newest(b"a") == Some(Ts(7)));
    assert!(rt; mem.newest(b"b").is_none() && mem.family() == Family(0));
    let copy = mem.with(&[])?;
    assert!(rt; copy.bytes() == 68 && copy.runs() == 1);
    Ok(())
}

#[test]
fn runs_double(rt: HostRuntime) -> Result<(), Fail> {
    let alloc = rt.alloc();
    let mut mem = Mem::empty(alloc, Family(0));
    for seq in 1..8 {
        mem = with_put(alloc, &mem, b"a", seq, seq)?;
        if seq == 3 {
            assert_eq!(rt; mem.runs(), 2);
            assert_eq!(rt; mem.run(0).map_or(0, |run| run.len()), 1);
            assert_eq!(rt; mem.run(1).map_or(0, |run| run.len()), 2);
            assert!(rt; mem.run(2).is_none());
        }
    }
    assert!(rt; mem.runs() <= 3);
    assert_eq!(rt; mem.versions()?.len(), 7);
    Ok(())
}

/// Whether look-ups of the key agree at the timestamp and the sequence, and one below each.
fn agree_at(mem: &Mem, versions: &[Version], key: &[u8], t: u64, s: u64) -> bool {
    agree(mem, versions, key, t, s)
        && agree(mem, versions, key, t.saturating_sub(1), s)
        && agree(mem, versions, key, t, s.saturating_sub(1))
}

fn agree(mem: &Mem, versions: &[Version], key: &[u8], t: u64, s: u64) -> bool {
    are_same(
        mem.find(key, Ts(t), Seq(s)),
        plain_find(versions, key, Ts(t), Seq(s)),
    )
}

/// The memtable of all scrambled versions, written one by one.
fn written(alloc: Global) -> Result<Mem, Fail> {
    let mut mem = Mem::empty(alloc, Family(0));
    for index in 0..VERSIONS {
        let batch = [scrambled(alloc, mem.family(), index)?];
        mem = mem.with(&batch)?;
    }
    Ok(mem)
}

#[test]
fn look_ups_are_those_of_the_plain_list(rt: HostRuntime) -> Result<(), Fail> {
    let versions = all_scrambled(rt.alloc())?;
    let mem = written(rt.alloc())?;
    for v in &versions {
        assert!(rt; agree_at(&mem, &versions, v.key.bytes(), v.ts.0, v.seq.0));
    }
    assert!(rt; mem.runs() <= 10);
    assert_eq!(rt; mem.versions()?.len(), versions.len());
    Ok(())
}

#[test]
fn an_old_memtable_answers_as_before(rt: HostRuntime) -> Result<(), Fail> {
    let alloc = rt.alloc();
    let old = with_put(alloc, &Mem::empty(alloc, Family(0)), b"a", 5, 1)?;
    let mut mem = old.copy()?;
    for seq in 2..12 {
        mem = with_put(alloc, &mem, b"a", seq + 4, seq)?;
    }
    let top = Seq(u64::MAX);
    assert!(rt; matches!(old.find(b"a", Ts(100), top), Some(v) if v.ts == Ts(5)));
    assert!(rt; matches!(mem.find(b"a", Ts(100), top), Some(v) if v.ts == Ts(15)));
    assert!(rt; matches!(mem.find(b"a", Ts(9), top), Some(v) if v.seq == Seq(5)));
    assert!(rt; old.bytes() == 34 && mem.bytes() == 11 * 34 && old.runs() == 1);
    Ok(())
}
