//! Sorted runs against plain look-ups.
use super::versions::{all_scrambled, are_same, plain_find, put};
use sorted_run::Run;
use std::alloc::Global;
use std::test::Fail;
use ts_key::{Family, Seq, Ts, Version};

/// The timestamps of a run's versions.
fn are_stamps(run: &Run, wanted: &[u64]) -> bool {
    run.stamps() == wanted && run.len() == wanted.len() && run.versions().len() == wanted.len()
}

#[test]
fn a_later_timestamp_comes_first(rt: HostRuntime) -> Result<(), Fail> {
    let alloc = rt.alloc();
    let early = put(alloc, Family(0), b"a", 5, 1)?;
    let late = put(alloc, Family(0), b"a", 7, 2)?;
    let both = Run::sorted(alloc, &[early.copy()?, late.copy()?])?;
    assert!(rt; are_stamps(&both, &[7, 5]));
    let merged = Run::merge(
        alloc,
        &Run::sorted(alloc, &[early])?,
        &Run::sorted(alloc, &[late])?,
    )?;
    assert!(rt; are_stamps(&merged, &[7, 5]));
    let again = Run::of(alloc, merged.into_versions())?;
    assert!(rt; are_stamps(&again, &[7, 5]));
    assert!(rt; again.latest() == Ts(7) && again.newest(b"a") == Some(Ts(7)));
    assert!(rt; again.newest(b"b").is_none() && !again.is_empty());
    Ok(())
}

#[test]
fn an_empty_run_has_nothing(rt: HostRuntime) -> Result<(), Fail> {
    let run = Run::of(rt.alloc(), Vec::new(rt.alloc()))?;
    assert!(rt; run.is_empty() && run.latest() == Ts(0) && run.newest(b"a").is_none());
    assert!(rt; run.find(b"a", Ts(u64::MAX), Seq(u64::MAX)).is_none());
    Ok(())
}

/// Whether look-ups of the key agree at the timestamp and the sequence, and one below each.
fn agree_at(run: &Run, versions: &[Version], key: &[u8], t: u64, s: u64) -> bool {
    agree(run, versions, key, t, s)
        && agree(run, versions, key, t.saturating_sub(1), s)
        && agree(run, versions, key, t, s.saturating_sub(1))
        && agree(run, versions, key, u64::MAX, s)
        && agree(run, versions, key, t, u64::MAX)
}

fn agree(run: &Run, versions: &[Version], key: &[u8], t: u64, s: u64) -> bool {
    are_same(
        run.find(key, Ts(t), Seq(s)),
        plain_find(versions, key, Ts(t), Seq(s)),
    )
}

#[test]
fn look_ups_are_those_of_the_plain_list(rt: HostRuntime) -> Result<(), Fail> {
    let versions = all_scrambled(rt.alloc())?;
    let run = Run::sorted(rt.alloc(), &versions)?;
    assert_eq!(rt; run.len(), versions.len());
    for v in &versions {
        assert!(rt; agree_at(&run, &versions, v.key.bytes(), v.ts.0, v.seq.0));
    }
    for key in [b"".as_slice(), b"key", b"key00a", b"key99", b"z"] {
        assert!(rt; agree_at(&run, &versions, key, 50, 1_000));
    }
    Ok(())
}
