//! Plans of a few tables.

use super::tables::{empty_store, put, table, two_keys, with_tables};
use compaction::{Plan, pick, whole};
use std::alloc::Global;
use std::test::Fail;
use super_version::{LiveTable, SuperVersion};
use ts_key::Family;

/// Four tables on level 0 from `a` to `f`, and on level 1 one that meets them and one that doesn't.
fn four_and_two(alloc: Global) -> Result<SuperVersion, Fail> {
    let mut top = Vec::new(alloc);
    top.push(two_keys(alloc, 7, b"a", b"c")?)?;
    top.push(two_keys(alloc, 8, b"e", b"f")?)?;
    top.push(two_keys(alloc, 9, b"b", b"d")?)?;
    top.push(two_keys(alloc, 10, b"a", b"b")?)?;
    let mut below = Vec::new(alloc);
    below.push(two_keys(alloc, 3, b"b", b"c")?)?;
    below.push(two_keys(alloc, 4, b"x", b"z")?)?;
    let now = with_tables(alloc, &empty_store(alloc)?, 0, top)?;
    with_tables(alloc, &now, 1, below)
}

/// The plan takes these tables, to this level, with so many deeper spans.
pub fn is_plan(plan: &Option<Plan>, inputs: &[u64], level: u32, deeper: usize) -> bool {
    let Some(plan) = plan else {
        return false;
    };
    let tables = plan.inputs.as_slice();
    plan.family == Family(0)
        && plan.level == level
        && plan.deeper.as_slice().len() == deeper
        && tables.len() == inputs.len()
        && tables.iter().zip(inputs).all(|(t, n)| t.number == *n)
}

#[test]
fn four_tables_are_taken_with_those_that_they_meet(rt: HostRuntime) -> Result<(), Fail> {
    let alloc = rt.alloc();
    let now = four_and_two(alloc)?;
    assert!(rt; is_plan(&pick(alloc, &now, Family(0))?, &[3, 7, 8, 9, 10], 1, 0));
    assert!(rt; is_plan(&whole(alloc, &now, Family(0))?, &[3, 4, 7, 8, 9, 10], 6, 0));
    let mut deep = Vec::new(alloc);
    deep.push(two_keys(alloc, 2, b"a", b"b")?)?;
    let now = with_tables(alloc, &now, 3, deep)?;
    assert!(rt; is_plan(&pick(alloc, &now, Family(0))?, &[3, 7, 8, 9, 10], 1, 1));
    Ok(())
}

#[test]
fn nothing_is_due(rt: HostRuntime) -> Result<(), Fail> {
    let alloc = rt.alloc();
    let now = empty_store(alloc)?;
    assert!(rt; whole(alloc, &now, Family(0))?.is_none());
    assert!(rt; pick(alloc, &now, Family(0))?.is_none());
    let mut one = Vec::new(alloc);
    one.push(two_keys(alloc, 3, b"a", b"b")?)?;
    let now = with_tables(alloc, &now, 0, one)?;
    assert!(rt; is_plan(&whole(alloc, &now, Family(0))?, &[3], 6, 0));
    assert!(rt; pick(alloc, &now, Family(0))?.is_none());
    assert!(rt; whole(alloc, &now, Family(1))?.is_none());
    assert!(rt; pick(alloc, &now, Family(1))?.is_none());
    Ok(())
}

#[test]
fn tables_of_three_levels_are_taken(rt: HostRuntime) -> Result<(), Fail> {
    let alloc = rt.alloc();
    let mut now = empty_store(alloc)?;
    for (level, number) in [(0, 5), (1, 4), (2, 3)] {
        let mut one = Vec::new(alloc);
        one.push(two_keys(alloc, number, b"a", b"f")?)?;
        now = with_tables(alloc, &now, level, one)?;
    }
    assert!(rt; is_plan(&whole(alloc, &now, Family(0))?, &[3, 4, 5], 6, 0));
    Ok(())
}

/// A table of so many large values.
fn large(alloc: Global, count: u64) -> Result<LiveTable, Fail> {
    let value = vec![in alloc; b'v'; 65536]?;
    let mut versions = Vec::new(alloc);
    for i in 0..count {
        let key = format!(in alloc; "k{i:03}")?;
        versions.push(put(alloc, key.as_bytes(), 1, i + 1, &value)?)?;
    }
    table(alloc, 5, &versions)
}

/// The super version with so many copies of a table more on a level, whose numbers ascend from `first` on.
fn with_copies(
    alloc: Global,
    now: &SuperVersion,
    level: u32,
    first: u64,
    count: u64,
    table: &LiveTable,
) -> Result<SuperVersion, Fail> {
    let mut tables = Vec::new(alloc);
    for index in 0..count {
        let mut copy = table.copy()?;
        copy.number = first.wrapping_add(index);
        tables.push(copy)?;
    }
    with_tables(alloc, now, level, tables)
}

/// Whether a level alone is due with so many tables, of which the first is taken to the next one.
fn is_due(alloc: Global, level: u32, count: u64, table: &LiveTable) -> Result<bool, Fail> {
    let now = with_copies(alloc, &empty_store(alloc)?, level, 5, count, table)?;
    let plan = pick(alloc, &now, Family(0))?;
    Ok(is_plan(&plan, &[5], level.wrapping_add(1), 0))
}

#[test]
fn a_level_over_its_size_is_due(rt: HostRuntime) -> Result<(), Fail> {
    let alloc = rt.alloc();
    let full = large(alloc, 160)?;
    for (level, count) in [(1, 1), (2, 10), (3, 100)] {
        assert!(rt; is_due(alloc, level, count, &full)?);
        assert!(rt; !is_due(alloc, level, count - 1, &full)?);
    }
    assert!(rt; !is_due(alloc, 1, 1, &large(alloc, 159)?)?);
    Ok(())
}

#[test]
fn the_first_level_over_its_size_is_taken(rt: HostRuntime) -> Result<(), Fail> {
    let alloc = rt.alloc();
    let full = large(alloc, 160)?;
    let both = with_copies(alloc, &empty_store(alloc)?, 2, 10, 10, &full)?;
    let both = with_copies(alloc, &both, 1, 8, 2, &full)?;
    let all = [8, 10, 11, 12, 13, 14, 15, 16, 17, 18, 19];
    assert!(rt; is_plan(&pick(alloc, &both, Family(0))?, &all, 2, 0));
    let rest = both.with_compaction(alloc, Family(0), &[8, 9], 1, Vec::new(alloc))?;
    assert!(rt; is_plan(&pick(alloc, &rest, Family(0))?, &[10], 3, 0));
    Ok(())
}
