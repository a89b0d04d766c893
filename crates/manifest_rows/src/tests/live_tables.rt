//! The live tables of a family.

use manifest_edit::{LiveTables, NoMemory, TableAt};
use std::alloc::Global;
use std::test::Fail;

/// Tables 3, 5 and 9, which came in another order, and 5 on level 6 in the end.
fn three(alloc: Global) -> Result<LiveTables, NoMemory> {
    let mut tables = LiveTables::new(alloc);
    tables.insert(TableAt {
        level: 0,
        number: 5,
    })?;
    tables.insert(TableAt {
        level: 0,
        number: 9,
    })?;
    tables.insert(TableAt {
        level: 1,
        number: 3,
    })?;
    tables.insert(TableAt {
        level: 6,
        number: 5,
    })?;
    Ok(tables)
}

#[test]
fn one_number_is_one_table(rt: HostRuntime) -> Result<(), Fail> {
    assert_eq!(rt; three(rt.alloc())?.len(), 3);
    Ok(())
}

#[test]
fn a_removed_table_is_gone(rt: HostRuntime) -> Result<(), Fail> {
    let mut tables = three(rt.alloc())?;
    tables.remove_all(&[3, 4]);
    assert_eq!(rt; tables.len(), 2);
    assert!(rt; !tables.has(3));
    assert!(rt; tables.has(5));
    assert!(rt; tables.has(9));
    Ok(())
}
