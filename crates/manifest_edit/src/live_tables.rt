//! The live tables of a family, by ascending number.

ghost use Rattle.std.specs.Prelude.{◌≡◌, [], length, IfOk, OnOk, OnErr};
ghost use Rattle.manifest_edit.specs.LiveTables.{has_table_number, place_table, place_tables, without_table, without_tables};

use crate::{NoMemory, TableAt};
use std::alloc::Global;
use std::collections::BTreeMap;
use std::marker::Model;

/// The live tables of a family. Contracts see the list of them by ascending number.
#[derive(Debug, Drop)]
pub struct LiveTables {
    levels: BTreeMap<u64, u32>,
}

impl Model for LiveTables {
    ghost use Rattle.std.specs.Prelude.{List};
    ghost use Rattle.std.specs.Ordering.{nat_cmp};
    ghost use Rattle.std.specs.BTreeMap.{IsOrdered};
    ghost use Rattle.manifest_edit.specs.LiveTables.{entry_tables};
    ghost use Rattle.manifest_edit.specs.declared.edit.TableAt.{TableAt};

    ghost Value = { List TableAt };

    ghost view = { λ s. entry_tables s.levels.entries };

    ghost invariant = { λ s. IsOrdered nat_cmp s.levels };
}

impl LiveTables {
    /// No table.
    pub fn new(alloc: Global) -> LiveTables
        ensures { result ≡ [] }
    {
        LiveTables {
            levels: BTreeMap::new(alloc),
        }
    }

    /// How many there are.
    pub fn len(&self) -> usize
        ensures { result ≡ length self.now }
    {
        self.levels.len()
    }

    /// The same tables. It costs time linear in their count.
    pub fn copy(&self) -> Result<LiveTables, NoMemory>
        ensures { IfOk result (λ tables. tables ≡ self.now) }
    {
        Ok(LiveTables {
            levels: self.levels.clone()?,
        })
    }

    /// The tables, by ascending number. It costs time linear in their count.
    pub fn to_vec(&self, alloc: Global) -> Result<Vec<TableAt>, NoMemory>
        ensures { IfOk result (λ tables. tables.items ≡ self.now) }
    {
        let mut tables = Vec::with_capacity(alloc, self.levels.len())?;
        for (number, level) in self.levels.iter() {
            tables.push(TableAt {
                level: *level,
                number: *number,
            })?;
        }
        Ok(tables)
    }

    /// Is one of this number there? It costs the logarithm of their count.
    pub fn has(&self, number: u64) -> bool
        ensures { result ≡ has_table_number self.now number }
    {
        self.levels.contains_key(&number)
    }

    /// Puts a table at its place, over one of its number. It costs the logarithm of their count. Where memory runs out they
    /// are as before.
    pub fn insert(&mut self, table: TableAt) -> Result<(), NoMemory>
        ensures placed { OnOk result (self.new ≡ place_table table self.old) }
        ensures kept { OnErr result (self.new ≡ self.old) }
    {
        self.levels.insert(table.number, table.level)?;
        Ok(())
    }

    /// Takes out the table of this number, where there is one. It costs the logarithm of their count.
    pub fn remove(&mut self, number: u64)
        ensures { self.new ≡ without_table self.old number }
    {
        let _level = self.levels.remove(&number);
    }

    /// Puts tables at their places, one after another. Where memory runs out some of them may be there.
    pub fn insert_all(&mut self, tables: &[TableAt]) -> Result<(), NoMemory>
        ensures { OnOk result (self.new ≡ place_tables tables.now self.old) }
    {
        for table in tables {
            self.insert(*table)?;
        }
        Ok(())
    }

    /// Takes out the tables of these numbers, where there are such.
    pub fn remove_all(&mut self, numbers: &[u64])
        ensures { self.new ≡ without_tables numbers.now self.old }
    {
        for number in numbers {
            self.remove(*number);
        }
    }
}
