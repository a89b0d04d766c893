//! What the frames of a manifest add up to, and what an edit makes of it.

ghost use Rattle.std.specs.Prelude.{◌≡◌, drop, IfOk, OnOk};
ghost use Rattle.manifest_fold.specs.Folds.{family_with, fold_with, logs_with, one_changed};

use crate::NoMemory;
use manifest_edit::{Edit, FamilyEdit, LiveTables};
use std::alloc::Global;
use ts_key::{Form, Name, Seq, Ts};
use udt_model::Items;

/// A family as the manifest has it: its floor, the sequence through which its versions are in tables, and its live tables.
#[derive(Debug, Drop)]
pub struct FamilyFold {
    pub name: Name,
    pub form: Form,
    pub floor: Ts,
    pub through: Seq,
    pub tables: LiveTables,
}

/// What the frames of a manifest add up to: the families in order, the live logs in ascending order, the number of the next
/// file, and the last sequence.
#[derive(Debug, Drop)]
pub struct Folded {
    pub families: Items<FamilyFold>,
    pub logs: Items<u64>,
    pub next_file: u64,
    pub last: Seq,
}

impl FamilyFold {
    /// The same family. It shares the name's bytes.
    fn copy(&self) -> Result<FamilyFold, NoMemory>
        ensures { IfOk result (λ family. family ≡ self.now) }
    {
        Ok(FamilyFold {
            name: self.name.copy()?,
            form: self.form,
            floor: self.floor,
            through: self.through,
            tables: self.tables.copy()?,
        })
    }

    /// Makes of the family what the edit says. It costs the logarithm of the live tables for each table and number of the edit.
    fn change(&mut self, edit: &FamilyEdit) -> Result<(), NoMemory>
        ensures { OnOk result (self.new ≡ family_with self.old edit.now) }
    {
        self.floor = edit.floor;
        self.through = edit.through;
        self.tables.remove_all(edit.remove.as_slice());
        self.tables.insert_all(edit.add.as_slice())
    }
}

impl Folded {
    /// The same fold. It costs time linear in the live tables and logs.
    pub fn copy(&self, alloc: Global) -> Result<Folded, NoMemory>
        ensures { IfOk result (λ fold. fold ≡ self.now) }
    {
        let families = same_families(alloc, self.families.as_slice())?;
        let logs = self.logs.as_slice().to_vec(alloc)?;
        Ok(Folded {
            families: Items::of(families),
            logs: Items::of(logs),
            next_file: self.next_file,
            last: self.last,
        })
    }

    /// What the edit makes of the fold. It costs time linear in the edit times the logarithm of the live tables, and linear in
    /// the live logs where it drops one.
    pub fn with(self, edit: &Edit) -> Result<Folded, NoMemory>
        ensures { IfOk result (λ fold. fold ≡ fold_with self edit.now) }
    {
        let families = match &edit.family {
            None => self.families.into_vec(),
            Some(part) => families_after(self.families.into_vec(), part)?,
        };
        let logs = logs_after(self.logs.into_vec(), edit)?;
        Ok(Folded {
            families: Items::of(families),
            logs: Items::of(logs),
            next_file: edit.next_file,
            last: edit.last,
        })
    }
}

/// The same families.
fn same_families(alloc: Global, families: &[FamilyFold]) -> Result<Vec<FamilyFold>, NoMemory>
    ensures { IfOk result (λ copied. copied.items ≡ families.now) }
{
    let mut copied = Vec::new(alloc);
    for family in families {
        copied.push(family.copy()?)?;
    }
    Ok(copied)
}

/// The families, one of them changed.
fn families_after(families: Vec<FamilyFold>, part: &FamilyEdit) -> Result<Vec<FamilyFold>, NoMemory>
    ensures { IfOk result (λ after. after.items ≡ one_changed families.items part.now) }
{
    let mut families = families;
    let index = part.family.0 as usize;
    if index < families.len() {
        families[index].change(part)?;
    }
    Ok(families)
}

/// The live logs behind the dropped ones, and the added ones.
fn logs_after(logs: Vec<u64>, edit: &Edit) -> Result<Vec<u64>, NoMemory>
    ensures { IfOk result (λ after. after.items ≡ logs_with logs.items edit.now) }
{
    let mut after = logs_behind(logs, edit.drop_logs.as_slice().len())?;
    after.extend_from_slice(edit.add_logs.as_slice())?;
    Ok(after)
}

/// The logs behind the first so many.
fn logs_behind(logs: Vec<u64>, count: usize) -> Result<Vec<u64>, NoMemory>
    ensures { IfOk result (λ behind. behind.items ≡ drop count logs.items) }
{
    if count == 0 {
        return Ok(logs);
    }
    let mut logs = logs;
    let count = count.min(logs.len());
    logs.split_off(count)
}
