//! Reads the body of an edit.

ghost use Rattle.std.specs.Prelude.{◌≡◌, ◌^◌, ◌<◌, List, All, length, IfOk, MatchOption};
ghost use Rattle.std.specs.List.{flat_map};
ghost use Rattle.ts_key.specs.Numbers.{number_bytes};
ghost use Rattle.ts_key.specs.Reading.{ReadsFront};
ghost use Rattle.manifest_edit.specs.Edits.{IsWord, IsTableWords, AreCounted, IsSizedFamily, IsSizedPart, IsSized, IsEdit, counted_text, table_text, family_edit_text, part_text, edit_text};
ghost use Rattle.manifest_edit.specs.Reading.{TellsBad};
ghost use Rattle.manifest_edit.specs.declared.edit.Edit.{Edit as EditOf};

use crate::fault::EditFault;
use crate::write::EDIT;
use crate::{Edit, FamilyEdit, NoMemory, TableAt};
use std::alloc::{AllocError, Global};
use ts_key::coding::Reader;
use ts_key::{Family, Seq, Ts};
use udt_model::Items;

/// The next `count` numbers.
fn take_numbers(alloc: Global, reader: &mut Reader<'_>, count: usize) -> Result<Vec<u64>, EditFault>
    ensures { ReadsFront TellsBad (λ ns. ns.items) (flat_map (number_bytes 8)) (λ ns. (length ns ≡ count) × All IsWord ns) reader.old.left.now reader.new.left.now result }
{
    let mut numbers = Vec::new(alloc);
    for _ in 0..count {
        let number = reader.take_u64()?;
        numbers.push(number).map_err(AllocError::from)?;
    }
    Ok(numbers)
}

/// The next numbers, behind their count.
fn numbers(alloc: Global, reader: &mut Reader<'_>) -> Result<Vec<u64>, EditFault>
    ensures { ReadsFront TellsBad (λ ns. ns.items) (counted_text (number_bytes 8)) (AreCounted IsWord) reader.old.left.now reader.new.left.now result }
{
    let count = reader.take_u32()?;
    take_numbers(alloc, reader, count as usize)
}

/// The next table.
fn table(reader: &mut Reader<'_>) -> Result<TableAt, EditFault>
    ensures { ReadsFront TellsBad (λ t. t) table_text IsTableWords reader.old.left.now reader.new.left.now result }
{
    let level = reader.take_u8()?;
    let number = reader.take_u64()?;
    Ok(TableAt {
        level: u32::from(level),
        number,
    })
}

/// The next `count` tables.
fn take_tables(
    alloc: Global,
    reader: &mut Reader<'_>,
    count: usize,
) -> Result<Vec<TableAt>, EditFault>
    ensures { ReadsFront TellsBad (λ ts. ts.items) (flat_map table_text) (λ ts. (length ts ≡ count) × All IsTableWords ts) reader.old.left.now reader.new.left.now result }
{
    let mut tables = Vec::new(alloc);
    for _ in 0..count {
        let table = table(reader)?;
        tables.push(table).map_err(AllocError::from)?;
    }
    Ok(tables)
}

/// The next tables, behind their count.
fn tables(alloc: Global, reader: &mut Reader<'_>) -> Result<Vec<TableAt>, EditFault>
    ensures { ReadsFront TellsBad (λ ts. ts.items) (counted_text table_text) (AreCounted IsTableWords) reader.old.left.now reader.new.left.now result }
{
    let count = reader.take_u32()?;
    take_tables(alloc, reader, count as usize)
}

/// What changes of the next family.
fn family(alloc: Global, reader: &mut Reader<'_>) -> Result<FamilyEdit, EditFault>
    ensures { ReadsFront TellsBad (λ e. e) family_edit_text IsSizedFamily reader.old.left.now reader.new.left.now result }
{
    let family = reader.take_u32()?;
    let floor = reader.take_u64()?;
    let through = reader.take_u64()?;
    let add = tables(alloc, reader)?;
    let remove = numbers(alloc, reader)?;
    Ok(FamilyEdit {
        family: Family(family),
        floor: Ts(floor),
        through: Seq(through),
        add: Items::of(add),
        remove: Items::of(remove),
    })
}

/// The next family part.
fn part(alloc: Global, reader: &mut Reader<'_>) -> Result<Option<FamilyEdit>, EditFault>
    ensures { ReadsFront TellsBad (λ part. part) part_text IsSizedPart reader.old.left.now reader.new.left.now result }
{
    match reader.take_u8()? {
        0 => Ok(None),
        1 => {
            let family = family(alloc, reader)?;
            Ok(Some(family))
        }
        _ => Err(EditFault::Bad),
    }
}

/// The next edit.
fn edit(alloc: Global, reader: &mut Reader<'_>) -> Result<Edit, EditFault>
    ensures { ReadsFront TellsBad (λ e. e) edit_text IsSized reader.old.left.now reader.new.left.now result }
{
    let kind = reader.take_u8()?;
    if kind != EDIT {
        return Err(EditFault::Bad);
    }
    let add_logs = numbers(alloc, reader)?;
    let drop_logs = numbers(alloc, reader)?;
    let next_file = reader.take_u64()?;
    let last = reader.take_u64()?;
    let family = part(alloc, reader)?;
    Ok(Edit {
        add_logs: Items::of(add_logs),
        drop_logs: Items::of(drop_logs),
        next_file,
        last: Seq(last),
        family,
    })
}

/// The edit of a body, or None where it is no edit's. It costs time linear in the body.
pub fn read_edit(alloc: Global, body: &[u8]) -> Result<Option<Edit>, NoMemory>
    ensures { IfOk result (λ o. MatchOption o ((e : EditOf) → IsEdit body.now e → ⊥) (IsEdit body.now)) }
{
    let mut reader = Reader { left: body };
    match edit(alloc, &mut reader) {
        Ok(edit) if reader.left.is_empty() => Ok(Some(edit)),
        Ok(_) => Ok(None),
        Err(EditFault::Bad) => Ok(None),
        Err(EditFault::NoMemory) => Err(AllocError),
    }
}
