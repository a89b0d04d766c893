//! The format of an edit, the body of each later frame of a manifest, and its writer:
//!
//!    edit    := kind numbers numbers next last part      the kind is 0x02; the logs that are added, and those that are dropped;
//!                                                        the number of the next file and the last sequence, as u64
//!    part    := 0x00 | 0x01 family floor through tables numbers    what changes of no family, or of one: its number as u32, its
//!                                                        floor and `through` as u64, and its added and its removed tables
//!    tables  := count table*                             the count is that of the tables, as u32
//!    table   := level number                             the level as u8 and the number as u64
//!    numbers := count number*                            the count is that of the numbers, as u32, and each is a u64
//!
//! Numbers are little-endian.

ghost use Rattle.std.specs.Prelude.{◌≡◌, ◌^◌, ◌<◌, ◌++◌, OnOk, IfOk};
ghost use Rattle.ts_key.specs.Numbers.{number_bytes};
ghost use Rattle.manifest_edit.specs.Edits.{IsWord, IsTableWords, AreCounted, IsSizedFamily, IsSizedPart, IsSized, IsEdit, counted_text, table_text, family_edit_text, part_text, edit_text};

use crate::{Edit, FamilyEdit, NoMemory, TableAt};
use std::alloc::{AllocError, Global};
use ts_key::coding::{put_u8, put_u32, put_u64};
use udt_model::Items;

/// The first byte of an edit.
pub const EDIT: u8 = 2;

/// Adds how many items follow. A count past a u32 finds no memory.
fn put_count(out: &mut Vec<u8>, count: usize) -> Result<(), NoMemory>
    ensures written { OnOk result (out.new.items ≡ out.old.items ++ number_bytes 4 count) }
    ensures sized { OnOk result (count < 2 ^ 32) }
{
    if count > u32::MAX as usize {
        return Err(AllocError);
    }
    put_u32(out, count as u32)
}

#[tactic(auto, using(std::proofs::lemmas::List::append_assoc))]
fn put_numbers(out: &mut Vec<u8>, numbers: &[u64]) -> Result<(), NoMemory>
    ensures written { OnOk result (out.new.items ≡ out.old.items ++ counted_text (number_bytes 8) numbers.now) }
    ensures sized { OnOk result (AreCounted IsWord numbers.now) }
{
    put_count(out, numbers.len())?;
    for number in numbers {
        put_u64(out, *number)?;
    }
    Ok(())
}

/// Adds a table. A level past a u8 finds no memory.
#[tactic(auto, using(std::proofs::lemmas::List::append_assoc))]
fn put_table(out: &mut Vec<u8>, table: &TableAt) -> Result<(), NoMemory>
    ensures written { OnOk result (out.new.items ≡ out.old.items ++ table_text table.now) }
    ensures sized { OnOk result (IsTableWords table.now) }
{
    if table.level > u32::from(u8::MAX) {
        return Err(AllocError);
    }
    put_u8(out, table.level as u8)?;
    put_u64(out, table.number)
}

#[tactic(auto, using(std::proofs::lemmas::List::append_assoc))]
fn put_tables(out: &mut Vec<u8>, tables: &[TableAt]) -> Result<(), NoMemory>
    ensures written { OnOk result (out.new.items ≡ out.old.items ++ counted_text table_text tables.now) }
    ensures sized { OnOk result (AreCounted IsTableWords tables.now) }
{
    put_count(out, tables.len())?;
    for table in tables {
        put_table(out, table)?;
    }
    Ok(())
}

/// Adds a u64.
fn put_word(out: &mut Vec<u8>, n: u64) -> Result<(), NoMemory>
    ensures written { OnOk result (out.new.items ≡ out.old.items ++ number_bytes 8 n) }
    ensures sized { OnOk result (IsWord n) }
{
    put_u64(out, n)
}

/// Adds the number of a family.
fn put_family_number(out: &mut Vec<u8>, n: u32) -> Result<(), NoMemory>
    ensures written { OnOk result (out.new.items ≡ out.old.items ++ number_bytes 4 n) }
    ensures sized { OnOk result (n < 2 ^ 32) }
{
    put_u32(out, n)
}

fn put_number_items(out: &mut Vec<u8>, numbers: &Items<u64>) -> Result<(), NoMemory>
    ensures written { OnOk result (out.new.items ≡ out.old.items ++ counted_text (number_bytes 8) numbers.now) }
    ensures sized { OnOk result (AreCounted IsWord numbers.now) }
{
    put_numbers(out, numbers.as_slice())
}

fn put_table_items(out: &mut Vec<u8>, tables: &Items<TableAt>) -> Result<(), NoMemory>
    ensures written { OnOk result (out.new.items ≡ out.old.items ++ counted_text table_text tables.now) }
    ensures sized { OnOk result (AreCounted IsTableWords tables.now) }
{
    put_tables(out, tables.as_slice())
}

fn put_family(out: &mut Vec<u8>, family: &FamilyEdit) -> Result<(), NoMemory>
    ensures written { OnOk result (out.new.items ≡ out.old.items ++ family_edit_text family.now) }
    ensures sized { OnOk result (IsSizedFamily family.now) }
{
    put_family_number(out, family.family.0)?;
    put_word(out, family.floor.0)?;
    put_word(out, family.through.0)?;
    put_table_items(out, &family.add)?;
    put_number_items(out, &family.remove)
}

#[tactic(auto, using(std::proofs::lemmas::List::append_assoc))]
fn put_part(out: &mut Vec<u8>, part: &Option<FamilyEdit>) -> Result<(), NoMemory>
    ensures written { OnOk result (out.new.items ≡ out.old.items ++ part_text part.now) }
    ensures sized { OnOk result (IsSizedPart part.now) }
{
    match part {
        None => put_u8(out, 0),
        Some(family) => {
            put_u8(out, 1)?;
            put_family(out, family)
        }
    }
}

fn put_edit(out: &mut Vec<u8>, edit: &Edit) -> Result<(), NoMemory>
    ensures written { OnOk result (out.new.items ≡ out.old.items ++ edit_text edit.now) }
    ensures sized { OnOk result (IsSized edit.now) }
{
    put_u8(out, EDIT)?;
    put_number_items(out, &edit.add_logs)?;
    put_number_items(out, &edit.drop_logs)?;
    put_word(out, edit.next_file)?;
    put_word(out, edit.last.0)?;
    put_part(out, &edit.family)
}

/// The body of an edit. No memory is found also where a count is past a u32 or a level past a u8. It costs time linear in the
/// body.
pub fn write_edit(alloc: Global, edit: &Edit) -> Result<Vec<u8>, NoMemory>
    ensures { IfOk result (λ body. IsEdit body.items edit.now) }
{
    let mut body = Vec::new(alloc);
    put_edit(&mut body, edit)?;
    Ok(body)
}
