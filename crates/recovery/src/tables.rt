//! The live tables of a fold: each is read and judged by its family, and then they are judged together.

ghost use Rattle.std.specs.Prelude.{◌≡◌, ◌≤◌, Some, length, IfOk, IfErr, OnOk, IsTrue, slice_get};
ghost use Rattle.std.specs.Bool.{OnTrue, OnFalse};
ghost use Rattle.ts_key.specs.declared.limits.TheConstants.{FAMILY_LIMIT};
ghost use Rattle.udt_disk.specs.Causes.{IsCause};
ghost use Rattle.udt_disk.specs.declared.name.FileName.{FileName as NameOf};
ghost use Rattle.udt_disk.specs.declared.name.FileName.TheVariants.{Table as TableName};
ghost use Rattle.recovery.specs.Fault.{is_open_disk_fault};
ghost use Rattle.recovery.specs.Looks.{Looks};
ghost use Rattle.recovery.specs.Meeting.{AreOnLevels, IsFirstFault};
ghost use Rattle.recovery.specs.Places.{AreOpened, HasPlaces, IsFitting, IsLivePlace, IsTableOpened, IsTableIn, IsTableName, RefusesPlace, RefusesReading, RefusesTables, table_place_of};

use crate::OpenFault;
use crate::file::read_image;
use crate::live::{TablePlace, live_tables};
use crate::meeting::first_meeting;
use block_table::{Table, TableFault};
use manifest_fold::{FamilyFold, Folded};
use std::alloc::Global;
use std::sync::Arc;
use super_version::LiveTable;
use ts_key::Family;
use udt_disk::{Disk, FileName};

/// A live table that was read, with its family and its level.
#[derive(Drop)]
pub(crate) struct Opened {
    pub(crate) family: Family,
    pub(crate) level: u32,
    pub(crate) table: LiveTable,
}

/// The table in the file of this number.
fn read_table<D: Disk>(alloc: Global, disk: &mut D, number: u64) -> Result<Table, OpenFault>
    ensures read { IfOk result (λ table. IsTrue (D.is_told disk.old) → IsTableIn (D.stands disk.old (TableName number)) table) }
    ensures refused { IfErr result (λ e. IsTrue (D.is_told disk.old) → RefusesReading (D.stands disk.old (TableName number)) number e) }
    ensures looks { Looks D.Disk D.File.DiskFile (λ (n : NameOf). n ≡ TableName number) disk.old disk.new }
    ensures kept { OnOk result (D.faults disk.new ≡ D.faults disk.old) }
    ensures cause { IfErr result (λ fault. IsCause (is_open_disk_fault fault) (D.faults disk.old) (D.faults disk.new)) }
    ensures later { D.faults disk.old ≤ D.faults disk.new }
{
    let Some(image) = read_image(alloc, disk, FileName::Table(number))? else {
        return Err(OpenFault::MissingTable { number });
    };
    let _size = image.len();
    match Table::read(alloc, image) {
        Ok(table) => Ok(table),
        Err(TableFault::Bad) => Err(OpenFault::BadTable { number }),
        Err(TableFault::NoMemory) => Err(OpenFault::NoMemory),
    }
}

/// Whether a table is one of the family, as a manifest has it, and has nothing above `through`.
fn fits(table: &Table, number: Family, family: &FamilyFold) -> bool
    ensures yes { OnTrue result (IsFitting number family.now table.now.contents) }
    ensures no { OnFalse result (IsFitting number family.now table.now.contents → ⊥) }
{
    let p = table.properties();
    if p.family.0 != number.0 {
        return false;
    }
    if p.form != family.form {
        return false;
    }
    if family.floor.0 < p.collected_by.0 {
        return false;
    }
    if family.through.0 < p.greatest_seq.0 {
        return false;
    }
    true
}

/// Opens a live table of a family.
fn open_table<D: Disk>(
    alloc: Global,
    disk: &mut D,
    family: &FamilyFold,
    place: TablePlace,
) -> Result<Opened, OpenFault>
    ensures opened { IfOk result (λ o. IsTrue (D.is_told disk.old) → IsTableOpened (D.stands disk.old) family.now o) }
    ensures place { IfOk result (λ o. table_place_of o ≡ place) }
    ensures refused { IfErr result (λ e. IsTrue (D.is_told disk.old) → RefusesPlace (D.stands disk.old) family.now place e) }
    ensures looks { Looks D.Disk D.File.DiskFile IsTableName disk.old disk.new }
    ensures kept { OnOk result (D.faults disk.new ≡ D.faults disk.old) }
    ensures cause { IfErr result (λ fault. IsCause (is_open_disk_fault fault) (D.faults disk.old) (D.faults disk.new)) }
    ensures later { D.faults disk.old ≤ D.faults disk.new }
{
    let number = place.table.number;
    let table = read_table(alloc, disk, number)?;
    if !fits(&table, place.family, family) {
        return Err(OpenFault::BadTable { number });
    }
    match Arc::new(alloc, table) {
        Ok(table) => Ok(Opened {
            family: place.family,
            level: place.table.level,
            table: LiveTable { number, table },
        }),
        Err(_) => Err(OpenFault::NoMemory),
    }
}

/// The family of a live table.
fn family_of<'a>(fold: &'a Folded, place: TablePlace) -> &'a FamilyFold
    requires { IsLivePlace fold.now place }
    ensures { slice_get fold.now.families place.family.0 ≡ Some result.now }
{
    &fold.families.as_slice()[place.family.0 as usize]
}

/// What is told where a table isn't opened behind these: the first of these that meets one with a smaller number, where there is
/// one, and otherwise why it isn't.
fn first_fault(alloc: Global, fold: &Folded, opened: &[Opened], fault: OpenFault) -> OpenFault
    requires { length fold.now.families ≤ FAMILY_LIMIT }
    ensures first { AreOnLevels opened.now → IsFirstFault (length fold.now.families) opened.now fault result }
    ensures cause { is_open_disk_fault result ≡ is_open_disk_fault fault }
{
    if fault.is_stop() {
        return fault;
    }
    match first_meeting(alloc, fold, opened) {
        Ok(None) => fault,
        Ok(Some(number)) => OpenFault::BadTable { number },
        Err(_) => OpenFault::NoMemory,
    }
}

/// Opens the live tables of a fold, by ascending number. The first that is missing or not in order is told.
pub(crate) fn open_tables<D: Disk>(
    alloc: Global,
    disk: &mut D,
    fold: &Folded,
) -> Result<Vec<Opened>, OpenFault>
    requires few { length fold.now.families ≤ FAMILY_LIMIT }
    requires places { HasPlaces fold.now }
    ensures opened { IfOk result (λ opened. IsTrue (D.is_told disk.old) → AreOpened (D.stands disk.old) fold.now opened.items) }
    ensures refused { IfErr result (λ e. IsTrue (D.is_told disk.old) → RefusesTables fold.now (D.stands disk.old) e) }
    ensures looks { Looks D.Disk D.File.DiskFile IsTableName disk.old disk.new }
    ensures kept { OnOk result (D.faults disk.new ≡ D.faults disk.old) }
    ensures cause { IfErr result (λ fault. IsCause (is_open_disk_fault fault) (D.faults disk.old) (D.faults disk.new)) }
    ensures later { D.faults disk.old ≤ D.faults disk.new }
{
    let places = live_tables(alloc, fold)?;
    let mut opened = Vec::new(alloc);
    for place in &places {
        let family = family_of(fold, *place);
        let table = match open_table(alloc, disk, family, *place) {
            Ok(table) => table,
            Err(fault) => return Err(first_fault(alloc, fold, &opened, fault)),
        };
        match opened.push(table) {
            Ok(()) => {}
            Err(_) => return Err(OpenFault::NoMemory),
        }
    }
    match first_meeting(alloc, fold, &opened) {
        Ok(None) => Ok(opened),
        Ok(Some(number)) => Err(OpenFault::BadTable { number }),
        Err(_) => Err(OpenFault::NoMemory),
    }
}
