//! Parts of the core's state.
ghost use Rattle.std.specs.Prelude.{◌≡◌, ◌==◌, ◌++◌, ◌∷◌, [], if◌then◌else◌, not, filter, flat_map, length, map, IfOk, OnOk};
ghost use Rattle.std.specs.List.{list_any};
ghost use Rattle.udt_model.specs.State.{changed_at, numbers_of, unflushed_family, with_floor};
ghost use Rattle.udt_model.specs.Jobs.{has_number};
ghost use Rattle.floor_core.specs.Cores.{new_head};
ghost use Rattle.floor_core.specs.Steps.{holding_tables};

use std::alloc::Global;
use std::marker::Model;
use ts_key::{Family, Form, NoMemory, Seq, Ts, Version};
use udt_model::KeySpan;

/// A live table: its versions are in the stored order.
#[derive(Drop)]
pub(crate) struct CoreTable {
    pub(crate) number: u64,
    pub(crate) level: u32,
    pub(crate) versions: Vec<Version>,
}

impl Model for CoreTable {
    ghost use Rattle.udt_model.specs.State.{LiveTable};

    ghost Value = { LiveTable };

    ghost view = { λ t. record { number = t.number; level = t.level; versions = t.versions.items } };
}

/// A family: its form and floor, the sequence up to which its versions are in tables, and its tables by ascending number.
#[derive(Drop)]
pub(crate) struct CoreFamily {
    pub(crate) form: Form,
    pub(crate) floor: Ts,
    pub(crate) through: Seq,
    pub(crate) tables: Vec<CoreTable>,
}

impl Model for CoreFamily {
    ghost use Rattle.std.specs.Prelude.{[]};
    ghost use Rattle.udt_model.specs.State.{FamilyState};

    ghost Value = { FamilyState };

    ghost view = { λ f. record { head = record { name = []; form = f.form; floor = f.floor }; through = f.through; tables = f.tables.items } };
}

/// What a flush makes: its table, and the floor that it leaves.
#[derive(Drop)]
pub(crate) struct FlushMade {
    pub(crate) table: CoreTable,
    pub(crate) floor: Ts,
}

/// A registered snapshot: the number of its event and the last sequence there.
#[derive(Drop)]
pub(crate) struct CoreSnap {
    pub(crate) event: u64,
    pub(crate) seq: Seq,
}

impl Model for CoreSnap {
    ghost use Rattle.udt_model.specs.State.{Snap};

    ghost Value = { Snap };

    ghost view = { λ s. record { event = s.event; seq = s.seq } };
}

/// A running flush: the number of its start, its family, the sequence up to which it takes the versions, and the floor and
/// the snapshots' sequences of its start.
#[derive(Drop)]
pub(crate) struct CoreFlush {
    pub(crate) start: u64,
    pub(crate) family: Family,
    pub(crate) through: Seq,
    pub(crate) floor: Ts,
    pub(crate) seqs: Vec<Seq>,
}

impl Model for CoreFlush {
    ghost use Rattle.udt_model.specs.State.{Flush};

    ghost Value = { Flush };

    ghost view = { λ j. record { start = j.start; family = j.family; through = j.through; floor = j.floor; seqs = j.seqs.items } };
}

/// A running compaction: the number of its start, its family, the numbers of its inputs, the level that it writes, the spans
/// of the tables below that aren't inputs, and the last sequence, the floor and the snapshots' sequences of its start.
#[derive(Drop)]
pub(crate) struct CoreCompaction {
    pub(crate) start: u64,
    pub(crate) family: Family,
    pub(crate) inputs: Vec<u64>,
    pub(crate) level: u32,
    pub(crate) deeper: Vec<KeySpan>,
    pub(crate) last: Seq,
    pub(crate) floor: Ts,
    pub(crate) seqs: Vec<Seq>,
}

impl Model for CoreCompaction {
    ghost use Rattle.udt_model.specs.State.{Compaction};

    ghost Value = { Compaction };

    ghost view = { λ j. record { start = j.start; family = j.family; inputs = j.inputs.items; level = j.level; deeper = j.deeper.items; last = j.last; floor = j.floor; seqs = j.seqs.items } };
}

/// What a view keeps of a family: its form, its floor, and the versions of its lists.
#[derive(Drop)]
pub(crate) struct CorePinned {
    pub(crate) form: Form,
    pub(crate) floor: Ts,
    pub(crate) versions: Vec<Version>,
}

impl Model for CorePinned {
    ghost use Rattle.floor_core.specs.Cores.{PinnedFamily};

    ghost Value = { PinnedFamily };

    ghost view = { λ f. record { form = f.form; floor = f.floor; versions = f.versions.items } };
}

/// A view: the number of its pin, and the last sequence, the families and the snapshots' sequences there.
#[derive(Drop)]
pub(crate) struct CoreView {
    pub(crate) number: u64,
    pub(crate) last: Seq,
    pub(crate) families: Vec<CorePinned>,
    pub(crate) seqs: Vec<Seq>,
}

impl Model for CoreView {
    ghost use Rattle.floor_core.specs.Cores.{PinnedView};

    ghost Value = { PinnedView };

    ghost view = { λ v. record { number = v.number; last = v.last; families = v.families.items; seqs = v.seqs.items } };
}

/// Sets the floor of a family, where there is one of this number.
pub(crate) fn set_floor(families: &mut Vec<CoreFamily>, family: Family, floor: Ts)
    ensures set { families.new.items ≡ changed_at family.0 (with_floor floor) families.old.items }
    ensures count { length families.new.items ≡ length families.old.items }
{
    let place = family.0 as usize;
    if place < families.len() {
        let f = &mut families[place];
        f.floor = floor;
    }
}

/// Whether the snapshot has another number.
fn is_other(s: &CoreSnap, id: u64) -> bool
    ensures { result ≡ not (s.now.event == id) }
{
    s.event != id
}

/// Appends a copy of a snapshot where it is kept.
fn push_snap(kept: &mut Vec<CoreSnap>, s: &CoreSnap, keep: bool) -> Result<(), NoMemory>
    ensures { OnOk result (kept.new.items ≡ (if keep then kept.old.items ++ s.now ∷ [] else kept.old.items)) }
{
    if !keep {
        return Ok(());
    }
    kept.push(CoreSnap {
        event: s.event,
        seq: s.seq,
    })?;
    Ok(())
}

/// The snapshots of other numbers.
pub(crate) fn other_snaps(
    alloc: Global,
    snaps: &[CoreSnap],
    id: u64,
) -> Result<Vec<CoreSnap>, NoMemory>
    ensures { IfOk result (λ kept. kept.items ≡ filter (λ s. not (s.event == id)) snaps.now) }
{
    let mut kept = Vec::new(alloc);
    for s in snaps {
        push_snap(&mut kept, s, is_other(s, id))?;
    }
    Ok(kept)
}

/// Whether one of the tables has this number.
pub(crate) fn has_table(tables: &[CoreTable], table: u64) -> bool
    ensures { result ≡ list_any (λ t. t.number == table) tables.now }
{
    tables.iter().any(|t| t.number == table)
}

/// Whether a table of the family has this number.
fn holds(f: &CoreFamily, table: u64) -> bool
    ensures { result ≡ list_any (λ t. t.number == table) f.now.tables }
{
    has_table(&f.tables, table)
}

/// Whether a table of some family has this number.
fn some_holds(families: &[CoreFamily], table: u64) -> bool
    ensures { result ≡ list_any (λ f. list_any (λ t. t.number == table) f.tables) families.now }
{
    families.iter().any(|f| holds(f, table))
}

/// Whether a live table has this number.
pub(crate) fn is_live_in(families: &[CoreFamily], table: u64) -> bool
    ensures { result ≡ has_number (flat_map (λ f. numbers_of f.tables) families.now) table }
{
    some_holds(families, table)
}

/// Sets the tables of a family, where there is one of this number.
pub(crate) fn set_tables(families: &mut Vec<CoreFamily>, family: Family, tables: Vec<CoreTable>)
    ensures set { families.new.items ≡ changed_at family.0 (holding_tables tables.items) families.old.items }
    ensures count { length families.new.items ≡ length families.old.items }
{
    let place = family.0 as usize;
    if place < families.len() {
        let f = &mut families[place];
        f.tables = tables;
    }
}

/// A family of this form that has no version.
fn fresh_family(alloc: Global, form: Form) -> CoreFamily
    ensures { result ≡ unflushed_family (new_head form) }
{
    CoreFamily {
        form,
        floor: Ts(0),
        through: Seq(0),
        tables: Vec::new(alloc),
    }
}

/// Families of these forms that have no version.
pub(crate) fn fresh_families(alloc: Global, forms: &[Form]) -> Result<Vec<CoreFamily>, NoMemory>
    ensures { IfOk result (λ families. families.items ≡ map unflushed_family (map new_head forms.now)) }
{
    let mut families = Vec::new(alloc);
    for form in forms {
        families.push(fresh_family(alloc, *form))?;
    }
    Ok(families)
}

/// Appends copies of the numbers.
fn append_numbers(list: &mut Vec<u64>, numbers: &[u64]) -> Result<(), NoMemory>
    ensures { OnOk result (list.new.items ≡ list.old.items ++ numbers.now) }
{
    for number in numbers {
        list.push(*number)?;
    }
    Ok(())
}

/// A copy of the numbers.
pub(crate) fn copy_numbers(alloc: Global, numbers: &[u64]) -> Result<Vec<u64>, NoMemory>
    ensures { IfOk result (λ copy. copy.items ≡ numbers.now) }
{
    let mut copy = Vec::new(alloc);
    append_numbers(&mut copy, numbers)?;
    Ok(copy)
}

/// The numbers of the tables.
fn numbers(alloc: Global, tables: &[CoreTable]) -> Result<Vec<u64>, NoMemory>
    ensures { IfOk result (λ list. list.items ≡ numbers_of tables.now) }
{
    tables.iter().map(|t| t.number).collect(alloc)
}

/// The numbers of all live tables.
pub(crate) fn live_numbers(alloc: Global, families: &[CoreFamily]) -> Result<Vec<u64>, NoMemory>
    ensures { IfOk result (λ live. live.items ≡ flat_map (λ f. numbers_of f.tables) families.now) }
{
    let mut live = Vec::new(alloc);
    for f in families {
        append_numbers(&mut live, &numbers(alloc, &f.tables)?)?;
    }
    Ok(live)
}
