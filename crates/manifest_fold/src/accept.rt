//! Which edits a fold accepts.

ghost use Rattle.std.specs.Prelude.{◌≡◌, ◌<◌, ◌≤◌, ◌==◌, ◌↔◌, IsTrue, All, map, take, length, slice_index};
ghost use Rattle.std.specs.List.{list_any};
ghost use Rattle.std.specs.List.Sorted.{IsStrictlyIncreasing};
ghost use Rattle.manifest_fold.specs.Folds.{IsAccepted, IsLogsEdit, IsPart, IsOnePart, IsTablesEdit, IsFreeNumber, is_live, newest_log};
ghost use Rattle.manifest_edit.specs.LiveTables.{has_table_number};
ghost use Rattle.manifest_edit.specs.declared.edit.TableAt.{TableAt as Table};

use crate::{FILE_NUMBER_LIMIT, FamilyFold, Folded, LOWEST_LEVEL};
use manifest_edit::{Edit, FamilyEdit, LiveTables, TableAt};
use ts_key::SEQUENCE_LIMIT;

impl Folded {
    /// Does the fold accept the edit? It costs time linear in the edit times the logarithm of the live tables.
    pub fn accepts(&self, edit: &Edit) -> bool
        ensures { IsTrue result ↔ IsAccepted self.now edit.now }
    {
        self.next_file <= edit.next_file
            && edit.next_file <= FILE_NUMBER_LIMIT
            && self.last.0 <= edit.last.0
            && edit.last.0 <= SEQUENCE_LIMIT
            && accepts_logs(self.logs.as_slice(), edit)
            && accepts_part(self.families.as_slice(), edit)
    }
}

fn accepts_logs(logs: &[u64], edit: &Edit) -> bool
    ensures { IsTrue result ↔ IsLogsEdit logs.now edit.now }
{
    let added = edit.add_logs.as_slice();
    let dropped = edit.drop_logs.as_slice();
    are_ascending(added)
        && are_above(added, newest_of(logs))
        && are_below(added, edit.next_file)
        && are_first(dropped, logs)
        && dropped.len() < logs.len() + added.len()
}

/// Does each number stand below the next?
fn are_ascending(numbers: &[u64]) -> bool
    ensures { IsTrue result ↔ IsStrictlyIncreasing numbers.now }
{
    for i in 1..numbers.len() {
        if numbers[i - 1] >= numbers[i] {
            return false;
        }
    }
    true
}

fn are_above(numbers: &[u64], low: u64) -> bool
    ensures { IsTrue result ↔ All (λ n. low < n) numbers.now }
{
    numbers.iter().all(|number| low < *number)
}

fn are_below(numbers: &[u64], high: u64) -> bool
    ensures { IsTrue result ↔ All (λ n. n < high) numbers.now }
{
    numbers.iter().all(|number| *number < high)
}

/// The newest log, which is the last one; 0 where there is none.
fn newest_of(logs: &[u64]) -> u64
    ensures { result ≡ newest_log logs.now }
{
    match logs.last() {
        Some(number) => *number,
        None => 0,
    }
}

/// Do the logs begin with these numbers?
fn are_first(numbers: &[u64], logs: &[u64]) -> bool
    ensures { IsTrue result ↔ (numbers.now ≡ take (length numbers.now) logs.now) }
{
    logs.starts_with(numbers)
}

fn accepts_part(families: &[FamilyFold], edit: &Edit) -> bool
    ensures { IsTrue result ↔ IsPart families.now edit.now edit.now.family }
{
    match &edit.family {
        None => true,
        Some(part) => accepts_family(families, edit, part),
    }
}

fn accepts_family(families: &[FamilyFold], edit: &Edit, part: &FamilyEdit) -> bool
    ensures { IsTrue result ↔ IsOnePart families.now edit.now part.now }
{
    match families.get(part.family.0 as usize) {
        None => false,
        Some(old) => {
            old.floor.0 <= part.floor.0
                && old.through.0 <= part.through.0
                && part.through.0 <= edit.last.0
                && accepts_tables(families, edit.next_file, old, part)
        }
    }
}

fn accepts_tables(families: &[FamilyFold], next: u64, old: &FamilyFold, part: &FamilyEdit) -> bool
    ensures { IsTrue result ↔ IsTablesEdit families.now next old.now part.now }
{
    let add = part.add.as_slice();
    let remove = part.remove.as_slice();
    ascend_by_number(add)
        && are_ascending(remove)
        && are_on_levels(add)
        && have_numbers_below(add, next)
        && are_live(&old.tables, remove)
        && are_free(families, remove, add)
}

/// The number of the table at an index.
#[tactic(auto, using(crate::proofs::Ascending::number_there))]
fn number_at(tables: &[TableAt], i: usize) -> u64
    requires { i < length tables.now }
    ensures { result ≡ slice_index (map (λ (t : Table). t.number) tables.now) i }
{
    tables[i].number
}

/// Does each table's number stand below the next one's?
fn ascend_by_number(tables: &[TableAt]) -> bool
    ensures { IsTrue result ↔ IsStrictlyIncreasing (map (λ (t : Table). t.number) tables.now) }
{
    for i in 1..tables.len() {
        if number_at(tables, i - 1) >= number_at(tables, i) {
            return false;
        }
    }
    true
}

fn are_on_levels(tables: &[TableAt]) -> bool
    ensures { IsTrue result ↔ All (λ (t : Table). t.level ≤ LOWEST_LEVEL) tables.now }
{
    tables.iter().all(|table| table.level <= LOWEST_LEVEL)
}

fn have_numbers_below(tables: &[TableAt], next: u64) -> bool
    ensures { IsTrue result ↔ All (λ (t : Table). t.number < next) tables.now }
{
    tables.iter().all(|table| table.number < next)
}

fn are_live(tables: &LiveTables, numbers: &[u64]) -> bool
    ensures { IsTrue result ↔ All (λ n. IsTrue (has_table_number tables.now n)) numbers.now }
{
    numbers.iter().all(|number| tables.has(*number))
}

fn are_free(families: &[FamilyFold], removed: &[u64], tables: &[TableAt]) -> bool
    requires { IsStrictlyIncreasing removed.now }
    ensures { IsTrue result ↔ All (λ (t : Table). IsFreeNumber families.now removed.now t.number) tables.now }
{
    tables
        .iter()
        .all(|table| is_free(families, removed, table.number))
}

fn is_free(families: &[FamilyFold], removed: &[u64], number: u64) -> bool
    requires { IsStrictlyIncreasing removed.now }
    ensures { IsTrue result ↔ IsFreeNumber families.now removed.now number }
{
    !has_live(families, number) || has_word(removed, number)
}

fn has_live(families: &[FamilyFold], number: u64) -> bool
    ensures { result ≡ is_live families.now number }
{
    families.iter().any(|family| family.tables.has(number))
}

/// Is the number among these, which ascend?
fn has_word(numbers: &[u64], number: u64) -> bool
    requires { IsStrictlyIncreasing numbers.now }
    ensures { result ≡ list_any (λ m. m == number) numbers.now }
{
    numbers.binary_search(&number).is_ok()
}
