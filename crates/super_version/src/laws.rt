//! Laws of the changes.
ghost use Rattle.super_version.specs.Laws.{NumbersStay, OrderStays, ReadsStay};

/// Tables in order stay so. On level 0 they do behind a table that comes in front with a greatest sequence that is at least
/// theirs, as a flush puts it there; on every level they do where a compaction takes tables out and puts others in.
pub fn levels_stay_in_order()
    ensures { OrderStays }
{}

/// Where all memtables and tables of each family bear the number of its place, they do after every write, and after each
/// change of a family whose tables are of the family.
pub fn numbers_stay()
    ensures { NumbersStay }
{}

/// A floor and a seal change nothing of what the lists of a family hold together. After a write reads of a family see the
/// versions that it made there beside those from before.
pub fn reads_stay()
    ensures { ReadsStay }
{}
