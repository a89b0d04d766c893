//! Laws of scans.
ghost use Rattle.ts_iterator.specs.Laws.{MergedStandsForLists};

/// The order of a family's lists, and the merging of them, changes no row of a scan.
pub fn merged_stands_for_lists()
    ensures { MergedStandsForLists }
{}
