//! Laws of plans.
ghost use Rattle.compaction.specs.Closed.{PickedPlansAreClosed, WholePlansAreClosed};

/// In a state whose tables are in order, a plan of `whole` or `pick` is one that a compaction may have: it takes every table
/// that has to be taken in, and its deeper spans are exactly those of the tables below its level that it leaves out.
pub fn plans_are_closed()
    ensures whole { WholePlansAreClosed }
    ensures picked { PickedPlansAreClosed }
{}
