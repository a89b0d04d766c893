//! The laws of engines: what they hold beside acts that they don't take, and what a crash leaves. A function states each; none does
//! anything.

ghost use Rattle.store_engine.specs.Laws.{ClosedLeaveOutcomes, DiscardsLeaveOutcomes, EnginesHoldBesides, EnginesLeaveOutcomes, FailedCallsLeaveOutcomes, FailedSyncsLeaveOutcomes, OutcomesStayBesides};

use udt_disk::Disk;

/// What an engine holds doesn't change by acts that it doesn't take: reads, snapshots, views, starts of compactions, jobs that are
/// dropped, and whatever is refused.
pub fn engines_hold_besides<D: Disk>()
    ensures { EnginesHoldBesides D.Disk D.File.DiskFile }
{}

/// Each folder that a crash may leave stands for an outcome: between two calls, behind one under which the disk failed, behind acts
/// that the engine doesn't take, where a table's file is given back that no outcome has live, and where it is closed.
pub fn engines_leave_outcomes<D: Disk>()
    ensures between { EnginesLeaveOutcomes D.Disk D.File.DiskFile }
    ensures failed { FailedCallsLeaveOutcomes D.Disk D.File.DiskFile }
    ensures failed_sync { FailedSyncsLeaveOutcomes D.Disk D.File.DiskFile }
    ensures besides { OutcomesStayBesides D.Disk D.File.DiskFile }
    ensures discarded { DiscardsLeaveOutcomes D.Disk D.File.DiskFile }
    ensures closed { ClosedLeaveOutcomes D.Disk D.File.DiskFile }
{}
