//! A compaction: what is kept of its inputs, written into tables one after another.
ghost use Rattle.std.specs.Prelude.{◌≡◌, ◌<◌, ◌≤◌, ◌++◌, ◌∷◌, [], ℕ, List, All, IfOk, IfErr, IsTrue, OnOk, Some};
ghost use Rattle.ts_key.specs.StoredKeys.{IsSequence, IsStamp};
ghost use Rattle.ts_key.specs.declared.version.Version.{Version as VersionOf};
ghost use Rattle.udt_disk.specs.Causes.{IsCause};
ghost use Rattle.block_table.specs.Contents.{Contents};
ghost use Rattle.block_table.specs.Pushed.{IsWholeTable};
ghost use Rattle.super_version.specs.Jobs.{MayRefuse, is_fault};
ghost use Rattle.flush_job.specs.Keeping.{GivesOne, Keeps, all_of, kept_of};
ghost use Rattle.collection_laws.specs.Places.{AreApart};
ghost use Rattle.history_gc.specs.Pushed.{AreInOrder};
ghost use Rattle.udt_model.specs.Collecting.{collect};
ghost use Rattle.compaction.specs.Drawing.{AreDrawn, AreHeld, AreOutputsNumbered, IsDrawn, StillGives};
ghost use Rattle.compaction.specs.Making.{IsNearer, IsNext};
ghost use Rattle.compaction.specs.Made.{AreTablesOf, HoldsOutput, IsInput, kept_by, held_by, job_cause};

use crate::NoMemory;
use crate::feed::TableFeed;
use crate::fill::fill_table;
use block_table::{TableWriteFault, TableWriter};
use flush_job::{Feed, Kept};
use std::alloc::Global;
use super_version::{JobCause, JobFiles, Output, Plan};
use ts_key::{Family, Form, Seq, Ts, Version};
use udt_model::KeySpan;

/// Gives the files of outputs back, the last first.
fn give_back<J: JobFiles>(files: &mut J, outs: Vec<Output<J::File>>)
    requires held { AreHeld J.JobFiles J.File.DiskFile files.old outs.items }
    requires numbered { (low : ℕ) × AreOutputsNumbered low (J.above files.old) outs.items }
    ensures faults { J.faults files.new ≡ J.faults files.old }
    ensures seen { (J.halted files.new ≡ J.halted files.old) × (J.next_number files.new ≡ J.next_number files.old) }
    ensures above { J.above files.new ≡ J.above files.old }
    ensures others { (low n : ℕ) → AreOutputsNumbered low (J.above files.old) outs.items → n < low → IsTrue (J.gave files.old n) → IsTrue (J.gave files.new n) }
    ensures told { J.is_told files.new ≡ J.is_told files.old }
    ensures model { J.keeps_model files.new ≡ J.keeps_model files.old }
{
    let mut outs = outs;
    while let Some(out) = outs.pop() {
        let Output {
            number: _,
            file,
            table: _,
            kept: _,
        } = out;
        files.back(file);
    }
    outs.destroy_empty();
}

/// Why a table wasn't written.
fn cause_of(fault: TableWriteFault) -> JobCause
    ensures { result ≡ job_cause fault }
{
    match fault {
        TableWriteFault::DiskFault => JobCause::Fault,
        TableWriteFault::NoMemory => JobCause::Memory,
    }
}

/// Writes a table to a new file. Where it is refused, the file is given back if there is one.
fn write_output<J: JobFiles>(
    alloc: Global,
    writer: TableWriter,
    files: &mut J,
) -> Result<Output<J::File>, JobCause>
    requires { (t : Contents) × IsWholeTable writer t }
    ensures contents { (t : Contents) → IsWholeTable writer t → IfOk result (λ o. o.table.contents ≡ t) }
    ensures holds { IfOk result (HoldsOutput J.File.DiskFile (J.is_told files.old) (J.keeps_model files.old)) }
    ensures drawn { IfOk result (λ o. IsDrawn J.JobFiles files.old files.new o.number) }
    ensures refused { IfErr result (MayRefuse (J.halted files.new) (J.next_number files.new)) }
    ensures cause { IfErr result (λ why. IsCause (is_fault why) (J.faults files.old) (J.faults files.new)) }
    ensures goes { StillGives J.JobFiles files.old files.new }
{
    let (number, mut file) = files.next()?;
    match writer.finish(alloc, &mut file) {
        Ok(table) => {
            let kept = table.properties().count;
            Ok(Output {
                number,
                file,
                table,
                kept,
            })
        }
        Err(fault) => {
            files.back(file);
            Err(cause_of(fault))
        }
    }
}

/// Makes the table that begins with a version, and tells the first of the next one, where there is one.
fn make_output<S: Feed + Drop, J: JobFiles>(
    alloc: Global,
    kept: &mut Kept<'_, S>,
    family: Family,
    form: Form,
    floor: Ts,
    first: Version,
    files: &mut J,
) -> Result<(Output<J::File>, Option<Version>), JobCause>
    requires given { (given : List VersionOf) × Keeps S.Feed kept.old (given ++ first ∷ []) }
    requires stamps { All (λ v. IsStamp form v.ts.0) (all_of S.Feed kept.old) }
    requires sequences { All (λ v. IsSequence v.seq.0) (all_of S.Feed kept.old) }
    ensures next { (given : List VersionOf) → Keeps S.Feed kept.old (given ++ first ∷ []) → IfOk result (λ made. IsNext S.Feed family form floor kept.new given first made.0.table.contents made.1) }
    ensures all { all_of S.Feed kept.new ≡ all_of S.Feed kept.old }
    ensures collected { kept_of S.Feed kept.new ≡ kept_of S.Feed kept.old }
    ensures nearer { IfOk result (λ made. IsNearer S.Feed kept.old kept.new made.1) }
    ensures holds { IfOk result (λ made. HoldsOutput J.File.DiskFile (J.is_told files.old) (J.keeps_model files.old) made.0) }
    ensures drawn { IfOk result (λ made. IsDrawn J.JobFiles files.old files.new made.0.number) }
    ensures refused { IfErr result (MayRefuse (J.halted files.new) (J.next_number files.new)) }
    ensures cause { IfErr result (λ why. IsCause (is_fault why) (J.faults files.old) (J.faults files.new)) }
    ensures goes { StillGives J.JobFiles files.old files.new }
{
    let filled = match fill_table(alloc, kept, family, form, floor, first) {
        Ok(filled) => filled,
        Err(_) => return Err(JobCause::Memory),
    };
    let output = write_output(alloc, filled.writer, files)?;
    Ok((output, filled.next))
}

/// Makes tables of all that is kept, of which the first version was given already.
fn make_outputs<S: Feed + Drop, J: JobFiles>(
    alloc: Global,
    kept: &mut Kept<'_, S>,
    family: Family,
    form: Form,
    floor: Ts,
    first: Option<Version>,
    files: &mut J,
) -> Result<Vec<Output<J::File>>, JobCause>
    requires given { GivesOne S.Feed kept.old [] first }
    requires stamps { All (λ v. IsStamp form v.ts.0) (all_of S.Feed kept.old) }
    requires sequences { All (λ v. IsSequence v.seq.0) (all_of S.Feed kept.old) }
    ensures made { IfOk result (λ outs. AreTablesOf J.File.DiskFile family form floor (J.is_told files.old) (J.keeps_model files.old) (kept_of S.Feed kept.old) outs.items) }
    ensures in_order { OnOk result (AreInOrder (all_of S.Feed kept.old)) }
    ensures numbers { IfOk result (λ outs. AreOutputsNumbered (J.above files.old) (J.above files.new) outs.items) }
    ensures held { IfOk result (λ outs. AreHeld J.JobFiles J.File.DiskFile files.new outs.items) }
    ensures drawn { IfOk result (λ outs. AreDrawn J.JobFiles files.old files.new outs.items) }
    ensures refused { IfErr result (MayRefuse (J.halted files.new) (J.next_number files.new)) }
    ensures cause { IfErr result (λ why. IsCause (is_fault why) (J.faults files.old) (J.faults files.new)) }
    ensures kept { OnOk result (J.faults files.new ≡ J.faults files.old) }
    ensures goes { StillGives J.JobFiles files.old files.new }
{
    let mut outs = Vec::new(alloc);
    let mut next = first;
    while let Some(version) = next {
        if outs.reserve(1).is_err() {
            give_back(files, outs);
            return Err(JobCause::Memory);
        }
        match make_output(alloc, kept, family, form, floor, version, files) {
            Ok((output, more)) => {
                outs.push_reserved(output);
                next = more;
            }
            Err(cause) => {
                give_back(files, outs);
                return Err(cause);
            }
        }
    }
    Ok(outs)
}

/// What is kept of a feed of which nothing was taken, with the first version of it that was given.
fn keep<'a, S: Feed + Drop>(
    alloc: Global,
    feed: S,
    floor: Ts,
    seqs: &[Seq],
    deeper: &'a [KeySpan],
) -> Result<(Kept<'a, S>, Option<Version>), NoMemory>
    requires { S.taken feed ≡ [] }
    ensures first { IfOk result (λ kept. GivesOne S.Feed kept.0 [] kept.1) }
    ensures all { IfOk result (λ kept. all_of S.Feed kept.0 ≡ S.coming feed) }
    ensures collected { IfOk result (λ kept. kept_of S.Feed kept.0 ≡ collect (S.coming feed) floor seqs.now deeper.now) }
{
    let mut kept = Kept::new(alloc, feed, floor, seqs, deeper)?;
    let first = kept.next()?;
    Ok((kept, first))
}

/// Collects the inputs of a plan, by the floor and by the sequences of the registered snapshots, in any order, and writes what
/// is kept into tables: each ends with the first key that brings its blocks to `TABLE_BYTES`, and no key stands in two. Beside
/// what the tables hold it keeps the versions of one key. Each table is written, synced and kept before the next file is
/// drawn, one is drawn for each table and no other, and so none where nothing is kept.
///
/// `Fault` comes only where the count of faults of `files` rose, `Files` and `Halted` exactly where `next` answered so. `Memory`
/// comes also where two inputs hold one version. Where it is refused, every file that was drawn was given back.
pub fn run_compaction<J: JobFiles>(
    alloc: Global,
    plan: &Plan,
    form: Form,
    floor: Ts,
    seqs: &[Seq],
    files: &mut J,
) -> Result<Vec<Output<J::File>>, JobCause>
    requires { All (IsInput plan.now.family form) plan.now.inputs }
    ensures made { IfOk result (λ outs. AreTablesOf J.File.DiskFile plan.now.family form floor (J.is_told files.old) (J.keeps_model files.old) (kept_by plan.now floor seqs.now) outs.items) }
    ensures apart { OnOk result (AreApart (held_by plan.now)) }
    ensures numbers { IfOk result (λ outs. AreOutputsNumbered (J.above files.old) (J.above files.new) outs.items) }
    ensures held { IfOk result (λ outs. AreHeld J.JobFiles J.File.DiskFile files.new outs.items) }
    ensures drawn { IfOk result (λ outs. AreDrawn J.JobFiles files.old files.new outs.items) }
    ensures refused { IfErr result (MayRefuse (J.halted files.new) (J.next_number files.new)) }
    ensures cause { IfErr result (λ why. IsCause (is_fault why) (J.faults files.old) (J.faults files.new)) }
    ensures kept { OnOk result (J.faults files.new ≡ J.faults files.old) }
    ensures goes { StillGives J.JobFiles files.old files.new }
{
    let Ok(feed) = TableFeed::new(alloc, plan.family, plan.inputs.as_slice()) else {
        return Err(JobCause::Memory);
    };
    let deeper = plan.deeper.as_slice();
    let Ok((mut kept, first)) = keep(alloc, feed, floor, seqs, deeper) else {
        return Err(JobCause::Memory);
    };
    make_outputs(alloc, &mut kept, plan.family, form, floor, first, files)
}
