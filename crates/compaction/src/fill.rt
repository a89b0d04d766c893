//! One table after another, filled with what a compaction keeps.
ghost use Rattle.std.specs.Prelude.{◌≡◌, ◌≢◌, ◌⊎◌, ◌<◌, ◌++◌, ◌∷◌, [], List, All, IfOk, IfSome};
ghost use Rattle.std.specs.Bool.{MatchBool};
ghost use Rattle.ts_key.specs.StoredKeys.{IsSequence, IsStamp};
ghost use Rattle.ts_key.specs.declared.version.Version.{Version as VersionOf};
ghost use Rattle.block_table.specs.Contents.{Contents};
ghost use Rattle.block_table.specs.Pushed.{HasPushed};
ghost use Rattle.flush_job.specs.Keeping.{Keeps, all_of, kept_of, left_of};
ghost use Rattle.compaction.specs.Filling.{IsFilled};
ghost use Rattle.compaction.specs.Made.{LeavesRoom, FillsTable};

use crate::NoMemory;
use crate::sizes::TABLE_BYTES;
use block_table::TableWriter;
use flush_job::{Feed, Kept};
use std::alloc::Global;
use ts_key::{Family, Form, Ts, Version};

/// A table that is filled, and the first version of the next one, where there is one.
#[derive(Drop)]
pub(crate) struct Filled {
    pub(crate) writer: TableWriter,
    pub(crate) next: Option<Version>,
}

/// Whether a table ends before the version: it is full, and the version is of another key than its last.
fn ends_before(writer: &TableWriter, last: &Version, version: &Version) -> bool
    ensures { (t : Contents) → HasPushed writer.now t → MatchBool result (FillsTable t × (last.now.key ≢ version.now.key)) (LeavesRoom t ⊎ (last.now.key ≡ version.now.key)) }
{
    if writer.bytes() < TABLE_BYTES {
        return false;
    }
    last.key.bytes() != version.key.bytes()
}

/// Fills a table with a version that was given, and those that follow, up to the first key that fills it.
pub(crate) fn fill_table<S: Feed + Drop>(
    alloc: Global,
    kept: &mut Kept<'_, S>,
    family: Family,
    form: Form,
    floor: Ts,
    first: Version,
) -> Result<Filled, NoMemory>
    requires given { (given : List VersionOf) × Keeps S.Feed kept.old (given ++ first ∷ []) }
    requires stamps { All (λ v. IsStamp form v.ts.0) (all_of S.Feed kept.old) }
    requires sequences { All (λ v. IsSequence v.seq.0) (all_of S.Feed kept.old) }
    ensures filled { (given : List VersionOf) → Keeps S.Feed kept.old (given ++ first ∷ []) → IfOk result (IsFilled S.Feed family form floor kept.new given first) }
    ensures all { all_of S.Feed kept.new ≡ all_of S.Feed kept.old }
    ensures kept { kept_of S.Feed kept.new ≡ kept_of S.Feed kept.old }
    ensures fewer { IfOk result (λ f. IfSome f.next (λ _. left_of S.Feed kept.new < left_of S.Feed kept.old)) }
{
    let mut writer = TableWriter::new(alloc, family, form, floor)?;
    writer.push(alloc, &first)?;
    let mut last = first;
    while let Some(version) = kept.next()? {
        if ends_before(&writer, &last, &version) {
            return Ok(Filled {
                writer,
                next: Some(version),
            });
        }
        writer.push(alloc, &version)?;
        last = version;
    }
    Ok(Filled { writer, next: None })
}
