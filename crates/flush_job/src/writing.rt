//! Versions that are kept, written into a table.
ghost use Rattle.std.specs.Prelude.{◌≡◌, [], All, OnOk, map, true, false};
ghost use Rattle.ts_key.specs.StoredKeys.{IsSequence, IsStamp};
ghost use Rattle.ts_key.specs.declared.version.Form.TheVariants.{Persist, Strip};
ghost use Rattle.udt_model.specs.Collecting.{stripped, without_ts};
ghost use Rattle.udt_model.specs.Jobs.{in_form as as_form};
ghost use Rattle.collection_laws.specs.Places.{AreApart};
ghost use Rattle.block_table.specs.Contents.{Contents};
ghost use Rattle.block_table.specs.Pushed.{HasPushed};
ghost use Rattle.flush_job.specs.Writing.{and_versions};
ghost use Rattle.flush_job.specs.Keeping.{Keeps, all_of, kept_of};
ghost use Rattle.flush_job.specs.Stripping.{AreToldBySequence, ends_in_key};

use crate::NoMemory;
use crate::feed::Feed;
use crate::kept::Kept;
use block_table::TableWriter;
use std::alloc::Global;
use strip::strip_versions;
use ts_key::{Form, Version};

/// Pushes the versions, in their order. They are of the writer's family, and its form can spell them.
fn push_all(alloc: Global, writer: &mut TableWriter, versions: &[Version]) -> Result<(), NoMemory>
    requires stamps { All (λ v. IsStamp writer.old.form v.ts.0) versions.now }
    requires sequences { All (λ v. IsSequence v.seq.0) versions.now }
    ensures form { writer.new.form ≡ writer.old.form }
    ensures pushed { (t : Contents) → HasPushed writer.old t → OnOk result (HasPushed writer.new (and_versions t versions.now)) }
{
    for version in versions {
        writer.push(alloc, version)?;
    }
    Ok(())
}

/// Pushes all that is kept.
pub(crate) fn write_kept<S: Feed + Drop>(
    alloc: Global,
    kept: &mut Kept<'_, S>,
    writer: &mut TableWriter,
) -> Result<(), NoMemory>
    requires fresh { Keeps S.Feed kept.old [] }
    requires stamps { All (λ v. IsStamp writer.old.form v.ts.0) (all_of S.Feed kept.old) }
    requires sequences { All (λ v. IsSequence v.seq.0) (all_of S.Feed kept.old) }
    ensures { (t : Contents) → HasPushed writer.old t → OnOk result (HasPushed writer.new (and_versions t (kept_of S.Feed kept.old))) }
{
    while let Some(version) = kept.next()? {
        writer.push(alloc, &version)?;
    }
    Ok(())
}

/// Strips versions of one key and pushes them, in the order in which they stand then. It leaves none.
fn push_stripped(
    alloc: Global,
    writer: &mut TableWriter,
    versions: &mut Vec<Version>,
) -> Result<(), NoMemory>
    requires form { writer.old.form ≡ Strip }
    requires sequences { All (λ v. IsSequence v.seq.0) versions.old.items }
    ensures form { writer.new.form ≡ writer.old.form }
    ensures none { OnOk result (versions.new.items ≡ []) }
    ensures pushed { (t : Contents) → HasPushed writer.old t → AreApart (map without_ts versions.old.items) → OnOk result (HasPushed writer.new (and_versions t (stripped versions.old.items))) }
{
    strip_versions(versions);
    push_all(alloc, writer, versions)?;
    versions.clear();
    Ok(())
}

/// Whether a version is of the key of the others, if there are others.
fn is_of_key(versions: &[Version], version: &Version) -> bool
    ensures { result ≡ ends_in_key versions.now version.now.key }
{
    match versions.last() {
        None => true,
        Some(last) => last.key.bytes() == version.key.bytes(),
    }
}

/// Strips the versions of a key and pushes them, unless the next version is of that key too.
fn push_unless(
    alloc: Global,
    writer: &mut TableWriter,
    of_key: &mut Vec<Version>,
    next: &Version,
) -> Result<(), NoMemory>
    requires form { writer.old.form ≡ Strip }
    requires sequences { All (λ v. IsSequence v.seq.0) of_key.old.items }
    ensures form { writer.new.form ≡ writer.old.form }
    ensures same { ends_in_key of_key.old.items next.now.key ≡ true → (of_key.new.items ≡ of_key.old.items) × (writer.new ≡ writer.old) }
    ensures none { ends_in_key of_key.old.items next.now.key ≡ false → OnOk result (of_key.new.items ≡ []) }
    ensures pushed { (t : Contents) → ends_in_key of_key.old.items next.now.key ≡ false → HasPushed writer.old t → AreApart (map without_ts of_key.old.items) → OnOk result (HasPushed writer.new (and_versions t (stripped of_key.old.items))) }
{
    if is_of_key(of_key, next) {
        return Ok(());
    }
    push_stripped(alloc, writer, of_key)
}

/// Pushes all that is kept, stripped key by key.
pub(crate) fn write_stripped<S: Feed + Drop>(
    alloc: Global,
    kept: &mut Kept<'_, S>,
    writer: &mut TableWriter,
) -> Result<(), NoMemory>
    requires fresh { Keeps S.Feed kept.old [] }
    requires form { writer.old.form ≡ Strip }
    requires sequences { All (λ v. IsSequence v.seq.0) (all_of S.Feed kept.old) }
    requires own { AreToldBySequence (all_of S.Feed kept.old) }
    ensures { (t : Contents) → HasPushed writer.old t → OnOk result (HasPushed writer.new (and_versions t (stripped (kept_of S.Feed kept.old)))) }
{
    let mut of_key = Vec::new(alloc);
    while let Some(version) = kept.next()? {
        push_unless(alloc, writer, &mut of_key, &version)?;
        of_key.push(version)?;
    }
    push_stripped(alloc, writer, &mut of_key)
}

/// Pushes all that is kept, as a table of the form keeps it.
pub(crate) fn write_in_form<S: Feed + Drop>(
    alloc: Global,
    form: Form,
    kept: &mut Kept<'_, S>,
    writer: &mut TableWriter,
) -> Result<(), NoMemory>
    requires form { writer.old.form ≡ form }
    requires fresh { Keeps S.Feed kept.old [] }
    requires stamps { All (λ v. IsStamp Persist v.ts.0) (all_of S.Feed kept.old) }
    requires sequences { All (λ v. IsSequence v.seq.0) (all_of S.Feed kept.old) }
    requires own { AreToldBySequence (all_of S.Feed kept.old) }
    ensures { (t : Contents) → HasPushed writer.old t → OnOk result (HasPushed writer.new (and_versions t (as_form form (kept_of S.Feed kept.old)))) }
{
    match form {
        Form::Persist => write_kept(alloc, kept, writer),
        Form::Strip => write_stripped(alloc, kept, writer),
    }
}
