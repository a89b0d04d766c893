//! What flushes make.
ghost use Rattle.std.specs.Prelude.{◌≡◌, ◌≤◌, length, map, nat_le, nat_lt, not, position, IfOk, OnOk, OnErr};
ghost use Rattle.std.specs.List.{list_any, position_or_len};
ghost use Rattle.udt_model.specs.Collecting.{collect_all, stripped as without_timestamps, without_ts};
ghost use Rattle.udt_model.specs.Jobs.{floor_over as floor_left, in_form as as_form};
ghost use Rattle.udt_model.specs.Orders.{span_of_key};
ghost use Rattle.udt_model.specs.State.{changed_at, with_table, with_tables};
ghost use Rattle.udt_model.specs.Steps.{flushed};

use crate::parts::{CoreFamily, CoreTable};
use collection_laws::{in_order, plain_collect};
use std::alloc::{AllocError, Global};
use strip::cutoff;
use ts_key::{Family, Form, NoMemory, Seq, Ts, Version};
use udt_model::KeySpan;

/// The spans of the versions' keys.
fn key_spans(alloc: Global, versions: &[Version]) -> Result<Vec<KeySpan>, NoMemory>
    ensures { IfOk result (λ spans. spans.items ≡ map (λ v. span_of_key v.key) versions.now) }
{
    let mut spans = Vec::new(alloc);
    for v in versions {
        spans.push(KeySpan {
            low: v.key.copy()?,
            high: v.key.copy()?,
        })?;
    }
    Ok(spans)
}

/// What a flush keeps of the versions that it takes: every key may have versions deeper, so no delete is taken out.
fn collect_for_flush(
    alloc: Global,
    versions: &[Version],
    floor: Ts,
    seqs: &[Seq],
) -> Result<Vec<Version>, NoMemory>
    ensures { IfOk result (λ kept. kept.items ≡ collect_all versions.now floor seqs.now) }
{
    let spans = key_spans(alloc, versions)?;
    let kept = plain_collect(alloc, versions, floor, seqs, &spans)?;
    Ok(kept)
}

/// Sets each timestamp to 0.
fn clear_timestamps(versions: &mut Vec<Version>)
    ensures { versions.new.items ≡ map without_ts versions.old.items }
{
    for i in 0..versions.len() {
        versions[i].ts = Ts(0);
    }
}

/// The versions as a table of the form keeps them.
fn in_form(alloc: Global, form: Form, versions: Vec<Version>) -> Result<Vec<Version>, NoMemory>
    ensures { IfOk result (λ kept. kept.items ≡ as_form form versions.items) }
{
    match form {
        Form::Persist => Ok(versions),
        Form::Strip => {
            let mut versions = versions;
            clear_timestamps(&mut versions);
            in_order(alloc, versions)
        }
    }
}

/// The versions of the table that a flush makes of those that it takes.
pub(crate) fn flush_versions(
    alloc: Global,
    form: Form,
    taken: &[Version],
    floor: Ts,
    seqs: &[Seq],
) -> Result<Vec<Version>, NoMemory>
    ensures { IfOk result (λ kept. kept.items ≡ as_form form (collect_all taken.now floor seqs.now)) }
{
    let kept = collect_for_flush(alloc, taken, floor, seqs)?;
    in_form(alloc, form, kept)
}

/// Whether a version has the greatest timestamp, above which there is no floor.
fn has_greatest(versions: &[Version]) -> bool
    ensures { result ≡ list_any (λ v. nat_le u64.MAX v.ts.0) versions.now }
{
    versions.iter().any(|v| v.ts.0 >= u64::MAX)
}

/// The floor that a flush of these versions leaves; `NoMemory` where one of them has the greatest timestamp, which no write gives.
pub(crate) fn floor_over(form: Form, floor: Ts, taken: &[Version]) -> Result<Ts, NoMemory>
    ensures { IfOk result (λ left. left ≡ floor_left form floor taken.now) }
{
    match form {
        Form::Persist => Ok(floor),
        Form::Strip => {
            if has_greatest(taken) {
                return Err(AllocError);
            }
            Ok(Ts(floor.0.max(cutoff(taken).0)))
        }
    }
}

/// The place of the first table whose number isn't below that of this one.
fn first_from(tables: &[CoreTable], table: &CoreTable) -> Option<usize>
    ensures { result ≡ position (λ o. not (nat_lt o.number table.now.number)) tables.now }
{
    let number = table.number;
    tables.iter().position(|o| !(o.number < number))
}

/// The same, or behind the last.
fn place_from(tables: &[CoreTable], table: &CoreTable) -> usize
    ensures place { result ≡ position_or_len (λ o. not (nat_lt o.number table.now.number)) tables.now }
    ensures within { result ≤ length tables.now }
{
    match first_from(tables, table) {
        Some(place) => place,
        None => tables.len(),
    }
}

/// Puts a table where its number belongs. Where there is no memory for it, nothing changes.
fn join(tables: &mut Vec<CoreTable>, table: CoreTable) -> Result<(), NoMemory>
    ensures ok { OnOk result (tables.new.items ≡ with_table table tables.old.items) }
    ensures err { OnErr result (tables.new.items ≡ tables.old.items) }
{
    let place = place_from(tables.as_slice(), &table);
    tables.insert(place, table)?;
    Ok(())
}

/// The tables with those of another list, each where its number belongs.
pub(crate) fn join_all(
    tables: Vec<CoreTable>,
    new: Vec<CoreTable>,
) -> Result<Vec<CoreTable>, NoMemory>
    ensures { IfOk result (λ joined. joined.items ≡ with_tables new.items tables.items) }
{
    let mut tables = tables;
    let mut rest = new;
    while let Some(table) = rest.pop() {
        join(&mut tables, table)?;
    }
    Ok(tables)
}

/// The table of a flush joins its family, with the sequence up to which the family's versions are in tables and its floor.
/// Where there is no memory for it, nothing changes.
pub(crate) fn add_flushed(
    families: &mut Vec<CoreFamily>,
    family: Family,
    table: CoreTable,
    through: Seq,
    floor: Ts,
) -> Result<(), NoMemory>
    ensures ok { OnOk result (families.new.items ≡ changed_at family.0 (flushed table through floor) families.old.items) }
    ensures err { OnErr result (families.new.items ≡ families.old.items) }
    ensures count { length families.new.items ≡ length families.old.items }
{
    let place = family.0 as usize;
    if place >= families.len() {
        return Ok(());
    }
    let f = &mut families[place];
    join(&mut f.tables, table)?;
    f.through = through;
    f.floor = floor;
    Ok(())
}
