//! The scan of a range.
ghost use Rattle.std.specs.Prelude.{◌≡◌, ◌+◌, ◌<◌, ◌≤◌, [], ◌∷◌, length, reverse, slice_get, IfErr, IfOk, MatchOption, MatchResult, Some};
ghost use Rattle.std.specs.Option.{option_copied};
ghost use Rattle.ts_key.specs.Lists.{below, stored_items};
ghost use Rattle.super_version.specs.declared.family.FamilyState.{FamilyState as StateOf};
ghost use Rattle.super_version.specs.Contents.{items_of_family, versions_in};
ghost use Rattle.udt_model.specs.Scans.{rows_of};
ghost use Rattle.ts_iterator.specs.Rests.{in_order_of, rest, rest_of};
ghost use Rattle.ts_iterator.specs.Rows.{least_key, range_rows};
ghost use Rattle.ts_iterator.specs.Sources.{runs_and_tables, source_walk_place, walked_sources};
ghost use Rattle.ts_iterator.specs.Walks.{IsLastBelow};

use crate::NoMemory;
use crate::down::Down;
use crate::rows::bound;
use crate::source::Source;
use crate::sources::sources_of;
use crate::up::Up;
use merge_cursor::{Cursor, Merge};
use std::alloc::{AllocError, Global};
use super_version::{FamilyState, SuperVersion};
use ts_key::{Family, Key, KeyRef, Seq, Ts};
use udt_model::Row;

/// Why there is no scan.
#[derive(Clone, Copy, Debug, PartialEq, Eq)]
pub enum ScanFault {
    /// The scan is below the floor.
    Collapsed { floor: Ts },
    /// Memory ran out.
    NoMemory,
}

impl From<AllocError> for ScanFault {
    ghost use Rattle.ts_iterator.specs.declared.scan.ScanFault.{ScanFault};

    ghost from_gives = { λ _ fault. fault ≡ ScanFault.NoMemory };

    fn from(_: AllocError) -> ScanFault {
        ScanFault::NoMemory
    }
}

/// A walk over all versions of a family.
type Walk<'a> = Merge<Source<'a>>;

/// A scan in one of the two directions.
#[derive(Drop)]
enum Way<'a> {
    Up(Up<'a, Walk<'a>>),
    Down(Down<'a, Walk<'a>>),
}

/// The rows of a range of keys at a timestamp, given one by one.
#[derive(Drop)]
pub struct Scan<'a> {
    alloc: Global,
    way: Way<'a>,
}

/// A walk at the first version of the range that a read may see.
fn walk_up<'a>(
    alloc: Global,
    state: &'a FamilyState,
    low: Option<&Key>,
    t: Ts,
    s: Seq,
) -> Result<Walk<'a>, NoMemory>
    ensures walked { IfOk result (λ walk. walked_sources walk.children.items ≡ stored_items (runs_and_tables state.now)) }
    ensures place { IfOk result (λ walk. source_walk_place walk.before walk.children.items
        ≡ below (record { key = least_key (option_copied low.entry); ts = t.0; seq = s.0 }) (stored_items (runs_and_tables state.now)) + 1) }
{
    let key: &[u8] = match low {
        None => &[],
        Some(low) => low.bytes(),
    };
    let sources = sources_of(alloc, state)?;
    Ok(Merge::seeking(sources, &KeyRef { key, ts: t, seq: s }))
}

/// A walk at the last version of the range.
fn walk_down<'a>(
    alloc: Global,
    state: &'a FamilyState,
    high: Option<&Key>,
) -> Result<Walk<'a>, NoMemory>
    ensures walked { IfOk result (λ walk. walked_sources walk.children.items ≡ stored_items (runs_and_tables state.now)) }
    ensures place { IfOk result (λ walk. IsLastBelow (option_copied high.entry) (source_walk_place walk.before walk.children.items) (stored_items (runs_and_tables state.now))) }
{
    let key: &[u8] = match high {
        None => &[],
        Some(high) => high.bytes(),
    };
    let top = KeyRef {
        key,
        ts: Ts(u64::MAX),
        seq: Seq(u64::MAX),
    };
    let mut walk = Merge::seeking(sources_of(alloc, state)?, &top);
    if high.is_none() {
        walk.seek_end();
    }
    walk.prev();
    Ok(walk)
}

/// The rows of the range in the order of their keys.
fn upwards<'a>(
    alloc: Global,
    state: &'a FamilyState,
    low: Option<&Key>,
    high: Option<&Key>,
    t: Ts,
    s: Seq,
) -> Result<Way<'a>, NoMemory>
    ensures { IfOk result (λ way. rest_of way
        ≡ range_rows (items_of_family state.now) state.now.floor (least_key (option_copied low.entry)) (option_copied high.entry) t.0 s.0) }
{
    let walk = walk_up(alloc, state, low, t, s)?;
    let up = Up::new(walk, bound(high)?, state.floor, t, s);
    Ok(Way::Up(up))
}

/// The rows of the range, the greatest key first.
fn downwards<'a>(
    alloc: Global,
    state: &'a FamilyState,
    low: Option<&Key>,
    high: Option<&Key>,
    t: Ts,
    s: Seq,
) -> Result<Way<'a>, NoMemory>
    ensures { IfOk result (λ way. rest_of way
        ≡ reverse (range_rows (items_of_family state.now) state.now.floor (least_key (option_copied low.entry)) (option_copied high.entry) t.0 s.0)) }
{
    let walk = walk_down(alloc, state, high)?;
    let (low, high) = (bound(low)?, bound(high)?);
    let down = Down::new(walk, low, high, state.floor, t, s);
    Ok(Way::Down(down))
}

/// The rows of the range in one of the two orders.
fn way_of<'a>(
    alloc: Global,
    state: &'a FamilyState,
    low: Option<&Key>,
    high: Option<&Key>,
    t: Ts,
    s: Seq,
    forward: bool,
) -> Result<Way<'a>, NoMemory>
    ensures { IfOk result (λ way. rest_of way ≡ in_order_of forward
        (range_rows (items_of_family state.now) state.now.floor (least_key (option_copied low.entry)) (option_copied high.entry) t.0 s.0)) }
{
    if forward {
        return upwards(alloc, state, low, high, t, s);
    }
    downwards(alloc, state, low, high, t, s)
}

impl<'a> Scan<'a> {
    /// The scan of the keys from `low` on and below `high` at `t`, which sees sequences up to `s`, over all versions of the
    /// family. A bound that is missing bounds nothing. With `forward` the rows come in the order of their keys, else the
    /// greatest key first. `Collapsed` comes exactly where `t` is below the family's floor.
    pub fn new(
        alloc: Global,
        now: &'a SuperVersion,
        family: Family,
        low: Option<&Key>,
        high: Option<&Key>,
        t: Ts,
        s: Seq,
        forward: bool,
    ) -> Result<Scan<'a>, ScanFault>
        requires { family.0 < length now.now.families }
        ensures rows { (f : StateOf) → slice_get now.now.families family.0 ≡ Some f
            → IfOk result (λ scan. rest scan ≡ in_order_of forward
            (rows_of (versions_in family f) f.floor family (record { low = option_copied low.entry; high = option_copied high.entry }) t s)) }
        ensures collapsed { (f : StateOf) → slice_get now.now.families family.0 ≡ Some f
            → t.0 < f.floor.0 → result ≡ Err (ScanFault.Collapsed f.floor) }
        ensures served { (f : StateOf) → slice_get now.now.families family.0 ≡ Some f
            → f.floor.0 ≤ t.0 → IfErr result (λ fault. fault ≡ ScanFault.NoMemory) }
    {
        let Some(state) = now.family(family) else {
            unreachable!();
        };
        if t.0 < state.floor.0 {
            return Err(ScanFault::Collapsed { floor: state.floor });
        }
        let way = way_of(alloc, state, low, high, t, s, forward)?;
        Ok(Scan { alloc, way })
    }

    /// The next row; `None` where there is none, and then at every later call too. Where it answers `NoMemory` the same row is
    /// still to come.
    pub fn next(&mut self) -> Result<Option<Row>, NoMemory>
        ensures { MatchResult result
            (λ found. MatchOption found
            ((rest self.old ≡ []) × (rest self.new ≡ []))
            (λ row. rest self.old ≡ row ∷ rest self.new))
            (λ _. rest self.new ≡ rest self.old) }
    {
        let alloc = self.alloc;
        match &mut self.way {
            Way::Up(up) => up.next(alloc),
            Way::Down(down) => down.next(alloc),
        }
    }
}
