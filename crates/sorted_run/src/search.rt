//! Look-ups in a list of versions in the stored order.
ghost use Rattle.std.specs.Prelude.{◌≡◌, ◌+◌, ◌≤◌, find, length, map, nat_le, option_map, not, true, false};
ghost use Rattle.std.specs.List.{AllWithin};
ghost use Rattle.std.specs.Option.{option_copied};
ghost use Rattle.std.specs.Str.{bytes_eq};
ghost use Rattle.ts_key.specs.Items.{items_of};
ghost use Rattle.ts_key.specs.Lists.{IsOrdered};
ghost use Rattle.ts_key.specs.Visible.{newest_ts};
ghost use Rattle.sorted_run.specs.Runs.{first_seen, has_key, has_key_below, sees as sees_version, stamps_of};

use ts_key::{Seq, Ts, Version};
use ts_lanes::first_at_most;

/// How many versions have a key below this one, found by halving.
pub fn count_below(versions: &[Version], key: &[u8]) -> usize
    requires { IsOrdered (items_of versions.now) }
    ensures bound { result ≤ length versions.now }
    ensures below { AllWithin (λ v. has_key_below key.now v ≡ true) versions.now 0 result }
    ensures from { AllWithin (λ v. has_key_below key.now v ≡ false) versions.now result (length versions.now) }
{
    versions.partition_point(|v| v.key.bytes().cmp(&key).is_lt())
}

/// Whether all keys are below this one, as told by the last.
fn ends_below(versions: &[Version], key: &[u8]) -> bool
    requires { IsOrdered (items_of versions.now) }
    ensures { result ≡ true → AllWithin (λ v. has_key_below key.now v ≡ true) versions.now 0 (length versions.now) }
{
    match versions.last() {
        None => true,
        Some(v) => v.key.bytes().cmp(&key).is_lt(),
    }
}

/// Whether no key is below this one, as told by the first.
fn starts_from(versions: &[Version], key: &[u8]) -> bool
    requires { IsOrdered (items_of versions.now) }
    ensures { result ≡ true → AllWithin (λ v. has_key_below key.now v ≡ false) versions.now 0 (length versions.now) }
{
    match versions.first() {
        None => true,
        Some(v) => v.key.bytes().cmp(&key).is_ge(),
    }
}

/// As `count_below`, where a guess is tried first: a comparison or two tell whether it is right.
pub fn count_below_near(versions: &[Version], guess: usize, key: &[u8]) -> usize
    requires { IsOrdered (items_of versions.now) }
    ensures bound { result ≤ length versions.now }
    ensures below { AllWithin (λ v. has_key_below key.now v ≡ true) versions.now 0 result }
    ensures from { AllWithin (λ v. has_key_below key.now v ≡ false) versions.now result (length versions.now) }
{
    if starts_from(versions, key) {
        return 0;
    }
    if guess > versions.len() {
        return count_below(versions, key);
    }
    let (front, back) = versions.split_at(guess);
    if !ends_below(front, key) {
        return count_below(versions, key);
    }
    if !starts_from(back, key) {
        return count_below(versions, key);
    }
    guess
}

/// How many versions of this key stand in front, where none has a key below it.
pub fn count_of_key(versions: &[Version], key: &[u8]) -> usize
    requires order { IsOrdered (items_of versions.now) }
    requires from { AllWithin (λ v. has_key_below key.now v ≡ false) versions.now 0 (length versions.now) }
    ensures bound { result ≤ length versions.now }
    ensures same { AllWithin (λ v. has_key key.now v ≡ true) versions.now 0 result }
    ensures other { AllWithin (λ v. has_key key.now v ≡ false) versions.now result (length versions.now) }
{
    versions.partition_point(|v| v.key.bytes() == key)
}

/// Whether a read of the key at this timestamp and this sequence may see the version.
fn sees(v: &Version, key: &[u8], t: Ts, s: Seq) -> bool
    ensures { result ≡ sees_version key.now t.0 s.0 v.now }
{
    v.key.bytes() == key && v.ts.0 <= t.0 && v.seq.0 <= s.0
}

/// Whether the version is of another key.
fn is_other(v: &Version, key: &[u8]) -> bool
    ensures { result ≡ not (has_key key.now v.now) }
{
    v.key.bytes() != key
}

/// The first version with a sequence up to `s`.
fn first_upto<'a>(versions: &'a [Version], s: Seq) -> Option<&'a Version>
    ensures { option_copied result ≡ find (λ v. nat_le v.seq.0 s.0) versions.now }
{
    versions.iter().find(|v| v.seq.0 <= s.0)
}

/// The first version that a read sees, of versions from its key on: by lanes over the timestamps of the key.
fn find_from<'a>(
    versions: &'a [Version],
    stamps: &[u64],
    key: &[u8],
    t: Ts,
    s: Seq,
) -> Option<&'a Version>
    requires order { IsOrdered (items_of versions.now) }
    requires from { AllWithin (λ v. has_key_below key.now v ≡ false) versions.now 0 (length versions.now) }
    requires stamps { stamps.now ≡ stamps_of versions.now }
    ensures { option_copied result ≡ first_seen versions.now key.now t.0 s.0 }
{
    let count = count_of_key(versions, key);
    let (of_key, _) = versions.split_at(count);
    let (stamps_of_key, _) = stamps.split_at(count);
    let at = first_at_most(stamps_of_key, t.0)?;
    let (_, upto_t) = of_key.split_at(at);
    first_upto(upto_t, s)
}

/// The first version that a read sees.
pub fn find_in<'a>(
    versions: &'a [Version],
    stamps: &[u64],
    guess: usize,
    key: &[u8],
    t: Ts,
    s: Seq,
) -> Option<&'a Version>
    requires order { IsOrdered (items_of versions.now) }
    requires stamps { stamps.now ≡ stamps_of versions.now }
    ensures { option_copied result ≡ first_seen versions.now key.now t.0 s.0 }
{
    let (_, from_key) = versions.split_at(count_below_near(versions, guess, key));
    let first = from_key.first()?;
    if is_other(first, key) {
        return None;
    }
    if sees(first, key, t, s) {
        return Some(first);
    }
    let (_, stamps_from_key) = stamps.split_at(versions.len() - from_key.len());
    find_from(from_key, stamps_from_key, key, t, s)
}

/// The greatest timestamp of the key's versions.
pub fn newest_in(versions: &[Version], guess: usize, key: &[u8]) -> Option<Ts>
    requires { IsOrdered (items_of versions.now) }
    ensures { option_map (λ ts. ts.0) result ≡ newest_ts (items_of versions.now) key.now }
{
    let (_, from_key) = versions.split_at(count_below_near(versions, guess, key));
    let first = from_key.first()?;
    if first.key.bytes() == key {
        Some(first.ts)
    } else {
        None
    }
}
