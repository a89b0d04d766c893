//! The trait of files.

ghost use Rattle.std.specs.Prelude.{◌≡◌, ◌+◌, ◌-◌, ◌^◌, ◌≤◌, ℕ, Bool, List, length, take, drop, Some, IsTrue, IfOk, OnOk, OnErr};
ghost use Rattle.udt_disk.specs.declared.name.FileName.{FileName as NameOf};
ghost use Rattle.udt_disk.specs.Causes.{HasCause};
ghost use Rattle.udt_disk.specs.Bytes.{overwritten, Torn};
ghost use Rattle.udt_disk.specs.Crash.{Image, Tears, ComeBy, NoMore, Only, Elapses};

use crate::Failed;

/// A file of a folder that somebody holds. Whoever took it from a disk gives it back by `Disk::retire`.
///
/// It has a model of crashes, which it keeps or doesn't, and no call changes that. Between two syncs each written range and
/// the part past the old end may hold any bytes after a crash, also after a write that failed. Other bytes stay. After a
/// sync that answered `Ok` a crash leaves what a read gives.
pub trait DiskFile: Send {
    /// The name by which it was asked for.
    ghost name: { Self → NameOf };

    /// How often it has failed since it was given out. The count ends at 2^64 - 1.
    ghost faults: { Self → ℕ };

    /// It tells what it holds. A file of the operating system doesn't.
    ghost is_told: { Self → Bool };

    /// What a read gives, where it is told.
    ghost seen: { Self → List ℕ };

    /// It keeps the model of crashes.
    ghost keeps_model: { Self → Bool };

    /// What a crash at this moment may leave. A file that doesn't keep the model names nothing.
    ghost may_leave: { Self → Image → Type 0 };

    /// The moment, as a number that doesn't fall. The file counts its own calls.
    ghost moment: { Self → ℕ };

    /// What a crash at some moment from that one on might have left, during a call or between two.
    ghost left_since: { Self → ℕ → Image → Type 0 };

    /// How many bytes the file has.
    fn len(&mut self) -> Result<u64, Failed>
        ensures len { IfOk result (λ n. IsTrue (is_told self.old) → n ≡ length (seen self.old)) }
        ensures seen { seen self.new ≡ seen self.old }
        ensures crash { NoMore (may_leave self.old) (may_leave self.new) }
        ensures time { Elapses (moment self.old) (moment self.new) (left_since self.old) (left_since self.new) (may_leave self.new) }
        ensures cause { HasCause (faults self.old) (faults self.new) result }
        ensures name { name self.new ≡ name self.old }
        ensures told { is_told self.new ≡ is_told self.old }
        ensures model { keeps_model self.new ≡ keeps_model self.old };

    /// Reads the bytes from the offset on to the front of `into`, and answers how many. They are fewer than asked for only
    /// where the file ends.
    fn read_at(&mut self, at: u64, into: &mut [u8]) -> Result<usize, Failed>
        ensures bound { IfOk result (λ n. n ≤ length into.old) }
        ensures read { IfOk result (λ n. IsTrue (is_told self.old) → take n into.new ≡ take (length into.old) (drop at (seen self.old))) }
        ensures seen { seen self.new ≡ seen self.old }
        ensures crash { NoMore (may_leave self.old) (may_leave self.new) }
        ensures time { Elapses (moment self.old) (moment self.new) (left_since self.old) (left_since self.new) (may_leave self.new) }
        ensures cause { HasCause (faults self.old) (faults self.new) result }
        ensures name { name self.new ≡ name self.old }
        ensures told { is_told self.new ≡ is_told self.old }
        ensures model { keeps_model self.new ≡ keeps_model self.old };

    /// Writes over what is there, and past the end. Until a sync a crash may leave any bytes in the range. A write that
    /// fails may have written some of the range, and nothing else. `Ok` comes only where the range ends by 2^64 - 1.
    fn write_at(&mut self, at: u64, bytes: &[u8]) -> Result<(), Failed>
        requires { IsTrue (is_told self.old) → at ≤ length (seen self.old) }
        ensures fits { OnOk result (at + length bytes.now ≤ 2 ^ 64 - 1) }
        ensures written { OnOk result (IsTrue (is_told self.old) → seen self.new ≡ overwritten (seen self.old) at bytes.now) }
        ensures torn { OnErr result (IsTrue (is_told self.old) → Torn at (length bytes.now) (seen self.old) (seen self.new)) }
        ensures crash { ComeBy (Tears at (length bytes.now)) (may_leave self.old) (may_leave self.new) }
        ensures time { Elapses (moment self.old) (moment self.new) (left_since self.old) (left_since self.new) (may_leave self.new) }
        ensures cause { HasCause (faults self.old) (faults self.new) result }
        ensures name { name self.new ≡ name self.old }
        ensures told { is_told self.new ≡ is_told self.old }
        ensures model { keeps_model self.new ≡ keeps_model self.old };

    /// Makes what was written last: after `Ok` a crash leaves what a read gives, and the file isn't missing.
    fn sync(&mut self) -> Result<(), Failed>
        ensures durable { OnOk result (Only (seen self.old) (may_leave self.new)) }
        ensures seen { seen self.new ≡ seen self.old }
        ensures crash { NoMore (may_leave self.old) (may_leave self.new) }
        ensures time { Elapses (moment self.old) (moment self.new) (left_since self.old) (left_since self.new) (may_leave self.new) }
        ensures cause { HasCause (faults self.old) (faults self.new) result }
        ensures name { name self.new ≡ name self.old }
        ensures told { is_told self.new ≡ is_told self.old }
        ensures model { keeps_model self.new ≡ keeps_model self.old };

    /// A file that keeps the model tells what it holds.
    ghost model_tells: { (file : Self) → IsTrue (keeps_model file) → IsTrue (is_told file) };

    /// What reads give now is one of the images that a crash may leave now.
    ghost now_stays: { (file : Self) → IsTrue (keeps_model file) → may_leave file (Some (seen file)) };

    /// This moment is one of those since an earlier one.
    ghost counts_now: { (file : Self) (t : ℕ) (c : Image) → t ≤ moment file → may_leave file c → left_since file t c };

    /// Since this moment there is no other.
    ghost only_now: { (file : Self) (c : Image) → left_since file (moment file) c → may_leave file c };
}
