//! Versions that are taken one by one.
ghost use Rattle.std.specs.Prelude.{List};
ghost use Rattle.ts_key.specs.declared.version.Version.{Version as VersionOf};
ghost use Rattle.history_gc.specs.Pushed.{AreInOrder};
ghost use Rattle.flush_job.specs.Feeds.{Takes};

use crate::NoMemory;
use ts_key::Version;

/// Versions of one family that are taken one by one, each behind those before it in the stored order.
pub trait Feed {
    /// Those that were taken, in their order.
    ghost taken: { Self → List VersionOf };

    /// Those that are still to be taken.
    ghost coming: { Self → List VersionOf };

    /// Takes the next version; `None` where there is none. Where it answers `NoMemory` none is taken.
    fn next(&mut self) -> Result<Option<Version>, NoMemory>
        ensures { Takes taken coming self.old self.new result };

    ghost in_order: { (s : Self) → AreInOrder (taken s) };
}
