//! The names of the files of a folder.

/// The name of a file in a folder.
#[derive(Clone, Copy, Debug, PartialEq, Eq)]
pub enum FileName {
    /// `MANIFEST-0`
    Manifest0,
    /// `MANIFEST-1`
    Manifest1,
    /// `CURRENT`
    Current,
    /// `MADE`
    Made,
    /// `N.log`, of the log with this number.
    Log(u64),
    /// `N.table`, of the table with this number.
    Table(u64),
}

impl FileName {
    ghost use Rattle.std.specs.Prelude.{◌≡◌};
    ghost use Rattle.udt_disk.specs.Names.{number_of};

    /// The number by which the name is looked up. Few names share one.
    pub(crate) fn number(self) -> u64
        ensures { result ≡ number_of self }
    {
        match self {
            FileName::Manifest0 => 0,
            FileName::Manifest1 => 1,
            FileName::Current => 2,
            FileName::Made => 3,
            FileName::Log(number) | FileName::Table(number) => number,
        }
    }
}
