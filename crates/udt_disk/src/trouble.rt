//! Calls that are made to fail.

ghost use Rattle.std.specs.Prelude.{◌≡◌, map};
ghost use Rattle.std.specs.List.{list_any};
ghost use Rattle.udt_disk.specs.Troubles.{is_due, counted_by};

use crate::FileName;

/// Makes a call on a folder in memory fail: the one with the number `call`, counted from 1, of those that name or use the
/// file of the name. A lasting one makes every later of these calls fail too. Giving a file back is none of them.
#[derive(Clone, Copy, Debug, PartialEq, Eq)]
pub struct Trouble {
    pub name: FileName,
    pub call: u64,
    pub lasting: bool,
}

/// Counts a call on the file of the name, and answers whether it is to fail.
pub(crate) fn count_call(troubles: &mut [Trouble], name: FileName) -> bool
    ensures due { result ≡ list_any (is_due name) troubles.old }
    ensures counted { troubles.new ≡ map (counted_by name 1) troubles.old }
{
    let fails = is_any_due(troubles, name);
    count_calls(troubles, name, 1);
    fails
}

fn is_any_due(troubles: &[Trouble], name: FileName) -> bool
    ensures { result ≡ list_any (is_due name) troubles.now }
{
    troubles.iter().any(|trouble| {
        trouble.name == name && (trouble.call == 1 || trouble.lasting && trouble.call == 0)
    })
}

/// Counts as many calls on the file of the name.
pub(crate) fn count_calls(troubles: &mut [Trouble], name: FileName, calls: u64)
    ensures { troubles.new ≡ map (counted_by name calls) troubles.old }
{
    for trouble in troubles.iter_mut() {
        *trouble = counted(*trouble, name, calls);
    }
}

fn counted(trouble: Trouble, name: FileName, calls: u64) -> Trouble
    ensures { result ≡ counted_by name calls trouble }
{
    if trouble.name != name {
        return trouble;
    }
    Trouble {
        call: trouble.call.saturating_sub(calls),
        ..trouble
    }
}
