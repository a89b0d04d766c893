//! Laws of opened folders, and the grammar of their tables.

ghost use Rattle.engine_laws.specs.Standing.{IsOneSaid};
ghost use Rattle.recovery.specs.Laws.{NoneRefused, OneRefusal, OpenedHolds, OpenedReads};
ghost use Rattle.recovery.specs.Tables.{ReadsAsTable};

use engine_laws::grammar::TableGrammar;

/// The grammar of tables by which folders are opened.
pub struct BlockTables;

impl TableGrammar for BlockTables {
    ghost use Rattle.recovery.specs.Tables.{ReadsAsTable};

    ghost spells = { ReadsAsTable };
}

/// What was opened is what the files of the folder say, and each state that the folder stands for is held. Bytes say one thing as a
/// table.
pub fn opened_folders_hold()
    ensures reads { OpenedReads }
    ensures holds { OpenedHolds }
    ensures one { IsOneSaid ReadsAsTable }
{}

/// A folder that stands for a state is refused by nothing but the disk and memory.
pub fn standing_folders_open()
    ensures { NoneRefused }
{}

/// A folder is refused in one way at most.
pub fn refusals_are_single()
    ensures { OneRefusal }
{}
