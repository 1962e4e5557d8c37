//! Laws on scripts, on the rows that they print and on the nets that commands make, each the
//! contract of a function that does nothing.

ghost use Rattle.dn_script.specs.Terms.{BookImageIsRead, BooksStayFaithful, CommandHasTurn, DumpTellsTables, FaithfulImageGivesOwed, FirstTurnsAreFirst, LookupsAreGiven, OwedRowsAreNormal, ScriptHasTurns, TurnIsOne, TurnsAreOne};
ghost use Rattle.dn_tool.specs.Terms.{AbsorbIsReadBack, CompiledIsReadBack, SplitIsReadBack};

/// The book after each number of the turns of a script over a legal net is sound and faithful.
pub fn books_stay_faithful()
    ensures { BooksStayFaithful }
{}

/// A command that meets a sound book over a legal net has a turn.
pub fn command_has_turn()
    ensures { CommandHasTurn }
{}

/// A command that meets a sound book over a legal net has one turn at most.
pub fn turn_is_one()
    ensures { TurnIsOne }
{}

/// A script over a legal net has a list of turns.
pub fn script_has_turns()
    ensures { ScriptHasTurns }
{}

/// A script over a legal net has one list of turns at most: what it does to the device, and what is written, is
/// told by its net, its kinds and its commands.
pub fn turns_are_one()
    ensures { TurnsAreOne }
{}

/// The turns of the first commands of a script over a legal net are the first turns of the script.
pub fn first_turns_are_first()
    ensures { FirstTurnsAreFirst }
{}

/// In each schedule of a first part of the events of a script over a legal net, each lookup that has ended
/// has ended with names that a book owed its start at one moment of its life; and with exactly the names
/// that it was owed, where these were the same throughout.
pub fn lookups_are_given()
    ensures { LookupsAreGiven }
{}

/// The image of the tables of a sound and faithful book gives what the book owes.
pub fn faithful_image_gives_owed()
    ensures { FaithfulImageGivesOwed }
{}

/// The image of the tables of a sound book is bytes, and is read as these tables in version 2.
pub fn book_image_is_read()
    ensures { BookImageIsRead }
{}

/// Whatever bytes have the text that `dump` prints of a sound book, they are read as the tables of this book:
/// a dumped text determines the tables.
pub fn dump_tells_tables()
    ensures { DumpTellsTables }
{}

/// The rows that `view` prints for an agent are the normal rows of what its addresses resolve to under
/// the records of the book, where the book is faithful, as it is after each turn of a script.
pub fn owed_rows_are_normal()
    ensures { OwedRowsAreNormal }
{}

/// The net that splitting makes of a printable legal net is printable: its text, which `split`
/// prints below its heading, is read and expanded to that net where it is no longer than a text
/// may be, 4,194,304 bytes.
pub fn split_net_is_read_back()
    ensures { SplitIsReadBack }
{}

/// The net that absorbing a node of a printable legal net makes is printable: its text, which `absorb`
/// prints below its heading, is read and expanded to that net where it is no longer than a text may be,
/// 4,194,304 bytes.
pub fn absorbed_net_is_read_back()
    ensures { AbsorbIsReadBack }
{}

/// The net of a text that breaks no rule is read back so, and so is each net that `split` and
/// `absorb` make of it.
pub fn compiled_net_is_read_back()
    ensures { CompiledIsReadBack }
{}
