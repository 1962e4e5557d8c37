//! The logs of runs, played event by event with lookups between.

ghost use Rattle.dn_kind.specs.Terms.{AreKinds};
ghost use Rattle.dn_view.specs.Terms.{IsSystem};

use crate::failing::failing_calls;
use crate::tests::boards::{Board, text_of};
use crate::tests::flying::playing::{Act, begin, name, play_all, read};
use crate::tests::outcome::{answer_with, words_of};
use dn_flight::event::{Event, FlightFault};
use dn_kind::kinds::Kinds;
use dn_tool::run::DONE;
use dn_view::system::System;
use std::alloc::Global;
use std::process::Abort;

/// A buffer is granted to the engine, taken back, and another granted in its place.
pub(crate) const FOR_ENGINE: &str = "grant a dma dram 0x4000 0x1000;
revoke a;
grant b dma dram 0x6000 0x1000;
";

/// What is played for the card behind two units in a row.
pub(crate) const FOR_PHI: &str = "grant a phi dram 0x4000 0x1000;
revoke a;
grant b phi dram 0x6000 0x1000;
";

/// Plays the log of a run of commands for a board, which has so many events.
pub(crate) fn play_run(
    rt: &impl Abort,
    alloc: Global,
    system: System,
    kinds: &Kinds,
    run: (Board, &str, usize),
    acts: &[Act],
)
    requires system { IsSystem meaning system }
    requires kinds { AreKinds meaning kinds.now }
{
    let (board, commands, count) = run;
    assert!(rt; kinds.len() <= 255);
    let words = words_of(rt, alloc, &["run"]);
    let text = text_of(rt, alloc, board, commands);
    let none = failing_calls(&[]);
    let outcome = answer_with(rt, alloc, &words, kinds, text.as_bytes(), 4096, none);
    assert!(rt; outcome.status == DONE);
    let log = outcome.device.log();
    assert!(rt; log.len() == count);
    play_all(rt, alloc, system, log, acts);
}

/// Lookups before, inside and after a revoke, behind one unit. The log has five events: unit 5 is made, the first
/// buffer's record is put and cleared, and after a fence the second buffer's is put.
pub(crate) fn play_one_unit() -> [Act; 16] {
    let waits = FlightFault::NotQuiet { lookup: 2 };
    [
        Act::Logged(0),
        Act::Plays(begin(4, 0x10)),
        Act::Ends(0, None),
        Act::Logged(1),
        Act::Plays(begin(4, 0x10)),
        Act::Ends(1, Some(name(0, 0x4010))),
        Act::Plays(begin(4, 0x10)),
        Act::Logged(2),
        Act::At(2, name(5, 0x10)),
        Act::Refuses(Event::Fence, waits),
        Act::Ends(2, None),
        Act::Logged(3),
        Act::Plays(begin(4, 0x10)),
        Act::Logged(4),
        Act::Ends(3, Some(name(0, 0x6010))),
        Act::Began(4),
    ]
}

/// Lookups before, inside and after grants and a revoke, behind two units in a row. The log has nine events: units 5
/// and 7 are made; of the first buffer the record of unit 7 is put, then that of unit 5, and they are cleared from
/// unit 5 on; then come a fence and the records of the second buffer.
pub(crate) fn play_two_units() -> [Act; 30] {
    let waits = FlightFault::NotQuiet { lookup: 3 };
    [
        Act::Logged(0),
        Act::Logged(1),
        // Between its two writes a grant is not seen yet.
        Act::Plays(begin(4, 0x10)),
        Act::Logged(2),
        Act::Ends(0, None),
        Act::Plays(begin(4, 0x10)),
        Act::Logged(3),
        Act::Plays(read(1)),
        Act::At(1, name(7, 0x10)),
        Act::Ends(1, Some(name(0, 0x4010))),
        // A lookup past the record that a revoke clears first goes on, until the next one is cleared too.
        Act::Plays(begin(4, 0x10)),
        Act::Plays(begin(4, 0x10)),
        Act::Plays(read(2)),
        Act::Plays(read(3)),
        Act::Logged(4),
        Act::Plays(begin(4, 0x10)),
        Act::Ends(4, None),
        Act::Ends(2, Some(name(0, 0x4010))),
        Act::Logged(5),
        Act::Refuses(Event::Fence, waits),
        Act::Ends(3, None),
        // The second buffer.
        Act::Logged(6),
        Act::Logged(7),
        Act::Plays(begin(4, 0x10)),
        Act::Logged(8),
        Act::Plays(read(5)),
        Act::At(5, name(7, 0x10)),
        Act::Ends(5, Some(name(0, 0x6010))),
        Act::Began(6),
        Act::Plays(Event::Fence),
    ]
}
