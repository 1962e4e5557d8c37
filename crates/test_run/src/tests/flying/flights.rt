//! Worked events: where each lookup stands after them. The engine `dma` is node 4 and its unit node 5; the card
//! `phi` is node 4, and its units are nodes 5 and 7.

use crate::tests::flying::playing::{Act, begin, name, read, write};
use dn_flight::event::{Event, FlightFault};

/// A record is put, then a lookup begins, and reads it.
pub fn put_before_a_lookup() -> [Act; 11] {
    let first = FlightFault::NotQuiet { lookup: 0 };
    let ended = FlightFault::NoLookup { lookup: 0 };
    [
        Act::Plays(write(5, 0, 0x8000401)),
        Act::Plays(begin(4, 0x10)),
        Act::At(0, name(5, 0x10)),
        Act::Refuses(Event::Fence, first),
        Act::Ends(0, Some(name(0, 0x4010))),
        Act::Refuses(read(0), ended),
        Act::Plays(Event::Fence),
        Act::Refuses(write(5, 16, 1), FlightFault::NoWord),
        Act::Refuses(begin(2, 0), FlightFault::NoAgent),
        Act::Ended(0, Some(name(0, 0x4010))),
        Act::Began(1),
    ]
}

/// A record is cleared after a lookup began and before it reads.
pub fn clear_before_a_read() -> [Act; 5] {
    [
        Act::Plays(write(5, 0, 0x8000401)),
        Act::Plays(begin(4, 0x10)),
        Act::Plays(write(5, 0, 0)),
        Act::Ends(0, None),
        Act::Plays(Event::Fence),
    ]
}

/// A lookup goes through two units; the record of the second is written anew while it stands there.
pub fn follow_two_units() -> [Act; 10] {
    let first = FlightFault::NotQuiet { lookup: 0 };
    [
        Act::Plays(write(7, 0, 0x8000401)),
        Act::Plays(write(5, 0, 1)),
        Act::Plays(begin(4, 0x10)),
        Act::At(0, name(5, 0x10)),
        Act::Plays(read(0)),
        Act::At(0, name(7, 0x10)),
        Act::Plays(write(7, 0, 0)),
        Act::Refuses(Event::Fence, first),
        Act::Plays(write(7, 0, 0x8000601)),
        Act::Ends(0, Some(name(0, 0x6010))),
    ]
}
