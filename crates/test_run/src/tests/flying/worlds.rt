//! What a world refuses, behind one unit: the engine `dma` is node 4, its unit node 5, the last node.

use crate::tests::flying::playing::{Act, begin, name, read, write};
use dn_flight::event::{Event, FlightFault};
use dn_kind::rights::Access;

/// Nodes, words and lookups that are not there.
pub fn refuse_what_is_not_there() -> [Act; 11] {
    let unknown = FlightFault::NoLookup { lookup: 0 };
    [
        Act::Refuses(begin(5, 0), FlightFault::NoAgent),
        Act::Refuses(begin(6, 0), FlightFault::NoAgent),
        Act::Refuses(read(0), unknown),
        // The last word of the unit, and one past it; a node that is no unit, and one that is not there.
        Act::Plays(write(5, 15, u64::MAX)),
        Act::Refuses(write(5, 16, 0), FlightFault::NoWord),
        Act::Refuses(write(4, 0, 0), FlightFault::NoWord),
        Act::Refuses(write(6, 0, 0), FlightFault::NoWord),
        Act::Word(5, 15, Some(u64::MAX)),
        Act::Word(5, 16, None),
        Act::Word(4, 0, None),
        Act::Began(0),
    ]
}

/// A fence tells the first lookup in flight, whichever began or ended before it.
pub fn refuse_by_the_first_in_flight() -> [Act; 13] {
    let second = FlightFault::NotQuiet { lookup: 1 };
    let fourth = FlightFault::NotQuiet { lookup: 3 };
    [
        // A core reaches the memory through no unit: its lookup has ended when it began.
        Act::Plays(begin(3, 0x8000_0000)),
        Act::Ended(0, Some(name(0, 0))),
        Act::Plays(Event::Fence),
        Act::Plays(begin(4, 0)),
        Act::Plays(begin(4, 0x1000)),
        Act::Plays(begin(4, 0x2000)),
        Act::Refuses(Event::Fence, second),
        Act::Plays(read(2)),
        Act::Refuses(Event::Fence, second),
        Act::Plays(read(1)),
        Act::Refuses(Event::Fence, fourth),
        Act::Plays(read(3)),
        Act::Plays(Event::Fence),
    ]
}

/// A record that allows reading alone lets a lookup through that is to read.
pub fn ask_for_rights() -> [Act; 8] {
    let writing = Event::Begin {
        agent: 4,
        addr: 0x10,
        access: Access::Write,
    };
    [
        Act::Plays(write(5, 0, 0x8000421)),
        Act::Plays(begin(4, 0x10)),
        Act::Plays(writing),
        Act::At(1, name(5, 0x10)),
        Act::Plays(read(0)),
        Act::Plays(read(1)),
        Act::Ended(0, Some(name(0, 0x4010))),
        Act::Ended(1, None),
    ]
}

/// 65,536 lookups begin, at an agent that reaches nothing there, and no more.
pub fn begin_too_many() -> [Act; 5] {
    [
        Act::Fills(3, 0),
        Act::Refuses(begin(4, 0), FlightFault::Many),
        Act::Refuses(begin(2, 0), FlightFault::NoAgent),
        Act::Plays(Event::Fence),
        Act::Began(65_536),
    ]
}
