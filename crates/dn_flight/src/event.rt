//! What may happen to a world, and why it is refused.

use dn_kind::rights::Access;
use thiserror::Error;

/// What happens to a world.
#[derive(Clone, Copy, Debug, PartialEq, Eq)]
pub enum Event {
    /// A lookup of an agent's address begins, for an access.
    Begin {
        agent: u16,
        addr: u64,
        access: Access,
    },
    /// The lookup of a number reads the record of the slot at which it stands, whole. Lookups are
    /// numbered from 0 in the order in which they began.
    Read {
        lookup: u32,
    },
    /// A word of a unit is set to a value. The words of slot `q` are those from `q * width` on, where
    /// `width` is the number of words of a record.
    Write {
        unit: u16,
        word: u32,
        value: u64,
    },
    /// A fence: it waits until no lookup is in flight.
    Fence,
}

/// Why an event is refused.
#[derive(Clone, Copy, Debug, PartialEq, Eq, Error)]
#[error("{:?}", self)]
pub enum FlightFault {
    /// A lookup was to begin at a node that is none, or no agent.
    NoAgent,
    /// A lookup was to begin where 65,536 began before.
    Many,
    /// No lookup of the number began, or it has ended.
    NoLookup { lookup: u32 },
    /// The node is none or no unit, or has not the word.
    NoWord,
    /// A fence was to be where lookups are in flight, of which this is the first.
    NotQuiet { lookup: u32 },
    /// There was no memory for the lookup.
    OutOfMemory,
}
