//! The lookups of a world, with how many of them are in flight.

ghost use Rattle.std.specs.Prelude.{◌≡◌, ◌<◌, ◌≤◌, ◌++◌, [], ◌∷◌, false, length, position, take, slice_get, Some, IfSome, IsNone, OnOk, OnErr, IsTrue};
ghost use Rattle.std.specs.List.{list_all};
ghost use Rattle.dn_flight.specs.Terms.{IsFlightAt, has_landed, is_flying, is_in_flight, lookup_limit, one_if, with_state};

use crate::OutOfMemory;
use crate::lookup::{LookState, Lookup};
use dn_base::items::Items;
use dn_kind::rights::Access;
use dn_net::node::Name;
use std::alloc::Global;
use std::marker::Model;

/// The lookups that began so far, at most 65,536, in the order in which they began. Contracts see the list.
#[derive(Drop)]
pub(crate) struct Flights {
    lookups: Items<Lookup>,
    /// How many of them are in flight.
    flying: usize,
    /// A place before which none is in flight. It only rises.
    first: usize,
}

impl Model for Flights {
    ghost use Rattle.std.specs.Prelude.{List};
    ghost use Rattle.dn_flight.specs.declared.lookup.Lookup.{Lookup};
    ghost use Rattle.dn_flight.specs.Counted.{AreCounted};

    ghost Value = { List Lookup };

    ghost view = { λ s. s.lookups };

    ghost invariant = { λ s. AreCounted s.lookups s.flying s.first };
}

/// A lookup in flight: where it stands, and for which access it is.
#[derive(Clone, Copy)]
pub(crate) struct Flight {
    pub(crate) name: Name,
    pub(crate) access: Access,
}

impl Flights {
    /// No lookups. It takes no memory.
    pub(crate) fn new(alloc: Global) -> Flights
        ensures { result ≡ [] }
    {
        Flights {
            lookups: Items::new(alloc),
            flying: 0,
            first: 0,
        }
    }

    /// How many lookups began so far.
    pub(crate) fn len(&self) -> usize
        ensures { result ≡ length self.now }
    {
        self.lookups.as_slice().len()
    }

    /// The lookups, in the order in which they began.
    pub(crate) fn as_slice(&self) -> &[Lookup]
        ensures { result.now ≡ self.now }
    {
        self.lookups.as_slice()
    }

    /// Adds a lookup that begins. For want of memory nothing has changed.
    pub(crate) fn push(&mut self, lookup: Lookup) -> Result<(), OutOfMemory>
        requires room { length self.old < lookup_limit }
        ensures ok { OnOk result (self.new ≡ self.old ++ lookup ∷ []) }
        ensures err { OnErr result (self.new ≡ self.old) }
    {
        let more = flying_in(&lookup);
        self.lookups.push(lookup)?;
        self.flying += more;
        Ok(())
    }

    /// The lookup of a number, where it is in flight. `None` exactly where none of this number began, or it
    /// has ended.
    pub(crate) fn in_flight(&self, lookup: u32) -> Option<Flight>
        ensures some { IfSome result (IsFlightAt (slice_get self.now lookup)) }
        ensures none { IsNone result → is_in_flight (slice_get self.now lookup) ≡ false }
    {
        flight_of(self.lookups.as_slice().get(lookup as usize)?)
    }

    /// A lookup in flight comes to where it is next.
    pub(crate) fn move_on(&mut self, lookup: u32, state: LookState)
        requires { IsTrue (is_in_flight (slice_get self.old lookup)) }
        ensures { self.new ≡ with_state self.old lookup state }
    {
        let at = lookup as usize;
        let Some(found) = self.lookups.as_slice().get(at) else {
            unreachable!()
        };
        let moved = Lookup {
            agent: found.agent,
            start: found.start,
            access: found.access,
            state,
        };
        self.flying = self.flying - 1 + flying_in(&moved);
        self.lookups.set(at, moved);
    }

    /// The number of the first lookup in flight. `None` exactly where none is, which is told at once; else it looks
    /// on from where it last found one, so that all calls together look at each lookup that has ended once.
    pub(crate) fn first_in_flight(&mut self) -> Option<u32>
        ensures first { result ≡ position (λ l. is_flying l.state) self.old }
        ensures same { self.new ≡ self.old }
    {
        if self.flying == 0 {
            return None;
        }
        let first = next_in_flight(self.lookups.as_slice(), self.first);
        self.first = first;
        Some(first as u32)
    }
}

/// How many lookups in flight a lookup is.
fn flying_in(lookup: &Lookup) -> usize
    ensures { result ≡ one_if (is_flying lookup.now.state) }
{
    if lookup.state.is_flying() { 1 } else { 0 }
}

/// Where a lookup stands, and for which access it is, where it is in flight.
fn flight_of(lookup: &Lookup) -> Option<Flight>
    ensures some { IfSome result (IsFlightAt (Some lookup.now)) }
    ensures none { IsNone result → is_flying lookup.now.state ≡ false }
{
    match lookup.state {
        LookState::At(name) => Some(Flight {
            name,
            access: lookup.access,
        }),
        LookState::Ended(_) => None,
    }
}

/// The first place from one on at which a lookup is in flight, or the end of the list.
fn next_in_flight(lookups: &[Lookup], from: usize) -> usize
    requires from { from ≤ length lookups.now }
    requires before { IsTrue (list_all (λ l. has_landed l.state) (take from lookups.now)) }
    ensures within { result ≤ length lookups.now }
    ensures before { IsTrue (list_all (λ l. has_landed l.state) (take result lookups.now)) }
    ensures there { result < length lookups.now →
        IsTrue (is_in_flight (slice_get lookups.now result)) }
{
    for at in from..lookups.len() {
        if is_flying_at(lookups, at) {
            return at;
        }
    }
    lookups.len()
}

/// Whether there is a lookup at a place, and it is in flight.
fn is_flying_at(lookups: &[Lookup], at: usize) -> bool
    ensures { result ≡ is_in_flight (slice_get lookups.now at) }
{
    match lookups.get(at) {
        Some(lookup) => lookup.state.is_flying(),
        None => false,
    }
}
