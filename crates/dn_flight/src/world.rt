//! The core: tables, lookups, and one event at a time.

ghost use Rattle.std.specs.Prelude.{◌≡◌, ◌≢◌, ℕ, [], List, Err, IfOk, OnErr};
ghost use Rattle.dn_base.specs.Terms.{Answers};
ghost use Rattle.dn_net.specs.declared.node.NodeDecl.{NodeDecl};
ghost use Rattle.dn_kind.specs.Terms.{IsKinded, Meaning, kinds_of};
ghost use Rattle.dn_book.specs.Terms.{tables_of};
ghost use Rattle.dn_view.specs.Terms.{IsSystem};
ghost use Rattle.dn_flight.specs.Terms.{IsWorld, flight_fault_view, played, word_in};
ghost use Rattle.dn_flight.specs.declared.event.Event.TheVariants.{Begin, Read, Write, Fence};

use crate::OutOfMemory;
use crate::event::{Event, FlightFault};
use crate::flights::Flights;
use crate::lookup::Lookup;
use crate::settle::{read_on, settle};
use crate::words::NetWords;
use dn_kind::kinded::KindedNet;
use dn_kind::rights::Access;
use dn_net::node::Name;
use dn_placement::roles::is_agent;
use dn_view::system::System;
use std::alloc::Global;
use std::marker::Model;

/// The most lookups that may begin in a world.
const MANY: usize = 65_536;

/// The words of the units of a net, and the lookups that began so far.
#[derive(Drop)]
pub struct World {
    words: NetWords,
    lookups: Flights,
}

impl Model for World {
    ghost use Rattle.dn_flight.specs.State.{WorldState};

    ghost Value = { WorldState };

    ghost view = { λ w. record { words = w.words; lookups = w.lookups } };
}

impl World {
    /// The world in which all words of the net's units are 0 and no lookup began. It takes the memory of
    /// all words, 8 bytes each. `Err` is want of memory.
    pub fn start(alloc: Global, on: KindedNet) -> Result<World, OutOfMemory>
        requires on { IsKinded meaning on }
        ensures words { IfOk result (λ world. world.words
            ≡ tables_of on.entry.net.now (kinds_of meaning on.entry.kinds.now) []) }
        ensures lookups { IfOk result (λ world. world.lookups ≡ []) }
        ensures world { IfOk result
            (IsWorld on.entry.net.now (kinds_of meaning on.entry.kinds.now)) }
    {
        Ok(World {
            words: NetWords::start(alloc, on)?,
            lookups: Flights::new(alloc),
        })
    }

    /// The lookups, in the order in which they began.
    pub fn lookups(&self) -> &[Lookup]
        ensures { result.now ≡ self.now.lookups }
    {
        self.lookups.as_slice()
    }

    /// A word of a unit. `None` exactly where the node is none or no unit, or has not the word.
    pub fn word(&self, unit: u16, word: u32) -> Option<u64>
        ensures { result ≡ word_in self.now.words unit word }
    {
        if self.words.has(unit, word) {
            Some(self.words.of(unit).get(word as usize))
        } else {
            None
        }
    }

    /// Takes one event. An event costs no more than the steps of one lookup; a write and a fence take no memory.
    ///
    /// # Errors
    ///
    /// Of a begin `NoAgent` exactly where the node is none or no agent, else `Many` exactly where 65,536 lookups
    /// began before. Of a read `NoLookup` exactly where no lookup of the number began, or it has ended. Of
    /// a write `NoWord` exactly where the node is none or no unit, or has not the word. Of a fence
    /// `NotQuiet` exactly where a lookup is in flight, with the first of them. `OutOfMemory`, of a
    /// begin or a read, where there is no memory for the names. Nothing has then changed.
    pub fn play(&mut self, alloc: Global, system: System, event: Event) -> Result<(), FlightFault>
        requires system { IsSystem meaning system }
        requires world { IsWorld
            system.on.net.now (kinds_of meaning system.on.kinds.now) self.old }
        ensures exact { Answers (λ _. self.new) flight_fault_view result
            (played system.entry.on.net.now (kinds_of meaning system.entry.on.kinds.now)
            event self.old) }
        ensures refused { OnErr result (self.new ≡ self.old) }
        // A write and a fence take no memory.
        ensures write_memory { (unit word value : ℕ) → event ≡ Write unit word value →
            result ≢ Err FlightFault.OutOfMemory }
        ensures fence_memory { event ≡ Fence → result ≢ Err FlightFault.OutOfMemory }
        ensures world { IsWorld system.entry.on.net.now
            (kinds_of meaning system.entry.on.kinds.now) self.new }
    {
        match event {
            Event::Begin {
                agent,
                addr,
                access,
            } => self.begin(alloc, system, Name { node: agent, addr }, access),
            Event::Read { lookup } => self.read(alloc, system, lookup),
            Event::Write { unit, word, value } => self.write(unit, word, value),
            Event::Fence => self.fence(),
        }
    }

    /// A lookup of an agent's name begins.
    fn begin(
        &mut self,
        alloc: Global,
        system: System,
        name: Name,
        access: Access,
    ) -> Result<(), FlightFault>
        requires system { IsSystem meaning system }
        ensures exact { Answers (λ _. self.new) flight_fault_view result
            (played system.entry.on.net.now (kinds_of meaning system.entry.on.kinds.now)
            (Begin name.node name.addr access) self.old) }
        ensures refused { OnErr result (self.new ≡ self.old) }
    {
        if !is_agent(system.on.net, name.node) {
            return Err(FlightFault::NoAgent);
        }
        if self.lookups.len() >= MANY {
            return Err(FlightFault::Many);
        }
        let Ok(state) = settle(alloc, system, name) else {
            return Err(FlightFault::OutOfMemory);
        };
        let lookup = Lookup {
            agent: name.node,
            start: name.addr,
            access,
            state,
        };
        self.lookups.push(lookup).or(Err(FlightFault::OutOfMemory))
    }

    /// A lookup reads the record of its slot.
    fn read(&mut self, alloc: Global, system: System, lookup: u32) -> Result<(), FlightFault>
        requires system { IsSystem meaning system }
        requires world { IsWorld
            system.on.net.now (kinds_of meaning system.on.kinds.now) self.old }
        ensures exact { Answers (λ _. self.new) flight_fault_view result
            (played system.entry.on.net.now (kinds_of meaning system.entry.on.kinds.now)
            (Read lookup) self.old) }
        ensures refused { OnErr result (self.new ≡ self.old) }
    {
        let Some(flight) = self.lookups.in_flight(lookup) else {
            return Err(FlightFault::NoLookup { lookup });
        };
        let Ok(state) = read_on(alloc, system, &self.words, flight) else {
            return Err(FlightFault::OutOfMemory);
        };
        self.lookups.move_on(lookup, state);
        Ok(())
    }

    /// A word is set.
    fn write(&mut self, unit: u16, word: u32, value: u64) -> Result<(), FlightFault>
        ensures exact { (net : List NodeDecl) (kinds : List Meaning) →
            Answers (λ _. self.new) flight_fault_view result
            (played net kinds (Write unit word value) self.old) }
        ensures refused { OnErr result (self.new ≡ self.old) }
        ensures memory { result ≢ Err FlightFault.OutOfMemory }
    {
        if !self.words.has(unit, word) {
            return Err(FlightFault::NoWord);
        }
        self.words.set(unit, word, value);
        Ok(())
    }

    /// A fence, which changes nothing.
    fn fence(&mut self) -> Result<(), FlightFault>
        ensures exact { (net : List NodeDecl) (kinds : List Meaning) →
            Answers (λ _. self.new) flight_fault_view result (played net kinds Fence self.old) }
        ensures refused { OnErr result (self.new ≡ self.old) }
        ensures memory { result ≢ Err FlightFault.OutOfMemory }
    {
        match self.lookups.first_in_flight() {
            Some(lookup) => Err(FlightFault::NotQuiet { lookup }),
            None => Ok(()),
        }
    }
}
