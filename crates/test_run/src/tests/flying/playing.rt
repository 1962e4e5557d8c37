//! Playing events in a world, and asking where its lookups are.

ghost use Rattle.dn_kind.specs.Terms.{AreKinds, kinds_of};
ghost use Rattle.dn_view.specs.Terms.{IsSystem};
ghost use Rattle.dn_flight.specs.Terms.{IsWorld};
ghost use Rattle.test_run.specs.Terms.{IsSky};

use crate::sky::Sky;
use dn_base::device::TableEvent;
use dn_flat::flats::flatten_all;
use dn_flight::event::{Event, FlightFault};
use dn_flight::lookup::LookState;
use dn_flight::world::World;
use dn_kind::kinded::KindedNet;
use dn_kind::kinds::Kinds;
use dn_kind::rights::Access;
use dn_net::node::Name;
use dn_view::system::System;
use dn_walk::walks::walks;
use std::alloc::Global;
use std::process::Abort;
use test_plans::Plan;

/// The net of a plan, with what its nodes see.
pub fn sky_of(rt: &impl Abort, alloc: Global, kinds: &Kinds, plan: Plan) -> Sky
    requires { AreKinds meaning kinds.now }
    ensures { IsSky (kinds_of meaning kinds.now) result }
{
    let net = plan.net(alloc, kinds).expect(rt, "a net");
    let walks = walks(alloc, &net).ok().expect(rt, "walks");
    let flats = flatten_all(alloc, &net, &walks).expect(rt, "flats");
    Sky { net, flats }
}

/// The system of it and its kinds.
pub fn system_of<'a>(sky: &'a Sky, kinds: &'a Kinds) -> System<'a>
    requires kinds { AreKinds meaning kinds.now }
    requires sky { IsSky (kinds_of meaning kinds.now) sky.now }
    ensures { IsSystem meaning result }
{
    let on = KindedNet {
        net: &sky.net,
        kinds,
    };
    let flats = &sky.flats;
    System { on, flats }
}

/// What is done with a world, or asked of it. Lookups have the numbers in the order in which they began.
#[derive(Clone, Copy)]
pub enum Act {
    /// An event is played.
    Plays(Event),
    /// An event is refused.
    Refuses(Event, FlightFault),
    /// A lookup of an agent's address begins, to read, as often as lookups may begin.
    Fills(u16, u64),
    /// The event of this number of a log is played.
    Logged(usize),
    /// The lookup of this number is in flight, at this name.
    At(usize, Name),
    /// The lookup of this number has ended with this name, or with none.
    Ended(usize, Option<Name>),
    /// The lookup of this number reads, and has then ended so.
    Ends(u32, Option<Name>),
    /// The word of this number of a unit is this, or the unit has none of this number.
    Word(u16, u32, Option<u64>),
    /// So many lookups began.
    Began(usize),
}

/// Does all of this in order, with a world that begins with words of 0, and a log.
pub fn play_all(rt: &impl Abort, alloc: Global, system: System, log: &[TableEvent], acts: &[Act])
    requires { IsSystem meaning system }
{
    let mut world = World::start(alloc, system.on).expect(rt, "a world");
    for act in acts {
        play_act(rt, alloc, system, &mut world, log, *act);
    }
}

/// Does one thing with a world.
fn play_act(
    rt: &impl Abort,
    alloc: Global,
    system: System,
    world: &mut World,
    log: &[TableEvent],
    act: Act,
)
    requires system { IsSystem meaning system }
    requires world { IsWorld system.on.net.now (kinds_of meaning system.on.kinds.now) world.old }
    ensures { IsWorld system.entry.on.net.now
        (kinds_of meaning system.entry.on.kinds.now) world.new }
{
    match act {
        Act::Plays(event) => play(rt, alloc, system, world, event, Ok(())),
        Act::Refuses(event, fault) => play(rt, alloc, system, world, event, Err(fault)),
        Act::Fills(agent, addr) => fill(rt, alloc, system, world, begin(agent, addr)),
        Act::Logged(number) => {
            if let Some(event) = event_of(rt, log, number) {
                play(rt, alloc, system, world, event, Ok(()));
            }
        }
        Act::At(lookup, name) => stands_at(rt, world, lookup, name),
        Act::Ended(lookup, name) => ends_with(rt, world, lookup, name),
        Act::Ends(lookup, name) => {
            play(rt, alloc, system, world, read(lookup), Ok(()));
            ends_with(rt, world, lookup as usize, name);
        }
        Act::Word(unit, word, value) => assert!(rt; world.word(unit, word) == value),
        Act::Began(count) => assert!(rt; world.lookups().len() == count),
    }
}

/// Plays an event, and compares the answer.
fn play(
    rt: &impl Abort,
    alloc: Global,
    system: System,
    world: &mut World,
    event: Event,
    wanted: Result<(), FlightFault>,
)
    requires system { IsSystem meaning system }
    requires world { IsWorld system.on.net.now (kinds_of meaning system.on.kinds.now) world.old }
    ensures { IsWorld system.entry.on.net.now
        (kinds_of meaning system.entry.on.kinds.now) world.new }
{
    let given = world.play(alloc, system, event);
    assert!(rt; given == wanted, "{event:?}");
}

/// Plays an event as often as lookups may begin.
fn fill(rt: &impl Abort, alloc: Global, system: System, world: &mut World, event: Event)
    requires system { IsSystem meaning system }
    requires world { IsWorld system.on.net.now (kinds_of meaning system.on.kinds.now) world.old }
    ensures { IsWorld system.entry.on.net.now
        (kinds_of meaning system.entry.on.kinds.now) world.new }
{
    for _ in 0..65_536u32 {
        play(rt, alloc, system, world, event, Ok(()));
    }
}

/// The event of a number of a log: none where a unit is made, which stands in a world from its start.
fn event_of(rt: &impl Abort, log: &[TableEvent], number: usize) -> Option<Event> {
    match log.get(number) {
        Some(TableEvent::Write { unit, word, value }) => Some(write(*unit, *word, *value)),
        Some(TableEvent::Fence) => Some(Event::Fence),
        Some(TableEvent::Make { .. }) => None,
        None => {
            assert!(rt; false, "the log has no event {number}");
            None
        }
    }
}

/// Compares where the lookup of a number is in flight.
fn stands_at(rt: &impl Abort, world: &World, lookup: usize, wanted: Name) {
    let found = world.lookups().get(lookup).expect(rt, "a lookup");
    match found.state {
        LookState::At(name) => assert!(rt; name == wanted, "{lookup}"),
        LookState::Ended(_) => assert!(rt; false, "{lookup} has ended"),
    }
}

/// Compares the name, or none, with which the lookup of a number has ended.
fn ends_with(rt: &impl Abort, world: &World, lookup: usize, wanted: Option<Name>) {
    let found = world.lookups().get(lookup).expect(rt, "a lookup");
    match &found.state {
        LookState::At(name) => assert!(rt; false, "{lookup} is at {name:?}"),
        LookState::Ended(names) => { assert!(rt; names.list() == wanted.as_slice(), "{lookup}") }
    }
}

/// A lookup begins, to read.
pub fn begin(agent: u16, addr: u64) -> Event {
    Event::Begin {
        agent,
        addr,
        access: Access::Read,
    }
}

/// A lookup reads.
pub fn read(lookup: u32) -> Event {
    Event::Read { lookup }
}

/// A word is set.
pub fn write(unit: u16, word: u32, value: u64) -> Event {
    Event::Write { unit, word, value }
}

/// An address of a node.
pub fn name(node: u16, addr: u64) -> Name {
    Name { node, addr }
}
