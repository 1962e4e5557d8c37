//! Where a lookup comes to from a name.

ghost use Rattle.std.specs.Prelude.{◌≡◌, ◌<◌, length, slice_get, IfOk, IsTrue};
ghost use Rattle.dn_net.specs.Terms.{is_stop};
ghost use Rattle.dn_kind.specs.Terms.{kinds_of, record_held};
ghost use Rattle.dn_view.specs.Terms.{IsSystem};
ghost use Rattle.dn_flight.specs.Terms.{AreSized, read_by, settled};
ghost use Rattle.dn_flight.specs.declared.lookup.LookState.TheVariants.{At as at_name};

use crate::OutOfMemory;
use crate::flights::Flight;
use crate::lookup::LookState;
use crate::output::output;
use crate::words::NetWords;
use dn_kind::levels::set_of;
use dn_net::names::Names;
use dn_net::node::Name;
use dn_view::names::push_names;
use dn_view::part::FlatPart;
use dn_view::system::System;
use std::alloc::Global;

/// Where a lookup in flight comes to once it has read the record of its slot, by the words as they are: without a
/// record that allows its access it ends with no name. `Err` is want of memory.
pub(crate) fn read_on(
    alloc: Global,
    system: System,
    words: &NetWords,
    flight: Flight,
) -> Result<LookState, OutOfMemory>
    requires system { IsSystem meaning system }
    requires sized { AreSized system.on.net.now (kinds_of meaning system.on.kinds.now) words.now }
    requires stop { IsTrue (is_stop system.on.net.now flight.name) }
    ensures { IfOk result (λ state. state ≡ read_by system.entry.on.net.now
        (record_held system.entry.on.net.now (kinds_of meaning system.entry.on.kinds.now) words.now)
        flight.access (at_name flight.name)) }
{
    match output(system.on, words, flight.access, flight.name) {
        Some(name) => settle(alloc, system, name),
        None => Ok(LookState::Ended(Names::new(alloc))),
    }
}

/// Where a lookup comes to from a name by the net alone: to the unit that the name reaches, or it ends with the names
/// to which the name resolves. Time of what the name's node comes to, and of the names that this gives to
/// its address. `Err` is want of memory.
pub(crate) fn settle(alloc: Global, system: System, name: Name) -> Result<LookState, OutOfMemory>
    requires system { IsSystem meaning system }
    requires there { name.node < length system.on.net.now }
    ensures { IfOk result (λ state. state ≡ settled system.entry.on.net.now name) }
{
    let mut stops = Vec::new(alloc);
    push_names(
        alloc,
        system.on.net,
        system.flats,
        FlatPart::Stops,
        name,
        &mut stops,
    )?;
    if let Some(stop) = first_of(stops.as_slice()) {
        return Ok(LookState::At(stop));
    }
    let mut accepted = Vec::new(alloc);
    push_names(
        alloc,
        system.on.net,
        system.flats,
        FlatPart::Accepts,
        name,
        &mut accepted,
    )?;
    Ok(LookState::Ended(set_of(alloc, accepted)?))
}

/// The first of the names, where there is one.
fn first_of(names: &[Name]) -> Option<Name>
    ensures { result ≡ slice_get names.now 0 }
{
    match names.get(0) {
        Some(name) => Some(*name),
        None => None,
    }
}
