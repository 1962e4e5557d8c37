//! Where the hops of an agent's requests can stand: made once for all of its requests at an address.

ghost use Rattle.std.specs.Prelude.{◌≡◌, ℕ, false, slice_get, Some, None, IfOk, IfSome, IsTrue};
ghost use Rattle.dn_net.specs.Terms.{is_agent_at};
ghost use Rattle.dn_view.specs.Terms.{IsSystem};
ghost use Rattle.dn_place.specs.Terms.{IsHopReach, mark_at};

use crate::OutOfMemory;
use crate::entry::entry_of;
use crate::marks::{after, from_agent, has_mark, units_of};
use dn_interval::End;
use dn_view::system::System;
use std::alloc::Global;

/// Where the hops of an agent's requests can stand, at one address where one is asked for: for each node
/// whether a first, a second or a third hop from the agent's end can stand in it.
#[derive(Drop)]
pub struct ReachMarks {
    /// The address that is asked for, if one is.
    pub(crate) at: Option<u64>,
    /// The numbers of the units, ascending.
    pub(crate) units: Vec<u16>,
    pub(crate) first: Vec<bool>,
    pub(crate) second: Vec<bool>,
    pub(crate) third: Vec<bool>,
    /// The stop of the address that is asked for, if one is and it has one.
    pub(crate) entry: Option<End>,
}

/// Where the hops of an agent's requests can stand; where an address is given, of those at this address.
/// `Err` is want of memory.
pub fn reach_of(
    alloc: Global,
    system: System,
    agent: u16,
    at: Option<u64>,
) -> Result<ReachMarks, OutOfMemory>
    requires system { IsSystem meaning system }
    requires agent { IsTrue (is_agent_at (slice_get system.on.net.now agent)) }
    ensures reach { IfOk result (λ r. IsHopReach system.entry.on.net.now agent r) }
    ensures at { IfOk result (λ r. r.at ≡ at) }
{
    let entry = entry_of(system, agent, at);
    let units = units_of(alloc, system.on.net)?;
    let first = from_agent(alloc, system, agent)?;
    let second = after(alloc, system, &units, &first)?;
    let third = after(alloc, system, &units, &second)?;
    Ok(ReachMarks {
        at,
        units,
        first,
        second,
        third,
        entry,
    })
}

/// Whether a second hop from the agent's end can stand anywhere.
pub(crate) fn has_second(reach: &ReachMarks) -> bool {
    let marks = reach.second.as_slice();
    for mark in marks {
        if *mark {
            return true;
        }
    }
    false
}

/// Whether a hop at this place from the agent's end can stand in the unit.
pub(crate) fn can_stand(reach: &ReachMarks, place: u8, unit: u16) -> bool
    ensures { result ≡ mark_at reach.now.first.items reach.now.second.items
        reach.now.third.items place unit }
{
    if place == 1 {
        has_mark(&reach.first, unit)
    } else if place == 2 {
        has_mark(&reach.second, unit)
    } else {
        has_mark(&reach.third, unit)
    }
}

/// Whether a hop at this place from the agent's end can stand in the unit, by the address that is asked
/// for.
pub(crate) fn can_enter(reach: &ReachMarks, place: u8, unit: u16) -> bool
    ensures first { result ≡ false → place ≡ 1 }
    ensures asked { result ≡ false → reach.now.entry ≡ None → ⊥ }
    ensures other { result ≡ false → (x : ℕ) →
        reach.now.entry ≡ Some (record { node = unit; base = x }) → ⊥ }
{
    match entry_at(reach, place) {
        Some(entry) => entry.node == unit,
        None => true,
    }
}

/// The one name that a hop at this place from the agent's end can enter, where there is but one.
pub(crate) fn entry_at(reach: &ReachMarks, place: u8) -> Option<End>
    ensures first { IfSome result (λ z. place ≡ 1) }
    ensures entry { IfSome result (λ z. reach.now.entry ≡ Some z) }
{
    if place == 1 { reach.entry } else { None }
}
