//! Which input a hop can have next.

ghost use Rattle.std.specs.Prelude.{◌≡◌, ℕ, ◌+◌, ◌-◌, ◌*◌, ◌/◌, ◌%◌, ◌^◌, ◌<◌, ◌≤◌, Some, IsTrue};
ghost use Rattle.dn_interval.specs.declared.span.TheConstants.{TOP};
ghost use Rattle.dn_net.specs.Terms.{unit_at};
ghost use Rattle.dn_place.specs.Terms.{HasCrowd, HasSeenStop, IsNextTry, IsSearch, IsWithin, MayTry, sought};

use crate::kept::has_name;
use crate::search::{Search, agent_stop_among, crowd_among, slot_in};
use crate::slots::{Input, is_free_slot, next_input, power};
use dn_net::node::Unit;
use dn_tables::placement::Hop;

/// The first input of a unit from the hop's on, in its place in a slot, that may serve a hop at this place
/// from the agent's end. Where it is the hop's own, it finds its slots usable. The slots from the first of
/// the hop's on are known to be free before a slot, and are then known to be free before the one that is
/// answered.
pub(crate) fn next_try(search: Search, place: u8, translator: &Unit, hop: Hop, free: u32) -> Input
    requires search { IsSearch meaning search }
    requires may { MayTry (sought meaning search) translator.now hop free }
    ensures { IsNextTry (sought meaning search.entry) translator.now place hop result }
{
    if place == 1 {
        let past = past_crowd(search, translator, hop);
        if past != hop.x {
            return Input { x: past, free };
        }
    } else if is_seen(search, translator, hop) {
        let x = hop.x + power(translator.page);
        return Input { x, free };
    }
    next_input(search, translator, hop, free)
}

/// Whether a name of a hop, in a free slot, is known to be the stop of an address of an agent, or to be one to which
/// another agent comes by the records in use.
fn is_seen(search: Search, translator: &Unit, hop: Hop) -> bool
    requires search { IsSearch meaning search }
    requires within { IsWithin (sought meaning search) translator.now hop }
    ensures { IsTrue result → HasSeenStop (sought meaning search.entry) translator.now hop.unit hop.x }
{
    if is_agent_stop(search, translator, hop) {
        return true;
    }
    has_name(search.kept, hop.unit, hop.x) && is_free_at(search, translator, hop.unit, hop.x)
}

/// Whether a name of a hop is known to be the stop of an address of an agent, and in a free slot.
fn is_agent_stop(search: Search, translator: &Unit, hop: Hop) -> bool
    requires search { IsSearch meaning search }
    requires within { IsWithin (sought meaning search) translator.now hop }
    ensures { IsTrue result → HasSeenStop (sought meaning search.entry) translator.now hop.unit hop.x }
{
    match agent_stop_among(search, hop.unit, hop.x) {
        Some(span) => {
            let name = hop.x.max(span.lo);
            is_free_at(search, translator, hop.unit, name)
        }
        None => false,
    }
}

/// Whether a name of a unit is in a free slot.
fn is_free_at(search: Search, translator: &Unit, unit: u16, name: u64) -> bool
    requires search { IsSearch meaning search }
    requires unit { unit_at search.system.on.net.now unit ≡ Some translator.now }
    requires within { name < translator.now.slots * 2 ^ translator.now.page }
    ensures { result ≡ (sought meaning search.entry).slots.is_free unit (name / 2 ^ translator.now.page) }
{
    let page = power(translator.page);
    let at = (name / page) as u32;
    is_free_slot(slot_in(search, unit, at))
}

/// The first input of a unit from the hop's on, in its place in a slot, past names that are known to be
/// reached by two addresses of agents.
fn past_crowd(search: Search, translator: &Unit, hop: Hop) -> u64
    requires search { IsSearch meaning search }
    requires within { IsWithin (sought meaning search) translator.now hop }
    ensures onward { hop.x ≤ result }
    ensures agree { result % 2 ^ translator.now.page ≡ hop.x % 2 ^ translator.now.page }
    ensures few { result ≤ 2 ^ 59 }
    ensures crowded { (x : ℕ) → hop.x ≤ x → x < result →
        x % 2 ^ translator.now.page ≡ hop.x % 2 ^ translator.now.page →
        HasCrowd (sought meaning search.entry) hop.unit x }
{
    match crowd_among(search, hop.unit, hop.x) {
        Some(span) => past_last(hop.x, span.hi, power(translator.page)),
        None => hop.x,
    }
}

/// The first number past another that agrees with one modulo the page.
fn past_last(x: u64, last: u64, page: u64) -> u64
    requires onward { x ≤ last }
    requires within { last ≤ TOP }
    requires some { 1 ≤ page }
    requires few { page ≤ 2 ^ 40 }
    ensures past { last < result }
    ensures next { result ≤ last + page }
    ensures agree { result % page ≡ x % page }
{
    let rest = x % page;
    ((last - rest) / page + 1) * page + rest
}
