//! The first admissible placement.

ghost use Rattle.std.specs.Prelude.{◌≡◌, ◌+◌, [], None, IfOk, IfSome, length};
ghost use Rattle.dn_kind.specs.Terms.{kinds_of};
ghost use Rattle.dn_tables.specs.Terms.{FitsNet};
ghost use Rattle.dn_placement.specs.Terms.{IsFirst, NoneSuited, slots_of_set};
ghost use Rattle.dn_view.specs.Terms.{IsSystem};
ghost use Rattle.dn_place.specs.Terms.{ArePreimages, IsChosen, IsFirstOrNone, IsHopReach, IsRequest, IsSearch, hops_view, key_of_hops, sought};

use crate::OutOfMemory;
use crate::blocks::block_of;
use crate::cursor::HopCursor;
use crate::hops::Hops;
use crate::iova::by_agent;
use crate::kept::{kept_names, no_names};
use crate::preimages::{Preimages, preimages_of};
use crate::reach::{ReachMarks, reach_of};
use crate::search::{FoundPlacement, Search};
use dn_placement::request::Request;
use dn_tables::placement::Placement;
use dn_tables::set::TableSet;
use dn_view::system::System;
use std::alloc::Global;

/// So many inputs of an output are tried by the rows of the agent before all addresses that lead to the unit are turned
/// round at once.
const PLAIN_TRIES: u8 = 16;

/// The first admissible placement of a request, by the order of placements; where an address is
/// given, of those at this address of the agent. `None` exactly where no placement is admissible.
/// `Err` means that memory ran out.
pub fn first(
    alloc: Global,
    system: System,
    tables: &TableSet,
    request: &Request,
    at: Option<u64>,
) -> Result<Option<Placement>, OutOfMemory>
    requires system { IsSystem meaning system }
    requires fits { FitsNet system.on.net.now (kinds_of meaning system.on.kinds.now) tables.now }
    requires request { IsRequest system.on.net.now request.now }
    ensures first { IfOk result (λ found. IfSome found (λ p. IsFirst system.entry.on.net.now
        (slots_of_set (kinds_of meaning system.entry.on.kinds.now) tables.now) request.now at p)) }
    ensures none { IfOk result (λ found. found ≡ None → NoneSuited system.entry.on.net.now
        (slots_of_set (kinds_of meaning system.entry.on.kinds.now) tables.now) request.now at) }
{
    let reach = reach_of(alloc, system, request.agent, at)?;
    first_from(alloc, system, tables, request, &reach)
}

/// The first admissible placement of a request, by the order of placements, where it is known in which units the hops of
/// the request's agent can stand. The marks have the address that is asked for, if there is one. `Err` means that memory
/// ran out.
pub fn first_from(
    alloc: Global,
    system: System,
    tables: &TableSet,
    request: &Request,
    reach: &ReachMarks,
) -> Result<Option<Placement>, OutOfMemory>
    requires system { IsSystem meaning system }
    requires fits { FitsNet system.on.net.now (kinds_of meaning system.on.kinds.now) tables.now }
    requires reach { IsHopReach system.on.net.now request.now.agent reach.now }
    requires request { IsRequest system.on.net.now request.now }
    ensures first { IfOk result
        (λ found. IfSome found (λ p. IsFirst system.entry.on.net.now (slots_of_set
        (kinds_of meaning system.entry.on.kinds.now) tables.now) request.now reach.now.at p)) }
    ensures none { IfOk result (λ found. found
        ≡ None → NoneSuited system.entry.on.net.now (slots_of_set
        (kinds_of meaning system.entry.on.kinds.now) tables.now) request.now reach.now.at) }
{
    tables.facts();
    let block = block_of(system, request, reach.units.as_slice());
    let none = no_names(alloc)?;
    let lone = Search {
        system,
        tables,
        request: *request,
        reach,
        count: 1,
        block,
        kept: &none,
    };
    first_found(alloc, lone)
}

/// The first placement, by the number of its hops. The search that is given is for one hop. Which names other agents
/// reach through the records in use is found out once no placement of a single hop is found.
fn first_found(alloc: Global, lone: Search) -> FoundPlacement
    requires search { IsSearch meaning lone }
    requires one { lone.count ≡ 1 }
    ensures { IfOk result (λ found. IsFirstOrNone (sought meaning lone.entry) [] found) }
{
    if let Some(placement) = with_first(alloc, lone, Hops::Zero)? {
        return Ok(Some(placement));
    }
    let names = kept_names(alloc, lone.system, lone.tables, &lone.request, lone.reach)?;
    let two = Search {
        count: 2,
        kept: &names,
        ..lone
    };
    if let Some(placement) = with_second(alloc, two, Hops::Zero)? {
        return Ok(Some(placement));
    }
    let three = Search { count: 3, ..two };
    with_third(alloc, three, Hops::Zero)
}

/// The first placement that has a third hop from the agent's end before the nearer ones, and two before that.
fn with_third(alloc: Global, search: Search, nearer: Hops) -> FoundPlacement
    requires search { IsSearch meaning search }
    requires chosen { IsChosen (sought meaning search) search.count (hops_view nearer) }
    requires three { search.count ≡ length (hops_view nearer) + 3 }
    ensures { IfOk result (λ found. IsFirstOrNone (sought meaning search.entry)
        (key_of_hops search.entry.count (hops_view nearer)) found) }
{
    let mut hops = HopCursor::new(alloc);
    'given: while let Some(hop) = hops.next(alloc, search, nearer)? {
        if let Some(placement) = with_second(alloc, search, nearer.behind(hop))? {
            return Ok(Some(placement));
        }
    }
    Ok(None)
}

/// The first placement that has a second hop from the agent's end before the nearer ones, and one before that.
fn with_second(alloc: Global, search: Search, nearer: Hops) -> FoundPlacement
    requires search { IsSearch meaning search }
    requires chosen { IsChosen (sought meaning search) search.count (hops_view nearer) }
    requires two { search.count ≡ length (hops_view nearer) + 2 }
    ensures { IfOk result (λ found. IsFirstOrNone (sought meaning search.entry)
        (key_of_hops search.entry.count (hops_view nearer)) found) }
{
    let mut hops = HopCursor::new(alloc);
    'given: while let Some(hop) = hops.next(alloc, search, nearer)? {
        if let Some(placement) = with_first(alloc, search, nearer.behind(hop))? {
            return Ok(Some(placement));
        }
    }
    Ok(None)
}

/// The first placement that has a first hop from the agent's end before the nearer ones.
fn with_first(alloc: Global, search: Search, nearer: Hops) -> FoundPlacement
    requires search { IsSearch meaning search }
    requires chosen { IsChosen (sought meaning search) search.count (hops_view nearer) }
    requires one { search.count ≡ length (hops_view nearer) + 1 }
    ensures { IfOk result (λ found. IsFirstOrNone (sought meaning search.entry)
        (key_of_hops search.entry.count (hops_view nearer)) found) }
{
    let mut hops = HopCursor::new(alloc);
    let mut made = None;
    'given: while let Some(hop) = hops.next(alloc, search, nearer)? {
        let due = hops.handed() > PLAIN_TRIES;
        let now = due_preimages(alloc, search, hop.unit, due, made)?;
        if let Some(placement) = by_agent(alloc, search, nearer.behind(hop), &now)? {
            return Ok(Some(placement));
        }
        made = now;
    }
    Ok(None)
}

/// The preimages that are made; where they are due and those of this unit are not made, these.
fn due_preimages(
    alloc: Global,
    search: Search,
    unit: u16,
    due: bool,
    made: Option<Preimages>,
) -> Result<Option<Preimages>, OutOfMemory>
    requires search { IsSearch meaning search }
    requires made { IfSome made (λ p. ArePreimages search.system.on.net.now search.request.agent
        p) }
    ensures { IfOk result (λ now. IfSome now (λ p. ArePreimages search.entry.system.on.net.now
        search.entry.request.agent p)) }
{
    if !due || is_made(&made, unit) {
        return Ok(made);
    }
    let fresh = preimages_of(alloc, search.system, search.request.agent, unit)?;
    Ok(Some(fresh))
}

/// Whether the preimages of a unit are made.
fn is_made(made: &Option<Preimages>, unit: u16) -> bool {
    match made {
        Some(preimages) => preimages.unit == unit,
        None => false,
    }
}
