//! The search among the placements whose hops are all chosen: the agent's address, and the own hop.

ghost use Rattle.std.specs.Prelude.{◌≡◌, ◌∷◌, [], ◌≤◌, ◌↔◌, ℕ, List, false, Some, IfOk, IfSome, IfNone, IsTrue, length, slice_get};
ghost use Rattle.dn_interval.specs.Terms.{AreNormal};
ghost use Rattle.dn_net.specs.declared.node.NodeDecl.{NodeDecl};
ghost use Rattle.dn_kind.specs.Terms.{both_rights};
ghost use Rattle.dn_placement.specs.Terms.{IsAt, Leads, hop_page};
ghost use Rattle.dn_place.specs.Terms.{ArePreimages, AreToward, CanOwn, IsAddressed, IsChosen, IsFirstOrNone, IsPreimage, IsSearch, IsWayTo, NoneUnder, PagesBelow, PagesFrom, hops_view, key_of_hops, sought, to_address, to_page, wanted_name};

use crate::OutOfMemory;
use crate::blocks::shows_some;
use crate::hops::Hops;
use crate::preimages::{Preimages, Way, way_to};
use crate::rows::{lent_rows, made_rows, output, wanted_name};
use crate::search::{FoundPlacement, Search, is_exact};
use crate::slots::{is_hop_free, power};
use crate::unit::unit_in;
use dn_interval::{Row, Rows};
use dn_kind::rights::Rights;
use dn_net::node::Unit;
use dn_tables::placement::Hop;
use std::alloc::Global;

/// The first placement of just these hops. It is found by the preimages of the first hop's unit if they are made, and else
/// by the rows of the agent.
pub(crate) fn by_agent(
    alloc: Global,
    search: Search,
    hops: Hops,
    preimages: &Option<Preimages>,
) -> FoundPlacement
    requires search { IsSearch meaning search }
    requires chosen { IsChosen (sought meaning search) (length (hops_view hops)) (hops_view hops) }
    requires some { 1 ≤ length (hops_view hops) }
    requires preimages { IfSome preimages.now (λ p. ArePreimages search.system.on.net.now
        search.request.agent p) }
    ensures { IfOk result (λ found. IsFirstOrNone (sought meaning search.entry)
        (key_of_hops (length (hops_view hops)) (hops_view hops)) found) }
{
    match preimages_in(preimages, wanted_name(search.request, hops).node) {
        Some(rows) => by_preimages(alloc, search, hops, rows),
        None => by_stops(alloc, search, hops),
    }
}

/// The preimages in a unit, where they are made.
fn preimages_in(preimages: &Option<Preimages>, unit: u16) -> Option<&Rows>
    ensures { IfSome result (λ rows. (net : List NodeDecl) (agent : ℕ) →
        IfSome preimages.now (λ p. ArePreimages net agent p) →
        AreNormal (IsPreimage net agent unit) rows.now) }
{
    match preimages {
        Some(made) if made.unit == unit => Some(&made.rows),
        _ => None,
    }
}

/// The first placement of just these hops, by the preimages of the first hop's input: only one address of the agent may
/// lead there.
fn by_preimages(alloc: Global, search: Search, hops: Hops, rows: &Rows) -> FoundPlacement
    requires search { IsSearch meaning search }
    requires chosen { IsChosen (sought meaning search) (length (hops_view hops)) (hops_view hops) }
    requires some { 1 ≤ length (hops_view hops) }
    requires rows { AreNormal (IsPreimage search.system.on.net.now
        search.request.agent
        (wanted_name search.request (hops_view hops)).node) rows.now }
    ensures { IfOk result (λ found. IsFirstOrNone (sought meaning search.entry)
        (key_of_hops (length (hops_view hops)) (hops_view hops)) found) }
{
    let request = search.request;
    let input = wanted_name(request, hops).base;
    let Some(way) = way_to(rows, input, request.size) else {
        return Ok(None);
    };
    if !is_at(search.reach.at, way.v) {
        return Ok(None);
    }
    by_way(alloc, search, hops, way)
}

/// The first placement of just these hops, by the rows of the agent that give the first hop's input.
fn by_stops(alloc: Global, search: Search, hops: Hops) -> FoundPlacement
    requires search { IsSearch meaning search }
    requires chosen { IsChosen (sought meaning search) (length (hops_view hops)) (hops_view hops) }
    requires some { 1 ≤ length (hops_view hops) }
    ensures { IfOk result (λ found. IsFirstOrNone (sought meaning search.entry)
        (key_of_hops (length (hops_view hops)) (hops_view hops)) found) }
{
    let agent = search.request.agent;
    match lent_rows(search.system.flats.of(agent), hops) {
        Some(rows) => by_rows(alloc, search, hops, rows),
        None => {
            let rows = made_rows(alloc, search.system, search.request, agent, hops)?;
            by_rows(alloc, search, hops, rows.rows())
        }
    }
}

/// The first placement of just these hops, by rows of the agent: each that gives the first hop's input fixes one address.
fn by_rows(alloc: Global, search: Search, hops: Hops, rows: &[Row]) -> FoundPlacement
    requires search { IsSearch meaning search }
    requires chosen { IsChosen (sought meaning search) (length (hops_view hops)) (hops_view hops) }
    requires some { 1 ≤ length (hops_view hops) }
    requires toward { AreToward search.system.on.net.now search.request
        (hops_view hops) search.request.agent rows.now }
    ensures { IfOk result (λ found. IsFirstOrNone (sought meaning search.entry)
        (key_of_hops (length (hops_view hops)) (hops_view hops)) found) }
{
    let size = search.request.size;
    let target = wanted_name(search.request, hops);
    'rows: for row in rows {
        if let Some(v) = output(row, target, size) {
            if is_at(search.reach.at, v) {
                let way = Way {
                    first: row.span.lo,
                    last: row.span.hi,
                    v,
                };
                if let Some(placement) = by_way(alloc, search, hops, way)? {
                    return Ok(Some(placement));
                }
            }
        }
    }
    Ok(None)
}

/// The first placement of just these hops at the address of a way of the agent. There is none if the way leads on to names
/// beside the buffer.
fn by_way(alloc: Global, search: Search, hops: Hops, way: Way) -> FoundPlacement
    requires search { IsSearch meaning search }
    requires addressed { IsAddressed (sought meaning search) (hops_view hops) way.v }
    requires way { IsWayTo search.system.on.net.now search.request.agent
        (wanted_name search.request (hops_view hops))
        search.request.size way }
    ensures { IfOk result (λ found. IsFirstOrNone (sought meaning search.entry)
        (to_address (length (hops_view hops)) (hops_view hops) way.v) found) }
{
    if let Hops::One(hop) = hops {
        if shows_beside(alloc, search, hop, way)? {
            return Ok(None);
        }
    }
    by_address(alloc, search, hops, way.v)
}

/// Whether a way of the agent is known to lead on, through a lone hop, to a name beside the buffer: in a slot of its
/// first or last address.
fn shows_beside(alloc: Global, search: Search, hop: Hop, way: Way) -> Result<bool, OutOfMemory>
    requires search { IsSearch meaning search }
    requires addressed { IsAddressed (sought meaning search) (hop ∷ []) way.v }
    requires way { IsWayTo search.system.on.net.now search.request.agent
        (wanted_name search.request (hop ∷ []))
        search.request.size way }
    ensures { IfOk result (λ more. IsTrue more → NoneUnder (sought meaning search.entry)
        (to_address 1 (hop ∷ []) way.v)) }
{
    let Some(translator) = unit_in(search.system, hop.unit) else {
        return Ok(false);
    };
    let Some(node) = port_of(translator, hop.port) else {
        return Ok(false);
    };
    let page = power(translator.page);
    let size = search.request.size;
    let back = size - 1;
    let last = hop.y + back;
    let rest = page - 1 - (hop.x + back) % page;
    let more = rest.min(way.last - (way.v + back));
    if shows_some(search.system, alloc, node, last + 1, last + more)? {
        return Ok(true);
    }
    let fewer = (hop.x % page).min(way.v - way.first);
    if fewer == 0 {
        return Ok(false);
    }
    shows_some(search.system, alloc, node, hop.y - fewer, hop.y - 1)
}

/// The node of a port of a unit, if it has the port.
fn port_of(translator: &Unit, port: u8) -> Option<u16>
    ensures { result ≡ slice_get translator.now.ports port }
{
    translator.ports.as_slice().get(usize::from(port)).copied()
}

/// Whether the address is the one that is asked for, if one is.
fn is_at(at: Option<u64>, v: u64) -> bool
    ensures { IsTrue result ↔ IsAt at v }
{
    match at {
        Some(at) => at == v,
        None => true,
    }
}

/// The first placement of just these hops at an address of the agent: own hops with smaller pages come first.
fn by_address(alloc: Global, search: Search, hops: Hops, v: u64) -> FoundPlacement
    requires search { IsSearch meaning search }
    requires addressed { IsAddressed (sought meaning search) (hops_view hops) v }
    ensures { IfOk result (λ found. IsFirstOrNone (sought meaning search.entry)
        (to_address (length (hops_view hops)) (hops_view hops) v) found) }
{
    let mut from = 0;
    'pages: while let Some(page) = page_from(search, hops, from) {
        if let Some(placement) = by_page(alloc, search, hops, v, page)? {
            return Ok(Some(placement));
        }
        from = page + 1;
    }
    Ok(None)
}

/// The first placement of just these hops at an address of the agent, with an own hop of this page: hops nearer to memory
/// come first.
fn by_page(alloc: Global, search: Search, hops: Hops, v: u64, page: u8) -> FoundPlacement
    requires search { IsSearch meaning search }
    requires addressed { IsAddressed (sought meaning search) (hops_view hops) v }
    ensures { IfOk result (λ found. IsFirstOrNone (sought meaning search.entry)
        (to_page (length (hops_view hops)) (hops_view hops) v page) found) }
{
    let count = hops.count();
    for back in 1..count + 1 {
        let own = count - back;
        if can_own(search, hops, own, page) {
            if is_exact(alloc, search, v, hops, own)? {
                return Ok(Some(hops.into_placement(alloc, v, own)));
            }
            if has_both(search.request.rights) {
                return Ok(None);
            }
        }
    }
    Ok(None)
}

/// Whether the rights are reading and writing: then the records of hops are the same whichever of them
/// is the own one.
fn has_both(rights: Rights) -> bool
    ensures { IsTrue result → rights ≡ both_rights }
{
    rights == Rights::both()
}

/// Whether the hop has the page, and its slots are free.
fn can_own(search: Search, hops: Hops, own: u8, page: u8) -> bool
    requires search { IsSearch meaning search }
    requires leads { Leads search.system.on.net.now (sought meaning search).slots
        search.request (hops_view hops) }
    ensures yes { IsTrue result → CanOwn (sought meaning search.entry) (hops_view hops) own page }
    ensures no { result ≡ false → CanOwn (sought meaning search.entry) (hops_view hops) own page → ⊥ }
{
    let Some(hop) = hops.at(own) else {
        return false;
    };
    let Some(translator) = unit_in(search.system, hop.unit) else {
        return false;
    };
    translator.page == page && is_hop_free(search, translator, hop)
}

/// The page of a hop's unit, or 0.
fn page_of(search: Search, hop: Hop) -> u8
    requires search { IsSearch meaning search }
    ensures page { result ≡ hop_page search.entry.system.on.net.now (Some hop) }
    ensures most { result ≤ 40 }
{
    match unit_in(search.system, hop.unit) {
        Some(translator) => translator.page,
        None => 0,
    }
}

/// The least page of the hops that is at least this one. None where all are below.
fn page_from(search: Search, hops: Hops, from: u8) -> Option<u8>
    requires search { IsSearch meaning search }
    requires few { from ≤ 41 }
    ensures past { IfSome result (λ page. from ≤ page) }
    ensures most { IfSome result (λ page. page ≤ 40) }
    ensures between { IfSome result
        (λ page. PagesFrom (sought meaning search.entry) (hops_view hops) from page) }
    ensures none { IfNone result (PagesBelow (sought meaning search.entry) (hops_view hops) from) }
{
    let mut best = 41;
    for i in 0..hops.count() {
        if let Some(hop) = hops.at(i) {
            let page = page_of(search, hop);
            if from <= page && page < best {
                best = page;
            }
        }
    }
    if best == 41 { None } else { Some(best) }
}
