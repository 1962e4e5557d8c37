//! Names in units that addresses of agents reach: what a slot leads to there is seen from each of them.

ghost use Rattle.std.specs.Prelude.{◌≡◌, ℕ, ◌+◌, ◌<◌, ◌≤◌, ◌&&◌, nat_eq, nat_le, true, List, length, slice_get, IfOk, IfSome, OnOk, IsTrue};
ghost use Rattle.dn_interval.specs.declared.row.End.{End};
ghost use Rattle.dn_interval.specs.Terms.{segs_give};
ghost use Rattle.dn_net.specs.declared.node.NodeDecl.{NodeDecl};
ghost use Rattle.dn_net.specs.Terms.{is_agent, is_agent_at};
ghost use Rattle.dn_flat.specs.Terms.{AreAgentStops, AreCrowded, AreLevelsBelow, AreWays, HoldAlongAll, IsAgentStop, IsCrowded, IsSpanAmong, IsWay, StopsFrom};

use crate::found::whole;
use crate::levels::push_given;
use crate::shared::Shared;
use dn_base::OutOfMemory;
use dn_interval::onward::last_out;
use dn_interval::{Seg, Span};
use dn_net::net::Net;
use dn_net::node::Role;
use std::alloc::Global;

/// Addresses of an agent, one after another, and their stops.
#[derive(Clone, Copy)]
pub(crate) struct Way {
    pub(crate) agent: u16,
    pub(crate) seg: Seg,
}

/// Names of a unit, one after another.
#[derive(Clone, Copy)]
pub(crate) struct UnitSpan {
    pub(crate) unit: u16,
    pub(crate) span: Span,
}

/// The addresses of all agents with their stops, unit by unit by their first names.
pub(crate) fn ways_of(alloc: Global, net: &Net, nodes: &Shared) -> Result<Vec<Way>, OutOfMemory>
    requires { AreLevelsBelow net.now (length net.now) nodes.now }
    ensures { IfOk result (λ ways. AreWays net.now ways.items) }
{
    let mut ways = Vec::new(alloc);
    for node in 0..net.nodes() {
        add_ways(alloc, net, nodes, node, &mut ways)?;
    }
    ways.sort_unstable_by_key(|way| (way.seg.node, way.seg.base));
    Ok(ways)
}

/// Adds the addresses of a node and their stops, if it is an agent.
fn add_ways(
    alloc: Global,
    net: &Net,
    nodes: &Shared,
    node: u16,
    ways: &mut Vec<Way>,
) -> Result<(), OutOfMemory>
    requires nodes { AreLevelsBelow net.now (length net.now) nodes.now }
    requires there { node < length net.now }
    requires ways { AreWays net.now ways.old.items }
    ensures { OnOk result (AreWays net.now ways.new.items) }
{
    if !is_agent(net, node) {
        return Ok(());
    }
    let mut segs = Vec::new(alloc);
    let layers = nodes.of(node).stops.as_slice();
    push_given(&mut segs, layers, whole(node))?;
    push_ways(ways, node, &segs)
}

/// Whether a node is an agent.
pub(crate) fn is_agent(net: &Net, node: u16) -> bool
    requires { node < length net.now }
    ensures { result ≡ is_agent_at (slice_get net.now node) }
{
    is_agent_role(net.role(node))
}

/// Whether this is the role of agents.
fn is_agent_role(role: Role) -> bool
    ensures { result ≡ is_agent role }
{
    matches!(role, Role::Agent)
}

/// Adds the addresses of segments of an agent that give their stops.
fn push_ways(ways: &mut Vec<Way>, agent: u16, segs: &[Seg]) -> Result<(), OutOfMemory>
    ensures { OnOk result ((net : List NodeDecl) → IsTrue (is_agent_at (slice_get net agent)) →
        ((a : ℕ) (z : End) → segs_give segs.now a z ≡ true → StopsFrom net agent a z) →
        AreWays net ways.old.items → AreWays net ways.new.items) }
{
    for seg in segs {
        ways.push(Way { agent, seg: *seg })?;
    }
    Ok(())
}

/// The names that two of the ways give at different addresses, as spans that ascend where the ways do: each way is
/// held against the one before it that goes furthest.
pub(crate) fn crowds_between(alloc: Global, ways: &[Way]) -> Result<Vec<UnitSpan>, OutOfMemory>
    ensures { IfOk result (λ crowds. (net : List NodeDecl) → AreWays net ways.now →
        HoldAlongAll (IsCrowded net) crowds.items) }
{
    let mut crowds = Vec::new(alloc);
    let mut top = 0;
    for at in 0..ways.len() {
        push_crowd(&mut crowds, ways[top], ways[at])?;
        top = further(ways, top, at);
    }
    Ok(crowds)
}

/// The place of the one of two ways that goes further, where both are in one unit, or else of the second.
fn further(ways: &[Way], top: usize, at: usize) -> usize
    requires before { top ≤ at }
    requires there { at < length ways.now }
    ensures { result ≤ at }
{
    let (old, new) = (ways[top].seg, ways[at].seg);
    if old.node == new.node && last_out(new) <= last_out(old) {
        top
    } else {
        at
    }
}

/// The names that the ways give, as spans that ascend where the ways do.
pub(crate) fn agent_stops(alloc: Global, ways: &[Way]) -> Result<Vec<UnitSpan>, OutOfMemory>
    ensures { IfOk result (λ stops. (net : List NodeDecl) → AreWays net ways.now →
        HoldAlongAll (IsAgentStop net) stops.items) }
{
    let mut stops = Vec::new(alloc);
    for way in ways {
        push_stops(&mut stops, *way)?;
    }
    Ok(stops)
}

/// Adds the names that a way gives, and that come after those that are listed.
fn push_stops(stops: &mut Vec<UnitSpan>, way: Way) -> Result<(), OutOfMemory>
    ensures { OnOk result ((net : List NodeDecl) → IsWay net way →
        HoldAlongAll (IsAgentStop net) stops.old.items →
        HoldAlongAll (IsAgentStop net) stops.new.items) }
{
    let from = first_left(stops.as_slice(), way.seg);
    push_span(stops, way.seg.node, given(way, from))
}

/// Adds names of a unit, one after another, if there are some.
fn push_span(spans: &mut Vec<UnitSpan>, unit: u16, found: Option<Span>) -> Result<(), OutOfMemory>
    ensures crowds { OnOk result ((net : List NodeDecl) →
        IfSome found (λ s. AreCrowded net unit s) →
        HoldAlongAll (IsCrowded net) spans.old.items →
        HoldAlongAll (IsCrowded net) spans.new.items) }
    ensures stops { OnOk result ((net : List NodeDecl) →
        IfSome found (λ s. AreAgentStops net unit s) →
        HoldAlongAll (IsAgentStop net) spans.old.items →
        HoldAlongAll (IsAgentStop net) spans.new.items) }
{
    match found {
        Some(span) => {
            spans.push(UnitSpan { unit, span })?;
            Ok(())
        }
        None => Ok(()),
    }
}

/// The names from one on that a way gives.
fn given(way: Way, from: u64) -> Option<Span>
    ensures { IfSome result (λ s. (net : List NodeDecl) → IsWay net way →
        AreAgentStops net way.seg.node s) }
{
    let lo = way.seg.base.max(from);
    let hi = last_out(way.seg);
    Span::new(lo, hi)
}

/// Adds the names that two ways give at different addresses, and that come after those that are listed.
fn push_crowd(crowds: &mut Vec<UnitSpan>, one: Way, other: Way) -> Result<(), OutOfMemory>
    ensures { OnOk result ((net : List NodeDecl) → IsWay net one → IsWay net other →
        HoldAlongAll (IsCrowded net) crowds.old.items →
        HoldAlongAll (IsCrowded net) crowds.new.items) }
{
    let from = first_left(crowds.as_slice(), other.seg);
    push_span(crowds, other.seg.node, met(one, other, from))
}

/// The first name of a segment that comes after those that are listed. They ascend, so the last ones tell it.
fn first_left(crowds: &[UnitSpan], seg: Seg) -> u64 {
    let Some(last) = crowds.last() else {
        return seg.base;
    };
    if last.unit == seg.node && seg.base <= last.span.hi {
        last.span.hi + 1
    } else {
        seg.base
    }
}

/// The names from one on that two ways give at different addresses.
fn met(one: Way, other: Way, from: u64) -> Option<Span>
    ensures { IfSome result (λ s. (net : List NodeDecl) → IsWay net one → IsWay net other →
        AreCrowded net other.seg.node s) }
{
    if one.seg.node != other.seg.node {
        return None;
    }
    if is_one_way(one, other) {
        return None;
    }
    let lo = one.seg.base.max(other.seg.base).max(from);
    let hi = last_out(one.seg).min(last_out(other.seg));
    Span::new(lo, hi)
}

/// Whether two ways into one unit give a name at the same address of the same agent, if both give it.
fn is_one_way(one: Way, other: Way) -> bool
    ensures { result ≡ (nat_eq one.agent other.agent
        && nat_eq (one.seg.span.lo + other.seg.base) (other.seg.span.lo + one.seg.base)) }
{
    one.agent == other.agent && one.seg.span.lo + other.seg.base == other.seg.span.lo + one.seg.base
}

/// Listed names of a unit, one after another, of which some are among so many names from one on.
pub(crate) fn span_among(spans: &[UnitSpan], unit: u16, first: u64, size: u64) -> Option<Span>
    ensures { IsSpanAmong spans.now unit first size result }
{
    let place = spans.partition_point(|names| ends_before(*names, unit, first));
    let Some(names) = spans.get(place) else {
        return None;
    };
    if names.unit != unit {
        return None;
    }
    if names.span.hi < first {
        return None;
    }
    if begins_past(names.span, first, size) {
        return None;
    }
    Some(names.span)
}

/// Whether all names are in a unit before this one, or before a name of it.
fn ends_before(names: UnitSpan, unit: u16, first: u64) -> bool {
    names.unit < unit || (names.unit == unit && names.span.hi < first)
}

/// Whether a span begins past so many addresses from one on.
fn begins_past(span: Span, first: u64, size: u64) -> bool
    ensures { result ≡ nat_le (first + size) span.lo }
{
    first <= span.lo && size <= span.lo - first
}
