//! Absorbing a node of a net.

ghost use Rattle.std.specs.Prelude.{◌≡◌, ◌<◌, ◌+◌, ◌==◌, length, map, slice_get, option_map, IfOk, Some};
ghost use Rattle.std.specs.List.{list_any};
ghost use Rattle.std.specs.Option.{option_copied};
ghost use Rattle.dn_base.specs.Terms.{Answers};
ghost use Rattle.dn_interval.specs.Terms.{seen_view};
ghost use Rattle.dn_net.specs.Terms.{IsLegalNet, is_agent, is_vectors, parts_of_node};
ghost use Rattle.dn_shape.specs.Terms.{HaveEqualViews, IsRuledNet, LeadOn, absorb_fault_view, absorb_outcome, has_port, is_port, is_rewritten, leads_to, maps_to, net_of_few_parts, net_past, net_within, node_of_few_parts, node_past, passed_limit, why_not_at, with_rows};
ghost use Rattle.dn_walk.specs.Terms.{bare_legs, leg_view};

use crate::copy::{node_copy, unit_copy};
use crate::fault::{AbsorbFault, Why};
use crate::limits::{MAX_DESTS, MAX_PARTS, has_long_entry, parts_of_node};
use crate::node::CheckedNode;
use crate::past::{entries_of, legs_of, rows_past};
use dn_base::OutOfMemory;
use dn_base::items::Items;
use dn_base::text::Text;
use dn_interval::{Rows, Seg};
use dn_net::net::Net;
use dn_net::node::{Dest, Entry, NodeDecl, Role, Unit};
use std::alloc::Global;

/// The net in which no node leads to this one. Each other node with a destination in it, or with
/// an `over` to it, is rewritten: in place of its map and its `over` stand the rows of the names
/// to which its addresses decode, with each name of the absorbed node replaced by those to which
/// that decodes. The rows ascend and are normal, and so do the destinations. The node itself
/// stays.
///
/// `NotAbsorbable` exactly where the node cannot be absorbed, with the first reason; else
/// `TooMany` exactly where the net passes a limit, with the first that it passes. Every view of
/// the net is kept, by the law [`crate::laws::absorb_keeps_views`].
pub fn absorb(alloc: Global, net: &Net, node: u16) -> Result<Net, AbsorbFault>
    requires legal { IsLegalNet net.now }
    requires there { node < length net.now }
    ensures made { Answers (λ n. n) absorb_fault_view result (absorb_outcome net.now node) }
    ensures rules { IfOk result IsRuledNet }
    ensures views { IfOk result (HaveEqualViews (λ x. x) net.now) }
{
    if let Some(why) = why_not(net, node) {
        return Err(AbsorbFault::NotAbsorbable { why });
    }
    net_past(alloc, net, node)
}

/// The first reason for which a node cannot be absorbed.
fn why_not(net: &Net, node: u16) -> Option<Why>
    requires { node < length net.now }
    ensures { result ≡ why_not_at net.now node (slice_get net.now node) }
{
    let role = net.role(node);
    if !net.accepts(node).is_empty() || is_vectors(role) {
        return Some(Why::Accepts);
    }
    if is_agent(role) {
        return Some(Why::Agent);
    }
    if net.unit(node).is_some() {
        return Some(Why::Unit);
    }
    if is_port(net, node) {
        return Some(Why::Port);
    }
    if leads_to(net, node, node) {
        return Some(Why::SelfStep);
    }
    None
}

fn is_vectors(role: Role) -> bool
    ensures { result ≡ is_vectors role }
{
    matches!(role, Role::Vectors)
}

fn is_agent(role: Role) -> bool
    ensures { result ≡ is_agent role }
{
    matches!(role, Role::Agent)
}

/// Whether some unit has the node as a port.
fn is_port(net: &Net, port: u16) -> bool
    ensures { result ≡ is_port net.now port }
{
    for node in 0..net.nodes() {
        if has_port(net.unit(node), port) {
            return true;
        }
    }
    false
}

/// Whether a unit is there that has the node as a port.
fn has_port(unit: Option<&Unit>, port: u16) -> bool
    ensures { result ≡ has_port port (option_copied unit.entry) }
{
    match unit {
        Some(unit) => is_among(unit.ports.as_slice(), port),
        None => false,
    }
}

/// Whether the node is among the ports.
fn is_among(ports: &[u16], port: u16) -> bool
    ensures { result ≡ list_any (λ p. p == port) ports.now }
{
    for p in ports {
        if *p == port {
            return true;
        }
    }
    false
}

/// Whether an entry of a node, or its `over`, leads to another.
fn leads_to(net: &Net, node: u16, to: u16) -> bool
    requires { node < length net.now }
    ensures { option_map (leads_to to) (slice_get net.now node) ≡ Some result }
{
    has_entry_to(net.entries(node), to) || net.over(node) == Some(to)
}

/// Whether one of the entries has a destination in the node.
fn has_entry_to(entries: &[Entry], to: u16) -> bool
    ensures { result ≡ list_any (maps_to to) entries.now }
{
    for entry in entries {
        if has_dest_in(entry.dests.as_slice(), to) {
            return true;
        }
    }
    false
}

/// Whether one of the destinations is in the node.
fn has_dest_in(dests: &[Dest], to: u16) -> bool
    ensures { result ≡ list_any (λ d. d.node == to) dests.now }
{
    for dest in dests {
        if dest.node == to {
            return true;
        }
    }
    false
}

/// The net past a node, or the first limit that it passes.
fn net_past(alloc: Global, net: &Net, past: u16) -> Result<Net, AbsorbFault>
    requires legal { IsLegalNet net.now }
    requires there { past < length net.now }
    ensures made { Answers (λ n. n) absorb_fault_view result
        (net_within (net_past net.now past) (passed_limit (net_past net.now past))) }
    ensures is { IfOk result (λ made. made ≡ net_past net.now past) }
{
    let found = few_parts_past(alloc, net, past).or(Err(AbsorbFault::OutOfMemory))?;
    let Some(made) = found else {
        return Err(AbsorbFault::TooMany { limit: MAX_PARTS });
    };
    if has_long_entry(&made) {
        return Err(AbsorbFault::TooMany { limit: MAX_DESTS });
    }
    Ok(made)
}

/// The net past a node. None where it has too many parts.
fn few_parts_past(alloc: Global, net: &Net, past: u16) -> Result<Option<Net>, OutOfMemory>
    requires legal { IsLegalNet net.now }
    requires there { past < length net.now }
    ensures { IfOk result (λ found. found ≡ net_of_few_parts (net_past net.now past)) }
{
    let legs = legs_of(alloc, CheckedNode { net, node: past })?;
    nodes_past(alloc, net, past, legs.as_slice())
}

/// The net past a node with these legs. None where it has too many parts: then no more of it was made than a net
/// may have, and of the node whose parts are too many only the rows.
fn nodes_past(
    alloc: Global,
    net: &Net,
    past: u16,
    onward: &[Seg],
) -> Result<Option<Net>, OutOfMemory>
    requires legal { IsLegalNet net.now }
    requires onward { option_map bare_legs (slice_get net.now past)
        ≡ Some (map leg_view onward.now) }
    requires lead { LeadOn onward.now }
    ensures { IfOk result (λ found. found ≡ net_of_few_parts (net_past net.now past)) }
{
    let mut made = Net::new(alloc);
    let mut room = MAX_PARTS as usize;
    for node in 0..net.nodes() {
        let found = node_past(alloc, CheckedNode { net, node }, past, onward, room)?;
        let Some(decl) = found else {
            return Ok(None);
        };
        room -= parts_of(&decl);
        made.add(decl)?;
    }
    Ok(Some(made))
}

/// The parts of a declaration.
fn parts_of(decl: &NodeDecl) -> usize
    ensures { result ≡ parts_of_node decl.now }
{
    let kept = decl.accepts.as_slice().len();
    kept + decl.entries.as_slice().len() + usize::from(decl.over.is_some())
}

/// A node, which has the rows past the absorbed one in place of its map and its `over` where it leads to
/// it. None where it has more parts than there is room for, which is known before its entries are made.
fn node_past(
    alloc: Global,
    checked: CheckedNode,
    past: u16,
    onward: &[Seg],
    room: usize,
) -> Result<Option<NodeDecl>, OutOfMemory>
    requires onward { option_map bare_legs (slice_get checked.net.now past)
        ≡ Some (map leg_view onward.now) }
    requires lead { LeadOn onward.now }
    ensures { IfOk result (λ found. option_map (λ n. node_of_few_parts room
        (node_past checked.entry.net.now past checked.entry.node n))
        (slice_get checked.entry.net.now checked.entry.node) ≡ Some found) }
{
    let (net, node) = (checked.net, checked.node);
    if !is_rewritten(net, past, node) {
        return node_kept(alloc, net, node, room);
    }
    let rows = rows_past(alloc, checked, past, onward)?;
    if room < parts_with_rows(net, node, &rows) {
        return Ok(None);
    }
    Ok(Some(with_rows(alloc, net, node, &rows)?))
}

/// Whether a node is rewritten where another is absorbed: it is not that one, and leads to it.
fn is_rewritten(net: &Net, past: u16, node: u16) -> bool
    requires { node < length net.now }
    ensures { option_map (is_rewritten past node) (slice_get net.now node) ≡ Some result }
{
    node != past && leads_to(net, node, past)
}

/// A node as it is. None where it has more parts than there is room for.
fn node_kept(
    alloc: Global,
    net: &Net,
    node: u16,
    room: usize,
) -> Result<Option<NodeDecl>, OutOfMemory>
    requires { node < length net.now }
    ensures { IfOk result (λ found. option_map (node_of_few_parts room)
        (slice_get net.now node) ≡ Some found) }
{
    if room < parts_of_node(net, node) {
        return Ok(None);
    }
    Ok(Some(node_copy(alloc, net, node)?))
}

/// The parts of a node that has rows in place of its map and its `over`.
fn parts_with_rows(net: &Net, node: u16, rows: &Rows) -> usize
    requires { node < length net.now }
    ensures { option_map (λ n. length n.accepts + length rows.now) (slice_get net.now node)
        ≡ Some result }
{
    net.accepts(node).len() + rows.rows().len()
}

/// A node with rows in place of its map and its `over`.
fn with_rows(alloc: Global, net: &Net, node: u16, rows: &Rows) -> Result<NodeDecl, OutOfMemory>
    requires { node < length net.now }
    ensures { IfOk result (λ n. option_map (with_rows (map seen_view rows.now))
        (slice_get net.now node) ≡ Some n) }
{
    Ok(NodeDecl {
        text: Text::of(alloc, net.text(node))?,
        role: net.role(node),
        accepts: Items::from_vec(net.accepts(node).to_vec(alloc)?),
        entries: entries_of(alloc, rows.rows())?,
        over: None,
        unit: unit_copy(alloc, net.unit(node))?,
    })
}
