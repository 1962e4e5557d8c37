//! Splitting a net.

ghost use Rattle.std.specs.Prelude.{◌≡◌, ◌<◌, ◌≤◌, ◌+◌, ◌++◌, length, map, slice_get, option_map, nat_lt, IfOk, OnOk, Some};
ghost use Rattle.dn_base.specs.Terms.{Answers};
ghost use Rattle.dn_net.specs.declared.node.NodeDecl.{NodeDecl};
ghost use Rattle.dn_net.specs.Terms.{IsLegalNet, node_limit};
ghost use Rattle.dn_shape.specs.Terms.{HaveEqualViews, IsRuledNet, accepter, accepter_text, divided_count, entry_onto, free_number, is_divided, new_nodes, part_limit, parts_of_split, parts_when_split, sending_node, sending_nodes, split_fault_view, split_name, split_outcome, with_accepter, with_accepters};

use crate::copy::{entries_copy, node_copy, unit_copy};
use crate::fault::SplitFault;
use crate::limits::{MAX_PARTS, parts_of_node, passed_limit};
use crate::node::CheckedNode;
use crate::spans::maximal_accepts;
use dn_base::OutOfMemory;
use dn_base::items::Items;
use dn_base::text::Text;
use dn_net::checked::CheckedNet;
use dn_net::net::Net;
use dn_net::node::{Block, Dest, Entry, MAX_NODES, NodeDecl, Role};
use std::alloc::Global;

/// The net in which no node both accepts and translates. Each node that has accept blocks and a
/// map or an `over` loses its blocks. Their maximal spans are what a new node behind the old ones
/// accepts, and the old node sends them there. The new node of `N` has the first of the names
/// `N.acc0`, `N.acc1` and so on that names no node.
///
/// `TooMany` exactly where the split net passes a limit, with the first that it passes. Every
/// view of the net is kept, by the law [`crate::laws::split_keeps_views`].
pub fn split(alloc: Global, net: &Net) -> Result<Net, SplitFault>
    requires legal { IsLegalNet net.now }
    ensures made { Answers (λ n. n) split_fault_view result (split_outcome net.now) }
    ensures rules { IfOk result IsRuledNet }
    ensures views { IfOk result (HaveEqualViews (split_name net.now) net.now) }
{
    if usize::from(net.nodes()) + usize::from(divided_count(net)) > MAX_NODES {
        return Err(SplitFault::TooMany {
            limit: MAX_NODES as u32,
        });
    }
    let many = has_many_parts(alloc, CheckedNet { net }).or(Err(SplitFault::OutOfMemory))?;
    if many {
        return Err(SplitFault::TooMany { limit: MAX_PARTS });
    }
    let mut made = sending_nodes(alloc, net).or(Err(SplitFault::OutOfMemory))?;
    add_accepters(alloc, CheckedNet { net }, &mut made).or(Err(SplitFault::OutOfMemory))?;
    match passed_limit(&made) {
        Some(limit) => Err(SplitFault::TooMany { limit }),
        None => Ok(made),
    }
}

/// How many nodes are divided.
fn divided_count(net: &Net) -> u16
    ensures { result ≡ divided_count net.now }
{
    let mut count = 0;
    for node in 0..net.nodes() {
        count += u16::from(is_divided(net, node));
    }
    count
}

/// Whether a node has accept blocks, and a map or an `over`.
fn is_divided(net: &Net, node: u16) -> bool
    requires { node < length net.now }
    ensures { option_map is_divided (slice_get net.now node) ≡ Some result }
{
    !net.accepts(node).is_empty() && (!net.entries(node).is_empty() || net.over(node).is_some())
}

/// Whether the split net has too many parts, which are counted before any of it is made: with the
/// memory of the spans of one node.
fn has_many_parts(alloc: Global, checked: CheckedNet) -> Result<bool, OutOfMemory>
    ensures { IfOk result (λ many. many
        ≡ nat_lt part_limit (parts_of_split checked.entry.net.now)) }
{
    let mut room = MAX_PARTS as usize;
    let net = checked.net;
    for node in 0..net.nodes() {
        let parts = parts_when_split(alloc, CheckedNode { net, node })?;
        if room < parts {
            return Ok(true);
        }
        room -= parts;
    }
    Ok(false)
}

/// The parts of a node in the split net, with those of the new node for it.
fn parts_when_split(alloc: Global, checked: CheckedNode) -> Result<usize, OutOfMemory>
    ensures { IfOk result (λ parts. option_map parts_when_split
        (slice_get checked.entry.net.now checked.entry.node) ≡ Some parts) }
{
    let (net, node) = (checked.net, checked.node);
    if !is_divided(net, node) {
        return Ok(parts_of_node(net, node));
    }
    let spans = maximal_accepts(alloc, checked)?.len();
    let kept = net.entries(node).len() + usize::from(net.over(node).is_some());
    Ok(spans + (spans + kept))
}

/// The old nodes of the split net.
fn sending_nodes(alloc: Global, net: &Net) -> Result<Net, OutOfMemory>
    requires legal { IsLegalNet net.now }
    requires few { length net.now + divided_count net.now ≤ node_limit }
    ensures { IfOk result (λ made. made ≡ sending_nodes (length net.now) net.now) }
{
    let count = net.nodes();
    let mut made = Net::new(alloc);
    let mut next = count;
    for node in 0..count {
        made.add(sending_node(alloc, CheckedNode { net, node }, next)?)?;
        next += u16::from(is_divided(net, node));
    }
    Ok(made)
}

/// An old node of the split net, which sends what it accepts to the next new node where it is divided.
fn sending_node(alloc: Global, checked: CheckedNode, next: u16) -> Result<NodeDecl, OutOfMemory>
    ensures { IfOk result (λ n. option_map (sending_node next)
        (slice_get checked.entry.net.now checked.entry.node) ≡ Some n) }
{
    let (net, node) = (checked.net, checked.node);
    if !is_divided(net, node) {
        return node_copy(alloc, net, node);
    }
    let mut entries = entries_copy(alloc, net.entries(node))?;
    let spans = maximal_accepts(alloc, checked)?;
    push_spans(alloc, &mut entries, &spans, next)?;
    Ok(NodeDecl {
        text: Text::of(alloc, net.text(node))?,
        role: net.role(node),
        accepts: Items::new(alloc),
        entries: Items::from_vec(entries),
        over: net.over(node),
        unit: unit_copy(alloc, net.unit(node))?,
    })
}

/// Adds an entry for each span, to the same addresses of a node.
fn push_spans(
    alloc: Global,
    entries: &mut Vec<Entry>,
    spans: &[Block],
    node: u16,
) -> Result<(), OutOfMemory>
    ensures { OnOk result (entries.new.items
        ≡ entries.old.items ++ map (entry_onto node) spans.now) }
{
    for span in spans {
        let mut dests = Vec::new(alloc);
        dests.push(Dest {
            node,
            addr: span.lo,
        })?;
        entries.push(Entry {
            block: *span,
            dests: Items::from_vec(dests),
        })?;
    }
    Ok(())
}

/// Adds the new nodes of the split net.
fn add_accepters(alloc: Global, checked: CheckedNet, made: &mut Net) -> Result<(), OutOfMemory>
    requires few { length made.old + divided_count checked.net.now ≤ node_limit }
    ensures { OnOk result (made.new ≡ with_accepters made.old checked.entry.net.now) }
{
    let net = checked.net;
    for node in 0..net.nodes() {
        add_accepter(alloc, CheckedNode { net, node }, made)?;
    }
    Ok(())
}

/// Adds the new node for an old one, where that is divided.
fn add_accepter(alloc: Global, checked: CheckedNode, made: &mut Net) -> Result<(), OutOfMemory>
    requires few { (n : NodeDecl) → slice_get checked.net.now checked.node ≡ Some n
        → length made.old + new_nodes n ≤ node_limit }
    ensures { OnOk result (option_map (with_accepter made.old)
        (slice_get checked.entry.net.now checked.entry.node) ≡ Some made.new) }
{
    if is_divided(checked.net, checked.node) {
        let decl = accepter(alloc, checked, made)?;
        made.add(decl)?;
    }
    Ok(())
}

/// The new node of a divided one.
fn accepter(alloc: Global, checked: CheckedNode, made: &Net) -> Result<NodeDecl, OutOfMemory>
    ensures { IfOk result (λ n. option_map (accepter made.now)
        (slice_get checked.entry.net.now checked.entry.node) ≡ Some n) }
{
    let accepts = maximal_accepts(alloc, checked)?;
    let text = checked.net.text(checked.node);
    Ok(NodeDecl {
        text: free_text(alloc, made, text)?,
        role: Role::Plain,
        accepts: Items::from_vec(accepts),
        entries: Items::new(alloc),
        over: None,
        unit: None,
    })
}

/// The first of the names `N.acc0`, `N.acc1` and so on that names no node.
fn free_text(alloc: Global, net: &Net, text: &str) -> Result<Text, OutOfMemory>
    ensures { IfOk result (λ t. t ≡ accepter_text text.now (free_number net.now text.now)) }
{
    for number in 0..net.nodes() {
        let tried = accepter_text(alloc, text, number)?;
        if net.find(tried.as_str()).is_none() {
            return Ok(tried);
        }
    }
    accepter_text(alloc, text, net.nodes())
}

/// The name `N.accK`.
fn accepter_text(alloc: Global, text: &str, number: u16) -> Result<Text, OutOfMemory>
    ensures { IfOk result (λ t. t ≡ accepter_text text.now number) }
{
    Ok(Text::from_string(format!(in alloc; "{text}.acc{number}")?)?)
}
