//! The rules that each node of a net keeps.

ghost use Rattle.std.specs.Prelude.{◌≡◌, ◌<◌, ◌+◌, ◌&&◌, ◌||◌, None, Some, not, nat_le, OnOk, IsTrue, All, length, slice_get, Option};
ghost use Rattle.std.specs.List.{list_all, list_any};
ghost use Rattle.std.specs.Option.{option_copied, is_some};
ghost use Rattle.std.specs.List.Sorted.{IsNonDecreasingBy};
ghost use Rattle.dn_base.specs.Terms.{Checks};
ghost use Rattle.dn_net.specs.Terms.{KeepsRules, block_in_range, count_below, dest_in_range, dests_repeat, entry_in_range, fault_of_node, has_plain_unit, has_plain_units, is_accepted_in, is_vectors, node_fault, node_fault_view, ports_repeat, same_dest, top, unit_repeats};
ghost use Rattle.dn_net.specs.declared.node.NodeDecl.{NodeDecl};

use crate::net::Net;
use crate::node::{Block, Dest, Entry, Role, TOP, Unit};
use crate::spans::{NodeBlock, accepted_addresses, first_overlap, merged_spans};
use std::alloc::Global;
use thiserror::Error;

/// The most different addresses that a `vectors` node accepts.
const MAX_VECTORS: u64 = 4096;

/// The first node rule that a net breaks, node by node, or want of memory.
#[derive(Clone, Copy, Debug, PartialEq, Eq, Error)]
pub enum NodeFault {
    /// A block has `lo > hi` or `hi` past the top, or is sent past the top.
    #[error("Range")]
    Range { node: u16 },
    /// An address lies in two map blocks, or in a map block and an accept block; the least such address.
    #[error("Overlap")]
    Overlap { node: u16, addr: u64 },
    /// An entry has two equal destinations, or a unit names one port twice.
    #[error("Repeat")]
    Repeat { node: u16 },
    /// A `vectors` node has a map or an `over`, or accepts more than 4,096 different addresses.
    #[error("VectorSpace")]
    VectorSpace { node: u16 },
    /// There was no memory for the check.
    #[error("OutOfMemory")]
    OutOfMemory,
}

impl Net {
    /// Tests the node rules, node by node.
    pub fn check_nodes(&self, alloc: Global) -> Result<(), NodeFault>
        ensures checks { Checks node_fault_view result (node_fault self.now) }
        ensures rules { OnOk result (All KeepsRules self.now) }
    {
        for node in 0..self.nodes() {
            self.check_node(alloc, node)?;
        }
        Ok(())
    }

    /// Whether each unit has a shape that a unit may have, whatever its kind: see [`Unit::has_plain_shape`].
    pub fn has_plain_units(&self) -> bool
        ensures { result ≡ has_plain_units self.now }
    {
        for node in 0..self.nodes() {
            if !is_plain_unit(self.unit(node)) {
                return false;
            }
        }
        true
    }

    /// Tests the rules of one node.
    fn check_node(&self, alloc: Global, node: u16) -> Result<(), NodeFault>
        requires { node < length self.now }
        ensures { (d : NodeDecl) → slice_get self.now node ≡ Some d
            → Checks node_fault_view result (fault_of_node node d) }
    {
        let accepts = self.accepts(node);
        let entries = self.entries(node);
        if !are_in_range(accepts, entries) {
            return Err(NodeFault::Range { node });
        }
        let Ok(spans) = merged_spans(alloc, self.entry_order(node), self.accept_rows(node)) else {
            return Err(NodeFault::OutOfMemory);
        };
        if let Some(addr) = first_overlap(&spans) {
            return Err(NodeFault::Overlap { node, addr });
        }
        if has_repeat(entries, self.unit(node)) {
            return Err(NodeFault::Repeat { node });
        }
        if !has_vector_space(self.role(node), entries, self.over(node), &spans) {
            return Err(NodeFault::VectorSpace { node });
        }
        Ok(())
    }
}

/// Whether a node is no unit, or one of a plain shape.
fn is_plain_unit(unit: Option<&Unit>) -> bool
    ensures { result ≡ has_plain_unit (option_copied unit.entry) }
{
    match unit {
        Some(unit) => unit.has_plain_shape(),
        None => true,
    }
}

/// Whether a node with these parts is no `vectors` node, or has no map, no `over` and not too many addresses.
fn has_vector_space(role: Role, entries: &[Entry], over: Option<u16>, spans: &[NodeBlock]) -> bool
    requires in_range { All (λ s. IsTrue (block_in_range s.block)) spans.now }
    requires sorted { IsNonDecreasingBy (λ s. s.block.lo) spans.now }
    ensures { result ≡ (not (is_vectors role) || ((nat_le (length entries.now) 0
        && not (is_some over)) && nat_le (count_below (is_accepted_in spans.now) (top + 1)) 4096)) }
{
    match role {
        Role::Vectors => {
            entries.is_empty() && over.is_none() && accepted_addresses(spans) <= MAX_VECTORS
        }
        _ => true,
    }
}

fn are_in_range(accepts: &[Block], entries: &[Entry]) -> bool
    ensures { result ≡ (list_all block_in_range accepts.now
        && list_all entry_in_range entries.now) }
{
    are_blocks_in_range(accepts) && are_entries_in_range(entries)
}

fn are_blocks_in_range(blocks: &[Block]) -> bool
    ensures { result ≡ list_all block_in_range blocks.now }
{
    for block in blocks {
        if !is_block_in_range(*block) {
            return false;
        }
    }
    true
}

fn are_entries_in_range(entries: &[Entry]) -> bool
    ensures { result ≡ list_all entry_in_range entries.now }
{
    for entry in entries {
        if !(is_block_in_range(entry.block)
            && are_dests_in_range(entry.block, entry.dests.as_slice()))
        {
            return false;
        }
    }
    true
}

fn is_block_in_range(block: Block) -> bool
    ensures { result ≡ block_in_range block }
{
    block.lo <= block.hi && block.hi <= TOP
}

fn are_dests_in_range(block: Block, dests: &[Dest]) -> bool
    requires { IsTrue (block_in_range block) }
    ensures { result ≡ list_all (dest_in_range block) dests.now }
{
    let last = block.hi - block.lo;
    for dest in dests {
        if TOP - last < dest.addr {
            return false;
        }
    }
    true
}

fn has_repeat(entries: &[Entry], unit: Option<&Unit>) -> bool
    ensures { result ≡ (list_any (λ e. dests_repeat e.dests) entries.now
        || unit_repeats (option_copied unit.entry)) }
{
    for entry in entries {
        if do_dests_repeat(entry.dests.as_slice()) {
            return true;
        }
    }
    match unit {
        Some(unit) => do_ports_repeat(unit.ports.as_slice()),
        None => false,
    }
}

/// Whether two destinations are equal. An entry has at most 8, so each is compared with each.
fn do_dests_repeat(dests: &[Dest]) -> bool
    ensures { result ≡ dests_repeat dests.now }
{
    let mut rest = dests;
    while let [dest, after @ ..] = rest {
        if has_dest(after, *dest) {
            return true;
        }
        rest = after;
    }
    false
}

fn has_dest(dests: &[Dest], dest: Dest) -> bool
    ensures { result ≡ list_any (same_dest dest) dests.now }
{
    for other in dests {
        if dest.node == other.node && dest.addr == other.addr {
            return true;
        }
    }
    false
}

/// Whether two ports are equal. A unit has few, so each is compared with each.
fn do_ports_repeat(ports: &[u16]) -> bool
    ensures { result ≡ ports_repeat ports.now }
{
    let mut rest = ports;
    while let [port, after @ ..] = rest {
        if after.contains(port) {
            return true;
        }
        rest = after;
    }
    false
}
