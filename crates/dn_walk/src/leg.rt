//! The legs of each node: what its choices lead on, and where to.

ghost use Rattle.std.specs.Prelude.{◌≡◌, ◌++◌, map, filter, slice_get, option_map, not, nat_lt, IfOk, OnOk, IsTrue, Contains, Some, ◌<◌, length};
ghost use Rattle.std.specs.List.{list_all};
ghost use Rattle.std.specs.List.Sorted.{IsNonDecreasingBy, IsPermutation, IsStableByKey};
ghost use Rattle.std.specs.Ordering.{nat_cmp};
ghost use Rattle.dn_interval.specs.Terms.{AreMaximal};
ghost use Rattle.dn_net.specs.Terms.{block_in_range, dest_in_range, entry_in_range, in_order, places_from};
ghost use Rattle.dn_walk.specs.Terms.{bare_entry_legs, bare_gap_legs, bare_legs, dest_leg, gap_leg, gaps_by, leg_before, leg_view, place_legs, span_view};

use crate::accepted::accepted_set;
use crate::spans::mapped_set;
use dn_base::OutOfMemory;
use dn_base::items::Items;
use dn_interval::{Seg, Span, SpanSet};
use dn_net::checked::CheckedNet;
use dn_net::entries::Place;
use dn_net::node::{Block, Dest, Entry};
use std::alloc::Global;
use std::marker::Model;

/// The legs of each node of a net, each of them a segment, which contracts see as lists of legs.
#[derive(Drop)]
pub struct Legs {
    nodes: Vec<Items<Seg>>,
}

impl Model for Legs {
    ghost use Rattle.std.specs.Prelude.{List, map};
    ghost use Rattle.dn_walk.specs.Legs.{BareLeg, leg_view};

    ghost Value = { List (List BareLeg) };

    ghost view = { λ l. map (map leg_view) l.nodes.items };
}

impl Legs {
    /// The legs of a node, by their first addresses.
    pub fn of(&self, node: u16) -> &[Seg]
        requires { node < length self.now }
        ensures { slice_get self.now node ≡ Some (map leg_view result.now) }
    {
        self.nodes[usize::from(node)].as_slice()
    }
}

/// The legs of each node of a net.
pub fn net_legs(alloc: Global, checked: CheckedNet) -> Result<Legs, OutOfMemory>
    ensures { IfOk result (λ legs. legs ≡ map bare_legs checked.entry.net.now) }
{
    let count = checked.net.nodes();
    let mut nodes = Vec::with_capacity(alloc, usize::from(count))?;
    for node in 0..count {
        let legs = node_legs(alloc, checked, node)?;
        nodes.push(legs)?;
    }
    Ok(Legs { nodes })
}

/// The legs of a node by their first addresses. Those of one entry stand in the order of its destinations.
pub fn node_legs(alloc: Global, checked: CheckedNet, node: u16) -> Result<Items<Seg>, OutOfMemory>
    requires there { node < length checked.net.now }
    ensures { IfOk result (λ legs. option_map bare_legs (slice_get checked.entry.net.now node)
        ≡ Some (map leg_view legs)) }
{
    let net = checked.net;
    let gaps = gap_legs(alloc, checked, node)?;
    let legs = merged_legs(
        alloc,
        net.entries(node),
        net.entry_order(node),
        gaps.as_slice(),
    )?;
    Ok(Items::from_vec(legs))
}

/// The legs of entries, whose blocks stand in order, and those of gaps, merged by their first addresses.
fn merged_legs(
    alloc: Global,
    entries: &[Entry],
    order: &[Place],
    gaps: &[Seg],
) -> Result<Vec<Seg>, OutOfMemory>
    requires entries { IsTrue (list_all entry_in_range entries.now) }
    requires every { IsPermutation (places_from 0 entries.now) order.now }
    requires stable { IsStableByKey (λ p. p.block.lo) nat_cmp (places_from 0 entries.now)
        order.now }
    requires order { IsNonDecreasingBy (λ p. p.block.lo) order.now }
    requires gaps { IsNonDecreasingBy (λ s. s.span.lo) gaps.now }
    ensures { IfOk result (λ v. map leg_view v.items
        ≡ in_order leg_before (bare_entry_legs entries.now ++ map leg_view gaps.now)) }
{
    let mut legs = Vec::new(alloc);
    let mut rest = gaps;
    for place in order {
        let (before, others) = split_below(rest, place.block.lo);
        legs.extend_from_slice(before)?;
        push_entry(&mut legs, entries, *place)?;
        rest = others;
    }
    legs.extend_from_slice(rest)?;
    Ok(legs)
}

/// The legs that begin below an address, and the others.
fn split_below(legs: &[Seg], addr: u64) -> (&[Seg], &[Seg])
    requires { IsNonDecreasingBy (λ s. s.span.lo) legs.now }
    ensures below { result.0.now ≡ filter (λ s. nat_lt s.span.lo addr) legs.now }
    ensures others { result.1.now ≡ filter (λ s. not (nat_lt s.span.lo addr)) legs.now }
    ensures sorted { IsNonDecreasingBy (λ s. s.span.lo) result.1.now }
{
    legs.split_at(legs.partition_point(|leg| leg.span.lo < addr))
}

/// A leg for each destination of the entry at a place.
fn push_entry(legs: &mut Vec<Seg>, entries: &[Entry], place: Place) -> Result<(), OutOfMemory>
    requires entries { IsTrue (list_all entry_in_range entries.now) }
    requires there { Contains (places_from 0 entries.now) place }
    ensures { OnOk result (map leg_view legs.new.items
        ≡ map leg_view legs.old.items ++ place_legs entries.now place) }
{
    let entry = &entries[place.entry];
    push_dests(legs, place.block, entry.dests.as_slice())
}

/// A leg from the addresses of a block for each destination.
fn push_dests(legs: &mut Vec<Seg>, block: Block, dests: &[Dest]) -> Result<(), OutOfMemory>
    requires block { IsTrue (block_in_range block) }
    requires dests { IsTrue (list_all (dest_in_range block) dests.now) }
    ensures { OnOk result (map leg_view legs.new.items
        ≡ map leg_view legs.old.items ++ map (dest_leg block) dests.now) }
{
    for dest in dests {
        let span = Span {
            lo: block.lo,
            hi: block.hi,
        };
        legs.push(Seg {
            span,
            node: dest.node,
            base: dest.addr,
        })?;
    }
    Ok(())
}

/// The legs of a node's gaps, by their first addresses: none, where it has no `over`.
fn gap_legs(alloc: Global, checked: CheckedNet, node: u16) -> Result<Vec<Seg>, OutOfMemory>
    requires there { node < length checked.net.now }
    ensures legs { IfOk result (λ v. option_map (λ d. bare_gap_legs d.over
        (gaps_by d.accepts d.entries)) (slice_get checked.entry.net.now node)
        ≡ Some (map leg_view v.items)) }
    ensures sorted { IfOk result (λ v. IsNonDecreasingBy (λ s. s.span.lo) v.items) }
{
    let Some(over) = checked.net.over(node) else {
        return Ok(Vec::new(alloc));
    };
    let gaps = gaps(alloc, checked, node)?;
    legs_to(alloc, over, gaps.spans())
}

/// A leg for each gap, to the same addresses of a node.
fn legs_to(alloc: Global, node: u16, gaps: &[Span]) -> Result<Vec<Seg>, OutOfMemory>
    requires { AreMaximal gaps.now }
    ensures legs { IfOk result (λ v. map leg_view v.items
        ≡ map (gap_leg node) (map span_view gaps.now)) }
    ensures sorted { IfOk result (λ v. IsNonDecreasingBy (λ s. s.span.lo) v.items) }
{
    let mut legs = Vec::with_capacity(alloc, gaps.len())?;
    for gap in gaps {
        legs.push(Seg {
            span: *gap,
            node,
            base: gap.lo,
        })?;
    }
    Ok(legs)
}

/// The addresses that lie in no block of a node: neither in its accept blocks nor in its map blocks, both in order.
fn gaps(alloc: Global, checked: CheckedNet, node: u16) -> Result<SpanSet, OutOfMemory>
    requires there { node < length checked.net.now }
    ensures { IfOk result (λ s. option_map (λ d. gaps_by d.accepts d.entries)
        (slice_get checked.entry.net.now node) ≡ Some (map span_view s)) }
{
    let accepted = accepted_set(alloc, checked.net, node)?;
    let mapped = mapped_set(alloc, checked.net.entry_order(node))?;
    let unaccepted = accepted.complement(alloc)?;
    let unmapped = mapped.complement(alloc)?;
    unaccepted.meet(alloc, &unmapped)
}
