//! Of the names in units to which a node leads those that a placement can meet.

ghost use Rattle.std.specs.Prelude.{◌≡◌, ℕ, ◌<◌, ◌≤◌, length, Some, IfOk, OnOk, ◌||◌, IsTrue};
ghost use Rattle.std.specs.List.{list_any};
ghost use Rattle.dn_interval.specs.declared.row.End.{End};
ghost use Rattle.dn_interval.specs.declared.span.TheConstants.{TOP};
ghost use Rattle.dn_interval.specs.Terms.{segs_give};
ghost use Rattle.dn_net.specs.declared.node.Unit.{Unit as UnitPart};
ghost use Rattle.dn_net.specs.Terms.{unit_at};
ghost use Rattle.dn_walk.specs.Terms.{name_of_end};
ghost use Rattle.dn_flat.specs.Terms.{levels_give};
ghost use Rattle.dn_view.specs.Terms.{ComesIn, IsFitted, IsSystem, IsTrial, first_slot_name, hop_near_by, hops_near, leads_on, name_count, stops_of};

use crate::OutOfMemory;
use crate::near::push_near;
use crate::records::unit_page;
use crate::shown::node_stops;
use crate::system::System;
use crate::trial::Trial;
use crate::untouched::leads_to_units;
use dn_interval::{End, Rows, Seg};
use dn_net::checked::CheckedNet;
use dn_tables::placement::Hop;
use std::alloc::Global;

/// Names in units to which the addresses of a node lead, as segments: at least those that come to a name
/// newly in a trial. Where no unit to which the node leads goes on to units, these are the rows with names
/// of the slots of hops, and no other takes memory.
pub(crate) fn met_stops(alloc: Global, trial: Trial, node: u16) -> Result<Vec<Seg>, OutOfMemory>
    requires trial { IsTrial meaning trial }
    requires there { node < length trial.system.flats.now.nodes }
    ensures given { IfOk result (λ segs. (a : ℕ) (s : End) → a ≤ TOP
        → IsTrue (segs_give segs.items a s)
        → IsTrue (levels_give (stops_of trial.entry.system.flats.now node) a s)) }
    ensures met { IfOk result (λ segs. (a : ℕ) (s z : End) → a ≤ TOP
        → IsTrue (levels_give (stops_of trial.entry.system.flats.now node) a s)
        → ComesIn meaning trial.entry (name_of_end s) (name_of_end z)
        → IsTrue (segs_give segs.items a s)) }
{
    let levels = trial.system.flats.of(node);
    let units = levels.units.as_slice();
    if some_lead_on(trial.system, units) {
        return node_stops(alloc, trial.system.flats, node);
    }
    let stops = levels.stops.as_slice();
    hop_stops(alloc, trial, stops)
}

/// Whether one of the nodes is a unit with a port whose node leads to units.
pub(crate) fn some_lead_on(system: System, nodes: &[u16]) -> bool
    requires { IsSystem meaning system }
    ensures { result ≡ list_any (leads_on system.entry.on.net.now system.entry.flats.now) nodes.now }
{
    for node in nodes {
        if leads_to_units(system, *node) {
            return true;
        }
    }
    false
}

/// The names that levels give by a row with names of the slots of a hop, as segments.
fn hop_stops(alloc: Global, trial: Trial, levels: &[Rows]) -> Result<Vec<Seg>, OutOfMemory>
    requires { IsTrial meaning trial }
    ensures { IfOk result (λ segs. (a : ℕ) (z : End) → segs_give segs.items a z
        ≡ hops_near trial.entry.system.on.net.now trial.entry.request.now.size
        trial.entry.placement.now.hops levels.now a z) }
{
    let mut segs = Vec::new(alloc);
    let checked = CheckedNet {
        net: trial.system.on.net,
    };
    let hops = trial.placement.hops();
    for hop in hops {
        push_hop(&mut segs, checked, trial.request.size, *hop, levels)?;
    }
    Ok(segs)
}

/// Adds the names that levels give by a row with names of the slots of a hop.
fn push_hop(
    segs: &mut Vec<Seg>,
    checked: CheckedNet,
    size: u64,
    hop: Hop,
    levels: &[Rows],
) -> Result<(), OutOfMemory>
    requires some { 1 ≤ size }
    requires fitted { IsFitted checked.net.now size hop }
    ensures { OnOk result ((a : ℕ) (z : End) → segs_give segs.new.items a z
        ≡ (segs_give segs.old.items a z || hop_near_by
        (unit_at checked.entry.net.now hop.unit) size hop levels.now a z)) }
{
    let (first, count) = slot_names(checked, size, hop);
    push_near(segs, levels, first, count)
}

/// The first name of the first slot of a hop, and how many there are from it up to the last of its last slot.
fn slot_names(checked: CheckedNet, size: u64, hop: Hop) -> (End, u64)
    requires some { 1 ≤ size }
    requires fitted { IsFitted checked.net.now size hop }
    ensures first { (u : UnitPart) → unit_at checked.entry.net.now hop.unit ≡ Some u
        → result.0 ≡ first_slot_name u hop }
    ensures count { (u : UnitPart) → unit_at checked.entry.net.now hop.unit ≡ Some u
        → result.1 ≡ name_count u size hop }
{
    let page = 1 << unit_page(checked, hop.unit);
    let base = hop.x - hop.x % page;
    let last = hop.x + size - 1;
    let end = last - last % page + page;
    let node = hop.unit;
    (End { node, base }, end - base)
}
