//! Which units lead to which.

ghost use Rattle.std.specs.Prelude.{◌≡◌, ◌<◌, ◌≤◌, ◌*◌, ℕ, [], min, nat_lt, filter, length, map, slice_index_or, slice_set, IfOk, IsTrue};
ghost use Rattle.std.specs.List.{All, list_all};
ghost use Rattle.std.specs.Option.{option_copied};
ghost use Rattle.dn_net.specs.Terms.{has_plain_shape, has_plain_unit, ports_within, unit_numbers};
ghost use Rattle.dn_walk.specs.declared.walks.WalkRow.{WalkRow};
ghost use Rattle.dn_walk.specs.Terms.{AreLows, leads_by_lows, next_by_rows, next_units_by, row_view};

use crate::walks::WalkRow;
use dn_base::items::Items;
use dn_net::checked::CheckedNet;
use dn_net::net::Net;
use dn_net::node::{TOP, Unit};
use std::alloc::{AllocError, Global};

/// The numbers of the units, ascending.
pub(crate) fn unit_numbers(alloc: Global, net: &Net) -> Result<Vec<u16>, AllocError>
    ensures { IfOk result (λ v. v.items ≡ unit_numbers net.now) }
{
    let mut units = Vec::new(alloc);
    for node in 0..net.nodes() {
        if net.is_unit(node) {
            units.push(node)?;
        }
    }
    Ok(units)
}

/// For each node by its number the units to which it leads, ascending: none where it is no unit.
pub(crate) fn next_units(
    alloc: Global,
    checked: CheckedNet,
    rows: &[WalkRow],
    units: &[u16],
) -> Result<Vec<Items<u16>>, AllocError>
    requires few { length checked.net.now ≤ 1024 }
    requires starts { All (λ (r : WalkRow). r.start < length checked.net.now) rows.now }
    requires ends { All (λ (r : WalkRow). r.end < length checked.net.now) rows.now }
    requires units { units.now ≡ unit_numbers checked.net.now }
    ensures next { IfOk result (λ v. (u : ℕ) → u < length checked.entry.net.now
        → slice_index_or v.items u []
        ≡ next_by_rows checked.entry.net.now (map row_view rows.now) u) }
    ensures size { IfOk result (λ v. length v.items ≡ length checked.entry.net.now) }
{
    let net = checked.net;
    let nodes = usize::from(net.nodes());
    let lows = lows(alloc, nodes, rows)?;
    let mut next = Vec::with_capacity(alloc, nodes)?;
    for node in 0..net.nodes() {
        next.push(next_of(alloc, nodes, &lows, units, net.unit(node))?)?;
    }
    Ok(next)
}

/// For each node and each node behind it, at `start * nodes + end`, the lowest address from which a
/// walk leads from the one to the other; an address past the top where none does.
fn lows(alloc: Global, nodes: usize, rows: &[WalkRow]) -> Result<Vec<u64>, AllocError>
    requires few { nodes ≤ 1024 }
    requires starts { All (λ (r : WalkRow). r.start < nodes) rows.now }
    requires ends { All (λ (r : WalkRow). r.end < nodes) rows.now }
    ensures { IfOk result (λ v. AreLows nodes (map row_view rows.now) v.items) }
{
    let mut lows = vec![in alloc; TOP + 1; nodes * nodes]?;
    for row in rows {
        let place = usize::from(row.start) * nodes + usize::from(row.end);
        lower(&mut lows, place, row.span.lo);
    }
    Ok(lows)
}

/// Lowers the number at a place to another, if that is less.
fn lower(lows: &mut Vec<u64>, place: usize, addr: u64)
    requires { place < length lows.old.items }
    ensures { lows.new.items ≡ slice_set lows.old.items place
        (min (slice_index_or lows.old.items place 0) addr) }
{
    lows[place] = lows[place].min(addr);
}

/// The units to which a unit leads, in the order of `units`.
fn next_of(
    alloc: Global,
    nodes: usize,
    lows: &[u64],
    units: &[u16],
    unit: Option<&Unit>,
) -> Result<Items<u16>, AllocError>
    requires plain { IsTrue (has_plain_unit (option_copied unit)) }
    requires ports { IsTrue (ports_within nodes (option_copied unit)) }
    requires size { length lows.now ≡ nodes * nodes }
    requires few { nodes ≤ 1024 }
    requires units { All (λ w. w < nodes) units.now }
    ensures { IfOk result (λ l. l ≡ next_units_by (leads_by_lows nodes lows.now) units.now
        (option_copied unit.entry)) }
{
    match unit {
        Some(unit) => led_by(alloc, nodes, lows, units, unit),
        None => Ok(Items::new(alloc)),
    }
}

fn led_by(
    alloc: Global,
    nodes: usize,
    lows: &[u64],
    units: &[u16],
    unit: &Unit,
) -> Result<Items<u16>, AllocError>
    requires plain { IsTrue (has_plain_shape unit.now) }
    requires ports { IsTrue (list_all (λ p. nat_lt p nodes) unit.now.ports) }
    requires size { length lows.now ≡ nodes * nodes }
    requires few { nodes ≤ 1024 }
    requires units { All (λ w. w < nodes) units.now }
    ensures { IfOk result (λ l. l ≡ filter (leads_by_lows nodes lows.now unit.now) units.now) }
{
    let mut next = Items::new(alloc);
    for other in units {
        if does_lead(nodes, lows, unit, *other) {
            next.push(*other)?;
        }
    }
    Ok(next)
}

/// Whether a port of the unit is the other, or leads to it from an address below the unit's reach.
fn does_lead(nodes: usize, lows: &[u64], unit: &Unit, other: u16) -> bool
    requires plain { IsTrue (has_plain_shape unit.now) }
    requires ports { IsTrue (list_all (λ p. nat_lt p nodes) unit.now.ports) }
    requires size { length lows.now ≡ nodes * nodes }
    requires few { nodes ≤ 1024 }
    requires other { other < nodes }
    ensures { result ≡ leads_by_lows nodes lows.now unit.now other }
{
    let limit = 1u64 << unit.reach;
    for port in unit.ports.as_slice() {
        let place = usize::from(*port) * nodes + usize::from(other);
        if *port == other || lows[place] < limit {
            return true;
        }
    }
    false
}
