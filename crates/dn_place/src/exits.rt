//! The outputs of a unit that give what comes next on the way to memory: the request's buffer, or the inputs of a hop.

ghost use Rattle.std.specs.Prelude.{◌≡◌, ℕ, ◌+◌, ◌^◌, ◌<◌, ◌≤◌, List, IfOk, OnOk, IsTrue, false, Some, length, slice_get, ◌∷◌};
ghost use Rattle.dn_interval.specs.declared.span.TheConstants.{TOP};
ghost use Rattle.dn_interval.specs.declared.row.Row.{Row};
ghost use Rattle.dn_net.specs.Terms.{unit_at};
ghost use Rattle.dn_view.specs.Terms.{IsSystem};
ghost use Rattle.dn_place.specs.Terms.{AreExits, AreExitsTo, AreOutputs, AreToward, HasUnitBounds, InRow, IsAloneBefore, IsClear, IsExitSearch, IsRequest, Passing, exit_rank, hops_view, wanted_name};

use crate::OutOfMemory;
use crate::blocks::{block_of, is_alone};
use crate::hops::Hops;
use crate::rows::{is_clear, lent_rows, made_rows, output, wanted_name};
use crate::slots::power;
use dn_interval::Row;
use dn_net::node::Unit;
use dn_placement::request::Request;
use dn_view::system::System;
use std::alloc::Global;

/// An output of a unit: a port, and an address of its node.
#[derive(Clone, Copy, Debug, PartialEq, Eq)]
pub struct Exit {
    /// The port, by its place among the unit's ports.
    pub port: u8,
    /// The address of the port's node.
    pub y: u64,
    /// What orders outputs: the place of the address in its slot, then the port, then the address.
    pub rank: u128,
}

/// A unit, and what its outputs are to give: the inputs of the hops nearer to memory, or the request's buffer if there
/// are none.
#[derive(Clone, Copy)]
pub(crate) struct ExitSearch<'a> {
    pub(crate) system: System<'a>,
    pub(crate) request: Request,
    pub(crate) nearer: Hops,
    pub(crate) translator: &'a Unit,
    /// Every window and port keeps blocks of 2 to this power addresses whole.
    pub(crate) block: u8,
}

/// The outputs of a unit from which on a request's buffer is given and no stop is reached, and which end by the unit's
/// reach, ascending by rank: all of them but some whose blocks show more than the buffer. It costs the rows that each
/// port's node gives of the buffer, and a sort; where the buffer is not of whole pages also a pass over the stops of all
/// nodes.
pub fn exits(
    alloc: Global,
    system: System,
    unit: u16,
    translator: &Unit,
    request: &Request,
) -> Result<Vec<Exit>, OutOfMemory>
    requires system { IsSystem meaning system }
    requires unit { unit_at system.on.net.now unit ≡ Some translator.now }
    requires bounds { HasUnitBounds system.on.net.now translator.now }
    requires request { IsRequest system.on.net.now request.now }
    ensures { IfOk result (λ exits. AreExits system.entry.on.net.now
        translator.now request.now exits.items) }
{
    let units = [unit];
    let block = block_of(system, request, &units);
    let search = ExitSearch {
        system,
        request: *request,
        nearer: Hops::Zero,
        translator,
        block,
    };
    let mut exits = exits_to(alloc, search)?;
    exits.sort_unstable_by_key(|exit| exit.rank);
    Ok(exits)
}

/// The outputs of a unit from which on the nearer hops are met, ascending by port and address; where there are none, all
/// of them but some whose blocks show more than the buffer.
pub(crate) fn exits_to(alloc: Global, search: ExitSearch) -> Result<Vec<Exit>, OutOfMemory>
    requires search { IsExitSearch meaning search }
    ensures { IfOk result (λ exits. AreOutputs search.entry.system.on.net.now
        search.entry.translator.now search.entry.request (hops_view search.entry.nearer)
        exits.items) }
{
    let mut exits = Vec::new(alloc);
    for port in 0..search.translator.ports.as_slice().len() as u8 {
        push_exits(alloc, &mut exits, search, port)?;
    }
    Ok(exits)
}

/// Adds the outputs of a port.
fn push_exits(
    alloc: Global,
    exits: &mut Vec<Exit>,
    search: ExitSearch,
    port: u8,
) -> Result<(), OutOfMemory>
    requires search { IsExitSearch meaning search }
    requires port { port < length search.translator.now.ports }
    requires listed { AreExitsTo search.system.on.net.now search.translator.now search.request
        (hops_view search.nearer) port exits.old.items }
    ensures { OnOk result (AreExitsTo search.entry.system.on.net.now search.entry.translator.now
        search.entry.request (hops_view search.entry.nearer) (port + 1) exits.new.items) }
{
    let node = search.translator.ports.as_slice()[usize::from(port)];
    match lent_rows(search.system.flats.of(node), search.nearer) {
        Some(rows) => push_rows(alloc, exits, search, port, node, rows),
        None => {
            let rows = made_rows(alloc, search.system, search.request, node, search.nearer)?;
            push_rows(alloc, exits, search, port, node, rows.rows())
        }
    }
}

/// Adds the outputs that rows of a port's node give.
fn push_rows(
    alloc: Global,
    exits: &mut Vec<Exit>,
    search: ExitSearch,
    port: u8,
    node: u16,
    rows: &[Row],
) -> Result<(), OutOfMemory>
    requires search { IsExitSearch meaning search }
    requires port { port < length search.translator.now.ports }
    requires node { slice_get search.translator.now.ports port ≡ Some node }
    requires toward { AreToward search.system.on.net.now search.request (hops_view search.nearer)
        node rows.now }
    requires listed { AreExitsTo search.system.on.net.now search.translator.now search.request
        (hops_view search.nearer) port exits.old.items }
    ensures { OnOk result (AreExitsTo search.entry.system.on.net.now search.entry.translator.now
        search.entry.request (hops_view search.entry.nearer) (port + 1) exits.new.items) }
{
    let target = wanted_name(search.request, search.nearer);
    let size = search.request.size;
    for row in rows {
        if let Some(y) = output(row, target, size) {
            push_output(alloc, exits, search, port, node, y)?;
        }
    }
    Ok(())
}

/// Adds the output of a port at an address from which on a row of the port's node gives what is wanted, if the output leads
/// there and is not known to show more.
fn push_output(
    alloc: Global,
    exits: &mut Vec<Exit>,
    search: ExitSearch,
    port: u8,
    node: u16,
    y: u64,
) -> Result<(), OutOfMemory>
    requires search { IsExitSearch meaning search }
    requires port { port < length search.translator.now.ports }
    requires node { slice_get search.translator.now.ports port ≡ Some node }
    requires fits { y + search.request.size ≤ TOP + 1 }
    ensures { OnOk result ((rows : List Row) (row : Row) (rest : List Row) →
        AreToward search.entry.system.on.net.now search.entry.request
        (hops_view search.entry.nearer) node rows → InRow row (wanted_name search.entry.request
        (hops_view search.entry.nearer)) search.entry.request.size y →
        Passing search.entry.system.on.net.now search.entry.translator.now search.entry.request
        (hops_view search.entry.nearer) port rows (row ∷ rest) exits.old.items →
        Passing search.entry.system.on.net.now search.entry.translator.now search.entry.request
        (hops_view search.entry.nearer) port rows rest exits.new.items) }
{
    if !leads_on(search, node, y) {
        return Ok(());
    }
    if shows_more(alloc, search, node, y)? {
        return Ok(());
    }
    exits.push(exit_at(search.translator.page, port, y))?;
    Ok(())
}

/// Whether an output ends by the unit's reach, and no stop is in the way from it to the buffer.
fn leads_on(search: ExitSearch, node: u16, y: u64) -> bool
    requires search { IsExitSearch meaning search }
    requires there { node < length search.system.on.net.now }
    requires fits { y + search.request.size ≤ TOP + 1 }
    ensures reached { IsTrue result
        → y + search.entry.request.size ≤ 2 ^ search.entry.translator.now.reach }
    ensures clear { IsTrue result → IsClear search.entry.system.on.net.now node
        (hops_view search.entry.nearer) y search.entry.request.size }
    ensures no { result ≡ false
        → y + search.entry.request.size ≤ 2 ^ search.entry.translator.now.reach →
        IsClear search.entry.system.on.net.now node (hops_view search.entry.nearer) y
        search.entry.request.size → ⊥ }
{
    let size = search.request.size;
    y + size <= power(search.translator.reach)
        && is_clear(search.system, node, search.nearer, y, size)
}

/// Whether an output from which the buffer is given is known to show more than it: an address beside the buffer, in its
/// blocks, resolves to a name.
fn shows_more(alloc: Global, search: ExitSearch, node: u16, y: u64) -> Result<bool, OutOfMemory>
    requires search { IsExitSearch meaning search }
    requires there { node < length search.system.on.net.now }
    requires reached { y + search.request.size ≤ 2 ^ search.translator.now.reach }
    ensures { IfOk result (λ more. IsTrue more → (port : ℕ) →
        slice_get search.entry.translator.now.ports port ≡ Some node →
        IsAloneBefore search.entry.system.on.net.now search.entry.translator.now
        search.entry.request (hops_view search.entry.nearer) port y → ⊥) }
{
    if search.nearer.count() != 0 {
        return Ok(false);
    }
    let size = search.request.size;
    let alone = is_alone(search.system, alloc, node, y, size, search.block)?;
    Ok(!alone)
}

/// The output with its rank.
fn exit_at(page: u8, port: u8, y: u64) -> Exit
    requires page { page ≤ 40 }
    requires port { port < 8 }
    requires reached { y ≤ 2 ^ 56 }
    ensures { result ≡ record { port = port; y = y; rank = exit_rank page port y } }
{
    let place = u128::from(y % power(page));
    Exit {
        port,
        y,
        rank: place * (1 << 59) + u128::from(port) * (1 << 56) + u128::from(y),
    }
}
