//! What rows give to a stretch of addresses, and which rows of a node give what is wanted.

ghost use Rattle.std.specs.Prelude.{◌≡◌, ◌<◌, ◌≤◌, ◌+◌, ◌-◌, ◌||◌, ℕ, false, length, IfOk, IfSome, IfNone, IsTrue, List};
ghost use Rattle.std.specs.List.{list_all};
ghost use Rattle.dn_interval.specs.declared.row.End.{End};
ghost use Rattle.dn_interval.specs.declared.span.TheConstants.{TOP};
ghost use Rattle.dn_interval.specs.Terms.{Apart, AreNormal, rows_give};
ghost use Rattle.dn_net.specs.declared.node.NodeDecl.{NodeDecl};
ghost use Rattle.dn_flat.specs.Terms.{IsLevels, levels_give};
ghost use Rattle.dn_placement.specs.declared.request.Request.{Request};
ghost use Rattle.dn_view.specs.Terms.{IsSystem, levels_near};
ghost use Rattle.dn_place.specs.Terms.{AreToward, GivesNone, InRow, IsClear, hops_view, is_past, wanted_name};

use crate::OutOfMemory;
use crate::hops::Hops;
use dn_flat::levels::Levels;
use dn_interval::{End, Row, Rows};
use dn_placement::request::Request;
use dn_view::near::push_near;
use dn_view::system::System;
use std::alloc::Global;

/// The first address of a stretch of so many to which the row gives the name and no other.
pub(crate) fn output(row: &Row, target: End, size: u64) -> Option<u64>
    requires { 1 ≤ size }
    ensures some { IfSome result (λ a. InRow row.now target size a) }
    ensures none { IfNone result ((a : ℕ) → InRow row.now target size a → ⊥) }
{
    let ends = row.ends();
    if ends.len() != 1 || ends[0].node != target.node || target.base < ends[0].base {
        return None;
    }
    let skip = target.base - ends[0].base;
    let more = row.span.hi - row.span.lo;
    if more < skip || more - skip < size - 1 {
        return None;
    }
    Some(row.span.lo + skip)
}

/// The name that the hops want.
pub(crate) fn wanted_name(request: Request, hops: Hops) -> End
    ensures { result ≡ wanted_name request (hops_view hops) }
{
    match hops {
        Hops::Zero => End {
            node: request.node,
            base: request.base,
        },
        Hops::One(hop) | Hops::Two(hop, _) | Hops::Three(hop, _, _) => End {
            node: hop.unit,
            base: hop.x,
        },
    }
}

/// The rows of a node that give it, where one level has all of its stops and a hop follows: they are lent.
pub(crate) fn lent_rows(levels: &Levels, hops: Hops) -> Option<&[Row]>
    ensures { IfSome result (λ rows. (net : List NodeDecl) (rq : Request) (node : ℕ)
        → IsLevels net node levels.now → AreToward net rq (hops_view hops) node rows.now) }
{
    let [level] = levels.stops.as_slice() else {
        return None;
    };
    if hops.count() == 0 {
        return None;
    }
    Some(level.rows())
}

/// The rows of a node that give it, made of all levels.
pub(crate) fn made_rows(
    alloc: Global,
    system: System,
    request: Request,
    node: u16,
    hops: Hops,
) -> Result<Rows, OutOfMemory>
    requires system { IsSystem meaning system }
    requires some { 1 ≤ request.size }
    requires buffer { request.base + request.size ≤ TOP + 1 }
    requires there { node < length system.on.net.now }
    ensures { IfOk result (λ rows. AreToward system.entry.on.net.now
        request (hops_view hops) node rows) }
{
    let target = wanted_name(request, hops);
    if hops.count() == 0 {
        return system.flats.toward(alloc, node, target, request.size);
    }
    let levels = system.flats.of(node).stops.as_slice();
    near_rows(alloc, levels, target, request.size)
}

/// Where levels give names of so many from one on, as normal rows of these names. A row counts whole, also where it
/// gives others beside them.
pub fn near_rows(
    alloc: Global,
    levels: &[Rows],
    target: End,
    size: u64,
) -> Result<Rows, OutOfMemory>
    ensures { IfOk result (λ rows. AreNormal (λ a z. IsTrue
        (levels_near target size levels.now a z)) rows) }
{
    let mut segs = Vec::new(alloc);
    push_near(&mut segs, levels, target, size)?;
    Rows::normal(alloc, &segs)
}

/// Whether no row has an address of the stretch: the first that does not end before it tells it.
fn are_past(rows: &[Row], a: u64, size: u64) -> bool
    requires apart { Apart 0 rows.now }
    requires fits { a + size < 18446744073709551616 }
    ensures { result ≡ list_all (is_past a size) rows.now }
{
    let place = rows.partition_point(|row| row.span.hi < a);
    match rows.get(place) {
        Some(row) => a + size <= row.span.lo,
        None => true,
    }
}

/// Whether rows give nothing to the stretch.
fn is_level_past(rows: &Rows, a: u64, size: u64) -> bool
    requires some { 1 ≤ size }
    requires fits { a + size < 18446744073709551616 }
    ensures yes { IsTrue result → GivesNone (rows_give rows.now) a size }
    ensures no { result ≡ false → GivesNone (rows_give rows.now) a size → ⊥ }
{
    are_past(rows.rows(), a, size)
}

/// Whether levels give nothing to the stretch.
fn are_levels_past(levels: &[Rows], a: u64, size: u64) -> bool
    requires some { 1 ≤ size }
    requires fits { a + size < 18446744073709551616 }
    ensures yes { IsTrue result → GivesNone (levels_give levels.now) a size }
    ensures no { result ≡ false → GivesNone (levels_give levels.now) a size → ⊥ }
{
    for level in levels {
        if !is_level_past(level, a, size) {
            return false;
        }
    }
    true
}

/// Whether no stop is reached from the stretch of a node, where it is to reach none.
pub(crate) fn is_clear(system: System, node: u16, hops: Hops, a: u64, size: u64) -> bool
    requires system { IsSystem meaning system }
    requires there { node < length system.on.net.now }
    requires some { 1 ≤ size }
    requires fits { a + size ≤ TOP + 1 }
    ensures yes { IsTrue result → IsClear system.entry.on.net.now node (hops_view hops) a size }
    ensures no { result ≡ false
        → IsClear system.entry.on.net.now node (hops_view hops) a size → ⊥ }
{
    match hops {
        Hops::Zero => are_levels_past(system.flats.of(node).stops.as_slice(), a, size),
        Hops::One(_) | Hops::Two(_, _) | Hops::Three(_, _, _) => true,
    }
}
