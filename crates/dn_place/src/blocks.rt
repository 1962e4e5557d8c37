//! Blocks of addresses that windows keep whole: where they do, a placement that is admissible gives nothing
//! beside its buffer in the blocks of the buffer.

ghost use Rattle.std.specs.Prelude.{◌≡◌, ℕ, ◌+◌, ◌%◌, ◌^◌, ◌<◌, ◌≤◌, false, length, Some, IfOk, IsTrue};
ghost use Rattle.dn_interval.specs.declared.span.TheConstants.{TOP};
ghost use Rattle.dn_net.specs.declared.node.Unit.{Unit as UnitPart};
ghost use Rattle.dn_net.specs.Terms.{unit_at};
ghost use Rattle.dn_view.specs.Terms.{IsSystem};
ghost use Rattle.dn_place.specs.Terms.{HasBeside, HasBlocks, SendsBlocks, ShowsWithin, Tells, end_fits, layers_fit, row_fits, rows_fit};

use crate::OutOfMemory;
use crate::slots::power;
use crate::unit::unit_in;
use dn_interval::{End, Row, Rows, Seg, Span};
use dn_placement::request::Request;
use dn_view::system::System;
use std::alloc::Global;

/// The largest page of a unit, as a power of two.
const MAX_PAGE: u8 = 40;

/// A power of two: blocks of so many addresses are kept whole by the stops of each node, and no page of a unit
/// is smaller. It is 0 where the buffer begins and ends on the edge of a least page; else it is the greatest that
/// divides all bounds and names of the stops, which takes time of their rows.
pub(crate) fn block_of(system: System, request: &Request, units: &[u16]) -> u8
    requires system { IsSystem meaning system }
    ensures { HasBlocks system.entry.on.net.now result }
{
    if is_of_pages(system, request, units) {
        return 0;
    }
    let bits = nodes_bits(system);
    exponent_of(bits, least_page(system))
}

/// Whether a buffer begins and ends on the edge of a page of the unit with the least pages. It decides no answer.
fn is_of_pages(system: System, request: &Request, units: &[u16]) -> bool
    requires system { IsSystem meaning system }
{
    let mut least = MAX_PAGE;
    for unit in units {
        least = least.min(page_at(system, *unit));
    }
    let page = power(least);
    request.base % page == 0 && request.size % page == 0
}

/// The least page of a unit, as a power of two.
fn least_page(system: System) -> u8
    requires system { IsSystem meaning system }
    ensures most { result ≤ 40 }
    ensures least { (node : ℕ) (u : UnitPart) →
        unit_at system.entry.on.net.now node ≡ Some u → result ≤ u.page }
{
    let mut least = MAX_PAGE;
    for node in 0..system.on.net.nodes() {
        least = least.min(page_at(system, node));
    }
    least
}

/// The page of the unit that a node is. Of a node that is none it is the largest.
fn page_at(system: System, node: u16) -> u8
    requires system { IsSystem meaning system }
    ensures { (u : UnitPart) → unit_at system.entry.on.net.now node ≡ Some u → result ≤ u.page }
{
    match unit_in(system, node) {
        Some(translator) => translator.page,
        None => MAX_PAGE,
    }
}

/// The greatest power of two that divides a number, up to one.
fn exponent_of(bits: u64, most: u8) -> u8
    requires { most ≤ 40 }
    ensures divides { bits % 2 ^ result ≡ 0 }
    ensures most { result ≤ most }
{
    let mut block = 0;
    'powers: while block < most && bits % (1u64 << (block + 1)) == 0 {
        block += 1;
    }
    block
}

/// The bounds and the names of the rows of all stops, as one number that has the bits of each.
fn nodes_bits(system: System) -> u64
    requires { IsSystem meaning system }
    ensures { (block : ℕ) → result % 2 ^ block ≡ 0 → (node : ℕ) →
        node < length system.entry.on.net.now →
        SendsBlocks system.entry.on.net.now (2 ^ block) node }
{
    let mut bits = 0;
    for node in 0..system.on.net.nodes() {
        bits = node_bits(system, node, bits);
    }
    bits
}

/// The bits of a number, and those of the stops of a node.
fn node_bits(system: System, node: u16, bits: u64) -> u64
    requires system { IsSystem meaning system }
    requires there { node < length system.on.net.now }
    ensures { Tells result bits (λ block. SendsBlocks system.entry.on.net.now (2 ^ block) node) }
{
    let layers = system.flats.of(node).stops.as_slice();
    layers_bits(layers, bits)
}

/// The bits of a number, and those of layers.
fn layers_bits(layers: &[Rows], bits: u64) -> u64
    ensures { Tells result bits (λ block. IsTrue (layers_fit (2 ^ block) layers.now)) }
{
    let mut all = bits;
    for layer in layers {
        all = rows_bits(layer, all);
    }
    all
}

/// The bits of a number, and those of rows.
fn rows_bits(layer: &Rows, bits: u64) -> u64
    ensures { Tells result bits (λ block. IsTrue (rows_fit (2 ^ block) layer.now)) }
{
    let mut all = bits;
    let rows = layer.rows();
    for row in rows {
        all = row_bits(row, all);
    }
    all
}

/// The bits of a number, and those of the bounds of a row and of its names.
fn row_bits(row: &Row, bits: u64) -> u64
    ensures { Tells result bits (λ block. IsTrue (row_fits (2 ^ block) row.now)) }
{
    let span = row.span();
    let ends = row.ends();
    let mut all = bits | span.lo | (span.hi + 1);
    for end in ends {
        all = end_bits(end, all);
    }
    all
}

/// The bits of a number, and those of a name.
fn end_bits(end: &End, bits: u64) -> u64
    ensures { Tells result bits (λ block. IsTrue (end_fits (2 ^ block) end.now)) }
{
    bits | end.base
}

/// Whether no address beside a stretch of a node, in the blocks of its addresses, is known to resolve to a name.
pub(crate) fn is_alone(
    system: System,
    alloc: Global,
    node: u16,
    y: u64,
    size: u64,
    block: u8,
) -> Result<bool, OutOfMemory>
    requires system { IsSystem meaning system }
    requires there { node < length system.on.net.now }
    requires some { 1 ≤ size }
    requires fits { y + size ≤ TOP + 1 }
    requires few { block ≤ 40 }
    ensures { IfOk result (λ alone. alone ≡ false →
        HasBeside system.entry.on.net.now node y size block) }
{
    let width = power(block);
    let last = y + (size - 1);
    let from = y - y % width;
    let to = last - last % width + (width - 1);
    if from < y {
        if shows_some(system, alloc, node, from, y - 1)? {
            return Ok(false);
        }
    }
    if last < to {
        if shows_some(system, alloc, node, last + 1, to)? {
            return Ok(false);
        }
    }
    Ok(true)
}

/// Whether an address of a node from one on up to another is known to resolve to a name.
pub(crate) fn shows_some(
    system: System,
    alloc: Global,
    node: u16,
    lo: u64,
    hi: u64,
) -> Result<bool, OutOfMemory>
    requires system { IsSystem meaning system }
    requires there { node < length system.on.net.now }
    ensures { IfOk result (λ some. IsTrue some →
        ShowsWithin system.entry.on.net.now node lo hi) }
{
    match Span::new(lo, hi) {
        Some(span) => shows(alloc, system, node, span),
        None => Ok(false),
    }
}

/// Whether an address of a span of a node is known to resolve to a name.
fn shows(alloc: Global, system: System, node: u16, span: Span) -> Result<bool, OutOfMemory>
    requires system { IsSystem meaning system }
    requires there { node < length system.on.net.now }
    ensures { IfOk result (λ some. IsTrue some →
        ShowsWithin system.entry.on.net.now node span.lo span.hi) }
{
    let mut segs = Vec::new(alloc);
    let mut mid = Vec::new(alloc);
    let base = span.lo;
    let seg = Seg { span, node, base };
    system.flats.push_accepted(&mut segs, &mut mid, seg)?;
    Ok(!segs.is_empty())
}
