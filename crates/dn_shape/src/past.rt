//! The map entries that lead a node past another.

ghost use Rattle.std.specs.Prelude.{◌≡◌, ◌≤◌, ◌+◌, ◌-◌, ◌++◌, ℕ, map, slice_get, option_map, Some, IfOk, OnOk};
ghost use Rattle.std.specs.List.{All, flat_map};
ghost use Rattle.dn_interval.specs.declared.row.End.{End};
ghost use Rattle.dn_interval.specs.Terms.{seen_view, segs_give};
ghost use Rattle.dn_net.specs.Terms.{extensions_of, still_walk};
ghost use Rattle.dn_shape.specs.Terms.{LeadOn, bare_give, bare_onward, dest_of_end, entry_of_row, rows_past};
ghost use Rattle.dn_walk.specs.Terms.{bare_extensions_by, bare_legs, bare_walk, leg_view, row_view};

use crate::node::CheckedNode;
use crate::spans::block_of;
use dn_base::OutOfMemory;
use dn_base::items::Items;
use dn_interval::{End, Row, Rows, Seg, Span, TOP};
use dn_net::checked::CheckedNet;
use dn_net::node::{Dest, Entry};
use dn_walk::leg::node_legs;
use dn_walk::level::{extend_row, met_by};
use dn_walk::walks::WalkRow;
use std::alloc::Global;

/// The names to which the addresses of a node decode past another, as rows: in place of each name of
/// the other stand those to which it decodes.
pub(crate) fn rows_past(
    alloc: Global,
    checked: CheckedNode,
    past: u16,
    onward: &[Seg],
) -> Result<Rows, OutOfMemory>
    requires onward { option_map bare_legs (slice_get checked.net.now past)
        ≡ Some (map leg_view onward.now) }
    requires lead { LeadOn onward.now }
    ensures { IfOk result (λ rows. map seen_view rows
        ≡ rows_past checked.entry.net.now past checked.entry.node) }
{
    let first = first_walks(alloc, checked)?;
    let walks = walks_onward(alloc, &first, past, onward)?;
    let segs = segs_of(alloc, &walks)?;
    Rows::normal(alloc, &segs)
}

/// The walks, and in place of each that leads into the node, those by which it goes on.
fn walks_onward(
    alloc: Global,
    first: &[WalkRow],
    past: u16,
    legs: &[Seg],
) -> Result<Vec<WalkRow>, OutOfMemory>
    requires legs { LeadOn legs.now }
    requires far { All (λ r. r.base + (r.span.hi - r.span.lo) ≤ TOP) first.now }
    requires short { All (λ r. r.len ≤ 64) first.now }
    ensures { IfOk result (λ v. map row_view v.items
        ≡ flat_map (bare_onward (map leg_view legs.now) past) (map row_view first.now)) }
{
    let mut walks = Vec::new(alloc);
    for row in first {
        push_onward(row, past, legs, &mut walks)?;
    }
    Ok(walks)
}

/// The walks of one choice from a node.
fn first_walks(alloc: Global, checked: CheckedNode) -> Result<Vec<WalkRow>, OutOfMemory>
    ensures walks { IfOk result (λ v. map row_view v.items ≡ map bare_walk
        (extensions_of checked.entry.net.now (still_walk checked.entry.node))) }
    ensures far { IfOk result (λ v. All (λ r. r.base + (r.span.hi - r.span.lo) ≤ TOP) v.items) }
    ensures short { IfOk result (λ v. All (λ r. r.len ≤ 64) v.items) }
{
    let legs = legs_of(alloc, checked)?;
    let still = WalkRow {
        start: checked.node,
        span: Span { lo: 0, hi: TOP },
        end: checked.node,
        base: 0,
        len: 0,
    };
    let mut walks = Vec::new(alloc);
    push_walks(&still, legs.as_slice(), &mut walks)?;
    Ok(walks)
}

/// The legs of a node.
pub(crate) fn legs_of(alloc: Global, checked: CheckedNode) -> Result<Items<Seg>, OutOfMemory>
    ensures legs { IfOk result (λ ls. option_map bare_legs
        (slice_get checked.entry.net.now checked.entry.node) ≡ Some (map leg_view ls)) }
    ensures lead { IfOk result (λ ls. LeadOn ls) }
{
    let (net, node) = (checked.net, checked.node);
    node_legs(alloc, CheckedNet { net }, node)
}

/// Appends the walk, or where it leads into the node, the walk with each choice by which it goes
/// on.
fn push_onward(
    row: &WalkRow,
    past: u16,
    legs: &[Seg],
    walks: &mut Vec<WalkRow>,
) -> Result<(), OutOfMemory>
    requires legs { LeadOn legs.now }
    requires reach { row.now.base + (row.now.span.hi - row.now.span.lo) ≤ TOP }
    requires short { row.now.len ≤ 64 }
    ensures { OnOk result (map row_view walks.new.items
        ≡ map row_view walks.old.items
        ++ bare_onward (map leg_view legs.now) past (row_view row.now)) }
{
    if row.end == past {
        return push_walks(row, legs, walks);
    }
    walks.push(*row)?;
    Ok(())
}

/// Appends the walk with each leg by which it goes on.
fn push_walks(row: &WalkRow, legs: &[Seg], walks: &mut Vec<WalkRow>) -> Result<(), OutOfMemory>
    requires legs { LeadOn legs.now }
    requires reach { row.now.base + (row.now.span.hi - row.now.span.lo) ≤ TOP }
    requires short { row.now.len ≤ 64 }
    ensures { OnOk result (map row_view walks.new.items
        ≡ map row_view walks.old.items ++ bare_extensions_by (map leg_view legs.now)
        (row_view row.now)) }
{
    extend_row(row, met_by(row, legs), walks)
}

/// The names that the walks give, as segments.
fn segs_of(alloc: Global, walks: &[WalkRow]) -> Result<Vec<Seg>, OutOfMemory>
    requires { All (λ r. r.base + (r.span.hi - r.span.lo) ≤ TOP) walks.now }
    ensures { IfOk result (λ segs. (a : ℕ) (y : End) → segs_give segs.items a y
        ≡ bare_give (map row_view walks.now) a y) }
{
    let mut segs = Vec::with_capacity(alloc, walks.len())?;
    for row in walks {
        segs.push(row.seg())?;
    }
    Ok(segs)
}

/// The rows, as map entries.
pub(crate) fn entries_of(alloc: Global, rows: &[Row]) -> Result<Items<Entry>, OutOfMemory>
    ensures { IfOk result (λ es. es ≡ map entry_of_row (map seen_view rows.now)) }
{
    let mut entries = Vec::with_capacity(alloc, rows.len())?;
    for row in rows {
        entries.push(Entry {
            block: block_of(row.span()),
            dests: dests_of(alloc, row.ends())?,
        })?;
    }
    Ok(Items::from_vec(entries))
}

/// The names of a row, as destinations.
fn dests_of(alloc: Global, ends: &[End]) -> Result<Items<Dest>, OutOfMemory>
    ensures { IfOk result (λ ds. ds ≡ map dest_of_end ends.now) }
{
    let mut dests = Vec::with_capacity(alloc, ends.len())?;
    for end in ends {
        dests.push(Dest {
            node: end.node,
            addr: end.base,
        })?;
    }
    Ok(Items::from_vec(dests))
}
