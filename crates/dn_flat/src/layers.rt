//! Segments without those that another goes on with, and layers of them: rows that together give what they give.
//!
//! Normal rows of segments that overlap can have as many names as segments times rows, since each row has the names of
//! all segments at its addresses. Layers have no more names than there are segments.

ghost use Rattle.std.specs.Prelude.{◌≡◌, ℕ, ◌+◌, ◌-◌, ◌≤◌, ◌||◌, map, IfOk, OnOk};
ghost use Rattle.std.specs.List.{list_any};
ghost use Rattle.dn_interval.specs.declared.row.End.{End};
ghost use Rattle.dn_interval.specs.declared.span.TheConstants.{TOP};
ghost use Rattle.dn_interval.specs.Terms.{seg_gives, segs_give, strand_gives, strands_give};
ghost use Rattle.dn_flat.specs.Terms.{levels_give};
ghost use Rattle.dn_flat.specs.declared.layers.Numbered.{Numbered};

use crate::found::whole;
use dn_base::OutOfMemory;
use dn_base::items::Items;
use dn_interval::onward::follow;
use dn_interval::{Rows, Seg, Span, Strand, TOP, are_in_turn, strands_of};
use std::alloc::Global;
use std::collections::BinaryHeap;

/// A segment, and the number of its layer.
#[derive(Clone, Copy)]
pub(crate) struct Numbered {
    layer: usize,
    seg: Seg,
}

/// Segments that give what others give, where those that overlap or touch with the same names are one: never more than
/// there were. They come by their first addresses, and then by their last. Time of a sort, and linear where each begins
/// behind those before it.
pub(crate) fn joined(alloc: Global, segs: &[Seg]) -> Result<Vec<Seg>, OutOfMemory>
    ensures { IfOk result (λ out. (a : ℕ) (z : End) → a ≤ TOP → segs_give out.items a z
        ≡ segs_give segs.now a z) }
{
    if are_in_turn(segs) {
        return joined_in_turn(alloc, segs);
    }
    let mut strands = strands_of(alloc, segs)?;
    strands.sort_by_key(|strand| (strand.span.lo, strand.span.hi))?;
    segs_of(alloc, strands.as_slice())
}

/// Joins segments each of which begins behind those before it: their rows have one name each.
fn joined_in_turn(alloc: Global, segs: &[Seg]) -> Result<Vec<Seg>, OutOfMemory>
    ensures { IfOk result (λ out. (a : ℕ) (z : End) → a ≤ TOP → segs_give out.items a z
        ≡ segs_give segs.now a z) }
{
    let rows = Rows::normal(alloc, segs)?;
    let mut out = Vec::new(alloc);
    follow(&mut out, whole(0), &rows)?;
    Ok(out)
}

/// A segment for each strand.
fn segs_of(alloc: Global, strands: &[Strand]) -> Result<Vec<Seg>, OutOfMemory>
    ensures { IfOk result (λ segs. (a : ℕ) (z : End) → segs_give segs.items a z
        ≡ strands_give strands.now a z) }
{
    let mut segs = Vec::with_capacity(alloc, strands.len())?;
    for strand in strands {
        segs.push(seg_of(strand))?;
    }
    Ok(segs)
}

/// The segment of a strand.
fn seg_of(strand: &Strand) -> Seg
    ensures { (a : ℕ) (z : End) → seg_gives result a z ≡ strand_gives strand.now a z }
{
    Seg {
        span: strand.span,
        node: strand.node,
        base: strand.slide + strand.span.lo - TOP,
    }
}

/// Layers that together give what segments give.
pub(crate) fn layers_of(alloc: Global, segs: &[Seg]) -> Result<Items<Rows>, OutOfMemory>
    ensures { IfOk result (λ layers. (a : ℕ) (z : End) → a ≤ TOP → levels_give layers a z
        ≡ segs_give segs.now a z) }
{
    let out = joined(alloc, segs)?;
    let mut layers = Items::new(alloc);
    push_layers(alloc, &mut layers, out.as_slice())?;
    Ok(layers)
}

/// Adds layers that together give what joined segments give. Those of a layer do not overlap but where their spans are
/// equal, so the layers have no more names than there are segments; where no two overlap it is one layer.
pub(crate) fn push_layers(
    alloc: Global,
    layers: &mut Items<Rows>,
    segs: &[Seg],
) -> Result<(), OutOfMemory>
    ensures { OnOk result ((a : ℕ) (z : End) → a ≤ TOP → levels_give layers.new a z
        ≡ (levels_give layers.old a z || segs_give segs.now a z)) }
{
    if are_in_turn(segs) {
        return push_layer(alloc, layers, segs);
    }
    let mut all = with_numbers(alloc, segs)?;
    all.sort_by_key(|one| one.layer)?;
    push_numbered(alloc, layers, all.as_slice())
}

/// The segments, each with the number of its layer.
fn with_numbers(alloc: Global, segs: &[Seg]) -> Result<Vec<Numbered>, OutOfMemory>
    ensures { IfOk result (λ all. map (λ (n : Numbered). n.seg) all.items ≡ segs.now) }
{
    let mut all = Vec::with_capacity(alloc, segs.len())?;
    let mut ended = BinaryHeap::new(alloc);
    for seg in segs {
        let layer = next_layer(&mut ended, all.as_slice(), seg.span)?;
        all.push(Numbered { layer, seg: *seg })?;
    }
    Ok(all)
}

/// The layer of the next segment: that of the one before it, where their spans are equal; else the one that ended
/// first, where it ended before the span, or a new one. `ended` has each layer once, behind how far before the greatest
/// number its last span ends, so that the one that ended first is its greatest. What this answers costs time and memory
/// alone: the layers give the same.
fn next_layer(
    ended: &mut BinaryHeap<(u64, usize)>,
    before: &[Numbered],
    span: Span,
) -> Result<usize, OutOfMemory> {
    if let Some(last) = before.last() {
        if last.seg.span == span {
            return Ok(last.layer);
        }
    }
    let layer = free_layer(ended, span.lo);
    ended.push((u64::MAX - span.hi, layer))?;
    Ok(layer)
}

/// The layer that ended first, which is taken out, where it ended before the address; else a new one.
fn free_layer(ended: &mut BinaryHeap<(u64, usize)>, lo: u64) -> usize {
    if let Some(first) = ended.peek() {
        let (left, layer) = *first;
        if u64::MAX - lo < left {
            ended.pop();
            return layer;
        }
    }
    ended.len()
}

/// Adds a layer for each run of segments of one number.
fn push_numbered(
    alloc: Global,
    layers: &mut Items<Rows>,
    all: &[Numbered],
) -> Result<(), OutOfMemory>
    ensures { OnOk result ((a : ℕ) (z : End) → a ≤ TOP → levels_give layers.new a z
        ≡ (levels_give layers.old a z
        || list_any (λ (n : Numbered). seg_gives n.seg a z) all.now)) }
{
    let mut run = Vec::new(alloc);
    let mut layer = 0;
    for one in all {
        end_run(alloc, layers, &mut run, one.layer != layer)?;
        run.push(one.seg)?;
        layer = one.layer;
    }
    push_layer(alloc, layers, run.as_slice())
}

/// Adds a run of segments as a layer and empties it, where it ends.
fn end_run(
    alloc: Global,
    layers: &mut Items<Rows>,
    run: &mut Vec<Seg>,
    ends: bool,
) -> Result<(), OutOfMemory>
    ensures { OnOk result ((a : ℕ) (z : End) → a ≤ TOP
        → (levels_give layers.new a z || segs_give run.new.items a z)
        ≡ (levels_give layers.old a z || segs_give run.old.items a z)) }
{
    if ends {
        push_layer(alloc, layers, run.as_slice())?;
        run.clear();
    }
    Ok(())
}

/// Adds the rows of segments as a layer, where there are any.
fn push_layer(alloc: Global, layers: &mut Items<Rows>, segs: &[Seg]) -> Result<(), OutOfMemory>
    ensures { OnOk result ((a : ℕ) (z : End) → a ≤ TOP → levels_give layers.new a z
        ≡ (levels_give layers.old a z || segs_give segs.now a z)) }
{
    if segs.is_empty() {
        return Ok(());
    }
    let layer = Rows::normal(alloc, segs)?;
    layers.push(layer)
}
