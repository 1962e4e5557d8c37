//! The strands of segments.

ghost use Rattle.std.specs.Prelude.{◌≡◌, ℕ, ◌+◌, ◌-◌, ◌≤◌, ◌<◌, ◌||◌, ◌&&◌, nat_eq, nat_le, IfOk};
ghost use Rattle.std.specs.List.{All};
ghost use Rattle.std.specs.List.Sorted.{IsSorted, IsNonDecreasingBy};
ghost use Rattle.dn_interval.specs.declared.row.Seg.{Seg};
ghost use Rattle.dn_interval.specs.declared.row.End.{End};
ghost use Rattle.dn_interval.specs.declared.strand.Strand.{Strand};
ghost use Rattle.dn_interval.specs.Terms.{IsMaximal, seg_gives, segs_give, strand_cmp, strand_gives, strands_give};

use crate::row::Seg;
use crate::span::{Span, TOP};
use crate::strand::Strand;
use dn_base::OutOfMemory;
use std::alloc::Global;

/// The strands of segments, in the order of their first addresses. No strand goes on where another
/// one of the same names begins.
pub fn strands_of(alloc: Global, segs: &[Seg]) -> Result<Vec<Strand>, OutOfMemory>
    ensures same { IfOk result (λ strands. (a : ℕ) (y : End) → strands_give strands.items a y
        ≡ segs_give segs.now a y) }
    ensures maximal { IfOk result
        (λ strands. All (IsMaximal (strands_give strands.items)) strands.items) }
    ensures sorted { IfOk result (λ strands. IsNonDecreasingBy
        (λ (s : Strand). s.span.lo) strands.items) }
{
    let mut single = each_alone(alloc, segs)?;
    single.sort_by_key(|strand| (strand.node, strand.slide, strand.span.lo))?;
    let mut strands = joined_strands(alloc, single.as_slice())?;
    strands.sort_by_key(|strand| strand.span.lo)?;
    Ok(strands)
}

/// A strand for each segment.
fn each_alone(alloc: Global, segs: &[Seg]) -> Result<Vec<Strand>, OutOfMemory>
    ensures { IfOk result (λ strands. (a : ℕ) (y : End) → strands_give strands.items a y
        ≡ segs_give segs.now a y) }
{
    let mut strands = Vec::with_capacity(alloc, segs.len())?;
    for seg in segs {
        strands.push(strand_of(seg))?;
    }
    Ok(strands)
}

/// The strand of a segment.
fn strand_of(seg: &Seg) -> Strand
    ensures { (a : ℕ) (y : End) → strand_gives result a y ≡ seg_gives seg.now a y }
{
    Strand {
        node: seg.node,
        slide: seg.base + (TOP - seg.span.lo),
        span: seg.span,
    }
}

/// Joins each strand with those behind it that go on with its names. The strands come by node, by
/// slide and by first address.
fn joined_strands(alloc: Global, strands: &[Strand]) -> Result<Vec<Strand>, OutOfMemory>
    requires { IsSorted strand_cmp strands.now }
    ensures same { IfOk result (λ out. (a : ℕ) (y : End) → strands_give out.items a y
        ≡ strands_give strands.now a y) }
    ensures maximal { IfOk result (λ out. All (IsMaximal (strands_give out.items)) out.items) }
{
    let mut out = Vec::new(alloc);
    if strands.is_empty() {
        return Ok(out);
    }
    let mut current = strands[0];
    let rest = &strands[1..];
    for strand in rest {
        if goes_on(&current, strand) {
            current = join(&current, strand);
        } else {
            out.push(current)?;
            current = *strand;
        }
    }
    out.push(current)?;
    Ok(out)
}

/// Whether a strand that begins no earlier goes on with the names of another.
fn goes_on(current: &Strand, next: &Strand) -> bool
    ensures { result
        ≡ (nat_eq current.now.node next.now.node
        && (nat_eq current.now.slide next.now.slide
        && nat_le next.now.span.lo (current.now.span.hi + 1))) }
{
    current.node == next.node && current.slide == next.slide && next.span.lo <= current.span.hi + 1
}

/// One strand for a strand and one that goes on with its names.
fn join(current: &Strand, next: &Strand) -> Strand
    requires node { current.now.node ≡ next.now.node }
    requires slide { current.now.slide ≡ next.now.slide }
    requires later { current.now.span.lo ≤ next.now.span.lo }
    requires touching { next.now.span.lo ≤ current.now.span.hi + 1 }
    ensures node_stays { result.node ≡ current.now.node }
    ensures slide_stays { result.slide ≡ current.now.slide }
    ensures lo_stays { result.span.lo ≡ current.now.span.lo }
    ensures gives { (a : ℕ) (y : End) → strand_gives result a y
        ≡ (strand_gives current.now a y || strand_gives next.now a y) }
{
    Strand {
        node: current.node,
        slide: current.slide,
        span: Span {
            lo: current.span.lo,
            hi: current.span.hi.max(next.span.hi),
        },
    }
}
