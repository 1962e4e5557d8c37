//! Segments that stand one behind another, as they come where nothing overlaps: their rows want no sort.

ghost use Rattle.std.specs.Prelude.{◌≡◌, ◌≢◌, ℕ, ◌+◌, ◌-◌, ◌≤◌, ◌<◌, ◌&&◌, ◌||◌, [], true, IfOk};
ghost use Rattle.dn_interval.specs.declared.row.End.{End};
ghost use Rattle.dn_interval.specs.Terms.{Apart, does_go_on, is_in_turn, row_of, rows_give, seg_gives, segs_give};

use crate::row::{End, Ends, Row, Seg};
use crate::span::Span;
use dn_base::OutOfMemory;
use std::alloc::Global;

/// Whether each segment begins behind those before it.
pub fn are_in_turn(segs: &[Seg]) -> bool
    ensures { result ≡ is_in_turn 0 segs.now }
{
    let mut from = 0;
    for seg in segs {
        if seg.span.lo < from {
            return false;
        }
        from = seg.span.hi + 1;
    }
    true
}

/// The rows of segments of which each begins behind those before it: one for each, joined with the next where that
/// goes on.
pub fn rows_in_turn(alloc: Global, segs: &[Seg]) -> Result<Vec<Row>, OutOfMemory>
    requires { is_in_turn 0 segs.now ≡ true }
    ensures same { IfOk result (λ rows. (a : ℕ) (y : End) → rows_give rows.items a y
        ≡ segs_give segs.now a y) }
    ensures apart { IfOk result (λ rows. Apart 0 rows.items) }
{
    let mut rows = Vec::new(alloc);
    if segs.is_empty() {
        return Ok(rows);
    }
    let mut current = segs[0];
    let rest = &segs[1..];
    for seg in rest {
        if goes_on(&current, seg) {
            current = longer_seg(&current, seg);
        } else {
            rows.push(row_of_seg(alloc, &current))?;
            current = *seg;
        }
    }
    rows.push(row_of_seg(alloc, &current))?;
    Ok(rows)
}

/// Whether a segment that stands behind another goes on with its names.
fn goes_on(current: &Seg, next: &Seg) -> bool
    ensures { result ≡ does_go_on current.now next.now }
{
    let after = current.span.hi + 1;
    next.span.lo == after
        && next.node == current.node
        && next.base == current.base + (after - current.span.lo)
}

/// One segment for a segment and one that goes on with its names.
fn longer_seg(current: &Seg, next: &Seg) -> Seg
    requires { does_go_on current.now next.now ≡ true }
    ensures lo { result.span.lo ≡ current.now.span.lo }
    ensures hi { result.span.hi ≡ next.now.span.hi }
    ensures node { result.node ≡ current.now.node }
    ensures base { result.base ≡ current.now.base }
    ensures gives { (a : ℕ) (y : End) → seg_gives result a y
        ≡ (seg_gives current.now a y || seg_gives next.now a y) }
{
    let span = Span {
        lo: current.span.lo,
        hi: next.span.hi,
    };
    Seg {
        span,
        node: current.node,
        base: current.base,
    }
}

/// The row of a segment.
fn row_of_seg(alloc: Global, seg: &Seg) -> Row
    ensures { result ≡ row_of seg.now }
{
    let end = End {
        node: seg.node,
        base: seg.base,
    };
    Row {
        span: seg.span,
        ends: Ends::one(alloc, end),
    }
}
