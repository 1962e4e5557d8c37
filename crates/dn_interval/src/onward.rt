//! Segments whose names go on: what they come to by the rows of their node.

ghost use Rattle.std.specs.Prelude.{◌≡◌, ℕ, ◌+◌, ◌-◌, ◌≤◌, ◌&&◌, ◌||◌, nat_eq, take, length, OnOk, OnErr};
ghost use Rattle.dn_interval.specs.declared.row.End.{End};
ghost use Rattle.dn_interval.specs.declared.span.TheConstants.{TOP};
ghost use Rattle.dn_interval.specs.Terms.{EndsFit, in_span, row_gives, seg_gives, seg_goes, segs_give};

use crate::row::{End, Row, Seg};
use crate::rows::{Rows, ended_before};
use crate::span::Span;
use dn_base::OutOfMemory;

/// Adds what the addresses of a segment come to where its names go on by the rows of its node: of each row that has
/// some of these names, the addresses with them, once for each name of the row. Time of a binary search in the
/// rows, and of what is added. For want of memory the segments are as they were.
pub fn follow(segs: &mut Vec<Seg>, seg: Seg, rows: &Rows) -> Result<(), OutOfMemory>
    ensures ok { OnOk result ((a : ℕ) (z : End) → segs_give segs.new.items a z
        ≡ (segs_give segs.old.items a z || seg_goes rows.now seg a z)) }
    ensures err { OnErr result (segs.new.items ≡ segs.old.items) }
{
    let len = segs.len();
    let made = push_all(segs, seg, rows);
    if made.is_err() {
        segs.truncate(len);
    }
    made
}

/// Adds what the addresses of a segment come to, one row after another. Those that were there stay in front.
fn push_all(segs: &mut Vec<Seg>, seg: Seg, rows: &Rows) -> Result<(), OutOfMemory>
    ensures ok { OnOk result ((a : ℕ) (z : End) → segs_give segs.new.items a z
        ≡ (segs_give segs.old.items a z || seg_goes rows.now seg a z)) }
    ensures kept { take (length segs.old.items) segs.new.items ≡ segs.old.items }
{
    let last = last_out(seg);
    let all = rows.rows();
    let rest = &all[ended_before(all, seg.base)..];
    for row in rest {
        if last < row.span.lo {
            return Ok(());
        }
        push_cuts(segs, seg, row)?;
    }
    Ok(())
}

/// Adds the part of a segment whose names a row has, once for each name of the row.
fn push_cuts(segs: &mut Vec<Seg>, seg: Seg, row: &Row) -> Result<(), OutOfMemory>
    requires begins { row.now.span.lo ≤ seg.base + (seg.span.hi - seg.span.lo) }
    requires ends { seg.base ≤ row.now.span.hi }
    requires fits { EndsFit row.now }
    ensures ok { OnOk result ((a : ℕ) (z : End) → segs_give segs.new.items a z
        ≡ (segs_give segs.old.items a z || (in_span seg.span a
        && row_gives row.now (seg.base + (a - seg.span.lo)) z))) }
    ensures kept { take (length segs.old.items) segs.new.items ≡ segs.old.items }
{
    let span = row.span();
    let ends = row.ends();
    for end in ends {
        segs.push(cut(seg, span, *end))?;
    }
    Ok(())
}

/// The address to which the last one of a segment comes.
pub fn last_out(seg: Seg) -> u64
    ensures { result ≡ seg.base + (seg.span.hi - seg.span.lo) }
{
    seg.base + (seg.span.hi - seg.span.lo)
}

/// The part of a segment whose names lie in a span, with the names to which these go on: that of the span's first
/// address is given. Where the front is cut off, the base moves with it.
pub fn cut(seg: Seg, span: Span, end: End) -> Seg
    requires begins { span.lo ≤ seg.base + (seg.span.hi - seg.span.lo) }
    requires ends { seg.base ≤ span.hi }
    requires fits { end.base + (span.hi - span.lo) ≤ TOP }
    ensures { (a : ℕ) (z : End) → seg_gives result a z ≡ (in_span seg.span a
        && (in_span span (seg.base + (a - seg.span.lo)) && (nat_eq end.node z.node
        && nat_eq (end.base + ((seg.base + (a - seg.span.lo)) - span.lo)) z.base))) }
{
    let first = seg.base.max(span.lo);
    let last = last_out(seg).min(span.hi);
    Seg {
        span: Span {
            lo: seg.span.lo + (first - seg.base),
            hi: seg.span.lo + (last - seg.base),
        },
        node: end.node,
        base: end.base + (first - span.lo),
    }
}
