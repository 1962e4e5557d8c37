//! Which rows give names of so many from one on.

ghost use Rattle.std.specs.Prelude.{◌≡◌, ℕ, ◌+◌, ◌-◌, ◌≤◌, ◌||◌, ◌&&◌, OnOk};
ghost use Rattle.dn_interval.specs.declared.row.End.{End};
ghost use Rattle.dn_interval.specs.declared.span.TheConstants.{TOP};
ghost use Rattle.dn_interval.specs.Terms.{EndsFit, in_span, segs_give};
ghost use Rattle.dn_view.specs.Terms.{end_near, is_near, levels_near, row_near, rows_near};

use crate::OutOfMemory;
use dn_interval::{End, Row, Rows, Seg, Span};

/// Adds where levels give names of so many from one on. A row counts whole, also where it gives others beside them.
pub fn push_near(
    segs: &mut Vec<Seg>,
    levels: &[Rows],
    target: End,
    size: u64,
) -> Result<(), OutOfMemory>
    ensures { OnOk result ((a : ℕ) (z : End) → segs_give segs.new.items a z
        ≡ (segs_give segs.old.items a z || levels_near target size levels.now a z)) }
{
    for level in levels {
        push_level(segs, level, target, size)?;
    }
    Ok(())
}

/// Adds where rows give such names.
fn push_level(segs: &mut Vec<Seg>, rows: &Rows, target: End, size: u64) -> Result<(), OutOfMemory>
    ensures { OnOk result ((a : ℕ) (z : End) → segs_give segs.new.items a z
        ≡ (segs_give segs.old.items a z || rows_near target size rows.now a z)) }
{
    let all = rows.rows();
    for row in all {
        push_row(segs, row, target, size)?;
    }
    Ok(())
}

/// Adds where a row gives such names.
fn push_row(segs: &mut Vec<Seg>, row: &Row, target: End, size: u64) -> Result<(), OutOfMemory>
    requires fit { EndsFit row.now }
    ensures { OnOk result ((a : ℕ) (z : End) → segs_give segs.new.items a z
        ≡ (segs_give segs.old.items a z || row_near target size row.now a z)) }
{
    let span = row.span();
    let ends = row.ends();
    for end in ends {
        push_end(segs, span, *end, target, size)?;
    }
    Ok(())
}

/// Adds where a span gives a name, moved on from its first address, if some of it is such a name.
fn push_end(
    segs: &mut Vec<Seg>,
    span: Span,
    end: End,
    target: End,
    size: u64,
) -> Result<(), OutOfMemory>
    requires fits { end.base + (span.hi - span.lo) ≤ TOP }
    ensures { OnOk result ((a : ℕ) (z : End) → segs_give segs.new.items a z
        ≡ (segs_give segs.old.items a z || (in_span span a
        && end_near target size span a z end))) }
{
    if !is_near(span, end, target, size) {
        return Ok(());
    }
    let seg = Seg {
        span,
        node: end.node,
        base: end.base,
    };
    Ok(segs.push(seg)?)
}

/// Whether a span gives one of so many names from one on, where its first address has this name.
fn is_near(span: Span, end: End, target: End, size: u64) -> bool
    ensures { result ≡ is_near target size span end }
{
    if end.node != target.node {
        return false;
    }
    if target.base < end.base {
        end.base - target.base < size
    } else {
        target.base - end.base <= span.hi - span.lo
    }
}
