//! Segments of what rows come to, by what their nodes come to.

ghost use Rattle.std.specs.Prelude.{◌≡◌, ℕ, ◌||◌, [], OnOk, IfOk};
ghost use Rattle.std.specs.List.{All};
ghost use Rattle.dn_interval.specs.declared.row.End.{End};
ghost use Rattle.dn_interval.specs.declared.span.TheConstants.{TOP};
ghost use Rattle.dn_interval.specs.Terms.{AreNormal, EndsFit, SegmentsGive, row_goes, rows_go, segs_give};
ghost use Rattle.dn_flat.specs.Terms.{leads_by, levels_lead, reach_leads, seg_leads, segs_lead};

use crate::flat::Flat;
use crate::reach::Reach;
use dn_base::OutOfMemory;
use dn_interval::onward::follow;
use dn_interval::{Row, Rows, Seg, Span, TOP};
use std::alloc::Global;

/// By what names go on.
#[derive(Clone, Copy)]
pub(crate) enum Continuation<'a> {
    /// By the accepted names to which their nodes come.
    Accepts,
    /// By the names in units to which their nodes come.
    Stops,
    /// By where their nodes go on.
    Goes,
    /// They stay, where their nodes accept something.
    Stays,
    /// Those in one node, by rows.
    Toward(u16, &'a Rows),
}

/// What was found so far.
#[derive(Drop)]
pub(crate) struct FoundSegs {
    /// Addresses that come to an accepted name.
    pub(crate) accepts: Vec<Seg>,
    /// Addresses that come to a name in a unit.
    pub(crate) stops: Vec<Seg>,
    /// Addresses that go on.
    pub(crate) go: Vec<Seg>,
}

impl FoundSegs {
    /// Nothing yet.
    pub(crate) fn new(alloc: Global) -> FoundSegs
        ensures accepts { result.accepts.items ≡ [] }
        ensures stops { result.stops.items ≡ [] }
        ensures go { result.go.items ≡ [] }
    {
        FoundSegs {
            accepts: Vec::new(alloc),
            stops: Vec::new(alloc),
            go: Vec::new(alloc),
        }
    }
}

/// Each address of a node, as itself.
pub(crate) fn whole(node: u16) -> Seg
    ensures node { result.node ≡ node }
    ensures base { result.base ≡ 0 }
    ensures lo { result.span.lo ≡ 0 }
    ensures hi { result.span.hi ≡ TOP }
{
    let span = Span { lo: 0, hi: TOP };
    Seg {
        span,
        node,
        base: 0,
    }
}

/// What the names of levels come to, by what their nodes come to.
pub(crate) fn levels_segs(
    alloc: Global,
    nodes: &[Reach],
    part: Continuation,
    levels: &[Rows],
) -> Result<Vec<Seg>, OutOfMemory>
    ensures { IfOk result (λ segs. (a : ℕ) (z : End) → segs_give segs.items a z
        ≡ levels_lead (leads_by part.entry nodes.now) levels.now a z) }
{
    let mut segs = Vec::new(alloc);
    for level in levels {
        push_rows(&mut segs, nodes, part, level)?;
    }
    Ok(segs)
}

/// Adds what the names of rows come to, by what their nodes come to.
pub(crate) fn push_rows(
    segs: &mut Vec<Seg>,
    nodes: &[Reach],
    part: Continuation,
    rows: &Rows,
) -> Result<(), OutOfMemory>
    ensures adds { OnOk result ((a : ℕ) (z : End) → segs_give segs.new.items a z
        ≡ (segs_give segs.old.items a z || rows_go (leads_by part.entry nodes.now) rows.now a z)) }
    // Each name that the rows give is at or below the last address.
    ensures fit { OnOk result (All EndsFit rows.now) }
{
    let all = rows.rows();
    for row in all {
        push_row(segs, nodes, part, row)?;
    }
    Ok(())
}

/// Adds what the names of a row come to.
fn push_row(
    segs: &mut Vec<Seg>,
    nodes: &[Reach],
    part: Continuation,
    row: &Row,
) -> Result<(), OutOfMemory>
    requires fit { EndsFit row.now }
    ensures { OnOk result ((a : ℕ) (z : End) → segs_give segs.new.items a z
        ≡ (segs_give segs.old.items a z || row_goes (leads_by part.entry nodes.now) row.now a z)) }
{
    let span = row.span();
    let ends = row.ends();
    for end in ends {
        let seg = Seg {
            span,
            node: end.node,
            base: end.base,
        };
        push(segs, nodes, part, seg)?;
    }
    Ok(())
}

/// Adds what the names of segments come to, by what their nodes come to.
pub(crate) fn push_segs(
    segs: &mut Vec<Seg>,
    nodes: &[Reach],
    part: Continuation,
    given: &[Seg],
) -> Result<(), OutOfMemory>
    ensures { OnOk result ((a : ℕ) (z : End) → segs_give segs.new.items a z
        ≡ (segs_give segs.old.items a z
        || segs_lead (leads_by part.entry nodes.now) given.now a z)) }
{
    for seg in given {
        push(segs, nodes, part, *seg)?;
    }
    Ok(())
}

/// Adds what the names of a segment come to, by what their node comes to. In a node that is not there they come to
/// nothing.
pub(crate) fn push(
    segs: &mut Vec<Seg>,
    nodes: &[Reach],
    part: Continuation,
    seg: Seg,
) -> Result<(), OutOfMemory>
    ensures { OnOk result ((a : ℕ) (z : End) → segs_give segs.new.items a z
        ≡ (segs_give segs.old.items a z || seg_leads (leads_by part.entry nodes.now) seg a z)) }
{
    match nodes.get(usize::from(seg.node)) {
        Some(reach) => push_by(segs, reach, part, seg),
        None => Ok(()),
    }
}

/// Adds what the names of a segment come to, by what their node comes to.
fn push_by(
    segs: &mut Vec<Seg>,
    reach: &Reach,
    part: Continuation,
    seg: Seg,
) -> Result<(), OutOfMemory>
    ensures { OnOk result ((a : ℕ) (z : End) → segs_give segs.new.items a z
        ≡ (segs_give segs.old.items a z || seg_leads (reach_leads part.entry reach.now) seg a z)) }
{
    match part {
        Continuation::Accepts => follow(segs, seg, &reach.done.accepts),
        Continuation::Stops => follow(segs, seg, &reach.done.stops),
        Continuation::Goes => follow(segs, seg, &reach.go),
        Continuation::Stays if reach.done.accepts.rows().is_empty() => Ok(()),
        Continuation::Stays => Ok(segs.push(seg)?),
        Continuation::Toward(node, _) if seg.node != node => Ok(()),
        Continuation::Toward(_, rows) => follow(segs, seg, rows),
    }
}

/// The accepted names and the stops that were found, as normal rows.
pub(crate) fn flat_of(alloc: Global, found: &FoundSegs) -> Result<Flat, OutOfMemory>
    ensures accepts { IfOk result (λ flat. AreNormal (SegmentsGive found.now.accepts.items)
        flat.accepts) }
    ensures stops { IfOk result (λ flat. AreNormal (SegmentsGive found.now.stops.items)
        flat.stops) }
{
    Ok(Flat {
        accepts: Rows::normal(alloc, &found.accepts)?,
        stops: Rows::normal(alloc, &found.stops)?,
    })
}
