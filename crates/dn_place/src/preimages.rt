//! The names of a unit that addresses of an agent reach, each with these addresses.

ghost use Rattle.std.specs.Prelude.{◌≡◌, ℕ, ◌+◌, ◌-◌, ◌<◌, ◌≤◌, ◌&&◌, ◌||◌, ◌↔◌, true, length, nat_eq, List, IfOk, IfSome, IfNone, OnOk, IsTrue};
ghost use Rattle.dn_interval.specs.declared.row.End.{End};
ghost use Rattle.dn_interval.specs.Terms.{AreNormal, EndsFit, in_span, seg_gives, segs_give};
ghost use Rattle.dn_net.specs.declared.node.NodeDecl.{NodeDecl};
ghost use Rattle.dn_flat.specs.Terms.{StopsFrom};
ghost use Rattle.dn_interval.specs.declared.span.TheConstants.{TOP};
ghost use Rattle.dn_view.specs.Terms.{IsSystem};
ghost use Rattle.dn_place.specs.Terms.{ArePreimages, InRow, IsPreimage, IsWayBack, IsWayTo, LeadsAlone};

use crate::OutOfMemory;
use dn_interval::onward::last_out;
use dn_interval::{Row, Rows, Seg, Span, TOP};
use dn_view::system::System;
use std::alloc::Global;

/// The names of a unit that addresses of the agent reach, each with these addresses: it is found at once which address
/// leads to an input, where a search among the rows of the agent would go over all of them.
#[derive(Drop)]
pub(crate) struct Preimages {
    /// The unit.
    pub(crate) unit: u16,
    /// Its names that are reached, as rows: the names of a row are addresses of the agent.
    pub(crate) rows: Rows,
}

/// Addresses of an agent, one after another, that reach as many names of a unit, one after another.
#[derive(Clone, Copy)]
pub(crate) struct Way {
    /// The first of the addresses.
    pub(crate) first: u64,
    /// The last.
    pub(crate) last: u64,
    /// The one at which a buffer is given.
    pub(crate) v: u64,
}

/// The way of an agent to so many names of a unit, from one on, by the rows of its preimages: where so many addresses one
/// after another, and no others, lead there.
pub(crate) fn way_to(rows: &Rows, x: u64, size: u64) -> Option<Way>
    requires { 1 ≤ size }
    ensures some { IfSome result (λ way. (net : List NodeDecl) (agent unit : ℕ) →
        AreNormal (IsPreimage net agent unit) rows.now →
        IsWayTo net agent (record { node = unit; base = x }) size way) }
    ensures none { IfNone result ((net : List NodeDecl) (agent unit v : ℕ) →
        AreNormal (IsPreimage net agent unit) rows.now →
        LeadsAlone net agent unit x size v → ⊥) }
{
    let _all = rows.rows();
    let row = rows.at(x)?;
    way_in(row, x, size)
}

/// The way to so many names from one on that a row of preimages gives, where it gives each of them one address.
fn way_in(row: &Row, x: u64, size: u64) -> Option<Way>
    requires some { 1 ≤ size }
    requires inside { IsTrue (in_span row.now.span x) }
    requires fit { EndsFit row.now }
    ensures some { IfSome result (λ way. IsWayBack row.now x size way) }
    ensures none { IfNone result ((t : End) → InRow row.now t size x → ⊥) }
{
    let ends = row.ends();
    if ends.len() != 1 || row.span.hi - x < size - 1 {
        return None;
    }
    let first = ends[0].base;
    Some(Way {
        first,
        last: first + (row.span.hi - row.span.lo),
        v: first + (x - row.span.lo),
    })
}

/// The preimages in a unit of the agent that asks. Time of a sort of its rows.
pub(crate) fn preimages_of(
    alloc: Global,
    system: System,
    agent: u16,
    unit: u16,
) -> Result<Preimages, OutOfMemory>
    requires system { IsSystem meaning system }
    requires there { agent < length system.on.net.now }
    ensures { IfOk result (λ p. ArePreimages system.entry.on.net.now agent p) }
{
    let stops = stops(alloc, system, agent)?;
    let back = turned(alloc, stops.as_slice(), agent, unit)?;
    let rows = Rows::normal(alloc, back.as_slice())?;
    Ok(Preimages { unit, rows })
}

/// The names in units to which the addresses of a node come, as segments.
fn stops(alloc: Global, system: System, node: u16) -> Result<Vec<Seg>, OutOfMemory>
    requires system { IsSystem meaning system }
    requires there { node < length system.on.net.now }
    ensures { IfOk result (λ segs. (a : ℕ) (z : End) → a ≤ TOP →
        (segs_give segs.items a z ≡ true) ↔ StopsFrom system.entry.on.net.now node a z) }
{
    let mut segs = Vec::new(alloc);
    let span = Span { lo: 0, hi: TOP };
    let seg = Seg {
        span,
        node,
        base: 0,
    };
    system.flats.push_stops(&mut segs, seg)?;
    Ok(segs)
}

/// The names of a unit that segments give to addresses of a node, each with these addresses.
fn turned(alloc: Global, segs: &[Seg], node: u16, unit: u16) -> Result<Vec<Seg>, OutOfMemory>
    ensures { IfOk result (λ back. (x : ℕ) (z : End) → segs_give back.items x z
        ≡ (nat_eq node z.node
        && segs_give segs.now z.base (record { node = unit; base = x }))) }
{
    let mut back = Vec::new(alloc);
    for seg in segs {
        push_turned(&mut back, *seg, node, unit)?;
    }
    Ok(back)
}

/// Adds the names of a unit that a segment gives to addresses of a node, each with its address.
fn push_turned(back: &mut Vec<Seg>, seg: Seg, node: u16, unit: u16) -> Result<(), OutOfMemory>
    ensures { OnOk result ((x : ℕ) (z : End) → segs_give back.new.items x z
        ≡ (segs_give back.old.items x z || (nat_eq node z.node
        && seg_gives seg z.base (record { node = unit; base = x })))) }
{
    if seg.node != unit {
        return Ok(());
    }
    back.push(turned_round(seg, node))?;
    Ok(())
}

/// The names of a segment, each with its address of a node.
fn turned_round(seg: Seg, node: u16) -> Seg
    ensures { (x : ℕ) (z : End) → seg_gives result x z
        ≡ (nat_eq node z.node && seg_gives seg z.base (record { node = seg.node; base = x })) }
{
    let span = Span {
        lo: seg.base,
        hi: last_out(seg),
    };
    Seg {
        span,
        node,
        base: seg.span.lo,
    }
}
