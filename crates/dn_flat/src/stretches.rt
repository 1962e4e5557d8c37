//! Stretches of addresses that resolve to a row of names, each address to its own name alone.

ghost use Rattle.std.specs.Prelude.{◌≡◌, ℕ, ◌+◌, ◌-◌, ◌≤◌, ◌&&◌, ◌||◌, ◌⊎◌, ◌↔◌, List, IfOk, OnOk, IsTrue};
ghost use Rattle.std.specs.List.{All, list_all};
ghost use Rattle.dn_interval.specs.declared.row.End.{End};
ghost use Rattle.dn_interval.specs.declared.row.Seg.{Seg};
ghost use Rattle.dn_interval.specs.declared.span.TheConstants.{TOP};
ghost use Rattle.dn_interval.specs.Terms.{Member, in_span, rows_go, segs_give};
ghost use Rattle.dn_net.specs.declared.node.NodeDecl.{NodeDecl};
ghost use Rattle.dn_flat.specs.Terms.{AreLevels, AreReaches, GivesAll, IsAlone, IsStretch, NearFrom, are_led, begins, is_led, is_part, leads_by, seg_leads, segs_lead};
ghost use Rattle.dn_flat.specs.declared.found.Continuation.TheVariants.{Accepts};

use crate::found::{Continuation, levels_segs, push};
use crate::reach::{Reach, still};
use dn_base::OutOfMemory;
use dn_interval::onward::follow;
use dn_interval::{End, Rows, Seg, Span, Strand, TOP};
use std::alloc::Global;

/// So many names from one on, which are all within the addresses.
#[derive(Clone, Copy)]
pub(crate) struct Buffer {
    pub(crate) first: End,
    pub(crate) size: u64,
    ghost some: { 1 ≤ size },
    ghost within: { first.base + size ≤ TOP + 1 },
}

/// Room for names on the way, and for those to which they come.
#[derive(Drop)]
struct Room {
    mid: Vec<Seg>,
    accepted: Vec<Seg>,
}

/// The accepted names of a buffer to which addresses come by the levels of their node.
pub(crate) fn near_segs(
    alloc: Global,
    nodes: &[Reach],
    levels: &[Rows],
    buffer: Buffer,
) -> Result<Vec<Seg>, OutOfMemory>
    ensures { IfOk result (λ segs. (net : List NodeDecl) (node : ℕ) → AreReaches net 1 nodes.now
        → AreLevels net node levels.now → (a : ℕ) (z : End) → a ≤ TOP
        → IsTrue (segs_give segs.items a z) ↔ NearFrom net node buffer.first buffer.size a z) }
{
    let mut segs = Vec::new(alloc);
    let all = stretch(buffer, buffer.first.base);
    push(&mut segs, nodes, Continuation::Accepts, all)?;
    let rows = Rows::normal(alloc, &segs)?;
    levels_segs(
        alloc,
        nodes,
        Continuation::Toward(buffer.first.node, &rows),
        levels,
    )
}

/// The names of a buffer, for as many addresses from one on.
fn stretch(buffer: Buffer, lo: u64) -> Seg
    requires { lo + buffer.size ≤ TOP + 1 }
    ensures is { IsStretch buffer.first buffer.size result }
    ensures lo { result.span.lo ≡ lo }
{
    let span = Span {
        lo,
        hi: lo + (buffer.size - 1),
    };
    Seg {
        span,
        node: buffer.first.node,
        base: buffer.first.base,
    }
}

/// The stretches of addresses that strands lead to a buffer.
pub(crate) fn led_stretches(
    alloc: Global,
    strands: &[Strand],
    buffer: Buffer,
) -> Result<Vec<Seg>, OutOfMemory>
    ensures each { IfOk result (λ segs. All (IsStretch buffer.first buffer.size) segs.items) }
    ensures led { IfOk result (λ segs. (v : ℕ) → begins segs.items v
        ≡ are_led buffer.first buffer.size strands.now v) }
{
    let mut segs = Vec::new(alloc);
    for strand in strands {
        push_led(&mut segs, strand, buffer)?;
    }
    Ok(segs)
}

/// Adds the stretch that a strand leads to a buffer, where it leads one.
fn push_led(segs: &mut Vec<Seg>, strand: &Strand, buffer: Buffer) -> Result<(), OutOfMemory>
    ensures each { OnOk result (All (IsStretch buffer.first buffer.size) segs.old.items
        → All (IsStretch buffer.first buffer.size) segs.new.items) }
    ensures led { OnOk result ((v : ℕ) → begins segs.new.items v
        ≡ (begins segs.old.items v || is_led buffer.first buffer.size strand.now v)) }
{
    let first = buffer.first;
    let size = buffer.size;
    if strand.node != first.node {
        return Ok(());
    }
    if first.base + TOP < strand.slide + strand.span.lo {
        return Ok(());
    }
    let lo = first.base + TOP - strand.slide;
    if strand.span.hi < lo + (size - 1) {
        return Ok(());
    }
    segs.push(stretch(buffer, lo))?;
    Ok(())
}

/// Those of some segments whose addresses show by the levels of their node no names but theirs. Time of the levels for
/// each, up to the first name that is another.
pub(crate) fn alone_segs(
    alloc: Global,
    nodes: &[Reach],
    levels: &[Rows],
    segs: &[Seg],
) -> Result<Vec<Seg>, OutOfMemory>
    ensures { IfOk result (λ out. (s : Seg) → Member s out.items
        ↔ (Member s segs.now × IsAlone nodes.now levels.now s)) }
{
    let mut out = Vec::new(alloc);
    let mut room = Room {
        mid: Vec::new(alloc),
        accepted: Vec::new(alloc),
    };
    for seg in segs {
        let alone = is_alone(&mut room, nodes, levels, *seg)?;
        push_where(&mut out, *seg, alone)?;
    }
    Ok(out)
}

/// Adds a segment where a test says so.
fn push_where(segs: &mut Vec<Seg>, seg: Seg, test: bool) -> Result<(), OutOfMemory>
    ensures { OnOk result ((s : Seg) → Member s segs.new.items
        ↔ (Member s segs.old.items ⊎ ((seg ≡ s) × IsTrue test))) }
{
    if test {
        segs.push(seg)?;
    }
    Ok(())
}

/// Whether the addresses of a segment show by the levels of their node no names but those of the segment.
fn is_alone(
    room: &mut Room,
    nodes: &[Reach],
    levels: &[Rows],
    seg: Seg,
) -> Result<bool, OutOfMemory>
    ensures { IfOk result (λ alone. IsTrue alone ↔ IsAlone nodes.now levels.now seg) }
{
    for level in levels {
        let alone = is_alone_in(room, nodes, level, seg)?;
        if !alone {
            return Ok(false);
        }
    }
    Ok(true)
}

/// Whether they show no others by one level.
fn is_alone_in(
    room: &mut Room,
    nodes: &[Reach],
    level: &Rows,
    seg: Seg,
) -> Result<bool, OutOfMemory>
    ensures { IfOk result (λ alone. IsTrue alone ↔ GivesAll (λ a z. in_span seg.span a
        && rows_go (leads_by Accepts nodes.now) level.now a z) seg) }
{
    room.mid.clear();
    follow(&mut room.mid, still(0, seg.span), level)?;
    give_parts(&mut room.accepted, nodes, room.mid.as_slice(), seg)
}

/// Whether segments come to no accepted names but those of another.
fn give_parts(
    room: &mut Vec<Seg>,
    nodes: &[Reach],
    segs: &[Seg],
    whole: Seg,
) -> Result<bool, OutOfMemory>
    ensures { IfOk result (λ parts. IsTrue parts
        ↔ GivesAll (λ a z. segs_lead (leads_by Accepts nodes.now) segs.now a z) whole) }
{
    for seg in segs {
        let part = gives_part(room, nodes, *seg, whole)?;
        if !part {
            return Ok(false);
        }
    }
    Ok(true)
}

/// Whether a segment comes to no accepted names but those of another.
fn gives_part(
    room: &mut Vec<Seg>,
    nodes: &[Reach],
    seg: Seg,
    whole: Seg,
) -> Result<bool, OutOfMemory>
    ensures { IfOk result (λ part. IsTrue part
        ↔ GivesAll (λ a z. seg_leads (leads_by Accepts nodes.now) seg a z) whole) }
{
    room.clear();
    push(room, nodes, Continuation::Accepts, seg)?;
    Ok(are_parts(room.as_slice(), whole))
}

/// Whether segments give no names but those of another.
fn are_parts(segs: &[Seg], whole: Seg) -> bool
    ensures { result ≡ list_all (λ s. is_part s whole) segs.now }
{
    for seg in segs {
        if !is_part(seg, whole) {
            return false;
        }
    }
    true
}

/// Whether a segment gives no name but those of another.
fn is_part(seg: &Seg, whole: Seg) -> bool
    ensures { result ≡ is_part seg.now whole }
{
    whole.span.lo <= seg.span.lo
        && seg.span.hi <= whole.span.hi
        && seg.node == whole.node
        && whole.base <= seg.base
        && seg.base - whole.base == seg.span.lo - whole.span.lo
}
