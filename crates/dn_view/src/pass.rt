//! Passes through units: what segments of names in units come to through one slot each.

ghost use Rattle.std.specs.Prelude.{◌≡◌, ℕ, ◌+◌, ◌-◌, ◌*◌, ◌/◌, ◌%◌, ◌^◌, ◌<◌, ◌≤◌, ◌&&◌, ◌||◌, nat_lt, length, slice_get, Bool, Some, None, IfOk, IfSome, OnOk, IsTrue};
ghost use Rattle.std.specs.List.{list_all, list_any};
ghost use Rattle.std.specs.Option.{option_copied};
ghost use Rattle.dn_interval.specs.declared.row.End.{End};
ghost use Rattle.dn_interval.specs.Terms.{in_span, segs_give};
ghost use Rattle.dn_net.specs.Terms.{unit_at};
ghost use Rattle.dn_kind.specs.Terms.{is_plain_unit_shape, is_within, unit_shape};
ghost use Rattle.dn_flat.specs.Terms.{seg_leads};
ghost use Rattle.dn_view.specs.Terms.{IsCourse, IsRun, course_records, in_slot, names_go, outputs, part_gives, part_leads, run_leads, seg_name, seg_passes, segs_pass};

use crate::OutOfMemory;
use crate::course::Course;
use crate::part::FlatPart;
use crate::range::{held_end, slot_range};
use crate::records::record_for;
use dn_flat::flats::Flats;
use dn_interval::onward::{cut, last_out};
use dn_interval::{End, Seg, Span};
use dn_kind::output::output_name;
use dn_kind::unit_kind::Record;
use dn_net::checked::CheckedNet;
use dn_net::net::Net;
use dn_net::node::Unit;
use std::alloc::Global;

/// Adds what the names of segments come to through the records of their slots, by what the nodes come to
/// to which these send. A name that is in no unit comes to nothing.
pub(crate) fn pass(
    alloc: Global,
    out: &mut Vec<Seg>,
    course: Course,
    part: FlatPart,
    segs: &[Seg],
) -> Result<(), OutOfMemory>
    requires { IsCourse meaning course }
    ensures { OnOk result ((a : ℕ) (z : End) → segs_give out.new.items a z
        ≡ (segs_give out.old.items a z || segs_pass course.entry.system.on.net.now (course_records
        meaning course.entry) (part_gives part course.entry.system.flats.now) segs.now a z)) }
{
    let mut mid = Vec::new(alloc);
    for seg in segs {
        pass_seg(out, &mut mid, course, part, *seg)?;
    }
    Ok(())
}

/// Adds what the names of a segment come to. `mid` is room for names on the way.
fn pass_seg(
    out: &mut Vec<Seg>,
    mid: &mut Vec<Seg>,
    course: Course,
    part: FlatPart,
    seg: Seg,
) -> Result<(), OutOfMemory>
    requires { IsCourse meaning course }
    ensures { OnOk result ((a : ℕ) (z : End) → segs_give out.new.items a z
        ≡ (segs_give out.old.items a z || seg_passes course.entry.system.on.net.now (course_records
        meaning course.entry) (part_gives part course.entry.system.flats.now) seg a z)) }
{
    let Some(unit) = unit_of(course.system.on.net, seg.node) else {
        return Ok(());
    };
    if !leads_on(course.system.flats, unit, part) {
        return Ok(());
    }
    let checked = CheckedNet {
        net: course.system.on.net,
    };
    let end = held_end(course.system, course.tables, seg.node, unit);
    let range = slot_range(checked, course.records, unit, seg, end);
    let mut run = None;
    for slot in range.0..range.1 {
        run = pass_slot(out, mid, course, part, unit, seg, slot, run)?;
    }
    push_run(out, mid, course.system.flats, part, run)
}

/// Adds what the names of a segment come to through one slot, and what a run comes to: but for those of a run that is
/// answered, with which the next slot may go on.
fn pass_slot(
    out: &mut Vec<Seg>,
    mid: &mut Vec<Seg>,
    course: Course,
    part: FlatPart,
    unit: &Unit,
    seg: Seg,
    slot: u64,
    run: Option<Seg>,
) -> Result<Option<Seg>, OutOfMemory>
    requires course { IsCourse meaning course }
    requires unit { unit_at course.system.on.net.now seg.node ≡ Some unit.now }
    requires there { slot < unit.now.slots }
    requires begins { seg.base / 2 ^ unit.now.page ≤ slot }
    requires ends { slot ≤ (seg.base + (seg.span.hi - seg.span.lo)) / 2 ^ unit.now.page }
    requires run { IsRun course.system.flats.now run }
    ensures run { IfOk result (λ next. IsRun course.entry.system.flats.now next) }
    ensures given { IfOk result (λ next. (a : ℕ) (z : End) → (segs_give out.new.items a z
        || run_leads (part_gives part course.entry.system.flats.now) next a z)
        ≡ ((segs_give out.old.items a z
        || run_leads (part_gives part course.entry.system.flats.now) run a z)
        || (in_slot unit.now.page slot seg a && names_go
        (part_gives part course.entry.system.flats.now) (outputs course.entry.system.on.net.now
        (course_records meaning course.entry) (seg_name seg a)) z))) }
{
    match record_for(course, seg.node, slot as u32) {
        None => Ok(run),
        Some(record) => {
            let sent = sent_part(unit, record, seg, slot);
            push_after(out, mid, course.system.flats, part, run, sent)
        }
    }
}

/// Adds what a run comes to, unless a segment goes on with it: the run is answered that is left, with the segment in it.
fn push_after(
    out: &mut Vec<Seg>,
    mid: &mut Vec<Seg>,
    flats: &Flats,
    part: FlatPart,
    run: Option<Seg>,
    seg: Seg,
) -> Result<Option<Seg>, OutOfMemory>
    requires there { seg.node < length flats.now.nodes }
    requires run { IsRun flats.now run }
    ensures run { IfOk result (λ next. IsRun flats.now next) }
    ensures given { IfOk result (λ next. (a : ℕ) (z : End) → (segs_give out.new.items a z
        || run_leads (part_gives part flats.now) next a z) ≡ ((segs_give out.old.items a z
        || run_leads (part_gives part flats.now) run a z)
        || seg_leads (part_gives part flats.now) seg a z)) }
{
    match with_next(run, seg) {
        Some(longer) => Ok(Some(longer)),
        None => {
            push_run(out, mid, flats, part, run)?;
            Ok(Some(seg))
        }
    }
}

/// Adds what a run comes to, if there is one.
fn push_run(
    out: &mut Vec<Seg>,
    mid: &mut Vec<Seg>,
    flats: &Flats,
    part: FlatPart,
    run: Option<Seg>,
) -> Result<(), OutOfMemory>
    requires run { IsRun flats.now run }
    ensures { OnOk result ((a : ℕ) (z : End) → segs_give out.new.items a z
        ≡ (segs_give out.old.items a z || run_leads (part_gives part flats.now) run a z)) }
{
    match run {
        Some(seg) => push_sent(out, mid, flats, part, seg),
        None => Ok(()),
    }
}

/// A run with a segment that goes on with it. `None` where it does not.
fn with_next(run: Option<Seg>, seg: Seg) -> Option<Seg>
    ensures node { IfSome result (λ s. s.node ≡ seg.node) }
    ensures given { IfSome result (λ s. (next : ℕ → ℕ → End → Bool) (a : ℕ) (z : End) →
        seg_leads next s a z ≡ (run_leads next run a z || seg_leads next seg a z)) }
{
    let one = run?;
    if one.node != seg.node {
        return None;
    }
    if one.span.hi + 1 != seg.span.lo {
        return None;
    }
    let end = last_out(one);
    if end + 1 != seg.base {
        return None;
    }
    let span = Span {
        lo: one.span.lo,
        hi: seg.span.hi,
    };
    let base = one.base;
    Some(Seg {
        span,
        node: seg.node,
        base,
    })
}

/// Adds what the names of a segment come to by what their node comes to.
pub(crate) fn push_sent(
    out: &mut Vec<Seg>,
    mid: &mut Vec<Seg>,
    flats: &Flats,
    part: FlatPart,
    seg: Seg,
) -> Result<(), OutOfMemory>
    requires { seg.node < length flats.now.nodes }
    ensures { OnOk result ((a : ℕ) (z : End) → segs_give out.new.items a z
        ≡ (segs_give out.old.items a z || (in_span seg.span a
        && part_gives part flats.now seg.node (seg.base + (a - seg.span.lo)) z))) }
{
    match part {
        FlatPart::Accepts => flats.push_accepted(out, mid, seg),
        FlatPart::Stops => flats.push_stops(out, seg),
    }
}

/// The part of a segment whose names stand in a slot, with the names to which its record sends them: that of
/// the slot's first address is told by the record.
fn sent_part(unit: &Unit, record: Record, seg: Seg, slot: u64) -> Seg
    requires plain { IsTrue (is_plain_unit_shape (unit_shape unit.now)) }
    requires within { IsTrue (is_within (unit_shape unit.now) «record») }
    requires there { slot < unit.now.slots }
    requires begins { seg.base / 2 ^ unit.now.page ≤ slot }
    requires ends { slot ≤ (seg.base + (seg.span.hi - seg.span.lo)) / 2 ^ unit.now.page }
    ensures node { slice_get unit.now.ports «record».port ≡ Some result.node }
    ensures span { (a : ℕ) → in_span result.span a ≡ in_slot unit.now.page slot seg a }
    ensures names { (a : ℕ) → IsTrue (in_span result.span a) → result.base + (a - result.span.lo)
        ≡ «record».page * 2 ^ unit.now.page + (seg.base + (a - seg.span.lo)) % 2 ^ unit.now.page }
{
    let size = 1 << unit.page;
    let lo = slot * size;
    let hi = lo + (size - 1);
    let name = output_name(unit, record, lo);
    let end = End {
        node: name.node,
        base: name.addr,
    };
    cut(seg, Span { lo, hi }, end)
}

/// The unit that a node is. `None` exactly where it is none, or is not there.
pub(crate) fn unit_of(net: &Net, node: u16) -> Option<&Unit>
    ensures { option_copied result ≡ unit_at net.now node }
{
    if node < net.nodes() {
        net.unit(node)
    } else {
        None
    }
}

/// Whether the node of one of a unit's ports leads to something.
fn leads_on(flats: &Flats, unit: &Unit, part: FlatPart) -> bool
    requires { IsTrue (list_all (λ p. nat_lt p (length flats.now.nodes)) unit.now.ports) }
    ensures { result ≡ list_any (λ p. part_leads part flats.now p) unit.now.ports }
{
    let ports = unit.ports.as_slice();
    for port in ports {
        if node_leads(flats, *port, part) {
            return true;
        }
    }
    false
}

/// Whether a node leads to something.
fn node_leads(flats: &Flats, node: u16, part: FlatPart) -> bool
    requires { node < length flats.now.nodes }
    ensures { result ≡ part_leads part flats.now node }
{
    match part {
        FlatPart::Accepts => !flats.of(node).reached.as_slice().is_empty(),
        FlatPart::Stops => flats.of(node).has_stops(),
    }
}
