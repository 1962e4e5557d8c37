//! What names in units come to, unit by unit.

ghost use Rattle.std.specs.Prelude.{◌≡◌, ℕ, ◌≤◌, ◌⊎◌, ◌↔◌, ◌<◌, length, OnOk, IfOk, IsTrue};
ghost use Rattle.dn_interval.specs.declared.row.End.{End};
ghost use Rattle.dn_interval.specs.declared.span.TheConstants.{TOP};
ghost use Rattle.dn_interval.specs.Terms.{segs_give};
ghost use Rattle.dn_walk.specs.Terms.{name_of_end};
ghost use Rattle.dn_flat.specs.Terms.{levels_give};
ghost use Rattle.dn_view.specs.Terms.{ComesThrough, IsCourse, course_records, part_gives, segs_pass, stops_of};
ghost use Rattle.dn_view.specs.declared.part.FlatPart.TheVariants.{Stops};

use crate::OutOfMemory;
use crate::course::Course;
use crate::part::FlatPart;
use crate::pass::pass;
use dn_flat::flats::Flats;
use dn_interval::{Seg, Span, TOP};
use std::alloc::Global;

/// The most units in a row.
pub(crate) const UNITS: u32 = 3;

/// Adds the accepted names to which the names of segments, which stand in units, come through at most
/// three units.
pub(crate) fn push_through(
    alloc: Global,
    shown: &mut Vec<Seg>,
    course: Course,
    stops: Vec<Seg>,
) -> Result<(), OutOfMemory>
    requires { IsCourse meaning course }
    ensures { OnOk result ((a : ℕ) (z : End) → a ≤ TOP → IsTrue (segs_give shown.new.items a z)
        ↔ (IsTrue (segs_give shown.old.items a z) ⊎ ((s : End) ×
        IsTrue (segs_give stops.items a s) × ComesThrough course.entry.system.on.net.now
        (course_records meaning course.entry) (name_of_end s) (name_of_end z)))) }
{
    if stops.is_empty() {
        return Ok(());
    }
    let mut level = stops;
    for _ in 0..UNITS {
        let segs = level.as_slice();
        pass(alloc, shown, course, FlatPart::Accepts, segs)?;
        level = passed_stops(alloc, course, segs)?;
    }
    Ok(())
}

/// The names in units to which the names of segments come through the records of their slots.
pub(crate) fn passed_stops(
    alloc: Global,
    course: Course,
    segs: &[Seg],
) -> Result<Vec<Seg>, OutOfMemory>
    requires { IsCourse meaning course }
    ensures { IfOk result (λ stops. (a : ℕ) (z : End) → segs_give stops.items a z
        ≡ segs_pass course.entry.system.on.net.now (course_records meaning course.entry)
        (part_gives Stops course.entry.system.flats.now) segs.now a z) }
{
    let mut stops = Vec::new(alloc);
    pass(alloc, &mut stops, course, FlatPart::Stops, segs)?;
    Ok(stops)
}

/// The names in units to which the addresses of a node come, as segments.
pub(crate) fn node_stops(alloc: Global, flats: &Flats, node: u16) -> Result<Vec<Seg>, OutOfMemory>
    requires there { node < length flats.now.nodes }
    ensures { IfOk result (λ segs. (a : ℕ) (z : End) → a ≤ TOP → segs_give segs.items a z
        ≡ levels_give (stops_of flats.now node) a z) }
{
    let mut segs = Vec::new(alloc);
    let span = Span { lo: 0, hi: TOP };
    let whole = Seg {
        span,
        node,
        base: 0,
    };
    flats.push_stops(&mut segs, whole)?;
    Ok(segs)
}
