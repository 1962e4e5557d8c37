//! Whether a placement shows exactly its buffer.

ghost use Rattle.std.specs.Prelude.{◌≡◌, ℕ, ◌+◌, ◌≤◌, ◌⊎◌, ◌↔◌, ◌&&◌, nat_eq, slice_get, IfOk, OnOk, IsTrue};
ghost use Rattle.std.specs.List.{list_all};
ghost use Rattle.dn_interval.specs.declared.row.End.{End};
ghost use Rattle.dn_interval.specs.declared.span.TheConstants.{TOP};
ghost use Rattle.dn_interval.specs.Terms.{segs_give};
ghost use Rattle.dn_net.specs.Terms.{is_agent_at};
ghost use Rattle.dn_kind.specs.Terms.{allows, are_rights, kinds_of};
ghost use Rattle.dn_tables.specs.Terms.{FitsNet, record_kept};
ghost use Rattle.dn_placement.specs.Terms.{IsAdmissible, IsPlacement, slots_of_set};
ghost use Rattle.dn_walk.specs.Terms.{name_of_end};
ghost use Rattle.dn_view.specs.Terms.{AreExactAmong, AreExactIn, ComesIn, IsAskedAt, IsExactIn, IsPassedIn, IsSystem, IsTrial, are_buffer, is_buffer_end, is_buffer_row, is_part_of_buffer, reading_trial};

use crate::OutOfMemory;
use crate::course::Course;
use crate::met::met_stops;
use crate::onward::onward_segs;
use crate::part::FlatPart;
use crate::pass::pass;
use crate::records::Records;
use crate::shown::{UNITS, passed_stops, push_through};
use crate::system::System;
use crate::trial::Trial;
use crate::untouched::is_alike;
use dn_interval::{End, Row, Rows, Seg};
use dn_kind::rights::Access;
use dn_placement::request::Request;
use dn_placement::roles::is_agent;
use dn_tables::placement::Placement;
use dn_tables::set::TableSet;
use std::alloc::Global;

/// Whether a placement of a request is admissible under the tables: with its records added every
/// agent sees for each access what it saw before, and the buffer is added for the request's agent,
/// for the accesses that its rights allow. `Err` is want of memory.
#[tactic(auto, using(crate::proofs::Exposed::placement_fits))]
pub fn exact<'a>(
    alloc: Global,
    system: System<'a>,
    tables: &'a TableSet,
    request: &'a Request,
    placement: &'a Placement,
) -> Result<bool, OutOfMemory>
    requires system { IsSystem meaning system }
    requires fits { FitsNet system.on.net.now (kinds_of meaning system.on.kinds.now) tables.now }
    requires rights { IsTrue (are_rights request.now.rights) }
    requires placed { IsPlacement system.on.net.now
        (slots_of_set (kinds_of meaning system.on.kinds.now) tables.now) request.now placement.now }
    ensures exact { IfOk result (λ is_exact. IsTrue is_exact
        ↔ IsAdmissible system.entry.on.net.now (record_kept
        (kinds_of meaning system.entry.on.kinds.now) tables.now) request.now placement.now) }
{
    tables.facts();
    let (read, write) = (Access::Read, Access::Write);
    let trial = Trial {
        system,
        tables,
        request,
        placement,
        access: read,
    };
    let reads = exact_for(alloc, trial, false)?;
    if !reads {
        return Ok(false);
    }
    let access = write;
    exact_for(alloc, Trial { access, ..trial }, true)
}

/// Whether every agent shows newly in a trial exactly what is asked for. The request's agent is looked at first, since
/// most placements that show more show it there. Of the others those are asked alone that see names of a unit of a hop,
/// or of a unit that leads on: no other can come to a hop, so it shows nothing newly, whatever the tables hold. It may
/// be known that every agent does so for reading: then those are passed over that show the same for writing.
fn exact_for(alloc: Global, trial: Trial, is_read: bool) -> Result<bool, OutOfMemory>
    requires trial { IsTrial meaning trial }
    requires reading { IsTrue is_read → AreExactIn meaning (reading_trial trial) }
    ensures { IfOk result (λ is_exact. IsTrue is_exact ↔ AreExactIn meaning trial.entry) }
{
    let own = exact_at(alloc, trial, trial.request.agent, is_read)?;
    if !own {
        return Ok(false);
    }
    let seers = trial.system.flats.seers();
    let onward = are_exact(alloc, trial, seers.onward(), is_read)?;
    if !onward {
        return Ok(false);
    }
    let hops = trial.placement.hops();
    for hop in hops {
        let seen = are_exact(alloc, trial, seers.of(hop.unit), is_read)?;
        if !seen {
            return Ok(false);
        }
    }
    Ok(true)
}

/// Whether each of these nodes is no agent, or shows newly in a trial exactly what is asked for. It is known that the
/// request's agent does so, and it may be known that every agent does so for reading.
fn are_exact(alloc: Global, trial: Trial, nodes: &[u16], is_read: bool) -> Result<bool, OutOfMemory>
    requires trial { IsTrial meaning trial }
    requires reading { IsTrue is_read → AreExactIn meaning (reading_trial trial) }
    requires own { IsTrue (is_agent_at (slice_get trial.system.on.net.now
        trial.request.now.agent)) → IsExactIn meaning trial trial.request.now.agent }
    ensures { IfOk result (λ are. IsTrue are ↔ AreExactAmong meaning trial.entry nodes.now) }
{
    let own = trial.request.agent;
    for node in nodes {
        if *node != own {
            let other = exact_at(alloc, trial, *node, is_read)?;
            if !other {
                return Ok(false);
            }
        }
    }
    Ok(true)
}

/// Whether a node is no agent, or shows newly in a trial exactly what is asked for. It may be known that it does so for
/// reading.
fn exact_at(alloc: Global, trial: Trial, node: u16, is_read: bool) -> Result<bool, OutOfMemory>
    requires trial { IsTrial meaning trial }
    requires reading { IsTrue is_read → IsTrue (is_agent_at
        (slice_get trial.system.on.net.now node)) → IsExactIn meaning (reading_trial trial) node }
    ensures { IfOk result (λ is_exact. IsTrue is_exact ↔ (IsTrue (is_agent_at
        (slice_get trial.entry.system.on.net.now node)) → IsExactIn meaning trial.entry node)) }
{
    if !is_agent(trial.system.on.net, node) {
        return Ok(true);
    }
    if is_read {
        if is_alike(trial, node) {
            return Ok(true);
        }
    }
    let stops = met_stops(alloc, trial, node)?;
    let shown = newly_shown(alloc, trial, stops)?;
    if is_asked(trial.request, node, trial.access) {
        let segs = shown.as_slice();
        return show_buffer(alloc, segs, trial.request, trial.placement.v());
    }
    Ok(shown.is_empty())
}

/// Whether a request asks for something at a node, for an access.
fn is_asked(request: &Request, node: u16, access: Access) -> bool
    ensures { result ≡ (nat_eq node request.now.agent && allows request.now.rights access) }
{
    node == request.agent && request.rights.allows(access)
}

/// What is shown newly of the names in units that segments give.
fn newly_shown(alloc: Global, trial: Trial, stops: Vec<Seg>) -> Result<Vec<Seg>, OutOfMemory>
    requires { IsTrial meaning trial }
    ensures { IfOk result (λ shown. (a : ℕ) (z : End) → a ≤ TOP
        → IsTrue (segs_give shown.items a z) ↔ ((s : End) × IsTrue (segs_give stops.items a s) ×
        ComesIn meaning trial.entry (name_of_end s) (name_of_end z))) }
{
    let kept = Course {
        system: trial.system,
        tables: trial.tables,
        records: Records::Kept,
        access: trial.access,
    };
    let mut shown = Vec::new(alloc);
    let mut level = stops;
    for _ in 0..UNITS {
        let segs = level.as_slice();
        push_newly(alloc, &mut shown, trial, segs)?;
        let onward = onward_segs(alloc, trial, segs)?;
        let rest = onward.as_slice();
        level = passed_stops(alloc, kept, rest)?;
    }
    Ok(shown)
}

/// Adds what the names of segments come to through an added record of their slots, and then by the
/// records of the tables and all that are added.
fn push_newly(
    alloc: Global,
    shown: &mut Vec<Seg>,
    trial: Trial,
    segs: &[Seg],
) -> Result<(), OutOfMemory>
    requires { IsTrial meaning trial }
    ensures { OnOk result ((a : ℕ) (z : End) → a ≤ TOP → IsTrue (segs_give shown.new.items a z)
        ↔ (IsTrue (segs_give shown.old.items a z) ⊎ ((s : End) × IsTrue (segs_give segs.now a s) ×
        IsPassedIn meaning trial.entry (name_of_end s) (name_of_end z)))) }
{
    if segs.is_empty() {
        return Ok(());
    }
    let fresh = Course {
        system: trial.system,
        tables: trial.tables,
        records: Records::Fresh(trial.request, trial.placement),
        access: trial.access,
    };
    let records = Records::Joined(trial.request, trial.placement);
    let all = Course { records, ..fresh };
    pass(alloc, shown, fresh, FlatPart::Accepts, segs)?;
    let stops = passed_stops(alloc, fresh, segs)?;
    push_through(alloc, shown, all, stops)
}

/// Whether segments show exactly the buffer, at an address of the agent. Rows are made where they show nothing else, so
/// it takes no more memory than they do.
fn show_buffer(alloc: Global, shown: &[Seg], request: &Request, v: u64) -> Result<bool, OutOfMemory>
    requires some { 1 ≤ request.now.size }
    requires within { v + request.now.size ≤ TOP + 1 }
    ensures { IfOk result (λ show. IsTrue show ↔ ((a : ℕ) (z : End) → a ≤ TOP
        → IsTrue (segs_give shown.now a z) ↔ IsAskedAt request.now v a z)) }
{
    if !are_parts(shown, request, v) {
        return Ok(false);
    }
    let rows = Rows::normal(alloc, shown)?;
    Ok(is_buffer(&rows, request, v))
}

/// Whether each segment shows addresses of the buffer alone, where the agent is to have them.
fn are_parts(shown: &[Seg], request: &Request, v: u64) -> bool
    requires some { 1 ≤ request.now.size }
    requires within { v + request.now.size ≤ TOP + 1 }
    ensures { result ≡ list_all (λ s. is_part_of_buffer s request.now v) shown.now }
{
    for seg in shown {
        if !is_part_of_buffer(seg, request, v) {
            return false;
        }
    }
    true
}

/// Whether a segment shows addresses of the buffer alone, where the agent is to have them.
fn is_part_of_buffer(seg: &Seg, request: &Request, v: u64) -> bool
    requires some { 1 ≤ request.now.size }
    requires within { v + request.now.size ≤ TOP + 1 }
    ensures { result ≡ is_part_of_buffer seg.now request.now v }
{
    v <= seg.span.lo
        && seg.span.hi <= v + (request.size - 1)
        && seg.node == request.node
        && request.base <= seg.base
        && seg.base - request.base == seg.span.lo - v
}

/// Whether rows show exactly the buffer, at an address of the agent.
fn is_buffer(rows: &Rows, request: &Request, v: u64) -> bool
    requires some { 1 ≤ request.now.size }
    requires within { v + request.now.size ≤ TOP + 1 }
    ensures { result ≡ are_buffer rows.now request.now v }
{
    let rows = rows.rows();
    rows.len() == 1 && is_buffer_row(&rows[0], request, v)
}

/// Whether a row shows exactly the buffer, at an address of the agent.
fn is_buffer_row(row: &Row, request: &Request, v: u64) -> bool
    requires some { 1 ≤ request.now.size }
    requires within { v + request.now.size ≤ TOP + 1 }
    ensures { result ≡ is_buffer_row row.now request.now v }
{
    let span = row.span();
    span.lo == v && span.hi == v + (request.size - 1) && is_buffer_end(row.ends(), request)
}

/// Whether the one name is the first of the buffer.
fn is_buffer_end(ends: &[End], request: &Request) -> bool
    ensures { result ≡ is_buffer_end ends.now request.now }
{
    ends.len() == 1 && ends[0].node == request.node && ends[0].base == request.base
}
