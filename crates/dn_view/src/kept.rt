//! Names in units to which addresses of agents come by the records of tables.

ghost use Rattle.std.specs.Prelude.{IfOk, OnOk};
ghost use Rattle.dn_kind.specs.Terms.{allowing, kinds_of};
ghost use Rattle.dn_tables.specs.Terms.{FitsNet, record_kept};
ghost use Rattle.dn_view.specs.Terms.{IsCourse, IsSystem, ListKeptStops, course_records};

use crate::OutOfMemory;
use crate::course::Course;
use crate::records::Records;
use crate::shown::{node_stops, passed_stops};
use crate::system::System;
use dn_interval::Seg;
use dn_kind::rights::Access;
use dn_placement::roles::is_agent;
use dn_tables::set::TableSet;
use std::alloc::Global;

/// The names in units to which addresses of agents other than one come, for an access, through one unit or two by the
/// records of the tables, as segments. Where no unit leads on to units there are none, and it takes no memory.
pub fn kept_stops<'a>(
    alloc: Global,
    system: System<'a>,
    tables: &'a TableSet,
    agent: u16,
    access: Access,
) -> Result<Vec<Seg>, OutOfMemory>
    requires system { IsSystem meaning system }
    requires fits { FitsNet system.on.net.now (kinds_of meaning system.on.kinds.now) tables.now }
    ensures { IfOk result (λ segs. ListKeptStops system.entry.on.net.now (allowing access
        (record_kept (kinds_of meaning system.entry.on.kinds.now) tables.now)) agent segs.items) }
{
    let course = Course {
        system,
        tables,
        records: Records::Kept,
        access,
    };
    let mut stops = Vec::new(alloc);
    let nodes = system.flats.seers().onward();
    for node in nodes {
        push_kept(alloc, &mut stops, course, agent, *node)?;
    }
    Ok(stops)
}

/// Adds those to which the addresses of a node come, if it is an agent and another one.
fn push_kept(
    alloc: Global,
    stops: &mut Vec<Seg>,
    course: Course,
    agent: u16,
    node: u16,
) -> Result<(), OutOfMemory>
    requires course { IsCourse meaning course }
    requires listed { ListKeptStops course.system.on.net.now (course_records meaning course)
        agent stops.old.items }
    ensures { OnOk result (ListKeptStops course.entry.system.on.net.now
        (course_records meaning course.entry) agent stops.new.items) }
{
    if node == agent {
        return Ok(());
    }
    if !is_agent(course.system.on.net, node) {
        return Ok(());
    }
    let first = node_stops(alloc, course.system.flats, node)?;
    let second = passed_stops(alloc, course, first.as_slice())?;
    let third = passed_stops(alloc, course, second.as_slice())?;
    stops.extend_from_slice(second.as_slice())?;
    stops.extend_from_slice(third.as_slice())?;
    Ok(())
}
