//! The records of slots by which a pass through units goes.

ghost use Rattle.std.specs.Prelude.{◌≡◌, ◌≤◌, Some, IsSome, IsTrue};
ghost use Rattle.dn_net.specs.declared.node.Unit.{Unit as UnitPart};
ghost use Rattle.dn_net.specs.Terms.{unit_at};
ghost use Rattle.dn_kind.specs.Terms.{Held};
ghost use Rattle.dn_tables.specs.Terms.{has_slot};
ghost use Rattle.dn_placement.specs.Terms.{hop_record, hop_rights, or_record, placed_records};
ghost use Rattle.dn_view.specs.Terms.{AreFitted, IsCourse, IsFitted, IsFitting, course_records, fresh_record, records_taken};

use crate::course::Course;
use dn_kind::rights::Rights;
use dn_kind::unit_kind::Record;
use dn_net::checked::CheckedNet;
use dn_placement::request::Request;
use dn_tables::placement::{Hop, Placement};

/// Which records a pass goes by.
#[derive(Clone, Copy)]
pub(crate) enum Records<'a> {
    /// Those of the tables.
    Kept,
    /// Those that a placement of a request adds, in slots that hold none.
    Fresh(&'a Request, &'a Placement),
    /// Those of the tables, and those that a placement adds.
    Joined(&'a Request, &'a Placement),
}

/// The record of a slot that is taken, where it allows the access.
pub(crate) fn record_for(course: Course, node: u16, slot: u32) -> Option<Record>
    requires course { IsCourse meaning course }
    requires there { IsTrue (has_slot course.tables.now node slot) }
    ensures { result ≡ course_records meaning course.entry node slot }
{
    let kept = course.tables.record_at(course.system.on.kinds, node, slot);
    let checked = CheckedNet {
        net: course.system.on.net,
    };
    let record = taken_record(checked, course.records, kept, node, slot)?;
    if record.rights.allows(course.access) {
        Some(record)
    } else {
        None
    }
}

/// The record of a slot that is taken, of which this is the one of the tables.
fn taken_record(
    checked: CheckedNet,
    records: Records,
    kept: Option<Record>,
    node: u16,
    slot: u32,
) -> Option<Record>
    requires fitting { IsFitting checked.net.now records }
    ensures { (h : Held) → h node slot ≡ kept → result
        ≡ records_taken checked.entry.net.now h records.entry node slot }
{
    match records {
        Records::Kept => kept,
        Records::Fresh(request, placement) => {
            fresh_record(kept, placed_record(checked, request, placement, node, slot))
        }
        Records::Joined(request, placement) => {
            joined_record(kept, placed_record(checked, request, placement, node, slot))
        }
    }
}

/// The added record, where none is kept.
fn fresh_record(kept: Option<Record>, added: Option<Record>) -> Option<Record>
    ensures { result ≡ fresh_record kept added }
{
    match kept {
        Some(_) => None,
        None => added,
    }
}

/// The record that is kept, or else the added one.
fn joined_record(kept: Option<Record>, added: Option<Record>) -> Option<Record>
    ensures { result ≡ or_record kept added }
{
    match kept {
        Some(record) => Some(record),
        None => added,
    }
}

/// The record that a placement puts into a slot.
fn placed_record(
    checked: CheckedNet,
    request: &Request,
    placement: &Placement,
    node: u16,
    slot: u32,
) -> Option<Record>
    requires fitted { AreFitted checked.net.now request.now placement.now }
    ensures { result ≡ placed_records checked.entry.net.now request.now placement.now node slot }
{
    let hops = placement.hops();
    let own = usize::from(placement.own());
    for (place, hop) in hops.iter().enumerate() {
        let rights = hop_rights(request.rights, own, place);
        let record = hop_record(checked, request.size, rights, *hop, node, slot);
        if record.is_some() {
            return record;
        }
    }
    None
}

/// The rights of the records of a hop.
fn hop_rights(rights: Rights, own: usize, place: usize) -> Rights
    ensures { result ≡ hop_rights rights own place }
{
    if place == own { rights } else { Rights::both() }
}

/// The record that a hop puts into a slot.
fn hop_record(
    checked: CheckedNet,
    size: u64,
    rights: Rights,
    hop: Hop,
    node: u16,
    slot: u32,
) -> Option<Record>
    requires some { 1 ≤ size }
    requires fitted { IsFitted checked.net.now size hop }
    ensures { result ≡ hop_record checked.entry.net.now size rights hop node slot }
{
    if node != hop.unit {
        return None;
    }
    let page = unit_page(checked, hop.unit);
    let slot = u64::from(slot);
    let first = hop.x >> page;
    if slot < first || (hop.x + size - 1) >> page < slot {
        return None;
    }
    Some(Record {
        port: hop.port,
        page: (hop.y >> page) + (slot - first),
        rights,
    })
}

/// The page of a unit, as an exponent.
pub(crate) fn unit_page(checked: CheckedNet, node: u16) -> u8
    requires there { IsSome (unit_at checked.net.now node) }
    ensures page { (u : UnitPart) → unit_at checked.entry.net.now node ≡ Some u
        → result ≡ u.page }
    ensures small { result ≤ 40 }
{
    match checked.net.unit(node) {
        Some(unit) => unit.page,
        None => 0,
    }
}
