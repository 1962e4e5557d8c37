//! Which slots of a unit a pass looks at.

ghost use Rattle.std.specs.Prelude.{◌≡◌, ℕ, ◌+◌, ◌-◌, ◌/◌, ◌^◌, ◌<◌, ◌≤◌, ◌⊎◌, Some, None};
ghost use Rattle.dn_net.specs.declared.node.Unit.{Unit as UnitPart};
ghost use Rattle.dn_net.specs.Terms.{unit_at};
ghost use Rattle.dn_kind.specs.Terms.{Held, kinds_of};
ghost use Rattle.dn_kind.specs.declared.rights.Rights.{Rights};
ghost use Rattle.dn_tables.specs.Terms.{FitsNet, record_kept};
ghost use Rattle.dn_placement.specs.Terms.{hop_record, placed_records};
ghost use Rattle.dn_view.specs.Terms.{AreFitted, HoldsBelow, IsFitted, IsFitting, IsSystem, records_taken};

use crate::records::{Records, unit_page};
use crate::system::System;
use dn_interval::Seg;
use dn_net::checked::CheckedNet;
use dn_net::node::Unit;
use dn_placement::request::Request;
use dn_tables::placement::{Hop, Placement};
use dn_tables::set::TableSet;

/// From which slot to before which one a pass looks at the slots of a unit for a segment: of those in
/// which the segment has names, none outside of them has a record that is taken. The tables hold none
/// from the slot `end` on.
pub(crate) fn slot_range(
    checked: CheckedNet,
    records: Records,
    unit: &Unit,
    seg: Seg,
    end: u64,
) -> (u64, u64)
    requires unit { unit_at checked.net.now seg.node ≡ Some unit.now }
    requires fitting { IsFitting checked.net.now records }
    requires end { end ≤ unit.now.slots }
    ensures begins { seg.base / 2 ^ unit.now.page ≤ result.0 }
    ensures ends { result.1 ≤ (seg.base + (seg.span.hi - seg.span.lo)) / 2 ^ unit.now.page + 1 }
    ensures there { result.1 ≤ unit.now.slots }
    ensures rest { (h : Held) (slot : ℕ) → HoldsBelow h seg.node end
        → seg.base / 2 ^ unit.now.page ≤ slot
        → slot ≤ (seg.base + (seg.span.hi - seg.span.lo)) / 2 ^ unit.now.page
        → (slot < result.0) ⊎ (result.1 ≤ slot)
        → records_taken checked.entry.net.now h records.entry seg.node slot ≡ None }
{
    let first = seg.base >> unit.page;
    let last = (seg.base + (seg.span.hi - seg.span.lo)) >> unit.page;
    let taken = taken_range(checked, records, seg.node, u64::from(unit.slots), end);
    (first.max(taken.0), (last + 1).min(taken.1))
}

/// From which slot to before which one a unit may have records that are taken, where the tables hold none
/// from the slot `end` on.
fn taken_range(checked: CheckedNet, records: Records, node: u16, slots: u64, end: u64) -> (u64, u64)
    requires unit { (u : UnitPart) × (unit_at checked.net.now node ≡ Some u) × (slots ≡ u.slots) }
    requires fitting { IsFitting checked.net.now records }
    requires end { end ≤ slots }
    ensures there { result.1 ≤ slots }
    ensures rest { (h : Held) (slot : ℕ) → HoldsBelow h node end
        → (slot < result.0) ⊎ (result.1 ≤ slot)
        → records_taken checked.entry.net.now h records.entry node slot ≡ None }
{
    match records {
        Records::Kept => (0, end),
        Records::Fresh(request, placement) => placed_range(
            checked, request, placement, node, slots,
        ),
        Records::Joined(request, placement) => {
            let placed = placed_range(checked, request, placement, node, slots);
            (0, placed.1.max(end))
        }
    }
}

/// From which slot on no slot of a unit holds a record: from there on each word is 0, behind the last page
/// that was made, or the unit has no more slots.
pub(crate) fn held_end(system: System, tables: &TableSet, node: u16, unit: &Unit) -> u64
    requires system { IsSystem meaning system }
    requires fits { FitsNet system.on.net.now (kinds_of meaning system.on.kinds.now) tables.now }
    requires unit { unit_at system.on.net.now node ≡ Some unit.now }
    ensures most { result ≤ unit.now.slots }
    ensures none { HoldsBelow
        (record_kept (kinds_of meaning system.entry.on.kinds.now) tables.now) node result }
{
    let slots = u64::from(unit.slots);
    slots.min(tables.words(node).zeros_from() as u64)
}

/// From which slot to before which one a placement has records in a unit.
fn placed_range(
    checked: CheckedNet,
    request: &Request,
    placement: &Placement,
    node: u16,
    slots: u64,
) -> (u64, u64)
    requires unit { (u : UnitPart) × (unit_at checked.net.now node ≡ Some u) × (slots ≡ u.slots) }
    requires fitted { AreFitted checked.net.now request.now placement.now }
    ensures there { result.1 ≤ slots }
    ensures rest { (slot : ℕ) → (slot < result.0) ⊎ (result.1 ≤ slot)
        → placed_records checked.entry.net.now request.now placement.now node slot ≡ None }
{
    let mut range = (slots, 0);
    let hops = placement.hops();
    for (place, hop) in hops.iter().enumerate() {
        range = with_hop(checked, request.size, *hop, node, range);
    }
    range
}

/// A range of slots of a unit, and those that a hop takes of it.
fn with_hop(checked: CheckedNet, size: u64, hop: Hop, node: u16, range: (u64, u64)) -> (u64, u64)
    requires some { 1 ≤ size }
    requires fitted { IsFitted checked.net.now size hop }
    ensures from { result.0 ≤ range.0 }
    ensures to { range.1 ≤ result.1 }
    ensures there { (u : UnitPart) → unit_at checked.entry.net.now node ≡ Some u
        → range.1 ≤ u.slots → result.1 ≤ u.slots }
    ensures rest { (rights : Rights) (slot : ℕ) → (slot < result.0) ⊎ (result.1 ≤ slot)
        → hop_record checked.entry.net.now size rights hop node slot ≡ None }
{
    if node != hop.unit {
        return range;
    }
    let page = unit_page(checked, hop.unit);
    let first = hop.x >> page;
    let last = (hop.x + size - 1) >> page;
    (range.0.min(first), range.1.max(last + 1))
}
