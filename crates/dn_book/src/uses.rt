//! How many live grants use the slots of a grant, and whether it owns them.

ghost use Rattle.std.specs.Prelude.{◌≡◌, ◌==◌, ◌<◌, map, Some, IsTrue};
ghost use Rattle.dn_net.specs.declared.node.Unit.{Unit as UnitPart};
ghost use Rattle.dn_net.specs.Terms.{Member, unit_at};
ghost use Rattle.dn_kind.specs.Terms.{both_rights};
ghost use Rattle.dn_tables.specs.Terms.{has_slot, unit_in, units_of, use_in};
ghost use Rattle.dn_book.specs.Terms.{AreChanged, AreFit, AreHopsChanged, EachSlot, MayUse, Put, TakesSlots, hop_owner, hop_slots, hop_slots_by, one_use_less, one_use_more};

use crate::grant::Grant;
use crate::slots::{end_slot, first_slot};
use dn_net::net::Net;
use dn_net::node::Unit;
use dn_tables::placement::Hop;
use dn_tables::set::TableSet;

/// Whether no live grant uses a slot.
pub(crate) fn is_unused(tables: &TableSet, unit: u16, slot: u32) -> bool
    requires { IsTrue (has_slot tables.now unit slot) }
    ensures { result ≡ ((use_in tables.now unit slot).uses == 0) }
{
    tables.uses_at(unit, slot) == 0
}

/// Whether one live grant alone uses a slot.
pub(crate) fn is_used_alone(tables: &TableSet, unit: u16, slot: u32) -> bool
    requires { IsTrue (has_slot tables.now unit slot) }
    ensures { result ≡ ((use_in tables.now unit slot).uses == 1) }
{
    tables.uses_at(unit, slot) == 1
}

/// The owner of the slots of a hop: the grant, where the hop is its own.
fn hop_owner(id: u32, own: usize, place: usize) -> Option<u32>
    ensures { result ≡ hop_owner id own place }
{
    if place == own { Some(id) } else { None }
}

/// Counts a grant among those that use its slots, and as owner of those of its own hop.
pub(crate) fn add_uses(tables: &mut TableSet, net: &Net, grant: &Grant)
    requires units { units_of tables.old ≡ map (λ d. d.unit) net.now }
    requires hops { AreFit net.now grant.now.request.size grant.now.placement.hops }
    requires may { EachSlot net.now grant.now (λ place. MayUse
        (hop_owner grant.now.id grant.now.placement.own place) tables.old) }
    ensures { AreHopsChanged net.now grant.now.request.size
        (λ place. one_use_more (hop_owner grant.now.id grant.now.placement.own place))
        grant.now.placement.hops tables.old tables.new }
{
    let own = usize::from(grant.placement.own());
    for (place, hop) in grant.placement.hops().iter().enumerate() {
        let owner = hop_owner(grant.id, own, place);
        add_hop_uses(tables, net, grant.request.size, hop, owner);
    }
}

/// Counts a grant among those that use the slots of one of its hops, and as their owner where one is given.
fn add_hop_uses(tables: &mut TableSet, net: &Net, size: u64, hop: &Hop, owner: Option<u32>)
    requires units { units_of tables.old ≡ map (λ d. d.unit) net.now }
    requires there { (u : UnitPart) × (unit_at net.now hop.now.unit ≡ Some u) ×
        TakesSlots u size hop.now }
    requires may { (s : Put) → Member s (hop_slots net.now size both_rights hop.now) →
        MayUse owner tables.old s }
    ensures { AreChanged (one_use_more owner) (hop_slots net.now size both_rights hop.now)
        tables.old tables.new }
{
    match net.unit(hop.unit) {
        Some(unit) => add_slot_uses(tables, unit, size, hop, owner),
        None => unreachable!(),
    }
}

/// Counts a grant among those that use the slots of a hop in this unit, and as their owner where one is given.
fn add_slot_uses(tables: &mut TableSet, unit: &Unit, size: u64, hop: &Hop, owner: Option<u32>)
    requires is_unit { unit_in tables.old hop.now.unit ≡ Some unit.now }
    requires there { TakesSlots unit.now size hop.now }
    requires may { (s : Put) → Member s (hop_slots_by (Some unit.now) size both_rights hop.now) →
        MayUse owner tables.old s }
    ensures { AreChanged (one_use_more owner)
        (hop_slots_by (Some unit.now) size both_rights hop.now)
        tables.old tables.new }
{
    for slot in first_slot(unit, size, hop)..end_slot(unit, size, hop) {
        tables.facts();
        tables.add_use(hop.unit, slot, owner);
    }
}

/// Takes a grant from those that use its slots.
pub(crate) fn end_uses(tables: &mut TableSet, net: &Net, grant: &Grant)
    requires units { units_of tables.old ≡ map (λ d. d.unit) net.now }
    requires hops { AreFit net.now grant.now.request.size grant.now.placement.hops }
    requires used { EachSlot net.now grant.now (λ place s.
        0 < (use_in tables.old s.unit s.slot).uses) }
    ensures { AreHopsChanged net.now grant.now.request.size (λ place. one_use_less)
        grant.now.placement.hops tables.old tables.new }
{
    for hop in grant.placement.hops() {
        end_hop_uses(tables, net, grant.request.size, hop);
    }
}

/// Takes a grant from those that use the slots of one of its hops.
fn end_hop_uses(tables: &mut TableSet, net: &Net, size: u64, hop: &Hop)
    requires units { units_of tables.old ≡ map (λ d. d.unit) net.now }
    requires there { (u : UnitPart) × (unit_at net.now hop.now.unit ≡ Some u) ×
        TakesSlots u size hop.now }
    requires used { (s : Put) → Member s (hop_slots net.now size both_rights hop.now) →
        0 < (use_in tables.old s.unit s.slot).uses }
    ensures { AreChanged one_use_less (hop_slots net.now size both_rights hop.now)
        tables.old tables.new }
{
    match net.unit(hop.unit) {
        Some(unit) => end_slot_uses(tables, unit, size, hop),
        None => unreachable!(),
    }
}

/// Takes a grant from those that use the slots of a hop in this unit.
fn end_slot_uses(tables: &mut TableSet, unit: &Unit, size: u64, hop: &Hop)
    requires is_unit { unit_in tables.old hop.now.unit ≡ Some unit.now }
    requires there { TakesSlots unit.now size hop.now }
    requires used { (s : Put) → Member s (hop_slots_by (Some unit.now) size both_rights hop.now) →
        0 < (use_in tables.old s.unit s.slot).uses }
    ensures { AreChanged one_use_less (hop_slots_by (Some unit.now) size both_rights hop.now)
        tables.old tables.new }
{
    for slot in first_slot(unit, size, hop)..end_slot(unit, size, hop) {
        tables.facts();
        tables.end_use(hop.unit, slot);
    }
}
