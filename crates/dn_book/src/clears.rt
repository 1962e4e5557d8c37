//! Clearing the slots of a grant: from the agent's end to memory's, and in each hop by ascending slot.

ghost use Rattle.std.specs.Prelude.{◌≡◌, [], ◌∷◌, map, Some, IsTrue, is_err};
ghost use Rattle.dn_base.specs.Terms.{IsCounted};
ghost use Rattle.dn_net.specs.declared.node.Unit.{Unit as UnitPart};
ghost use Rattle.dn_net.specs.Terms.{unit_at};
ghost use Rattle.dn_kind.specs.declared.rights.Rights.{Rights as RightsPart};
ghost use Rattle.dn_kind.specs.declared.unit_kind.Record.{Record as RecordPart};
ghost use Rattle.dn_tables.specs.Terms.{IsOnDevice, has_slot, unit_in, units_of};
ghost use Rattle.dn_book.specs.Terms.{AreCleared, AreFit, TakesSlots, grant_slots, hop_slots, hop_slots_by, joined_slots, put_at};

use crate::grant::Grant;
use crate::slots::{end_slot, first_slot};
use crate::uses::is_used_alone;
use dn_base::device::Tables;
use dn_net::net::Net;
use dn_net::node::Unit;
use dn_tables::placement::Hop;
use dn_tables::set::TableSet;
use dn_tables::writes::Written;

/// Clears those slots of a grant that one live grant uses.
///
/// # Errors
///
/// `DeviceFault` at the first write that fails; those before it are done.
pub(crate) fn clear_grant<D: Tables>(
    tables: &mut TableSet,
    net: &Net,
    grant: &Grant,
    device: &mut D,
) -> Written
    requires units { units_of tables.old ≡ map (λ d. d.unit) net.now }
    requires on_device { IsOnDevice tables.old (D.units device.old) (D.words device.old) }
    requires hops { AreFit net.now grant.now.request.size grant.now.placement.hops }
    ensures cleared { AreCleared (joined_slots (grant_slots net.now grant.now))
        (is_err result) (D.log device.old) (D.log device.new) tables.old tables.new }
    ensures on_device { IsOnDevice tables.new (D.units device.new) (D.words device.new) }
    ensures counted { IsCounted (D.faults device.old) (D.faults device.new) (is_err result) }
{
    for hop in grant.placement.hops() {
        clear_hop(tables, net, grant.request.size, hop, device)?;
    }
    Ok(())
}

/// Clears those slots of one hop that one live grant uses, by ascending slot.
fn clear_hop<D: Tables>(
    tables: &mut TableSet,
    net: &Net,
    size: u64,
    hop: &Hop,
    device: &mut D,
) -> Written
    requires units { units_of tables.old ≡ map (λ d. d.unit) net.now }
    requires on_device { IsOnDevice tables.old (D.units device.old) (D.words device.old) }
    requires there { (u : UnitPart) × (unit_at net.now hop.now.unit ≡ Some u) ×
        TakesSlots u size hop.now }
    ensures cleared { (rights : RightsPart) → AreCleared (hop_slots net.now size rights hop.now)
        (is_err result) (D.log device.old) (D.log device.new) tables.old tables.new }
    ensures on_device { IsOnDevice tables.new (D.units device.new) (D.words device.new) }
    ensures counted { IsCounted (D.faults device.old) (D.faults device.new) (is_err result) }
{
    match net.unit(hop.unit) {
        Some(unit) => clear_slots(tables, unit, size, hop, device),
        None => unreachable!(),
    }
}

/// Clears those slots of one hop in this unit that one live grant uses, by ascending slot.
fn clear_slots<D: Tables>(
    tables: &mut TableSet,
    unit: &Unit,
    size: u64,
    hop: &Hop,
    device: &mut D,
) -> Written
    requires on_device { IsOnDevice tables.old (D.units device.old) (D.words device.old) }
    requires is_unit { unit_in tables.old hop.now.unit ≡ Some unit.now }
    requires there { TakesSlots unit.now size hop.now }
    ensures cleared { (rights : RightsPart) →
        AreCleared (hop_slots_by (Some unit.now) size rights hop.now)
        (is_err result) (D.log device.old) (D.log device.new) tables.old tables.new }
    ensures on_device { IsOnDevice tables.new (D.units device.new) (D.words device.new) }
    ensures counted { IsCounted (D.faults device.old) (D.faults device.new) (is_err result) }
{
    for slot in first_slot(unit, size, hop)..end_slot(unit, size, hop) {
        clear_slot(tables, hop.unit, slot, device)?;
    }
    Ok(())
}

/// Clears a slot, where one live grant uses it.
fn clear_slot<D: Tables>(tables: &mut TableSet, unit: u16, slot: u32, device: &mut D) -> Written
    requires on_device { IsOnDevice tables.old (D.units device.old) (D.words device.old) }
    requires there { IsTrue (has_slot tables.old unit slot) }
    ensures cleared { (holds : RecordPart) → AreCleared (put_at unit slot holds ∷ [])
        (is_err result) (D.log device.old) (D.log device.new) tables.old tables.new }
    ensures on_device { IsOnDevice tables.new (D.units device.new) (D.words device.new) }
    ensures counted { IsCounted (D.faults device.old) (D.faults device.new) (is_err result) }
{
    if is_used_alone(tables, unit, slot) {
        tables.clear(unit, slot, device)?;
    }
    Ok(())
}
