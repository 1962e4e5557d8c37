//! What a set of tables says of slots and of placements.

ghost use Rattle.std.specs.Prelude.{◌≡◌, ◌<◌, ◌↔◌, ℕ, List, IsTrue, false};
ghost use Rattle.dn_kind.specs.Terms.{AreKinds, Meaning, kinds_of};
ghost use Rattle.dn_tables.specs.Terms.{FitsNet, fits_kinds, has_slot};
ghost use Rattle.dn_placement.specs.Terms.{is_free_in, is_zero_slot, slots_of_set};
ghost use Rattle.dn_view.specs.Terms.{IsSystem};
ghost use Rattle.dn_place.specs.Terms.{IsBarred, IsSlotRun, shared_slot, slot_of};

use crate::slot_state::SlotState;
use crate::slots::{is_barred_slot, power};
use crate::unit::unit_in;
use dn_interval::End;
use dn_kind::kinds::Kinds;
use dn_kind::rights::Rights;
use dn_kind::unit_kind::Record;
use dn_tables::set::TableSet;
use dn_view::system::System;

/// What a hop meets in a slot of a set of tables.
pub(crate) fn slot_at(kinds: &Kinds, tables: &TableSet, unit: u16, slot: u32) -> SlotState
    requires kinds { AreKinds meaning kinds.now }
    requires fits { IsTrue (fits_kinds (kinds_of meaning kinds.now) tables.now) }
    requires there { IsTrue (has_slot tables.now unit slot) }
    ensures { result ≡ slot_of (slots_of_set (kinds_of meaning kinds.now) tables.now) unit slot }
{
    let users = tables.use_at(unit, slot);
    if users.uses == 0 && has_zero_words(tables, unit, slot) {
        return SlotState::Free;
    }
    if users.owner.is_some() {
        return SlotState::Barred;
    }
    shared_by(tables.record_at(kinds, unit, slot))
}

/// Before which slot those of a unit from one on are free, or owned where barred ones are asked for, of
/// those before an end.
pub(crate) fn run_end(tables: &TableSet, unit: u16, from: u32, end: u32, barred: bool) -> u32
    requires { (slot : ℕ) → slot < end → IsTrue (has_slot tables.now unit slot) }
    ensures { (kinds : List Meaning)
        → IsSlotRun barred (slots_of_set kinds tables.now) unit from end result }
{
    tables.run_end(unit, from, end, barred)
}

/// Whether a slot of a set of tables is free.
pub fn is_free(tables: &TableSet, unit: u16, slot: u32) -> bool
    requires there { IsTrue (has_slot tables.now unit slot) }
    ensures { result ≡ is_free_in tables.now unit slot }
{
    tables.uses_at(unit, slot) == 0 && has_zero_words(tables, unit, slot)
}

/// Whether no hop may take the slot of a name in a unit. `false` where the name is in no slot of a unit.
pub(crate) fn is_barred(system: System, tables: &TableSet, name: End) -> bool
    requires system { IsSystem meaning system }
    requires fits { FitsNet system.on.net.now (kinds_of meaning system.on.kinds.now) tables.now }
    ensures { IsTrue result → IsBarred system.entry.on.net.now
        (slots_of_set (kinds_of meaning system.entry.on.kinds.now) tables.now) name }
{
    let Some(unit) = unit_in(system, name.node) else {
        return false;
    };
    let slot = name.base / power(unit.page);
    if slot >= u64::from(unit.slots) {
        return false;
    }
    is_barred_slot(slot_at(system.on.kinds, tables, name.node, slot as u32))
}

/// The record of a slot that has no owner, where a hop may share it.
fn shared_by(record: Option<Record>) -> SlotState
    ensures { result ≡ shared_slot false «record» }
{
    match record {
        Some(record) => {
            if record.rights == Rights::both() {
                SlotState::Shared(record)
            } else {
                SlotState::Barred
            }
        }
        None => SlotState::Barred,
    }
}

/// Whether the words of a slot are 0.
fn has_zero_words(tables: &TableSet, unit: u16, slot: u32) -> bool
    requires there { IsTrue (has_slot tables.now unit slot) }
    ensures { result ≡ is_zero_slot tables.now unit slot }
{
    let words = tables.slot_words(unit, slot);
    words.as_slice().iter().all(|word| *word == 0)
}
