//! The table of one node: the words of a unit's slots, and who uses each slot.

ghost use Rattle.std.specs.Prelude.{◌≡◌, ◌++◌, ℕ, ◌+◌, ◌*◌, ◌-◌, ◌<◌, ◌≤◌, ◌^◌, [], true, length, replicate, slice_get, Option, Some, None, IfOk, IsTrue, is_err};
ghost use Rattle.std.specs.Option.{option_copied};
ghost use Rattle.dn_base.specs.Terms.{IsCounted, has_word};
ghost use Rattle.dn_net.specs.declared.node.Unit.{Unit as UnitPart};
ghost use Rattle.dn_kind.specs.Terms.{AreKinds, IsPackable, Meaning, gate_word, has_shape, is_shaped, kinds_of, record_of_unit, slot_words, unit_shape};
ghost use Rattle.dn_tables.specs.Terms.{AreWordsWritten, HasSlot, IsInRun, clears_from, fits_by, fresh_by, packed_for, width_by, with_words, writes_from};

use crate::uses::Uses;
use crate::words::{SlotWords, are_zero};
use crate::writes::{Written, clear_all, write_all};
use dn_base::device::Tables;
use dn_base::filled::Filled;
use dn_base::items::Items;
use dn_kind::kinds::Kinds;
use dn_kind::shape::shape_of;
use dn_kind::slots::held_record;
use dn_kind::unit_kind::{Record, UnitKind};
use dn_net::node::Unit;
use std::alloc::{AllocError, Global};

/// Who uses a slot.
#[derive(Clone, Copy, Debug, PartialEq, Eq)]
pub struct SlotUse {
    /// How many live grants use it.
    pub uses: u32,
    /// The live grant that owns it, if one does.
    pub owner: Option<u32>,
}

/// The table of a node, which has neither words nor uses where the node is no unit.
#[derive(Drop)]
pub struct NodeTable {
    /// The unit that the node is.
    pub unit: Option<Unit>,
    /// How many words a record has, 1 to 4.
    pub width: u8,
    /// The words of the slots, those of each slot together.
    pub words: Filled<u64>,
    /// The use of each slot.
    pub uses: Uses,
}

impl NodeTable {
    /// The table of a unit, or of no unit, with words 0 and no use.
    pub(crate) fn fresh_table(
        alloc: Global,
        unit: Option<&Unit>,
        kinds: &Kinds,
    ) -> Result<NodeTable, AllocError>
        requires kinds { AreKinds meaning kinds.now }
        requires shaped { IsTrue (has_shape (kinds_of meaning kinds.now) (option_copied unit)) }
        ensures { IfOk result (λ table. table
            ≡ fresh_by (kinds_of meaning kinds.now) (option_copied unit.entry)) }
    {
        match unit {
            Some(unit) => fresh_unit(alloc, unit, kinds),
            None => Ok(NodeTable {
                unit: None,
                width: 0,
                words: Filled::new(alloc, 0, 0)?,
                uses: Uses::unused(alloc, 0)?,
            }),
        }
    }

    /// The words of a slot.
    pub(crate) fn slot_words(&self, slot: u32) -> SlotWords
        requires { HasSlot self.now slot }
        ensures words { result ≡ slot_words self.now.width self.now.words slot }
        ensures count { length result ≡ self.now.width }
    {
        let first = slot as usize * usize::from(self.width);
        SlotWords::read(&self.words, first, self.width)
    }

    /// Before which slot those from one on are owned, or else clear, of those before an end.
    pub(crate) fn run_end(&self, from: u32, end: u32, owned: bool) -> u32
        requires { (slot : ℕ) → slot < end → HasSlot self.now slot }
        ensures onward { from ≤ result }
        ensures most { from ≤ end → result ≤ end }
        ensures run { (slot : ℕ) → from ≤ slot → slot < result →
            IsInRun owned (Some self.now) slot }
    {
        let mut slot = from;
        'slots: while slot < end {
            if !self.is_in_run(slot, owned) {
                return slot;
            }
            slot += 1;
        }
        slot
    }

    /// Whether a slot is owned, or else clear.
    fn is_in_run(&self, slot: u32, owned: bool) -> bool
        requires { HasSlot self.now slot }
        ensures { IsTrue result → IsInRun owned (Some self.now) slot }
    {
        let users = self.uses.get(slot as usize);
        if owned {
            return users.owner.is_some();
        }
        if users.uses != 0 {
            return false;
        }
        let first = slot as usize * usize::from(self.width);
        are_zero(&self.words, first, self.width)
    }

    /// The gate word of a slot: the last of its words, without bit 0 of which it holds no record.
    fn gate(&self, slot: u32) -> u64
        requires { HasSlot self.now slot }
        ensures { result ≡ gate_word (slot_words self.now.width self.now.words slot) }
    {
        let first = slot as usize * usize::from(self.width);
        self.words.get(first + usize::from(self.width - 1))
    }

    /// The record that a slot holds. `None` exactly where its words spell none, where the port is
    /// none of the unit's, or where the output is past its reach.
    pub(crate) fn record_at(&self, kinds: &Kinds, slot: u32) -> Option<Record>
        requires kinds { AreKinds meaning kinds.now }
        requires fits { IsTrue (fits_by (kinds_of meaning kinds.now) self.now.width self.now.unit) }
        requires slot { HasSlot self.now slot }
        ensures { result
            ≡ record_of_unit (kinds_of meaning kinds.now) self.now.unit (Some self.now.words) slot }
    {
        // Most slots hold none, and this tells it without a look at the kind.
        if self.gate(slot) == 0 {
            return None;
        }
        match &self.unit {
            Some(unit) => {
                let kind = kinds.kind(usize::from(unit.kind));
                let words = self.slot_words(slot);
                held_record(unit, &**kind, words.as_slice())
            }
            None => unreachable!(),
        }
    }

    /// Writes the words of a record to a slot, on the device and here.
    ///
    /// # Errors
    ///
    /// `DeviceFault` at the first write that fails; those before it are made and kept.
    pub(crate) fn put<D: Tables>(
        &mut self,
        kinds: &Kinds,
        device: &mut D,
        unit: u16,
        slot: u32,
        record: Record,
    ) -> Written
        requires kinds { AreKinds meaning kinds.now }
        requires fits { IsTrue (fits_by (kinds_of meaning kinds.now) self.old.width self.old.unit) }
        requires slot { HasSlot self.old slot }
        requires packable { (u : UnitPart) (kind : Meaning)
            → self.old.unit ≡ Some u → slice_get (kinds_of meaning kinds.now) u.kind
            ≡ Some kind → IsPackable kind (unit_shape u) «record» }
        requires on_device { (word : ℕ) → word < length self.old.words →
            has_word (D.units device.old) unit word ≡ true }
        ensures written { AreWordsWritten unit (writes_from (slot * self.old.width)
            (packed_for (kinds_of meaning kinds.now) self.old.unit «record»))
            (is_err result) (D.log device.old) (D.log device.new)
            (D.words device.old) (D.words device.new) self.old.words self.new.words }
        ensures same { self.new ≡ with_words self.old self.new.words }
        ensures units { D.units device.new ≡ D.units device.old }
        ensures counted { IsCounted (D.faults device.old) (D.faults device.new) (is_err result) }
    {
        let mut packed = [0u64; 4];
        match &self.unit {
            Some(part) => pack(kinds, part, record, &mut packed),
            None => unreachable!(),
        }
        let first = slot * u32::from(self.width);
        let values = &packed[..usize::from(self.width)];
        write_all(&mut self.words, device, unit, first, values)
    }

    /// Writes 0 to the words of a slot, the gate word first, on the device and here.
    ///
    /// # Errors
    ///
    /// `DeviceFault` at the first write that fails; those before it are made and kept.
    pub(crate) fn clear<D: Tables>(&mut self, device: &mut D, unit: u16, slot: u32) -> Written
        requires slot { HasSlot self.old slot }
        requires on_device { (word : ℕ) → word < length self.old.words →
            has_word (D.units device.old) unit word ≡ true }
        ensures written { AreWordsWritten unit (clears_from (slot * self.old.width) self.old.width)
            (is_err result) (D.log device.old) (D.log device.new)
            (D.words device.old) (D.words device.new) self.old.words self.new.words }
        ensures same { self.new ≡ with_words self.old self.new.words }
        ensures units { D.units device.new ≡ D.units device.old }
        ensures counted { IsCounted (D.faults device.old) (D.faults device.new) (is_err result) }
    {
        let first = slot * u32::from(self.width);
        clear_all(&mut self.words, device, unit, first, self.width)
    }
}

/// Leaves the words of a record in the first places, and 0 in the others.
fn pack(kinds: &Kinds, unit: &Unit, record: Record, packed: &mut [u64; 4])
    requires kinds { AreKinds meaning kinds.now }
    requires known { unit.now.kind < length kinds.now.list.items }
    requires packable { (kind : Meaning) → slice_get (kinds_of meaning kinds.now) unit.now.kind
        ≡ Some kind → IsPackable kind (unit_shape unit.now) «record» }
    ensures { packed.new ≡ packed_for (kinds_of meaning kinds.now) (Some unit.now) «record»
        ++ replicate (4 - width_by (slice_get (kinds_of meaning kinds.now) unit.now.kind)) 0 }
{
    let kind = kinds.kind(usize::from(unit.kind));
    pack_by(&**kind, unit, record, packed);
}

/// Leaves the words of a record of this kind in the first places, and 0 in the others.
fn pack_by(kind: &dyn UnitKind, unit: &Unit, record: Record, packed: &mut [u64; 4])
    requires { IsPackable (meaning kind.now) (unit_shape unit.now) «record» }
    ensures { packed.new ≡ (meaning kind.now).pack (unit_shape unit.now) «record»
        ++ replicate (4 - (meaning kind.now).words) 0 }
{
    kind.pack(shape_of(unit), record, packed);
}

/// The table of a unit with words 0 and no use.
fn fresh_unit(alloc: Global, unit: &Unit, kinds: &Kinds) -> Result<NodeTable, AllocError>
    requires kinds { AreKinds meaning kinds.now }
    requires shaped { IsTrue (is_shaped (kinds_of meaning kinds.now) unit.now) }
    ensures { IfOk result (λ table. table ≡ fresh_by (kinds_of meaning kinds.now) (Some unit.now)) }
{
    let width = kinds.kind(usize::from(unit.kind)).words();
    let words = Filled::new(alloc, 0, unit.slots as usize * usize::from(width))?;
    let uses = Uses::unused(alloc, unit.slots as usize)?;
    let unit = copy_of(alloc, unit)?;
    Ok(NodeTable {
        unit: Some(unit),
        width,
        words,
        uses,
    })
}

/// A copy of a unit.
fn copy_of(alloc: Global, unit: &Unit) -> Result<Unit, AllocError>
    ensures { IfOk result (λ copy. copy ≡ unit.now) }
{
    let ports = unit.ports.as_slice().to_vec(alloc)?;
    Ok(Unit {
        kind: unit.kind,
        page: unit.page,
        slots: unit.slots,
        reach: unit.reach,
        ports: Items::from_vec(ports),
    })
}
