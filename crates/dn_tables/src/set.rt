//! The tables of all units of a net.

ghost use Rattle.std.specs.Prelude.{ℕ, ◌≡◌, ◌+◌, ◌-◌, ◌^◌, ◌<◌, ◌≤◌, ◌⊎◌, ◌++◌, [], ◌∷◌, false, length, map, replicate, slice_get, List, Option, Some, None, IsSome, IfOk, OnOk, OnErr, IsTrue, is_err, is_ok};
ghost use Rattle.std.specs.List.{All, list_all};
ghost use Rattle.std.specs.Option.{option_map};
ghost use Rattle.dn_base.specs.Terms.{IsCounted, Logged, has_unit, is_device_fault, sizes_of};
ghost use Rattle.dn_kind.specs.Terms.{AreKinds, IsLawful, IsShaped, Meaning, kinds_of, slot_words};
ghost use Rattle.dn_tables.specs.Terms.{AreMade, AreUnitsMade, FitsNet, IsEmpty, IsInRun, IsOnDevice, IsPackableIn, IsSet, KeepsFit, clear_writes, fits_kinds, fresh_set, has_slot, is_sized, is_zero, make_event, packed_in, put_writes, record_kept, table_on_device, tables_of_set, unit_in, use_in, width_in, with_slot, with_use, words_in};

use crate::table::{NodeTable, SlotUse};
use crate::words::SlotWords;
use crate::writes::Written;
use dn_base::device::{DeviceOrMemory, Tables};
use dn_base::filled::Filled;
use dn_kind::kinded::KindedNet;
use dn_kind::kinds::Kinds;
use dn_kind::unit_kind::Record;
use std::alloc::{AllocError, Global};
use std::marker::Model;

/// What is made with the units of a net on a device.
pub type Made<T> = Result<T, DeviceOrMemory>;

/// The words of all units of a net, with the uses and owners of their slots. Contracts see a table
/// for each node.
#[derive(Drop)]
pub struct TableSet {
    nodes: Vec<NodeTable>,
}

impl Model for TableSet {
    ghost use Rattle.std.specs.Prelude.{List};
    ghost use Rattle.dn_tables.specs.declared.table.NodeTable.{NodeTable};
    ghost use Rattle.dn_tables.specs.Set.{IsSet};

    ghost Value = { List NodeTable };

    ghost view = { λ s. s.nodes.items };

    ghost invariant = { λ s. IsSet s.nodes.items };
}

impl TableSet {
    /// Makes the units of the net on a device, in the order of their nodes. All words are 0 and no
    /// slot is used. All memory of the set is taken before the first call of the device.
    ///
    /// # Errors
    ///
    /// `Device` only where the device's count of faults rose in this call, or stands at the last
    /// value of its counter: the units that were made are then a prefix of those of the net, which
    /// lacks at least the last one. `OutOfMemory` for want of memory: none were made, or a prefix that
    /// lacks at least the last one. Nothing else was done to the device.
    pub fn make<D: Tables>(alloc: Global, on: KindedNet, device: &mut D) -> Made<TableSet>
        requires on { IsShaped meaning on }
        requires none { D.units device.old ≡ [] }
        ensures ok { IfOk result (λ set. set
            ≡ fresh_set (kinds_of meaning on.entry.kinds.now) on.entry.net.now) }
        ensures fits { IfOk result
            (λ set. FitsNet on.entry.net.now (kinds_of meaning on.entry.kinds.now) set) }
        ensures on_device { IfOk result (λ set.
            IsOnDevice set (D.units device.new) (D.words device.new)) }
        ensures made { AreUnitsMade (tables_of_set (fresh_set (kinds_of meaning on.entry.kinds.now)
            on.entry.net.now)) (is_ok result) (is_device_fault result) (D.log device.old)
            (D.log device.new) (D.units device.new) (D.words device.old) (D.words device.new) }
        ensures counted { IsCounted (D.faults device.old)
            (D.faults device.new) (is_device_fault result) }
    {
        let set = fresh_set(alloc, on).or(Err(DeviceOrMemory::OutOfMemory))?;
        make_units(set.nodes.as_slice(), device)?;
        Ok(set)
    }

    /// What every set is, for a proof of its caller: at most 1,024 tables, each of them sized. It
    /// does nothing.
    pub fn facts(&self)
        ensures { IsSet self.now }
    {
        let _nodes = &self.nodes;
    }

    /// Puts a record into a slot whose words are 0: its words in ascending order, so the gate word
    /// is last. Each is written to the device and then kept.
    ///
    /// # Errors
    ///
    /// `DeviceFault` only where the device's count of faults rose in this call, or stands at the
    /// last value of its counter. Exactly the writes before the one that failed are done, and the
    /// slot holds no record still.
    pub fn put<D: Tables>(
        &mut self,
        kinds: &Kinds,
        unit: u16,
        slot: u32,
        record: Record,
        device: &mut D,
    ) -> Written
        requires kinds { AreKinds meaning kinds.now }
        requires fits { IsTrue (fits_kinds (kinds_of meaning kinds.now) self.old) }
        requires on_device { IsOnDevice self.old (D.units device.old) (D.words device.old) }
        requires there { IsTrue (has_slot self.old unit slot) }
        requires empty { IsEmpty self.old unit slot }
        requires packable { IsPackableIn (kinds_of meaning kinds.now) self.old unit «record» }
        ensures ok { OnOk result (self.new ≡ with_slot self.old unit slot
            (packed_in (kinds_of meaning kinds.now) self.old unit «record»)) }
        ensures recorded { OnOk result (record_kept (kinds_of meaning kinds.now) self.new unit slot
            ≡ Some «record») }
        ensures made { AreMade unit (put_writes (kinds_of meaning kinds.now)
            self.old unit slot «record») (is_err result) (D.log device.old)
            (D.log device.new) (D.words device.old) (D.words device.new) self.old self.new }
        ensures stopped { OnErr result (record_kept (kinds_of meaning kinds.now) self.new unit slot
            ≡ None) }
        ensures fits { KeepsFit self.old self.new }
        ensures on_device { IsOnDevice self.new (D.units device.new) (D.words device.new) }
        ensures counted { IsCounted (D.faults device.old) (D.faults device.new) (is_err result) }
    {
        let table = &mut self.nodes[usize::from(unit)];
        table.put(kinds, device, unit, slot, record)
    }

    /// Clears a slot: 0 to its gate word, and then 0 to its other words in ascending order. Each is
    /// written to the device and then kept.
    ///
    /// # Errors
    ///
    /// `DeviceFault` only where the device's count of faults rose in this call, or stands at the
    /// last value of its counter. Exactly the writes before the one that failed are done: none, or
    /// the slot holds no record any more.
    pub fn clear<D: Tables>(&mut self, unit: u16, slot: u32, device: &mut D) -> Written
        requires on_device { IsOnDevice self.old (D.units device.old) (D.words device.old) }
        requires there { IsTrue (has_slot self.old unit slot) }
        ensures ok { OnOk result (self.new
            ≡ with_slot self.old unit slot (replicate (width_in self.old unit) 0)) }
        ensures made { AreMade unit (clear_writes self.old unit slot)
            (is_err result) (D.log device.old) (D.log device.new)
            (D.words device.old) (D.words device.new) self.old self.new }
        ensures stopped { (self.new ≡ self.old) ⊎ ((kinds : List Meaning) → All IsLawful kinds →
            IsTrue (fits_kinds kinds self.old) → record_kept kinds self.new unit slot ≡ None) }
        ensures fits { KeepsFit self.old self.new }
        ensures on_device { IsOnDevice self.new (D.units device.new) (D.words device.new) }
        ensures counted { IsCounted (D.faults device.old) (D.faults device.new) (is_err result) }
    {
        let table = &mut self.nodes[usize::from(unit)];
        table.clear(device, unit, slot)
    }

    /// The record that a slot holds. `None` exactly where its words spell none, where the port is
    /// none of the unit's, or where the output is past its reach.
    pub fn record_at(&self, kinds: &Kinds, unit: u16, slot: u32) -> Option<Record>
        requires kinds { AreKinds meaning kinds.now }
        requires fits { IsTrue (fits_kinds (kinds_of meaning kinds.now) self.now) }
        requires there { IsTrue (has_slot self.now unit slot) }
        ensures { result ≡ record_kept (kinds_of meaning kinds.now) self.now unit slot }
    {
        let table = &self.nodes[usize::from(unit)];
        table.record_at(kinds, slot)
    }

    /// The words of a unit: those of slot `q` are `width` words from `q * width` on.
    pub fn words(&self, unit: u16) -> &Filled<u64>
        requires { IsSome (unit_in self.now unit) }
        ensures value { result.now ≡ words_in self.now unit }
        ensures set { IsSet self.now }
    {
        &self.nodes[usize::from(unit)].words
    }

    /// The words of a slot.
    pub fn slot_words(&self, unit: u16, slot: u32) -> SlotWords
        requires { IsTrue (has_slot self.now unit slot) }
        ensures { result ≡ slot_words (width_in self.now unit) (words_in self.now unit) slot }
    {
        let table = &self.nodes[usize::from(unit)];
        table.slot_words(slot)
    }

    /// Who uses a slot.
    pub fn use_at(&self, unit: u16, slot: u32) -> SlotUse
        requires { IsTrue (has_slot self.now unit slot) }
        ensures value { result ≡ use_in self.now unit slot }
        ensures few { result.uses < 2 ^ 16 }
        ensures alone { IsSome result.owner → result.uses ≡ 1 }
    {
        let table = &self.nodes[usize::from(unit)];
        table.uses.get(slot as usize)
    }

    /// Before which slot those of a unit from one on are owned, or else clear, of those before an end. No live grant
    /// uses a clear slot, and its words are 0.
    pub fn run_end(&self, unit: u16, from: u32, end: u32, owned: bool) -> u32
        requires { (slot : ℕ) → slot < end → IsTrue (has_slot self.now unit slot) }
        ensures onward { from ≤ result }
        ensures most { from ≤ end → result ≤ end }
        ensures run { (slot : ℕ) → from ≤ slot → slot < result →
            IsInRun owned (slice_get self.now unit) slot }
    {
        if end <= from {
            return from;
        }
        let table = &self.nodes[usize::from(unit)];
        table.run_end(from, end, owned)
    }

    /// How many live grants use a slot.
    pub fn uses_at(&self, unit: u16, slot: u32) -> u32
        requires { IsTrue (has_slot self.now unit slot) }
        ensures { result ≡ (use_in self.now unit slot).uses }
    {
        self.use_at(unit, slot).uses
    }

    /// The live grant that owns a slot. `None` exactly where none does.
    pub fn owner_at(&self, unit: u16, slot: u32) -> Option<u32>
        requires { IsTrue (has_slot self.now unit slot) }
        ensures { result ≡ (use_in self.now unit slot).owner }
    {
        self.use_at(unit, slot).owner
    }

    /// Raises the uses of a slot by one, and sets an owner that is given.
    pub fn add_use(&mut self, unit: u16, slot: u32, owner: Option<u32>)
        requires there { IsTrue (has_slot self.old unit slot) }
        requires few { (use_in self.old unit slot).uses < 4096 }
        requires unowned { (use_in self.old unit slot).owner ≡ None }
        requires alone { IsSome owner → (use_in self.old unit slot).uses ≡ 0 }
        ensures { self.new ≡ with_use self.old unit slot
            (record { uses = (use_in self.old unit slot).uses + 1; owner = owner }) }
    {
        let uses = self.use_at(unit, slot).uses + 1;
        self.set_use(unit, slot, SlotUse { uses, owner });
    }

    /// Lowers the uses of a slot by one, and ends its owner.
    pub fn end_use(&mut self, unit: u16, slot: u32)
        requires there { IsTrue (has_slot self.old unit slot) }
        requires used { 0 < (use_in self.old unit slot).uses }
        ensures { self.new ≡ with_use self.old unit slot
            (record { uses = (use_in self.old unit slot).uses - 1; owner = None }) }
    {
        let uses = self.use_at(unit, slot).uses - 1;
        self.set_use(unit, slot, SlotUse { uses, owner: None });
    }

    /// Sets who uses a slot.
    fn set_use(&mut self, unit: u16, slot: u32, users: SlotUse)
        requires there { IsTrue (has_slot self.old unit slot) }
        requires few { users.uses < 2 ^ 16 }
        requires alone { IsSome users.owner → users.uses ≡ 1 }
        ensures { self.new ≡ with_use self.old unit slot users }
    {
        let table = &mut self.nodes[usize::from(unit)];
        table.uses.set(slot as usize, users);
    }
}

/// The set of a net with words 0 and no use.
fn fresh_set(alloc: Global, on: KindedNet) -> Result<TableSet, AllocError>
    requires on { IsShaped meaning on }
    ensures { IfOk result (λ set. set
        ≡ fresh_set (kinds_of meaning on.entry.kinds.now) on.entry.net.now) }
{
    on.net.facts();
    let mut nodes = Vec::new(alloc);
    for node in 0..on.net.nodes() {
        nodes.push(NodeTable::fresh_table(alloc, on.net.unit(node), on.kinds)?)?;
    }
    Ok(TableSet { nodes })
}

/// Makes the units of nodes on a device that has none.
fn make_units<D: Tables>(nodes: &[NodeTable], device: &mut D) -> Made<()>
    requires few { length nodes.now ≤ 1024 }
    requires sized { IsTrue (list_all is_sized nodes.now) }
    requires zero { IsTrue (list_all is_zero nodes.now) }
    requires none { D.units device.old ≡ [] }
    ensures made { AreUnitsMade (tables_of_set nodes.now)
        (is_ok result) (is_device_fault result) (D.log device.old) (D.log device.new)
        (D.units device.new) (D.words device.old) (D.words device.new) }
    ensures counted { IsCounted (D.faults device.old) (D.faults device.new)
        (is_device_fault result) }
{
    for (node, table) in nodes.iter().enumerate() {
        make_unit(table, node as u16, device)?;
    }
    Ok(())
}

/// Makes the unit of a node, where it is one.
fn make_unit<D: Tables>(table: &NodeTable, node: u16, device: &mut D) -> Made<()>
    requires few { length table.now.words < 2 ^ 32 }
    requires zero { IsTrue (is_zero table.now) }
    requires new { has_unit (D.units device.old) node ≡ false }
    ensures units { OnOk result (D.units device.new ≡ D.units device.old
        ++ sizes_of (table_on_device node table.now.words table.now.unit)) }
    ensures words { OnOk result (D.words device.new ≡ option_map
        (λ told. told ++ table_on_device node table.now.words table.now.unit) (D.words device.old)) }
    ensures logged { OnOk result (Logged (D.log device.old) (D.log device.new)
        (map make_event (table_on_device node table.now.words table.now.unit))) }
    ensures some { OnErr result (IsSome table.now.unit) }
    ensures same { OnErr result ((D.units device.new ≡ D.units device.old)
        × (D.words device.new ≡ D.words device.old) × (D.log device.new ≡ D.log device.old)) }
    ensures counted { IsCounted (D.faults device.old) (D.faults device.new)
        (is_device_fault result) }
{
    match &table.unit {
        Some(_) => device.make(node, table.words.len() as u32),
        None => Ok(()),
    }
}
