//! A device for tables in memory, which fails at stated calls.
//!
//! Its calls are numbered as those of the objects of [`crate::memory`] are, `make`, `write` and
//! `fence` together. It keeps its first events, as many as it was given room for.

ghost use Rattle.std.specs.Prelude.{◌≡◌, ◌<◌, ◌≤◌, [], ◌∷◌, ◌++◌, true, false, replicate, Some, OnOk, OnErr, IfOk, is_err, refl};
ghost use Rattle.dn_base.specs.Terms.{IsCall, IsCounted, KeepsEvent, Logged, PlacedAt, faults_of, has_unit, has_word, is_device_fault, log_told, log_with, no_calls, sizes_of, told_with, with_word, words_of_unit};
ghost use Rattle.dn_base.specs.declared.device.TableEvent.{TableEvent};
ghost use Rattle.dn_base.specs.declared.device.UnitWords.{UnitWords};

use crate::OutOfMemory;
use crate::calls::Calls;
use crate::device::{DeviceFault, DeviceOrMemory, TableEvent, Tables, UnitWords};
use crate::filled::Filled;
use std::alloc::Global;
use std::marker::Model;

/// Tables in memory, with a log of their first events.
#[derive(Drop)]
pub struct MemTables {
    tables: Vec<UnitWords>,
    log: Vec<TableEvent>,
    room: usize,
    told: bool,
    calls: Calls,
}

impl Model for MemTables {
    ghost use Rattle.std.specs.Prelude.{◌≤◌, vec_len, vec_capacity};
    ghost use Rattle.dn_base.specs.Device.{TablesState};

    ghost Value = { TablesState };

    ghost view = { λ s. record { tables = s.tables.items; log = s.log.items; told = s.told; room = s.room; calls = s.calls } };

    ghost invariant = { λ s. (vec_len s.log ≤ s.room) × (s.room ≤ vec_capacity s.log) };
}

impl MemTables {
    /// Tables with no unit yet, which fail at the calls whose numbers `failing` lists, in any
    /// order. It keeps the allocator, and takes the memory for a log of `room` events.
    pub fn new(alloc: Global, room: u32, failing: Vec<u32>) -> Result<MemTables, OutOfMemory>
        ensures { IfOk result (λ tables. tables ≡ record {
          tables = [];
          log = [];
          told = true;
          room = room;
          calls = no_calls failing.items;
        }) }
    {
        let log = Vec::with_capacity(alloc, room as usize)?;
        Ok(MemTables {
            tables: Vec::new(alloc),
            log,
            room: room as usize,
            told: true,
            calls: Calls::new(failing),
        })
    }

    /// The words of a unit that was made.
    pub fn words(&self, unit: u16) -> &Filled<u64>
        requires { has_unit (sizes_of self.now.tables) unit ≡ true }
        ensures { result.now ≡ words_of_unit self.now.tables unit }
    {
        for table in &self.tables {
            if table.unit == unit {
                return &table.words;
            }
        }
        unreachable!()
    }

    /// The events that were kept: the first ones, at most as many as there was room for. They are
    /// all where the log is told.
    pub fn log(&self) -> &[TableEvent]
        ensures { result.now ≡ self.now.log }
    {
        self.log.as_slice()
    }

    /// Keeps an event where there is room.
    fn keep(&mut self, event: TableEvent)
        ensures log { self.new.log ≡ log_with self.old event }
        ensures told { self.new.told ≡ told_with self.old }
        ensures same { (self.new.tables ≡ self.old.tables)
            × (self.new.room ≡ self.old.room) × (self.new.calls ≡ self.old.calls) }
    {
        if self.log.len() < self.room {
            self.log.push(event).unwrap();
        } else {
            self.told = false;
        }
    }
}

/// The place of a unit that was made, and has the word.
fn place_of(tables: &[UnitWords], unit: u16, word: u32) -> usize
    requires { has_word (sizes_of tables.now) unit word ≡ true }
    ensures { PlacedAt tables.now unit word result }
{
    for (at, table) in tables.iter().enumerate() {
        if table.unit == unit {
            return at;
        }
    }
    unreachable!()
}

/// Sets one word of a unit that was made, and has the word.
fn set_word(tables: &mut Vec<UnitWords>, unit: u16, word: u32, value: u64)
    requires { has_word (sizes_of tables.old.items) unit word ≡ true }
    ensures words { tables.new.items ≡ with_word tables.old.items unit word value }
    ensures sizes { sizes_of tables.new.items ≡ sizes_of tables.old.items }
{
    let place = place_of(tables.as_slice(), unit, word);
    let table = &mut tables[place];
    table.words.set(word as usize, value);
}

impl Tables for MemTables {
    ghost units = { λ s. sizes_of s.tables };

    ghost words = { λ s. Some s.tables };

    ghost log = { log_told };

    ghost faults = { λ s. faults_of s.calls };

    ghost sized = { λ s. refl };

    /// Gives the unit so many words, all 0, and keeps the event where there is room.
    ///
    /// # Errors
    ///
    /// `Device` exactly where the call's number is listed; it raises the count of faults by one.
    /// `OutOfMemory` where there is no memory for the words. After both nothing was done.
    fn make(&mut self, unit: u16, count: u32) -> Result<(), DeviceOrMemory>
        ensures units { OnOk result (sizes_of self.new.tables
            ≡ sizes_of self.old.tables ++ record { unit = unit; words = count } ∷ []) }
        ensures words { OnOk result (self.new.tables ≡ self.old.tables
            ++ record { unit = unit; words = replicate count 0 } ∷ []) }
        ensures logged { OnOk result
            (Logged (log_told self.old) (log_told self.new) (TableEvent.Make unit count ∷ [])) }
        ensures same { OnErr result ((sizes_of self.new.tables ≡ sizes_of self.old.tables)
            × (self.new.tables ≡ self.old.tables) × (log_told self.new ≡ log_told self.old)) }
        ensures counted { IsCounted (faults_of self.old.calls)
            (faults_of self.new.calls) (is_device_fault result) }
        ensures kept { KeepsEvent (TableEvent.Make unit count) self.old self.new (is_err result) }
        ensures called { IsCall self.old.calls self.new.calls (is_device_fault result) }
    {
        if self.calls.fails() {
            return Err(DeviceOrMemory::Device);
        }
        let alloc = *self.tables.allocator();
        let Ok(words) = Filled::new(alloc, 0, count as usize) else {
            return Err(DeviceOrMemory::OutOfMemory);
        };
        let table = UnitWords { unit, words };
        if self.tables.push(table).is_err() {
            return Err(DeviceOrMemory::OutOfMemory);
        }
        self.keep(TableEvent::Make { unit, words: count });
        Ok(())
    }

    /// Sets one word of a unit, and keeps the event where there is room.
    ///
    /// # Errors
    ///
    /// `DeviceFault` exactly where the call's number is listed; it raises the count of faults by
    /// one, and nothing was done.
    fn write(&mut self, unit: u16, word: u32, value: u64) -> Result<(), DeviceFault>
        requires { has_word (sizes_of self.old.tables) unit word ≡ true }
        ensures units { sizes_of self.new.tables ≡ sizes_of self.old.tables }
        ensures words { OnOk result
            (self.new.tables ≡ with_word self.old.tables unit word value) }
        ensures logged { OnOk result
            (Logged (log_told self.old) (log_told self.new) (TableEvent.Write unit word value ∷ [])) }
        ensures same { OnErr result ((self.new.tables ≡ self.old.tables)
            × (log_told self.new ≡ log_told self.old)) }
        ensures counted { IsCounted (faults_of self.old.calls)
            (faults_of self.new.calls) (is_err result) }
        ensures kept { KeepsEvent (TableEvent.Write unit word value)
            self.old self.new (is_err result) }
        ensures called { IsCall self.old.calls self.new.calls (is_err result) }
    {
        if self.calls.fails() {
            return Err(DeviceFault);
        }
        set_word(&mut self.tables, unit, word, value);
        self.keep(TableEvent::Write { unit, word, value });
        Ok(())
    }

    /// Changes no word, and keeps the event where there is room.
    ///
    /// # Errors
    ///
    /// `DeviceFault` as of a write.
    fn fence(&mut self) -> Result<(), DeviceFault>
        ensures units { sizes_of self.new.tables ≡ sizes_of self.old.tables }
        ensures words { self.new.tables ≡ self.old.tables }
        ensures logged { OnOk result
            (Logged (log_told self.old) (log_told self.new) (TableEvent.Fence ∷ [])) }
        ensures same { OnErr result (log_told self.new ≡ log_told self.old) }
        ensures counted { IsCounted (faults_of self.old.calls)
            (faults_of self.new.calls) (is_err result) }
        ensures kept { KeepsEvent TableEvent.Fence self.old self.new (is_err result) }
        ensures called { IsCall self.old.calls self.new.calls (is_err result) }
    {
        if self.calls.fails() {
            return Err(DeviceFault);
        }
        self.keep(TableEvent::Fence);
        Ok(())
    }
}
