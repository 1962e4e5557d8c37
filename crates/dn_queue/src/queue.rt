//! A device that does nothing: it keeps what is to be done, in order, for the caller that reaches the hardware.

ghost use Rattle.std.specs.Prelude.{◌≡◌, ◌+◌, [], ◌∷◌, ◌++◌, None, OnOk, OnErr, is_err, length};
ghost use Rattle.dn_base.specs.Terms.{IsCounted, Logged, has_unit, has_word, is_device_fault};
ghost use Rattle.dn_base.specs.declared.device.TableEvent.{TableEvent};
ghost use Rattle.dn_queue.specs.Terms.{IsFull, faults_at, log_of};

use dn_base::OutOfMemory;
use dn_base::device::{DeviceFault, DeviceOrMemory, TableEvent, Tables};
use std::alloc::Global;
use std::marker::Model;

/// How many words a unit was given.
#[derive(Clone, Copy)]
pub struct Size {
    /// The number of the unit's node.
    pub unit: u16,
    /// How many words it has.
    pub words: u32,
}

/// Events that are to be done, in order.
///
/// A call fails only where there is no memory for its event, and never while there are fewer events
/// than room was made for. The queue does not tell the words of its units.
#[derive(Drop)]
pub struct Queue {
    sizes: Vec<Size>,
    events: Vec<TableEvent>,
    /// For how many events in all room was made last.
    room: usize,
    /// How many calls failed since then.
    faults: u64,
}

impl Model for Queue {
    ghost use Rattle.std.specs.Prelude.{◌≢◌, ◌≤◌};
    ghost use Rattle.std.specs.Vec.{vec_len, vec_capacity};
    ghost use Rattle.dn_queue.specs.Queue.{QueueState, unit_sizes};

    ghost Value = { QueueState };

    ghost view = { λ q. record {
      units = unit_sizes q.sizes.items;
      events = q.events.items;
      room = q.room;
      faults = q.faults;
    } };

    ghost invariant = { λ q. (q.room ≤ vec_capacity q.events) × (q.faults ≢ 0 → q.room ≤ vec_len q.events) };
}

impl Queue {
    /// No unit was made, nothing is to be done, and no room was made. It takes no memory.
    pub fn none(alloc: Global) -> Queue
        ensures { result ≡ record { units = []; events = []; room = 0; faults = 0 } }
    {
        Queue {
            sizes: Vec::new(alloc),
            events: Vec::new(alloc),
            room: 0,
            faults: 0,
        }
    }

    /// What every queue is, for a proof of its caller. It does nothing.
    pub fn facts(&self)
        ensures { IsFull self.now }
    {
        let _events = self.events.len();
    }

    /// What is to be done, in order.
    pub fn events(&self) -> &[TableEvent]
        ensures { result.now ≡ self.now.events }
    {
        self.events.as_slice()
    }

    /// Makes room for so many more events: that many calls then do not fail.
    ///
    /// # Errors
    ///
    /// `OutOfMemory` for want of memory: nothing has changed.
    pub fn reserve(&mut self, more: usize) -> Result<(), OutOfMemory>
        ensures reserved { OnOk result (self.new ≡ record self.old {
          room = length self.old.events + more;
          faults = 0;
        }) }
        ensures refused { OnErr result (self.new ≡ self.old) }
    {
        self.events.reserve(more)?;
        self.room = self.events.len() + more;
        self.faults = 0;
        Ok(())
    }

    /// All events were done: none is kept any longer. It takes no memory, and keeps what it has.
    pub fn clear(&mut self)
        ensures { self.new ≡ record self.old { events = []; room = 0 } }
    {
        self.events.clear();
        self.room = 0;
    }

    /// Keeps an event, or counts a fault.
    fn keep(&mut self, event: TableEvent) -> Result<(), DeviceFault>
        ensures units { self.new.units ≡ self.old.units }
        ensures room { self.new.room ≡ self.old.room }
        ensures ok { OnOk result (self.new.events ≡ self.old.events ++ event ∷ []) }
        ensures err { OnErr result (self.new.events ≡ self.old.events) }
        ensures counted { IsCounted (faults_at self.old) (faults_at self.new) (is_err result) }
    {
        if self.events.push(event).is_ok() {
            return Ok(());
        }
        self.faults = self.faults.saturating_add(1);
        Err(DeviceFault)
    }
}

impl Tables for Queue {
    ghost units = { λ q. q.units };

    ghost words = { λ _. None };

    ghost log = { log_of };

    ghost faults = { faults_at };

    ghost sized = { λ _. tt };

    /// Keeps the number of words, and the event.
    ///
    /// # Errors
    ///
    /// `OutOfMemory` where there is no memory for them. `Device` never.
    fn make(&mut self, unit: u16, count: u32) -> Result<(), DeviceOrMemory> {
        if self.events.reserve(1).is_err() {
            return Err(DeviceOrMemory::OutOfMemory);
        }
        if self.sizes.push(Size { unit, words: count }).is_err() {
            return Err(DeviceOrMemory::OutOfMemory);
        }
        self.events
            .push_reserved(TableEvent::Make { unit, words: count });
        Ok(())
    }

    /// Keeps the event.
    ///
    /// # Errors
    ///
    /// `DeviceFault` where there is no memory for it; it is counted.
    fn write(&mut self, unit: u16, word: u32, value: u64) -> Result<(), DeviceFault> {
        self.keep(TableEvent::Write { unit, word, value })
    }

    /// Keeps the event.
    ///
    /// # Errors
    ///
    /// As of a write.
    fn fence(&mut self) -> Result<(), DeviceFault> {
        self.keep(TableEvent::Fence)
    }
}
