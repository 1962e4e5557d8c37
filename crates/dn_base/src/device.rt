//! What tables of translation units are written to, its events and its faults.

ghost use Rattle.std.specs.Prelude.{◌≡◌, [], ◌∷◌, ◌++◌, true, false, replicate, List, Option, IfSome, OnOk, OnErr, is_err};
ghost use Rattle.std.specs.Option.{option_map};
ghost use Rattle.dn_base.specs.Terms.{Faults, IsCounted, Logged, UnitSize, has_unit, has_word, is_device_fault, sizes_of, with_word};
ghost use Rattle.dn_base.specs.declared.device.TableEvent.{TableEvent};
ghost use Rattle.dn_base.specs.declared.device.UnitWords.{UnitWords};

use crate::filled::Filled;
use thiserror::Error;

/// What was done to a device, in one call that did not fail.
#[derive(Clone, Copy, Debug, PartialEq, Eq)]
pub enum TableEvent {
    /// The unit was given so many words, all 0.
    Make { unit: u16, words: u32 },
    /// One word of a unit was set. Words are numbered from 0.
    Write { unit: u16, word: u32, value: u64 },
    /// No lookup was in flight at this moment.
    Fence,
}

/// A unit and its words.
#[derive(Drop)]
pub struct UnitWords {
    /// The number of the unit's node.
    pub unit: u16,
    /// Its words, by their numbers.
    pub words: Filled<u64>,
}

/// Why a unit was not made, or a grant not committed.
#[derive(Clone, Copy, Debug, PartialEq, Eq, Error)]
pub enum DeviceOrMemory {
    /// The device failed. It counts its faults.
    #[error("Device")]
    Device,
    /// There was no memory. It counts as no fault.
    #[error("OutOfMemory")]
    OutOfMemory,
}

/// A write or a fence failed. The device counts it.
#[derive(Clone, Copy, Debug, PartialEq, Eq, Error)]
#[error("DeviceFault")]
pub struct DeviceFault;

/// What tables of translation units are written to.
///
/// It tells always which units were made, and may tell their words and the log of events. Whether
/// the words are told is the same after each call; a log that is not told before a call is not
/// told after it.
pub trait Tables {
    /// The units that were made, in order, with their numbers of words.
    ghost units: { Self → List UnitSize };

    /// The units with their words, where the device tells them.
    ghost words: { Self → Option (List UnitWords) };

    /// The events, where the device tells them.
    ghost log: { Self → Option (List TableEvent) };

    /// What the device tells of its faults.
    ghost faults: { Self → Faults };

    /// Gives the unit so many words, all 0.
    ///
    /// # Errors
    ///
    /// `Device` comes only where the count of faults rose in this call, or stands at the last value
    /// of its counter. `OutOfMemory` comes for want of memory. After both nothing was done.
    fn make(&mut self, unit: u16, count: u32) -> Result<(), DeviceOrMemory>
        requires { has_unit (units self.old) unit ≡ false }
        ensures units { OnOk result (units self.new
            ≡ units self.old ++ record { unit = unit; words = count } ∷ []) }
        ensures words { OnOk result (words self.new ≡ option_map
            (λ told. told ++ record { unit = unit; words = replicate count 0 } ∷ [])
            (words self.old)) }
        ensures logged { OnOk result
            (Logged (log self.old) (log self.new) (TableEvent.Make unit count ∷ [])) }
        ensures same { OnErr result ((units self.new ≡ units self.old)
            × (words self.new ≡ words self.old) × (log self.new ≡ log self.old)) }
        ensures counted { IsCounted (faults self.old) (faults self.new) (is_device_fault result) };

    /// Sets one word of a unit.
    ///
    /// # Errors
    ///
    /// `DeviceFault` comes only where the count of faults rose in this call, or stands at the last
    /// value of its counter. Nothing was done then, and a later call may succeed.
    fn write(&mut self, unit: u16, word: u32, value: u64) -> Result<(), DeviceFault>
        requires { has_word (units self.old) unit word ≡ true }
        ensures units { units self.new ≡ units self.old }
        ensures words { OnOk result (words self.new
            ≡ option_map (λ told. with_word told unit word value) (words self.old)) }
        ensures logged { OnOk result
            (Logged (log self.old) (log self.new) (TableEvent.Write unit word value ∷ [])) }
        ensures same { OnErr result
            ((words self.new ≡ words self.old) × (log self.new ≡ log self.old)) }
        ensures counted { IsCounted (faults self.old) (faults self.new) (is_err result) };

    /// Waits until no lookup is in flight. It changes no word.
    ///
    /// # Errors
    ///
    /// `DeviceFault` as of a write.
    fn fence(&mut self) -> Result<(), DeviceFault>
        ensures units { units self.new ≡ units self.old }
        ensures words { words self.new ≡ words self.old }
        ensures logged { OnOk result
            (Logged (log self.old) (log self.new) (TableEvent.Fence ∷ [])) }
        ensures same { OnErr result (log self.new ≡ log self.old) }
        ensures counted { IsCounted (faults self.old) (faults self.new) (is_err result) };

    // The words that are told are those of the units that were made.
    ghost sized: { (device : Self) → IfSome (words device) (λ told. sizes_of told ≡ units device) };
}
