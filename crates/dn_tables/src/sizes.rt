//! A device that is none: it keeps how many words each unit was given.

ghost use Rattle.std.specs.Prelude.{◌≡◌, [], ◌∷◌, ◌++◌, None, false, true, OnOk, OnErr, is_err};
ghost use Rattle.dn_base.specs.Terms.{Faults, IsCounted, has_unit, has_word, is_device_fault};
ghost use Rattle.dn_tables.specs.Terms.{no_faults, sizes_by};

use dn_base::device::{DeviceFault, DeviceOrMemory, Tables};
use std::alloc::Global;

/// How many words a unit was given.
#[derive(Clone, Copy)]
pub struct Size {
    /// The number of the unit's node.
    pub unit: u16,
    /// How many words it has.
    pub words: u32,
}

/// A device that keeps how many words each unit was given, and nothing else. It tells neither words
/// nor a log, and never fails.
#[derive(Drop)]
pub struct Sizes {
    /// The units that were made, in order.
    pub sizes: Vec<Size>,
}

impl Sizes {
    /// No unit was made. It takes no memory.
    pub fn none(alloc: Global) -> Sizes
        ensures { result.sizes.items ≡ [] }
    {
        Sizes {
            sizes: Vec::new(alloc),
        }
    }
}

impl Tables for Sizes {
    ghost units = { λ s. sizes_by s.sizes.items };

    ghost words = { λ _. None };

    ghost log = { λ _. None };

    ghost faults = { λ _. no_faults };

    ghost sized = { λ _. tt };

    /// Keeps the number of words.
    ///
    /// # Errors
    ///
    /// `OutOfMemory` where there is no memory for the number. `Device` never.
    fn make(&mut self, unit: u16, count: u32) -> Result<(), DeviceOrMemory> {
        match self.sizes.push(Size { unit, words: count }) {
            Ok(()) => Ok(()),
            Err(_) => Err(DeviceOrMemory::OutOfMemory),
        }
    }

    /// Does nothing.
    fn write(&mut self, _unit: u16, _word: u32, _value: u64) -> Result<(), DeviceFault> {
        Ok(())
    }

    /// Does nothing.
    fn fence(&mut self) -> Result<(), DeviceFault> {
        Ok(())
    }
}
