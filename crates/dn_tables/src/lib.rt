//! The words of a net's units in memory and on a device, with the uses and owners of their slots.
//!
//! ```text
//! let mut tables = TableSet::make(alloc, on, &mut device)?;     // all words 0
//! tables.put(&kinds, unit, slot, record, &mut device)?;
//! let held = tables.record_at(&kinds, unit, slot);
//! ```
//!
//! A [`set::TableSet`] writes every word to the device before it keeps it, so the words of both are
//! the same after each call, also after one that failed. [`table`] has the table of one node,
//! [`words`] the words of a slot, [`uses`] who uses each slot, [`writes`] the writes of words, and
//! [`placement`] what a grant places in the slots. [`sizes`] is a device for a set whose words no
//! other reads.
#![tactic(auto)]

pub mod placement;
pub mod set;
pub mod sizes;
pub mod table;
pub mod uses;
pub mod words;
pub mod writes;
