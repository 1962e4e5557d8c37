//! Translation units as tables of records: the kinds of units, what a slot's words spell, and what
//! names come to under them.
//!
//! A unit divides its input into slots. A slot holds a record: a port, an output page and rights,
//! in one to four words of 64 bits. Which words spell which record is told by the unit's kind, a
//! [`unit_kind::UnitKind`]; a new format is a new implementation of that trait.
//!
//! ```text
//! let mut kinds = Kinds::none(alloc);
//! kinds.add(kind)?;
//! units::check_units(&net, &kinds)?;                     // each unit fits its kind
//! let record = slots::held_record(unit, kind, &words);   // None: it holds nothing
//! ```
//!
//! [`kinded`] is a net with the kinds of its units, [`output`] says where a record sends an
//! address, and [`levels`] has the parts of a pass that follows names level by level. A kind must
//! keep the laws of `specs/Kind`, which each implementation proves. [`laws`] says what names come
//! to under records.
#![tactic(auto)]

pub mod kinded;
pub mod kinds;
pub mod laws;
pub mod levels;
pub mod output;
pub mod rights;
pub mod shape;
pub mod slots;
pub mod unit_kind;
pub mod units;

pub use dn_base::OutOfMemory;
