//! The kinds of units that the program ships: those of [`shipped::ShippedKind`], for lists of kinds
//! in [`listed`].
//!
//! ```text
//! let mut kinds = Kinds::none(alloc);
//! kinds.add(Box::new(alloc, Pages)?)?;    // and Remap, Vectors and Radix
//! ```
//!
//! In all of them bit 0 of the last word is the gate, bits 1 to 3 of that word are the port, and
//! bits 4 and 5 deny reading and writing; a record that allows both has neither bit. What differs
//! is where the output page stands, and which shapes the kind fits. `shipped_are_lawful` proves the
//! laws of a kind for each of them.
#![tactic(auto)]

mod layout;
pub mod listed;
pub mod shipped;
