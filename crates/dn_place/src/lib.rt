//! The search for the first admissible placement of a request.
//!
//! ```text
//! let found = first::first(alloc, system, &tables, &request, None)?;
//! match found {
//!     Some(placement) => ..,      // no admissible placement comes before it
//!     None => ..,                 // none is admissible
//! }
//! ```
//!
//! [`first`](mod@first) looks for it under a set of tables, and [`booked`] beside the grants of a
//! book; [`reach`] is what the requests of an agent share. [`accepted`] tells whether a buffer may
//! be asked for, and [`exits`] by which outputs of a unit it is given. Inside, three loops choose
//! hops from the memory's end, each by a cursor that passes over hops which can serve no placement;
//! docs/architecture.md has the way of a grant.
#![tactic(auto)]

pub mod accepted;
mod blocks;
pub mod booked;
mod cursor;
mod entry;
pub mod exits;
pub mod first;
mod hops;
mod inputs;
mod iova;
mod kept;
mod marks;
mod preimages;
pub mod reach;
pub mod rows;
mod search;
mod slot_state;
pub mod slots;
pub mod tables;
pub mod unit;

pub use dn_base::OutOfMemory;
