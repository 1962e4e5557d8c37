//! The live walks of a net, and the rules on them.
//!
//! A walk is a list of choices, each of a map entry and one of its destinations, or of a gap that
//! `over` serves. It is live where some address follows all of it.
//!
//! ```text
//! let table = walks::walks(alloc, &net)?;   // an error: the first rule that is broken
//! ```
//!
//! The rules, in their order: too many walks, an address that comes back to itself, a chain of 65
//! steps, a name that goes several ways and reaches a unit, a row of units that is too long or has
//! too many slots. An `Err` names the first that the net breaks, with the nodes or names at which
//! it does. [`accepted`] has the sets of addresses that nodes accept, and [`laws`] says that the
//! walks are all, in order, and that what is refused is the least.
#![tactic(auto)]

pub mod accepted;
mod chain;
pub mod fault;
mod fork;
pub mod laws;
mod leads;
pub mod leg;
pub mod level;
mod spans;
pub mod walks;
mod way;

pub use dn_base::OutOfMemory;
