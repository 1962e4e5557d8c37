//! Lookups in flight: agents look addresses up while a device writes the tables of a net.
//!
//! ```text
//! let mut world = World::start(alloc, on)?;
//! world.play(alloc, system, event)?;      // a lookup begins or reads, a word is written, a fence
//! let ended = world.lookups();
//! ```
//!
//! [`world`] is the core: it has tables and lookups, and takes one event at a time. It touches no
//! device; it is the model in which the promise on lookups is stated. [`laws`] says what every
//! lookup of every schedule of a log has ended with: nothing that was not given at one moment of
//! it.
#![tactic(auto)]

pub mod event;
mod flights;
pub mod laws;
pub mod lookup;
mod output;
mod settle;
mod words;
pub mod world;

pub use dn_base::OutOfMemory;
