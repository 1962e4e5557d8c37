//! The decoding net: nodes that accept addresses and translate others to names of other nodes.
//!
//! A name is a node and an address. [`net::Net`] keeps the nodes under their numbers, with their
//! full names.
//!
//! ```text
//! let mut net = Net::new(alloc);
//! let ram = net.add(declaration)?;        // the node's number; nodes count from 0
//! net.check_nodes(alloc)?;                // an error: the first rule of a node that is broken
//! let next = net.step(name);              // accepted, sent on, or neither
//! ```
//!
//! [`step`] decodes one name by one step, [`rules`] has the rules of a node, and [`names`] has
//! ascending lists of names without repeats. Each answer is the one of its definition. [`laws`] has
//! the laws on chains of steps, and the limits of nets.
#![tactic(auto)]

mod accepts;
pub mod checked;
pub mod entries;
pub mod laws;
pub mod names;
pub mod net;
pub mod node;
pub mod rules;
mod spans;
pub mod step;

pub use dn_base::OutOfMemory;
