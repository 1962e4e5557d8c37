//! Routing lines of agents to interrupt vectors.
//!
//! ```text
//! let vector = route::route(alloc, &mut book, system, id, agent, line, node, &mut device)?;
//! ```
//!
//! The answer is the least free vector of the node that has an admissible placement at the line,
//! which is an address of the agent; or the first refusal that holds, and then nothing has changed.
//! [`refusal`](mod@refusal) tells which refusal holds before any vector is looked at, [`vectors`]
//! which vectors of a node are free, and [`search`] finds the least.
#![tactic(auto)]

pub mod refusal;
pub mod route;
pub mod search;
pub mod vectors;

pub use dn_base::OutOfMemory;
