//! Splitting and absorbing: nets that are made of others and keep every view.
//!
//! ```text
//! let parts = split::split(alloc, &net)?;            // no node both translates and accepts
//! let fewer = absorb::absorb(alloc, &net, node)?;    // past the node
//! ```
//!
//! Both give a new net and leave the old one as it is, or say which limit the new one would pass,
//! or why the node cannot be absorbed. [`laws`] says that every view is kept, and every rule.
#![tactic(auto)]

pub mod absorb;
mod copy;
pub mod fault;
pub mod laws;
mod limits;
mod node;
mod past;
mod spans;
pub mod split;

pub use dn_base::OutOfMemory;
