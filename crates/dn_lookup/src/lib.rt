//! What an agent's address comes to under the records of an image, read from its bytes alone.
//!
//! ```text
//! let names = lookup::lookup(alloc, on, &bytes, Access::Read, name)?;
//! ```
//!
//! The answer is what the address resolves to under the records of the image that allow the access;
//! or that the node is no agent, or what is first wrong with the bytes. [`lookup`](mod@lookup) has
//! the calls, for bytes of any sort and for those that are known to be an image; [`levels`] follows
//! names level by level in an [`image`], and [`output`] takes one step in a unit by the record of a
//! slot.
#![tactic(auto)]

mod image;
mod levels;
pub mod lookup;
mod output;

pub use dn_base::OutOfMemory;
