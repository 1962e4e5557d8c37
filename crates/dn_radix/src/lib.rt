//! Trees of pages: the words of a unit in the form that a page-table walker follows.
//!
//! ```text
//! let pages = build::build(alloc, &words, pool)?;     // an error: how many pages it needs
//! let record = walk::walk(&pages, unit, kind, slot)?; // in pages of whomever
//! ```
//!
//! A tree is made of pages of 4,096 bytes, each with 512 little-endian words of 64 bits. The pages
//! at the bottom hold the words themselves; a page above them holds entries, and an entry is 0, or
//! the byte of the page to which it leads, and 1. A tree has one to three levels of pages, and no
//! page for a piece of the words that is all 0. [`linear`](mod@linear) takes a tree back. [`laws`]
//! says that each word is found by a walk, and that a tree has one list of words.
#![tactic(auto)]

pub mod build;
pub mod fault;
mod find;
pub mod laws;
mod leaves;
pub mod linear;
pub mod walk;

pub use dn_base::OutOfMemory;
