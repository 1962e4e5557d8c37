//! The audit of an image of tables, whoever made it: what each agent would see under it.
//!
//! ```text
//! let report = audit::audit(alloc, system, &image)?;    // or what is first wrong with the bytes
//! let text = text::audit_text(alloc, &net, &report)?;
//! ```
//!
//! [`audit`](mod@audit) puts the records of the image into a fresh set of tables ([`taking`], slot
//! by slot as it is [`stored`]), makes the views of all agents under them ([`views`]), and of these
//! the rows of names that two or more agents see ([`claims`], [`shared`]). A [`report`] has all of
//! it, with the slots whose words are no record. [`input`] reads a text and an image from one
//! source. [`laws`] says that there is one report of an image, and what it tells.
#![tactic(auto)]

pub mod audit;
mod claims;
pub mod fault;
pub mod input;
pub mod laws;
pub mod report;
mod shared;
mod stored;
mod taking;
pub mod text;
mod views;

pub use dn_base::OutOfMemory;
