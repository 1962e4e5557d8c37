//! The printed texts: names, rows, an image, and a net in its one normal form.
//!
//! ```text
//! let line = names::names_text(alloc, &net, &names)?;    // ram@0x1000, rom@0x0
//! let text = net::net_text(alloc, on)?;                  // a statement for each node, in order
//! ```
//!
//! [`names`] prints names as replies show them, [`rows`] prints rows as lines, [`net`](mod@net)
//! prints a net, and [`dump`] an image. [`joined`] puts several items into one text. Each text is
//! the one of its definition. [`laws`] says that the text of a net is read back as that net, and
//! that a printed image is the text of one image alone.
#![tactic(auto)]

mod address;
pub mod dump;
pub mod joined;
pub mod laws;
pub mod names;
pub mod net;
mod parts;
pub mod rows;

pub use dn_base::OutOfMemory;
