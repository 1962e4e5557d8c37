//! Images of tables: the bytes in which the words of all units of a net are stored.
//!
//! ```text
//! let bytes = write::write(alloc, on, &tables)?;    // version 2
//! let image = read::read(alloc, on, &bytes)?;       // or what is first wrong with the bytes
//! let words = image.words(unit);
//! ```
//!
//! [`read`](mod@read) takes the images of a net of both versions, whoever made them.
//! [`check`](mod@check) looks at bytes without a copy, and [`slots`] reads the record of one slot
//! from them. [`laws`] says that what is written is read as it was, and that bytes are an image of
//! one set of words alone.
#![tactic(auto)]

pub mod check;
pub mod fault;
pub mod laws;
pub mod read;
pub mod slots;
pub mod write;

pub use dn_base::OutOfMemory;
