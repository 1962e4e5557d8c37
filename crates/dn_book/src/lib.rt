//! The book of live grants, and the tables that it keeps on a device.
//!
//! ```text
//! let mut book = Book::make(alloc, on, &mut device)?;
//! book.commit(alloc, on, grant, &mut device)?;        // a grant with its placement
//! book.revoke(on, id, &mut device)?;                  // clears what no other grant uses
//! ```
//!
//! A commit or a revoke writes its events in a fixed order: a fence where one is due, then the
//! words. The tables hold exactly the records of the live grants after each call that succeeded.
//! After a device fault each address leads where it led before the call, or where it leads after
//! it. For want of memory nothing has changed. [`laws`] says that a grant and a revoke keep a
//! faithful book faithful, and [`stops`] what holds between two events.
#![tactic(auto)]

pub mod book;
mod clears;
pub mod grant;
pub mod grants;
pub mod kept;
pub mod laws;
mod puts;
mod slots;
pub mod stops;
mod uses;
