//! Changes of a book of which nothing is lost for want of memory.
//!
//! A [`queue::Queue`] is a device that keeps the events it is given, for somebody else to perform.
//!
//! ```text
//! let mut queue = Queue::none(alloc);
//! change::commit(alloc, on, &mut book, &mut queue, grant)?;
//! let events = queue.events();           // to be performed in this order
//! queue.clear();
//! ```
//!
//! [`change`] takes room for all events of a grant or a revoke before the book is changed. So each
//! is done whole, or nothing has changed: the fault that a device may answer is proved never to
//! come.
#![tactic(auto)]

pub mod change;
pub mod queue;
mod room;
