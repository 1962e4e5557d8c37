//! The outside of the program, as traits whose meanings contracts can name, and the small list and
//! text types that all crates share.
//!
//! A [`source::Source`] gives bytes, a [`sink::Sink`] takes them, and a [`device::Tables`] takes
//! the words of translation units. [`memory`] and [`memory_tables`] have each of them in memory,
//! with a list of calls that fail, and [`streams`] has the first two over the system's readers and
//! writers.
//!
//! ```text
//! let mut source = MemSource::new(bytes, 4096, failing);
//! let text = whole::read_whole(alloc, &mut source)?;
//! whole::write_whole(&mut sink, text.as_slice())?;
//! ```
//!
//! A contract can name what an object has left, holds or was told, where the object tells it. An
//! object counts its faults: an answer that is a fault comes only where that count rose, or stands
//! at the last value of its counter. It also tells whether it never fails, and whether it answers
//! each fault by the call in which it comes; then a call that answers no fault leaves the count.
//!
//! [`items::Items`] and [`text::Text`] are what structs keep in place of a `Vec` or a `String`, so
//! that contracts see the list or the bytes alone. [`filled::Filled`] is a list that takes memory
//! where it is written.
#![tactic(auto)]

mod calls;
pub mod device;
pub mod filled;
pub mod history;
pub mod items;
pub mod memory;
pub mod memory_tables;
pub mod sink;
pub mod source;
pub mod streams;
pub mod text;
pub mod whole;

pub use std::alloc::AllocError as OutOfMemory;
