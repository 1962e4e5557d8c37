//! Tests of placements, of books of grants and of routes to vectors, on small nets.
//!
//! Here is what needs a call: placements at an address that is given, whether a placement is admissible for a part of its
//! buffer and with another of its hops for its own, and a device of which each call fails in turn. What a text shows is
//! compared with a plain slow search by the judge of `answers/`.

mod boards;
mod commands;
pub mod exact;
pub mod faults;
pub mod pieces;
