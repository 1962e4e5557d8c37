//! Scripts: the commands of a text are answered one after the other, on a machine.
//!
//! ```text
//! let mut state = Session::make(alloc, machine, &mut device)?;
//! script::answer_all(alloc, machine, &mut state, &commands, &mut sink, &mut device)?;
//! ```
//!
//! Each command has a turn: its events on the device, its reply, and the book after it. A reply is
//! written before the next command begins, and [`halt`] says why a script stops before its end.
//!
//! [`state`] is what is kept meanwhile on a [`machine`], [`change`] does grants, routes and revokes
//! under their [`ids`], and [`pieces`] grants buffers in pieces. [`reply`] spells the other
//! answers, those to `split` and `absorb` by [`reshape`] and that to `radix` by [`radix`]. What is
//! written goes to a sink by [`output`], and [`lines`] some at once.
#![tactic(auto)]

pub mod change;
pub mod halt;
pub mod ids;
pub mod lines;
pub mod machine;
pub mod output;
mod pieces;
mod radix;
pub mod reply;
mod reshape;
pub mod script;
pub mod state;

pub use dn_base::OutOfMemory;
