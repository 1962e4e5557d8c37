//! Expansion: from the tree of a text to its net and its commands.
//!
//! A description may say a part once, as a module with parameters, and use it many times; a loop
//! stands for its body with each number of a range in the place of its variable.
//!
//! ```text
//! let expanded = expand::expand(alloc, &tree, &kinds)?;   // the net, and its commands
//! let mut rest = expanded.commands.cursor();
//! while let Some(command) = rest.next(alloc)? { .. }
//! ```
//!
//! [`expand::expand`] gives the net that comes of replacing text, without replacing any: it keeps
//! what stands for each name. It answers the first fault that replacing would meet, with its line.
#![tactic(auto)]

pub mod command;
pub mod commands;
mod draft;
mod drafts;
pub mod expand;
mod expansion;
mod link;
mod machine;
mod nodes;
mod orders;

pub use dn_base::OutOfMemory;
