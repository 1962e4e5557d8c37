//! The words of a command line, and what they ask for.
//!
//! ```text
//! let mut words = Words::new(alloc);
//! words.push("check")?;
//! let task = words.task()?;            // Some(Task::Check); None: words of no form
//! ```
//!
//! [`words::Words`] keeps the words after the program's name; [`words::Words::task`] says what they
//! ask for, or that they are of none of the forms. `clap` splits them ([`split`]), and what it
//! answers is proved to be the form of the definition.
#![tactic(auto)]

mod number;
mod split;
pub mod words;

pub use dn_base::OutOfMemory;
