//! The tool: it compiles a text, answers its commands, and is the one call that the program makes.
//!
//! ```text
//! let status = run::run(alloc, &words, &kinds, &mut source, &mut sink, &mut device);
//! ```
//!
//! [`run::run`] goes from the bytes of a source to those of a sink and the words of a device, and
//! its clauses are what README says of the program. [`run::demo`] does so with the text of a
//! demonstration.
//!
//! [`compile::compile`] gives the platform of a text, or the first rule that it breaks: the text is
//! read, expanded to a net and commands, and the net is held to the rules on nodes and on walks;
//! [`refusal`] has the line of each rule. The commands are answered by `dn_script`. [`input`] says
//! how much is read of a source and what its bytes say, [`audit`] answers an image by its
//! [`report`], [`said`] is what is said with its status, and [`demo`] prints what came of a
//! demonstration. [`laws`] has the laws that hold of whole runs.
#![tactic(auto)]

mod audit;
pub mod compile;
mod demo;
mod input;
pub mod laws;
pub mod refusal;
mod report;
pub mod run;
mod said;

pub use dn_base::OutOfMemory;
pub use dn_words::words;
