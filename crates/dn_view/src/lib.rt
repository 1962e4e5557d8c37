//! What agents see under tables, and whether a placement shows exactly its buffer.
//!
//! A [`system::System`] is a net with its kinds and with what its nodes see.
//!
//! ```text
//! let names = resolve::resolve(alloc, system, &tables, name, Access::Read)?;
//! let rows = view::view(alloc, system, &tables, agent, Access::Write)?;
//! let fits = exact::exact(alloc, system, &tables, &request, &placement)?;
//! ```
//!
//! `resolve` gives what one name comes to under the records of the tables, `view` the normal rows
//! of a node, and `exact` whether under the placement's records each agent would see what it saw
//! before, and the agent of the request the buffer too. [`laws`] says that what `exact` refuses is
//! not admissible.
#![tactic(auto)]

mod course;
pub mod exact;
mod holding;
pub mod kept;
pub mod laws;
mod met;
pub mod names;
pub mod near;
mod onward;
mod output;
pub mod part;
mod pass;
mod range;
mod records;
pub mod resolve;
mod shown;
pub mod system;
mod trial;
mod untouched;
pub mod view;

pub use dn_base::OutOfMemory;
