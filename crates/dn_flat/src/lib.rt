//! What a node sees: for each of its addresses the names to which it resolves, as the fewest rows.
//!
//! ```text
//! let flats = flats::flatten_all(alloc, &net, &walks)?;
//! let levels = flats.of(node);    // what its addresses resolve to, and their stops
//! ```
//!
//! A [`stage::Stage`] has for each node of a net what its addresses come to in fewer than so many
//! steps and in exactly so many. By the stage for one step [`flat::flatten`] goes level by level
//! from one node, and [`flats::flatten_all`] from every node. [`flats::Flats`] also keeps which
//! names several agents reach, and which agents see which units, so that a search need not ask all.
//! Rows are normal, and give exactly the resolution of the definition; [`laws`] says so.
#![tactic(auto)]

mod crowds;
pub mod flat;
pub mod flats;
mod found;
pub mod laws;
mod layers;
pub mod levels;
mod reach;
pub mod seers;
mod shared;
pub mod stage;
mod stretches;
mod units;

pub use dn_base::OutOfMemory;
