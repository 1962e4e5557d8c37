//! Requests for buffers, and the placements that meet them.
//!
//! A [`request::Request`] says which agent is to see which addresses of which node, with which
//! rights. A placement of it puts records into the slots of one to three units. It is admissible
//! where these records show each agent exactly what it saw before, and the buffer; of several the
//! first in a fixed order is taken.
//!
//! ```text
//! let request = Request { agent, node, base: 0x9000, size: 0x1000, rights: Rights::both() };
//! ```
//!
//! The definitions stand here, in specs/, with their laws: two placements of one request are
//! ordered, so there is one first. [`roles`] tells agents and vector nodes. The search is
//! `dn_place`.
#![tactic(auto)]

pub mod laws;
pub mod request;
pub mod roles;
