//! Tests of nets: one step of decoding, the rows of live walks, and stages.
//!
//! The wanted values are worked out by hand. The rules on nodes, on walks and on units, what nodes see, and what splitting
//! and absorbing make of nets, is shown by texts of `answers/`, and compared with a plain search by the judge there.

pub mod decoding;
mod made;
pub mod stages;
pub mod walking;
