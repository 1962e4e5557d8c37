//! Tests of nets (`nets`), of tables, of their images and of lookups in these (`tables`), and of the grants and routes that
//! fill tables (`grants`); `words` has the words by which faults are named.
//!
//! The nets are made by calls. A call asks much of its arguments, so it is made by a function that tests this first. On a
//! slot of a set these functions are in `slots`: they test that the slot is there and empty, and that a record fits. On a
//! book of grants they are in `at_desk`. The wanted words, events, bytes and names are worked out by hand.
#![tactic(auto)]

#[cfg(test)]
mod at_desk;
pub mod bench;
#[cfg(test)]
mod calls;
pub mod desk;
#[cfg(test)]
mod grants;
#[cfg(test)]
mod nets;
#[cfg(test)]
mod own;
#[cfg(test)]
mod slots;
#[cfg(test)]
mod tables;
#[cfg(test)]
mod tests;
#[cfg(test)]
mod words;
