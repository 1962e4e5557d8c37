//! Tests of the way from words and the bytes of a source to a status and the bytes of a sink, over
//! objects in memory.
//!
//! What a text is answered stands in the files of `answers/`, which the built program is run over, and its judge has texts
//! that come through a pipe by few bytes, and each front of a text. Here is what needs a source, a sink and a device that a
//! test can direct. A read that fails ends the run with its status, and no call is made again or beside those that are needed
//! (`faults`). Each call of the device fails in turn: where the units of a net are made, and in grants, routes, revokes and
//! buffers in pieces (`stops`, by `turns`, which goes over the turns of a script, and `leads`, which tells where the words
//! that are left lead), and in a demonstration (`demos`). No call is made where no script is run (`devices`). How much an
//! audit reads, and what it writes before a fault, is in `audits`. `failing` says which calls fail, `boards` has the nets of
//! the scripts, `outcome` runs the words over a text, `rows` compares what comes of it, and `words` has the words of the
//! faults of a text.
//!
//! Lookups in flight are tested by one test, in `flying`, over tables of what is done with a world and
//! asked of it: worked events (`flights`), each answer of a world that refuses (`worlds`), and the logs
//! of runs, which are played event by event with lookups between (`played`). `playing` goes over such a
//! table.
#![tactic(auto)]

pub mod failing;
pub mod sky;
#[cfg(test)]
mod tests;
