//! Buffers in pieces: an agent sees them at consecutive addresses, and each becomes a grant of its
//! own.
//!
//! ```text
//! let pieces = [Piece { id: 1, node: ram, base: 0x5000, size: 0x1000 }, ..];    // 1 to 8
//! let address = gather::gather(alloc, &mut book, system, agent, &pieces, rights, &mut device)?;
//! ```
//!
//! All pieces are granted, at the first scattered placement that is admissible as a whole, or the
//! first refusal is answered and none is. [`refusal`](mod@refusal) tells which refusal holds before
//! any placement is sought, and [`laws`] says when a scattered placement of pieces is admissible.
#![tactic(auto)]

mod booked;
mod choice;
mod commits;
pub mod gather;
mod ground;
pub mod laws;
mod outputs;
mod part;
pub mod piece;
pub mod refusal;
pub mod scatter;
mod search;
mod stands;
mod used;
mod wanted;
mod windows;
