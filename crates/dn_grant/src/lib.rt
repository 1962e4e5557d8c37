//! Granting buffers: the refusals of a request, and the grant at its first admissible placement.
//!
//! ```text
//! let address = grant::grant(alloc, &mut book, system, id, &request, &mut device)?;
//! ```
//!
//! The answer is the first address of the buffer in the agent. Or it is the first refusal that
//! holds, in the order of [`refusal::GrantRefusal`], of which the last is that no placement is
//! admissible; then nothing has changed. Or it is a fault of the device, after which the book is
//! only read, or want of memory. [`refusal`](mod@refusal) tells which refusal holds before any
//! placement is sought.
#![tactic(auto)]

pub mod fault;
pub mod grant;
pub mod refusal;
