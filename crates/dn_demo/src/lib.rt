//! The demonstration: a text that is made from one number, and the line that sums up what came of
//! it.
//!
//! ```text
//! let text = text::demo_text(alloc, 16)?;             // 16 agents, 256 grants, 128 revokes
//! let line = summary::summary_text(alloc, summary)?;
//! ```
//!
//! [`text::demo_text`] makes a platform of so many agents, each behind a translation unit of its
//! own, with commands that grant sixteen buffers to each agent and revoke every second one.
//! [`summary::summary_text`] prints what was counted after them. Both texts are those of their
//! definitions.
#![tactic(auto)]

pub mod summary;
pub mod text;

pub use dn_base::OutOfMemory;
