//! Spans of addresses, sets of them, and normal rows.
//!
//! An address is a number up to [`TOP`]. A [`Span`] is a run of addresses, and a [`SpanSet`] a set
//! of addresses, which contracts see as the ascending list of its maximal spans. A [`Seg`] gives
//! each address of a span a name, and [`Rows`] are the normal rows of what segments give:
//! ascending, apart, and as few as can be.
//!
//! ```text
//! let rows = Rows::normal(alloc, &segs)?;
//! let row = rows.at(0x1000);              // the row of an address, with its names
//! ```
//!
//! [`strands_of`] joins segments without cutting any: there are never more [`Strand`]s than
//! segments, where rows of what overlaps can have as many names as segments times rows. Where names
//! go on by the rows of their nodes, [`onward::follow`] gives the segments of what they come to.
//! The laws say that each set of spans and each relation has one such list.
#![tactic(auto)]

pub mod laws;
pub mod onward;
pub mod row;
pub mod rows;
mod runs;
pub mod span;
pub mod span_set;
pub mod strand;
pub mod strands;

pub use row::{End, Row, Seg};
pub use rows::Rows;
pub use runs::are_in_turn;
pub use span::{Span, TOP};
pub use span_set::SpanSet;
pub use strand::Strand;
pub use strands::strands_of;
