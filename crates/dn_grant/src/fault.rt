//! Why a call grants nothing.

use std::fmt::Display;
use thiserror::Error;

/// Why a call grants nothing, where it may be refused for such reasons.
#[derive(Clone, Copy, Debug, PartialEq, Eq, Error)]
pub enum GrantFault<R: Display> {
    /// It is refused: the first refusal that holds.
    #[error("{0}")]
    Refused(R),
    /// The device failed. It counts its faults.
    #[error("Device")]
    Device,
    /// There was no memory for the search or the grants.
    #[error("OutOfMemory")]
    OutOfMemory,
}
