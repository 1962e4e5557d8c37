//! Why bytes are no image of a net.

use thiserror::Error;

/// The first field of bytes that is not as in an image of the net, or want of memory. For each
/// field it is looked first whether the bytes end before it does.
#[derive(Clone, Copy, Debug, PartialEq, Eq, Error)]
pub enum ImageFault {
    /// The bytes end inside a field; `at` is their number.
    #[error("Short")]
    Short { at: u64 },
    /// The mark (`at` is 0), the version (4) or the number of units (6) is another.
    #[error("Header")]
    Header { at: u64 },
    /// A unit's head is not the net's; `unit` is the place of the head among the heads, from 0.
    #[error("Shape")]
    Shape { unit: u16 },
    /// Bytes follow the last word; `at` is the place of the first of them.
    #[error("Trailing")]
    Trailing { at: u64 },
    /// There was no memory for the words.
    #[error("OutOfMemory")]
    OutOfMemory,
}
