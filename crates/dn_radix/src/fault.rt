//! What is answered in place of a tree, of words or of a record.

use thiserror::Error;

/// Why no tree is made.
#[derive(Clone, Copy, Debug, PartialEq, Eq, Error)]
pub enum RadixFault {
    /// The tree has more pages than the pool; `need` is the number that it has.
    #[error("Pool")]
    Pool { need: u32 },
    /// There was no memory for the tree.
    #[error("OutOfMemory")]
    OutOfMemory,
}

/// Why no words are read.
#[derive(Clone, Copy, Debug, PartialEq, Eq, Error)]
pub enum LinearFault {
    /// The bytes are the tree of no list of so many words.
    #[error("NotRadix")]
    NotRadix,
    /// There was no memory for the words.
    #[error("OutOfMemory")]
    OutOfMemory,
}

/// An entry that leads to no page of the image; `at` is the entry's first byte. It is 0 also where
/// the image has fewer than 4,096 bytes, and so no first page.
#[derive(Clone, Copy, Debug, PartialEq, Eq, Error)]
#[error("Bad")]
pub struct Bad {
    pub at: u32,
}
