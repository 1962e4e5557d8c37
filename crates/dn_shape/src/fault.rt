//! Why a net is not split, and why a node is not absorbed.

use thiserror::Error;

/// Why a net is not split.
#[derive(Clone, Copy, Debug, PartialEq, Eq, Error)]
pub enum SplitFault {
    /// The split net would pass a limit: 1,024 nodes, 16,384 parts, 8 destinations of an entry.
    /// The first of these is told.
    #[error("TooMany")]
    TooMany { limit: u32 },
    /// There was no memory for the split net.
    #[error("OutOfMemory")]
    OutOfMemory,
}

/// Why a node cannot be absorbed.
#[derive(Clone, Copy, Debug, PartialEq, Eq)]
pub enum Why {
    /// It accepts an address, or it is a `vectors` node.
    Accepts,
    /// It is an agent.
    Agent,
    /// It is a unit.
    Unit,
    /// It is a port of a unit.
    Port,
    /// One of its entries, or its `over`, leads to the node itself.
    SelfStep,
}

/// Why a node is not absorbed.
#[derive(Clone, Copy, Debug, PartialEq, Eq, Error)]
pub enum AbsorbFault {
    /// The node cannot be absorbed. The first reason is told.
    #[error("NotAbsorbable")]
    NotAbsorbable { why: Why },
    /// The net without steps to the node would pass a limit: 16,384 parts, 8 destinations of an
    /// entry. The first of these is told.
    #[error("TooMany")]
    TooMany { limit: u32 },
    /// There was no memory for the net.
    #[error("OutOfMemory")]
    OutOfMemory,
}
