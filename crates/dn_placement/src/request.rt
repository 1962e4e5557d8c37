//! What is asked for.

use dn_kind::rights::Rights;

/// A buffer for an agent: so many addresses of a node, from a base on, with these rights.
#[derive(Clone, Copy, Debug, PartialEq, Eq)]
pub struct Request {
    /// The number of the agent's node.
    pub agent: u16,
    /// The number of the node that accepts the buffer.
    pub node: u16,
    /// The first address of the buffer in its node.
    pub base: u64,
    /// How many addresses it has.
    pub size: u64,
    /// What the agent may do with it: read, write or both.
    pub rights: Rights,
}
