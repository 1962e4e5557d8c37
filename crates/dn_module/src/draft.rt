//! The nodes that declarations make, before the nodes to which they refer have numbers.

use dn_base::items::Items;
use dn_base::text::Text;
use dn_net::node::{Block, Role};
use dn_scope::scoped::ScopedName;

/// A node as it is declared, with the full names of the nodes to which it refers.
#[derive(Drop)]
pub struct Draft {
    /// The line of the declaration's first token, counted from 1.
    pub line: u32,
    pub role: Role,
    /// The full name.
    pub name: Text,
    pub accepts: Items<Block>,
    pub entries: Items<DraftEntry>,
    /// The full name of the node that serves the rest.
    pub over: Option<ScopedName>,
    pub unit: Option<DraftUnit>,
}

/// A map block and its destinations.
#[derive(Drop)]
pub struct DraftEntry {
    pub block: Block,
    pub dests: Items<DraftDest>,
}

/// A destination: the full name of its node, and the address to which the block's first one goes.
#[derive(Drop)]
pub struct DraftDest {
    pub to: ScopedName,
    pub addr: u64,
}

/// A unit as it is declared, with the full names of its ports.
#[derive(Drop)]
pub struct DraftUnit {
    /// The place of the unit's kind in the list of kinds.
    pub kind: u8,
    /// The exponent of a slot's number of addresses.
    pub page: u8,
    pub slots: u32,
    /// Outputs are below `2^reach`.
    pub reach: u8,
    /// The full names of the nodes to which it sends.
    pub ports: Items<ScopedName>,
}
