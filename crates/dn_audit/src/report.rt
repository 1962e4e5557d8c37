//! What an audit says of an image.

use dn_base::items::Items;
use dn_interval::{Rows, Span};
use dn_kind::rights::Access;

/// What an agent sees for an access: the normal rows of its addresses.
#[derive(Drop)]
pub struct Seen {
    pub agent: u16,
    pub access: Access,
    pub rows: Rows,
}

/// A slot with a shut-out record: its gate is set in the image, and it holds no record.
#[derive(Clone, Copy, Debug, PartialEq, Eq)]
pub struct Shut {
    pub unit: u16,
    pub slot: u32,
}

/// Addresses of a node that two or more agents see, and all agents that see them, ascending.
#[derive(Drop)]
pub struct Shared {
    pub node: u16,
    pub span: Span,
    pub agents: Items<u16>,
}

/// What an audit says of an image.
#[derive(Drop)]
pub struct AuditReport {
    /// How many bytes the image has.
    pub bytes: u64,
    /// How many slots hold a record.
    pub records: u32,
    /// What each agent sees, for reading and then for writing, by the numbers of their nodes.
    pub views: Items<Seen>,
    /// The slots with a shut-out record, ascending.
    pub shut: Items<Shut>,
    /// The names that two or more agents see, ascending by node and address.
    pub shared: Items<Shared>,
}
