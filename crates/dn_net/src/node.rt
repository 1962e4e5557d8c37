//! Names, and the parts of a node's declaration.

ghost use Rattle.std.specs.Prelude.{◌≡◌};
ghost use Rattle.dn_net.specs.Terms.{has_plain_shape, is_plain_shape, within};

use dn_base::items::Items;
use dn_base::text::Text;

/// The last address: addresses are 0 to 2^56 - 1.
pub const TOP: u64 = 0xff_ffff_ffff_ffff;

/// The most nodes of a net.
pub const MAX_NODES: usize = 1024;

/// The largest exponent of the number of addresses of a unit's slot.
pub const MAX_PAGE: u8 = 40;

/// The most slots of a unit.
pub const MAX_SLOTS: u32 = 262_144;

/// The largest exponent of a unit's outputs.
pub const MAX_REACH: u8 = 56;

/// The most ports of a unit.
pub const MAX_PORTS: u8 = 8;

/// A name: an address in a node.
#[derive(Clone, Copy, Debug, PartialEq, Eq)]
pub struct Name {
    /// The node's number, in order of declaration from 0.
    pub node: u16,
    /// The address in that node.
    pub addr: u64,
}

/// The addresses from `lo` to `hi`, both included.
#[derive(Clone, Copy, Debug, PartialEq, Eq)]
pub struct Block {
    pub lo: u64,
    pub hi: u64,
}

impl Block {
    /// Whether the address is one of the block's.
    pub fn has(self, addr: u64) -> bool
        ensures { result ≡ within addr self }
    {
        self.lo <= addr && addr <= self.hi
    }
}

/// Where a map block is sent: its first address goes to `addr` of `node`.
#[derive(Clone, Copy, Debug, PartialEq, Eq)]
pub struct Dest {
    pub node: u16,
    pub addr: u64,
}

/// A map block and its destinations, 1 to 8.
#[derive(Drop)]
pub struct Entry {
    pub block: Block,
    pub dests: Items<Dest>,
}

/// What a node is.
#[derive(Clone, Copy, Debug, PartialEq, Eq)]
pub enum Role {
    Plain,
    /// A node from which addresses are asked, such as a core or a DMA engine.
    Agent,
    /// A node whose addresses are interrupt vectors.
    Vectors,
    /// A translation unit.
    Unit,
}

/// A translation unit: it divides its input into `slots` slots of `2^page` addresses.
#[derive(Drop)]
pub struct Unit {
    /// The place of the unit's kind in the list of kinds.
    pub kind: u8,
    /// The exponent of a slot's number of addresses.
    pub page: u8,
    /// How many slots it has.
    pub slots: u32,
    /// Outputs are below `2^reach`.
    pub reach: u8,
    /// The nodes to which it sends, by number.
    pub ports: Items<u16>,
}

impl Unit {
    /// Whether a unit may have this one's shape, whatever its kind: a page of at most [`MAX_PAGE`], 1 to
    /// [`MAX_SLOTS`] slots, a reach from the page to [`MAX_REACH`], and 1 to [`MAX_PORTS`] ports.
    pub fn has_plain_shape(&self) -> bool
        ensures { result ≡ has_plain_shape self.now }
    {
        is_plain_shape(
            self.page,
            self.slots,
            self.reach,
            self.ports.as_slice().len(),
        )
    }
}

/// Whether a unit may have this page, so many slots, this reach and so many ports, whatever its kind.
pub fn is_plain_shape(page: u8, slots: u32, reach: u8, ports: usize) -> bool
    ensures { result ≡ is_plain_shape page slots reach ports }
{
    page <= MAX_PAGE
        && 1 <= slots
        && slots <= MAX_SLOTS
        && page <= reach
        && reach <= MAX_REACH
        && 1 <= ports
        && ports <= usize::from(MAX_PORTS)
}

/// The declaration of a node. `unit` is some exactly where the role is `Unit`, and then the
/// other parts are empty.
#[derive(Drop)]
pub struct NodeDecl {
    /// The full name.
    pub text: Text,
    pub role: Role,
    pub accepts: Items<Block>,
    pub entries: Items<Entry>,
    /// The node that serves every address that is neither accepted nor in a map block.
    pub over: Option<u16>,
    pub unit: Option<Unit>,
}
