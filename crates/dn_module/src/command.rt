//! The commands of a script.

use dn_base::items::Items;
use dn_base::text::Text;
use dn_parse::syntax::Mode;

/// A command of a script. The text of a revoke is its id. The mode of a command is the access that it
/// says, where it says one.
#[derive(Drop)]
pub enum Command {
    /// What an address of a node comes to.
    Resolve(Target, u64, Mode),
    /// What an address of an agent comes to under the tables.
    Lookup(Target, u64, Mode),
    /// What an agent reaches.
    View(Target, Mode),
    /// To let an agent reach a buffer.
    Grant {
        /// The id by which the grant can be revoked.
        id: Text,
        /// The agent that asks for the buffer.
        agent: Target,
        /// The node in which the buffer lies.
        node: Target,
        /// The buffer's first address there.
        base: u64,
        /// How many addresses the buffer has.
        size: u64,
        /// The access that the agent asks for.
        mode: Mode,
    },
    /// To send a line of an agent to an interrupt controller.
    Route {
        /// The id by which the route can be revoked.
        id: Text,
        /// The agent that has the line.
        agent: Target,
        /// The number of the line.
        line: u64,
        /// The node to which the line is sent.
        node: Target,
    },
    /// To take a grant or a route back.
    Revoke(Text),
    /// The image of the tables.
    Dump,
    /// The net with each node split.
    Split,
    /// The net with a node absorbed.
    Absorb(Target),
    /// A unit's tables as a tree of pages.
    Radix {
        /// The unit.
        node: Target,
        /// The most pages that the tree may have.
        pool: u64,
    },
    /// To let an agent reach pieces of memory, one after another at addresses of its own.
    Gather {
        /// The agent that asks for the pieces.
        agent: Target,
        /// The pieces, one to eight, in the order of the agent's addresses.
        pieces: Items<PieceTarget>,
        /// The access that the agent asks for.
        mode: Mode,
    },
}

/// A piece of memory as a gather names it.
#[derive(Drop)]
pub struct PieceTarget {
    /// The id by which the piece can be revoked.
    pub id: Text,
    /// The node in which the piece lies.
    pub node: Target,
    /// The piece's first address there.
    pub base: u64,
    /// How many addresses the piece has.
    pub size: u64,
}

/// A node as a command names it.
#[derive(Drop)]
pub struct Target {
    /// The full name as the command gives it.
    pub text: Text,
    /// The node's number; `None` where no node has that name.
    pub node: Option<u16>,
}
