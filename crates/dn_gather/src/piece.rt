//! The pieces of a buffer.

ghost use Rattle.std.specs.Prelude.{◌≡◌};
ghost use Rattle.dn_gather.specs.Terms.{piece_request};

use dn_kind::rights::Rights;
use dn_placement::request::Request;

/// A piece of a buffer, which becomes a grant of its own.
#[derive(Clone, Copy, Debug, PartialEq, Eq)]
pub struct Piece {
    /// The id of its grant.
    pub id: u32,
    /// The number of the node that accepts it.
    pub node: u16,
    /// Its first address in its node.
    pub base: u64,
    /// How many addresses it has.
    pub size: u64,
}

/// What an agent asks for in a piece.
pub fn piece_request(agent: u16, rights: Rights, piece: Piece) -> Request
    ensures { result ≡ piece_request agent rights piece }
{
    Request {
        agent,
        node: piece.node,
        base: piece.base,
        size: piece.size,
        rights,
    }
}
