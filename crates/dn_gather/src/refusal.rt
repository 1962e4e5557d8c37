//! Why a buffer in pieces is refused, and the refusals that need no search.

ghost use Rattle.std.specs.Prelude.{◌≡◌, ◌+◌, ◌<◌, ◌≤◌, ◌==◌, None, nat_lt, length};
ghost use Rattle.std.specs.List.{All, list_any};
ghost use Rattle.dn_gather.specs.Terms.{address_refusal, first_refused, gather_refusal, is_used, target_refusal, used_refusal};

use crate::piece::Piece;
use dn_book::book::Book;
use dn_net::checked::CheckedNet;
use dn_net::net::Net;
use dn_place::accepted::{is_target, refused_address};
use dn_placement::roles::is_agent;
use thiserror::Error;

/// Why a buffer in pieces is refused. The first that holds is told, in this order; each that is of a piece tells the first
/// such piece, counted from 0.
#[derive(Clone, Copy, Debug, PartialEq, Eq, Error)]
#[error("{:?}", self)]
pub enum GatherRefusal {
    /// A live grant or an earlier piece has the id.
    #[error("IdUsed {piece}")]
    IdUsed { piece: u32 },
    /// The agent's number is that of no node, or of a node that is no agent.
    NoAgent,
    /// The piece's node is that of no node, or the node's addresses are interrupt vectors.
    #[error("NoTarget {piece}")]
    NoTarget { piece: u32 },
    /// The node does not accept all of the piece: `first` is the first address that it does not accept, and the base
    /// where the piece is empty.
    #[error("NotAccepted {piece} {first:#x}")]
    NotAccepted { piece: u32, first: u64 },
    /// The live grants and the pieces are more than 4,096.
    BookFull,
    /// No scattered placement gives the agent exactly the pieces.
    NoPlacement,
}

/// The most grants of a book.
const MAX_GRANTS: usize = 4096;

/// The first refusal of pieces that holds before a placement is sought. It takes no memory.
pub fn refusal(
    book: &Book,
    checked: CheckedNet,
    agent: u16,
    pieces: &[Piece],
) -> Option<GatherRefusal>
    requires few { length pieces.now ≤ 8 }
    ensures same { result ≡ gather_refusal checked.entry.net.now book.now.grants agent pieces.now }
    ensures none { result ≡ None →
        gather_refusal checked.entry.net.now book.now.grants agent pieces.now ≡ None }
{
    if let Some(why) = used_piece(book, pieces) {
        return Some(why);
    }
    if !is_agent(checked.net, agent) {
        return Some(GatherRefusal::NoAgent);
    }
    if let Some(why) = untargeted_piece(checked.net, pieces) {
        return Some(why);
    }
    if let Some(why) = unaccepted_piece(checked, pieces) {
        return Some(why);
    }
    if is_too_full(book, pieces) {
        return Some(GatherRefusal::BookFull);
    }
    None
}

/// Whether a book has no room for all pieces.
fn is_too_full(book: &Book, pieces: &[Piece]) -> bool
    requires few { length pieces.now ≤ 8 }
    ensures { result ≡ nat_lt 4096 (length book.now.grants + length pieces.now) }
{
    book.grants().len() > MAX_GRANTS - pieces.len()
}

/// The first piece whose id a live grant or an earlier piece has.
fn used_piece(book: &Book, pieces: &[Piece]) -> Option<GatherRefusal>
    requires few { length pieces.now ≤ 8 }
    ensures { result ≡ first_refused (used_refusal book.now.grants pieces.now) 0 pieces.now }
{
    for i in 0..pieces.len() {
        if is_used(book, &pieces[..i], pieces[i].id) {
            return Some(GatherRefusal::IdUsed { piece: i as u32 });
        }
    }
    None
}

/// Whether a live grant or an earlier piece has an id.
fn is_used(book: &Book, earlier: &[Piece], id: u32) -> bool
    ensures { result ≡ is_used book.now.grants earlier.now id }
{
    book.has_id(id) || has_piece(earlier, id)
}

/// Whether one of the pieces has an id.
fn has_piece(pieces: &[Piece], id: u32) -> bool
    ensures { result ≡ list_any (λ p. p.id == id) pieces.now }
{
    pieces.iter().any(|piece| piece.id == id)
}

/// The first piece whose node is none, or has interrupt vectors.
fn untargeted_piece(net: &Net, pieces: &[Piece]) -> Option<GatherRefusal>
    requires few { length pieces.now ≤ 8 }
    ensures same { result ≡ first_refused (target_refusal net.now) 0 pieces.now }
    ensures there { result ≡ None → All (λ p. p.node < length net.now) pieces.now }
{
    for i in 0..pieces.len() {
        if !is_target(net, pieces[i].node) {
            return Some(GatherRefusal::NoTarget { piece: i as u32 });
        }
    }
    None
}

/// The first piece of which its node does not accept an address, with the first such address.
fn unaccepted_piece(checked: CheckedNet, pieces: &[Piece]) -> Option<GatherRefusal>
    requires few { length pieces.now ≤ 8 }
    requires there { All (λ p. p.node < length checked.net.now) pieces.now }
    ensures { result ≡ first_refused (address_refusal checked.entry.net.now) 0 pieces.now }
{
    for i in 0..pieces.len() {
        let piece = pieces[i];
        if let Some(first) = refused_address(checked, piece.node, piece.base, piece.size) {
            let piece = i as u32;
            return Some(GatherRefusal::NotAccepted { piece, first });
        }
    }
    None
}
