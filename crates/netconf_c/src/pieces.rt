//! The call of C that grants a buffer in pieces.

ghost use Rattle.std.specs.Prelude.{◌≡◌, ◌≢◌, ◌≤◌, ◌⊎◌, ◌↔◌, ◌++◌, drop, false, length, map, take, true, IsTrue, None};
ghost use Rattle.dn_kind.specs.Terms.{are_rights};
ghost use Rattle.netconf_c.specs.Gathering.{IsGatheredIn, IsGatherRefusedBy, IsGatherUnrefusedIn, IsToldOf, are_asked, gather_status, piece_of, rights_by};

use crate::rights_of;
use crate::status::{BAD_ARGUMENT, CLOSED, DONE, NO_MEMORY};
use dn_gather::piece::Piece;
use dn_gather::refusal::GatherRefusal;
use dn_handle::Handle;
use dn_kind::rights::Rights;
use dn_queue::change::ChangeFault;
use std::alloc::Global;

/// A piece of a buffer, as C has it.
#[repr(C)]
#[derive(Clone, Copy, Default)]
pub struct BufferPiece {
    /// The id of its grant.
    pub id: u32,
    /// The number of the node that accepts it.
    pub node: u16,
    /// 0.
    pub unused: u16,
    /// Its first address in its node.
    pub base: u64,
    /// How many addresses it has.
    pub size: u64,
}

/// The most pieces of a buffer.
const MOST: usize = 8;

/// Grants one to eight pieces so that an agent sees them at consecutive addresses, each under its
/// own id. `address` is then the first of these addresses. At a refusal that is of a piece `piece`
/// is its number, and at the status of a node that does not accept it `address` is the first
/// address that it does not accept.
#[unsafe(no_mangle)]
pub extern "C" fn netconf_gather(
    alloc: Global,
    session: &mut Handle,
    agent: u16,
    pieces: &[BufferPiece],
    rights: u8,
    address: &mut u64,
    piece: &mut u32,
) -> u32
    ensures gathered { result ≡ 0 → IsGatheredIn session.old.held agent (rights_by rights)
        (map piece_of pieces.now) address.new session.new.held }
    ensures refused { 16 ≤ result → IsGatherRefusedBy session.old.held agent (rights_by rights)
        (map piece_of pieces.now) result piece.new address.new }
    ensures memory { result ≡ 3 → IsGatherUnrefusedIn session.old.held agent
        (map piece_of pieces.now) }
    ensures wrong { result ≡ 2 ↔ are_asked rights (length pieces.now) ≡ false }
    ensures closed { result ≡ 1
        ↔ (are_asked rights (length pieces.now) ≡ true) × (session.old.held ≡ None) }
    ensures statuses { (result ≤ 3) ⊎ ((16 ≤ result) × (result ≤ 21)) }
    ensures untold { result ≢ 0 → result ≢ 19 → address.new ≡ address.old }
    ensures unnumbered { result ≢ 16 → result ≢ 18 → result ≢ 19 → piece.new ≡ piece.old }
    ensures unchanged { result ≢ 0 → session.new.held ≡ session.old.held }
{
    let Some(rights) = rights_of(rights) else {
        return BAD_ARGUMENT;
    };
    if pieces.is_empty() || pieces.len() > MOST {
        return BAD_ARGUMENT;
    }
    let mut all = [NO_PIECE; MOST];
    copy_pieces(pieces, &mut all);
    gather(
        alloc,
        session,
        agent,
        &all[..pieces.len()],
        rights,
        address,
        piece,
    )
}

/// A piece of nothing.
const NO_PIECE: Piece = Piece {
    id: 0,
    node: 0,
    base: 0,
    size: 0,
};

/// A piece that C has.
fn piece_of(piece: BufferPiece) -> Piece
    ensures { result ≡ piece_of piece }
{
    Piece {
        id: piece.id,
        node: piece.node,
        base: piece.base,
        size: piece.size,
    }
}

/// Writes pieces to the front of a slice.
fn copy_pieces(pieces: &[BufferPiece], out: &mut [Piece])
    requires { length pieces.now ≤ length out.old }
    ensures { out.new ≡ map piece_of (take (length pieces.now) pieces.now)
        ++ drop (length pieces.now) out.old }
{
    for at in 0..pieces.len() {
        out[at] = piece_of(pieces[at]);
    }
}

/// Grants pieces, one to eight.
fn gather(
    alloc: Global,
    session: &mut Handle,
    agent: u16,
    pieces: &[Piece],
    rights: Rights,
    address: &mut u64,
    piece: &mut u32,
) -> u32
    requires rights { IsTrue (are_rights rights) }
    requires some { 1 ≤ length pieces.now }
    requires few { length pieces.now ≤ 8 }
    ensures gathered { result ≡ 0 → IsGatheredIn session.old.held agent rights pieces.now
        address.new session.new.held }
    ensures refused { 16 ≤ result → IsGatherRefusedBy session.old.held agent rights pieces.now
        result piece.new address.new }
    ensures memory { result ≡ 3 → IsGatherUnrefusedIn session.old.held agent pieces.now }
    ensures closed { result ≡ 1 ↔ session.old.held ≡ None }
    ensures statuses { (result ≤ 1) ⊎ ((result ≡ 3) ⊎ ((16 ≤ result) × (result ≤ 21))) }
    ensures untold { result ≢ 0 → result ≢ 19 → address.new ≡ address.old }
    ensures unnumbered { result ≢ 16 → result ≢ 18 → result ≢ 19 → piece.new ≡ piece.old }
    ensures unchanged { result ≢ 0 → session.new.held ≡ session.old.held }
{
    let Some(mut opened) = session.take(alloc) else {
        return CLOSED;
    };
    let status = match opened.gather(alloc, agent, pieces, rights) {
        Ok(first) => {
            *address = first;
            DONE
        }
        Err(ChangeFault::Refused(why)) => refused(why, address, piece),
        Err(ChangeFault::OutOfMemory) => NO_MEMORY,
    };
    *session = Handle::of(opened);
    status
}

/// The status of a refusal, 16 to 21. The number of the piece that it is of, and the first address
/// that is not accepted, are left where there are such.
fn refused(why: GatherRefusal, address: &mut u64, piece: &mut u32) -> u32
    ensures value { result ≡ gather_status why }
    ensures least { 16 ≤ result }
    ensures most { result ≤ 21 }
    ensures told { IsToldOf why piece.new address.new }
    ensures untold { result ≢ 19 → address.new ≡ address.old }
    ensures unnumbered { result ≢ 16 → result ≢ 18 → result ≢ 19 → piece.new ≡ piece.old }
{
    match why {
        GatherRefusal::IdUsed { piece: number } => {
            *piece = number;
            16
        }
        GatherRefusal::NoAgent => 17,
        GatherRefusal::NoTarget { piece: number } => {
            *piece = number;
            18
        }
        GatherRefusal::NotAccepted {
            piece: number,
            first,
        } => {
            *piece = number;
            *address = first;
            19
        }
        GatherRefusal::BookFull => 20,
        GatherRefusal::NoPlacement => 21,
    }
}
