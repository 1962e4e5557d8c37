//! The command that grants a buffer in pieces.

ghost use Rattle.std.specs.Prelude.{◌≡◌, ◌≤◌, length, IfOk, IsTrue, OnOk};
ghost use Rattle.dn_kind.specs.Terms.{are_rights, kinds_of};
ghost use Rattle.dn_gather.specs.declared.refusal.GatherRefusal.TheVariants.{NotAccepted};
ghost use Rattle.dn_script.specs.Terms.{IsChangeDone, IsGatherTurn, IsReadyOn, gather_refused_text, gathered_text, numbered, piece_of, refused_piece_text, state_view, with_ids};

use crate::OutOfMemory;
use crate::change::{number_or_none, refused_reply};
use crate::halt::{RunHalt, refusal_or_halt, reply_or_halt};
use crate::ids::Ids;
use crate::machine::Machine;
use crate::state::{Session, keep_flats, kept_flats, renew};
use dn_base::device::Tables;
use dn_base::items::Items;
use dn_gather::gather::gather;
use dn_gather::piece::Piece;
use dn_gather::refusal::GatherRefusal;
use dn_kind::rights::Rights;
use dn_module::command::PieceTarget;
use dn_view::system::System;
use std::alloc::Global;

/// Grants pieces at the first admissible scattered placement, or refuses them.
pub fn gather_change<D: Tables>(
    alloc: Global,
    machine: Machine,
    state: &mut Session,
    agent: u16,
    pieces: &[PieceTarget],
    rights: Rights,
    device: &mut D,
) -> Result<Items<u8>, RunHalt>
    requires ready { IsReadyOn meaning machine state.old (D.units device.old) (D.words device.old) }
    requires rights { IsTrue (are_rights rights) }
    requires some { 1 ≤ length pieces.now }
    requires few { length pieces.now ≤ 8 }
    ensures { IsChangeDone meaning machine.entry (IsGatherTurn
        (kinds_of meaning machine.entry.on.kinds.now) machine.entry.on.net.now
        (state_view state.old) agent rights pieces.now) result state.old state.new
        D.units D.words D.faults D.log device.old device.new }
{
    let asked = number_pieces(alloc, &mut state.ids, pieces)?;
    keep_flats(alloc, machine, &mut state.flats)?;
    let flats = kept_flats(&state.flats);
    let system = System {
        on: machine.on,
        flats,
    };
    match gather(
        alloc,
        &mut state.book,
        system,
        agent,
        &asked,
        rights,
        device,
    ) {
        Ok(v) => {
            renew(machine, state);
            reply_or_halt(gathered_reply(alloc, v, pieces.len()))
        }
        Err(fault) => {
            state.book.tables().facts();
            let why = refusal_or_halt(fault)?;
            reply_or_halt(gather_refused(alloc, why))
        }
    }
}

/// The pieces under the numbers of their ids, which come in order. `Err` is want of memory, or of numbers.
fn number_pieces(
    alloc: Global,
    ids: &mut Ids,
    pieces: &[PieceTarget],
) -> Result<Vec<Piece>, OutOfMemory>
    ensures pieces { IfOk result (λ v. v.items ≡ numbered ids.old pieces.now) }
    ensures ids { OnOk result (ids.new ≡ with_ids ids.old pieces.now) }
{
    let mut asked = Vec::with_capacity(alloc, pieces.len())?;
    for piece in pieces {
        let number = ids.number(alloc, piece.id.as_str())?;
        asked.push(piece_of(number, piece))?;
    }
    Ok(asked)
}

/// A piece under a number.
fn piece_of(number: u32, piece: &PieceTarget) -> Piece
    ensures { result ≡ piece_of number piece.now }
{
    Piece {
        id: number,
        node: number_or_none(piece.node.node),
        base: piece.base,
        size: piece.size,
    }
}

/// The reply to a gather.
fn gathered_reply(alloc: Global, v: u64, count: usize) -> Result<Items<u8>, OutOfMemory>
    ensures { IfOk result (λ text. text ≡ gathered_text v count) }
{
    let text = format!(in alloc; "gather at 0x{v:x} pieces {count}\n")?;
    Ok(Items::from_vec(text.into_bytes()))
}

/// The reply to a gather that is refused.
fn gather_refused(alloc: Global, why: GatherRefusal) -> Result<Items<u8>, OutOfMemory>
    ensures { IfOk result (λ text. text ≡ gather_refused_text why) }
{
    match why {
        GatherRefusal::IdUsed { piece } => refused_piece(alloc, "IdUsed", piece),
        GatherRefusal::NoAgent => refused_reply(alloc, "gather", "NoAgent"),
        GatherRefusal::NoTarget { piece } => refused_piece(alloc, "NoTarget", piece),
        GatherRefusal::NotAccepted { piece, first } => not_accepted(alloc, piece, first),
        GatherRefusal::BookFull => refused_reply(alloc, "gather", "BookFull"),
        GatherRefusal::NoPlacement => refused_reply(alloc, "gather", "NoPlacement"),
    }
}

/// The reply to a gather that is refused for a piece.
fn refused_piece(alloc: Global, refusal: &str, piece: u32) -> Result<Items<u8>, OutOfMemory>
    ensures { IfOk result (λ text. text ≡ refused_piece_text refusal.now piece) }
{
    let refusal = format!(in alloc; "{refusal} {piece}")?;
    refused_reply(alloc, "gather", refusal.as_str())
}

/// The reply to a gather of a piece of which an address is not accepted.
fn not_accepted(alloc: Global, piece: u32, first: u64) -> Result<Items<u8>, OutOfMemory>
    ensures { IfOk result (λ text. text ≡ gather_refused_text (NotAccepted piece first)) }
{
    let refusal = format!(in alloc; "NotAccepted {piece} 0x{first:x}")?;
    refused_reply(alloc, "gather", refusal.as_str())
}
