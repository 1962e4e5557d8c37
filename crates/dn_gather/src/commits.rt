//! The commits of pieces, one after another.

ghost use Rattle.std.specs.Prelude.{◌≡◌, ◌-◌, ◌≤◌, ◌∷◌, [], ◌++◌, true, false, length, is_err, OnOk, OnErr};
ghost use Rattle.dn_kind.specs.Terms.{kinds_of};
ghost use Rattle.dn_tables.specs.Terms.{words_of};
ghost use Rattle.dn_book.specs.Terms.{AreAdded, IsCaught, IsChangedBook, IsGrantFor, MayChange, grant_events};
ghost use Rattle.dn_gather.specs.Terms.{AreCommitted, AreGrantsFor, piece_grant, grants_of};

use crate::piece::{Piece, piece_request};
use crate::scatter::Scatter;
use dn_base::device::{DeviceFault, DeviceOrMemory, Tables};
use dn_book::book::Book;
use dn_book::grant::Grant;
use dn_kind::kinded::KindedNet;
use dn_kind::rights::Rights;
use dn_tables::placement::{Hop, Placement};
use std::alloc::Global;

/// Commits a grant for each piece, in order, at a scattered placement. It takes no memory, since room is kept for all.
///
/// # Errors
///
/// The device failed in the writes of a piece. The pieces before it are live, and each name resolves for each access as
/// before the call or as with all pieces. The book is only read from then on.
pub(crate) fn commit_pieces<D: Tables>(
    alloc: Global,
    book: &mut Book,
    on: KindedNet,
    agent: u16,
    rights: Rights,
    pieces: &[Piece],
    scatter: &Scatter,
    device: &mut D,
) -> Result<(), DeviceFault>
    requires ready { MayChange meaning on book.old (D.units device.old) (D.words device.old) }
    requires some { 1 ≤ length pieces.now }
    requires room { length pieces.now ≤ book.old.spare }
    requires placed { AreGrantsFor on.net.now book.old.grants agent rights scatter.now.unit
        scatter.now.v pieces.now scatter.now.hops }
    ensures changed { IsChangedBook on.entry.net.now (kinds_of meaning on.entry.kinds.now) false
        result (is_err result) book.new (D.units device.new) (D.words device.new)
        (D.faults device.old) (D.faults device.new) }
    ensures committed { AreCommitted on.entry.net.now (kinds_of meaning on.entry.kinds.now)
        book.old.grants book.old.cleared (grants_of agent rights pieces.now scatter.now)
        (is_err result) (D.log device.old) (D.log device.new) (words_of book.new.set)
        book.new.grants }
{
    let hops = scatter.hops.as_slice();
    let mut a = scatter.v;
    for k in 0..pieces.len() {
        let piece = pieces[k];
        let grant = grant_of(alloc, agent, rights, piece, a, hops[k]);
        commit_piece(alloc, book, on, grant, device)?;
        a += piece.size;
    }
    Ok(())
}

/// Commits a grant for which room is kept.
fn commit_piece<D: Tables>(
    alloc: Global,
    book: &mut Book,
    on: KindedNet,
    grant: Grant,
    device: &mut D,
) -> Result<(), DeviceFault>
    requires ready { MayChange meaning on book.old (D.units device.old) (D.words device.old) }
    requires room { 1 ≤ book.old.spare }
    requires placed { IsGrantFor on.net.now book.old.grants grant }
    ensures granted { OnOk result (book.new.grants ≡ book.old.grants ++ grant ∷ []) }
    ensures refused { OnErr result (book.new.grants ≡ book.old.grants) }
    ensures spare { OnOk result (book.new.spare ≡ book.old.spare - 1) }
    ensures changed { IsChangedBook on.entry.net.now (kinds_of meaning on.entry.kinds.now) false
        result (is_err result) book.new (D.units device.new) (D.words device.new)
        (D.faults device.old) (D.faults device.new) }
    ensures added { AreAdded (grant_events on.entry.net.now (kinds_of meaning on.entry.kinds.now)
        book.old.grants book.old.cleared grant) (is_err result) (D.log device.old)
        (D.log device.new) }
    ensures caught { is_err result ≡ true → IsCaught on.entry.net.now
        (kinds_of meaning on.entry.kinds.now) (words_of book.new.set) book.old.grants
        (book.old.grants ++ grant ∷ []) }
{
    match book.commit(alloc, on, grant, device) {
        Ok(()) => Ok(()),
        Err(DeviceOrMemory::Device) => Err(DeviceFault),
        Err(DeviceOrMemory::OutOfMemory) => unreachable!(),
    }
}

/// The grant of a piece at a hop, from an address of the agent on.
fn grant_of(alloc: Global, agent: u16, rights: Rights, piece: Piece, a: u64, hop: Hop) -> Grant
    ensures { result ≡ piece_grant agent rights a piece hop }
{
    Grant {
        id: piece.id,
        request: piece_request(agent, rights, piece),
        placement: Placement::new(alloc, a, &[hop], 0),
    }
}
