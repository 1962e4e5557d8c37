//! Granting a buffer in pieces.

ghost use Rattle.std.specs.Prelude.{◌≤◌, length, IsTrue};
ghost use Rattle.dn_kind.specs.Terms.{are_rights, kinds_of};
ghost use Rattle.dn_tables.specs.Terms.{words_of};
ghost use Rattle.dn_grant.specs.Terms.{IsGrantDone, MayGrant};
ghost use Rattle.dn_gather.specs.Terms.{IsGatherLogged, IsGatherOutcome};

use crate::booked::first_in_book;
use crate::commits::commit_pieces;
use crate::piece::Piece;
use crate::refusal::{GatherRefusal, refusal};
use dn_base::device::Tables;
use dn_book::book::Book;
use dn_grant::fault::GrantFault;
use dn_kind::rights::Rights;
use dn_net::checked::CheckedNet;
use dn_view::system::System;
use std::alloc::Global;

/// Grants one to eight pieces so that the agent sees them at consecutive addresses, at the first admissible scattered
/// placement, and answers the first of these addresses. Each piece becomes a grant of its own. All memory is taken before
/// the first call of the device.
///
/// # Errors
///
/// The first of these that holds. `IdUsed`, `NoAgent`, `NoTarget`, `NotAccepted` and `BookFull` exactly where the
/// definition of the refusal says so; they take no memory. `NoPlacement` exactly where no scattered placement is
/// admissible. `OutOfMemory` for want of memory. After all of these nothing has changed. `Device` only where the device's
/// count of faults rose in this call, or stands at the last value of its counter: the pieces before the one whose write
/// failed are live, and each name resolves for each access as before or as with all pieces. The book is only read from
/// then on.
pub fn gather<D: Tables>(
    alloc: Global,
    book: &mut Book,
    system: System,
    agent: u16,
    pieces: &[Piece],
    rights: Rights,
    device: &mut D,
) -> Result<u64, GrantFault<GatherRefusal>>
    requires ready { MayGrant meaning system book.old (D.units device.old) (D.words device.old) }
    requires rights { IsTrue (are_rights rights) }
    requires some { 1 ≤ length pieces.now }
    requires few { length pieces.now ≤ 8 }
    ensures { IsGrantDone meaning system.entry.on
        (IsGatherOutcome system.entry.on.net.now book.old.grants agent rights pieces.now)
        (λ failed log log'. IsGatherLogged system.entry.on.net.now
        (kinds_of meaning system.entry.on.kinds.now) book.old.grants book.old.cleared agent
        rights pieces.now failed log log' (words_of book.new.set) book.new.grants)
        result book.old book.new D.units D.words D.faults D.log device.old device.new }
{
    if let Some(why) = refusal(book, CheckedNet { net: system.on.net }, agent, pieces) {
        return Err(GrantFault::Refused(why));
    }
    let scatter = match first_in_book(alloc, book, system, agent, rights, pieces) {
        Ok(Some(scatter)) => scatter,
        Ok(None) => return Err(GrantFault::Refused(GatherRefusal::NoPlacement)),
        Err(_) => return Err(GrantFault::OutOfMemory),
    };
    let Ok(()) = book.reserve(pieces.len() as u32) else {
        return Err(GrantFault::OutOfMemory);
    };
    match commit_pieces(
        alloc, book, system.on, agent, rights, pieces, &scatter, device,
    ) {
        Ok(()) => Ok(scatter.v),
        Err(_) => Err(GrantFault::Device),
    }
}
