//! Pieces that are granted, whose events a queue keeps: room for them is made first, so that none
//! is lost.

ghost use Rattle.std.specs.Prelude.{◌≡◌, ◌≤◌, length, None, Err, IfOk, OnErr, IsTrue};
ghost use Rattle.dn_kind.specs.Terms.{are_rights, kinds_of};
ghost use Rattle.dn_grant.specs.Terms.{MayGrant};
ghost use Rattle.dn_gather.specs.Gather.{IsGatherRefused};
ghost use Rattle.dn_gather.specs.declared.refusal.GatherRefusal.{GatherRefusal as Why};
ghost use Rattle.dn_queue.specs.Terms.{AreUnchanged};
ghost use Rattle.dn_queue.specs.declared.change.ChangeFault.TheVariants.{Refused};
ghost use Rattle.dn_session.specs.Terms.{IsBookGathered};

use crate::room::pieces_room;
use dn_book::book::Book;
use dn_gather::gather::gather;
use dn_gather::piece::Piece;
use dn_gather::refusal::GatherRefusal;
use dn_grant::fault::GrantFault;
use dn_kind::rights::Rights;
use dn_queue::change::ChangeFault;
use dn_queue::queue::Queue;
use dn_view::system::System;
use std::alloc::Global;

/// Grants pieces, and keeps their events in a queue after those that are there.
///
/// # Errors
///
/// `Refused` with the first refusal that holds, and `OutOfMemory` for want of memory: nothing has
/// changed.
pub(crate) fn gather_kept(
    alloc: Global,
    book: &mut Book,
    queue: &mut Queue,
    system: System,
    agent: u16,
    pieces: &[Piece],
    rights: Rights,
) -> Result<u64, ChangeFault<GatherRefusal>>
    requires ready { MayGrant meaning system book.old queue.old.units None }
    requires rights { IsTrue (are_rights rights) }
    requires some { 1 ≤ length pieces.now }
    requires few { length pieces.now ≤ 8 }
    ensures gathered { IfOk result (λ v. IsBookGathered system.entry.on.net.now
        (kinds_of meaning system.entry.on.kinds.now) agent rights pieces.now v book.old book.new
        queue.old queue.new) }
    ensures refused { (why : Why) → result ≡ Err (Refused why)
        → IsGatherRefused system.entry.on.net.now book.old.grants agent rights pieces.now why }
    ensures unchanged { OnErr result (AreUnchanged book.old book.new queue.old queue.new) }
{
    let room = pieces_room(system, pieces);
    if queue.reserve(room).is_err() {
        return Err(ChangeFault::OutOfMemory);
    }
    match gather(alloc, book, system, agent, pieces, rights, queue) {
        Ok(v) => Ok(v),
        Err(GrantFault::Refused(why)) => Err(ChangeFault::Refused(why)),
        Err(GrantFault::OutOfMemory) => Err(ChangeFault::OutOfMemory),
        Err(GrantFault::Device) => {
            queue.facts();
            unreachable!()
        }
    }
}
