//! Changes of a book whose events a queue keeps: room for them is made first, so that none is lost.

ghost use Rattle.std.specs.Prelude.{◌≡◌, ◌++◌, ◌∷◌, [], false, true, None, Err, OnOk, OnErr};
ghost use Rattle.dn_net.specs.Chain.{Member};
ghost use Rattle.dn_kind.specs.Terms.{kinds_of};
ghost use Rattle.dn_book.specs.Terms.{IsGrantFor, MayChange, grant_events, has_id, revoke_events, without_id};
ghost use Rattle.dn_book.specs.declared.grant.Grant.{Grant as GrantPart};
ghost use Rattle.dn_queue.specs.Terms.{AreUnchanged, IsBookChanged};
ghost use Rattle.dn_queue.specs.declared.change.NoGrant.{NoGrant as NoGrantPart};
ghost use Rattle.dn_queue.specs.declared.change.ChangeFault.TheVariants.{Refused};

use crate::queue::Queue;
use crate::room::event_room;
use dn_base::OutOfMemory;
use dn_base::device::DeviceOrMemory;
use dn_book::book::{Book, RevokeFault};
use dn_book::grant::Grant;
use dn_kind::kinded::KindedNet;
use std::alloc::Global;
use std::fmt::Display;
use thiserror::Error;

/// Why a call has changed nothing.
#[derive(Clone, Copy, Debug, PartialEq, Eq, Error)]
pub enum ChangeFault<R: Display> {
    /// It is refused: the first refusal that holds.
    #[error("{0}")]
    Refused(R),
    /// There was no memory for it.
    #[error("OutOfMemory")]
    OutOfMemory,
}

/// No live grant has the id.
#[derive(Clone, Copy, Debug, PartialEq, Eq, Error)]
#[error("NoGrant")]
pub struct NoGrant;

/// Commits a grant, and keeps its events in a queue after those that are there.
///
/// # Errors
///
/// `OutOfMemory` for want of memory: nothing has changed.
pub fn commit(
    alloc: Global,
    on: KindedNet,
    book: &mut Book,
    queue: &mut Queue,
    grant: Grant,
) -> Result<(), OutOfMemory>
    requires ready { MayChange meaning on book.old queue.old.units None }
    requires placed { IsGrantFor on.net.now book.old.grants grant }
    ensures done { OnOk result (IsBookChanged on.entry.net.now
        (kinds_of meaning on.entry.kinds.now) (book.old.grants ++ grant ∷ []) false
        (grant_events on.entry.net.now (kinds_of meaning on.entry.kinds.now) book.old.grants
        book.old.cleared grant) book.old book.new queue.old queue.new) }
    ensures unchanged { OnErr result (AreUnchanged book.old book.new queue.old queue.new) }
{
    let room = event_room(on.net, grant.request.size, grant.placement.hops());
    queue.reserve(room)?;
    match book.commit(alloc, on, grant, queue) {
        Ok(()) => Ok(()),
        Err(DeviceOrMemory::OutOfMemory) => Err(OutOfMemory),
        Err(DeviceOrMemory::Device) => {
            queue.facts();
            unreachable!()
        }
    }
}

/// Takes the grant of an id out, and keeps its events in a queue after those that are there.
///
/// # Errors
///
/// `NoGrant` exactly where no live grant has the id, and `OutOfMemory` for want of memory: nothing has
/// changed.
pub fn revoke(
    on: KindedNet,
    book: &mut Book,
    queue: &mut Queue,
    id: u32,
) -> Result<(), ChangeFault<NoGrant>>
    requires ready { MayChange meaning on book.old queue.old.units None }
    ensures done { (grant : GrantPart) → Member grant book.old.grants → grant.id ≡ id → OnOk result
        (IsBookChanged on.entry.net.now (kinds_of meaning on.entry.kinds.now)
        (without_id id book.old.grants) true (revoke_events on.entry.net.now
        (kinds_of meaning on.entry.kinds.now) book.old.grants grant) book.old book.new queue.old
        queue.new) }
    ensures live { OnOk result (has_id id book.old.grants ≡ true) }
    ensures none { (why : NoGrantPart) → result ≡ Err (Refused why) → has_id id book.old.grants ≡ false }
    ensures unchanged { OnErr result (AreUnchanged book.old book.new queue.old queue.new) }
{
    let Some(live) = book.grants().get(id) else {
        return Err(ChangeFault::Refused(NoGrant));
    };
    let room = event_room(on.net, live.request.size, live.placement.hops());
    if queue.reserve(room).is_err() {
        return Err(ChangeFault::OutOfMemory);
    }
    match book.revoke(on, id, queue) {
        Ok(()) => Ok(()),
        Err(RevokeFault::NoGrant) => Err(ChangeFault::Refused(NoGrant)),
        Err(RevokeFault::Device) => {
            queue.facts();
            unreachable!()
        }
    }
}
