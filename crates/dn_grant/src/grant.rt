//! Granting a buffer.

ghost use Rattle.std.specs.Prelude.{IsTrue};
ghost use Rattle.dn_kind.specs.Terms.{are_rights, kinds_of};
ghost use Rattle.dn_tables.specs.Terms.{words_of};
ghost use Rattle.dn_grant.specs.Terms.{IsGrantDone, IsGrantLogged, IsGrantOutcome, MayGrant};

use crate::fault::GrantFault;
use crate::refusal::{GrantRefusal, refusal};
use dn_base::device::{DeviceOrMemory, Tables};
use dn_book::book::Book;
use dn_book::grant::Grant;
use dn_net::checked::CheckedNet;
use dn_place::booked::first_in_book;
use dn_placement::request::Request;
use dn_view::system::System;
use std::alloc::Global;

/// Grants a request under an id at the first admissible placement, and answers the first address of
/// the buffer in its agent. All memory is taken before the first call of the device. The refusal of one
/// address is complete: records other than those of placements do not give it either.
///
/// # Errors
///
/// The first of these that holds. `IdUsed`, `NoAgent`, `NoTarget`, `NotAccepted` and `BookFull` exactly
/// where the definition of the refusal says so; they take no memory. `NoPlacement` exactly where no
/// placement is admissible. `OutOfMemory` for want of memory. After all of these nothing has changed.
/// `Device` only where the device's count of faults rose in this call, or stands at the last value of
/// its counter: the writes before the one that failed are done, and under them each name resolves as
/// before the grant or as with it. No grant comes in, and the book is only read from then on.
pub fn grant<D: Tables>(
    alloc: Global,
    book: &mut Book,
    system: System,
    id: u32,
    request: &Request,
    device: &mut D,
) -> Result<u64, GrantFault<GrantRefusal>>
    requires ready { MayGrant meaning system book.old (D.units device.old) (D.words device.old) }
    requires rights { IsTrue (are_rights request.now.rights) }
    ensures { IsGrantDone meaning system.entry.on
        (IsGrantOutcome system.entry.on.net.now book.old.grants id request.now)
        (λ failed log log'. IsGrantLogged system.entry.on.net.now
        (kinds_of meaning system.entry.on.kinds.now) book.old.grants book.old.cleared id
        request.now failed log log' (words_of book.new.set)) result book.old book.new
        D.units D.words D.faults D.log device.old device.new }
{
    if let Some(why) = refusal(book, CheckedNet { net: system.on.net }, id, request) {
        return Err(GrantFault::Refused(why));
    }
    let placement = match first_in_book(alloc, book, system, request, None) {
        Ok(Some(placement)) => placement,
        Ok(None) => return Err(GrantFault::Refused(GrantRefusal::NoPlacement)),
        Err(_) => return Err(GrantFault::OutOfMemory),
    };
    let v = placement.v();
    let grant = Grant {
        id,
        request: *request,
        placement,
    };
    match book.commit(alloc, system.on, grant, device) {
        Ok(()) => Ok(v),
        Err(DeviceOrMemory::Device) => Err(GrantFault::Device),
        Err(DeviceOrMemory::OutOfMemory) => Err(GrantFault::OutOfMemory),
    }
}
