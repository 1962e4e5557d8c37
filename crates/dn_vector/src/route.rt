//! Routing a line of an agent to an interrupt vector.

ghost use Rattle.dn_kind.specs.Terms.{kinds_of};
ghost use Rattle.dn_tables.specs.Terms.{words_of};
ghost use Rattle.dn_grant.specs.Terms.{IsGrantDone, MayGrant};
ghost use Rattle.dn_vector.specs.Terms.{IsRouteLogged, IsRouteOutcome};

use crate::refusal::{RouteRefusal, refusal};
use crate::search::{Asked, least_vector};
use dn_base::device::{DeviceOrMemory, Tables};
use dn_book::book::Book;
use dn_grant::fault::GrantFault;
use dn_view::system::System;
use std::alloc::Global;

/// Routes a line of an agent to the least vector of a node that no live grant has and that has an
/// admissible placement at the line, for reading and writing, and answers the vector. All memory is
/// taken before the first call of the device.
///
/// # Errors
///
/// The first of these that holds. `IdUsed`, `NoAgent`, `NoTarget` and `BookFull` exactly where the
/// definition of the refusal says so; they take no memory. `NoPlacement` exactly where no such vector
/// is there. `OutOfMemory` for want of memory. After all of these nothing has changed. `Device` only
/// where the device's count of faults rose in this call, or stands at the last value of its counter:
/// the writes before the one that failed are done, and under them each name resolves as before the
/// route or as with it. No grant comes in, and the book is only read from then on. `NoPlacement` is
/// complete: records other than those of placements give no free vector either.
pub fn route<D: Tables>(
    alloc: Global,
    book: &mut Book,
    system: System,
    id: u32,
    agent: u16,
    line: u64,
    node: u16,
    device: &mut D,
) -> Result<u64, GrantFault<RouteRefusal>>
    requires { MayGrant meaning system book.old (D.units device.old) (D.words device.old) }
    ensures { IsGrantDone meaning system.entry.on
        (IsRouteOutcome system.entry.on.net.now book.old.grants id agent line node)
        (λ failed log log'. IsRouteLogged system.entry.on.net.now
        (kinds_of meaning system.entry.on.kinds.now) book.old.grants book.old.cleared id agent
        line node failed log log' (words_of book.new.set)) result book.old book.new
        D.units D.words D.faults D.log device.old device.new }
{
    if let Some(why) = refusal(book, system.on.net, id, agent, node) {
        return Err(GrantFault::Refused(why));
    }
    let asked = Asked {
        book,
        system,
        agent,
        line,
        node,
    };
    let found = match least_vector(alloc, asked) {
        Ok(Some(found)) => found,
        Ok(None) => return Err(GrantFault::Refused(RouteRefusal::NoPlacement)),
        Err(_) => return Err(GrantFault::OutOfMemory),
    };
    let vector = found.vector;
    let grant = found.grant(id, agent, node);
    match book.commit(alloc, system.on, grant, device) {
        Ok(()) => Ok(vector),
        Err(DeviceOrMemory::Device) => Err(GrantFault::Device),
        Err(DeviceOrMemory::OutOfMemory) => Err(GrantFault::OutOfMemory),
    }
}
