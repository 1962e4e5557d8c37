//! The first admissible placement beside the grants of a book.

ghost use Rattle.std.specs.Prelude.{◌≡◌, slice_get, Some, None, IfOk, IfSome, IsTrue};
ghost use Rattle.dn_net.specs.Terms.{is_agent_at};
ghost use Rattle.dn_kind.specs.Terms.{are_rights, kinds_of};
ghost use Rattle.dn_placement.specs.declared.request.Request.{Request};
ghost use Rattle.dn_placement.specs.Terms.{IsFirst, NoneSuited};
ghost use Rattle.dn_placement.specs.Slots.{AreProper, Slots};
ghost use Rattle.dn_book.specs.Terms.{IsKept, slots_of};
ghost use Rattle.dn_view.specs.Terms.{IsSystem};
ghost use Rattle.dn_place.specs.Terms.{IsHopReach, IsRequest};

use crate::OutOfMemory;
use crate::entry::entry_of;
use crate::first::first_from;
use crate::reach::{ReachMarks, reach_of};
use crate::tables::is_barred;
use dn_book::book::Book;
use dn_placement::request::Request;
use dn_tables::placement::Placement;
use dn_view::system::System;
use std::alloc::Global;

/// The first admissible placement of a request in the slots as a book leaves them; where an address is
/// given, of those at this address of the agent. `None` exactly where no placement is admissible.
/// `Err` is want of memory.
pub fn first_in_book(
    alloc: Global,
    book: &Book,
    system: System,
    request: &Request,
    at: Option<u64>,
) -> Result<Option<Placement>, OutOfMemory>
    requires system { IsSystem meaning system }
    requires kept { IsKept system.on.net.now
        (kinds_of meaning system.on.kinds.now) book.now.grants book.now.set }
    requires request { IsRequest system.on.net.now request.now }
    ensures first { IfOk result (λ found. IfSome found (λ p. IsFirst system.entry.on.net.now
        (slots_of system.entry.on.net.now book.now.grants) request.now at p)) }
    ensures none { IfOk result (λ found. found ≡ None → NoneSuited system.entry.on.net.now
        (slots_of system.entry.on.net.now book.now.grants) request.now at) }
{
    let reach = reach_of(alloc, system, request.agent, at)?;
    first_in_book_from(alloc, book, system, request, &reach)
}

/// The first admissible placement of a request beside the grants of a book, by marks that say where the hops
/// of the request's agent can stand and which address is asked for. They serve all requests of an agent.
/// `None` exactly where no placement is admissible. `Err` is want of memory.
pub fn first_in_book_from(
    alloc: Global,
    book: &Book,
    system: System,
    request: &Request,
    reach: &ReachMarks,
) -> Result<Option<Placement>, OutOfMemory>
    requires system { IsSystem meaning system }
    requires kept { IsKept system.on.net.now
        (kinds_of meaning system.on.kinds.now) book.now.grants book.now.set }
    requires reach { IsHopReach system.on.net.now request.now.agent reach.now }
    requires request { IsRequest system.on.net.now request.now }
    ensures first { IfOk result (λ found. IfSome found (λ p. IsFirst system.entry.on.net.now
        (slots_of system.entry.on.net.now book.now.grants) request.now reach.now.at p)) }
    ensures none { IfOk result (λ found. found ≡ None → NoneSuited system.entry.on.net.now
        (slots_of system.entry.on.net.now book.now.grants) request.now reach.now.at) }
{
    let tables = book.tables();
    tables.facts();
    first_from(alloc, system, tables, request, reach)
}

/// Whether it is known that no hop can stand where an address of an agent leads: it has no stop, or no hop
/// may take the slot of its stop. Where it is `true`, no request of the agent has an admissible placement
/// there; `false` says nothing. It takes no memory.
pub fn is_shut(book: &Book, system: System, agent: u16, at: u64) -> bool
    requires system { IsSystem meaning system }
    requires kept { IsKept system.on.net.now
        (kinds_of meaning system.on.kinds.now) book.now.grants book.now.set }
    requires agent { IsTrue (is_agent_at (slice_get system.on.net.now agent)) }
    ensures { IsTrue result → (rq : Request) → rq.agent ≡ agent → NoneSuited system.entry.on.net.now
        (slots_of system.entry.on.net.now book.now.grants) rq (Some at) }
{
    let Some(entry) = entry_of(system, agent, Some(at)) else {
        return true;
    };
    let tables = book.tables();
    tables.facts();
    is_barred(system, tables, entry)
}

/// Whether it is known that another address of an agent leads where an address leads, so that it would see
/// what a placement gives there. Where it is `true`, no request of the agent for some access has an admissible
/// placement at the address; `false` says nothing. It takes no memory.
pub fn is_crowded(system: System, agent: u16, at: u64) -> bool
    requires system { IsSystem meaning system }
    requires agent { IsTrue (is_agent_at (slice_get system.on.net.now agent)) }
    ensures { IsTrue result → (slots : Slots) (rq : Request) →
        AreProper system.entry.on.net.now slots → rq.agent ≡ agent → IsTrue (are_rights rq.rights)
        → NoneSuited system.entry.on.net.now slots rq (Some at) }
{
    match entry_of(system, agent, Some(at)) {
        Some(entry) => system
            .flats
            .crowd_among(entry.node, entry.base, 1)
            .is_some(),
        None => false,
    }
}
