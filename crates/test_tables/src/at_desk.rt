//! Calls on a desk, made where what they ask holds.

ghost use Rattle.std.specs.Prelude.{◌≡◌, ◌≤◌, IfOk, IfSome, IsTrue};
ghost use Rattle.dn_kind.specs.Terms.{are_rights};
ghost use Rattle.test_tables.specs.Terms.{EndsWithin, IsDesk, IsPlacementAtDesk, part};

use crate::desk::Desk;
use crate::own::is_hop_free;
use bitflags::Flags;
use dn_book::book::RevokeFault;
use dn_gather::gather::gather;
use dn_gather::piece::Piece;
use dn_gather::refusal::GatherRefusal;
use dn_grant::fault::GrantFault;
use dn_grant::grant::grant;
use dn_grant::refusal::GrantRefusal;
use dn_kind::rights::{Access, Rights};
use dn_net::names::Names;
use dn_net::node::{Name, TOP};
use dn_place::first::first;
use dn_placement::request::Request;
use dn_placement::roles::is_agent;
use dn_tables::placement::Placement;
use dn_vector::refusal::RouteRefusal;
use dn_vector::route::route;
use dn_view::exact::exact;
use dn_view::resolve::resolve;
use std::alloc::Global;
use test_plans::Unmade;

/// Grants a request. `None`, and nothing is done, where the book is not sound or the rights are none.
pub fn grant_on(
    desk: &mut Desk<'_>,
    alloc: Global,
    id: u32,
    request: &Request,
) -> Option<Result<u64, GrantFault<GrantRefusal>>>
    requires { IsDesk meaning desk.old }
    ensures { IsDesk meaning desk.new }
{
    if !desk.book.is_unfailed() || !are_rights(request.rights) {
        return None;
    }
    let system = desk.system;
    Some(grant(alloc, &mut desk.book, system, id, request, &mut desk.device))
}

/// Grants one to eight pieces. `None`, and nothing is done, where the book is not sound, or the rights or the pieces
/// are none or too many.
pub fn gather_on(
    desk: &mut Desk<'_>,
    alloc: Global,
    agent: u16,
    pieces: &[Piece],
    rights: Rights,
) -> Option<Result<u64, GrantFault<GatherRefusal>>>
    requires { IsDesk meaning desk.old }
    ensures { IsDesk meaning desk.new }
{
    if !desk.book.is_unfailed() || !are_rights(rights) {
        return None;
    }
    if pieces.is_empty() || pieces.len() > 8 {
        return None;
    }
    let system = desk.system;
    Some(gather(
        alloc,
        &mut desk.book,
        system,
        agent,
        pieces,
        rights,
        &mut desk.device,
    ))
}

/// Routes a line of an agent to a vector of a node. `None`, and nothing is done, where the book is not sound.
pub fn route_on(
    desk: &mut Desk<'_>,
    alloc: Global,
    id: u32,
    line: Name,
    node: u16,
) -> Option<Result<u64, GrantFault<RouteRefusal>>>
    requires { IsDesk meaning desk.old }
    ensures { IsDesk meaning desk.new }
{
    if !desk.book.is_unfailed() {
        return None;
    }
    let system = desk.system;
    let (agent, line) = (line.node, line.addr);
    Some(route(
        alloc,
        &mut desk.book,
        system,
        id,
        agent,
        line,
        node,
        &mut desk.device,
    ))
}

/// Revokes the grant of an id. `None`, and nothing is done, where the book is not sound.
pub fn revoke_on(desk: &mut Desk<'_>, id: u32) -> Option<Result<(), RevokeFault>>
    requires { IsDesk meaning desk.old }
    ensures { IsDesk meaning desk.new }
{
    if !desk.book.is_unfailed() {
        return None;
    }
    let on = desk.system.on;
    Some(desk.book.revoke(on, id, &mut desk.device))
}

/// Whether a placement of a request is admissible for its first so many addresses alone, with
/// these rights. `None` where the request has not so many, or the rights are none.
pub fn is_exact_on(
    desk: &Desk<'_>,
    alloc: Global,
    request: &Request,
    placement: &Placement,
    size: u64,
    rights: Rights,
) -> Result<Option<bool>, Unmade>
    requires desk { IsDesk meaning desk.now }
    requires placed { IsPlacementAtDesk meaning desk.now request.now placement.now }
{
    if size == 0 || size > request.size || !are_rights(rights) {
        return Ok(None);
    }
    let part = part_of(request, size, rights);
    let tables = desk.book.tables();
    let answer = exact(alloc, desk.system, tables, &part, placement)?;
    Ok(Some(answer))
}

/// A placement of a request with another of its hops for its own. `None` where it has not so many
/// hops, or not all slots of the hop are free.
#[tactic(auto, using(crate::proofs::Owns::owned))]
pub fn with_own(
    desk: &Desk<'_>,
    alloc: Global,
    request: &Request,
    placement: &Placement,
    own: u8,
) -> Option<Placement>
    requires desk { IsDesk meaning desk.now }
    requires placed { IsPlacementAtDesk meaning desk.now request.now placement.now }
    ensures placed { IfSome result (IsPlacementAtDesk meaning desk.now request.now) }
{
    let hops = placement.hops();
    let hop = *hops.get(usize::from(own))?;
    if !is_hop_free(desk.system.on.net, desk.book.tables(), request, hop) {
        return None;
    }
    Some(Placement::new(alloc, placement.v(), hops, own))
}

/// The first admissible placement of a request, at an address of its agent where one is given.
/// `Unformed` where the request has no agent, no rights or no buffer.
#[tactic(auto, using(crate::proofs::Parts::first_placed))]
pub fn first_on(
    desk: &Desk<'_>,
    alloc: Global,
    request: &Request,
    at: Option<u64>,
) -> Result<Option<Placement>, Unmade>
    requires desk { IsDesk meaning desk.now }
    ensures placed { IfOk result
        (λ found. IfSome found (IsPlacementAtDesk meaning desk.now request.now)) }
{
    let system = desk.system;
    if !is_agent(system.on.net, request.agent) || !is_formed(request) {
        return Err(Unmade::Unformed);
    }
    let tables = desk.book.tables();
    Ok(first(alloc, system, tables, request, at)?)
}

/// What a name resolves to for an access under the tables. `Unformed` where its node is not there.
pub fn resolved_on(
    desk: &Desk<'_>,
    alloc: Global,
    name: Name,
    access: Access,
) -> Result<Names, Unmade>
    requires { IsDesk meaning desk.now }
{
    let system = desk.system;
    if name.node >= system.on.net.nodes() {
        return Err(Unmade::Unformed);
    }
    Ok(resolve(alloc, system, desk.book.tables(), name, access)?)
}

/// A request for the first so many addresses of the buffer of another, with these rights.
fn part_of(request: &Request, size: u64, rights: Rights) -> Request
    ensures { result ≡ part request.now size rights }
{
    Request {
        size,
        rights,
        ..*request
    }
}

/// Whether a request has rights, and a buffer that ends at the last address or before.
fn is_formed(request: &Request) -> bool
    ensures rights { IsTrue result → IsTrue (are_rights request.now.rights) }
    ensures some { IsTrue result → 1 ≤ request.now.size }
    ensures buffer { IsTrue result → EndsWithin request.now }
{
    are_rights(request.rights)
        && request.size >= 1
        && request.base <= TOP
        && request.size <= TOP + 1 - request.base
}

/// Whether rights are those of a record: one access, or both.
pub(crate) fn are_rights(rights: Rights) -> bool
    ensures { result ≡ are_rights rights }
{
    1 <= rights.bits() && rights.bits() <= 3
}
