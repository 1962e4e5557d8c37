//! The commands that change the book: grants, routes, revokes, and buffers in pieces.

ghost use Rattle.std.specs.Prelude.{◌≡◌, true, length, IfOk, IsTrue};
ghost use Rattle.dn_kind.specs.Terms.{are_rights, kinds_of};
ghost use Rattle.dn_module.specs.Terms.{names_within};
ghost use Rattle.dn_grant.specs.declared.refusal.GrantRefusal.TheVariants.{NotAccepted};
ghost use Rattle.dn_script.specs.Terms.{IsChangeDone, IsGrantTurn, IsReadyOn, IsRevokeTurn, IsRouteTurn, IsTurn, grant_refused_text, granted_text, is_change, number_or_none, refused_text, request_of, revoked_text, rights_of, route_refused_text, routed_text, state_view};

use crate::OutOfMemory;
use crate::halt::{RunHalt, refusal_or_halt, reply_or_halt};
use crate::machine::Machine;
use crate::pieces::gather_change;
use crate::state::{Session, keep_flats, kept_flats, renew};
use dn_base::device::Tables;
use dn_base::items::Items;
use dn_book::book::RevokeFault;
use dn_grant::grant::grant;
use dn_grant::refusal::GrantRefusal;
use dn_kind::rights::Rights;
use dn_module::command::{Command, Target};
use dn_parse::syntax::Mode;
use dn_placement::request::Request;
use dn_vector::refusal::RouteRefusal;
use dn_vector::route::route;
use dn_view::system::System;
use std::alloc::Global;

/// Does a command that changes the book, and answers its reply. All memory of the change is taken before
/// the first call of the device.
pub fn change<D: Tables>(
    alloc: Global,
    machine: Machine,
    state: &mut Session,
    command: &Command,
    device: &mut D,
) -> Result<Items<u8>, RunHalt>
    requires ready { IsReadyOn meaning machine state.old (D.units device.old) (D.words device.old) }
    requires known { IsTrue (names_within (length machine.on.net.now) command.now) }
    requires change { is_change command.now ≡ true }
    ensures { IsChangeDone meaning machine.entry (IsTurn
        (kinds_of meaning machine.entry.on.kinds.now) machine.entry.on.net.now
        (state_view state.old) command.now) result state.old state.new
        D.units D.words D.faults D.log device.old device.new }
{
    match command {
        Command::Grant {
            id,
            agent: from,
            node: target,
            base,
            size,
            mode,
        } => {
            let request = request_of(from, target, *base, *size, *mode);
            let id = id.as_str();
            grant_change(alloc, machine, state, id, &request, device)
        }
        Command::Route {
            id,
            agent: from,
            line,
            node: target,
        } => {
            let agent = number_or_none(from.node);
            let node = number_or_none(target.node);
            let id = id.as_str();
            route_change(alloc, machine, state, id, agent, *line, node, device)
        }
        Command::Revoke(id) => revoke_change(alloc, machine, state, id.as_str(), device),
        Command::Gather {
            agent: from,
            pieces,
            mode,
        } => {
            let agent = number_or_none(from.node);
            let rights = rights_of(*mode);
            let pieces = pieces.as_slice();
            gather_change(alloc, machine, state, agent, pieces, rights, device)
        }
        _ => unreachable!(),
    }
}

/// The number of a node that a command names, or one that no node has.
pub fn number_or_none(node: Option<u16>) -> u16
    ensures { result ≡ number_or_none node }
{
    node.unwrap_or(65_535)
}

/// The rights that a grant or a gather asks for: both, where it says none.
fn rights_of(mode: Mode) -> Rights
    ensures value { result ≡ rights_of mode }
    ensures rights { IsTrue (are_rights result) }
{
    match mode {
        Mode::Unsaid => Rights::both(),
        Mode::Read => Rights::READ,
        Mode::Write => Rights::WRITE,
    }
}

/// What a grant asks for.
fn request_of(from: &Target, target: &Target, base: u64, size: u64, mode: Mode) -> Request
    ensures value { result ≡ request_of from.now target.now base size mode }
    ensures rights { IsTrue (are_rights result.rights) }
{
    Request {
        agent: number_or_none(from.node),
        node: number_or_none(target.node),
        base,
        size,
        rights: rights_of(mode),
    }
}

/// Grants a request at the first admissible placement, or refuses it.
fn grant_change<D: Tables>(
    alloc: Global,
    machine: Machine,
    state: &mut Session,
    id: &str,
    request: &Request,
    device: &mut D,
) -> Result<Items<u8>, RunHalt>
    requires ready { IsReadyOn meaning machine state.old (D.units device.old) (D.words device.old) }
    requires rights { IsTrue (are_rights request.now.rights) }
    ensures { IsChangeDone meaning machine.entry (IsGrantTurn
        (kinds_of meaning machine.entry.on.kinds.now) machine.entry.on.net.now
        (state_view state.old) id.now request.now) result state.old state.new
        D.units D.words D.faults D.log device.old device.new }
{
    let number = state.ids.number(alloc, id)?;
    keep_flats(alloc, machine, &mut state.flats)?;
    let flats = kept_flats(&state.flats);
    let system = System {
        on: machine.on,
        flats,
    };
    match grant(alloc, &mut state.book, system, number, request, device) {
        Ok(v) => {
            renew(machine, state);
            reply_or_halt(granted_reply(alloc, id, v))
        }
        Err(fault) => {
            state.book.tables().facts();
            let why = refusal_or_halt(fault)?;
            reply_or_halt(grant_refused(alloc, id, why))
        }
    }
}

/// Routes a line to the least free vector that has an admissible placement there, or refuses it.
fn route_change<D: Tables>(
    alloc: Global,
    machine: Machine,
    state: &mut Session,
    id: &str,
    agent: u16,
    line: u64,
    node: u16,
    device: &mut D,
) -> Result<Items<u8>, RunHalt>
    requires ready { IsReadyOn meaning machine state.old (D.units device.old) (D.words device.old) }
    ensures { IsChangeDone meaning machine.entry (IsRouteTurn
        (kinds_of meaning machine.entry.on.kinds.now) machine.entry.on.net.now
        (state_view state.old) id.now agent line node) result state.old state.new
        D.units D.words D.faults D.log device.old device.new }
{
    let number = state.ids.number(alloc, id)?;
    keep_flats(alloc, machine, &mut state.flats)?;
    let flats = kept_flats(&state.flats);
    let system = System {
        on: machine.on,
        flats,
    };
    match route(
        alloc,
        &mut state.book,
        system,
        number,
        agent,
        line,
        node,
        device,
    ) {
        Ok(vector) => {
            renew(machine, state);
            reply_or_halt(routed_reply(alloc, id, vector))
        }
        Err(fault) => {
            state.book.tables().facts();
            let why = refusal_or_halt(fault)?;
            reply_or_halt(route_refused(alloc, id, why))
        }
    }
}

/// Takes the grant of an id out of the book, where it lives.
fn revoke_change<D: Tables>(
    alloc: Global,
    machine: Machine,
    state: &mut Session,
    id: &str,
    device: &mut D,
) -> Result<Items<u8>, RunHalt>
    requires ready { IsReadyOn meaning machine state.old (D.units device.old) (D.words device.old) }
    ensures { IsChangeDone meaning machine.entry (IsRevokeTurn
        (kinds_of meaning machine.entry.on.kinds.now) machine.entry.on.net.now
        (state_view state.old) id.now) result state.old state.new
        D.units D.words D.faults D.log device.old device.new }
{
    let number = state.ids.number(alloc, id)?;
    match state.book.revoke(machine.on, number, device) {
        Ok(()) => {
            renew(machine, state);
            reply_or_halt(revoked_reply(alloc, id))
        }
        Err(RevokeFault::NoGrant) => reply_or_halt(refused_reply(alloc, id, "NoGrant")),
        Err(RevokeFault::Device) => {
            state.book.tables().facts();
            Err(RunHalt::DeviceFault)
        }
    }
}

/// The reply to a grant.
fn granted_reply(alloc: Global, id: &str, v: u64) -> Result<Items<u8>, OutOfMemory>
    ensures { IfOk result (λ text. text ≡ granted_text id.now v) }
{
    let text = format!(in alloc; "{id} at 0x{v:x}\n")?;
    Ok(Items::from_vec(text.into_bytes()))
}

/// The reply to a route.
fn routed_reply(alloc: Global, id: &str, vector: u64) -> Result<Items<u8>, OutOfMemory>
    ensures { IfOk result (λ text. text ≡ routed_text id.now vector) }
{
    let text = format!(in alloc; "{id} vector 0x{vector:x}\n")?;
    Ok(Items::from_vec(text.into_bytes()))
}

/// The reply to a revoke.
fn revoked_reply(alloc: Global, id: &str) -> Result<Items<u8>, OutOfMemory>
    ensures { IfOk result (λ text. text ≡ revoked_text id.now) }
{
    let text = format!(in alloc; "{id} revoked\n")?;
    Ok(Items::from_vec(text.into_bytes()))
}

/// The reply that names an id and a refusal.
pub fn refused_reply(alloc: Global, id: &str, refusal: &str) -> Result<Items<u8>, OutOfMemory>
    ensures { IfOk result (λ text. text ≡ refused_text id.now refusal.now) }
{
    let text = format!(in alloc; "{id} refused: {refusal}\n")?;
    Ok(Items::from_vec(text.into_bytes()))
}

/// The reply to a grant that is refused.
fn grant_refused(alloc: Global, id: &str, why: GrantRefusal) -> Result<Items<u8>, OutOfMemory>
    ensures { IfOk result (λ text. text ≡ grant_refused_text id.now why) }
{
    match why {
        GrantRefusal::IdUsed => refused_reply(alloc, id, "IdUsed"),
        GrantRefusal::NoAgent => refused_reply(alloc, id, "NoAgent"),
        GrantRefusal::NoTarget => refused_reply(alloc, id, "NoTarget"),
        GrantRefusal::NotAccepted { first } => not_accepted(alloc, id, first),
        GrantRefusal::BookFull => refused_reply(alloc, id, "BookFull"),
        GrantRefusal::NoPlacement => refused_reply(alloc, id, "NoPlacement"),
    }
}

/// The reply to a grant of a buffer of which an address is not accepted.
fn not_accepted(alloc: Global, id: &str, first: u64) -> Result<Items<u8>, OutOfMemory>
    ensures { IfOk result (λ text. text
        ≡ grant_refused_text id.now (NotAccepted first)) }
{
    let refusal = format!(in alloc; "NotAccepted 0x{first:x}")?;
    refused_reply(alloc, id, refusal.as_str())
}

/// The reply to a route that is refused.
fn route_refused(alloc: Global, id: &str, why: RouteRefusal) -> Result<Items<u8>, OutOfMemory>
    ensures { IfOk result (λ text. text ≡ route_refused_text id.now why) }
{
    match why {
        RouteRefusal::IdUsed => refused_reply(alloc, id, "IdUsed"),
        RouteRefusal::NoAgent => refused_reply(alloc, id, "NoAgent"),
        RouteRefusal::NoTarget => refused_reply(alloc, id, "NoTarget"),
        RouteRefusal::BookFull => refused_reply(alloc, id, "BookFull"),
        RouteRefusal::NoPlacement => refused_reply(alloc, id, "NoPlacement"),
    }
}
