//! The calls of C on a session, as `include/netconf.h` declares them.
//!
//! ```c
//! struct netconf session = { 0 };
//! status = netconf_open(&session, text, text_size, line, sizeof line, &size);
//! status = netconf_grant(&session, 1, card, dram, 0x9000, 0x1000, NETCONF_READ_WRITE, &address);
//! ```
//!
//! Each call takes the handle by address and answers a status. Its clauses define the session, the
//! places of C and the status after it; docs/library.md has them in words. [`open`](mod@open)
//! compiles a description, [`status`] has the numbers of the refusals, and [`events`] and
//! [`output`] copy results to C. The crate is a static library, and no other crate uses it.
#![tactic(auto)]

ghost use Rattle.std.specs.Prelude.{◌≡◌, ◌≢◌, ◌≤◌, ◌⊎◌, ◌↔◌, ◌++◌, ◌-◌, drop, false, length, map, min, take, true, IfSome, IsTrue, None, Some};
ghost use Rattle.std.specs.Str.{IsUtf8};
ghost use Rattle.dn_kind.specs.Terms.{are_rights};
ghost use Rattle.dn_grant.specs.declared.refusal.GrantRefusal.TheVariants.{NotAccepted as Unaccepted};
ghost use Rattle.netconf_c.specs.Opening.{IsLineTooLong, IsOpenedIn, IsRunOf, IsRunTooLong, IsTextRefused};
ghost use Rattle.netconf_c.specs.Calls.{HasFewerNodes, HasGrant, HasNoGrant, HasNoNode, IsGrantedIn, IsNameIn, IsNameTooLong, IsNodeIn, IsRefusedBy, IsRevokedIn, IsUnacceptedIn, IsUnrefusedIn, asked, event_of, is_rights_number, pending_of, refusal_status, settled_session, standing};

mod events;
pub mod images;
mod open;
mod output;
pub mod pieces;
pub mod places;
pub mod routes;
mod run;
pub mod seeing;
mod status;

use dn_base::OutOfMemory;
use dn_grant::refusal::GrantRefusal;
use dn_handle::Handle;
use dn_kind::rights::Rights;
use dn_placement::request::Request;
use dn_queue::change::ChangeFault;
use dn_session::session::Session;
use dn_tool::compile::CompileFault;
use events::{Event, copy_events};
use open::open;
use output::write_out;
use run::run;
use status::{BAD_ARGUMENT, CLOSED, DONE, NO_GRANT, NO_MEMORY, NO_NODE, REFUSED, refusal_status};
use std::alloc::Global;

/// Opens a description. A session that was open is let go. The first rule that the text breaks is
/// written to the front of `line`; `written` is how many bytes are said of it.
#[unsafe(no_mangle)]
pub extern "C" fn netconf_open(
    alloc: Global,
    session: &mut Handle,
    text: &[u8],
    line: &mut [u8],
    written: &mut usize,
) -> u32
    ensures opened { result ≡ 0 → IsOpenedIn text.now session.new.held }
    ensures refused { result ≡ 5 → IsTextRefused text.now (take written.new line.new) }
    ensures within { result ≡ 5 → written.new ≤ length line.old }
    ensures small { result ≡ 4 → IsLineTooLong text.now written.new (length line.old) }
    ensures statuses { (result ≡ 0) ⊎ ((result ≡ 3) ⊎ ((result ≡ 4) ⊎ (result ≡ 5))) }
    ensures nothing { (result ≡ 0) ⊎ (result ≡ 3) → written.new ≡ 0 }
    ensures untold { result ≢ 5 → line.new ≡ line.old }
    ensures unchanged { result ≢ 0 → session.new.held ≡ session.old.held }
{
    *written = 0;
    match open(alloc, text) {
        Ok(opened) => keep(alloc, session, opened),
        Err(CompileFault::Refused(why)) => {
            write_out(why.text().as_bytes(), line, written, REFUSED)
        }
        Err(CompileFault::OutOfMemory) => NO_MEMORY,
    }
}

/// Puts a session into the handle, in place of the one that it has.
fn keep(alloc: Global, session: &mut Handle, opened: Session) -> u32
    ensures kept { result ≡ 0 → session.new.held ≡ Some opened }
    ensures unchanged { result ≢ 0 → session.new.held ≡ session.old.held }
    ensures statuses { (result ≡ 0) ⊎ (result ≡ 3) }
{
    let Ok(opened) = Box::new(alloc, opened) else {
        return NO_MEMORY;
    };
    drop(session.take(alloc));
    *session = Handle::of(opened);
    DONE
}

/// Grants a buffer under an id at the first admissible placement. `address` is then the first
/// address of the buffer in its agent, or, at the status of a node that does not accept it, the
/// first that it does not accept.
#[unsafe(no_mangle)]
pub extern "C" fn netconf_grant(
    alloc: Global,
    session: &mut Handle,
    id: u32,
    agent: u16,
    node: u16,
    base: u64,
    size: u64,
    rights: u8,
    address: &mut u64,
) -> u32
    ensures granted { result ≡ 0 → IsGrantedIn session.old.held id
        (asked agent node base size rights) None address.new session.new.held }
    ensures refused { 16 ≤ result → IsRefusedBy session.old.held id
        (asked agent node base size rights) None result }
    ensures unaccepted { result ≡ 19 → IsUnacceptedIn session.old.held id
        (asked agent node base size rights) address.new }
    ensures memory { result ≡ 3 → IsUnrefusedIn session.old.held id
        (asked agent node base size rights) }
    ensures wrong { result ≡ 2 ↔ is_rights_number rights ≡ false }
    ensures closed { result ≡ 1 ↔ (is_rights_number rights ≡ true) × (session.old.held ≡ None) }
    ensures statuses { (result ≤ 3) ⊎ ((16 ≤ result) × (result ≤ 21)) }
    ensures untold { result ≢ 0 → result ≢ 19 → address.new ≡ address.old }
    ensures unchanged { result ≢ 0 → session.new.held ≡ session.old.held }
{
    match rights_of(rights) {
        Some(rights) => {
            let request = Request {
                agent,
                node,
                base,
                size,
                rights,
            };
            grant(alloc, session, id, &request, None, address)
        }
        None => BAD_ARGUMENT,
    }
}

/// As `netconf_grant`, at the first admissible placement of those at an address of the agent.
#[unsafe(no_mangle)]
pub extern "C" fn netconf_grant_at(
    alloc: Global,
    session: &mut Handle,
    id: u32,
    agent: u16,
    node: u16,
    base: u64,
    size: u64,
    rights: u8,
    at: u64,
    address: &mut u64,
) -> u32
    ensures granted { result ≡ 0 → IsGrantedIn session.old.held id
        (asked agent node base size rights) (Some at) address.new session.new.held }
    ensures refused { 16 ≤ result → IsRefusedBy session.old.held id
        (asked agent node base size rights) (Some at) result }
    ensures unaccepted { result ≡ 19 → IsUnacceptedIn session.old.held id
        (asked agent node base size rights) address.new }
    ensures memory { result ≡ 3 → IsUnrefusedIn session.old.held id
        (asked agent node base size rights) }
    ensures wrong { result ≡ 2 ↔ is_rights_number rights ≡ false }
    ensures closed { result ≡ 1 ↔ (is_rights_number rights ≡ true) × (session.old.held ≡ None) }
    ensures statuses { (result ≤ 3) ⊎ ((16 ≤ result) × (result ≤ 21)) }
    ensures untold { result ≢ 0 → result ≢ 19 → address.new ≡ address.old }
    ensures unchanged { result ≢ 0 → session.new.held ≡ session.old.held }
{
    match rights_of(rights) {
        Some(rights) => {
            let request = Request {
                agent,
                node,
                base,
                size,
                rights,
            };
            grant(alloc, session, id, &request, Some(at), address)
        }
        None => BAD_ARGUMENT,
    }
}

/// Rights by their number: 1 for reading, 2 for writing, 3 for both.
pub(crate) fn rights_of(number: u8) -> Option<Rights>
    ensures same { IfSome result (λ rights. rights ≡ record { 0 = number }) }
    ensures some { IfSome result (λ rights. IsTrue (are_rights rights)) }
    ensures found { IfSome result (λ rights. is_rights_number number ≡ true) }
    ensures none { result ≡ None → is_rights_number number ≡ false }
{
    match number {
        1 => Some(Rights::READ),
        2 => Some(Rights::WRITE),
        3 => Some(Rights::both()),
        _ => None,
    }
}

/// Grants a request at the first admissible placement, of those at an address of the agent where
/// one is asked for.
fn grant(
    alloc: Global,
    session: &mut Handle,
    id: u32,
    request: &Request,
    at: Option<u64>,
    address: &mut u64,
) -> u32
    requires rights { IsTrue (are_rights request.now.rights) }
    ensures granted { result ≡ 0
        → IsGrantedIn session.old.held id request.now at address.new session.new.held }
    ensures refused { 16 ≤ result → IsRefusedBy session.old.held id request.now at result }
    ensures unaccepted { result ≡ 19 → IsUnacceptedIn session.old.held id request.now address.new }
    ensures memory { result ≡ 3 → IsUnrefusedIn session.old.held id request.now }
    ensures closed { result ≡ 1 ↔ session.old.held ≡ None }
    ensures statuses { (result ≤ 1) ⊎ ((result ≡ 3) ⊎ ((16 ≤ result) × (result ≤ 21))) }
    ensures untold { result ≢ 0 → result ≢ 19 → address.new ≡ address.old }
    ensures unchanged { result ≢ 0 → session.new.held ≡ session.old.held }
{
    let Some(mut opened) = session.take(alloc) else {
        return CLOSED;
    };
    let status = match opened.grant(alloc, id, request, at) {
        Ok(first) => {
            *address = first;
            DONE
        }
        Err(ChangeFault::Refused(why)) => refused(why, address),
        Err(ChangeFault::OutOfMemory) => NO_MEMORY,
    };
    *session = Handle::of(opened);
    status
}

/// The status of a refusal. The first address that is not accepted is left at `address`, where
/// there is one.
fn refused(why: GrantRefusal, address: &mut u64) -> u32
    ensures value { result ≡ refusal_status why }
    ensures least { 16 ≤ result }
    ensures most { result ≤ 21 }
    ensures told { result ≡ 19 → why ≡ Unaccepted address.new }
    ensures untold { result ≢ 19 → address.new ≡ address.old }
{
    if let GrantRefusal::NotAccepted { first } = why {
        *address = first;
    }
    refusal_status(why)
}

/// Takes the grant of an id out.
#[unsafe(no_mangle)]
pub extern "C" fn netconf_revoke(alloc: Global, session: &mut Handle, id: u32) -> u32
    ensures revoked { result ≡ 0 → IsRevokedIn session.old.held id session.new.held }
    ensures none { result ≡ 22 → HasNoGrant session.old.held id }
    ensures memory { result ≡ 3 → HasGrant session.old.held id }
    ensures closed { result ≡ 1 ↔ session.old.held ≡ None }
    ensures statuses { (result ≡ 0) ⊎ ((result ≡ 1) ⊎ ((result ≡ 3) ⊎ (result ≡ 22))) }
    ensures unchanged { result ≢ 0 → session.new.held ≡ session.old.held }
{
    let Some(mut opened) = session.take(alloc) else {
        return CLOSED;
    };
    let status = match opened.revoke(alloc, id) {
        Ok(()) => DONE,
        Err(ChangeFault::Refused(_)) => NO_GRANT,
        Err(ChangeFault::OutOfMemory) => NO_MEMORY,
    };
    *session = Handle::of(opened);
    status
}

/// Finds the node that has a full name, of UTF-8.
#[unsafe(no_mangle)]
pub extern "C" fn netconf_node(
    alloc: Global,
    session: &mut Handle,
    name: &[u8],
    number: &mut u16,
) -> u32
    ensures found { result ≡ 0 → IsNodeIn session.old.held name.now number.new }
    ensures none { result ≡ 23 → HasNoNode session.old.held name.now }
    ensures wrong { result ≡ 2 ↔ (IsUtf8 name.now → ⊥) }
    ensures closed { result ≡ 1 ↔ IsUtf8 name.now × (session.old.held ≡ None) }
    ensures statuses { (result ≡ 0) ⊎ ((result ≡ 1) ⊎ ((result ≡ 2) ⊎ (result ≡ 23))) }
    ensures untold { result ≢ 0 → number.new ≡ number.old }
    ensures unchanged { session.new.held ≡ session.old.held }
{
    let Ok(name) = str::from_utf8(name) else {
        return BAD_ARGUMENT;
    };
    let Some(opened) = session.take(alloc) else {
        return CLOSED;
    };
    let found = opened.net().find(name);
    *session = Handle::of(opened);
    match found {
        Some(node) => {
            *number = node;
            DONE
        }
        None => NO_NODE,
    }
}

/// Writes the full name of a node to the front of `out`; `written` is how many bytes it has.
#[unsafe(no_mangle)]
pub extern "C" fn netconf_name(
    alloc: Global,
    session: &mut Handle,
    node: u16,
    out: &mut [u8],
    written: &mut usize,
) -> u32
    ensures told { result ≡ 0 → IsNameIn session.old.held node (take written.new out.new) }
    ensures within { result ≡ 0 → written.new ≤ length out.old }
    ensures small { result ≡ 4
        → IsNameTooLong session.old.held node written.new (length out.old) }
    ensures none { result ≡ 23 → HasFewerNodes session.old.held node }
    ensures closed { result ≡ 1 ↔ session.old.held ≡ None }
    ensures statuses { (result ≡ 0) ⊎ ((result ≡ 1) ⊎ ((result ≡ 4) ⊎ (result ≡ 23))) }
    ensures untold { result ≢ 0 → out.new ≡ out.old }
    ensures unmeasured { (result ≡ 1) ⊎ (result ≡ 23) → written.new ≡ written.old }
    ensures unchanged { session.new.held ≡ session.old.held }
{
    let Some(opened) = session.take(alloc) else {
        return CLOSED;
    };
    let status = if node < opened.net().nodes() {
        write_out(opened.net().text(node).as_bytes(), out, written, DONE)
    } else {
        NO_NODE
    };
    *session = Handle::of(opened);
    status
}

/// Writes the pending events from a number on to the front of `events`, as many as there are or
/// there is room for; `count` is how many. It takes no memory.
#[unsafe(no_mangle)]
pub extern "C" fn netconf_pending(
    alloc: Global,
    session: &mut Handle,
    from: usize,
    events: &mut [Event],
    count: &mut usize,
) -> u32
    ensures count { count.new
        ≡ min (length (pending_of session.old.held) - from) (length events.old) }
    ensures copied { events.new
        ≡ map event_of (take count.new (drop from (pending_of session.old.held)))
        ++ drop count.new events.old }
    ensures status { result ≡ standing session.old.held }
    ensures unchanged { session.new.held ≡ session.old.held }
{
    *count = 0;
    let Some(opened) = session.take(alloc) else {
        return CLOSED;
    };
    *count = copy_events(opened.pending(), from, events);
    *session = Handle::of(opened);
    DONE
}

/// All that was pending was done. It takes no memory.
#[unsafe(no_mangle)]
pub extern "C" fn netconf_settle(alloc: Global, session: &mut Handle) -> u32
    ensures status { result ≡ standing session.old.held }
    ensures settled { session.new.held ≡ settled_session session.old.held }
{
    let Some(mut opened) = session.take(alloc) else {
        return CLOSED;
    };
    opened.settle();
    *session = Handle::of(opened);
    DONE
}

/// Lets the session go: the handle is closed. On a closed handle it does nothing.
#[unsafe(no_mangle)]
pub extern "C" fn netconf_close(alloc: Global, session: &mut Handle)
    ensures { session.new.held ≡ None }
{
    drop(session.take(alloc));
}

/// Answers a text as the program does with the word `run`: the answer is written to the front of
/// `out`, `written` is how many bytes it has, and `exit_status` is the status with which the
/// program ends.
#[unsafe(no_mangle)]
pub extern "C" fn netconf_run(
    alloc: Global,
    text: &[u8],
    out: &mut [u8],
    written: &mut usize,
    exit_status: &mut u8,
) -> u32
    ensures answered { result ≡ 0 → IsRunOf text.now exit_status.new (take written.new out.new) }
    ensures within { result ≡ 0 → written.new ≤ length out.old }
    ensures rest { result ≡ 0 → drop written.new out.new ≡ drop written.new out.old }
    ensures small { result ≡ 4
        → IsRunTooLong text.now exit_status.new written.new (length out.old) }
    ensures statuses { (result ≡ 0) ⊎ ((result ≡ 3) ⊎ (result ≡ 4)) }
    ensures nothing { result ≡ 3 → (written.new ≡ 0) × (exit_status.new ≡ 0) }
    ensures untold { result ≢ 0 → out.new ≡ out.old }
{
    *written = 0;
    *exit_status = 0;
    match run(alloc, text) {
        Ok(ran) => {
            *exit_status = ran.status;
            write_out(ran.sink.written(), out, written, DONE)
        }
        Err(OutOfMemory) => NO_MEMORY,
    }
}
