//! The call of C that routes a line of an agent to an interrupt vector.

ghost use Rattle.std.specs.Prelude.{◌≡◌, ◌≢◌, ◌≤◌, ◌⊎◌, ◌↔◌, None};
ghost use Rattle.netconf_c.specs.Routing.{IsRoutedIn, IsRouteRefusedBy, IsRouteUnrefusedIn, route_status};

use crate::status::{CLOSED, DONE, NO_MEMORY};
use dn_handle::Handle;
use dn_queue::change::ChangeFault;
use dn_vector::refusal::RouteRefusal;
use std::alloc::Global;

/// Routes a line of an agent to the least vector of a node that is free and has an admissible
/// placement at the line, under an id; `vector` is it.
#[unsafe(no_mangle)]
pub extern "C" fn netconf_route(
    alloc: Global,
    session: &mut Handle,
    id: u32,
    agent: u16,
    line: u64,
    node: u16,
    vector: &mut u64,
) -> u32
    ensures routed { result ≡ 0
        → IsRoutedIn session.old.held id agent line node vector.new session.new.held }
    ensures refused { 16 ≤ result → IsRouteRefusedBy session.old.held id agent line node result }
    ensures memory { result ≡ 3 → IsRouteUnrefusedIn session.old.held id agent node }
    ensures closed { result ≡ 1 ↔ session.old.held ≡ None }
    ensures statuses { (result ≤ 1) ⊎ ((result ≡ 3) ⊎ ((16 ≤ result) × (result ≤ 21))) }
    ensures untold { result ≢ 0 → vector.new ≡ vector.old }
    ensures unchanged { result ≢ 0 → session.new.held ≡ session.old.held }
{
    let Some(mut opened) = session.take(alloc) else {
        return CLOSED;
    };
    let status = match opened.route(alloc, id, agent, line, node) {
        Ok(found) => {
            *vector = found;
            DONE
        }
        Err(ChangeFault::Refused(why)) => route_status(why),
        Err(ChangeFault::OutOfMemory) => NO_MEMORY,
    };
    *session = Handle::of(opened);
    status
}

/// The status of a refusal of a route, 16 to 21.
fn route_status(why: RouteRefusal) -> u32
    ensures value { result ≡ route_status why }
    ensures least { 16 ≤ result }
    ensures most { result ≤ 21 }
{
    match why {
        RouteRefusal::IdUsed => 16,
        RouteRefusal::NoAgent => 17,
        RouteRefusal::NoTarget => 18,
        RouteRefusal::BookFull => 20,
        RouteRefusal::NoPlacement => 21,
    }
}
