//! The calls of C that tell what agents see.

ghost use Rattle.std.specs.Prelude.{◌≡◌, ◌≢◌, ◌≤◌, ◌⊎◌, ◌↔◌, ◌∷◌, drop, false, length, take, true, IfSome, None, Some};
ghost use Rattle.netconf_c.specs.Calls.{HasFewerNodes};
ghost use Rattle.netconf_c.specs.Seeing.{AreNamesTold, AreRowsTold, IsImageIn, IsImageTooLong, access_by, is_access_number};

use crate::output::write_out;
use crate::places::{Place, SeenRow, places_of, seen_rows, write_from};
use crate::status::{BAD_ARGUMENT, CLOSED, DONE, NO_MEMORY, NO_NODE};
use dn_base::OutOfMemory;
use dn_handle::Handle;
use dn_kind::rights::Access;
use dn_net::node::Name;
use dn_session::session::Session;
use std::alloc::Global;

/// Resolves an address of a node for an access, 1 for reading and 2 for writing. `count` is to how
/// many places it leads, and the first of them are written to the front of `places`, as many as
/// there is room for.
#[unsafe(no_mangle)]
pub extern "C" fn netconf_resolve(
    alloc: Global,
    session: &mut Handle,
    node: u16,
    address: u64,
    access: u8,
    places: &mut [Place],
    count: &mut usize,
) -> u32
    ensures told { result ≡ 0 → AreNamesTold session.old.held
        (record { node = node; addr = address }) (access_by access)
        count.new places.old places.new }
    ensures none { result ≡ 23 → HasFewerNodes session.old.held node }
    ensures wrong { result ≡ 2 ↔ is_access_number access ≡ false }
    ensures closed { result ≡ 1 ↔ (is_access_number access ≡ true) × (session.old.held ≡ None) }
    ensures statuses { (result ≤ 3) ⊎ (result ≡ 23) }
    ensures untold { result ≢ 0 → (places.new ≡ places.old) × (count.new ≡ count.old) }
    ensures unchanged { session.new.held ≡ session.old.held }
{
    let Some(access) = access_of(access) else {
        return BAD_ARGUMENT;
    };
    let Some(opened) = session.take(alloc) else {
        return CLOSED;
    };
    let name = Name {
        node,
        addr: address,
    };
    let status = resolve(alloc, &opened, name, access, places, count);
    *session = Handle::of(opened);
    status
}

/// An access by its number.
pub(crate) fn access_of(number: u8) -> Option<Access>
    ensures same { IfSome result (λ a. a ≡ access_by number) }
    ensures some { IfSome result (λ a. is_access_number number ≡ true) }
    ensures none { result ≡ None → is_access_number number ≡ false }
{
    match number {
        1 => Some(Access::Read),
        2 => Some(Access::Write),
        _ => None,
    }
}

/// Resolves a name of a session.
fn resolve(
    alloc: Global,
    session: &Session,
    name: Name,
    access: Access,
    places: &mut [Place],
    count: &mut usize,
) -> u32
    ensures told { result ≡ 0 → AreNamesTold (Some session.now) name access
        count.new places.old places.new }
    ensures none { result ≡ 23 → length session.now.net ≤ name.node }
    ensures statuses { (result ≡ 0) ⊎ ((result ≡ 3) ⊎ (result ≡ 23)) }
    ensures untold { result ≢ 0 → (places.new ≡ places.old) × (count.new ≡ count.old) }
{
    if name.node >= session.net().nodes() {
        return NO_NODE;
    }
    let Ok(names) = session.resolve(alloc, name, access) else {
        return NO_MEMORY;
    };
    let Ok(all) = places_of(alloc, names.list()) else {
        return NO_MEMORY;
    };
    *count = all.len();
    write_from(all.as_slice(), 0, places);
    DONE
}

/// Tells what a node sees for an access, 1 for reading and 2 for writing. `count` is how many rows
/// that are, and those from a number on are written to the front of `rows`, as many as there are or
/// there is room for.
#[unsafe(no_mangle)]
pub extern "C" fn netconf_view(
    alloc: Global,
    session: &mut Handle,
    node: u16,
    access: u8,
    from: usize,
    rows: &mut [SeenRow],
    count: &mut usize,
) -> u32
    ensures told { result ≡ 0 → AreRowsTold session.old.held node (access_by access)
        from count.new rows.old rows.new }
    ensures none { result ≡ 23 → HasFewerNodes session.old.held node }
    ensures wrong { result ≡ 2 ↔ is_access_number access ≡ false }
    ensures closed { result ≡ 1 ↔ (is_access_number access ≡ true) × (session.old.held ≡ None) }
    ensures statuses { (result ≤ 3) ⊎ (result ≡ 23) }
    ensures untold { result ≢ 0 → (rows.new ≡ rows.old) × (count.new ≡ count.old) }
    ensures unchanged { session.new.held ≡ session.old.held }
{
    let Some(access) = access_of(access) else {
        return BAD_ARGUMENT;
    };
    let Some(opened) = session.take(alloc) else {
        return CLOSED;
    };
    let status = view(alloc, &opened, node, access, from, rows, count);
    *session = Handle::of(opened);
    status
}

/// Tells what a node of a session sees.
fn view(
    alloc: Global,
    session: &Session,
    node: u16,
    access: Access,
    from: usize,
    rows: &mut [SeenRow],
    count: &mut usize,
) -> u32
    ensures told { result ≡ 0 → AreRowsTold (Some session.now) node access
        from count.new rows.old rows.new }
    ensures none { result ≡ 23 → length session.now.net ≤ node }
    ensures statuses { (result ≡ 0) ⊎ ((result ≡ 3) ⊎ (result ≡ 23)) }
    ensures untold { result ≢ 0 → (rows.new ≡ rows.old) × (count.new ≡ count.old) }
{
    if node >= session.net().nodes() {
        return NO_NODE;
    }
    let Ok(seen) = session.view(alloc, node, access) else {
        return NO_MEMORY;
    };
    let Ok(all) = seen_rows(alloc, seen.rows()) else {
        return NO_MEMORY;
    };
    *count = all.len();
    write_from(all.as_slice(), from, rows);
    DONE
}

/// Writes the image of the present tables to the front of `out`; `written` is how many bytes it
/// has.
#[unsafe(no_mangle)]
pub extern "C" fn netconf_image(
    alloc: Global,
    session: &mut Handle,
    out: &mut [u8],
    written: &mut usize,
) -> u32
    ensures told { result ≡ 0 → IsImageIn session.old.held (take written.new out.new) }
    ensures within { result ≡ 0 → written.new ≤ length out.old }
    ensures rest { result ≡ 0 → drop written.new out.new ≡ drop written.new out.old }
    ensures small { result ≡ 4 → IsImageTooLong session.old.held written.new (length out.old) }
    ensures closed { result ≡ 1 ↔ session.old.held ≡ None }
    ensures statuses { (result ≤ 1) ⊎ ((result ≡ 3) ⊎ (result ≡ 4)) }
    ensures untold { result ≢ 0 → out.new ≡ out.old }
    ensures unmeasured { (result ≡ 1) ⊎ (result ≡ 3) → written.new ≡ written.old }
    ensures unchanged { session.new.held ≡ session.old.held }
{
    let Some(opened) = session.take(alloc) else {
        return CLOSED;
    };
    let status = match opened.image(alloc) {
        Ok(bytes) => write_out(bytes.as_slice(), out, written, DONE),
        Err(OutOfMemory) => NO_MEMORY,
    };
    *session = Handle::of(opened);
    status
}
