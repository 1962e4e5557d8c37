//! The calls of C on an image.

ghost use Rattle.std.specs.Prelude.{◌≡◌, ◌≢◌, ◌≤◌, ◌⊎◌, ◌↔◌, drop, false, length, take, true, None, Some};
ghost use Rattle.dn_image.specs.Reading.{BrokenImage};
ghost use Rattle.dn_image.specs.Terms.{image_fault_view};
ghost use Rattle.netconf_c.specs.Images.{AreNamesFound, HasNoAgent, IsAuditIn, IsAuditTooLong, IsBrokenBy, IsNoImageBy, broken_place, broken_status};
ghost use Rattle.netconf_c.specs.Seeing.{access_by, is_access_number};

use crate::output::write_out;
use crate::places::{Place, places_of, write_from};
use crate::seeing::access_of;
use crate::status::{BAD_ARGUMENT, CLOSED, DONE, NO_AGENT, NO_MEMORY};
use dn_audit::fault::AuditFault;
use dn_audit::text::audit_text;
use dn_handle::Handle;
use dn_image::fault::ImageFault;
use dn_kind::rights::Access;
use dn_lookup::lookup::LookupFault;
use dn_net::node::Name;
use dn_session::session::Session;
use std::alloc::Global;

/// The bytes end inside a field.
const IMAGE_SHORT: u32 = 24;
/// The mark, the version or the number of units is another.
const IMAGE_HEADER: u32 = 25;
/// The head of a unit is another.
const IMAGE_SHAPE: u32 = 26;
/// Bytes follow the last word.
const IMAGE_TRAILING: u32 = 27;

/// Looks an address of an agent up in an image, for an access, 1 for reading and 2 for writing.
/// `count` is to how many places it leads, and the first of them are written to the front of
/// `places`, as many as there is room for. Where the bytes are no image of the net, `at` is the
/// place of the first field that is wrong.
#[unsafe(no_mangle)]
pub extern "C" fn netconf_lookup(
    alloc: Global,
    session: &mut Handle,
    image: &[u8],
    agent: u16,
    address: u64,
    access: u8,
    places: &mut [Place],
    count: &mut usize,
    at: &mut u64,
) -> u32
    ensures told { result ≡ 0 → AreNamesFound session.old.held image.now
        (record { node = agent; addr = address }) (access_by access)
        count.new places.old places.new }
    ensures no_agent { result ≡ 17 → HasNoAgent session.old.held image.now
        (record { node = agent; addr = address }) (access_by access) }
    ensures broken { 24 ≤ result → IsBrokenBy session.old.held image.now
        (record { node = agent; addr = address }) (access_by access) result at.new }
    ensures wrong { result ≡ 2 ↔ is_access_number access ≡ false }
    ensures closed { result ≡ 1 ↔ (is_access_number access ≡ true) × (session.old.held ≡ None) }
    ensures statuses { (result ≤ 3) ⊎ ((result ≡ 17) ⊎ ((24 ≤ result) × (result ≤ 27))) }
    ensures untold { result ≢ 0 → (places.new ≡ places.old) × (count.new ≡ count.old) }
    ensures unplaced { result ≤ 17 → at.new ≡ at.old }
    ensures unchanged { session.new.held ≡ session.old.held }
{
    let Some(access) = access_of(access) else {
        return BAD_ARGUMENT;
    };
    let Some(opened) = session.take(alloc) else {
        return CLOSED;
    };
    let name = Name {
        node: agent,
        addr: address,
    };
    let status = lookup(alloc, &opened, image, name, access, places, count, at);
    *session = Handle::of(opened);
    status
}

/// Looks a name of a session up in an image.
fn lookup(
    alloc: Global,
    session: &Session,
    image: &[u8],
    name: Name,
    access: Access,
    places: &mut [Place],
    count: &mut usize,
    at: &mut u64,
) -> u32
    ensures told { result ≡ 0 → AreNamesFound (Some session.now) image.now name access
        count.new places.old places.new }
    ensures no_agent { result ≡ 17 → HasNoAgent (Some session.now) image.now name access }
    ensures broken { 24 ≤ result → IsBrokenBy (Some session.now) image.now name access
        result at.new }
    ensures statuses { (result ≡ 0) ⊎ ((result ≡ 3)
        ⊎ ((result ≡ 17) ⊎ ((24 ≤ result) × (result ≤ 27)))) }
    ensures untold { result ≢ 0 → (places.new ≡ places.old) × (count.new ≡ count.old) }
    ensures unplaced { result ≤ 17 → at.new ≡ at.old }
{
    match session.lookup(alloc, image, name, access) {
        Ok(names) => {
            let Ok(all) = places_of(alloc, names.list()) else {
                return NO_MEMORY;
            };
            *count = all.len();
            write_from(all.as_slice(), 0, places);
            DONE
        }
        Err(LookupFault::NoAgent) => NO_AGENT,
        Err(LookupFault::Image(fault)) => broken(fault, at),
        Err(LookupFault::OutOfMemory) => NO_MEMORY,
    }
}

/// Writes what each agent would see under an image to the front of `out`, as the program does with
/// the word `audit`; `written` is how many bytes that are. Where the bytes are no image of the net,
/// `at` is the place of the first field that is wrong.
#[unsafe(no_mangle)]
pub extern "C" fn netconf_audit(
    alloc: Global,
    session: &mut Handle,
    image: &[u8],
    out: &mut [u8],
    written: &mut usize,
    at: &mut u64,
) -> u32
    ensures told { result ≡ 0 → IsAuditIn session.old.held image.now (take written.new out.new) }
    ensures within { result ≡ 0 → written.new ≤ length out.old }
    ensures rest { result ≡ 0 → drop written.new out.new ≡ drop written.new out.old }
    ensures small { result ≡ 4
        → IsAuditTooLong session.old.held image.now written.new (length out.old) }
    ensures broken { 24 ≤ result → IsNoImageBy session.old.held image.now result at.new }
    ensures closed { result ≡ 1 ↔ session.old.held ≡ None }
    ensures statuses { (result ≤ 1) ⊎ ((result ≡ 3)
        ⊎ ((result ≡ 4) ⊎ ((24 ≤ result) × (result ≤ 27)))) }
    ensures untold { result ≢ 0 → out.new ≡ out.old }
    ensures unmeasured { result ≢ 0 → result ≢ 4 → written.new ≡ written.old }
    ensures unplaced { result ≤ 4 → at.new ≡ at.old }
    ensures unchanged { session.new.held ≡ session.old.held }
{
    let Some(opened) = session.take(alloc) else {
        return CLOSED;
    };
    let status = audit(alloc, &opened, image, out, written, at);
    *session = Handle::of(opened);
    status
}

/// Writes what each agent of a session would see under an image.
fn audit(
    alloc: Global,
    session: &Session,
    image: &[u8],
    out: &mut [u8],
    written: &mut usize,
    at: &mut u64,
) -> u32
    ensures told { result ≡ 0 → IsAuditIn (Some session.now) image.now (take written.new out.new) }
    ensures within { result ≡ 0 → written.new ≤ length out.old }
    ensures rest { result ≡ 0 → drop written.new out.new ≡ drop written.new out.old }
    ensures small { result ≡ 4
        → IsAuditTooLong (Some session.now) image.now written.new (length out.old) }
    ensures broken { 24 ≤ result → IsNoImageBy (Some session.now) image.now result at.new }
    ensures statuses { (result ≡ 0) ⊎ ((result ≡ 3)
        ⊎ ((result ≡ 4) ⊎ ((24 ≤ result) × (result ≤ 27)))) }
    ensures untold { result ≢ 0 → out.new ≡ out.old }
    ensures unmeasured { result ≢ 0 → result ≢ 4 → written.new ≡ written.old }
    ensures unplaced { result ≤ 4 → at.new ≡ at.old }
{
    match session.audit(alloc, image) {
        Ok(report) => match audit_text(alloc, session.net(), &report) {
            Ok(text) => write_out(text.as_slice(), out, written, DONE),
            Err(_) => NO_MEMORY,
        },
        Err(AuditFault::Image(fault)) => broken(fault, at),
        Err(AuditFault::OutOfMemory) => NO_MEMORY,
    }
}

/// The status of bytes that are no image, 24 to 27, whose first wrong field is left at `at`; and of
/// want of memory.
fn broken(fault: ImageFault, at: &mut u64) -> u32
    ensures told { (why : BrokenImage) → image_fault_view fault ≡ Some why
        → (result ≡ broken_status why) × (at.new ≡ broken_place why) }
    ensures memory { image_fault_view fault ≡ None → result ≡ 3 }
    ensures statuses { (result ≡ 3) ⊎ ((24 ≤ result) × (result ≤ 27)) }
    ensures unplaced { result ≡ 3 → at.new ≡ at.old }
{
    match fault {
        ImageFault::Short { at: place } => {
            *at = place;
            IMAGE_SHORT
        }
        ImageFault::Header { at: place } => {
            *at = place;
            IMAGE_HEADER
        }
        ImageFault::Shape { unit } => {
            *at = u64::from(unit);
            IMAGE_SHAPE
        }
        ImageFault::Trailing { at: place } => {
            *at = place;
            IMAGE_TRAILING
        }
        ImageFault::OutOfMemory => NO_MEMORY,
    }
}
