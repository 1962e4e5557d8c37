//! The slots of a hop.

ghost use Rattle.std.specs.Prelude.{◌≡◌, ◌<◌, ◌≤◌, ◌+◌, ◌-◌, ◌*◌, ◌/◌, ◌%◌, ◌^◌, IsTrue, ◌↔◌, IfSome, IfNone, false};
ghost use Rattle.dn_net.specs.Terms.{unit_at};
ghost use Rattle.dn_place.specs.Terms.{AreBarred, AreFree, AreFreeTo, AreShut, AreUsable, IsSearch, IsWithin, is_barred_slot, is_free_slot, is_usable_slot, slot_count, slot_of, sought};

use crate::search::{Search, end_of_run, slot_in};
use crate::slot_state::SlotState;
use dn_net::node::Unit;
use dn_tables::placement::Hop;

/// Whether a slot is free, or has this record and may be shared.
fn is_usable_slot(slot: SlotState, port: u8, page: u64) -> bool
    ensures { result ≡ is_usable_slot port page slot }
{
    match slot {
        SlotState::Free => true,
        SlotState::Shared(record) => record.port == port && record.page == page,
        SlotState::Barred => false,
    }
}

/// Whether a slot is free.
pub(crate) fn is_free_slot(slot: SlotState) -> bool
    ensures { result ≡ is_free_slot slot }
{
    match slot {
        SlotState::Free => true,
        SlotState::Shared(_) => false,
        SlotState::Barred => false,
    }
}

/// Whether the slots are free.
fn are_free(search: Search, unit: u16, first: u32, last: u32) -> bool
    requires search { IsSearch meaning search }
    requires ordered { first ≤ last }
    requires within { last < slot_count (unit_at search.system.on.net.now unit) }
    requires few { last < 262144 }
    ensures { IsTrue result ↔ AreFree (sought meaning search.entry).slots unit first last }
{
    for slot in first..last + 1 {
        if !is_free_slot(slot_in(search, unit, slot)) {
            return false;
        }
    }
    true
}

/// Whether no hop may take a slot.
pub(crate) fn is_barred_slot(slot: SlotState) -> bool
    ensures { result ≡ is_barred_slot slot }
{
    match slot {
        SlotState::Free => false,
        SlotState::Shared(_) => false,
        SlotState::Barred => true,
    }
}

/// The last of the slots that is not usable for the pages of a port, the first of which is for the
/// first slot. None where all are usable. Those before the slot `free` are known to be free.
fn last_unusable(
    search: Search,
    unit: u16,
    first: u32,
    last: u32,
    port: u8,
    page: u64,
    free: u32,
) -> Option<u32>
    requires search { IsSearch meaning search }
    requires ordered { first ≤ last }
    requires within { last < slot_count (unit_at search.system.on.net.now unit) }
    requires few { last < 262144 }
    requires page { page < 2 ^ 60 }
    requires free { AreFreeTo (sought meaning search).slots unit first free }
    ensures past { IfSome result (λ slot. first ≤ slot) }
    ensures up_to { IfSome result (λ slot. slot ≤ last) }
    ensures unusable { IfSome result (λ slot. is_usable_slot port (page + (slot - first))
        (slot_of (sought meaning search.entry).slots unit slot) ≡ false) }
    ensures none { IfNone result (AreUsable (sought meaning search.entry).slots unit first last port page) }
{
    let from = first.max(free);
    let mut end = last + 1;
    'slots: while from < end {
        end -= 1;
        if !is_usable_slot(
            slot_in(search, unit, end),
            port,
            page + u64::from(end - first),
        ) {
            return Some(end);
        }
    }
    None
}

/// The first slot past this one from which a hop can go on, where another slot is not usable for the
/// pages of a port whose first is for the first slot: a hop finds it usable only where it meets it
/// for the page of its record.
fn past_slot(found: SlotState, slot: u32, first: u32, port: u8, page: u64) -> u32
    requires ordered { first ≤ slot }
    requires few { slot < 262144 }
    requires unusable { is_usable_slot port (page + (slot - first)) found ≡ false }
    ensures onward { first < result }
    ensures most { result ≤ slot + 1 }
    ensures shut { AreShut found slot first result port page }
{
    match found {
        SlotState::Free => slot + 1,
        SlotState::Shared(record) => {
            if record.port == port
                && page <= record.page
                && record.page - page < u64::from(slot - first)
            {
                slot - (record.page - page) as u32
            } else {
                slot + 1
            }
        }
        SlotState::Barred => slot + 1,
    }
}

/// Two to a power.
pub fn power(exponent: u8) -> u64
    requires { exponent ≤ 56 }
    ensures { result ≡ 2 ^ exponent }
{
    1u64 << exponent
}

/// The slots that a hop takes of its unit.
#[derive(Clone, Copy)]
struct HopSlots {
    /// How many addresses a slot has.
    page: u64,
    first: u32,
    last: u32,
}

/// The slots that a hop takes.
fn slots_of_hop(search: Search, translator: &Unit, hop: Hop) -> HopSlots
    requires search { IsSearch meaning search }
    requires within { IsWithin (sought meaning search) translator.now hop }
    ensures page { result.page ≡ 2 ^ translator.now.page }
    ensures first { result.first ≡ hop.x / 2 ^ translator.now.page }
    ensures last { result.last
        ≡ (hop.x + search.entry.request.size - 1) / 2 ^ translator.now.page }
    ensures ordered { result.first ≤ result.last }
    ensures below { result.last < translator.now.slots }
    ensures there { result.last < slot_count (unit_at search.entry.system.on.net.now hop.unit) }
    ensures few { result.last < 262144 }
{
    let size = search.request.size;
    let page = power(translator.page);
    let first = (hop.x / page) as u32;
    let last = ((hop.x + size - 1) / page) as u32;
    HopSlots { page, first, last }
}

/// Whether the slots of a hop are free.
pub(crate) fn is_hop_free(search: Search, translator: &Unit, hop: Hop) -> bool
    requires search { IsSearch meaning search }
    requires within { IsWithin (sought meaning search) translator.now hop }
    ensures { IsTrue result ↔ AreFree (sought meaning search.entry).slots hop.unit
        (hop.x / 2 ^ translator.now.page)
        ((hop.x + search.entry.request.size - 1) / 2 ^ translator.now.page) }
{
    let slots = slots_of_hop(search, translator, hop);
    are_free(search, hop.unit, slots.first, slots.last)
}

/// An input, and before which slot those from the first of an input on are known to be free.
#[derive(Clone, Copy)]
pub(crate) struct Input {
    pub(crate) x: u64,
    pub(crate) free: u32,
}

/// The first input of a unit from the hop's on, in its place in a slot, that may find its slots
/// usable. Where it is the hop's own, it does. The slots from the first of the hop's on are known to be
/// free before a slot, and are then known to be free before the one that is answered, so that inputs in
/// turn look at each slot once; and slots that follow one in the way, and that no hop may take, are passed at once.
pub(crate) fn next_input(search: Search, translator: &Unit, hop: Hop, free: u32) -> Input
    requires search { IsSearch meaning search }
    requires within { IsWithin (sought meaning search) translator.now hop }
    requires reached { hop.y + search.request.size ≤ 2 ^ translator.now.reach }
    requires free { AreFreeTo (sought meaning search).slots hop.unit
        (hop.x / 2 ^ translator.now.page) free }
    ensures onward { hop.x ≤ result.x }
    ensures agree { result.x % 2 ^ translator.now.page ≡ hop.x % 2 ^ translator.now.page }
    ensures few { result.x ≤ 2 ^ 59 }
    ensures barred { AreBarred (sought meaning search.entry) translator.now hop result.x }
    ensures free { AreFreeTo (sought meaning search.entry).slots hop.unit
        (hop.x / 2 ^ translator.now.page) result.free }
    ensures usable { result.x ≡ hop.x → AreUsable (sought meaning search.entry).slots hop.unit
        (hop.x / 2 ^ translator.now.page)
        ((hop.x + search.entry.request.size - 1) / 2 ^ translator.now.page)
        hop.port (hop.y / 2 ^ translator.now.page) }
{
    let slots = slots_of_hop(search, translator, hop);
    let output = hop.y / slots.page;
    let from = slots.first.max(free);
    let end = end_of_run(search, hop.unit, from, slots.last + 1, false);
    match last_unusable(
        search,
        hop.unit,
        slots.first,
        slots.last,
        hop.port,
        output,
        end,
    ) {
        Some(slot) => {
            let found = slot_in(search, hop.unit, slot);
            let past = past_slot(found, slot, slots.first, hop.port, output);
            let next = end_of_run(search, hop.unit, past, translator.slots, true);
            let x = u64::from(next) * slots.page + hop.x % slots.page;
            Input { x, free: end }
        }
        None => Input {
            x: hop.x,
            free: end,
        },
    }
}
