//! A search for the first admissible placement: what is asked for, and what is known before it begins.

ghost use Rattle.std.specs.Prelude.{◌≡◌, ◌+◌, ◌<◌, ◌≤◌, ◌↔◌, IfOk, IfSome, IsTrue, length};
ghost use Rattle.dn_net.specs.Terms.{unit_at};
ghost use Rattle.dn_flat.specs.Terms.{AreAgentStops, AreCrowded};
ghost use Rattle.dn_placement.specs.Terms.{IsAdmissible, IsPlacement};
ghost use Rattle.dn_place.specs.Terms.{IsSearch, IsSlotRun, hops_view, slot_count, slot_of, sought};

use crate::OutOfMemory;
use crate::hops::Hops;
use crate::reach::ReachMarks;
use crate::slot_state::SlotState;
use crate::tables::{run_end, slot_at};
use dn_interval::{Rows, Span};
use dn_placement::request::Request;
use dn_tables::placement::Placement;
use dn_tables::set::TableSet;
use dn_view::exact::exact;
use dn_view::system::System;
use std::alloc::Global;

/// The placement that is found, if there is one. `Err` means that memory ran out.
pub(crate) type FoundPlacement = Result<Option<Placement>, OutOfMemory>;

/// A request, the system and the tables in which a placement of it is searched for, and what is known of them before the
/// search begins.
#[derive(Clone, Copy)]
pub(crate) struct Search<'a> {
    pub(crate) system: System<'a>,
    pub(crate) tables: &'a TableSet,
    pub(crate) request: Request,
    /// The units in which hops can stand, and the agent's address if one is asked for.
    pub(crate) reach: &'a ReachMarks,
    /// How many hops the placement has: 1 to 3.
    pub(crate) count: u8,
    /// Every window and port keeps blocks of 2 to this power addresses whole.
    pub(crate) block: u8,
    /// Names in units that other agents reach through the records in use, each at its own address.
    pub(crate) kept: &'a Rows,
}

/// The state of a slot of a unit, as a hop finds it.
pub(crate) fn slot_in(search: Search, unit: u16, slot: u32) -> SlotState
    requires search { IsSearch meaning search }
    requires there { slot < slot_count (unit_at search.system.on.net.now unit) }
    ensures { result ≡ slot_of (sought meaning search.entry).slots unit slot }
{
    slot_at(search.system.on.kinds, search.tables, unit, slot)
}

/// The slot before which all slots of a unit from `from` on are free, or barred if `barred` is set. It is at most `end`
/// unless `from` is past it.
pub(crate) fn end_of_run(search: Search, unit: u16, from: u32, end: u32, barred: bool) -> u32
    requires search { IsSearch meaning search }
    requires within { end ≤ slot_count (unit_at search.system.on.net.now unit) }
    ensures { IsSlotRun barred (sought meaning search.entry).slots unit from end result }
{
    run_end(search.tables, unit, from, end, barred)
}

/// Names of a unit, one after another, each of which two addresses of agents reach: some of them lie among the names that
/// the request takes from `first` on. `None` says nothing.
pub(crate) fn crowd_among(search: Search, unit: u16, first: u64) -> Option<Span>
    requires search { IsSearch meaning search }
    ensures crowded { IfSome result (λ s. AreCrowded search.entry.system.on.net.now unit s) }
    ensures from { IfSome result (λ s. first ≤ s.hi) }
    ensures to { IfSome result (λ s. s.lo < first + search.entry.request.size) }
{
    let size = search.request.size;
    search.system.flats.crowd_among(unit, first, size)
}

/// Names of a unit, one after another, each of which an address of an agent reaches: some of them lie among the names
/// that the request takes from `first` on. `None` says nothing.
pub(crate) fn agent_stop_among(search: Search, unit: u16, first: u64) -> Option<Span>
    requires search { IsSearch meaning search }
    ensures stopped { IfSome result (λ s. AreAgentStops search.entry.system.on.net.now unit s) }
    ensures from { IfSome result (λ s. first ≤ s.hi) }
    ensures to { IfSome result (λ s. s.lo < first + search.entry.request.size) }
{
    let size = search.request.size;
    search.system.flats.agent_stop_among(unit, first, size)
}

/// Whether the placement with these hops is admissible, at an address of the agent and with this own hop.
pub(crate) fn is_exact(
    alloc: Global,
    search: Search,
    v: u64,
    hops: Hops,
    own: u8,
) -> Result<bool, OutOfMemory>
    requires search { IsSearch meaning search }
    requires own { own < length (hops_view hops) }
    requires placed { IsPlacement search.system.on.net.now (sought meaning search).slots
        search.request (record { v = v; hops = hops_view hops; own = own }) }
    ensures { IfOk result (λ yes. IsTrue yes ↔ IsAdmissible search.entry.system.on.net.now
        (sought meaning search.entry).slots.held search.entry.request
        (record { v = v; hops = hops_view hops; own = own })) }
{
    let placement = hops.into_placement(alloc, v, own);
    exact(
        alloc,
        search.system,
        search.tables,
        &search.request,
        &placement,
    )
}
