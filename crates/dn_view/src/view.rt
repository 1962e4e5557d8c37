//! What an agent sees under tables.

ghost use Rattle.std.specs.Prelude.{ℕ, ◌<◌, ◌≤◌, ◌⊎◌, ◌↔◌, length, IfNone, IfOk, IfSome, OnOk, IsTrue};
ghost use Rattle.dn_interval.specs.declared.row.End.{End};
ghost use Rattle.dn_interval.specs.declared.span.TheConstants.{TOP};
ghost use Rattle.dn_interval.specs.Terms.{ends_within, segs_give};
ghost use Rattle.dn_net.specs.Terms.{IsLegalNet};
ghost use Rattle.dn_kind.specs.Terms.{Held, allowing, kinds_of};
ghost use Rattle.dn_walk.specs.Terms.{name_of_end};
ghost use Rattle.dn_flat.specs.Terms.{IsFlat, levels_give};
ghost use Rattle.dn_tables.specs.Terms.{FitsNet, record_kept};
ghost use Rattle.dn_view.specs.Terms.{AreViewed, ComesThrough, IsSystem, ReachesUnit, stops_of};

use crate::OutOfMemory;
use crate::course::Course;
use crate::holding::some_hold;
use crate::records::Records;
use crate::shown::{node_stops, push_through};
use crate::system::System;
use dn_flat::flat::Flat;
use dn_interval::{Rows, Seg};
use dn_kind::rights::Access;
use dn_net::net::Net;
use dn_tables::set::TableSet;
use std::alloc::Global;

/// To what the addresses of a node resolve under any tables, as normal rows, where they reach no unit:
/// the rows of its flattened view, which are lent. None where they reach one.
pub fn fixed_view<'a>(net: &Net, flat: &'a Flat, node: u16) -> Option<&'a Rows>
    requires legal { IsLegalNet net.now }
    requires flat { IsFlat net.now node flat.now }
    ensures rows { IfSome result (λ rows. (h : Held) → AreViewed net.now h node rows.now) }
    // Each name of a row is in a node that is there.
    ensures within { IfSome result (λ rows. IsTrue (ends_within (length net.now) rows.now)) }
    ensures none { IfNone result (ReachesUnit net.now node) }
{
    let (_net, _node) = (net, node);
    if flat.stops.rows().is_empty() {
        Some(&flat.accepts)
    } else {
        None
    }
}

/// To what the addresses of a node resolve for an access under the tables, as normal rows. `Err` is
/// want of memory.
pub fn view<'a>(
    alloc: Global,
    system: System<'a>,
    tables: &'a TableSet,
    node: u16,
    access: Access,
) -> Result<Rows, OutOfMemory>
    requires system { IsSystem meaning system }
    requires fits { FitsNet system.on.net.now (kinds_of meaning system.on.kinds.now) tables.now }
    requires there { node < length system.on.net.now }
    ensures rows { IfOk result (λ rows. AreViewed system.entry.on.net.now (allowing access
        (record_kept (kinds_of meaning system.entry.on.kinds.now) tables.now)) node rows) }
    // Each name of a row is in a node that is there.
    ensures within { IfOk result
        (λ rows. IsTrue (ends_within (length system.entry.on.net.now) rows)) }
{
    let mut shown = system.flats.accepted_segs(alloc, node)?;
    push_units(alloc, &mut shown, system, tables, node, access)?;
    Rows::normal(alloc, shown.as_slice())
}

/// Adds the accepted names to which the addresses of a node come through units. There are none where the units to which
/// the node leads hold no records: so much is seen without its stops.
fn push_units<'a>(
    alloc: Global,
    shown: &mut Vec<Seg>,
    system: System<'a>,
    tables: &'a TableSet,
    node: u16,
    access: Access,
) -> Result<(), OutOfMemory>
    requires system { IsSystem meaning system }
    requires fits { FitsNet system.on.net.now (kinds_of meaning system.on.kinds.now) tables.now }
    requires there { node < length system.flats.now.nodes }
    ensures { OnOk result ((a : ℕ) (z : End) → a ≤ TOP → IsTrue (segs_give shown.new.items a z)
        ↔ (IsTrue (segs_give shown.old.items a z) ⊎ ((s : End) × IsTrue (levels_give
        (stops_of system.entry.flats.now node) a s) × ComesThrough system.entry.on.net.now
        (allowing access (record_kept (kinds_of meaning system.entry.on.kinds.now) tables.now))
        (name_of_end s) (name_of_end z)))) }
{
    let units = system.flats.of(node).units.as_slice();
    if !some_hold(system, tables, units) {
        return Ok(());
    }
    let stops = node_stops(alloc, system.flats, node)?;
    let course = Course {
        system,
        tables,
        records: Records::Kept,
        access,
    };
    push_through(alloc, shown, course, stops)
}
