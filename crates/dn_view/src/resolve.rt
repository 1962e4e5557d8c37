//! What one name resolves to under tables: by what the nodes of the net reach, and for few names level by level,
//! where each level has the names one step on from those of the level before it.

ghost use Rattle.std.specs.Prelude.{◌≡◌, ◌++◌, ◌↔◌, [], ◌∷◌, ◌<◌, length, IfOk, IfSome, OnOk, IsTrue};
ghost use Rattle.dn_interval.specs.declared.row.End.{End};
ghost use Rattle.dn_interval.specs.Terms.{segs_give};
ghost use Rattle.dn_net.specs.Terms.{each_step, is_accepted, passing_names, sorted_names};
ghost use Rattle.dn_kind.specs.Terms.{IsKinded, allowing, are_there, kinds_of, resolved_names_under, steps_under};
ghost use Rattle.dn_tables.specs.Terms.{FitsNet, record_kept};
ghost use Rattle.dn_view.specs.Terms.{AreSystemTables, IsSystem, ResolvesFromUnder};

use crate::OutOfMemory;
use crate::course::Course;
use crate::names::{push_given, seg_of};
use crate::output::output;
use crate::records::Records;
use crate::shown::push_through;
use crate::system::System;
use dn_interval::Seg;
use dn_kind::kinded::KindedNet;
use dn_kind::levels::{LEVELS, first_level, push_moved, push_sent, set_of};
use dn_kind::rights::Access;
use dn_net::names::Names;
use dn_net::node::Name;
use dn_net::step::Step;
use dn_tables::set::TableSet;
use std::alloc::Global;

/// How many names are few enough to be followed one by one.
const FEW: usize = 128;

/// What a name resolves to for an access under the tables, by what the nodes of the net reach: time of the levels of
/// the nodes on the way, and of the names that these give to the address. `Err` is want of memory.
pub fn resolve<'a>(
    alloc: Global,
    system: System<'a>,
    tables: &'a TableSet,
    name: Name,
    access: Access,
) -> Result<Names, OutOfMemory>
    requires system { IsSystem meaning system }
    requires fits { FitsNet system.on.net.now (kinds_of meaning system.on.kinds.now) tables.now }
    requires there { name.node < length system.on.net.now }
    ensures names { IfOk result (λ names. names
        ≡ resolved_names_under system.entry.on.net.now (allowing access
        (record_kept (kinds_of meaning system.entry.on.kinds.now) tables.now)) name) }
{
    let Some(seg) = seg_of(name) else {
        return Ok(Names::new(alloc));
    };
    let shown = shown_at(alloc, system, tables, seg, access)?;
    let mut found = Vec::new(alloc);
    push_given(&mut found, shown.as_slice(), name.addr)?;
    set_of(alloc, found)
}

/// What a name that leads to few names resolves to for an access under the tables: they are followed one by one, level
/// by level. `None` says nothing of the name: [`resolve`] is to answer then. `Err` is want of memory.
pub fn resolve_few(
    alloc: Global,
    on: KindedNet,
    tables: &TableSet,
    name: Name,
    access: Access,
) -> Result<Option<Names>, OutOfMemory>
    requires on { IsKinded meaning on }
    requires fits { FitsNet on.net.now (kinds_of meaning on.kinds.now) tables.now }
    requires there { name.node < length on.net.now }
    ensures names { IfOk result
        (λ found. IfSome found (λ names. names ≡ resolved_names_under on.entry.net.now
        (allowing access (record_kept (kinds_of meaning on.entry.kinds.now) tables.now)) name)) }
{
    let mut accepted = Vec::new(alloc);
    let mut level = first_level(alloc, name)?;
    let mut room = FEW;
    for _ in 0..LEVELS {
        let names = level.list();
        if names.is_empty() {
            break;
        }
        if room < names.len() {
            return Ok(None);
        }
        room -= names.len();
        level = next_level(alloc, on, tables, access, names, &mut accepted)?;
    }
    Ok(Some(set_of(alloc, accepted)?))
}

/// The accepted names to which the names of a segment come for an access under the tables, as segments:
/// those at its first address.
fn shown_at<'a>(
    alloc: Global,
    system: System<'a>,
    tables: &'a TableSet,
    seg: Seg,
    access: Access,
) -> Result<Vec<Seg>, OutOfMemory>
    requires system { IsSystem meaning system }
    requires fits { FitsNet system.on.net.now (kinds_of meaning system.on.kinds.now) tables.now }
    requires there { seg.node < length system.on.net.now }
    ensures { IfOk result (λ shown. (z : End) → IsTrue (segs_give shown.items seg.span.lo z)
        ↔ ResolvesFromUnder system.entry.on.net.now (allowing access (record_kept
        (kinds_of meaning system.entry.on.kinds.now) tables.now)) seg.node seg.base z) }
{
    let mut shown = Vec::new(alloc);
    let mut mid = Vec::new(alloc);
    system.flats.push_accepted(&mut shown, &mut mid, seg)?;
    let mut stops = Vec::new(alloc);
    system.flats.push_stops(&mut stops, seg)?;
    let course = Course {
        system,
        tables,
        records: Records::Kept,
        access,
    };
    push_through(alloc, &mut shown, course, stops)?;
    Ok(shown)
}

/// The names one step on from those of a level. Those of the level that are accepted are appended.
fn next_level(
    alloc: Global,
    on: KindedNet,
    tables: &TableSet,
    access: Access,
    level: &[Name],
    accepted: &mut Vec<Name>,
) -> Result<Names, OutOfMemory>
    requires tables { AreSystemTables meaning on tables.now }
    requires there { IsTrue (are_there (length on.net.now) level.now) }
    ensures accepted { OnOk result (accepted.new.items
        ≡ accepted.old.items ++ passing_names (is_accepted on.entry.net.now) level.now) }
    ensures next { IfOk result (λ names. names
        ≡ sorted_names (each_step (steps_under on.entry.net.now (allowing access
        (record_kept (kinds_of meaning on.entry.kinds.now) tables.now))) level.now)) }
    ensures there { IfOk result (λ names. IsTrue (are_there (length on.entry.net.now) names)) }
{
    let mut next = Vec::new(alloc);
    for name in level {
        push_steps(on, tables, access, *name, accepted, &mut next)?;
    }
    set_of(alloc, next)
}

/// Appends the names one step on from a name, and where it is accepted, the name itself to the others.
fn push_steps(
    on: KindedNet,
    tables: &TableSet,
    access: Access,
    name: Name,
    accepted: &mut Vec<Name>,
    next: &mut Vec<Name>,
) -> Result<(), OutOfMemory>
    requires tables { AreSystemTables meaning on tables.now }
    requires there { name.node < length on.net.now }
    ensures accepted { OnOk result (accepted.new.items
        ≡ accepted.old.items ++ passing_names (is_accepted on.entry.net.now) (name ∷ [])) }
    ensures next { OnOk result (next.new.items ≡ next.old.items ++ steps_under on.entry.net.now
        (allowing access (record_kept (kinds_of meaning on.entry.kinds.now) tables.now)) name) }
{
    match on.net.step(name) {
        Step::Accepted => Ok(accepted.push(name)?),
        Step::To(dests, offset) => push_moved(next, dests, offset),
        Step::Stop => push_sent(next, output(on, tables, access, name)),
        Step::Nothing => Ok(()),
    }
}
