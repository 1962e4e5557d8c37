//! Names in units to which other agents come by the records in use: what a new record leads to there is seen from them.

ghost use Rattle.std.specs.Prelude.{◌≡◌, ℕ, ◌+◌, ◌-◌, true, nat_eq, List, IfOk, IsTrue};
ghost use Rattle.std.specs.List.{list_any};
ghost use Rattle.dn_interval.specs.declared.row.End.{End};
ghost use Rattle.dn_interval.specs.Terms.{GivenBy, seg_gives, segs_give};
ghost use Rattle.dn_net.specs.declared.node.NodeDecl.{NodeDecl};
ghost use Rattle.dn_kind.specs.Terms.{Held, allows, are_rights, kinds_of};
ghost use Rattle.dn_placement.specs.declared.request.Request.{Request};
ghost use Rattle.dn_tables.specs.Terms.{FitsNet, record_kept};
ghost use Rattle.dn_view.specs.Terms.{IsSystem};
ghost use Rattle.dn_place.specs.Terms.{AreKeptNames, IsNamed};

use crate::OutOfMemory;
use crate::reach::{ReachMarks, has_second};
use crate::unit::unit_in;
use dn_interval::onward::last_out;
use dn_interval::{End, Rows, Seg, Span};
use dn_kind::rights::{Access, Rights};
use dn_placement::request::Request;
use dn_tables::set::TableSet;
use dn_view::kept::kept_stops;
use dn_view::system::System;
use std::alloc::Global;

/// The list is made where so many words in use are gone through at most, each once for each agent.
const MOST_WORDS: u64 = 2048;

/// The names in units to which agents other than the one that asks come by the records of the tables, for an access that
/// is asked for: as rows, in which each name stands at its own address. None where the list is not due.
pub(crate) fn kept_names(
    alloc: Global,
    system: System,
    tables: &TableSet,
    request: &Request,
    reach: &ReachMarks,
) -> Result<Rows, OutOfMemory>
    requires system { IsSystem meaning system }
    requires fits { FitsNet system.on.net.now (kinds_of meaning system.on.kinds.now) tables.now }
    requires rights { IsTrue (are_rights request.now.rights) }
    ensures { IfOk result (λ rows. AreKeptNames system.entry.on.net.now
        (record_kept (kinds_of meaning system.entry.on.kinds.now) tables.now) request.now rows) }
{
    if !is_due(system, tables, reach) {
        return no_names(alloc);
    }
    let access = asked_access(request.rights);
    let stops = kept_stops(alloc, system, tables, request.agent, access)?;
    let own = named(alloc, stops.as_slice())?;
    Rows::normal(alloc, own.as_slice())
}

/// Whether the list is due: a second hop can stand somewhere, and few words are in use in the units that lead on, times
/// the agents that see names of these. A search that makes the list in vain then loses little.
fn is_due(system: System, tables: &TableSet, reach: &ReachMarks) -> bool
    requires system { IsSystem meaning system }
    requires fits { FitsNet system.on.net.now (kinds_of meaning system.on.kinds.now) tables.now }
{
    if !has_second(reach) {
        return false;
    }
    let seers = system.flats.seers();
    let units = reach.units.as_slice();
    let mut words: u64 = 0;
    for unit in units {
        if seers.leads_on(*unit) {
            words = words.saturating_add(words_in_use(system, tables, *unit));
        }
    }
    words.saturating_mul(seers.onward().len() as u64) <= MOST_WORDS
}

/// How many words of a unit may be in use, if it is one: no more than it has slots.
fn words_in_use(system: System, tables: &TableSet, unit: u16) -> u64
    requires system { IsSystem meaning system }
    requires fits { FitsNet system.on.net.now (kinds_of meaning system.on.kinds.now) tables.now }
{
    match unit_in(system, unit) {
        Some(translator) => {
            let words = tables.words(unit).made() as u64;
            words.min(u64::from(translator.slots))
        }
        None => 0,
    }
}

/// No names.
pub(crate) fn no_names(alloc: Global) -> Result<Rows, OutOfMemory>
    ensures { IfOk result (λ rows. (net : List NodeDecl) (h : Held) (rq : Request) →
        AreKeptNames net h rq rows) }
{
    let none = Vec::new(alloc);
    Rows::normal(alloc, none.as_slice())
}

/// An access that rights allow.
fn asked_access(rights: Rights) -> Access
    requires { IsTrue (are_rights rights) }
    ensures { IsTrue (allows rights result) }
{
    if rights.allows(Access::Read) {
        Access::Read
    } else {
        Access::Write
    }
}

/// The names of segments, each at its own address.
fn named(alloc: Global, segs: &[Seg]) -> Result<Vec<Seg>, OutOfMemory>
    ensures { IfOk result (λ own. (x : ℕ) (z : End) → segs_give own.items x z ≡ true →
        IsNamed segs.now x z) }
{
    let mut own = Vec::new(alloc);
    for seg in segs {
        own.push(at_itself(*seg))?;
    }
    Ok(own)
}

/// The names of a segment, each at its own address.
fn at_itself(seg: Seg) -> Seg
    ensures { (x : ℕ) (z : End) → seg_gives result x z ≡ true → (z.base ≡ x) ×
        (seg_gives seg (seg.span.lo + (x - seg.base)) z ≡ true) }
{
    let span = Span {
        lo: seg.base,
        hi: last_out(seg),
    };
    Seg {
        span,
        node: seg.node,
        base: seg.base,
    }
}

/// Whether rows give a name of a unit to an address.
pub(crate) fn has_name(rows: &Rows, unit: u16, x: u64) -> bool
    ensures { IsTrue result → (b : ℕ) × GivenBy rows.now x (record { node = unit; base = b }) }
{
    let _all = rows.rows();
    match rows.at(x) {
        Some(row) => has_node(row.ends(), unit),
        None => false,
    }
}

/// Whether one of the names is in a node.
fn has_node(ends: &[End], node: u16) -> bool
    ensures { result ≡ list_any (λ e. nat_eq e.node node) ends.now }
{
    for end in ends {
        if end.node == node {
            return true;
        }
    }
    false
}
