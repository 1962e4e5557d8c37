//! The table of the live walks of a net.

ghost use Rattle.std.specs.Prelude.{◌≡◌, ◌+◌, ◌-◌, ◌<◌, ◌≤◌, ◌++◌, drop, map, length, IfOk, IsTrue};
ghost use Rattle.std.specs.List.{All, flat_map};
ghost use Rattle.std.specs.List.Sorted.{IsNonDecreasingBy};
ghost use Rattle.dn_base.specs.Terms.{Checks};
ghost use Rattle.dn_interval.specs.declared.span.TheConstants.{TOP};
ghost use Rattle.dn_net.specs.Terms.{IsShallow, KeepsNodeRules, has_plain_units, live_walks, step_limit, unit_fault, unit_numbers, walk_fault};
ghost use Rattle.dn_walk.specs.declared.level.TheConstants.{WALK_LIMIT};
ghost use Rattle.dn_walk.specs.declared.walks.WalkRow.{WalkRow};
ghost use Rattle.dn_walk.specs.Terms.{AreWalksOf, bare_walk, row_view, shown_fault, walk_fault_view};

use crate::accepted::accepted_sets;
use crate::chain::first_chain;
use crate::fault::WalkFault;
use crate::fork::{FoundFork, least_fork};
use crate::leads::unit_numbers;
use crate::leg::{Legs, net_legs};
use crate::level::{WALK_LIMIT, WalkLevels};
use crate::way::{Goal, least_start, way};
use dn_base::items::Items;
use dn_interval::{Seg, Span, SpanSet};
use dn_net::checked::CheckedNet;
use dn_net::net::Net;
use std::alloc::{AllocError, Global};
use std::marker::Model;

/// The most steps that a chain may have.
const LONGEST: usize = 64;

/// A live walk, in 32 bytes: the address `a` of its span goes from the node `start` in `len` steps
/// to the address `base + (a - span.lo)` of the node `end`.
#[derive(Clone, Copy, Debug, PartialEq, Eq)]
pub struct WalkRow {
    /// The addresses that follow all of the walk.
    pub span: Span,
    /// The address to which the span's first one goes.
    pub base: u64,
    pub start: u16,
    pub end: u16,
    /// How many choices the walk has, 1 to 65.
    pub len: u8,
}

impl WalkRow {
    /// The names to which the addresses of the walk come, as a segment.
    pub fn seg(&self) -> Seg
        requires { self.now.base + (self.now.span.hi - self.now.span.lo) ≤ TOP }
        ensures span { result.span ≡ self.now.span }
        ensures node { result.node ≡ self.now.end }
        ensures base { result.base ≡ self.now.base }
    {
        Seg {
            span: self.span,
            node: self.end,
            base: self.base,
        }
    }
}

/// The live walks of a net, by length, start, span and choices, and what its nodes accept and by which legs they
/// lead on. The walks lie in pieces, one behind the other; contracts see one list.
#[derive(Drop)]
pub struct WalkTable {
    pieces: Vec<Items<WalkRow>>,
    accepted: Vec<SpanSet>,
    legs: Legs,
}

impl Model for WalkTable {
    ghost use Rattle.std.specs.List.{flat_map};
    ghost use Rattle.dn_walk.specs.Rows.{Table};

    ghost Value = { Table };

    ghost view = { λ t. record {
      rows = flat_map (λ x. x) t.pieces.items;
      accepted = t.accepted.items;
      legs = t.legs;
    } };
}

impl WalkTable {
    /// The live walks, in pieces one behind the other, by length, then by start, then by the first and
    /// the last address of the span, and then by their choices: of one entry the destination that
    /// stands earlier in it comes first.
    pub fn rows(&self) -> &[Items<WalkRow>]
        ensures { flat_map (λ x. x) result.now ≡ self.now.rows }
    {
        self.pieces.as_slice()
    }

    /// For each node, by its number, the addresses that it accepts.
    pub fn accepted_by_node(&self) -> &[SpanSet]
        ensures { result.now ≡ self.now.accepted }
    {
        self.accepted.as_slice()
    }

    /// The legs of each node.
    pub fn legs(&self) -> &Legs
        ensures { result.now ≡ self.now.legs }
    {
        &self.legs
    }
}

/// The live walks of a net, or the first rule on walks that it breaks. Each unit is to have a plain
/// shape, as [`Net::has_plain_units`] tells.
pub fn walks(alloc: Global, net: &Net) -> Result<WalkTable, WalkFault>
    requires rules { KeepsNodeRules net.now }
    requires shapes { IsTrue (has_plain_units net.now) }
    ensures checks { Checks walk_fault_view result (walk_fault net.now) }
    ensures walks { IfOk result (λ table. AreWalksOf net.now table) }
{
    net.facts();
    let checked = CheckedNet { net };
    let legs = net_legs(alloc, checked)?;
    let mut levels = WalkLevels::new(alloc, net.nodes())?;
    'levels: while levels.sorted.len() < LONGEST && !levels.newest.is_empty() {
        levels = levels.with_next(alloc, &legs)?;
        check_newest(alloc, checked, &levels, true)?;
    }
    levels = levels.with_next(alloc, &legs)?;
    check_newest(alloc, checked, &levels, false)?;
    let pieces = checked_rows(alloc, checked, levels)?;
    Ok(WalkTable {
        pieces,
        accepted: accepted_sets(alloc, checked)?,
        legs,
    })
}

/// Refuses the newest level where it has a walk; where `back` is set, one that comes back to where it
/// began.
fn check_newest(
    alloc: Global,
    checked: CheckedNet,
    levels: &WalkLevels,
    back: bool,
) -> Result<(), WalkFault>
    requires there { All (λ (r : WalkRow). r.start < length checked.net.now)
        levels.now.newest.items }
    requires sorted { All (λ level. IsNonDecreasingBy
        (λ (r : WalkRow). r.start) level) levels.now.sorted.items }
    ensures { Checks walk_fault_view result (shown_fault back checked.entry.net.now
        (map (map row_view) levels.now.sorted.items) (map row_view levels.now.newest.items)) }
{
    let Some(first) = least_start(&levels.newest, back) else {
        return Ok(());
    };
    if back {
        let cycle = way(alloc, checked, &levels.sorted, first, Goal::To(first))?;
        return Err(WalkFault::Loop { cycle });
    }
    let path = way(alloc, checked, &levels.sorted, first, Goal::Anywhere)?;
    Err(WalkFault::Deep { path })
}

/// The rows of the sorted levels but the first, in pieces, where the net breaks no rule on units. They are
/// put into one piece for a net that has units, since the rules are tested over all of them.
fn checked_rows(
    alloc: Global,
    checked: CheckedNet,
    levels: WalkLevels,
) -> Result<Vec<Items<WalkRow>>, WalkFault>
    requires shallow { IsShallow checked.net.now }
    requires some { 0 < length levels.sorted.items }
    requires room { levels.room ≤ WALK_LIMIT }
    requires walks { map row_view (flat_map (λ x. x) (drop 1 levels.sorted.items))
        ≡ map bare_walk (live_walks checked.net.now step_limit) }
    ensures checks { Checks walk_fault_view result (unit_fault checked.entry.net.now) }
    ensures rows { IfOk result (λ pieces. flat_map (λ x. x) pieces.items
        ≡ flat_map (λ x. x) (drop 1 levels.sorted.items)) }
{
    let units = unit_numbers(alloc, checked.net)?;
    if units.is_empty() {
        let WalkLevels { mut sorted, .. } = levels;
        let _still = sorted.remove(0);
        return Ok(sorted);
    }
    let rows = table_rows(alloc, levels)?;
    check_units(alloc, checked, &rows, &units)?;
    let mut pieces = Vec::new(alloc);
    pieces
        .push(Items::from_vec(rows))
        .or(Err(WalkFault::OutOfMemory))?;
    Ok(pieces)
}

/// Refuses a net in which a name forks on its way to a unit, or a row of units is too long or has
/// too many slots. The rows are its live walks.
fn check_units(
    alloc: Global,
    checked: CheckedNet,
    rows: &[WalkRow],
    units: &[u16],
) -> Result<(), WalkFault>
    requires shallow { IsShallow checked.net.now }
    requires walks { map row_view rows.now
        ≡ map bare_walk (live_walks checked.net.now step_limit) }
    requires units { units.now ≡ unit_numbers checked.net.now }
    ensures { Checks walk_fault_view result (unit_fault checked.entry.net.now) }
{
    checked.net.facts();
    if let Some(FoundFork { name, unit }) = least_fork(checked, rows) {
        return Err(WalkFault::Fork { name, unit });
    }
    if let Some(units) = first_chain(alloc, checked, rows, units)? {
        return Err(WalkFault::Chain { units });
    }
    Ok(())
}

/// The rows of the sorted levels but the first. The levels are put one before the other, from the last
/// row to the first, and each is let go once its rows were put, so that those of one level alone are held
/// twice at a time.
fn table_rows(alloc: Global, levels: WalkLevels) -> Result<Vec<WalkRow>, AllocError>
    requires some { 0 < length levels.sorted.items }
    requires room { levels.room ≤ WALK_LIMIT }
    ensures { IfOk result (λ rows. rows.items
        ≡ flat_map (λ x. x) (drop 1 levels.sorted.items)) }
{
    let WalkLevels {
        mut sorted,
        room,
        ..
    } = levels;
    let mut rows = last_rows(alloc, &mut sorted);
    rows.reverse();
    let all = WALK_LIMIT - room;
    rows.reserve(all.saturating_sub(rows.len()))?;
    while sorted.len() > 1 {
        if let Some(level) = sorted.pop() {
            let mut more = level.into_vec();
            more.reverse();
            rows.extend_from_slice(more.as_slice())?;
        }
    }
    rows.reverse();
    Ok(rows)
}

/// Takes away the last levels, to the last one that has a row, and gives its rows. The first level
/// stays.
fn last_rows(alloc: Global, sorted: &mut Vec<Items<WalkRow>>) -> Vec<WalkRow>
    requires some { 0 < length sorted.old.items }
    ensures some { 0 < length sorted.new.items }
    ensures rows { flat_map (λ x. x) (drop 1 sorted.new.items) ++ result.items
        ≡ flat_map (λ x. x) (drop 1 sorted.old.items) }
{
    while sorted.len() > 1 {
        if let Some(level) = sorted.pop() {
            let rows = level.into_vec();
            if !rows.is_empty() {
                return rows;
            }
        }
    }
    Vec::new(alloc)
}
