//! The search for the first admissible scattered placement.

ghost use Rattle.std.specs.Prelude.{◌≡◌, ℕ, ◌^◌, ◌≤◌, [], IfOk, IfSome, IsTrue, Some, None};
ghost use Rattle.std.specs.List.{Contains};
ghost use Rattle.dn_interval.specs.Terms.{in_span};
ghost use Rattle.dn_net.specs.Terms.{unit_at};
ghost use Rattle.dn_place.specs.Terms.{HasUnitBounds};
ghost use Rattle.dn_gather.specs.Terms.{AreExitsOfPieces, FirstFor, IsFoundFirst, IsFoundFrom, IsGround, IsWanted, NoneFor};

use crate::choice::choice;
use crate::ground::Ground;
use crate::outputs::next_agreeing;
use crate::piece::piece_request;
use crate::scatter::Scatter;
use crate::stands::stands;
use crate::used::used_slots;
use crate::wanted::Wanted;
use crate::windows::{input_in, windows};
use dn_base::OutOfMemory;
use dn_base::items::Items;
use dn_interval::Row;
use dn_net::node::Unit;
use dn_place::exits::{Exit, exits};
use dn_place::unit::unit_in;
use dn_tables::placement::Hop;
use std::alloc::Global;

/// The first admissible scattered placement, by unit, address and then piece by piece. `None` exactly where none is
/// admissible. `Err` is want of memory.
pub(crate) fn first_scatter(alloc: Global, wanted: Wanted) -> Result<Option<Scatter>, OutOfMemory>
    requires wanted { IsWanted meaning wanted }
    ensures some { IfOk result (λ found. IfSome found (λ s. IsFoundFirst meaning wanted.entry s)) }
    ensures none { IfOk result (λ found. found ≡ None → (unit v : ℕ) →
        NoneFor meaning wanted.entry unit v) }
{
    for unit in 0..wanted.system.on.net.nodes() {
        if let Some(found) = by_node(alloc, wanted, unit)? {
            return Ok(Some(found));
        }
    }
    Ok(None)
}

/// The first admissible scattered placement in a node, where the node is a unit.
fn by_node(alloc: Global, wanted: Wanted, unit: u16) -> Result<Option<Scatter>, OutOfMemory>
    requires wanted { IsWanted meaning wanted }
    ensures some { IfOk result (λ found. IfSome found (λ s.
        IsFoundFrom meaning wanted.entry unit 0 s)) }
    ensures none { IfOk result (λ found. found ≡ None → (v : ℕ) →
        NoneFor meaning wanted.entry unit v) }
{
    match unit_in(wanted.system, unit) {
        Some(translator) => by_unit(alloc, wanted, unit, translator),
        None => Ok(None),
    }
}

/// The first admissible scattered placement in a unit.
fn by_unit(
    alloc: Global,
    wanted: Wanted,
    unit: u16,
    translator: &Unit,
) -> Result<Option<Scatter>, OutOfMemory>
    requires wanted { IsWanted meaning wanted }
    requires unit { unit_at wanted.system.on.net.now unit ≡ Some translator.now }
    requires bounds { HasUnitBounds wanted.system.on.net.now translator.now }
    ensures some { IfOk result (λ found. IfSome found (λ s.
        IsFoundFrom meaning wanted.entry unit 0 s)) }
    ensures none { IfOk result (λ found. found ≡ None → (v : ℕ) →
        NoneFor meaning wanted.entry unit v) }
{
    let windows = windows(alloc, wanted.system, wanted.agent, unit, translator)?;
    let rows = windows.rows();
    let count = rows.len();
    if count == 0 {
        return Ok(None);
    }
    let exits = all_exits(alloc, wanted, unit, translator)?;
    let outputs = exits.as_slice();
    if lacks_exits(outputs) {
        return Ok(None);
    }
    let used = used_slots(alloc, wanted.tables, unit, translator.slots)?;
    let slots = used.as_slice();
    let ground = Ground {
        wanted,
        unit,
        translator,
        windows: &windows,
        used: slots,
        exits: outputs,
    };
    by_windows(alloc, ground)
}

/// The first admissible scattered placement over the windows of a unit.
fn by_windows(alloc: Global, ground: Ground) -> Result<Option<Scatter>, OutOfMemory>
    requires ground { IsGround meaning ground }
    ensures some { IfOk result (λ found. IfSome found (λ s.
        IsFoundFrom meaning ground.entry.wanted ground.entry.unit 0 s)) }
    ensures none { IfOk result (λ found. found ≡ None → (v : ℕ) →
        NoneFor meaning ground.entry.wanted ground.entry.unit v) }
{
    let rows = ground.windows.rows();
    for row in rows {
        if let Some(found) = by_window(alloc, ground, row)? {
            return Ok(Some(found));
        }
    }
    Ok(None)
}

/// The first admissible scattered placement at the addresses of a window.
fn by_window(alloc: Global, ground: Ground, row: &Row) -> Result<Option<Scatter>, OutOfMemory>
    requires ground { IsGround meaning ground }
    requires listed { Contains ground.windows.now row.now }
    ensures some { IfOk result (λ found. IfSome found (λ s.
        IsFoundFrom meaning ground.entry.wanted ground.entry.unit row.now.span.lo s)) }
    ensures none { IfOk result (λ found. found ≡ None → (v : ℕ) → IsTrue (in_span row.now.span v) →
        NoneFor meaning ground.entry.wanted ground.entry.unit v) }
{
    let _all = ground.windows.rows();
    let lo = row.span.lo;
    let hi = row.span.hi;
    let Some(base) = input_in(row, ground.unit, lo, 1) else {
        return Ok(None);
    };
    let lists = ground.exits;
    let first = lists[0].as_slice();
    let page = ground.translator.page;
    let mut v = lo;
    'addresses: while v <= hi {
        let x = base + (v - lo);
        let at = v + (next_agreeing(first, page, x) - x);
        if at > hi {
            return Ok(None);
        }
        if let Some(hops) = hops_at(alloc, ground, at)? {
            return Ok(Some(scatter(ground.unit, at, hops)));
        }
        v = at + 1;
    }
    Ok(None)
}

/// The hops of the first admissible scattered placement in the unit at an address of the agent.
fn hops_at(alloc: Global, ground: Ground, v: u64) -> Result<Option<Vec<Hop>>, OutOfMemory>
    requires ground { IsGround meaning ground }
    requires few { v ≤ 2 ^ 57 }
    ensures some { IfOk result (λ found. IfSome found (λ hops.
        FirstFor meaning ground.entry.wanted ground.entry.unit v hops.items)) }
    ensures none { IfOk result (λ found. found ≡ None →
        NoneFor meaning ground.entry.wanted ground.entry.unit v) }
{
    match stands(alloc, ground, v)? {
        Some(xs) => choice(alloc, ground, v, &xs),
        None => Ok(None),
    }
}

/// For each piece the outputs of a unit that give it.
fn all_exits(
    alloc: Global,
    wanted: Wanted,
    unit: u16,
    translator: &Unit,
) -> Result<Vec<Items<Exit>>, OutOfMemory>
    requires wanted { IsWanted meaning wanted }
    requires unit { unit_at wanted.system.on.net.now unit ≡ Some translator.now }
    requires bounds { HasUnitBounds wanted.system.on.net.now translator.now }
    ensures { IfOk result (λ all. AreExitsOfPieces wanted.entry.system.on.net.now
        translator.now wanted.entry.agent wanted.entry.rights wanted.entry.pieces.now all.items) }
{
    let mut all = Vec::new(alloc);
    for piece in wanted.pieces {
        let request = piece_request(wanted.agent, wanted.rights, *piece);
        let exits = exits(alloc, wanted.system, unit, translator, &request)?;
        all.push(Items::from_vec(exits))?;
    }
    Ok(all)
}

/// Whether no output gives one of the pieces. Then no slot of the unit need be looked at.
fn lacks_exits(lists: &[Items<Exit>]) -> bool
    ensures { IsTrue result → Contains lists.now [] }
{
    for list in lists {
        let exits = list.as_slice();
        if exits.is_empty() {
            return true;
        }
    }
    false
}

/// The scattered placement of these hops.
fn scatter(unit: u16, v: u64, hops: Vec<Hop>) -> Scatter
    ensures { result ≡ record { unit = unit; v = v; hops = hops.items } }
{
    Scatter {
        unit,
        v,
        hops: Items::from_vec(hops),
    }
}
