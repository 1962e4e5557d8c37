//! The first row of units that is too long, or has too many slots.

ghost use Rattle.std.specs.Prelude.{◌≡◌, ◌<◌, ◌≤◌, ◌∷◌, length, map, IfOk};
ghost use Rattle.std.specs.List.{All};
ghost use Rattle.dn_net.specs.Terms.{IsShallow, first_chain, live_walks, step_limit, unit_at, unit_numbers, unit_slots};
ghost use Rattle.dn_walk.specs.Terms.{bare_walk, chain_by, first_over, row_view};

use crate::leads::next_units;
use crate::walks::WalkRow;
use dn_base::items::Items;
use dn_net::checked::CheckedNet;
use std::alloc::{AllocError, Global};

/// The most that the slots of a row of units multiply to.
const SLOTS_LIMIT: u64 = 1_048_576;

/// The first row of four units, or else the first row of one, two or three whose slots multiply to
/// more than the limit.
pub(crate) fn first_chain(
    alloc: Global,
    checked: CheckedNet,
    rows: &[WalkRow],
    units: &[u16],
) -> Result<Option<Items<u16>>, AllocError>
    requires shallow { IsShallow checked.net.now }
    requires few { length checked.net.now ≤ 1024 }
    requires walks { map row_view rows.now
        ≡ map bare_walk (live_walks checked.net.now step_limit) }
    requires units { units.now ≡ unit_numbers checked.net.now }
    ensures { IfOk result (λ o. o ≡ first_chain checked.entry.net.now) }
{
    let next = next_units(alloc, checked, rows, units)?;
    chain_by(alloc, checked, &next, units)
}

/// The first row of units that breaks the rule, by the units to which each node leads.
fn chain_by(
    alloc: Global,
    checked: CheckedNet,
    next: &[Items<u16>],
    units: &[u16],
) -> Result<Option<Items<u16>>, AllocError>
    requires size { length next.now ≡ length checked.net.now }
    requires next { All (λ us. All (λ u. u < length checked.net.now) us) next.now }
    requires units { All (λ u. u < length checked.net.now) units.now }
    ensures { IfOk result (λ o. o ≡ chain_by checked.entry.net.now next.now units.now) }
{
    if let Some(row) = first_row(alloc, checked, next, units, 4, 0)? {
        return Ok(Some(row));
    }
    if let Some(row) = first_row(alloc, checked, next, units, 1, SLOTS_LIMIT)? {
        return Ok(Some(row));
    }
    if let Some(row) = first_row(alloc, checked, next, units, 2, SLOTS_LIMIT)? {
        return Ok(Some(row));
    }
    first_row(alloc, checked, next, units, 3, SLOTS_LIMIT)
}

/// The first row of so many units whose slots multiply to more than `most`, where the first unit is
/// one of these and each other one of those next to the one before it.
fn first_row(
    alloc: Global,
    checked: CheckedNet,
    next: &[Items<u16>],
    units: &[u16],
    left: u8,
    most: u64,
) -> Result<Option<Items<u16>>, AllocError>
    requires size { length next.now ≡ length checked.net.now }
    requires next { All (λ us. All (λ u. u < length checked.net.now) us) next.now }
    requires units { All (λ u. u < length checked.net.now) units.now }
    ensures { IfOk result (λ o. o ≡ first_over checked.entry.net.now next.now left most
        units.now) }
{
    if left == 0 {
        return Ok(if most == 0 {
            Some(Items::new(alloc))
        } else {
            None
        });
    }
    for unit in units {
        let behind = next[usize::from(*unit)].as_slice();
        let rest = first_row(
            alloc,
            checked,
            next,
            behind,
            left - 1,
            most / slots(checked, *unit),
        )?;
        if let Some(rest) = rest {
            return Ok(Some(with_front(*unit, rest)?));
        }
    }
    Ok(None)
}

/// How many slots a unit has.
fn slots(checked: CheckedNet, unit: u16) -> u64
    requires there { unit < length checked.net.now }
    ensures value { result ≡ unit_slots (unit_at checked.entry.net.now unit) }
    ensures some { 1 ≤ result }
{
    match checked.net.unit(unit) {
        Some(unit) => u64::from(unit.slots),
        None => 1,
    }
}

/// The row with a unit before it.
fn with_front(unit: u16, row: Items<u16>) -> Result<Items<u16>, AllocError>
    ensures { IfOk result (λ us. us ≡ unit ∷ row) }
{
    let mut units = row.into_vec();
    units.insert(0, unit)?;
    Ok(Items::from_vec(units))
}
