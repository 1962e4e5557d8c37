//! Placements with another of their hops for their own.

ghost use Rattle.std.specs.Prelude.{◌≡◌, ◌<◌, ◌≤◌, ℕ, [], map, Some, IsTrue};
ghost use Rattle.dn_tables.specs.Terms.{has_slot, unit_in, units_of};
ghost use Rattle.dn_placement.specs.Terms.{IsFreeHop, first_slot, is_free_in, is_zero_slot, last_slot, slots_of_set};

use dn_net::net::Net;
use dn_net::node::Unit;
use dn_placement::request::Request;
use dn_tables::placement::Hop;
use dn_tables::set::TableSet;

/// Whether every slot is free that a hop takes for a request.
#[tactic(auto, using(crate::proofs::Owns::unit_kept, crate::proofs::Owns::unit_found, crate::proofs::Owns::hop_free))]
pub(crate) fn is_hop_free(net: &Net, tables: &TableSet, request: &Request, hop: Hop) -> bool
    requires units { units_of tables.now ≡ map (λ n. n.unit) net.now }
    ensures { IsTrue result → IsFreeHop net.now (slots_of_set [] tables.now) request.now hop }
{
    if hop.unit >= net.nodes() {
        return false;
    }
    match net.unit(hop.unit) {
        Some(unit) => takes_free(tables, unit, request.size, hop),
        None => false,
    }
}

/// Whether every slot of a unit is free that a hop takes for so many addresses.
fn takes_free(tables: &TableSet, unit: &Unit, size: u64, hop: Hop) -> bool
    requires unit { unit_in tables.now hop.unit ≡ Some unit.now }
    ensures { IsTrue result → (slot : ℕ) → first_slot unit.now hop ≤ slot
        → slot ≤ last_slot unit.now size hop → IsTrue (is_free_in tables.now hop.unit slot) }
{
    if unit.page >= 64 || size == 0 || hop.x > u64::MAX - size {
        return false;
    }
    let first = hop.x >> unit.page;
    let last = (hop.x + size - 1) >> unit.page;
    if first > last || last >= u64::from(unit.slots) {
        return false;
    }
    are_free(tables, hop.unit, first as u32, last as u32)
}

/// Whether slots of a unit are free.
#[tactic(auto, using(crate::proofs::Owns::slot_before, crate::proofs::Owns::up_to))]
fn are_free(tables: &TableSet, unit: u16, first: u32, last: u32) -> bool
    requires there { IsTrue (has_slot tables.now unit last) }
    ensures { IsTrue result → (slot : ℕ) → first ≤ slot → slot ≤ last
        → IsTrue (is_free_in tables.now unit slot) }
{
    for slot in first..last {
        if !is_free(tables, unit, slot) {
            return false;
        }
    }
    is_free(tables, unit, last)
}

/// Whether a slot has no use and words that are 0.
fn is_free(tables: &TableSet, unit: u16, slot: u32) -> bool
    requires there { IsTrue (has_slot tables.now unit slot) }
    ensures { result ≡ is_free_in tables.now unit slot }
{
    tables.uses_at(unit, slot) == 0 && has_zero_words(tables, unit, slot)
}

/// Whether the words of a slot are 0.
fn has_zero_words(tables: &TableSet, unit: u16, slot: u32) -> bool
    requires there { IsTrue (has_slot tables.now unit slot) }
    ensures { result ≡ is_zero_slot tables.now unit slot }
{
    tables
        .slot_words(unit, slot)
        .as_slice()
        .iter()
        .all(|word| *word == 0)
}
