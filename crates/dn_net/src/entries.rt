//! The map entries of a node, whose blocks are sorted once: an address is sought among them by binary search.

ghost use Rattle.std.specs.Prelude.{◌≡◌, ◌≤◌, ◌<◌, ◌-◌, ℕ, Bool, Option, Some, IfOk, IfNone, IfSome, IsTrue, All, Contains};
ghost use Rattle.std.specs.List.{list_all, count_by};
ghost use Rattle.std.specs.List.Sorted.{IsNonDecreasingBy, IsPermutation, IsStableByKey};
ghost use Rattle.std.specs.Ordering.{nat_cmp};
ghost use Rattle.dn_net.specs.Terms.{by_entries, by_over, entry_in_range, places_from, within};
ghost use Rattle.dn_net.specs.declared.node.Entry.{Entry};

use crate::node::{Block, Entry};
use dn_base::items::Items;
use std::alloc::{AllocError, Global};
use std::marker::Model;

/// A map block, and the place of its entry among those of the node.
#[derive(Clone, Copy, Debug, PartialEq, Eq)]
pub struct Place {
    pub block: Block,
    pub entry: usize,
}

/// The map entries of a node, which contracts see as their list in the order of the text.
#[derive(Drop)]
pub(crate) struct EntryList {
    entries: Items<Entry>,
    /// The blocks of the entries with the places of these, by their first addresses. Those with one first address
    /// stand in the order of the entries.
    order: Vec<Place>,
}

impl Model for EntryList {
    ghost use Rattle.std.specs.Prelude.{List};
    ghost use Rattle.std.specs.List.Sorted.{IsNonDecreasingBy, IsPermutation, IsStableByKey};
    ghost use Rattle.std.specs.Ordering.{nat_cmp};
    ghost use Rattle.dn_net.specs.declared.node.Entry.{Entry};
    ghost use Rattle.dn_net.specs.Order.{places_from};

    ghost Value = { List Entry };

    ghost view = { λ s. s.entries };

    ghost invariant = { λ s. record { every : IsPermutation (places_from 0 s.entries) s.order.items; sorted : IsNonDecreasingBy (λ p. p.block.lo) s.order.items; stable : IsStableByKey (λ p. p.block.lo) nat_cmp (places_from 0 s.entries) s.order.items } };
}

impl EntryList {
    /// The list of these entries.
    pub(crate) fn new(alloc: Global, entries: Items<Entry>) -> Result<EntryList, AllocError>
        ensures { IfOk result (λ l. l ≡ entries) }
    {
        let mut order = places(alloc, entries.as_slice())?;
        order.sort_by_key(|place| place.block.lo)?;
        Ok(EntryList { entries, order })
    }

    /// The entries, in the order of the text.
    pub(crate) fn as_slice(&self) -> &[Entry]
        ensures { result.now ≡ self.now }
    {
        self.entries.as_slice()
    }

    /// The blocks of the entries with the places of these, by their first addresses. Those with one first address
    /// stand in the order of the entries.
    pub(crate) fn order(&self) -> &[Place]
        ensures sorted { IsNonDecreasingBy (λ p. p.block.lo) result.now }
        ensures every { IsPermutation (places_from 0 self.now) result.now }
        ensures stable { IsStableByKey (λ p. p.block.lo) nat_cmp (places_from 0 self.now)
            result.now }
    {
        self.order.as_slice()
    }
}

fn places(alloc: Global, entries: &[Entry]) -> Result<Vec<Place>, AllocError>
    ensures { IfOk result (λ v. v.items ≡ places_from 0 entries.now) }
{
    let mut order = Vec::with_capacity(alloc, entries.len())?;
    for (place, entry) in entries.iter().enumerate() {
        order.push(Place {
            block: entry.block,
            entry: place,
        })?;
    }
    Ok(order)
}

/// The map entry that has the address: only the one whose block begins last, of those that begin at or
/// before the address, can.
pub(crate) fn entry_at(entries: &EntryList, addr: u64) -> Option<&Entry>
    requires in_range { IsTrue (list_all entry_in_range entries.now) }
    requires apart { (a : ℕ) → count_by (λ e. within a e.block) entries.now ≤ 1 }
    ensures none { IfNone result ((over : Option ℕ) → by_entries addr over entries.now
        ≡ by_over addr over) }
    ensures covers { IfSome result (λ e. IsTrue (within addr e.now.block)) }
    ensures found { IfSome result (λ e. (over : Option ℕ) → by_entries addr over entries.now
        ≡ Some (record { dests = e.now.dests; offset = addr - e.now.block.lo })) }
    ensures each { IfSome result (λ e. (P : Entry → Bool) → IsTrue (list_all P entries.now)
        → IsTrue (P e.now)) }
{
    let Some(place) = last_before(entries.order(), addr) else {
        return None;
    };
    let Some(entry) = entries.as_slice().get(place.entry) else {
        return None;
    };
    if !entry.block.has(addr) {
        return None;
    }
    Some(entry)
}

/// The last place whose block begins at or before the address.
fn last_before(order: &[Place], addr: u64) -> Option<&Place>
    requires { IsNonDecreasingBy (λ p. p.block.lo) order.now }
    ensures none { IfNone result (All (λ p. addr < p.block.lo) order.now) }
    ensures there { IfSome result (λ p. Contains order.now p.now) }
    ensures begun { IfSome result (λ p. p.now.block.lo ≤ addr) }
    ensures last { IfSome result (λ p. All (λ q. q.block.lo ≤ addr
        → q.block.lo ≤ p.now.block.lo) order.now) }
{
    let after = order.partition_point(|place| place.block.lo <= addr);
    if after == 0 {
        return None;
    }
    Some(&order[after - 1])
}
