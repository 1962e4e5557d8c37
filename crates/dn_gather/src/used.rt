//! The slots of a unit that are not free.

ghost use Rattle.std.specs.Prelude.{◌≡◌, ℕ, ◌+◌, ◌<◌, false, IfOk, OnOk, IsTrue};
ghost use Rattle.dn_tables.specs.Terms.{has_slot};
ghost use Rattle.dn_gather.specs.Terms.{AreFreeIn, AreUsed, IsGround};

use crate::ground::Ground;
use dn_base::OutOfMemory;
use dn_place::tables::is_free;
use dn_tables::set::TableSet;
use std::alloc::Global;

/// The slots of a unit, of so many, that are not free, ascending.
pub(crate) fn used_slots(
    alloc: Global,
    tables: &TableSet,
    unit: u16,
    count: u32,
) -> Result<Vec<u32>, OutOfMemory>
    requires there { (slot : ℕ) → slot < count → IsTrue (has_slot tables.now unit slot) }
    ensures { IfOk result (λ used. AreUsed tables.now unit count used.items) }
{
    let mut used = Vec::new(alloc);
    for slot in 0..count {
        push_used(&mut used, tables, unit, slot)?;
    }
    Ok(used)
}

/// Adds a slot where it is not free.
fn push_used(
    used: &mut Vec<u32>,
    tables: &TableSet,
    unit: u16,
    slot: u32,
) -> Result<(), OutOfMemory>
    requires there { IsTrue (has_slot tables.now unit slot) }
    requires listed { AreUsed tables.now unit slot used.old.items }
    ensures { OnOk result (AreUsed tables.now unit (slot + 1) used.new.items) }
{
    if is_free(tables, unit, slot) {
        return Ok(());
    }
    used.push(slot)?;
    Ok(())
}

/// Whether each slot from a first to a last one is free. Time of a binary search.
pub(crate) fn are_free(ground: Ground, first: u64, last: u64) -> bool
    requires ground { IsGround meaning ground }
    requires within { last < ground.translator.now.slots }
    ensures yes { IsTrue result
        → AreFreeIn ground.entry.wanted.tables.now ground.entry.unit first last }
    ensures no { result ≡ false
        → AreFreeIn ground.entry.wanted.tables.now ground.entry.unit first last → ⊥ }
{
    let used = ground.used;
    let place = used.partition_point(|slot| u64::from(*slot) < first);
    match used.get(place) {
        Some(slot) => last < u64::from(*slot),
        None => true,
    }
}
