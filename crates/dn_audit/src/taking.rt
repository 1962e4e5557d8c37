//! Taking the records of an image into a set of tables, slot by slot.

ghost use Rattle.std.specs.Prelude.{◌≡◌, ◌+◌, ◌*◌, ◌<◌, ◌≤◌, ◌^◌, ◌++◌, ◌∷◌, [], length, slice_get, slice_index_or, if◌then◌else◌, is_some, Some, IfOk, OnOk};
ghost use Rattle.dn_net.specs.Terms.{unit_at};
ghost use Rattle.dn_kind.specs.Terms.{kinds_of};
ghost use Rattle.dn_tables.specs.Terms.{FitsNet};
ghost use Rattle.dn_image.specs.Terms.{width_of, word_count, words_spelled};
ghost use Rattle.dn_audit.specs.Terms.{HoldsRecords, IsFilledTo, IsStored, held_of_nodes, held_of_unit, records_in, shut_of_nodes, shut_of_unit, shut_slot, image_says};

use crate::OutOfMemory;
use crate::report::Shut;
use crate::stored::{StoredImage, counted_record, has_gate};
use dn_base::device::Tables;
use dn_base::items::Items;
use dn_image::slots::unit_bytes;
use dn_net::node::Unit;
use dn_tables::set::TableSet;
use dn_tables::sizes::Sizes;
use std::alloc::Global;

/// What is found in the slots of an image: how many hold a record, and those with shut-out records.
#[derive(Drop)]
pub(crate) struct Found {
    pub(crate) records: u32,
    pub(crate) shut: Items<Shut>,
}

/// The records of an image in a set of tables, and what is found in its slots. `Err` is want of
/// memory.
pub(crate) fn take(alloc: Global, image: StoredImage) -> Result<(TableSet, Found), OutOfMemory>
    requires image { IsStored meaning image }
    ensures fits { IfOk result (λ taken. FitsNet image.entry.on.net.now
        (kinds_of meaning image.entry.on.kinds.now) taken.0) }
    ensures holds { IfOk result (λ taken. HoldsRecords
        (kinds_of meaning image.entry.on.kinds.now) (records_in meaning image.entry) taken.0) }
    ensures records { IfOk result (λ taken. taken.1.records
        ≡ held_of_nodes (records_in meaning image.entry) 0 image.entry.on.net.now) }
    ensures shut { IfOk result (λ taken. taken.1.shut
        ≡ shut_of_nodes (kinds_of meaning image.entry.on.kinds.now) (records_in meaning image.entry)
        0 image.entry.on.net.now (image_says meaning image.entry).words) }
{
    let mut device = Sizes::none(alloc);
    let mut tables = TableSet::make(alloc, image.on, &mut device).or(Err(OutOfMemory))?;
    let mut found = Found {
        records: 0,
        shut: Items::new(alloc),
    };
    image.on.net.facts();
    for node in 0..image.on.net.nodes() {
        take_node(image, node, &mut tables, &mut device, &mut found)?;
    }
    Ok((tables, found))
}

/// Takes the records of a node, where it is a unit.
fn take_node<D: Tables>(
    image: StoredImage,
    node: u16,
    tables: &mut TableSet,
    device: &mut D,
    found: &mut Found,
) -> Result<(), OutOfMemory>
    requires image { IsStored meaning image }
    requires there { node < length image.on.net.now }
    requires nodes { node < 1024 }
    requires few { found.old.records ≤ 262144 * node }
    requires filled { IsFilledTo image.on.net.now (kinds_of meaning image.on.kinds.now)
        (records_in meaning image) node 0 tables.old (D.units device.old) (D.words device.old) }
    ensures filled { OnOk result (IsFilledTo image.entry.on.net.now
        (kinds_of meaning image.entry.on.kinds.now) (records_in meaning image.entry) (node + 1) 0
        tables.new (D.units device.new) (D.words device.new)) }
    ensures records { OnOk result (found.new.records ≡ found.old.records
        + held_of_unit (records_in meaning image.entry node)
        (unit_at image.entry.on.net.now node)) }
    ensures few { OnOk result (found.new.records ≤ 262144 * (node + 1)) }
    ensures shut { OnOk result (found.new.shut ≡ found.old.shut
        ++ shut_of_unit (kinds_of meaning image.entry.on.kinds.now) node
        (unit_at image.entry.on.net.now node)
        (slice_index_or (image_says meaning image.entry).words node [])
        (records_in meaning image.entry node)) }
{
    let Some(unit) = image.on.net.unit(node) else {
        return Ok(());
    };
    let bytes = unit_bytes(image.on, image.bytes, node);
    for slot in 0..unit.slots {
        take_slot(image, node, unit, bytes, slot, tables, device, found)?;
    }
    Ok(())
}

/// Takes the record of a slot of a unit, whose words stand first in these bytes.
fn take_slot<D: Tables>(
    image: StoredImage,
    node: u16,
    unit: &Unit,
    bytes: &[u8],
    slot: u32,
    tables: &mut TableSet,
    device: &mut D,
    found: &mut Found,
) -> Result<(), OutOfMemory>
    requires image { IsStored meaning image }
    requires unit { unit_at image.on.net.now node ≡ Some unit.now }
    requires slot { slot < unit.now.slots }
    requires room { 8 * word_count (kinds_of meaning image.on.kinds.now) (Some unit.now)
        ≤ length bytes.now }
    requires words { slice_get (image_says meaning image).words node ≡ Some (words_spelled
        (word_count (kinds_of meaning image.on.kinds.now) (Some unit.now)) bytes.now) }
    requires few { found.old.records < 2 ^ 31 }
    requires filled { IsFilledTo image.on.net.now (kinds_of meaning image.on.kinds.now)
        (records_in meaning image) node slot tables.old (D.units device.old) (D.words device.old) }
    ensures filled { OnOk result (IsFilledTo image.entry.on.net.now
        (kinds_of meaning image.entry.on.kinds.now) (records_in meaning image.entry) node (slot + 1)
        tables.new (D.units device.new) (D.words device.new)) }
    ensures records { OnOk result (found.new.records ≡ found.old.records
        + (if is_some (records_in meaning image.entry node slot) then 1 else 0)) }
    ensures shut { OnOk result (found.new.shut ≡ found.old.shut
        ++ shut_slot node (width_of (kinds_of meaning image.entry.on.kinds.now) unit.now)
        (slice_index_or (image_says meaning image.entry).words node [])
        (records_in meaning image.entry node) slot) }
{
    let kinds = image.on.kinds;
    let record = counted_record(unit, kinds, bytes, slot, image.version);
    let Some(record) = record else {
        let is_shut = has_gate(unit, kinds, bytes, slot);
        push_shut(&mut found.shut, node, slot, is_shut)?;
        return Ok(());
    };
    // The device has no fault.
    tables
        .put(kinds, node, slot, record, device)
        .or(Err(OutOfMemory))?;
    found.records += 1;
    Ok(())
}

/// Adds a slot to the list, where its record is shut out.
fn push_shut(shut: &mut Items<Shut>, unit: u16, slot: u32, is_shut: bool) -> Result<(), OutOfMemory>
    ensures { OnOk result (shut.new ≡ shut.old
        ++ (if is_shut then record { unit = unit; slot = slot } ∷ [] else [])) }
{
    if is_shut {
        shut.push(Shut { unit, slot })?;
    }
    Ok(())
}
