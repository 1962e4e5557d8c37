//! Calls on the slots of a set of tables, made where what they ask holds.

ghost use Rattle.std.specs.Prelude.{◌≡◌, ◌==◌, map, IsTrue, IsSome};
ghost use Rattle.std.specs.List.{list_all};
ghost use Rattle.dn_kind.specs.Terms.{AreKinds, are_rights, unit_shape};
ghost use Rattle.dn_tables.specs.Terms.{IsEmpty, has_slot, unit_in, units_of};
ghost use Rattle.test_tables.specs.Terms.{IsHoldable, IsHoldableIn, IsBench};

use crate::at_desk::are_rights;
use crate::bench::Bench;
use dn_base::device::{DeviceFault, Tables};
use dn_base::filled::Filled;
use dn_base::memory_tables::MemTables;
use dn_kind::kinded::KindedNet;
use dn_kind::kinds::Kinds;
use dn_kind::shape::shape_of;
use dn_kind::unit_kind::Record;
use dn_net::net::Net;
use dn_net::node::Unit;
use dn_tables::set::TableSet;
use std::alloc::Global;
use std::process::Abort;
use test_plans::Plan;

/// A slot of a unit, by the number of the unit's node.
#[derive(Clone, Copy)]
pub struct Place {
    pub unit: u16,
    pub slot: u32,
}

/// Whether the slot is there.
pub fn is_there(net: &Net, set: &TableSet, at: Place) -> bool
    requires { units_of set.now ≡ map (λ n. n.unit) net.now }
    ensures slot { IsTrue result → IsTrue (has_slot set.now at.unit at.slot) }
    ensures unit { IsTrue result → IsSome (unit_in set.now at.unit) }
{
    if at.unit >= net.nodes() {
        return false;
    }
    match net.unit(at.unit) {
        Some(unit) => at.slot < unit.slots,
        None => false,
    }
}

/// Whether the words of a slot that is there are 0.
fn is_empty(set: &TableSet, at: Place) -> bool
    requires { IsTrue (has_slot set.now at.unit at.slot) }
    ensures { IsTrue result → IsEmpty set.now at.unit at.slot }
{
    set.facts();
    are_zero(set.slot_words(at.unit, at.slot).as_slice())
}

/// Whether words are 0.
fn are_zero(words: &[u64]) -> bool
    ensures { result ≡ list_all (λ w. w == 0) words.now }
{
    for word in words {
        if *word != 0 {
            return false;
        }
    }
    true
}

/// Whether the unit that a node is can hold a record.
fn is_packable(net: &Net, set: &TableSet, node: u16, wanted: Record) -> bool
    requires units { units_of set.now ≡ map (λ n. n.unit) net.now }
    ensures { IsTrue result → IsHoldableIn set.now node wanted }
{
    if node >= net.nodes() {
        return false;
    }
    match net.unit(node) {
        Some(unit) => can_hold(unit, wanted),
        None => false,
    }
}

/// Whether a unit can hold a record.
fn can_hold(unit: &Unit, wanted: Record) -> bool
    ensures { IsTrue result → IsHoldable (unit_shape unit.now) wanted }
{
    if !unit.has_plain_shape() {
        return false;
    }
    wanted.is_within(shape_of(unit)) && are_rights(wanted.rights)
}

/// New tables of the net of a plan, over a device that has room for so many events and fails at these calls.
pub fn bench_of(
    rt: &impl Abort,
    alloc: Global,
    kinds: &Kinds,
    plan: Plan,
    room: u32,
    failing: &[u32],
) -> Bench
    requires { AreKinds meaning kinds.now }
    ensures { IsBench meaning kinds.now result }
{
    let net = plan.net(alloc, kinds).expect(rt, "a net");
    let on = KindedNet { net: &net, kinds };
    let failing = failing.to_vec(alloc).expect(rt, "memory");
    let mut device = MemTables::new(alloc, room, failing).expect(rt, "a device");
    let set = TableSet::make(alloc, on, &mut device).expect(rt, "tables");
    Bench { net, set, device }
}

/// Puts a record into a slot. `None`, and nothing is done, where the slot is not there or not
/// empty, or the unit cannot hold the record.
pub fn put(
    kinds: &Kinds,
    bench: &mut Bench,
    at: Place,
    wanted: Record,
) -> Option<Result<(), DeviceFault>>
    requires { IsBench meaning kinds.now bench.old }
    ensures { IsBench meaning kinds.now bench.new }
{
    if !is_there(&bench.net, &bench.set, at) {
        return None;
    }
    if !is_empty(&bench.set, at) {
        return None;
    }
    if !is_packable(&bench.net, &bench.set, at.unit, wanted) {
        return None;
    }
    let (unit, slot) = (at.unit, at.slot);
    Some(bench.set.put(kinds, unit, slot, wanted, &mut bench.device))
}

/// Clears a slot. `None`, and nothing is done, where it is not there.
pub fn clear(kinds: &Kinds, bench: &mut Bench, at: Place) -> Option<Result<(), DeviceFault>>
    requires { IsBench meaning kinds.now bench.old }
    ensures { IsBench meaning kinds.now bench.new }
{
    let _kinds = kinds;
    if !is_there(&bench.net, &bench.set, at) {
        return None;
    }
    Some(bench.set.clear(at.unit, at.slot, &mut bench.device))
}

/// The record of a slot. `None` where it holds none, or is not there.
pub fn record_of(kinds: &Kinds, bench: &Bench, at: Place) -> Option<Record>
    requires { IsBench meaning kinds.now bench.now }
{
    if !is_there(&bench.net, &bench.set, at) {
        return None;
    }
    bench.set.record_at(kinds, at.unit, at.slot)
}

/// The words of a unit. `None` where it is not there.
pub fn words<'a>(net: &Net, set: &'a TableSet, unit: u16) -> Option<&'a Filled<u64>>
    requires { units_of set.now ≡ map (λ n. n.unit) net.now }
{
    if is_there(net, set, Place { unit, slot: 0 }) {
        Some(set.words(unit))
    } else {
        None
    }
}

/// The words of a unit on the device of the set. `None` where it is not there.
pub fn device_words<'a>(kinds: &Kinds, bench: &'a Bench, unit: u16) -> Option<&'a Filled<u64>>
    requires { IsBench meaning kinds.now bench.now }
{
    let _kinds = kinds;
    if is_there(&bench.net, &bench.set, Place { unit, slot: 0 }) {
        Some(bench.device.words(unit))
    } else {
        None
    }
}

/// Whether the words of a unit are these. A unit that is not there has none.
pub fn are_words(words: Option<&Filled<u64>>, wanted: &[u64]) -> bool {
    match words {
        Some(words) => {
            if words.len() != wanted.len() {
                return false;
            }
            for (at, word) in wanted.iter().enumerate() {
                if words.get(at) != *word {
                    return false;
                }
            }
            true
        }
        None => wanted.is_empty(),
    }
}
