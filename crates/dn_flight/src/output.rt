//! One step in a unit, by the record that its words spell.

ghost use Rattle.std.specs.Prelude.{◌≡◌, ◌+◌, ◌*◌, ◌<◌, ◌≤◌, ◌^◌, length, take, drop, slice_get, Some, IsTrue};
ghost use Rattle.dn_net.specs.Terms.{is_stop};
ghost use Rattle.dn_kind.specs.Terms.{AreKinds, IsKinded, IsLawful, Meaning, allowing, is_plain_unit_shape, is_shaped, kinds_of, name_list, record_held, record_within, slot_words, steps_under, unit_shape};
ghost use Rattle.dn_flight.specs.Terms.{AreSized};

use crate::words::NetWords;
use dn_base::filled::Filled;
use dn_kind::kinded::KindedNet;
use dn_kind::kinds::Kinds;
use dn_kind::output::output_name;
use dn_kind::rights::Access;
use dn_kind::slots::held_record;
use dn_kind::unit_kind::{Record, UnitKind};
use dn_net::node::{Name, Unit};

/// The output of a name in a unit for an access, by the words as they are. `None` where its slot has no
/// record that allows the access. It reads the words of this slot alone, and takes no memory.
pub(crate) fn output(on: KindedNet, words: &NetWords, access: Access, name: Name) -> Option<Name>
    requires on { IsKinded meaning on }
    requires sized { AreSized on.net.now (kinds_of meaning on.kinds.now) words.now }
    requires stop { IsTrue (is_stop on.net.now name) }
    ensures { name_list result ≡ steps_under on.entry.net.now (allowing access
        (record_held on.entry.net.now (kinds_of meaning on.entry.kinds.now) words.now)) name }
{
    let unit = on.net.unit(name.node)?;
    let record = record_at(on, words, name.node, name.addr >> unit.page)?;
    if !record.rights.allows(access) {
        return None;
    }
    Some(output_name(unit, record, name.addr))
}

/// The record that a slot of a node holds.
fn record_at(on: KindedNet, words: &NetWords, node: u16, slot: u64) -> Option<Record>
    requires on { IsKinded meaning on }
    requires sized { AreSized on.net.now (kinds_of meaning on.kinds.now) words.now }
    requires there { node < length on.net.now }
    ensures { result ≡ record_held on.entry.net.now (kinds_of meaning on.entry.kinds.now)
        words.now node slot }
{
    let unit = on.net.unit(node)?;
    if slot >= u64::from(unit.slots) {
        return None;
    }
    record_of(unit, on.kinds, words.of(node), slot as usize)
}

/// The record that a slot of a unit holds with these words.
fn record_of(unit: &Unit, kinds: &Kinds, words: &Filled<u64>, slot: usize) -> Option<Record>
    requires kinds { AreKinds meaning kinds.now }
    requires shaped { IsTrue (is_shaped (kinds_of meaning kinds.now) unit.now) }
    requires words { (kind : Meaning)
        → slice_get (kinds_of meaning kinds.now) unit.now.kind ≡ Some kind
        → length words.now ≡ unit.now.slots * kind.words }
    requires slot { slot < unit.now.slots }
    ensures { (kind : Meaning)
        → slice_get (kinds_of meaning kinds.now) unit.now.kind ≡ Some kind
        → result ≡ record_within unit.now (kind.unpack
        (slot_words kind.words words.now slot)) }
{
    let kind = kinds.kind(usize::from(unit.kind));
    record_by(unit, &**kind, words, slot)
}

/// The record that the words of a slot of a unit spell by its kind.
fn record_by(unit: &Unit, kind: &dyn UnitKind, words: &Filled<u64>, slot: usize) -> Option<Record>
    requires lawful { IsLawful (meaning kind.now) }
    requires plain { IsTrue (is_plain_unit_shape (unit_shape unit.now)) }
    requires words { length words.now ≡ unit.now.slots * (meaning kind.now).words }
    requires slot { slot < unit.now.slots }
    ensures { result ≡ record_within unit.now ((meaning kind.now).unpack
        (slot_words (meaning kind.now).words words.now slot)) }
{
    let width = usize::from(kind.words());
    let read = read_whole(words, slot * width, width);
    held_record(unit, kind, &read[..width])
}

/// So many words from one on, at most four, in the first places.
fn read_whole(words: &Filled<u64>, first: usize, width: usize) -> [u64; 4]
    requires few { width ≤ 4 }
    requires room { first + width ≤ length words.now }
    requires small { first + width < 2 ^ 32 }
    ensures { take width result ≡ take width (drop first words.now) }
{
    let mut read = [0; 4];
    for at in 0..width {
        read[at] = words.get(first + at);
    }
    read
}
