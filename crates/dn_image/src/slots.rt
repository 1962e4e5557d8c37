//! The record that a slot holds in the bytes of an image.

ghost use Rattle.std.specs.Prelude.{◌≡◌, ◌+◌, ◌*◌, ◌<◌, ◌≤◌, ◌++◌, length, take, slice_get, None, Some, IsSome, IsTrue};
ghost use Rattle.std.specs.Option.{option_copied};
ghost use Rattle.dn_net.specs.Terms.{unit_at};
ghost use Rattle.dn_kind.specs.Terms.{AreKinds, IsShaped, Meaning, has_shape, is_shaped, kinds_of, record_held, record_of_unit, record_within};
ghost use Rattle.dn_image.specs.Terms.{broken_image, image_words, node_size, nodes_size, width_of, word_count, words_spelled};

use crate::write::{HEAD, HEADER};
use byteorder::{ByteOrder, LittleEndian};
use dn_kind::kinded::KindedNet;
use dn_kind::kinds::Kinds;
use dn_kind::slots::held_record;
use dn_kind::unit_kind::{Record, UnitKind};
use dn_net::node::Unit;

/// The record that a slot of a node holds in an image of the net. `None` exactly where the node is
/// no unit, has not the slot, or the words of the slot are no record of it. It reads the words of
/// this slot alone, and takes no memory.
pub fn record_in(on: KindedNet, bytes: &[u8], node: u16, slot: u64) -> Option<Record>
    requires on { IsShaped meaning on }
    requires whole { broken_image on.net.now (kinds_of meaning on.kinds.now) bytes.now ≡ None }
    requires there { node < length on.net.now }
    ensures { result ≡ record_held on.entry.net.now (kinds_of meaning on.entry.kinds.now)
        (image_words on.entry.net.now (kinds_of meaning on.entry.kinds.now) bytes.now) node slot }
{
    let unit = on.net.unit(node)?;
    if slot >= u64::from(unit.slots) {
        return None;
    }
    record_of(unit, on.kinds, &bytes[words_at(on, node)..], slot as u32)
}

/// The bytes of an image of the net from the words of a unit on, eight for each word: those of slot 0
/// stand first.
pub fn unit_bytes<'a>(on: KindedNet, bytes: &'a [u8], node: u16) -> &'a [u8]
    requires on { IsShaped meaning on }
    requires whole { broken_image on.net.now (kinds_of meaning on.kinds.now) bytes.now ≡ None }
    requires unit { IsSome (unit_at on.net.now node) }
    ensures room { 8 * word_count (kinds_of meaning on.entry.kinds.now)
        (unit_at on.entry.net.now node) ≤ length result.now }
    ensures words { slice_get (image_words on.entry.net.now
        (kinds_of meaning on.entry.kinds.now) bytes.now) node ≡ Some (words_spelled (word_count
        (kinds_of meaning on.entry.kinds.now) (unit_at on.entry.net.now node)) result.now) }
{
    &bytes[words_at(on, node)..]
}

/// The record that a slot of a unit holds, whose words stand first in these bytes.
pub fn record_of(unit: &Unit, kinds: &Kinds, bytes: &[u8], slot: u32) -> Option<Record>
    requires kinds { AreKinds meaning kinds.now }
    requires shaped { IsTrue (is_shaped (kinds_of meaning kinds.now) unit.now) }
    requires slot { slot < unit.now.slots }
    requires room { 8 * word_count (kinds_of meaning kinds.now) (Some unit.now) ≤ length bytes.now }
    ensures { result ≡ record_of_unit (kinds_of meaning kinds.now) (Some unit.now) (Some
        (words_spelled (word_count (kinds_of meaning kinds.now) (Some unit.now)) bytes.now)) slot }
{
    let width = usize::from(record_width(unit, kinds));
    let first = 8 * (slot as usize * width);
    let words = read_slot(&bytes[first..], width);
    record_by(unit, kinds, &words[..width])
}

/// The record that the words of a slot spell, where the unit can hold it.
fn record_by(unit: &Unit, kinds: &Kinds, words: &[u64]) -> Option<Record>
    requires kinds { AreKinds meaning kinds.now }
    requires shaped { IsTrue (is_shaped (kinds_of meaning kinds.now) unit.now) }
    requires words { length words.now ≡ width_of (kinds_of meaning kinds.now) unit.now }
    ensures { (kind : Meaning)
        → slice_get (kinds_of meaning kinds.now) unit.now.kind ≡ Some kind
        → result ≡ record_within unit.now (kind.unpack words.now) }
{
    let kind = kinds.kind(usize::from(unit.kind));
    held_record(unit, &**kind, words)
}

/// So many words, at most four, in the first places.
fn read_slot(bytes: &[u8], width: usize) -> [u64; 4]
    requires most { width ≤ 4 }
    requires room { 8 * width ≤ length bytes.now }
    ensures { take width result ≡ words_spelled width bytes.now }
{
    let mut words = [0u64; 4];
    for word in 0..width {
        words[word] = LittleEndian::read_u64(&bytes[8 * word..]);
    }
    words
}

/// Where the words of a unit begin in an image of the net.
fn words_at(on: KindedNet, node: u16) -> usize
    requires on { IsShaped meaning on }
    requires there { node < length on.net.now }
    ensures { result
        ≡ 16 + nodes_size (kinds_of meaning on.entry.kinds.now) (take node on.entry.net.now) }
{
    let mut at = HEADER;
    for before in 0..node {
        at += node_size(on.net.unit(before), on.kinds);
    }
    at + HEAD
}

/// How many bytes a node has in an image: none, or the head and the words of a unit.
pub(crate) fn node_size(unit: Option<&Unit>, kinds: &Kinds) -> usize
    requires kinds { AreKinds meaning kinds.now }
    requires shaped { IsTrue (has_shape (kinds_of meaning kinds.now) (option_copied unit)) }
    ensures size { result ≡ node_size (kinds_of meaning kinds.now) (option_copied unit.entry) }
    ensures small { result ≤ 8388616 }
{
    match unit {
        Some(unit) => HEAD + 8 * count_words(unit, kinds),
        None => 0,
    }
}

/// How many words a unit has.
pub(crate) fn count_words(unit: &Unit, kinds: &Kinds) -> usize
    requires kinds { AreKinds meaning kinds.now }
    requires shaped { IsTrue (is_shaped (kinds_of meaning kinds.now) unit.now) }
    ensures count { result ≡ word_count (kinds_of meaning kinds.now) (Some unit.now) }
    ensures small { result ≤ 1048576 }
{
    unit.slots as usize * usize::from(record_width(unit, kinds))
}

/// How many words a record of a unit has.
pub fn record_width(unit: &Unit, kinds: &Kinds) -> u8
    requires kinds { AreKinds meaning kinds.now }
    requires known { unit.now.kind < length kinds.now.list.items }
    ensures width { result ≡ width_of (kinds_of meaning kinds.now) unit.now }
    ensures most { result ≤ 4 }
{
    kinds.kind(usize::from(unit.kind)).words()
}
