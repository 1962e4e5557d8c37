//! The slots of an image, as it is stored.

ghost use Rattle.std.specs.Prelude.{◌≡◌, ◌*◌, ◌<◌, ◌≤◌, length, Some, IsTrue};
ghost use Rattle.dn_kind.specs.Terms.{AreKinds, is_shaped, kinds_of, record_of_unit};
ghost use Rattle.dn_image.specs.Terms.{width_of, word_count, words_spelled};
ghost use Rattle.dn_audit.specs.Terms.{counted, has_gate};

use byteorder::{ByteOrder, LittleEndian};
use dn_image::slots::{record_of, record_width};
use dn_kind::kinded::KindedNet;
use dn_kind::kinds::Kinds;
use dn_kind::rights::Access;
use dn_kind::unit_kind::Record;
use dn_net::node::Unit;

/// The bytes of an image of this version, with the net and the kinds for which it is one.
#[derive(Clone, Copy)]
pub(crate) struct StoredImage<'a> {
    pub(crate) on: KindedNet<'a>,
    pub(crate) bytes: &'a [u8],
    pub(crate) version: u16,
}

/// The record of a slot of a unit, whose words stand first in these bytes of an image of this
/// version, where it counts.
pub(crate) fn counted_record(
    unit: &Unit,
    kinds: &Kinds,
    bytes: &[u8],
    slot: u32,
    version: u16,
) -> Option<Record>
    requires kinds { AreKinds meaning kinds.now }
    requires shaped { IsTrue (is_shaped (kinds_of meaning kinds.now) unit.now) }
    requires slot { slot < unit.now.slots }
    requires room { 8 * word_count (kinds_of meaning kinds.now) (Some unit.now) ≤ length bytes.now }
    ensures { result ≡ counted version (record_of_unit (kinds_of meaning kinds.now) (Some unit.now)
        (Some (words_spelled (word_count (kinds_of meaning kinds.now) (Some unit.now)) bytes.now))
        slot) }
{
    let record = record_of(unit, kinds, bytes, slot)?;
    let allows_both = record.rights.allows(Access::Read) && record.rights.allows(Access::Write);
    if version == 1 && !allows_both {
        return None;
    }
    Some(record)
}

/// Whether the gate of a slot of a unit is set, whose words stand first in these bytes.
pub(crate) fn has_gate(unit: &Unit, kinds: &Kinds, bytes: &[u8], slot: u32) -> bool
    requires kinds { AreKinds meaning kinds.now }
    requires shaped { IsTrue (is_shaped (kinds_of meaning kinds.now) unit.now) }
    requires slot { slot < unit.now.slots }
    requires room { 8 * word_count (kinds_of meaning kinds.now) (Some unit.now) ≤ length bytes.now }
    ensures { result ≡ has_gate (width_of (kinds_of meaning kinds.now) unit.now)
        (words_spelled (word_count (kinds_of meaning kinds.now) (Some unit.now)) bytes.now) slot }
{
    let width = usize::from(record_width(unit, kinds));
    let word = slot as usize * width + (width - 1);
    LittleEndian::read_u64(&bytes[8 * word..]) % 2 == 1
}
