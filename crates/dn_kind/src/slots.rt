//! The record that a slot of a unit holds.

ghost use Rattle.std.specs.Prelude.{◌≡◌, length, IsTrue};
ghost use Rattle.dn_kind.specs.Terms.{is_plain_unit_shape, record_within, unit_shape};

use crate::shape::shape_of;
use crate::unit_kind::{Record, UnitKind};
use dn_net::node::Unit;

/// The record that the words of a slot spell, where the unit can hold it. `None` exactly where the
/// words spell none, where the port is none of the unit's, or where the output is past its reach.
pub fn held_record(unit: &Unit, kind: &dyn UnitKind, words: &[u64]) -> Option<Record>
    requires plain { IsTrue (is_plain_unit_shape (unit_shape unit.now)) }
    requires words { length words.now ≡ (meaning kind.now).words }
    ensures { result ≡ record_within unit.now ((meaning kind.now).unpack words.now) }
{
    let record = kind.unpack(words)?;
    if record.is_within(shape_of(unit)) {
        Some(record)
    } else {
        None
    }
}
