//! Where the record of a slot sends an address.

ghost use Rattle.std.specs.Prelude.{◌≡◌, [], ◌∷◌, Some, IsTrue};
ghost use Rattle.dn_kind.specs.Terms.{is_plain_unit_shape, is_within, output, unit_shape};

use crate::unit_kind::Record;
use dn_net::node::{Name, Unit};

/// Where a record sends an address: to the output page of its port, at the address's offset in its
/// slot.
pub fn output_name(unit: &Unit, record: Record, addr: u64) -> Name
    requires plain { IsTrue (is_plain_unit_shape (unit_shape unit.now)) }
    requires within { IsTrue (is_within (unit_shape unit.now) «record») }
    ensures { result ∷ [] ≡ output unit.now (Some «record») addr }
{
    let page = 1 << unit.page;
    Name {
        node: unit.ports.as_slice()[usize::from(record.port)],
        addr: record.page * page + addr % page,
    }
}
