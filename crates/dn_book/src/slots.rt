//! The slots that a hop takes of its unit, and the records that it puts into them.

ghost use Rattle.std.specs.Prelude.{◌≡◌, ◌<◌, ◌≤◌, suc};
ghost use Rattle.dn_book.specs.Terms.{TakesSlots};
ghost use Rattle.dn_placement.specs.Terms.{first_slot, last_slot, slot_record};

use dn_kind::rights::Rights;
use dn_kind::unit_kind::Record;
use dn_net::node::Unit;
use dn_tables::placement::Hop;

/// The first slot that a hop takes.
pub(crate) fn first_slot(unit: &Unit, size: u64, hop: &Hop) -> u32
    requires { TakesSlots unit.now size hop.now }
    ensures value { result ≡ first_slot unit.now hop.now }
    ensures there { result < unit.now.slots }
{
    (hop.x >> unit.page) as u32
}

/// The slot behind the last one that a hop takes for so many addresses.
pub(crate) fn end_slot(unit: &Unit, size: u64, hop: &Hop) -> u32
    requires { TakesSlots unit.now size hop.now }
    ensures value { result ≡ suc (last_slot unit.now size hop.now) }
    ensures there { result ≤ unit.now.slots }
{
    ((hop.x + size - 1) >> unit.page) as u32 + 1
}

/// The record that a hop puts into one of its slots.
pub(crate) fn slot_record(unit: &Unit, size: u64, rights: Rights, hop: &Hop, slot: u32) -> Record
    requires fits { TakesSlots unit.now size hop.now }
    requires from { first_slot unit.now hop.now ≤ slot }
    requires to { slot ≤ last_slot unit.now size hop.now }
    ensures { result ≡ slot_record unit.now rights hop.now slot }
{
    Record {
        port: hop.port,
        page: (hop.y >> unit.page) + u64::from(slot - first_slot(unit, size, hop)),
        rights,
    }
}
