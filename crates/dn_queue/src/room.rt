//! Room for the events of a grant or a revoke.

ghost use Rattle.std.specs.Prelude.{◌≡◌, ◌-◌, ◌≤◌, suc, length, Some};
ghost use Rattle.dn_net.specs.declared.node.Unit.{Unit as UnitPart};
ghost use Rattle.dn_net.specs.Terms.{unit_at};
ghost use Rattle.dn_placement.specs.Terms.{first_slot, last_slot};
ghost use Rattle.dn_book.specs.Terms.{AreFit, TakesSlots};
ghost use Rattle.dn_queue.specs.Terms.{event_room, slots_of_hop};

use dn_net::net::Net;
use dn_net::node::Unit;
use dn_tables::placement::Hop;

/// How many events a grant or a revoke has at most whose placement has these hops: four words of each
/// slot, and a fence.
pub(crate) fn event_room(net: &Net, size: u64, hops: &[Hop]) -> usize
    requires fit { AreFit net.now size hops.now }
    requires few { length hops.now ≤ 3 }
    ensures { result ≡ event_room net.now size hops.now }
{
    let mut slots = 0;
    for hop in hops {
        slots += slots_of_hop(net, size, hop);
    }
    4 * slots + 1
}

/// How many slots a hop takes of its unit.
fn slots_of_hop(net: &Net, size: u64, hop: &Hop) -> usize
    requires { (u : UnitPart) × (unit_at net.now hop.now.unit ≡ Some u) × TakesSlots u size hop.now }
    ensures value { result ≡ slots_of_hop net.now size hop.now }
    ensures few { result ≤ 262144 }
{
    match net.unit(hop.unit) {
        Some(unit) => slots_of_unit(unit, size, hop),
        None => unreachable!(),
    }
}

/// How many slots a hop takes of this unit.
fn slots_of_unit(unit: &Unit, size: u64, hop: &Hop) -> usize
    requires { TakesSlots unit.now size hop.now }
    ensures value { result ≡ suc (last_slot unit.now size hop.now) - first_slot unit.now hop.now }
    ensures few { result ≤ 262144 }
{
    let first = hop.x >> unit.page;
    let last = (hop.x + size - 1) >> unit.page;
    (last - first) as usize + 1
}
