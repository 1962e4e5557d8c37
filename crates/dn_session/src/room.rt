//! Room for the events of the grants of pieces, wherever they are placed.

ghost use Rattle.std.specs.Prelude.{◌≡◌, ◌≤◌, length, Some};
ghost use Rattle.dn_net.specs.Terms.{unit_at};
ghost use Rattle.dn_view.specs.Terms.{IsSystem};
ghost use Rattle.dn_session.specs.Terms.{most_slots, pieces_room, unit_most};

use dn_gather::piece::Piece;
use dn_net::node::Unit;
use dn_place::unit::unit_in;
use dn_view::system::System;

/// How many events the grants of pieces have at most: four words of each slot that a piece can take
/// in a unit of the net, and a fence for each.
pub(crate) fn pieces_room(system: System, pieces: &[Piece]) -> usize
    requires system { IsSystem meaning system }
    requires few { length pieces.now ≤ 8 }
    ensures { result ≡ pieces_room system.entry.on.net.now pieces.now }
{
    let mut room = 0;
    for piece in pieces {
        room += 4 * most_slots(system, piece.size) + 1;
    }
    room
}

/// How many slots of one unit of the net so many addresses take at most.
fn most_slots(system: System, size: u64) -> usize
    requires system { IsSystem meaning system }
    ensures value { result ≡ most_slots system.entry.on.net.now size }
    ensures few { result ≤ 262145 }
{
    let mut most = 0;
    let mut node = system.on.net.nodes();
    'units: while node > 0 {
        node -= 1;
        most = slots_at(system, node, size).max(most);
    }
    most
}

/// How many slots of a node they take at most, which has some where it is a unit.
fn slots_at(system: System, node: u16, size: u64) -> usize
    requires system { IsSystem meaning system }
    ensures value { result ≡ unit_most size (unit_at system.entry.on.net.now node) }
    ensures few { result ≤ 262145 }
{
    match unit_in(system, node) {
        Some(unit) => slots_of(unit, size),
        None => 0,
    }
}

/// How many slots of a unit they take at most: none, where its outputs end before so many.
fn slots_of(unit: &Unit, size: u64) -> usize
    requires page { unit.now.page ≤ 40 }
    requires reach { unit.now.reach ≤ 56 }
    requires slots { unit.now.slots ≤ 262144 }
    ensures value { result ≡ unit_most size (Some unit.now) }
    ensures few { result ≤ 262145 }
{
    if size > 1 << unit.reach {
        return 0;
    }
    let pages = size >> unit.page;
    if pages < u64::from(unit.slots) {
        pages as usize + 2
    } else {
        unit.slots as usize
    }
}
