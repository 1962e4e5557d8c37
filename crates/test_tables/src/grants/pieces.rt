//! Buffers in pieces over a device that fails: what is left of them in the book and in its tables. The wanted answers are
//! worked out by hand. Where pieces come to stand, and why they are refused, is shown by texts of `answers/gather`.

ghost use Rattle.dn_kind.specs.Terms.{AreKinds};
ghost use Rattle.dn_view.specs.Terms.{IsSystem};
ghost use Rattle.test_tables.specs.Terms.{IsDesk};

use crate::at_desk::{gather_on, resolved_on, revoke_on};
use crate::calls::{board_of, desk_of, system_of};
use crate::desk::Desk;
use dn_gather::piece::Piece;
use dn_gather::refusal::GatherRefusal;
use dn_grant::fault::GrantFault;
use dn_kind::kinds::Kinds;
use dn_kind::rights::{Access, Rights};
use dn_net::node::Name;
use dn_view::system::System;
use std::alloc::Global;
use std::process::Abort;
use test_plans::Plan;

/// The memory of the plan.
const DRAM: u16 = 0;

/// The agent whose addresses go through the unit.
const DMA: u16 = 4;

/// A piece of the memory.
fn piece(id: u32, base: u64, size: u64) -> Piece {
    Piece {
        id,
        node: DRAM,
        base,
        size,
    }
}

/// Asks for pieces, for both accesses.
fn gathered(
    rt: &impl Abort,
    alloc: Global,
    desk: &mut Desk<'_>,
    pieces: &[Piece],
) -> Result<u64, GrantFault<GatherRefusal>>
    requires { IsDesk meaning desk.old }
    ensures { IsDesk meaning desk.new }
{
    gather_on(desk, alloc, DMA, pieces, Rights::both()).expect(rt, "a sound book")
}

/// Takes the grant of an id out.
fn revoke(rt: &impl Abort, desk: &mut Desk<'_>, id: u32)
    requires { IsDesk meaning desk.old }
    ensures { IsDesk meaning desk.new }
{
    assert!(rt; revoke_on(desk, id) == Some(Ok(())));
}

/// One page is granted and revoked, and then two pieces are asked for, over a device that fails at one call: the fence,
/// the write of the first piece, or one of the two of the second.
fn stop(rt: &impl Abort, alloc: Global, system: System<'_>, call: u32, is_first_live: bool)
    requires { IsSystem meaning system }
{
    let mut desk = desk_of(rt, alloc, system, 1000, &[call]).expect(rt, "a desk");
    let two = [piece(1, 0x4000, 0x1000), piece(2, 0x9000, 0x2000)];
    assert!(rt; gathered(rt, alloc, &mut desk, &two[..1]) == Ok(0x0));
    revoke(rt, &mut desk, 1);
    assert!(rt; gathered(rt, alloc, &mut desk, &two) == Err(GrantFault::Device));
    assert!(rt; !desk.book.is_unfailed());
    assert!(rt; desk.device.log().len() == call as usize);
    assert!(rt; desk.book.has_id(1) == is_first_live);
    assert!(rt; !desk.book.has_id(2));
    compare(rt, alloc, &desk);
}

/// Each page of the agent resolves as before the pieces, to nothing, or as with both.
fn compare(rt: &impl Abort, alloc: Global, desk: &Desk<'_>)
    requires { IsDesk meaning desk.now }
{
    for (addr, base) in [(0x0, 0x4000), (0x1000, 0x9000), (0x2000, 0xa000)] {
        let asked = Name { node: DMA, addr };
        let given = Name {
            node: DRAM,
            addr: base,
        };
        let found = resolved_on(desk, alloc, asked, Access::Read).expect(rt, "names");
        let names = found.list();
        assert!(rt; names.is_empty() || names == [given].as_slice());
    }
}

/// Pieces are stopped as is worked out by hand.
pub fn gather_pieces(rt: &impl Abort, alloc: Global, kinds: &Kinds)
    requires { AreKinds meaning kinds.now }
{
    let board = board_of(rt, alloc, kinds, Plan::pages(alloc).expect(rt, "a plan"));
    let system = system_of(&board, kinds);
    for (call, is_first_live) in [(3, false), (4, false), (5, true), (6, true)] {
        stop(rt, alloc, system, call, is_first_live);
    }
}
