//! Boards and desks of plans.

ghost use Rattle.std.specs.Prelude.{IfOk};
ghost use Rattle.dn_kind.specs.Terms.{AreKinds, kinds_of};
ghost use Rattle.dn_view.specs.Terms.{IsSystem};
ghost use Rattle.test_tables.specs.Terms.{IsBoard, IsDesk};

use crate::desk::{Board, Desk};
use dn_base::device::DeviceOrMemory;
use dn_base::memory_tables::MemTables;
use dn_book::book::Book;
use dn_flat::flats::flatten_all;
use dn_kind::kinded::KindedNet;
use dn_kind::kinds::Kinds;
use dn_view::system::System;
use dn_walk::walks::walks;
use std::alloc::Global;
use std::process::Abort;
use test_plans::{Plan, Unmade};

/// The board of a plan.
pub fn board_of(rt: &impl Abort, alloc: Global, kinds: &Kinds, plan: Plan) -> Board
    requires { AreKinds meaning kinds.now }
    ensures { IsBoard (kinds_of meaning kinds.now) result }
{
    planned(alloc, kinds, plan).expect(rt, "a board")
}

/// The board of a plan, where its net keeps all rules.
fn planned(alloc: Global, kinds: &Kinds, plan: Plan) -> Result<Board, Unmade>
    requires { AreKinds meaning kinds.now }
    ensures { IfOk result (IsBoard (kinds_of meaning kinds.now)) }
{
    let net = plan.net(alloc, kinds)?;
    let walks = walks(alloc, &net)?;
    let flats = flatten_all(alloc, &net, &walks)?;
    Ok(Board { net, flats })
}

/// The system of a board and its kinds.
pub fn system_of<'a>(board: &'a Board, kinds: &'a Kinds) -> System<'a>
    requires kinds { AreKinds meaning kinds.now }
    requires board { IsBoard (kinds_of meaning kinds.now) board.now }
    ensures { IsSystem meaning result }
{
    System {
        on: KindedNet {
            net: &board.net,
            kinds,
        },
        flats: &board.flats,
    }
}

/// A book of no grant over a device that has room for so many events and fails at these calls.
pub fn desk_of<'a>(
    rt: &impl Abort,
    alloc: Global,
    system: System<'a>,
    room: u32,
    failing: &[u32],
) -> Result<Desk<'a>, DeviceOrMemory>
    requires { IsSystem meaning system }
    ensures { IfOk result (IsDesk meaning) }
{
    let failing = failing.to_vec(alloc).expect(rt, "memory");
    let mut device = MemTables::new(alloc, room, failing).expect(rt, "a device");
    let book = Book::make(alloc, system.on, &mut device)?;
    Ok(Desk {
        system,
        book,
        device,
    })
}
