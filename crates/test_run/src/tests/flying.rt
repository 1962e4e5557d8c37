//! The one test of lookups in flight, which makes the kinds of the program, since making these kinds is the dearest
//! part of it, and plays all that is worked out by hand.

ghost use Rattle.dn_kind.specs.Terms.{AreKinds};

use crate::tests::boards::Board;
use crate::tests::flying::flights::{clear_before_a_read, follow_two_units, put_before_a_lookup};
use crate::tests::flying::played::{FOR_ENGINE, FOR_PHI, play_one_unit, play_run, play_two_units};
use crate::tests::flying::playing::{play_all, sky_of, system_of};
use crate::tests::flying::worlds::{
    ask_for_rights, begin_too_many, refuse_by_the_first_in_flight, refuse_what_is_not_there,
};
use dn_kind::kinds::Kinds;
use dn_net::node::Role;
use std::alloc::Global;
use std::process::Abort;
use test_plans::{PAGES, Plan, REMAP, run_with_kinds, to};

mod flights;
mod played;
mod playing;
mod worlds;

#[test]
fn looks_up_while_tables_are_written(rt: HostRuntime) {
    run_with_kinds!(rt; fly_over_one_unit, fly_over_two_units)
}

/// All that is looked up behind one unit.
fn fly_over_one_unit(rt: &impl Abort, alloc: Global, kinds: &Kinds)
    requires { AreKinds meaning kinds.now }
{
    let sky = sky_of(rt, alloc, kinds, Plan::pages(alloc).expect(rt, "a plan"));
    let system = system_of(&sky, kinds);
    play_all(rt, alloc, system, &[], &put_before_a_lookup());
    play_all(rt, alloc, system, &[], &clear_before_a_read());
    play_all(rt, alloc, system, &[], &refuse_what_is_not_there());
    play_all(rt, alloc, system, &[], &refuse_by_the_first_in_flight());
    play_all(rt, alloc, system, &[], &ask_for_rights());
    play_all(rt, alloc, system, &[], &begin_too_many());
    let run = (Board::Engine, FOR_ENGINE, 5);
    play_run(rt, alloc, system, kinds, run, &play_one_unit());
}

/// All that is looked up behind two units in a row.
fn fly_over_two_units(rt: &impl Abort, alloc: Global, kinds: &Kinds)
    requires { AreKinds meaning kinds.now }
{
    let sky = sky_of(rt, alloc, kinds, two_unit_plan(rt, alloc));
    let system = system_of(&sky, kinds);
    play_all(rt, alloc, system, &[], &follow_two_units());
    let run = (Board::Phi, FOR_PHI, 9);
    play_run(rt, alloc, system, kinds, run, &play_two_units());
}

/// The bus, and behind it an agent `phi`, node 4, whose addresses go through `smpt`, node 5, then over
/// `hostin`, node 6, through `iommu`, node 7.
fn two_unit_plan(rt: &impl Abort, alloc: Global) -> Plan {
    let mut plan = Plan::bus(alloc).expect(rt, "a plan");
    plan.agent("phi", 0x3fffff, to(5, 0)).expect(rt, "a plan");
    plan.unit("smpt", REMAP, 20, 4, 24, &[6])
        .expect(rt, "a plan");
    plan.mapping("hostin", Role::Plain, 0, 0xfffff, to(7, 0))
        .expect(rt, "a plan");
    plan.unit("iommu", PAGES, 12, 256, 32, &[2])
        .expect(rt, "a plan");
    plan
}
