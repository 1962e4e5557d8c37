//! One step of decoding.

ghost use Rattle.dn_kind.specs.Terms.{AreKinds};
ghost use Rattle.dn_net.specs.Terms.{IsLegalNet};

use crate::nets::made::legal;
use dn_kind::kinds::Kinds;
use dn_net::net::Net;
use dn_net::node::{Name, Role, TOP};
use dn_net::step::Step;
use std::alloc::Global;
use std::process::Abort;
use test_plans::{Plan, REMAP, sure_plan, to};

/// A bus that accepts, maps and sends on, a memory behind it, and a unit in front of both, which is node 2.
fn board(rt: &impl Abort, alloc: Global) -> Plan {
    sure_plan!(
        rt, alloc;
        accepting("bus", Role::Plain, 0, 9);
        maps(10, 19, &[to(0, 100)]);
        over(1);
        accepting("ram", Role::Plain, 0, 99);
        unit("mmu", REMAP, 12, 16, 32, &[0, 1])
    )
}

/// The step of a name, and the first name to which it leads.
fn step_of(net: &Net, name: Name) -> (&'static str, Option<Name>)
    requires { IsLegalNet net.now }
{
    if name.node >= net.nodes() {
        return ("no such node", None);
    }
    match net.step(name) {
        Step::Accepted => ("accepted", None),
        Step::Stop => ("stop", None),
        Step::Nothing => ("nothing", None),
        Step::To(dests, offset) => match dests.first() {
            Some(dest) => {
                let node = dest.node;
                let addr = dest.addr.wrapping_add(offset);
                ("to", Some(Name { node, addr }))
            }
            None => ("nowhere", None),
        },
    }
}

/// Compares each step of the board.
fn compare_steps(rt: &impl Abort, net: &Net)
    requires { IsLegalNet net.now }
{
    for (node, addr, wanted) in [
        (0, 9, ("accepted", None)),
        (0, TOP + 1, ("nothing", None)),
        (1, 100, ("nothing", None)),
        (2, TOP, ("stop", None)),
        (2, TOP + 1, ("nothing", None)),
        (0, 10, ("to", Some(Name { node: 0, addr: 100 }))),
        (0, 19, ("to", Some(Name { node: 0, addr: 109 }))),
        (0, 20, ("to", Some(Name { node: 1, addr: 20 }))),
    ] {
        let given = step_of(net, Name { node, addr });
        assert!(rt; given == wanted, "{node}@{addr}");
    }
}

/// One step accepts, stops, comes to nothing, or leads on.
pub fn decode_steps(rt: &impl Abort, alloc: Global, kinds: &Kinds)
    requires { AreKinds meaning kinds.now }
{
    let net = legal(rt, alloc, kinds, board(rt, alloc));
    compare_steps(rt, &net);
}
