//! The plans of the nets of these tests. The agents have no address past 15, and the units no output past 7.

use dn_net::node::Role;
use std::alloc::Global;
use std::process::Abort;
use test_plans::{PAGES, Plan, REMAP, VECTORS, sure_plan, to};

/// Two memories, nodes 0 and 1, and a unit, node 2, of 4 pages of two addresses with a port to each. One
/// agent, node 3, has all its pages, and two addresses of the first memory beside them; another, node 4,
/// has the last page alone, and an address that goes to both memories.
pub fn port_plan(rt: &impl Abort, alloc: Global) -> Plan {
    sure_plan!(
        rt, alloc;
        accepting("ram", Role::Plain, 0, 7);
        accepting("rom", Role::Plain, 0, 3);
        unit("u", REMAP, 1, 4, 3, &[0, 1]);
        agent("a", 7, to(2, 0));
        maps(8, 9, &[to(0, 2)]);
        agent("b", 1, to(2, 6));
        maps(2, 2, &[to(0, 0), to(1, 0)])
    )
}

/// A memory, node 0, and two units in a row: `outer`, node 1, of 3 pages of two addresses, and `inner`,
/// node 3, of 4 pages of one, behind a node 2 which also has the last two addresses of the memory. One agent,
/// node 4, goes through both; another, node 5, has the last page of the inner one.
pub fn row_plan(rt: &impl Abort, alloc: Global) -> Plan {
    sure_plan!(
        rt, alloc;
        accepting("ram", Role::Plain, 0, 5);
        unit("outer", REMAP, 1, 3, 3, &[2]);
        mapping("between", Role::Plain, 0, 3, to(3, 0));
        maps(4, 5, &[to(0, 4)]);
        unit("inner", PAGES, 0, 4, 2, &[0]);
        agent("a", 5, to(1, 0));
        agent("b", 0, to(3, 3))
    )
}

/// A memory, node 0, and three units in a row: `first`, node 1, of two pages of two addresses, and behind a
/// node each `second`, node 2, and `third`, node 3, of three pages of one. One agent, node 4, goes through all
/// of them; others, nodes 5 and 6, have the last page of the second and of the third one.
pub fn chain_plan(rt: &impl Abort, alloc: Global) -> Plan {
    sure_plan!(
        rt, alloc;
        accepting("ram", Role::Plain, 0, 3);
        unit("first", PAGES, 1, 2, 2, &[7]);
        unit("second", PAGES, 0, 3, 2, &[8]);
        unit("third", PAGES, 0, 3, 2, &[0]);
        agent("a", 3, to(1, 0));
        agent("b", 0, to(2, 2));
        agent("c", 0, to(3, 2));
        mapping("before_second", Role::Plain, 0, 2, to(2, 0));
        mapping("before_third", Role::Plain, 0, 2, to(3, 0))
    )
}

/// The vectors of two cores, nodes 0 and 1, and two remappers of interrupts: `near`, node 2, leads to the
/// first core, and `far`, node 4, to the node 3 before `near` and to the second core. The lines of one
/// agent, node 5, come in at `far`, and those of another, node 6, at `near`.
pub fn vector_plan(rt: &impl Abort, alloc: Global) -> Plan {
    sure_plan!(
        rt, alloc;
        accepting("core0", Role::Vectors, 1, 3);
        accepting("core1", Role::Vectors, 2, 3);
        unit("near", VECTORS, 0, 3, 2, &[0]);
        mapping("before_near", Role::Plain, 0, 1, to(2, 1));
        unit("far", VECTORS, 0, 3, 2, &[3, 1]);
        agent("nic", 2, to(4, 0));
        agent("disk", 1, to(2, 0))
    )
}
