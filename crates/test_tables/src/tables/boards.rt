//! The plans of the nets of the tests of tables.

use dn_net::node::Role;
use std::alloc::Global;
use std::process::Abort;
use test_plans::{Plan, REMAP, VECTORS, sure_plan, to};

/// The board with pages: a bus with a memory, node 0, and a serial port, node 1, and behind it an agent, node
/// 4, whose addresses go through a unit, node 5, of 16 pages of 4 KiB.
pub fn page_plan(rt: &impl Abort, alloc: Global) -> Plan {
    Plan::pages(alloc).expect(rt, "a plan")
}

/// The vectors of a core, node 0, and an agent `nic`, node 1, whose four messages go through a unit
/// `irt`, node 2.
pub fn vector_plan(rt: &impl Abort, alloc: Global) -> Plan {
    sure_plan!(
        rt, alloc;
        accepting("cpu0", Role::Vectors, 0x20, 0x2f);
        agent("nic", 3, to(2, 0));
        unit("irt", VECTORS, 0, 4, 8, &[0])
    )
}

/// Two memories, nodes 0 and 1, and an agent, node 2, whose addresses go through a unit of 4 pages
/// with a port to each, node 3, whose outputs are below 2^14.
pub fn port_plan(rt: &impl Abort, alloc: Global) -> Plan {
    sure_plan!(
        rt, alloc;
        accepting("ram", Role::Plain, 0, 0xffff);
        accepting("rom", Role::Plain, 0, 0xffff);
        agent("a", 0x3fff, to(3, 0));
        unit("u", REMAP, 12, 4, 14, &[0, 1])
    )
}

/// A node that accepts nothing, node 0, two units behind it: `first` of two slots of a word each,
/// node 1, and `second` of one slot of two words, node 2; and an agent, node 3, whose addresses go
/// through the first.
pub fn two_units(rt: &impl Abort, alloc: Global) -> Plan {
    sure_plan!(
        rt, alloc;
        node("ram", Role::Plain);
        unit("first", REMAP, 12, 2, 32, &[0]);
        unit("second", VECTORS, 0, 1, 32, &[0]);
        agent("a", 0x1fff, to(1, 0))
    )
}
