//! The rows of the live walks of nets.

ghost use Rattle.dn_kind.specs.Terms.{AreKinds};

use crate::nets::stages::chain_plan;
use dn_base::items::Items;
use dn_kind::kinds::Kinds;
use dn_net::node::Role;
use dn_walk::walks::{WalkRow, walks};
use std::alloc::{AllocError, Global};
use std::process::Abort;
use test_plans::{PAGES, Plan, sure_plan, to};

/// Rows of walks, each as `start lo-hi end@base len`, with the addresses in hexadecimal.
fn rows(alloc: Global, pieces: &[Items<WalkRow>]) -> Result<String, AllocError> {
    let mut text = String::new(alloc);
    for piece in pieces {
        for row in piece.as_slice() {
            let (lo, hi) = (row.span.lo, row.span.hi);
            let (start, end, base, len) = (row.start, row.end, row.base, row.len);
            write!(text, "{start} {lo:x}-{hi:x} {end}@{base:x} {len};")?;
        }
    }
    Ok(text)
}

/// The rows of the live walks of a plan's net.
fn rows_of(rt: &impl Abort, alloc: Global, kinds: &Kinds, plan: Plan) -> String
    requires { AreKinds meaning kinds.now }
{
    let net = plan.net(alloc, kinds).expect(rt, "a net");
    let table = walks(alloc, &net).ok().expect(rt, "walks");
    rows(alloc, table.rows()).expect(rt, "memory")
}

/// A net whose walks are listed.
#[derive(Clone, Copy)]
enum Walked {
    /// A bus with a memory and a device, and a core in front of it.
    Bus,
    /// A bus that accepts, maps and sends on what is left: a gap at each end, and two between.
    Gaps,
    /// Two nodes that send to one another, at addresses from which nothing leads back.
    Pair,
    /// A node before a unit, and two destinations behind it.
    Copies,
}

/// A bus that accepts, maps and sends on what is left to a memory, node 0.
fn gaps_plan(rt: &impl Abort, alloc: Global) -> Plan {
    sure_plan!(
        rt, alloc;
        accepting("memory", Role::Plain, 0, 99);
        accepting("bus", Role::Plain, 20, 29);
        accepts(0xff_ffff_ffff_fff6, 0xff_ffff_ffff_fffe);
        maps(10, 19, &[to(0, 5)]);
        over(0)
    )
}

/// Two nodes that send to one another.
fn pair_plan(rt: &impl Abort, alloc: Global) -> Plan {
    sure_plan!(
        rt, alloc;
        mapping("a", Role::Plain, 0, 9, to(1, 100));
        mapping("b", Role::Plain, 105, 110, to(0, 50))
    )
}

/// A node before a unit, node 2, and behind it one that sends to two addresses of a memory.
fn copies_plan(rt: &impl Abort, alloc: Global) -> Plan {
    sure_plan!(
        rt, alloc;
        mapping("a", Role::Plain, 0, 3, to(2, 0));
        accepting("m", Role::Plain, 0, 15);
        unit("u", PAGES, 0, 16, 8, &[3]);
        node("n", Role::Plain);
        maps(0, 3, &[to(1, 0), to(1, 8)])
    )
}

/// Its plan.
fn plan_of(rt: &impl Abort, alloc: Global, walked: Walked) -> Plan {
    match walked {
        Walked::Bus => Plan::bus(alloc).expect(rt, "a plan"),
        Walked::Gaps => gaps_plan(rt, alloc),
        Walked::Pair => pair_plan(rt, alloc),
        Walked::Copies => copies_plan(rt, alloc),
    }
}

/// The walks of each net are listed, those of one step first.
pub fn list_walks(rt: &impl Abort, alloc: Global, kinds: &Kinds)
    requires { AreKinds meaning kinds.now }
{
    for (walked, wanted) in [
        (
            Walked::Bus,
            "2 10000000-10000fff 1@0 1;2 80000000-bfffffff 0@0 1;3 0-ffffffffffffff 2@0 1;3 10000000-10000fff 1@0 2;3 80000000-bfffffff 0@0 2;",
        ),
        (
            Walked::Gaps,
            "1 0-9 0@0 1;1 a-13 0@5 1;1 1e-fffffffffffff5 0@1e 1;1 ffffffffffffff-ffffffffffffff 0@ffffffffffffff 1;",
        ),
        (Walked::Pair, "0 0-9 1@64 1;1 69-6e 0@32 1;0 5-9 0@32 2;"),
        (Walked::Copies, "0 0-3 2@0 1;3 0-3 1@0 1;3 0-3 1@8 1;"),
    ] {
        let given = rows_of(rt, alloc, kinds, plan_of(rt, alloc, walked));
        assert!(rt; given.as_str() == wanted);
    }
    // The longest walk has 64 steps, and is the last of this net.
    let given = rows_of(rt, alloc, kinds, chain_plan(rt, alloc));
    assert!(rt; given.as_str().ends_with(";0 0-0 0@40 64;"));
}
