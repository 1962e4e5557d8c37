//! Stages, compared with chains of steps, address by address.

ghost use Rattle.std.specs.Prelude.{◌<◌, length};
ghost use Rattle.dn_flat.specs.Terms.{IsStage};
ghost use Rattle.dn_kind.specs.Terms.{AreKinds};
ghost use Rattle.dn_net.specs.Terms.{IsLegalNet};

use crate::nets::made::legal;
use dn_flat::stage::Stage;
use dn_interval::{End, Rows};
use dn_kind::kinds::Kinds;
use dn_net::names::Names;
use dn_net::net::Net;
use dn_net::node::{Dest, Name, Role};
use dn_net::step::Step;
use std::alloc::Global;
use std::process::Abort;
use test_plans::{PAGES, Plan, sure_plan, to};

/// The names that rows give to an address.
fn names_at(rt: &impl Abort, alloc: Global, rows: &Rows, addr: u64) -> Vec<Name> {
    let mut names = Vec::new(alloc);
    if let Some(row) = rows.at(addr) {
        let by = addr.wrapping_sub(row.span().lo);
        for end in row.ends() {
            if let Some(addr) = end.base.checked_add(by) {
                let node = end.node;
                names.push(Name { node, addr }).expect(rt, "memory");
            }
        }
    }
    names
}

/// Where chains of steps from a name are after some steps, and the accepted names and the names in units that
/// they met before.
#[derive(Drop)]
struct Search {
    at: Names,
    accepted: Names,
    stopped: Names,
}

/// The search before any step.
fn begin(rt: &impl Abort, alloc: Global, name: Name) -> Search {
    let mut at = Names::new(alloc);
    at.insert(name).expect(rt, "memory");
    Search {
        at,
        accepted: Names::new(alloc),
        stopped: Names::new(alloc),
    }
}

/// Adds where a step leads.
fn add_dests(rt: &impl Abort, names: &mut Names, dests: &[Dest], offset: u64) {
    for dest in dests {
        let node = dest.node;
        let addr = dest.addr.wrapping_add(offset);
        names.insert(Name { node, addr }).expect(rt, "memory");
    }
}

/// The search after one step more.
fn advance(rt: &impl Abort, alloc: Global, net: &Net, search: Search) -> Search
    requires { IsLegalNet net.now }
{
    let Search {
        at,
        mut accepted,
        mut stopped,
    } = search;
    let mut next = Names::new(alloc);
    for name in at.list() {
        assert!(rt; name.node < net.nodes());
        match net.step(*name) {
            Step::Accepted => accepted.insert(*name).expect(rt, "memory"),
            Step::Stop => stopped.insert(*name).expect(rt, "memory"),
            Step::To(dests, offset) => add_dests(rt, &mut next, dests, offset),
            Step::Nothing => {}
        }
    }
    Search {
        at: next,
        accepted,
        stopped,
    }
}

/// Compares what a stage has of a name with the search of so many steps.
fn compare(rt: &impl Abort, alloc: Global, net: &Net, stage: &Stage, name: Name)
    requires legal { IsLegalNet net.now }
    requires there { name.node < length stage.now.nodes }
{
    let mut search = begin(rt, alloc, name);
    for _ in 0..stage.steps() {
        search = advance(rt, alloc, net, search);
    }
    let steps = stage.steps();
    let done = stage.done(name.node);
    let accepted = names_at(rt, alloc, &done.accepts, name.addr);
    let stopped = names_at(rt, alloc, &done.stops, name.addr);
    let go = names_at(rt, alloc, stage.go(name.node), name.addr);
    assert!(rt;
        accepted.as_slice() == search.accepted.list(),
        "{name:?} {steps}"
    );
    assert!(rt;
        stopped.as_slice() == search.stopped.list(),
        "{name:?} {steps}"
    );
    assert!(rt; go.as_slice() == search.at.list(), "{name:?} {steps}");
}

/// Compares what a stage has of the first addresses of each node.
fn compare_all(rt: &impl Abort, alloc: Global, net: &Net, stage: &Stage, addresses: u64)
    requires legal { IsLegalNet net.now }
    requires stage { IsStage net.now stage.now }
{
    for node in 0..net.nodes() {
        for addr in 0..addresses {
            compare(rt, alloc, net, stage, Name { node, addr });
        }
    }
}

/// Compares the stages for 1, 2, 4 and so on to 64 steps.
fn compare_stages(rt: &impl Abort, alloc: Global, net: &Net, addresses: u64)
    requires { IsLegalNet net.now }
{
    let mut stage = Stage::start(alloc, net).expect(rt, "memory");
    for _ in 0..6 {
        compare_all(rt, alloc, net, &stage, addresses);
        assert!(rt; stage.steps() <= 32);
        stage = stage.doubled(alloc, net).expect(rt, "memory");
    }
    assert!(rt; stage.steps() == 64);
    compare_all(rt, alloc, net, &stage, addresses);
}

/// The same over a net whose stages are compared.
fn compare_net(rt: &impl Abort, alloc: Global, kinds: &Kinds, staged: Staged)
    requires { AreKinds meaning kinds.now }
{
    let net = legal(rt, alloc, kinds, plan_of(rt, alloc, staged));
    compare_stages(rt, alloc, &net, addresses_of(staged));
}

/// A net whose stages are compared with chains of steps.
#[derive(Clone, Copy)]
enum Staged {
    Chain,
    Fork,
    Block,
}

/// Its plan.
fn plan_of(rt: &impl Abort, alloc: Global, staged: Staged) -> Plan {
    match staged {
        Staged::Chain => chain_plan(rt, alloc),
        Staged::Fork => fork_plan(rt, alloc),
        Staged::Block => block_plan(rt, alloc),
    }
}

/// How many addresses of its nodes are looked at.
fn addresses_of(staged: Staged) -> u64 {
    match staged {
        Staged::Chain => 66,
        Staged::Fork => 16,
        Staged::Block => 32,
    }
}

/// Each address goes to the next, up to 64, and another node comes in at some.
pub fn chain_plan(rt: &impl Abort, alloc: Global) -> Plan {
    sure_plan!(
        rt, alloc;
        accepting("a", Role::Plain, 64, 64);
        maps(0, 63, &[to(0, 1)]);
        node("b", Role::Agent);
        maps(0, 9, &[to(0, 30), to(0, 40)]);
        maps(10, 19, &[to(0, 56)])
    )
}

/// Two ways that meet again, and two steps to a unit, and none from it.
fn fork_plan(rt: &impl Abort, alloc: Global) -> Plan {
    sure_plan!(
        rt, alloc;
        accepting("c", Role::Plain, 8, 11);
        accepts(0, 3);
        over(1);
        accepting("d", Role::Plain, 4, 5);
        maps(6, 7, &[to(0, 8)]);
        node("b", Role::Agent);
        maps(0, 3, &[to(0, 4), to(1, 4)]);
        maps(8, 11, &[to(0, 0), to(0, 8)]);
        over(0);
        unit("u", PAGES, 2, 2, 8, &[0]);
        mapping("e", Role::Plain, 0, 7, to(3, 0));
        mapping("f", Role::Agent, 1, 4, to(4, 4));
        over(2)
    )
}

/// Blocks that overlap and touch, two ways to one name, neighbours that go on and neighbours that break.
fn block_plan(rt: &impl Abort, alloc: Global) -> Plan {
    sure_plan!(
        rt, alloc;
        accepting("a", Role::Plain, 8, 20);
        accepts(0, 3);
        accepts(4, 10);
        mapping("b", Role::Plain, 0, 9, to(0, 0));
        maps(10, 19, &[to(0, 10)]);
        maps(20, 29, &[to(0, 10)]);
        accepting("c", Role::Plain, 15, 16);
        maps(0, 9, &[to(0, 2)]);
        accepting("d", Role::Plain, 0, 0);
        maps(2, 11, &[to(1, 0), to(2, 0)]);
        maps(12, 15, &[to(1, 16)]);
        mapping("e", Role::Plain, 5, 9, to(3, 8));
        over(3)
    )
}

/// Two nodes a level, 18 levels, each of which sends all of its addresses to both of the next: 1,048,500 live walks.
fn crowd_plan(rt: &impl Abort, alloc: Global) -> Plan {
    let mut plan = Plan::new(alloc);
    for number in 0..36u16 {
        let title = format!(in alloc; "n{number}").expect(rt, "memory");
        plan.node(title.as_str(), Role::Plain).expect(rt, "a plan");
        if number < 34 {
            let next = (number | 1).wrapping_add(1);
            let dests = [to(next, 0), to(next.wrapping_add(1), 0)];
            plan.maps(0, 0xff, &dests).expect(rt, "a plan");
        } else {
            plan.accepts(0, 0xff).expect(rt, "a plan");
        }
    }
    plan
}

/// Compares where the first node's addresses go in sixteen steps.
fn compare_sixteen(rt: &impl Abort, alloc: Global, net: &Net)
    requires { IsLegalNet net.now }
{
    let two = Stage::start(alloc, net).expect(rt, "memory");
    let two = two.doubled(alloc, net).expect(rt, "memory");
    let four = two.doubled(alloc, net).expect(rt, "memory");
    let eight = four.doubled(alloc, net).expect(rt, "memory");
    let stage = eight.doubled(alloc, net).expect(rt, "memory");
    assert!(rt; net.nodes() > 0);
    assert!(rt; stage.done(0).accepts.rows().is_empty());
    // The nodes of the last level but one are these.
    compare_one(rt, stage.go(0), &[first_end(32), first_end(33)]);
}

/// The end of a row that goes on from a node's first address.
fn first_end(node: u16) -> End {
    End { node, base: 0 }
}

/// Compares rows with the one that leads the addresses from 0 to 0xff to these ends.
fn compare_one(rt: &impl Abort, rows: &Rows, ends: &[End]) {
    let rows = rows.rows();
    assert!(rt; rows.len() == 1);
    let span = rows[0].span();
    assert!(rt; (span.lo, span.hi) == (0, 0xff));
    assert!(rt; rows[0].ends() == ends);
}

/// Goes on for sixteen steps past very many walks.
pub fn go_on_past_many_walks(rt: &impl Abort, alloc: Global, kinds: &Kinds)
    requires { AreKinds meaning kinds.now }
{
    let net = legal(rt, alloc, kinds, crowd_plan(rt, alloc));
    compare_sixteen(rt, alloc, &net);
}

/// Stages give chains of steps.
pub fn compare_chains(rt: &impl Abort, alloc: Global, kinds: &Kinds)
    requires { AreKinds meaning kinds.now }
{
    for staged in [Staged::Chain, Staged::Fork, Staged::Block] {
        compare_net(rt, alloc, kinds, staged);
    }
}
