//! The words by which faults are named.

use dn_base::device::DeviceOrMemory;
use dn_base::items::Items;
use dn_book::book::RevokeFault;
use dn_gather::refusal::GatherRefusal;
use dn_grant::fault::GrantFault;
use dn_grant::refusal::GrantRefusal;
use dn_net::node::Name;
use dn_net::rules::NodeFault;
use dn_shape::fault::{AbsorbFault, SplitFault, Why};
use dn_vector::refusal::RouteRefusal;
use dn_walk::fault::WalkFault;
use std::alloc::AllocError;
use std::process::Abort;

/// Compares the words of faults.
fn compare(rt: &impl Abort, printed: Result<String, AllocError>, wanted: &str) {
    let printed = printed.expect(rt, "memory");
    assert!(rt; printed.as_str() == wanted, "{wanted}");
}

#[test]
fn names_each_refusal_of_a_grant(rt: HostRuntime) {
    use GrantRefusal::{BookFull, IdUsed, NoAgent, NoTarget};
    let first = GrantRefusal::NotAccepted { first: 0x1000 };
    let printed = format!(in rt.alloc(); "{IdUsed} {NoAgent} {NoTarget} {BookFull} {first}");
    compare(
        &rt,
        printed,
        "IdUsed NoAgent NoTarget BookFull NotAccepted 0x1000",
    );
}

#[test]
fn names_each_fault_of_a_grant(rt: HostRuntime) {
    let whole = GrantFault::Refused(GrantRefusal::NoPlacement);
    let pieces = GrantFault::Refused(GatherRefusal::NoPlacement);
    let (failed, short) = (
        GrantFault::<GrantRefusal>::Device,
        GrantFault::<GrantRefusal>::OutOfMemory,
    );
    let printed = format!(in rt.alloc(); "{whole} {pieces} {failed} {short}");
    compare(&rt, printed, "NoPlacement NoPlacement Device OutOfMemory");
}

#[test]
fn names_each_refusal_of_a_route(rt: HostRuntime) {
    use RouteRefusal::{BookFull, IdUsed, NoAgent, NoPlacement, NoTarget};
    let printed = format!(in rt.alloc(); "{IdUsed} {NoAgent} {NoTarget} {BookFull} {NoPlacement}");
    compare(&rt, printed, "IdUsed NoAgent NoTarget BookFull NoPlacement");
}

#[test]
fn names_each_fault_of_a_book(rt: HostRuntime) {
    use DeviceOrMemory::{Device, OutOfMemory};
    let (none, failed) = (RevokeFault::NoGrant, RevokeFault::Device);
    let printed = format!(in rt.alloc(); "{Device} {OutOfMemory} {none} {failed}");
    compare(&rt, printed, "Device OutOfMemory NoGrant Device");
}

#[test]
fn names_each_refusal_of_pieces(rt: HostRuntime) {
    use GatherRefusal::{BookFull, IdUsed, NoAgent, NoTarget, NotAccepted};
    let (used, none) = (IdUsed { piece: 1 }, NoTarget { piece: 2 });
    let (piece, first) = (7, 0x1000);
    let past = NotAccepted { piece, first };
    let printed = format!(in rt.alloc(); "{used} {NoAgent} {none} {BookFull} {past}");
    compare(
        &rt,
        printed,
        "IdUsed 1 NoAgent NoTarget 2 BookFull NotAccepted 7 0x1000",
    );
}

#[test]
fn names_each_rule_on_nodes(rt: HostRuntime) {
    use NodeFault::{OutOfMemory, Overlap, Range, Repeat, VectorSpace};
    let node = 3;
    let (range, overlap) = (Range { node }, Overlap { node, addr: 1 });
    let (repeat, space) = (Repeat { node }, VectorSpace { node });
    let printed = format!(in rt.alloc(); "{range} {overlap} {repeat} {space} {OutOfMemory}");
    compare(&rt, printed, "Range Overlap Repeat VectorSpace OutOfMemory");
}

#[test]
fn names_each_rule_on_walks(rt: HostRuntime) {
    use WalkFault::{Chain, Deep, Fork, Loop};
    let alloc = rt.alloc();
    let (cycle, path, units) = (Items::new(alloc), Items::new(alloc), Items::new(alloc));
    let (ring, deep, chain) = (Loop { cycle }, Deep { path }, Chain { units });
    let name = Name { node: 0, addr: 0 };
    let fork = Fork { name, unit: 1 };
    let printed = format!(in alloc; "{ring} {deep} {fork} {chain}");
    compare(&rt, printed, "Loop Deep Fork Chain");
    let (wide, memory) = (WalkFault::Wide, WalkFault::OutOfMemory);
    let printed = format!(in alloc; "{wide} {memory}");
    compare(&rt, printed, "Wide OutOfMemory");
}

#[test]
fn names_each_fault_of_split_and_absorbed_nets(rt: HostRuntime) {
    let limit = 8;
    let (many, memory) = (SplitFault::TooMany { limit }, SplitFault::OutOfMemory);
    let split = format!(in rt.alloc(); "{many} {memory}");
    compare(&rt, split, "TooMany OutOfMemory");
    let agent = AbsorbFault::NotAbsorbable { why: Why::Agent };
    let (many, memory) = (AbsorbFault::TooMany { limit }, AbsorbFault::OutOfMemory);
    let absorbed = format!(in rt.alloc(); "{agent} {many} {memory}");
    compare(&rt, absorbed, "NotAbsorbable TooMany OutOfMemory");
}
