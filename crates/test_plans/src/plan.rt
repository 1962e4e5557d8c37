//! Plans of nets.

ghost use Rattle.std.specs.Prelude.{◌≡◌, ◌<◌, ◌&&◌, [], nat_lt, None, IfOk, IsTrue};
ghost use Rattle.std.specs.List.{list_all};
ghost use Rattle.std.specs.Option.{option_copied};
ghost use Rattle.dn_net.specs.Terms.{is_bare, is_closed, is_formed, over_within, ports_within, refers_within};
ghost use Rattle.dn_kind.specs.Terms.{AreKinds, IsLegalWith, has_kind, kinds_of};

use crate::PAGES;
use crate::unmade::Unmade;
use dn_base::items::Items;
use dn_base::text::Text;
use dn_kind::kinds::Kinds;
use dn_kind::units::check_units;
use dn_net::net::Net;
use dn_net::node::{Block, Dest, Entry, NodeDecl, Role, Unit};
use dn_walk::walks::walks;
use std::alloc::Global;

/// The nodes of a net in the making, each with the parts that were given to it so far.
#[derive(Drop)]
pub struct Plan {
    nodes: Vec<NodeDecl>,
}

impl Plan {
    /// A plan of no node. It takes no memory.
    pub fn new(alloc: Global) -> Plan {
        Plan {
            nodes: Vec::new(alloc),
        }
    }

    /// A plan of a memory of 1 GiB, node 0, a serial port, node 1, a bus that leads to both, node 2, and a
    /// core on the bus, node 3.
    pub fn bus(alloc: Global) -> Result<Plan, Unmade> {
        let mut plan = Plan::new(alloc);
        plan.accepting("dram", Role::Plain, 0, 0x3fff_ffff)?;
        plan.accepting("uart", Role::Plain, 0, 0xfff)?;
        plan.mapping("bus", Role::Plain, 0x1000_0000, 0x1000_0fff, to(1, 0))?;
        plan.maps(0x8000_0000, 0xbfff_ffff, &[to(0, 0)])?;
        plan.node("core0", Role::Agent)?;
        plan.over(2)?;
        Ok(plan)
    }

    /// The bus, and behind it an agent `dma`, node 4, whose addresses go through a unit `smmu` of 16
    /// pages, node 5.
    pub fn pages(alloc: Global) -> Result<Plan, Unmade> {
        let mut plan = Plan::bus(alloc)?;
        plan.agent("dma", 0xffff, to(5, 0))?;
        plan.unit("smmu", PAGES, 12, 16, 32, &[2])?;
        Ok(plan)
    }

    /// Begins a node without parts, whose number is that of the nodes before it.
    pub fn node(&mut self, title: &str, role: Role) -> Result<(), Unmade> {
        let alloc = *self.nodes.allocator();
        self.begin(title, role, None, alloc)
    }

    /// Begins a node that accepts the addresses from `lo` to `hi`.
    pub fn accepting(&mut self, title: &str, role: Role, lo: u64, hi: u64) -> Result<(), Unmade> {
        self.node(title, role)?;
        self.accepts(lo, hi)
    }

    /// Begins a node that sends the addresses from `lo` to `hi` to a destination.
    pub fn mapping(
        &mut self,
        title: &str,
        role: Role,
        lo: u64,
        hi: u64,
        dest: Dest,
    ) -> Result<(), Unmade> {
        self.node(title, role)?;
        self.maps(lo, hi, &[dest])
    }

    /// Begins an agent that sends the addresses up to `hi` to a destination.
    pub fn agent(&mut self, title: &str, hi: u64, dest: Dest) -> Result<(), Unmade> {
        self.mapping(title, Role::Agent, 0, hi, dest)
    }

    /// Begins a node that is a unit: its kind by its number, the exponent of its page, its slots, the
    /// exponent of its reach, and the nodes that are its ports.
    pub fn unit(
        &mut self,
        title: &str,
        kind: u8,
        page: u8,
        slots: u32,
        reach: u8,
        ports: &[u16],
    ) -> Result<(), Unmade> {
        let alloc = *self.nodes.allocator();
        let unit = Unit {
            kind,
            page,
            slots,
            reach,
            ports: Items::from_vec(ports.to_vec(alloc)?),
        };
        self.begin(title, Role::Unit, Some(unit), alloc)
    }

    /// Begins a node that may be a unit.
    fn begin(
        &mut self,
        title: &str,
        role: Role,
        unit: Option<Unit>,
        alloc: Global,
    ) -> Result<(), Unmade> {
        let node = bare_node(alloc, Text::of(alloc, title)?, role, unit);
        self.nodes.push(node)?;
        Ok(())
    }

    /// The last node accepts the addresses from `lo` to `hi`.
    pub fn accepts(&mut self, lo: u64, hi: u64) -> Result<(), Unmade> {
        match self.nodes.last_mut() {
            Some(node) => Ok(node.accepts.push(Block { lo, hi })?),
            None => Err(Unmade::Nowhere),
        }
    }

    /// The last node sends the addresses from `lo` to `hi` to these destinations.
    pub fn maps(&mut self, lo: u64, hi: u64, dests: &[Dest]) -> Result<(), Unmade> {
        let alloc = *self.nodes.allocator();
        let entry = Entry {
            block: Block { lo, hi },
            dests: Items::from_vec(dests.to_vec(alloc)?),
        };
        match self.nodes.last_mut() {
            Some(node) => Ok(node.entries.push(entry)?),
            None => Err(Unmade::Nowhere),
        }
    }

    /// The last node sends what it neither accepts nor maps to a node.
    pub fn over(&mut self, to: u16) -> Result<(), Unmade> {
        match self.nodes.last_mut() {
            Some(node) => {
                node.over = Some(to);
                Ok(())
            }
            None => Err(Unmade::Nowhere),
        }
    }

    /// The net of the nodes, where it keeps all rules.
    pub fn net(self, alloc: Global, kinds: &Kinds) -> Result<Net, Unmade>
        requires { AreKinds meaning kinds.now }
        ensures { IfOk result (IsLegalWith (kinds_of meaning kinds.now)) }
    {
        let net = closed_net(alloc, self.nodes, kinds.len())?;
        net.check_nodes(alloc)?;
        check_units(&net, kinds)?;
        let _walks = walks(alloc, &net)?;
        Ok(net)
    }
}

/// A destination.
pub fn to(node: u16, addr: u64) -> Dest {
    Dest { node, addr }
}

/// A node without parts, which may be a unit.
pub fn bare_node(alloc: Global, text: Text, role: Role, unit: Option<Unit>) -> NodeDecl
    ensures { result ≡ record {
      text = text;
      role = role;
      accepts = [];
      entries = [];
      over = None;
      unit = unit;
    } }
{
    NodeDecl {
        text,
        role,
        accepts: Items::new(alloc),
        entries: Items::new(alloc),
        over: None,
        unit,
    }
}

/// The net of declarations that refer to one another alone, with kinds among so many.
fn closed_net(alloc: Global, nodes: Vec<NodeDecl>, kinds: usize) -> Result<Net, Unmade>
    ensures closed { IfOk result (λ net. IsTrue (is_closed net)) }
    ensures known { IfOk result (λ net. IsTrue (list_all (λ n. has_kind kinds n.unit) net)) }
{
    let count = nodes.len();
    let mut net = Net::new(alloc);
    for decl in nodes {
        add(&mut net, count, kinds, decl)?;
    }
    if usize::from(net.nodes()) != count {
        return Err(Unmade::Unformed);
    }
    Ok(net)
}

/// Adds a node that refers to so many nodes alone, with a kind among so many.
fn add(net: &mut Net, count: usize, kinds: usize, decl: NodeDecl) -> Result<(), Unmade>
    requires closed { IsTrue (list_all (refers_within count) net.old) }
    requires known { IsTrue (list_all (λ n. has_kind kinds n.unit) net.old) }
    ensures closed { IsTrue (list_all (refers_within count) net.new) }
    ensures known { IsTrue (list_all (λ n. has_kind kinds n.unit) net.new) }
{
    if net.find(decl.text.as_str()).is_some() || net.nodes() >= 1024 {
        return Err(Unmade::Unformed);
    }
    if !refers_within(count, &decl) || !has_kind(kinds, decl.unit.as_ref()) || !is_formed(&decl) {
        return Err(Unmade::Unformed);
    }
    net.add(decl)?;
    Ok(())
}

/// Whether a declaration refers to so many nodes alone.
fn refers_within(count: usize, decl: &NodeDecl) -> bool
    ensures { result ≡ refers_within count decl.now }
{
    are_entries_within(count, decl.entries.as_slice())
        && is_over_within(count, decl.over)
        && are_ports_within(count, decl.unit.as_ref())
}

/// Whether entries send to so many nodes alone.
fn are_entries_within(count: usize, entries: &[Entry]) -> bool
    ensures { result ≡ list_all (λ e. list_all (λ d. nat_lt d.node count) e.dests) entries.now }
{
    for entry in entries {
        if !are_dests_within(count, entry.dests.as_slice()) {
            return false;
        }
    }
    true
}

/// Whether destinations are in so many nodes alone.
fn are_dests_within(count: usize, dests: &[Dest]) -> bool
    ensures { result ≡ list_all (λ d. nat_lt d.node count) dests.now }
{
    for dest in dests {
        if usize::from(dest.node) >= count {
            return false;
        }
    }
    true
}

/// Whether the node of an `over` is one of so many.
fn is_over_within(count: usize, over: Option<u16>) -> bool
    ensures { result ≡ over_within count over }
{
    match over {
        Some(node) => usize::from(node) < count,
        None => true,
    }
}

/// Whether the ports of a unit are among so many nodes.
fn are_ports_within(count: usize, unit: Option<&Unit>) -> bool
    ensures { result ≡ ports_within count (option_copied unit.entry) }
{
    match unit {
        Some(unit) => are_within(count, unit.ports.as_slice()),
        None => true,
    }
}

/// Whether nodes are among so many.
fn are_within(count: usize, nodes: &[u16]) -> bool
    ensures { result ≡ list_all (λ p. nat_lt p count) nodes.now }
{
    for node in nodes {
        if usize::from(*node) >= count {
            return false;
        }
    }
    true
}

/// Whether the kind of a unit is one of so many.
fn has_kind(count: usize, unit: Option<&Unit>) -> bool
    ensures { result ≡ has_kind count (option_copied unit.entry) }
{
    match unit {
        Some(unit) => usize::from(unit.kind) < count,
        None => true,
    }
}

/// Whether a declaration has a unit exactly where its role is that of one, and then no other part.
fn is_formed(decl: &NodeDecl) -> bool
    ensures { result ≡ is_formed decl.now }
{
    match &decl.unit {
        Some(_) => decl.role == Role::Unit && is_bare(decl),
        None => decl.role != Role::Unit,
    }
}

/// Whether a declaration has no part beside a unit.
fn is_bare(decl: &NodeDecl) -> bool
    ensures { result ≡ is_bare decl.now }
{
    decl.accepts.as_slice().is_empty() && decl.entries.as_slice().is_empty() && decl.over.is_none()
}
