//! Which agents see names of which units.

ghost use Rattle.std.specs.Prelude.{◌≡◌, ℕ, ◌+◌, ◌<◌, ◌&&◌, ◌||◌, [], false, nat_eq, nat_lt, List, length, slice_index_or, IfOk, OnOk, IsTrue};
ghost use Rattle.std.specs.List.{list_all, list_any};
ghost use Rattle.dn_net.specs.Terms.{IsLegalNet, unit_at};
ghost use Rattle.dn_flat.specs.Terms.{AreListed, AreSeers, IsAgentListed, has_stops, leads_to_units, is_listed_for};

use crate::crowds::is_agent;
use crate::shared::Shared;
use dn_base::OutOfMemory;
use dn_base::items::Items;
use dn_net::net::Net;
use std::alloc::Global;

/// Which agents see names of which units. An agent is in one of the lists alone: in the list of each unit of which it
/// sees names, or, where one of these leads on to units, in that of the agents that see names of such a unit.
#[derive(Drop)]
pub struct Seers {
    /// For each node whether it is a unit of which a port's node leads to units.
    pub(crate) leads: Items<bool>,
    /// For each node, if it is a unit, the agents that see names of it.
    pub(crate) by_unit: Items<Items<u16>>,
    /// The agents that see names of a unit that leads on.
    pub(crate) onward: Items<u16>,
}

impl Seers {
    /// Whether a node is a unit of which a port's node leads to units.
    pub fn leads_on(&self, node: u16) -> bool
        ensures { result ≡ slice_index_or self.now.leads node false }
    {
        does_lead(self.leads.as_slice(), node)
    }

    /// The agents in the list of a unit.
    pub fn of(&self, unit: u16) -> &[u16]
        ensures { result.now ≡ slice_index_or self.now.by_unit unit [] }
    {
        match self.by_unit.as_slice().get(usize::from(unit)) {
            Some(agents) => agents.as_slice(),
            None => &[],
        }
    }

    /// The agents that see names of a unit that leads on.
    pub fn onward(&self) -> &[u16]
        ensures { result.now ≡ self.now.onward }
    {
        self.onward.as_slice()
    }
}

/// The agents of a net that see names of its units, by what the nodes reach. Time of the units that each agent sees.
pub(crate) fn seers_of(alloc: Global, net: &Net, nodes: &Shared) -> Result<Seers, OutOfMemory>
    requires legal { IsLegalNet net.now }
    requires nodes { length nodes.now ≡ length net.now }
    ensures { IfOk result (λ seers. AreSeers net.now nodes.now seers) }
{
    let leads = leading(alloc, net, nodes)?;
    let mut by_unit = no_lists(alloc, net)?;
    let mut onward = Vec::new(alloc);
    for node in 0..net.nodes() {
        list_node(net, nodes, node, &leads, &mut by_unit, &mut onward)?;
    }
    Ok(Seers {
        leads: Items::from_vec(leads),
        by_unit: Items::from_vec(by_unit),
        onward: Items::from_vec(onward),
    })
}

/// For each node whether it is a unit of which a port's node leads to units.
fn leading(alloc: Global, net: &Net, nodes: &Shared) -> Result<Vec<bool>, OutOfMemory>
    requires legal { IsLegalNet net.now }
    requires nodes { length nodes.now ≡ length net.now }
    ensures { IfOk result (λ leads. (n : ℕ) → slice_index_or leads.items n false
        ≡ leads_to_units nodes.now (unit_at net.now n)) }
{
    let mut leads = Vec::new(alloc);
    for node in 0..net.nodes() {
        leads.push(leads_to_units(net, nodes, node))?;
    }
    Ok(leads)
}

/// Whether a node is a unit of which a port's node leads to units.
fn leads_to_units(net: &Net, nodes: &Shared, node: u16) -> bool
    requires legal { IsLegalNet net.now }
    requires nodes { length nodes.now ≡ length net.now }
    requires there { node < length net.now }
    ensures { result ≡ leads_to_units nodes.now (unit_at net.now node) }
{
    match net.unit(node) {
        Some(unit) => some_have_stops(nodes, unit.ports.as_slice()),
        None => false,
    }
}

/// Whether one of the ports leads to units.
fn some_have_stops(nodes: &Shared, ports: &[u16]) -> bool
    requires { IsTrue (list_all (λ p. nat_lt p (length nodes.now)) ports.now) }
    ensures { result ≡ list_any (has_stops nodes.now) ports.now }
{
    for port in ports {
        if nodes.of(*port).has_stops() {
            return true;
        }
    }
    false
}

/// A list without agents for each node.
fn no_lists(alloc: Global, net: &Net) -> Result<Vec<Items<u16>>, OutOfMemory>
    ensures { IfOk result (λ lists. length lists.items ≡ length net.now) }
{
    let mut lists = Vec::new(alloc);
    for _ in 0..net.nodes() {
        lists.push(Items::new(alloc))?;
    }
    Ok(lists)
}

/// Lists a node, if it is an agent.
fn list_node(
    net: &Net,
    nodes: &Shared,
    node: u16,
    leads: &[bool],
    by_unit: &mut Vec<Items<u16>>,
    onward: &mut Vec<u16>,
) -> Result<(), OutOfMemory>
    requires there { node < length net.now }
    requires nodes { length nodes.now ≡ length net.now }
    requires listed { AreListed net.now nodes.now node leads.now by_unit.old.items
        onward.old.items }
    ensures { OnOk result (AreListed net.now nodes.now (node + 1) leads.now by_unit.new.items
        onward.new.items) }
{
    if !is_agent(net, node) {
        return Ok(());
    }
    let units = nodes.of(node).units.as_slice();
    list_agent(leads, by_unit, onward, node, units)
}

/// Lists an agent that sees names of these units.
fn list_agent(
    leads: &[bool],
    by_unit: &mut Vec<Items<u16>>,
    onward: &mut Vec<u16>,
    agent: u16,
    units: &[u16],
) -> Result<(), OutOfMemory>
    ensures size { OnOk result (length by_unit.new.items ≡ length by_unit.old.items) }
    ensures kept { OnOk result ((n : ℕ) (us : List ℕ) →
        IsAgentListed leads.now by_unit.old.items onward.old.items n us →
        IsAgentListed leads.now by_unit.new.items onward.new.items n us) }
    ensures listed { OnOk result
        (IsAgentListed leads.now by_unit.new.items onward.new.items agent units.now) }
{
    if some_lead(leads, units) {
        onward.push(agent)?;
        return Ok(());
    }
    list_for_units(by_unit, units, agent)
}

/// Whether one of the units leads on.
fn some_lead(leads: &[bool], units: &[u16]) -> bool
    ensures { result ≡ list_any (λ u. slice_index_or leads.now u false) units.now }
{
    units.iter().any(|unit| does_lead(leads, *unit))
}

/// Whether a node is a unit that leads on. One that is not there does not.
fn does_lead(leads: &[bool], node: u16) -> bool
    ensures { result ≡ slice_index_or leads.now node false }
{
    match leads.get(usize::from(node)) {
        Some(lead) => *lead,
        None => false,
    }
}

/// Puts an agent into the list of each of the units.
fn list_for_units(
    by_unit: &mut Vec<Items<u16>>,
    units: &[u16],
    agent: u16,
) -> Result<(), OutOfMemory>
    ensures size { OnOk result (length by_unit.new.items ≡ length by_unit.old.items) }
    ensures listed { OnOk result ((u n : ℕ) → u < length by_unit.old.items
        → is_listed_for by_unit.new.items u n ≡ (is_listed_for by_unit.old.items u n
        || list_any (λ unit. nat_eq unit u && nat_eq agent n) units.now)) }
{
    for unit in units {
        list_for_unit(by_unit, *unit, agent)?;
    }
    Ok(())
}

/// Puts an agent into the list of a unit, if it is there.
fn list_for_unit(by_unit: &mut Vec<Items<u16>>, unit: u16, agent: u16) -> Result<(), OutOfMemory>
    ensures size { OnOk result (length by_unit.new.items ≡ length by_unit.old.items) }
    ensures listed { OnOk result ((u n : ℕ) → u < length by_unit.old.items
        → is_listed_for by_unit.new.items u n
        ≡ (is_listed_for by_unit.old.items u n || (nat_eq unit u && nat_eq agent n))) }
{
    if usize::from(unit) >= by_unit.len() {
        return Ok(());
    }
    let agents = &mut by_unit[usize::from(unit)];
    agents.push(agent)?;
    Ok(())
}
