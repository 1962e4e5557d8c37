//! The units in which a hop may stand, by its place from the agent's end: what is left out of the
//! search at once.

ghost use Rattle.std.specs.Prelude.{◌≡◌, ◌<◌, ◌++◌, [], ◌∷◌, ℕ, OnOk, is_some, true, false, Some, IfOk, length, slice_get};
ghost use Rattle.dn_net.specs.declared.node.Unit.{Unit as UnitPart};
ghost use Rattle.dn_net.specs.Terms.{unit_at};
ghost use Rattle.dn_view.specs.Terms.{IsSystem};
ghost use Rattle.dn_place.specs.Terms.{AreUnitsFrom, Keeps, MarkedBefore, Marks, MarksAfter, MarksAll, MarksListed, is_marked};

use crate::OutOfMemory;
use crate::unit::unit_in;
use dn_net::net::Net;
use dn_view::system::System;
use std::alloc::Global;

/// The numbers of the units, ascending.
pub(crate) fn units_of(alloc: Global, net: &Net) -> Result<Vec<u16>, OutOfMemory>
    ensures { IfOk result (λ units. AreUnitsFrom net.now 0 units.items) }
{
    let mut units = Vec::with_capacity(alloc, usize::from(net.nodes()))?;
    for node in 0..net.nodes() {
        push_unit(net, node, &mut units)?;
    }
    Ok(units)
}

/// Adds the number of a node, if it is a unit.
fn push_unit(net: &Net, node: u16, units: &mut Vec<u16>) -> Result<(), OutOfMemory>
    requires there { node < length net.now }
    ensures unit { OnOk result (is_some (unit_at net.now node) ≡ true →
        units.new.items ≡ units.old.items ++ node ∷ []) }
    ensures none { OnOk result (is_some (unit_at net.now node) ≡ false →
        units.new.items ≡ units.old.items) }
{
    match net.unit(node) {
        Some(_) => {
            units.push(node)?;
            Ok(())
        }
        None => Ok(()),
    }
}

/// The units in which the first hop can stand: those of the agent's stops.
pub(crate) fn from_agent(
    alloc: Global,
    system: System,
    agent: u16,
) -> Result<Vec<bool>, OutOfMemory>
    requires system { IsSystem meaning system }
    requires there { agent < length system.on.net.now }
    ensures { IfOk result (λ marks. MarksAll system.entry.on.net.now agent marks.items) }
{
    let mut marks = vec![in alloc; false; usize::from(system.on.net.nodes())]?;
    mark_node(system, agent, &mut marks);
    Ok(marks)
}

/// Whether a node has a mark.
pub(crate) fn has_mark(marks: &[bool], node: u16) -> bool
    ensures { result ≡ is_marked marks.now node }
{
    match marks.get(usize::from(node)) {
        Some(mark) => *mark,
        None => false,
    }
}

/// The units that a port of a marked unit leads to, where the units of the net are listed.
pub(crate) fn after(
    alloc: Global,
    system: System,
    units: &[u16],
    from: &[bool],
) -> Result<Vec<bool>, OutOfMemory>
    requires system { IsSystem meaning system }
    requires units { AreUnitsFrom system.on.net.now 0 units.now }
    ensures { IfOk result (λ marks. MarksAfter system.entry.on.net.now from.now marks.items) }
{
    let mut marks = vec![in alloc; false; usize::from(system.on.net.nodes())]?;
    mark_after(system, units, from, &mut marks);
    Ok(marks)
}

/// Marks what the ports of marked units of a list lead to.
fn mark_after(system: System, units: &[u16], from: &[bool], marks: &mut [bool])
    requires system { IsSystem meaning system }
    ensures { MarkedBefore system.entry.on.net.now from.now units.now (length units.now) marks.new }
{
    for unit in units {
        mark_after_unit(system, from, *unit, marks);
    }
}

/// Marks what the ports of a unit lead to, if it is marked.
fn mark_after_unit(system: System, from: &[bool], unit: u16, marks: &mut [bool])
    requires system { IsSystem meaning system }
    ensures keeps { Keeps marks.old marks.new }
    ensures marks { is_marked from.now unit ≡ true → (k n : ℕ) (u : UnitPart) →
        unit_at system.entry.on.net.now unit ≡ Some u → slice_get u.ports k ≡ Some n →
        Marks system.entry.on.net.now n marks.new }
{
    if has_mark(from, unit) {
        mark_unit(system, unit, marks);
    }
}

/// Marks what the ports of a unit lead to.
fn mark_unit(system: System, unit: u16, marks: &mut [bool])
    requires system { IsSystem meaning system }
    ensures keeps { Keeps marks.old marks.new }
    ensures marks { (k n : ℕ) (u : UnitPart) → unit_at system.entry.on.net.now unit ≡ Some u →
        slice_get u.ports k ≡ Some n → Marks system.entry.on.net.now n marks.new }
{
    let Some(translator) = unit_in(system, unit) else {
        return;
    };
    for port in translator.ports.as_slice() {
        mark_node(system, *port, marks);
    }
}

/// Marks what a node leads to.
fn mark_node(system: System, node: u16, marks: &mut [bool])
    requires system { IsSystem meaning system }
    ensures keeps { Keeps marks.old marks.new }
    ensures marks { node < length system.entry.on.net.now →
        Marks system.entry.on.net.now node marks.new }
{
    if node < system.on.net.nodes() {
        mark_all(system.flats.of(node).units.as_slice(), marks);
    }
}

/// Marks the nodes of a list.
fn mark_all(nodes: &[u16], marks: &mut [bool])
    ensures keeps { Keeps marks.old marks.new }
    ensures marks { MarksListed nodes.now marks.new }
{
    for node in nodes {
        mark(marks, *node);
    }
}

/// Marks a node, if it is one.
fn mark(marks: &mut [bool], node: u16)
    ensures keeps { Keeps marks.old marks.new }
    ensures marked { node < length marks.new → is_marked marks.new node ≡ true }
{
    if usize::from(node) < marks.len() {
        marks[usize::from(node)] = true;
    }
}
