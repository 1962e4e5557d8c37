//! From drafts to the net: the nodes to which they refer get their numbers.

ghost use Rattle.std.specs.Prelude.{◌≡◌, ◌≤◌, true, false, map, length, IfOk, IsTrue};
ghost use Rattle.std.specs.List.{list_all};
ghost use Rattle.dn_net.specs.Terms.{is_closed, is_formed};
ghost use Rattle.dn_scope.specs.Terms.{Links, each, expand_fault_view, has_twice};
ghost use Rattle.dn_module.specs.Drafts.{names as names_in, node_number_of, dests_known, refers_to_known, dest_in, entry_in, unit_by_numbers, node_in, node_of};
ghost use Rattle.dn_scope.specs.Numbered.{is_known};
ghost use Rattle.dn_base.specs.Terms.{Answers};

use crate::draft::{Draft, DraftDest, DraftEntry, DraftUnit};
use dn_base::items::Items;
use dn_net::net::Net;
use dn_net::node::{Block, Dest, Entry, NodeDecl, Unit};
use dn_scope::fault::ExpandFault;
use dn_scope::names::NameTable;
use dn_scope::scoped::ScopedName;
use dn_scope::values::{Flaw, NameFault};
use std::alloc::{AllocError, Global};

/// The net of the drafts, or the first fault: a draft refers to a node that does not exist. The names are
/// those of the drafts.
pub fn linked_net(alloc: Global, names: &NameTable, drafts: &[Draft]) -> Result<Net, ExpandFault>
    requires few { length drafts.now ≤ 1024 }
    requires named { names.now ≡ names_in drafts.now }
    requires different { has_twice (names_in drafts.now) ≡ false }
    requires formed { list_all (λ d. is_formed (node_in names.now d)) drafts.now ≡ true }
    ensures made { Answers (λ x. x) expand_fault_view result (each (node_of names.now) drafts.now) }
    // Each node to which one refers is there.
    ensures closed { IfOk result (λ net. IsTrue (is_closed net)) }
    ensures count { IfOk result (λ net. length net ≡ length names.now) }
{
    let mut net = Net::new(alloc);
    for draft in drafts {
        let decl = node_of(alloc, names, draft)?;
        net.add(decl)?;
    }
    Ok(net)
}

/// The node of a draft, or the fault of its statement.
fn node_of(alloc: Global, names: &NameTable, draft: &Draft) -> Result<NodeDecl, ExpandFault>
    ensures made { Answers (λ x. x) expand_fault_view result (node_of names.now draft.now) }
    ensures node { IfOk result (λ n. n ≡ node_in names.now draft.now) }
    ensures known { IfOk result (λ _. refers_to_known names.now draft.now ≡ true) }
{
    match node_in(alloc, names, draft) {
        Ok(decl) => Ok(decl),
        Err(fault) => Err(fault.at(draft.line)),
    }
}

/// The node of a draft, with the nodes to which it refers by their numbers.
fn node_in(alloc: Global, names: &NameTable, draft: &Draft) -> Result<NodeDecl, NameFault>
    ensures node { IfOk result (λ n. n ≡ node_in names.now draft.now) }
    ensures links { Links result (refers_to_known names.now draft.now) }
{
    let over = match &draft.over {
        Some(name) => Some(number_of(alloc, names, name)?),
        None => None,
    };
    let unit = match &draft.unit {
        Some(unit) => Some(unit_in(alloc, names, unit)?),
        None => None,
    };
    Ok(NodeDecl {
        text: draft.name.share()?,
        role: draft.role,
        accepts: copy_blocks(alloc, draft.accepts.as_slice())?,
        entries: all_linked(alloc, names, draft.entries.as_slice())?,
        over,
        unit,
    })
}

/// The number of the node with this full name.
fn number_of(alloc: Global, names: &NameTable, name: &ScopedName) -> Result<u16, NameFault>
    ensures number { IfOk result (λ n. n ≡ node_number_of names.now name.now) }
    ensures links { Links result (is_known names.now name.now) }
{
    match name.whole() {
        Some(text) => number_by_text(names, text),
        None => {
            let text = name.to_text(alloc)?;
            number_by_text(names, text.as_str())
        }
    }
}

/// The number of the node with this text.
fn number_by_text(names: &NameTable, text: &str) -> Result<u16, NameFault>
    ensures number { IfOk result (λ n. n ≡ node_number_of names.now text.now) }
    ensures links { Links result (is_known names.now text.now) }
{
    match names.find(text) {
        Some(number) => Ok(number),
        None => Err(NameFault::Flawed(Flaw::Unknown)),
    }
}

/// What refers to nodes by their full names, and comes to refer to them by their numbers.
trait Named {
    ghost use Rattle.std.specs.Prelude.{ℕ, Bool, List, ◌≡◌, IfOk};
    ghost use Rattle.dn_scope.specs.Flaws.{Links};

    /// What it is with numbers.
    type Linked: Drop;

    /// It with the numbers of these names.
    ghost linked_by: { List (List ℕ) → Self → Self.Linked };
    /// Whether each node to which it refers is among these names.
    ghost known_by: { List (List ℕ) → Self → Bool };

    /// It with numbers.
    fn with_numbers(&self, alloc: Global, names: &NameTable) -> Result<Self::Linked, NameFault>
        ensures linked { IfOk result (λ l. l ≡ linked_by names.now self.now) }
        ensures links { Links result (known_by names.now self.now) };
}

/// Each of the parts, with numbers.
fn all_linked<P: Named>(
    alloc: Global,
    names: &NameTable,
    parts: &[P],
) -> Result<Items<P::Linked>, NameFault>
    ensures linked { IfOk result (λ made. made ≡ map (P.linked_by names.now) parts.now) }
    ensures links { Links result (list_all (P.known_by names.now) parts.now) }
{
    let mut made = Items::from_vec(Vec::with_capacity(alloc, parts.len())?);
    for part in parts {
        made.push(part.with_numbers(alloc, names)?)?;
    }
    Ok(made)
}

impl Named for DraftDest {
    type Linked = Dest;

    ghost linked_by = { λ known d. dest_in known d };

    ghost known_by = { λ known d. is_known known d.to };

    fn with_numbers(&self, alloc: Global, names: &NameTable) -> Result<Dest, NameFault> {
        let node = number_of(alloc, names, &self.to)?;
        Ok(Dest {
            node,
            addr: self.addr,
        })
    }
}

impl Named for DraftEntry {
    type Linked = Entry;

    ghost linked_by = { λ known e. entry_in known e };

    ghost known_by = { λ known e. dests_known known e.dests };

    fn with_numbers(&self, alloc: Global, names: &NameTable) -> Result<Entry, NameFault> {
        Ok(Entry {
            block: self.block,
            dests: all_linked(alloc, names, self.dests.as_slice())?,
        })
    }
}

impl Named for ScopedName {
    type Linked = u16;

    ghost linked_by = { λ known text. node_number_of known text };

    ghost known_by = { λ known text. is_known known text };

    fn with_numbers(&self, alloc: Global, names: &NameTable) -> Result<u16, NameFault> {
        number_of(alloc, names, self)
    }
}

/// The unit, with its ports by their numbers.
fn unit_in(alloc: Global, names: &NameTable, unit: &DraftUnit) -> Result<Unit, NameFault>
    ensures unit { IfOk result (λ u. u ≡ unit_by_numbers names.now unit.now) }
    ensures links { Links result (list_all (is_known names.now) unit.now.ports) }
{
    Ok(Unit {
        kind: unit.kind,
        page: unit.page,
        slots: unit.slots,
        reach: unit.reach,
        ports: all_linked(alloc, names, unit.ports.as_slice())?,
    })
}

/// A copy of the blocks.
fn copy_blocks(alloc: Global, blocks: &[Block]) -> Result<Items<Block>, AllocError>
    ensures { IfOk result (λ made. made ≡ blocks.now) }
{
    Ok(Items::from_vec(blocks.to_vec(alloc)?))
}
