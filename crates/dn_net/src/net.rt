//! The nodes of a net, with their full names and numbers.

ghost use Rattle.std.specs.Prelude.{◌≡◌, ◌≢◌, ℕ, [], ◌∷◌, ◌++◌, OnErr, IfOk, length, slice_get, map, option_map, position, false, Some, None, ◌<◌, IsTrue, Option, All};
ghost use Rattle.std.specs.List.{list_any, list_all};
ghost use Rattle.std.specs.List.Sorted.{IsNonDecreasingBy, IsPermutation, IsStableByKey};
ghost use Rattle.std.specs.Ordering.{nat_cmp};
ghost use Rattle.std.specs.Str.{bytes_eq};
ghost use Rattle.std.specs.Option.{option_copied, is_some};
ghost use Rattle.dn_net.specs.Terms.{IsNet, block_in_range, in_some_block, is_formed, node_limit, over_dests, over_is_based, places_from, unit_at};
ghost use Rattle.dn_net.specs.declared.node.NodeDecl.{NodeDecl};

use crate::accepts::AcceptList;
use crate::entries::{EntryList, Place};
use crate::node::{Block, Dest, Entry, NodeDecl, Role, Unit};
use dn_base::items::Items;
use indexmap::IndexMap;
use std::alloc::{AllocError, Global};
use std::marker::Model;
use std::rc::RcStr;

/// What a net keeps of a node beside its full name.
#[derive(Drop)]
pub struct Parts {
    role: Role,
    accepts: AcceptList,
    entries: EntryList,
    /// The node that serves the rest, as a destination at address 0.
    over: Option<Dest>,
    unit: Option<Unit>,
}

/// A decoding net: up to 1,024 nodes, numbered from 0 in the order in which they were added.
/// Contracts see the list of their declarations.
#[derive(Drop)]
pub struct Net {
    nodes: IndexMap<RcStr, Parts>,
}

impl Parts {
    /// These parts, with the orders in which addresses are sought.
    fn new(
        alloc: Global,
        role: Role,
        accepts: Items<Block>,
        entries: Items<Entry>,
        over: Option<u16>,
        unit: Option<Unit>,
    ) -> Result<Parts, AllocError>
        ensures role { IfOk result (λ p. p.role ≡ role) }
        ensures accepts { IfOk result (λ p. p.accepts ≡ accepts) }
        ensures entries { IfOk result (λ p. p.entries ≡ entries) }
        ensures over { IfOk result (λ p. option_map (λ d. d.node) p.over ≡ over) }
        ensures based { IfOk result (λ p. IsTrue (over_is_based p.over)) }
        ensures unit { IfOk result (λ p. p.unit ≡ unit) }
    {
        let accepts = AcceptList::new(alloc, accepts)?;
        let entries = EntryList::new(alloc, entries)?;
        Ok(Parts {
            role,
            accepts,
            entries,
            over: based_at_zero(over),
            unit,
        })
    }
}

impl Model for Net {
    ghost use Rattle.std.specs.Prelude.{List, ◌≢◌, ◌≤◌, length, map, IsTrue};
    ghost use Rattle.std.specs.List.{AllPairs, list_all};
    ghost use Rattle.dn_net.specs.Decode.{is_formed};
    ghost use Rattle.std.specs.Rc.{rc_str_bytes};
    ghost use Rattle.dn_net.specs.declared.node.NodeDecl.{NodeDecl};
    ghost use Rattle.dn_net.specs.Legal.{node_limit};
    ghost use Rattle.dn_net.specs.Parts.{declaration_by, over_is_based};

    ghost Value = { List NodeDecl };

    ghost view = { λ n. map (declaration_by (λ s. rc_str_bytes s)) n.nodes.entries };

    ghost invariant = { λ n. record { small : length n.nodes.entries ≤ node_limit; formed : IsTrue (list_all is_formed (map (declaration_by (λ s. rc_str_bytes s)) n.nodes.entries)); names_differ : AllPairs (λ (d e : NodeDecl). d.text ≢ e.text) (map (declaration_by (λ s. rc_str_bytes s)) n.nodes.entries); based : IsTrue (list_all (λ e. over_is_based e.1.over) n.nodes.entries) } };
}

impl Net {
    /// The empty net, which takes no memory.
    pub fn new(alloc: Global) -> Net
        ensures { result ≡ [] }
    {
        Net {
            nodes: IndexMap::new(alloc),
        }
    }

    /// What every net is, for a proof of its caller: at most 1,024 nodes, each of them formed, and no two with
    /// one full name. It does nothing.
    pub fn facts(&self)
        ensures { IsNet self.now }
    {
        let _nodes = &self.nodes;
    }

    /// Adds a node and answers its number. For want of memory the net is unchanged.
    pub fn add(&mut self, decl: NodeDecl) -> Result<u16, AllocError>
        requires room { length self.old < node_limit }
        requires formed { IsTrue (is_formed decl) }
        requires new_name { list_any (λ d. bytes_eq decl.text d.text) self.old ≡ false }
        ensures ok { IfOk result (λ n. (n ≡ length self.old) × (self.new ≡ self.old ++ decl ∷ [])) }
        ensures err { OnErr result (self.new ≡ self.old) }
    {
        let number = self.nodes();
        let alloc = *self.nodes.allocator();
        let NodeDecl {
            text,
            role,
            accepts,
            entries,
            over,
            unit,
        } = decl;
        let parts = Parts::new(alloc, role, accepts, entries, over, unit)?;
        let _ = self.nodes.insert(text.into_shared(), parts)?;
        Ok(number)
    }

    /// How many nodes there are.
    pub fn nodes(&self) -> u16
        ensures { result ≡ length self.now }
    {
        self.nodes.len() as u16
    }

    /// The number of the node with this full name. `None` exactly where there is none.
    pub fn find(&self, text: &str) -> Option<u16>
        ensures { result ≡ position (λ d. bytes_eq text.now d.text) self.now }
    {
        match self.nodes.get_index_of(text) {
            Some(number) => Some(number as u16),
            None => None,
        }
    }

    /// The role of a node.
    pub fn role(&self, node: u16) -> Role
        requires { node < length self.now }
        ensures { option_map (λ d. d.role) (slice_get self.now node) ≡ Some result }
    {
        self.parts(node).role
    }

    /// The full name of a node.
    pub fn text(&self, node: u16) -> &str
        requires { node < length self.now }
        ensures { option_map (λ d. d.text) (slice_get self.now node) ≡ Some result.now }
    {
        match self.nodes.get_index(usize::from(node)) {
            Some((text, _)) => text.as_str(),
            None => unreachable!(),
        }
    }

    /// The accept blocks of a node.
    pub fn accepts(&self, node: u16) -> &[Block]
        requires { node < length self.now }
        ensures { option_map (λ d. d.accepts) (slice_get self.now node) ≡ Some result.now }
    {
        self.parts(node).accepts.as_slice()
    }

    /// The map entries of a node.
    pub fn entries(&self, node: u16) -> &[Entry]
        requires { node < length self.now }
        ensures { option_map (λ d. d.entries) (slice_get self.now node) ≡ Some result.now }
    {
        self.parts(node).entries.as_slice()
    }

    /// Blocks with the addresses of a node's accept blocks, by their first addresses.
    pub fn accept_rows(&self, node: u16) -> &[Block]
        requires { node < length self.now }
        ensures sorted { IsNonDecreasingBy (λ b. b.lo) result.now }
        ensures same { (d : NodeDecl) → slice_get self.now node ≡ Some d
            → (a : ℕ) → in_some_block a result.now ≡ in_some_block a d.accepts }
        ensures in_range { (d : NodeDecl) → slice_get self.now node ≡ Some d
            → IsTrue (list_all block_in_range d.accepts)
            → All (λ b. IsTrue (block_in_range b)) result.now }
    {
        self.parts(node).accepts.rows()
    }

    /// The map blocks of a node with the places of their entries, by their first addresses. Those with one first
    /// address stand in the order of the entries.
    pub fn entry_order(&self, node: u16) -> &[Place]
        requires { node < length self.now }
        ensures sorted { IsNonDecreasingBy (λ p. p.block.lo) result.now }
        ensures every { (d : NodeDecl) → slice_get self.now node ≡ Some d
            → IsPermutation (places_from 0 d.entries) result.now }
        ensures stable { (d : NodeDecl) → slice_get self.now node ≡ Some d
            → IsStableByKey (λ p. p.block.lo) nat_cmp (places_from 0 d.entries) result.now }
    {
        self.parts(node).entries.order()
    }

    /// The node that serves what a node neither accepts nor maps. `None` exactly where it has no `over`.
    pub fn over(&self, node: u16) -> Option<u16>
        requires { node < length self.now }
        ensures { option_map (λ d. d.over) (slice_get self.now node) ≡ Some result }
    {
        match self.parts(node).over {
            Some(dest) => Some(dest.node),
            None => None,
        }
    }

    /// The unit that a node is. `None` exactly where it is no unit.
    pub fn unit(&self, node: u16) -> Option<&Unit>
        requires { node < length self.now }
        ensures { option_map (λ d. d.unit) (slice_get self.now node) ≡ Some (option_copied result) }
    {
        self.parts(node).unit.as_ref()
    }

    /// Whether an accept block of a node has the address.
    pub(crate) fn is_accepting(&self, node: u16, addr: u64) -> bool
        requires { node < length self.now }
        ensures { option_map (λ d. in_some_block addr d.accepts) (slice_get self.now node)
            ≡ Some result }
    {
        self.parts(node).accepts.has(addr)
    }

    /// The map entries of a node, where an address is sought.
    pub(crate) fn entry_list(&self, node: u16) -> &EntryList
        requires { node < length self.now }
        ensures { option_map (λ d. d.entries) (slice_get self.now node) ≡ Some result.now }
    {
        &self.parts(node).entries
    }

    /// The destination of what a node neither accepts nor maps: none, or the node of its `over` at address 0.
    pub(crate) fn over_dests(&self, node: u16) -> &[Dest]
        requires { node < length self.now }
        ensures { option_map (λ d. over_dests d.over) (slice_get self.now node) ≡ Some result.now }
    {
        self.parts(node).over.as_slice()
    }

    /// Whether the node is a unit.
    pub fn is_unit(&self, node: u16) -> bool
        requires { node < length self.now }
        ensures unit { result ≡ is_some (unit_at self.now node) }
        ensures formed { IsTrue (list_all is_formed self.now) }
    {
        self.parts(node).unit.is_some()
    }

    fn parts(&self, node: u16) -> &Parts
        requires { node < length self.now }
        ensures role { option_map (λ d. d.role) (slice_get self.now node) ≡ Some result.now.role }
        ensures accepts { option_map (λ d. d.accepts) (slice_get self.now node)
            ≡ Some result.now.accepts }
        ensures entries { option_map (λ d. d.entries) (slice_get self.now node)
            ≡ Some result.now.entries }
        ensures over { option_map (λ d. d.over) (slice_get self.now node)
            ≡ Some (option_map (λ d. d.node) result.now.over) }
        ensures unit { option_map (λ d. d.unit) (slice_get self.now node) ≡ Some result.now.unit }
        ensures based { IsTrue (over_is_based result.now.over) }
        ensures formed { IsTrue (list_all is_formed self.now) }
    {
        match self.nodes.get_index(usize::from(node)) {
            Some((_, parts)) => parts,
            None => unreachable!(),
        }
    }
}

/// The node of an `over` as a destination.
fn based_at_zero(over: Option<u16>) -> Option<Dest>
    ensures node { option_map (λ d. d.node) result ≡ over }
    ensures based { IsTrue (over_is_based result) }
{
    match over {
        Some(node) => Some(Dest { node, addr: 0 }),
        None => None,
    }
}
