//! The nodes that are made, within the limits of a net.

ghost use Rattle.std.specs.Prelude.{◌≡◌, [], ◌∷◌, ◌++◌, ◌+◌, ◌<◌, ◌≤◌, length, false, OnOk, OnErr, IfSome, IfNone, None, Some, Err, option_map};
ghost use Rattle.dn_net.specs.Terms.{is_agent, is_unit};
ghost use Rattle.dn_scope.specs.Terms.{expand_fault_view, has_twice, is_known};
ghost use Rattle.dn_module.specs.Terms.{limit_by, limit_passed, names, parts_of_draft, with_draft};
ghost use Rattle.dn_base.specs.Terms.{Answers};

use crate::draft::Draft;
use dn_net::node::Role;
use dn_scope::fault::ExpandFault;
use dn_scope::names::NameTable;
use std::alloc::{AllocError, Global};
use std::marker::Model;

/// The most nodes of a net.
const MAX_NODES: usize = 1_024;

/// The most agents of a net.
const MAX_AGENTS: usize = 64;

/// The most units of a net.
const MAX_UNITS: usize = 64;

/// The most parts of a net: an accept block, a map entry and an `over` are one each.
const MAX_PARTS: usize = 16_384;

/// The nodes that are made, in order: at most 1,024 with different full names, of which 64 are agents and 64
/// are units, with 16,384 parts in all. Contracts see the list of them.
#[derive(Drop)]
pub struct Drafts {
    drafts: Vec<Draft>,
    /// Their full names.
    known: NameTable,
    agents: usize,
    units: usize,
    parts: usize,
}

impl Model for Drafts {
    ghost use Rattle.std.specs.Prelude.{List, ◌≡◌, ◌≤◌, length, false};
    ghost use Rattle.dn_module.specs.declared.draft.Draft.{Draft};
    ghost use Rattle.dn_module.specs.Drafts.{names, agents_among, units_among, all_parts};
    ghost use Rattle.dn_scope.specs.Uses.{has_twice};

    ghost Value = { List Draft };

    ghost view = { λ s. s.drafts.items };

    ghost invariant = { λ s. record {
      names_are : s.known ≡ names s.drafts.items;
      agents_are : s.agents ≡ agents_among s.drafts.items;
      units_are : s.units ≡ units_among s.drafts.items;
      parts_are : s.parts ≡ all_parts s.drafts.items;
      few : length s.drafts.items ≤ 1024;
      few_agents : s.agents ≤ 64;
      few_units : s.units ≤ 64;
      few_parts : s.parts ≤ 16384;
      different : has_twice (names s.drafts.items) ≡ false;
    } };
}

impl Drafts {
    /// No nodes. It takes no memory.
    pub fn new(alloc: Global) -> Drafts
        ensures { result ≡ [] }
    {
        Drafts {
            drafts: Vec::new(alloc),
            known: NameTable::new(alloc),
            agents: 0,
            units: 0,
            parts: 0,
        }
    }

    /// The nodes, in order.
    pub fn as_slice(&self) -> &[Draft]
        ensures nodes { result.now ≡ self.now }
        ensures few { length self.now ≤ 1024 }
        ensures different { has_twice (names self.now) ≡ false }
    {
        self.drafts.as_slice()
    }

    /// The full names of the nodes, in order.
    pub fn names(&self) -> &NameTable
        ensures { result.now ≡ names self.now }
    {
        &self.known
    }

    /// The full names of the nodes alone, in order.
    pub fn into_names(self) -> NameTable
        ensures { result ≡ names self }
    {
        self.known
    }

    /// Adds a node: its full name was not there before, and no limit is passed. The limits are those on
    /// nodes, on agents, on units and on parts, in this order. After a fault the nodes are unchanged.
    pub fn add(&mut self, alloc: Global, draft: Draft) -> Result<(), ExpandFault>
        ensures added { Answers (λ _. self.new) expand_fault_view result
            (with_draft self.old draft) }
        ensures err { OnErr result (self.new ≡ self.old) }
    {
        if let Some(fault) = self.fault(&draft) {
            return Err(fault);
        }
        let agents = self.agents + usize::from(is_agent(draft.role));
        let units = self.units + usize::from(is_unit(draft.role));
        let parts = self.parts + parts_of(&draft);
        put(&mut self.drafts, &mut self.known, draft)?;
        self.agents = agents;
        self.units = units;
        self.parts = parts;
        Ok(())
    }

    /// Why a node cannot be added. `None` exactly where it can.
    fn fault(&self, draft: &Draft) -> Option<ExpandFault>
        ensures fault { IfSome result (λ e. option_map (λ f. Err f) (expand_fault_view e) ≡ Some
            (with_draft self.now draft.now)) }
        ensures new_name { IfNone result (is_known (names self.now) draft.now.name ≡ false) }
        ensures within { IfNone result (limit_passed self.now draft.now ≡ None) }
    {
        let line = draft.line;
        if self.known.find(draft.name.as_str()).is_some() {
            return Some(ExpandFault::Duplicate { line });
        }
        let agents = self.agents + usize::from(is_agent(draft.role));
        let units = self.units + usize::from(is_unit(draft.role));
        let parts = parts_of(draft);
        match limit_by(self.drafts.len(), agents, units, self.parts, parts) {
            Some(limit) => Some(ExpandFault::TooMany { line, limit }),
            None => None,
        }
    }
}

/// Puts a node and its full name last. For want of memory both lists are unchanged.
fn put(drafts: &mut Vec<Draft>, known: &mut NameTable, draft: Draft) -> Result<(), AllocError>
    requires room { length known.old < 1024 }
    requires new_name { is_known known.old draft.name ≡ false }
    ensures drafts { OnOk result (drafts.new.items ≡ drafts.old.items ++ draft ∷ []) }
    ensures known { OnOk result (known.new ≡ known.old ++ draft.name ∷ []) }
    ensures drafts_err { OnErr result (drafts.new.items ≡ drafts.old.items) }
    ensures known_err { OnErr result (known.new ≡ known.old) }
{
    drafts.reserve(1)?;
    let _ = known.add(draft.name.share()?)?;
    drafts.push_reserved(draft);
    Ok(())
}

/// The limit that one node more passes, where there are so many nodes and parts before it, so many agents
/// and units with it, and so many parts in it.
fn limit_by(nodes: usize, agents: usize, units: usize, parts: usize, more: usize) -> Option<u32>
    requires few_parts { parts ≤ 16384 }
    ensures { result ≡ limit_by nodes agents units parts more }
{
    if nodes >= MAX_NODES {
        return Some(1_024);
    }
    if agents > MAX_AGENTS {
        return Some(64);
    }
    if units > MAX_UNITS {
        return Some(64);
    }
    if more > MAX_PARTS - parts {
        return Some(16_384);
    }
    None
}

fn is_agent(role: Role) -> bool
    ensures { result ≡ is_agent role }
{
    match role {
        Role::Agent => true,
        _ => false,
    }
}

fn is_unit(role: Role) -> bool
    ensures { result ≡ is_unit role }
{
    match role {
        Role::Unit => true,
        _ => false,
    }
}

/// How many parts a node has.
fn parts_of(draft: &Draft) -> usize
    ensures { result ≡ parts_of_draft draft.now }
{
    let over = usize::from(draft.over.is_some());
    draft.accepts.as_slice().len() + (draft.entries.as_slice().len() + over)
}
