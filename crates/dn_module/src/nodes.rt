//! The nodes that declarations make.

ghost use Rattle.std.specs.Prelude.{◌≡◌, ◌≤◌, List, length, map, option_map};
ghost use Rattle.dn_parse.specs.Tree.{Block as BlockOf, Entry as EntryOf, Part};
ghost use Rattle.dn_parse.specs.Terms.{block_view, declaration_view, dest_view, entry_view, maybe_name_view, name_view, role_view, spec_view};
ghost use Rattle.dn_kind.specs.Terms.{kind_place, kinds_of};
ghost use Rattle.dn_module.specs.Terms.{bare_draft, block_of, dest_of, draft_of, entry_of, known_kind, node_draft, role_of};
ghost use Rattle.dn_scope.specs.Terms.{each, flaw_fault_view, full_name, full_name_or_none, in_block, in_declaration, in_declared, in_dest, in_entry, in_reference, in_spec, name_fault_view};
ghost use Rattle.dn_base.specs.Terms.{Answers};

use crate::draft::{Draft, DraftDest, DraftEntry, DraftUnit};
use dn_base::items::Items;
use dn_base::text::Text;
use dn_kind::kinds::Kinds;
use dn_net::node::{Block, Role};
use dn_parse::syntax::{BlockExpr, Decl, DeclRole, DestExpr, EntryExpr, NameExpr, Spec};
use dn_scope::recent::Recent;
use dn_scope::scope::Scope;
use dn_scope::scoped::ScopedName;
use dn_scope::values::{Flaw, NameFault, reference, shared_name, value, value_or, value_within};
use std::alloc::Global;

/// The node that a declaration makes, with this line.
pub fn draft_of(
    kinds: &Kinds,
    recent: &mut Recent,
    scope: &Scope,
    line: u32,
    decl: &Decl,
) -> Result<Draft, NameFault>
    requires few_kinds { length kinds.now.list.items ≤ 255 }
    ensures { Answers (λ x. x) name_fault_view result (draft_of
        (kinds_of meaning kinds.now) line (in_declaration scope.now (declaration_view decl.now))) }
{
    match decl {
        Decl::Node { role, name, spec } => node_draft(recent, scope, line, *role, name, spec),
        Decl::Unit(unit) => {
            let name = shared_name(recent.alloc, scope, unit.name.as_slice())?;
            let kind = kind_number(kinds, unit.kind)?;
            let page = value_within(scope, 255, &unit.page)? as u8;
            let slots = value_within(scope, 4_294_967_295, &unit.slots)? as u32;
            let reach = value_within(scope, 255, &unit.reach)? as u8;
            let ports = evaluate_all(recent, scope, unit.ports.as_slice())?;
            let parts = DraftUnit {
                kind,
                page,
                slots,
                reach,
                ports,
            };
            Ok(bare_draft(recent.alloc, line, Role::Unit, name, Some(parts)))
        }
    }
}

/// The number of the kind with this name.
fn kind_number(kinds: &Kinds, name: &str) -> Result<u8, Flaw>
    requires few_kinds { length kinds.now.list.items ≤ 255 }
    ensures { Answers (λ x. x) flaw_fault_view result
        (known_kind (kind_place (kinds_of meaning kinds.now) name.now)) }
{
    match kinds.find(name) {
        Some(number) => Ok(number as u8),
        None => Err(Flaw::Unknown),
    }
}

/// A node with its parts.
fn node_draft(
    recent: &mut Recent,
    scope: &Scope,
    line: u32,
    role: DeclRole,
    name: &NameExpr,
    spec: &Option<Box<Spec>>,
) -> Result<Draft, NameFault>
    ensures { Answers (λ x. x) name_fault_view result
        (node_draft line (role_view role) (in_declared scope.now (name_view name.now))
        (in_spec scope.now (spec_view spec.now))) }
{
    let name = shared_name(recent.alloc, scope, name.as_slice())?;
    let Some(spec) = spec else {
        return Ok(bare_draft(recent.alloc, line, role_of(role), name, None));
    };
    let accepts = evaluate_all(recent, scope, spec.accepts.as_slice())?;
    let entries = evaluate_all(recent, scope, spec.entries.as_slice())?;
    let over = over(recent, scope, &spec.over)?;
    Ok(Draft {
        line,
        role: role_of(role),
        name,
        accepts,
        entries,
        over,
        unit: None,
    })
}

/// A node that neither accepts nor maps anything. It takes no memory.
fn bare_draft(alloc: Global, line: u32, role: Role, name: Text, unit: Option<DraftUnit>) -> Draft
    ensures { result ≡ bare_draft line role name unit }
{
    Draft {
        line,
        role,
        name,
        accepts: Items::new(alloc),
        entries: Items::new(alloc),
        over: None,
        unit,
    }
}

fn role_of(role: DeclRole) -> Role
    ensures { result ≡ role_of (role_view role) }
{
    match role {
        DeclRole::Plain => Role::Plain,
        DeclRole::Agent => Role::Agent,
        DeclRole::Vectors => Role::Vectors,
    }
}

/// The full name of the node that serves the rest, where there is one.
fn over(
    recent: &mut Recent,
    scope: &Scope,
    name: &Option<NameExpr>,
) -> Result<Option<ScopedName>, NameFault>
    ensures { Answers (λ x. x) name_fault_view result
        (full_name_or_none (option_map (in_reference scope.now) (maybe_name_view name.now))) }
{
    match name {
        None => Ok(None),
        Some(name) => {
            let name = reference(recent, scope, name.as_slice())?;
            Ok(Some(name))
        }
    }
}

/// A part of a declaration of which several may stand in a list.
trait Evaluated {
    ghost use Rattle.std.specs.Prelude.{Result};
    ghost use Rattle.dn_base.specs.Answers.{Answers};
    ghost use Rattle.dn_scope.specs.Faults.{name_fault_view};
    ghost use Rattle.dn_scope.specs.Replace.{Replacement};
    ghost use Rattle.dn_scope.specs.Values.{Flaw};

    /// What is made of it.
    type Made: Drop;

    /// What it is in the tree.
    ghost Tree: { Type 0 };
    /// The part in the tree.
    ghost view: { Self → Tree };
    /// The part with what stands for its words.
    ghost replaced: { Replacement → Tree → Tree };
    /// What the definition makes of it then, or its flaw.
    ghost value_of: { Tree → Result Self.Made Flaw };

    /// What is made of it in a scope.
    fn evaluate(&self, recent: &mut Recent, scope: &Scope) -> Result<Self::Made, NameFault>
        ensures { Answers (λ x. x) name_fault_view result
            (value_of (replaced scope.now (view self.now))) };
}

/// What is made of each of the parts.
fn evaluate_all<P: Evaluated>(
    recent: &mut Recent,
    scope: &Scope,
    parts: &[P],
) -> Result<Items<P::Made>, NameFault>
    ensures { Answers (λ x. x) name_fault_view result
        (each P.value_of (map (P.replaced scope.now) (map P.view parts.now))) }
{
    let mut made = Items::from_vec(Vec::with_capacity(recent.alloc, parts.len())?);
    for part in parts {
        let value = part.evaluate(recent, scope)?;
        made.push(value)?;
    }
    Ok(made)
}

/// A block: one expression is its first and its last address.
fn block(scope: &Scope, range: &BlockExpr) -> Result<Block, Flaw>
    ensures { Answers (λ x. x) flaw_fault_view result
        (block_of (in_block scope.now.numbers (block_view range.now))) }
{
    let lo = value(scope, &range.lo)?;
    let hi = value_or(scope, lo, &range.hi)?;
    Ok(Block { lo, hi })
}

impl Evaluated for BlockExpr<'_> {
    type Made = Block;

    ghost Tree = { BlockOf };

    ghost view = { block_view };

    ghost replaced = { λ r. in_block r.numbers };

    ghost value_of = { block_of };

    fn evaluate(&self, _recent: &mut Recent, scope: &Scope) -> Result<Block, NameFault> {
        Ok(block(scope, self)?)
    }
}

/// A destination of a block with this first address, which is its own where none is given.
fn dest(
    recent: &mut Recent,
    scope: &Scope,
    lo: u64,
    dest: &DestExpr,
) -> Result<DraftDest, NameFault>
    ensures { Answers (λ x. x) name_fault_view result
        (dest_of lo (in_dest scope.now (dest_view dest.now))) }
{
    let to = reference(recent, scope, dest.name.as_slice())?;
    let addr = value_or(scope, lo, &dest.addr)?;
    Ok(DraftDest { to, addr })
}

fn dests(
    recent: &mut Recent,
    scope: &Scope,
    lo: u64,
    dests: &[DestExpr],
) -> Result<Items<DraftDest>, NameFault>
    ensures { Answers (λ x. x) name_fault_view result
        (each (dest_of lo) (map (in_dest scope.now) (map dest_view dests.now))) }
{
    let mut made = Items::from_vec(Vec::with_capacity(recent.alloc, dests.len())?);
    for expr in dests {
        let dest = dest(recent, scope, lo, expr)?;
        made.push(dest)?;
    }
    Ok(made)
}

impl Evaluated for EntryExpr<'_> {
    type Made = DraftEntry;

    ghost Tree = { EntryOf };

    ghost view = { entry_view };

    ghost replaced = { in_entry };

    ghost value_of = { entry_of };

    fn evaluate(&self, recent: &mut Recent, scope: &Scope) -> Result<DraftEntry, NameFault> {
        let block = block(scope, &self.block)?;
        let dests = dests(recent, scope, block.lo, self.dests.as_slice())?;
        Ok(DraftEntry { block, dests })
    }
}

/// A name comes to the full name to which it refers.
impl Evaluated for NameExpr<'_> {
    type Made = ScopedName;

    ghost Tree = { List Part };

    ghost view = { name_view };

    ghost replaced = { in_reference };

    ghost value_of = { full_name };

    fn evaluate(&self, recent: &mut Recent, scope: &Scope) -> Result<ScopedName, NameFault> {
        reference(recent, scope, self.as_slice())
    }
}
