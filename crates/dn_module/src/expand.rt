//! The net and the commands of a tree.

ghost use Rattle.std.specs.Prelude.{◌≡◌, ◌≤◌, true, IfOk, IsTrue, length};
ghost use Rattle.std.specs.List.{list_all};
ghost use Rattle.dn_parse.specs.Terms.{script_view, tree_view};
ghost use Rattle.dn_net.specs.Terms.{is_formed};
ghost use Rattle.dn_kind.specs.Terms.{has_kind, kinds_of};
ghost use Rattle.dn_scope.specs.Terms.{expand_fault_view};
ghost use Rattle.dn_module.specs.Terms.{expansion_of, names, node_in, outcome_of, outcome_view};
ghost use Rattle.dn_base.specs.Terms.{Answers};

use crate::commands::Commands;
use crate::drafts::Drafts;
pub use crate::expansion::Expanded;
use crate::link::linked_net;
use crate::machine::expand_body;
use crate::orders::check_commands;
use dn_kind::kinds::Kinds;
use dn_parse::script::Script;
use dn_parse::syntax::Tree;
use dn_scope::fault::ExpandFault;
use std::alloc::Global;

/// Expands a tree with these kinds of units, at most 255. The rules on nodes and on units are not
/// tested.
pub fn expand<'a>(
    alloc: Global,
    tree: &Tree<'a>,
    kinds: &Kinds,
) -> Result<Expanded<'a>, ExpandFault>
    requires few_kinds { length kinds.now.list.items ≤ 255 }
    // It gives what replacing text gives, or the first fault.
    ensures expansion { Answers outcome_view expand_fault_view result
        (expansion_of (kinds_of meaning kinds.now) (tree_view tree.now)) }
    // The kind of each unit is there.
    ensures units { IfOk result (λ e. IsTrue
        (list_all (λ n. has_kind (length kinds.now.list.items) n.unit) e.net)) }
{
    let made = expand_body(alloc, kinds, tree.body.as_slice())?;
    finish(alloc, made.drafts, tree.commands)
}

/// The commands, and then the net of the nodes that were made.
fn finish<'a>(alloc: Global, drafts: Drafts, asked: Script<'a>) -> Result<Expanded<'a>, ExpandFault>
    requires formed { list_all (λ d. is_formed (node_in (names drafts) d)) drafts ≡ true }
    ensures { Answers outcome_view expand_fault_view result
        (outcome_of drafts (script_view asked.entry)) }
{
    check_commands(alloc, drafts.names(), asked)?;
    let net = linked_net(alloc, drafts.names(), drafts.as_slice())?;
    let commands = Commands::new(drafts.into_names(), asked);
    Ok(Expanded { net, commands })
}
