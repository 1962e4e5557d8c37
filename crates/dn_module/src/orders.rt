//! From a command of a text to that of a script. It stands outside of modules and loops.

ghost use Rattle.std.specs.Prelude.{◌≡◌, ℕ, length, map, Result, Ok, Err, IfOk, IfErr, IfSome, OnOk, IsTrue};
ghost use Rattle.std.specs.List.{list_all};
ghost use Rattle.dn_parse.specs.Tree.{view as asks_view, absorb as asks_absorb, gather as asks_gather};
ghost use Rattle.dn_parse.specs.Terms.{expr_view, grant_view, name_view, order_view, piece_view, route_view, script_view};
ghost use Rattle.dn_module.specs.declared.command.Command.{Command};
ghost use Rattle.dn_module.specs.declared.command.Target.{Target};
ghost use Rattle.dn_scope.specs.Values.{Flaw as SpecFlaw};
ghost use Rattle.dn_module.specs.Terms.{asked_of, command_of, commands_of, commands_or_none, makes_within, nodes_within, node_within, piece_target, pieces_within, target_of};
ghost use Rattle.dn_scope.specs.Terms.{at_line, each, expand_fault_view, flaw_fault_view, full_name, name_fault_view, value};
ghost use Rattle.dn_base.specs.Terms.{Answers};

use crate::command::{Command, PieceTarget, Target};
use dn_base::items::Items;
use dn_base::text::Text;
use dn_parse::script::Script;
use dn_parse::syntax::{Cmd, Expr, GrantExpr, Mode, NameExpr, Order, PieceExpr, RouteExpr};
use dn_scope::fault::ExpandFault;
use dn_scope::names::NameTable;
use dn_scope::scope::Scope;
use dn_scope::values::{Flaw, NameFault, declared_name, value};
use std::alloc::Global;

/// Goes once over the commands of a script, and keeps none: `Ok` where each has its values, else the
/// first fault. Commands that are all plain have no fault, and it does not go over them.
pub fn check_commands<'a>(
    alloc: Global,
    names: &NameTable,
    script: Script<'a>,
) -> Result<(), ExpandFault>
    ensures made { Answers
        (λ _. commands_or_none (commands_of names.now (script_view script.entry)))
        expand_fault_view result (commands_of names.now (script_view script.entry)) }
    ensures known { OnOk result (IsTrue (list_all (nodes_within (length names.now))
        (commands_or_none (commands_of names.now (script_view script.entry))))) }
{
    if script.is_plain() {
        return Ok(());
    }
    let mut rest = script;
    'commands: while let Some((asked, behind)) = rest.next(alloc)? {
        check_command(alloc, names, asked)?;
        rest = behind;
    }
    Ok(())
}

/// Makes a command and lets it go, or the fault of its statement.
fn check_command<'a>(alloc: Global, names: &NameTable, asked: Cmd<'a>) -> Result<(), ExpandFault>
    ensures made { OnOk result (IsTrue (makes_within (length names.now)
        (at_line asked.entry.line (command_of names.now (order_view asked.entry.order))))) }
    ensures fault { IfErr result (λ e. IfSome (expand_fault_view e) (λ f.
        at_line asked.entry.line (command_of names.now (order_view asked.entry.order)) ≡ Err f)) }
{
    let made = command(alloc, names, &asked.order);
    let line = asked.line;
    drop(asked);
    told(made, line)
}

/// Lets a command go that was made, or puts the line of its statement on why it was not.
fn told(made: Result<Command, NameFault>, line: u32) -> Result<(), ExpandFault>
    ensures made { (count : ℕ) (asked : Result Command SpecFlaw) →
        Answers (λ c. c) name_fault_view made asked →
        IfOk made (λ c. IsTrue (nodes_within count c)) →
        OnOk result (IsTrue (makes_within count (at_line line asked))) }
    ensures fault { (asked : Result Command SpecFlaw) →
        Answers (λ c. c) name_fault_view made asked →
        IfErr result (λ e. IfSome (expand_fault_view e) (λ f. at_line line asked ≡ Err f)) }
{
    match made {
        Ok(_) => Ok(()),
        Err(fault) => Err(fault.at(line)),
    }
}

/// A command, with the nodes that it names by their numbers.
pub fn command(alloc: Global, names: &NameTable, order: &Order) -> Result<Command, NameFault>
    ensures made { Answers (λ x. x) name_fault_view result
        (command_of names.now (order_view order.now)) }
    ensures known { IfOk result (λ c. IsTrue (nodes_within (length names.now) c)) }
{
    match order {
        Order::Resolve(name, expr, mode) => {
            let (target, addr) = asked_target(alloc, names, name, expr)?;
            Ok(Command::Resolve(target, addr, *mode))
        }
        Order::Lookup(name, expr, mode) => {
            let (target, addr) = asked_target(alloc, names, name, expr)?;
            Ok(Command::Lookup(target, addr, *mode))
        }
        Order::View(name, mode) => view(alloc, names, name, *mode),
        Order::Grant(asked) => grant(alloc, names, asked),
        Order::Route(asked) => route(alloc, names, asked),
        Order::Revoke(id) => revoke(alloc, id),
        Order::Dump => Ok(Command::Dump),
        Order::Split => Ok(Command::Split),
        Order::Absorb(name) => absorb(alloc, names, name),
        Order::Radix { node, pool } => {
            let (node, pool) = asked_target(alloc, names, node, pool)?;
            Ok(Command::Radix { node, pool })
        }
        Order::Gather {
            agent,
            pieces,
            mode,
        } => gather(alloc, names, agent, pieces.as_slice(), *mode),
    }
}

/// A node as a command names it, with its number where it is there.
fn target(alloc: Global, names: &NameTable, name: &NameExpr) -> Result<Target, NameFault>
    ensures made { Answers (λ x. x) name_fault_view result
        (target_of names.now (name_view name.now)) }
    ensures known { IfOk result (λ t. IsTrue (node_within (length names.now) t.node)) }
{
    let text = full_name(alloc, name)?;
    let node = names.find(text.as_str());
    Ok(Target { text, node })
}

/// The full name that a name spells.
#[tactic(auto, using(dn_scope::proofs::Outside::name_stays))]
fn full_name(alloc: Global, name: &NameExpr) -> Result<Text, NameFault>
    ensures { Answers (λ x. x) name_fault_view result (full_name (name_view name.now)) }
{
    declared_name(alloc, &Scope::outside(alloc), name.as_slice())
}

/// The value of an expression.
#[tactic(auto, using(dn_scope::proofs::Outside::expression_stays))]
fn number(alloc: Global, expr: &Expr) -> Result<u64, Flaw>
    ensures { Answers (λ x. x) flaw_fault_view result (value (expr_view expr.now)) }
{
    value(&Scope::outside(alloc), expr)
}

/// A node and an address of it, as a command names them, for whatever it asks there.
fn asked_target(
    alloc: Global,
    names: &NameTable,
    name: &NameExpr,
    expr: &Expr,
) -> Result<(Target, u64), NameFault>
    ensures made { (asks : Target → ℕ → Command) →
        Answers (λ p. asks p.0 p.1) name_fault_view result
        (asked_of names.now (name_view name.now) (expr_view expr.now) asks) }
    ensures known { IfOk result (λ p. IsTrue (node_within (length names.now) p.0.node)) }
{
    let target = target(alloc, names, name)?;
    let addr = number(alloc, expr)?;
    Ok((target, addr))
}

fn view(alloc: Global, names: &NameTable, name: &NameExpr, mode: Mode) -> Result<Command, NameFault>
    ensures made { Answers (λ x. x) name_fault_view result
        (command_of names.now (asks_view (name_view name.now) mode)) }
    ensures known { IfOk result (λ c. IsTrue (nodes_within (length names.now) c)) }
{
    let target = target(alloc, names, name)?;
    Ok(Command::View(target, mode))
}

fn absorb(alloc: Global, names: &NameTable, name: &NameExpr) -> Result<Command, NameFault>
    ensures made { Answers (λ x. x) name_fault_view result
        (command_of names.now (asks_absorb (name_view name.now))) }
    ensures known { IfOk result (λ c. IsTrue (nodes_within (length names.now) c)) }
{
    let target = target(alloc, names, name)?;
    Ok(Command::Absorb(target))
}

/// A grant to the first node named, of addresses of the second.
fn grant(alloc: Global, names: &NameTable, asked: &GrantExpr) -> Result<Command, NameFault>
    ensures made { Answers (λ x. x) name_fault_view result
        (command_of names.now (grant_view asked.now)) }
    ensures known { IfOk result (λ c. IsTrue (nodes_within (length names.now) c)) }
{
    let agent = target(alloc, names, &asked.agent)?;
    let node = target(alloc, names, &asked.node)?;
    let base = number(alloc, &asked.base)?;
    let size = number(alloc, &asked.size)?;
    Ok(Command::Grant {
        id: Text::of(alloc, asked.id)?,
        agent,
        node,
        base,
        size,
        mode: asked.mode,
    })
}

/// A route of a line of the first node named to the second.
fn route(alloc: Global, names: &NameTable, asked: &RouteExpr) -> Result<Command, NameFault>
    ensures made { Answers (λ x. x) name_fault_view result
        (command_of names.now (route_view asked.now)) }
    ensures known { IfOk result (λ c. IsTrue (nodes_within (length names.now) c)) }
{
    let agent = target(alloc, names, &asked.agent)?;
    let line = number(alloc, &asked.line)?;
    let node = target(alloc, names, &asked.node)?;
    Ok(Command::Route {
        id: Text::of(alloc, asked.id)?,
        agent,
        line,
        node,
    })
}

/// A piece as a gather names it.
fn piece(alloc: Global, names: &NameTable, asked: &PieceExpr) -> Result<PieceTarget, NameFault>
    ensures made { Answers (λ x. x) name_fault_view result
        (piece_target names.now (piece_view asked.now)) }
    ensures known { IfOk result (λ p. IsTrue (node_within (length names.now) p.node.node)) }
{
    let node = target(alloc, names, &asked.node)?;
    let base = number(alloc, &asked.base)?;
    let size = number(alloc, &asked.size)?;
    Ok(PieceTarget {
        id: Text::of(alloc, asked.id)?,
        node,
        base,
        size,
    })
}

fn pieces(
    alloc: Global,
    names: &NameTable,
    asked: &[PieceExpr],
) -> Result<Items<PieceTarget>, NameFault>
    ensures made { Answers (λ x. x) name_fault_view result
        (each (piece_target names.now) (map piece_view asked.now)) }
    ensures known { IfOk result (λ ps. IsTrue (pieces_within (length names.now) ps)) }
{
    let mut made = Items::from_vec(Vec::with_capacity(alloc, asked.len())?);
    for expr in asked {
        let piece = piece(alloc, names, expr)?;
        made.push(piece)?;
    }
    Ok(made)
}

/// Pieces that the first node named is to reach.
fn gather(
    alloc: Global,
    names: &NameTable,
    agent: &NameExpr,
    asked: &[PieceExpr],
    mode: Mode,
) -> Result<Command, NameFault>
    ensures made { Answers (λ x. x) name_fault_view result (command_of names.now
        (asks_gather (name_view agent.now) (map piece_view asked.now) mode)) }
    ensures known { IfOk result (λ c. IsTrue (nodes_within (length names.now) c)) }
{
    let agent = target(alloc, names, agent)?;
    let pieces = pieces(alloc, names, asked)?;
    Ok(Command::Gather {
        agent,
        pieces,
        mode,
    })
}

fn revoke(alloc: Global, id: &str) -> Result<Command, NameFault>
    ensures { Answers (λ x. x) name_fault_view result (Ok (Command.Revoke id.now)) }
{
    Ok(Command::Revoke(Text::of(alloc, id)?))
}
