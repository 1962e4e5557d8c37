//! The expansion of the statements of a text, a step at a time.

ghost use Rattle.std.specs.Prelude.{◌≡◌, ◌≤◌, None, length};
ghost use Rattle.dn_parse.specs.Terms.{declaration_view, expr_view, item_view};
ghost use Rattle.dn_scope.specs.Terms.{Replacement, Visibility, at_line, body_view, expand_fault_view, in_declaration, in_expression, in_item, in_items, line_of_item, line_of_work, outside, replacement_hiding, stack_view, statements, turns_works, value, visibility_view, work_view};
ghost use Rattle.dn_module.specs.Terms.{all_rewritings, expansion_state_view, item_rewriting, loop_of, most_steps, nothing_yet, rewriting, with_declaration, works_in_front};
ghost use Rattle.dn_base.specs.Terms.{Answers};
ghost use Rattle.dn_kind.specs.Terms.{kinds_of};

use crate::drafts::Drafts;
use crate::nodes::draft_of;
use dn_kind::kinds::Kinds;
use dn_parse::syntax::{Decl, Expr, Stmt};
use dn_scope::fault::ExpandFault;
use dn_scope::modules::{Module, Modules};
use dn_scope::recent::Recent;
use dn_scope::scope::Scope;
use dn_scope::stack::{Stack, Turns, Work};
use dn_scope::uses::new_use;
use dn_scope::values::{NameFault, value};
use std::alloc::Global;

/// The most steps: each statement that is reached is one, and each turn of a loop.
const MOST_STEPS: u32 = 65_536;

/// What the statements so far have made: the modules that are known, and the nodes; and the texts that were
/// met lately in names.
#[derive(Drop)]
pub struct Made<'a, 't> {
    pub modules: Modules<'a, 't>,
    pub drafts: Drafts,
    pub recent: Recent,
}

/// What the statements of a text make, or the first fault.
pub fn expand_body<'a, 't>(
    alloc: Global,
    kinds: &Kinds,
    body: &'a [Stmt<'t>],
) -> Result<Made<'a, 't>, ExpandFault>
    requires few_kinds { length kinds.now.list.items ≤ 255 }
    ensures { Answers expansion_state_view expand_fault_view result (all_rewritings (kinds_of
        meaning kinds.now) most_steps (statements outside (body_view body.now)) nothing_yet) }
{
    let mut stack = Stack::new(alloc, body);
    let mut made = Made {
        modules: Modules::new(alloc),
        drafts: Drafts::new(alloc),
        recent: Recent::new(alloc),
    };
    let mut left = MOST_STEPS;
    while let Some(work) = stack.next() {
        if left == 0 {
            return Err(ExpandFault::TooMany {
                line: line_of(work),
                limit: MOST_STEPS,
            });
        }
        left -= 1;
        step(alloc, kinds, &mut stack, &mut made, work)?;
    }
    Ok(made)
}

/// The line of the statement, or of the loop.
fn line_of(work: Work) -> u32
    ensures { (s : Visibility) (r : Replacement) → result
        ≡ line_of_work (work_view s r work.entry) }
{
    match work {
        Work::Statement(statement) => line_of_statement(statement),
        Work::Turn(turns) => turns.line,
    }
}

fn line_of_statement(statement: &Stmt) -> u32
    ensures { (r : Replacement) → result ≡ line_of_item (in_item r (item_view statement.now)) }
{
    match statement {
        Stmt::Decl { line, .. } => *line,
        Stmt::Module { line, .. } => *line,
        Stmt::Instance { line, .. } => *line,
        Stmt::Loop { line, .. } => *line,
    }
}

/// One step: what is next is taken, and what it stands for comes in its place.
fn step<'a, 't>(
    alloc: Global,
    kinds: &Kinds,
    stack: &mut Stack<'a, 't>,
    made: &mut Made<'a, 't>,
    work: Work<'a, 't>,
) -> Result<(), ExpandFault>
    requires few_kinds { length kinds.now.list.items ≤ 255 }
    requires free { stack.old.inner.inner.turns ≡ None }
    ensures { Answers (λ _. (stack_view stack.new, expansion_state_view made.new))
        expand_fault_view result (works_in_front (stack_view stack.old)
        (rewriting (kinds_of meaning kinds.now) (expansion_state_view made.old)
        (work_view (visibility_view stack.old.inner.visible) stack.old.inner.scope work.entry))) }
{
    match work {
        Work::Statement(statement) => take(alloc, kinds, stack, made, statement),
        Work::Turn(turns) => {
            stack.inner.enter_turn(turns)?;
            Ok(())
        }
    }
}

/// Takes a statement.
fn take<'a, 't>(
    alloc: Global,
    kinds: &Kinds,
    stack: &mut Stack<'a, 't>,
    made: &mut Made<'a, 't>,
    statement: &'a Stmt<'t>,
) -> Result<(), ExpandFault>
    requires few_kinds { length kinds.now.list.items ≤ 255 }
    requires free { stack.old.inner.inner.turns ≡ None }
    ensures { Answers (λ _. (stack_view stack.new, expansion_state_view made.new)) expand_fault_view
        result (works_in_front (stack_view stack.old) (item_rewriting (kinds_of meaning kinds.now)
        (visibility_view stack.old.inner.visible) (expansion_state_view made.old)
        (in_item stack.old.inner.scope (item_view statement.now)))) }
{
    match statement {
        Stmt::Decl { line, decl } => {
            let scope = &stack.inner.scope;
            let (recent, drafts) = (&mut made.recent, &mut made.drafts);
            declare(kinds, recent, scope, drafts, *line, decl)
        }
        Stmt::Module {
            line,
            title,
            params,
            body,
        } => made
            .modules
            .add(alloc, *line, Module::new(title, params, body)),
        Stmt::Instance {
            line,
            title,
            args,
            prefix,
        } => {
            let found = made.modules.find(stack.inner.visible, title);
            let scope = &stack.inner.scope;
            let (args, prefix) = (args.as_slice(), prefix.as_slice());
            let inner = new_use(&mut made.recent, scope, *line, found, args, prefix)?;
            Ok(stack.enter(inner)?)
        }
        Stmt::Loop {
            line,
            variable,
            from,
            upto,
            body,
        } => {
            let scope = &stack.inner.scope;
            let turns = turns(scope, *line, variable, from, upto, body.as_slice())?;
            stack.inner.inner.turns = turns;
            Ok(())
        }
    }
}

/// Makes the node that a statement declares.
fn declare(
    kinds: &Kinds,
    recent: &mut Recent,
    scope: &Scope,
    drafts: &mut Drafts,
    line: u32,
    decl: &Decl,
) -> Result<(), ExpandFault>
    requires few_kinds { length kinds.now.list.items ≤ 255 }
    ensures { Answers (λ _. drafts.new) expand_fault_view result (with_declaration (kinds_of
        meaning kinds.now) drafts.old line (in_declaration scope.now (declaration_view decl.now))) }
{
    match draft_of(kinds, recent, scope, line, decl) {
        Ok(draft) => drafts.add(recent.alloc, draft),
        Err(fault) => Err(fault.at(line)),
    }
}

/// The turns of a loop, if it has any.
fn turns<'a, 't>(
    scope: &Scope,
    line: u32,
    variable: &'a str,
    from: &Expr,
    upto: &Expr,
    body: &'a [Stmt<'t>],
) -> Result<Option<Turns<'a, 't>>, ExpandFault>
    ensures { (s : Visibility) → Answers (turns_works s scope.now) expand_fault_view result
        (loop_of s line variable.now (in_expression scope.now.numbers (expr_view from.now))
        (in_expression scope.now.numbers (expr_view upto.now))
        (in_items (replacement_hiding variable.now scope.now) (body_view body.now))) }
{
    let next = value_at(scope, line, from)?;
    let last = value_at(scope, line, upto)?;
    if next > last {
        return Ok(None);
    }
    Ok(Some(Turns {
        line,
        variable,
        next,
        last,
        body,
    }))
}

/// The value of an expression in the statement with this line.
fn value_at(scope: &Scope, line: u32, expr: &Expr) -> Result<u64, ExpandFault>
    ensures { Answers (λ x. x) expand_fault_view result
        (at_line line (value (in_expression scope.now.numbers (expr_view expr.now)))) }
{
    match value(scope, expr) {
        Ok(value) => Ok(value),
        Err(flaw) => Err(NameFault::Flawed(flaw).at(line)),
    }
}
