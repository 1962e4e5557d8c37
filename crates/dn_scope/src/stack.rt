//! What is still to be done while a tree is expanded.

ghost use Rattle.std.specs.Prelude.{◌≡◌, ◌∷◌, [], ◌++◌, IfSome, IfNone, OnOk, OnErr, None};
ghost use Rattle.dn_scope.specs.Terms.{Replacement, Visibility, after_works, body_view, first_works, in_items, outside, rest_works, stack_view, statements, turn_works, turns_works, use_view, visibility_view, work_view};

use crate::modules::Visible;
use crate::scope::Scope;
use dn_parse::syntax::Stmt;
use std::alloc::{AllocError, Global};
use std::mem;

/// The turns of a loop that are left: from one number to another, which is no less.
#[derive(Clone, Copy)]
pub struct Turns<'a, 't> {
    /// The line of the loop.
    pub line: u32,
    pub variable: &'a str,
    pub next: u64,
    pub last: u64,
    pub body: &'a [Stmt<'t>],
}

/// What is left of a body: the turns of the loop that is at work in it, and then the statements after it.
#[derive(Clone, Copy)]
pub struct Rest<'a, 't> {
    pub turns: Option<Turns<'a, 't>>,
    pub statements: &'a [Stmt<'t>],
}

/// What is next: a statement, or the next turn of a loop.
#[derive(Clone, Copy)]
pub enum Work<'a, 't> {
    Statement(&'a Stmt<'t>),
    Turn(Turns<'a, 't>),
}

/// A use of a module that is not at its end, or the text itself.
#[derive(Drop)]
pub struct Use<'a, 't> {
    /// What stands for the words of its innermost body.
    pub scope: Scope<'a>,
    pub visible: Visible,
    /// What is left of its innermost body.
    pub inner: Rest<'a, 't>,
    /// What is left of the bodies round it, the innermost last. Each body but the outermost is a turn of a
    /// loop.
    pub outer: Vec<Rest<'a, 't>>,
}

/// The uses that are not at their ends.
#[derive(Drop)]
pub struct Stack<'a, 't> {
    /// The innermost.
    pub inner: Use<'a, 't>,
    /// Those round it, the innermost last.
    pub outer: Vec<Use<'a, 't>>,
}

impl<'a, 't> Use<'a, 't> {
    /// A use at its beginning. It takes no memory.
    pub fn new(
        alloc: Global,
        scope: Scope<'a>,
        visible: Visible,
        body: &'a [Stmt<'t>],
    ) -> Use<'a, 't>
        ensures { use_view result ≡ statements (visibility_view visible)
            (in_items scope.entry (body_view body.now)) }
    {
        Use {
            scope,
            visible,
            inner: Rest {
                turns: None,
                statements: body,
            },
            outer: Vec::new(alloc),
        }
    }

    /// What is next in the use, whose rest stays. `None` exactly where it is at its end.
    fn next(&mut self) -> Option<Work<'a, 't>>
        ensures some { IfSome result (λ w. use_view self.old ≡ work_view
            (visibility_view self.new.visible) self.new.scope w ∷ use_view self.new) }
        ensures none { IfNone result (use_view self.old ≡ []) }
        ensures done { IfNone result (use_view self.new ≡ []) }
        ensures free { IfSome result (λ _. self.new.inner.turns ≡ None) }
    {
        loop {
            if let Some((work, rest)) = first(self.inner) {
                self.inner = rest;
                return Some(work);
            }
            let Some(outer) = self.outer.pop() else {
                return None;
            };
            self.inner = outer;
            self.scope.leave();
        }
    }

    /// Goes into the turn of a loop that is next in the innermost body. For want of memory the use is unchanged.
    pub fn enter_turn(&mut self, turns: Turns<'a, 't>) -> Result<(), AllocError>
        requires free { self.old.inner.turns ≡ None }
        ensures unchanged { OnErr result (use_view self.new ≡ use_view self.old) }
        ensures entered { OnOk result (use_view self.new ≡ turn_works
            (visibility_view self.old.visible) self.old.scope turns.entry ++ use_view self.old) }
    {
        self.outer.reserve(1)?;
        self.scope.enter(turns.variable, turns.next)?;
        self.outer.push_reserved(Rest {
            turns: after(turns),
            statements: self.inner.statements,
        });
        self.inner = Rest {
            turns: None,
            statements: turns.body,
        };
        Ok(())
    }
}

impl<'a, 't> Stack<'a, 't> {
    /// The stack of a text at its beginning. It takes no memory.
    pub fn new(alloc: Global, body: &'a [Stmt<'t>]) -> Stack<'a, 't>
        ensures { stack_view result ≡ statements outside (body_view body.now) }
    {
        Stack {
            inner: Use::new(alloc, Scope::outside(alloc), Visible::All, body),
            outer: Vec::new(alloc),
        }
    }

    /// What is next, which then is in the innermost use. `None` exactly where all is done.
    pub fn next(&mut self) -> Option<Work<'a, 't>>
        ensures some { IfSome result (λ w. stack_view self.old ≡ work_view
            (visibility_view self.new.inner.visible) self.new.inner.scope w ∷ stack_view self.new) }
        ensures none { IfNone result (stack_view self.old ≡ []) }
        ensures done { IfNone result (stack_view self.new ≡ []) }
        ensures free { IfSome result (λ _. self.new.inner.inner.turns ≡ None) }
    {
        loop {
            if let Some(work) = self.inner.next() {
                return Some(work);
            }
            let Some(outer) = self.outer.pop() else {
                return None;
            };
            self.inner = outer;
        }
    }

    /// Goes into a use. For want of memory the stack is unchanged.
    pub fn enter(&mut self, inner: Use<'a, 't>) -> Result<(), AllocError>
        ensures unchanged { OnErr result (stack_view self.new ≡ stack_view self.old) }
        ensures entered { OnOk result (stack_view self.new ≡ use_view inner.entry ++ stack_view
            self.old) }
    {
        self.outer.reserve(1)?;
        let outer = mem::replace(&mut self.inner, inner);
        self.outer.push_reserved(outer);
        Ok(())
    }
}

/// What is first in a body, and what is left of the body then. `None` exactly where it is at its end.
fn first<'a, 't>(rest: Rest<'a, 't>) -> Option<(Work<'a, 't>, Rest<'a, 't>)>
    ensures works { (s : Visibility) (r : Replacement) → rest_works s r rest.entry ≡ first_works s
        r result }
    ensures free { IfSome result (λ f. f.1.turns ≡ None) }
{
    if let Some(turns) = rest.turns {
        let after = Rest {
            turns: None,
            statements: rest.statements,
        };
        return Some((Work::Turn(turns), after));
    }
    let Some((statement, statements)) = rest.statements.split_first() else {
        return None;
    };
    let after = Rest {
        turns: None,
        statements,
    };
    Some((Work::Statement(statement), after))
}

/// The turns after the next one, if there are any.
fn after<'a, 't>(turns: Turns<'a, 't>) -> Option<Turns<'a, 't>>
    ensures { (s : Visibility) (r : Replacement) → turns_works s r result ≡ after_works s r
        turns.entry }
{
    if turns.next >= turns.last {
        return None;
    }
    Some(Turns {
        line: turns.line,
        variable: turns.variable,
        next: turns.next + 1,
        last: turns.last,
        body: turns.body,
    })
}
