//! The values of expressions and the full names of nodes, under what stands for the words of a body.

ghost use Rattle.std.specs.Prelude.{◌≡◌, ◌≤◌, ◌^◌, if◌then◌else◌, nat_lt, map, IfOk, Option, option_map};
ghost use Rattle.std.specs.String.{string_bytes};
ghost use Rattle.dn_parse.specs.Tree.{expressions, variable as variable_of, sum as sum_expression, product as product_expression};
ghost use Rattle.dn_parse.specs.Terms.{expr_view, maybe_expr_view, name_view, part_view};
ghost use Rattle.dn_scope.specs.Terms.{Appends, difference, dots_before, expand_fault_view, flaw_fault, flaw_fault_view, full_name, in_declared, in_expression, in_option, in_part, in_reference, name_fault_view, node_by, number_or_flaw, part_text, value, value_or_default, value_within, word_of_name};
ghost use Rattle.dn_scope.specs.declared.values.NameFault.TheVariants.{OutOfMemory as no_memory, Flawed as flawed};
ghost use Rattle.dn_base.specs.Terms.{Answers};

use crate::fault::ExpandFault;
use crate::recent::Recent;
use crate::scope::Scope;
use crate::scoped::ScopedName;
use dn_base::text::Text;
use dn_parse::syntax::{Expr, PartExpr};
use std::alloc::{AllocError, Global};

/// One more than the largest value.
const LIMIT: u128 = 1 << 64;

/// Why a part of a statement is not made.
#[derive(Clone, Copy, Debug, PartialEq, Eq)]
pub enum Flaw {
    /// A word stands for nothing: a variable has no number, or no kind has the name.
    Unknown,
    /// A sum or a product is above 2^64 - 1, a difference below 0, or a value above its limit.
    Range,
}

/// Why a name has no text, or a statement's part is not made.
#[derive(Clone, Copy, Debug, PartialEq, Eq)]
pub enum NameFault {
    /// A part of it has a flaw.
    Flawed(Flaw),
    /// There was no memory for it.
    OutOfMemory,
}

impl NameFault {
    /// The fault of the statement with this line.
    pub fn at(self, line: u32) -> ExpandFault
        ensures { expand_fault_view result ≡ option_map (flaw_fault line) (name_fault_view self) }
    {
        match self {
            NameFault::Flawed(Flaw::Unknown) => ExpandFault::Unknown { line },
            NameFault::Flawed(Flaw::Range) => ExpandFault::Value { line },
            NameFault::OutOfMemory => ExpandFault::OutOfMemory,
        }
    }
}

impl From<Flaw> for NameFault {
    ghost from_gives = { λ f e. e ≡ flawed f };

    fn from(flaw: Flaw) -> NameFault {
        NameFault::Flawed(flaw)
    }
}

impl From<AllocError> for NameFault {
    ghost from_gives = { λ _ e. e ≡ no_memory };

    fn from(_error: AllocError) -> NameFault {
        NameFault::OutOfMemory
    }
}

/// The value of an expression in whole numbers. The members of a sum or a product are evaluated from left
/// to right, and then it is judged whole.
#[cycle(value)]
pub fn value(scope: &Scope, expr: &Expr) -> Result<u64, Flaw>
    ensures { Answers (λ x. x) flaw_fault_view result
        (value (in_expression scope.now.numbers (expr_view expr.now))) }
{
    match expr {
        Expr::Number(number) => Ok(*number),
        Expr::Variable(word) => variable(scope, word),
        Expr::Sum(members) => sum(scope, members.as_slice()),
        Expr::Product(members) => product(scope, members.as_slice()),
        Expr::Minus(from, less) => difference(value(scope, from)?, value(scope, less)?),
    }
}

/// The number that stands for a variable.
fn variable(scope: &Scope, word: &str) -> Result<u64, Flaw>
    ensures { Answers (λ x. x) flaw_fault_view result
        (value (in_expression scope.now.numbers (variable_of word.now))) }
{
    match scope.number(word) {
        Some(number) => Ok(number),
        None => Err(Flaw::Unknown),
    }
}

/// The values together. A number past the limit is kept as the limit, since a later member can be unknown.
#[cycle(value)]
fn sum(scope: &Scope, members: &[Expr]) -> Result<u64, Flaw>
    ensures { Answers (λ x. x) flaw_fault_view result
        (value (in_expression scope.now.numbers (sum_expression
        (expressions (map expr_view members.now))))) }
{
    let mut total: u128 = 0;
    for member in members {
        let more = value(scope, member)?;
        total = number_or_limit(total + u128::from(more));
    }
    number_or_flaw(total)
}

/// The product of the values. A number past the limit is kept as the limit, since a later value can be 0.
#[cycle(value)]
fn product(scope: &Scope, members: &[Expr]) -> Result<u64, Flaw>
    ensures { Answers (λ x. x) flaw_fault_view result
        (value (in_expression scope.now.numbers (product_expression
        (expressions (map expr_view members.now))))) }
{
    let mut total: u128 = 1;
    for member in members {
        let factor = value(scope, member)?;
        total = number_or_limit(total * u128::from(factor));
    }
    number_or_flaw(total)
}

/// The number, or the limit where it is past it.
fn number_or_limit(number: u128) -> u128
    ensures { result ≡ (if nat_lt number (2 ^ 64) then number else 2 ^ 64) }
{
    if number < LIMIT { number } else { LIMIT }
}

/// The number as a value, if it is one.
fn number_or_flaw(number: u128) -> Result<u64, Flaw>
    ensures { Answers (λ x. x) flaw_fault_view result (number_or_flaw number) }
{
    if number < LIMIT {
        Ok(number as u64)
    } else {
        Err(Flaw::Range)
    }
}

/// The number from which another is taken away, if it is no less than the other.
fn difference(from: u64, less: u64) -> Result<u64, Flaw>
    ensures { Answers (λ x. x) flaw_fault_view result (difference from less) }
{
    if less <= from {
        Ok(from - less)
    } else {
        Err(Flaw::Range)
    }
}

/// The value of an expression that may be left out, for which another value stands then.
pub fn value_or(scope: &Scope, other: u64, expr: &Option<Expr>) -> Result<u64, Flaw>
    ensures { Answers (λ x. x) flaw_fault_view result
        (value_or_default other (in_option scope.now.numbers (maybe_expr_view expr.now))) }
{
    match expr {
        None => Ok(other),
        Some(expr) => value(scope, expr),
    }
}

/// The value of an expression, where it is no more than a limit.
pub fn value_within(scope: &Scope, limit: u64, expr: &Expr) -> Result<u64, Flaw>
    ensures value { Answers (λ x. x) flaw_fault_view result
        (value_within limit (in_expression scope.now.numbers (expr_view expr.now))) }
    ensures within { IfOk result (λ n. n ≤ limit) }
{
    let number = value(scope, expr)?;
    if number <= limit {
        Ok(number)
    } else {
        Err(Flaw::Range)
    }
}

/// The full name that a declared name spells: inside of a module the full name of the use stands before it.
pub fn declared_name(alloc: Global, scope: &Scope, name: &[PartExpr]) -> Result<Text, NameFault>
    ensures { Answers (λ x. x) name_fault_view result
        (full_name (in_declared scope.now (name_view name.now))) }
{
    let mut text = String::new(alloc);
    match scope.prefix() {
        Some(prefix) => {
            text.push_str(prefix.as_str())?;
            push_after_dots(&mut text, scope, name)?;
        }
        None => push_dotted(&mut text, scope, name)?,
    }
    Ok(Text::from_string(text)?)
}

/// The full name that a declared name spells, as a text that all who hold it share.
pub fn shared_name(alloc: Global, scope: &Scope, name: &[PartExpr]) -> Result<Text, NameFault>
    ensures { Answers (λ x. x) name_fault_view result
        (full_name (in_declared scope.now (name_view name.now))) }
{
    let text = declared_name(alloc, scope, name)?;
    Ok(Text::of(alloc, text.as_str())?)
}

/// The full name that a declared name spells, kept behind the full name of the use.
fn scoped_name(
    recent: &mut Recent,
    scope: &Scope,
    name: &[PartExpr],
) -> Result<ScopedName, NameFault>
    ensures { Answers (λ x. x) name_fault_view result
        (full_name (in_declared scope.now (name_view name.now))) }
{
    let mut text = String::new(recent.alloc);
    match scope.prefix() {
        Some(prefix) => {
            push_after_dots(&mut text, scope, name)?;
            let own = recent.text(text.as_str())?;
            Ok(ScopedName::within(prefix.share()?, own))
        }
        None => {
            push_dotted(&mut text, scope, name)?;
            let own = recent.text(text.as_str())?;
            Ok(ScopedName::outside(own))
        }
    }
}

/// The full name to which a name refers: one part without an index that spells a node parameter is the
/// argument's, and any other is as a declared name.
pub fn reference(
    recent: &mut Recent,
    scope: &Scope,
    name: &[PartExpr],
) -> Result<ScopedName, NameFault>
    ensures { Answers (λ x. x) name_fault_view result
        (full_name (in_reference scope.now (name_view name.now))) }
{
    match argument(scope, name) {
        Some(known) => Ok(known.share()?),
        None => scoped_name(recent, scope, name),
    }
}

/// The full name that stands for a name of one part without an index. `None` exactly where it spells no
/// node parameter.
fn argument<'a>(scope: &'a Scope, name: &[PartExpr]) -> Option<&'a ScopedName>
    ensures { option_map (λ t. t.now) result ≡ node_by scope.now.naming
        (word_of_name (name_view name.now)) }
{
    match name {
        [part] => match part.index {
            None => scope.node(part.title),
            Some(_) => None,
        },
        _ => None,
    }
}

/// Appends the parts joined by `.`.
fn push_dotted(out: &mut String, scope: &Scope, parts: &[PartExpr]) -> Result<(), NameFault>
    ensures { Appends result (string_bytes out.old) (string_bytes out.new)
        (full_name (map (in_part scope.now.numbers) (name_view parts.now))) }
{
    let [first, rest @ ..] = parts else {
        return Ok(());
    };
    push_part(out, scope, first)?;
    push_after_dots(out, scope, rest)
}

/// Appends the parts, each with a `.` before it.
fn push_after_dots(out: &mut String, scope: &Scope, parts: &[PartExpr]) -> Result<(), NameFault>
    ensures { Appends result (string_bytes out.old) (string_bytes out.new)
        (dots_before (map (in_part scope.now.numbers) (name_view parts.now))) }
{
    for part in parts {
        out.push_str(".")?;
        push_part(out, scope, part)?;
    }
    Ok(())
}

/// Appends a part, with the value of its index in brackets where it has one. After a fault a part of it may
/// have been appended.
fn push_part(out: &mut String, scope: &Scope, part: &PartExpr) -> Result<(), NameFault>
    ensures { Appends result (string_bytes out.old) (string_bytes out.new)
        (part_text (in_part scope.now.numbers (part_view part.now))) }
{
    out.push_str(part.title)?;
    if let Some(index) = &part.index {
        let number = value(scope, index)?;
        write!(out, "[{number}]")?;
    }
    Ok(())
}
