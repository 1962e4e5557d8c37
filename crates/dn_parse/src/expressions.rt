//! Expressions.

ghost use Rattle.std.specs.Prelude.{◌≡◌, ◌<◌, [], ◌∷◌, map, IfOk, vec_len};
ghost use Rattle.dn_token.specs.Terms.{cursor_view};
ghost use Rattle.dn_parse.specs.Terms.{IsShorter, Reads, ReadsNext, Shortens, after_open_at, as_one, expr_at, expr_view, factor_at, joined_at, member_at, next_member_at, row_sign};

use crate::cursor::{Halt, after_sign, refusal, sign};
use crate::syntax::Expr;
use dn_token::cursor::Cursor;
use dn_token::token::{Lexeme, Sign};
use std::alloc::{AllocError, Global};

/// The most parentheses that may be open at once.
pub const MOST_OPEN: u8 = 32;

/// A row of members: a product of factors, or a sum of products.
#[derive(Clone, Copy)]
pub enum Operation {
    Product,
    Sum,
}

/// Two members of a sum or of a product, in a vector.
fn two_members<'a>(
    alloc: Global,
    first: Expr<'a>,
    second: Expr<'a>,
) -> Result<Vec<Expr<'a>>, AllocError>
    ensures { IfOk result (λ v. v.items ≡ first.entry ∷ second.entry ∷ []) }
{
    let mut members = Vec::with_capacity(alloc, 2)?;
    members.push(first)?;
    members.push(second)?;
    Ok(members)
}

/// The sum or the product of two members or more.
fn as_one<'a>(row: Operation, members: Vec<Expr<'a>>) -> Expr<'a>
    requires { 1 < vec_len members }
    ensures { expr_view result ≡ as_one row (map expr_view members.entry.items) }
{
    match row {
        Operation::Product => Expr::Product(members),
        Operation::Sum => Expr::Sum(members),
    }
}

/// The sign between two members.
fn sign_of(row: Operation) -> Sign
    ensures { result ≡ row_sign row }
{
    match row {
        Operation::Product => Sign::Times,
        Operation::Sum => Sign::Plus,
    }
}

/// `number | word | "(" expr [ "-" expr ] ")"`, where so many parentheses may still be opened.
#[cycle(expressions)]
#[tactic(auto, unfolding(crate::specs::Descent::factor_at))]
fn factor<'a>(alloc: Global, tokens: &mut Cursor<'a>, depth: u8) -> Result<Expr<'a>, Halt>
    ensures gives { Reads expr_view result tokens.new (factor_at depth (cursor_view tokens.old)) }
    ensures shorter { IfOk result (λ _. IsShorter tokens.new tokens.old) }
{
    let Some(token) = tokens.peek() else {
        return Err(refusal(tokens));
    };
    match token.lexeme {
        Lexeme::Number(number) => {
            tokens.step();
            Ok(Expr::Number(number))
        }
        Lexeme::Word(word) => {
            tokens.step();
            Ok(Expr::Variable(word))
        }
        Lexeme::Sign(Sign::OpenParenthesis) => {
            if depth == 0 {
                return Err(Halt::Deep(tokens.left()));
            }
            tokens.step();
            after_open(alloc, tokens, depth - 1)
        }
        _ => Err(refusal(tokens)),
    }
}

/// `expr [ "-" expr ] ")"`
#[cycle(expressions)]
#[tactic(auto, unfolding(crate::specs::Descent::after_open_at))]
fn after_open<'a>(alloc: Global, tokens: &mut Cursor<'a>, depth: u8) -> Result<Expr<'a>, Halt>
    ensures gives { Reads expr_view result tokens.new
        (after_open_at depth (cursor_view tokens.old)) }
    ensures shorter { IfOk result (λ _. IsShorter tokens.new tokens.old) }
{
    let first = expr(alloc, tokens, depth)?;
    if !after_sign(tokens, Sign::Minus) {
        sign(tokens, Sign::CloseParenthesis)?;
        return Ok(first);
    }
    let second = expr(alloc, tokens, depth)?;
    sign(tokens, Sign::CloseParenthesis)?;
    let difference = Expr::Minus(Box::new(alloc, first)?, Box::new(alloc, second)?);
    Ok(difference)
}

/// A member: a factor, or a product
#[cycle(expressions)]
#[tactic(auto, unfolding(crate::specs::Rows::joined_at, crate::specs::Rows::members_at, crate::specs::Rows::next_member_at, crate::specs::Descent::term_at, crate::specs::Descent::factors_at, crate::specs::Descent::next_factor_at))]
fn member<'a>(
    alloc: Global,
    tokens: &mut Cursor<'a>,
    depth: u8,
    row: Operation,
) -> Result<Expr<'a>, Halt>
    ensures gives { Reads expr_view result tokens.new
        (member_at row depth (cursor_view tokens.old)) }
    ensures shorter { IfOk result (λ _. IsShorter tokens.new tokens.old) }
{
    match row {
        Operation::Product => factor(alloc, tokens, depth),
        Operation::Sum => row_expr(alloc, tokens, depth, Operation::Product),
    }
}

/// `[ "*" factor ]`, or `[ "+" term ]`
#[cycle(expressions)]
#[tactic(auto, unfolding(crate::specs::Rows::next_member_at))]
fn next_member<'a>(
    alloc: Global,
    tokens: &mut Cursor<'a>,
    depth: u8,
    row: Operation,
) -> Result<Option<Expr<'a>>, Halt>
    ensures gives { ReadsNext expr_view result tokens.new
        (next_member_at row depth (cursor_view tokens.old)) }
    ensures shorter { IfOk result (λ o. Shortens o tokens.new tokens.old) }
{
    if !after_sign(tokens, sign_of(row)) {
        return Ok(None);
    }
    let member = member(alloc, tokens, depth, row)?;
    Ok(Some(member))
}

/// `factor { "*" factor }`, or `term { "+" term }`, as one expression
#[cycle(expressions)]
fn row_expr<'a>(
    alloc: Global,
    tokens: &mut Cursor<'a>,
    depth: u8,
    row: Operation,
) -> Result<Expr<'a>, Halt>
    ensures gives { Reads expr_view result tokens.new
        (joined_at row depth (cursor_view tokens.old)) }
    ensures shorter { IfOk result (λ _. IsShorter tokens.new tokens.old) }
{
    let first = member(alloc, tokens, depth, row)?;
    let next = next_member(alloc, tokens, depth, row)?;
    let Some(second) = next else {
        return Ok(first);
    };
    let mut members = two_members(alloc, first, second)?;
    'more: while let Some(member) = next_member(alloc, tokens, depth, row)? {
        members.push(member)?;
    }
    Ok(as_one(row, members))
}

/// `term { "+" term }`, as one expression
#[cycle(expressions)]
#[tactic(auto, unfolding(crate::specs::Rows::joined_at, crate::specs::Rows::members_at, crate::specs::Rows::next_member_at, crate::specs::Descent::expr_at, crate::specs::Descent::terms_at, crate::specs::Descent::next_term_at))]
pub fn expr<'a>(alloc: Global, tokens: &mut Cursor<'a>, depth: u8) -> Result<Expr<'a>, Halt>
    ensures gives { Reads expr_view result tokens.new (expr_at depth (cursor_view tokens.old)) }
    ensures shorter { IfOk result (λ _. IsShorter tokens.new tokens.old) }
{
    row_expr(alloc, tokens, depth, Operation::Sum)
}
