//! Parts of one sort, one behind another.

ghost use Rattle.std.specs.Prelude.{◌≡◌, ◌<◌, [], ◌∷◌, true, map, IfOk};
ghost use Rattle.dn_token.specs.Terms.{cursor_view};
ghost use Rattle.dn_parse.specs.Terms.{GoesOn, IsShorter, Reads, after_separator, bracketed_at, by_commas, closed_at, first_and_most, in_brackets, one_behind};

use crate::cursor::{Halt, after_keyword, after_sign, sign};
use dn_base::items::Items;
use dn_token::cursor::Cursor;
use dn_token::token::{Keyword, Sign};
use std::alloc::{AllocError, Global};

/// A part of which one or more may stand one behind another.
pub(crate) trait Member<'a>: Drop {
    ghost use Rattle.std.specs.Prelude.{IfOk};
    ghost use Rattle.dn_token.specs.Cursor.{cursor_view};
    ghost use Rattle.dn_parse.specs.Descent.{Reader};
    ghost use Rattle.dn_parse.specs.Faults.{Reads, IsShorter};

    /// What it is in the tree.
    ghost Tree: { Type 0 };
    /// The part in the tree.
    ghost view: { Self → Tree };
    /// How it is read.
    ghost read_at: { Reader Tree };

    /// Reads one.
    fn read(alloc: Global, tokens: &mut Cursor<'a>) -> Result<Self, Halt>
        ensures gives { Reads view result tokens.new (read_at (cursor_view tokens.old)) }
        ensures shorter { IfOk result (λ _. IsShorter tokens.new tokens.old) };
}

/// One or more, with a `,` between two of them.
fn members<'a, M: Member<'a>>(alloc: Global, tokens: &mut Cursor<'a>) -> Result<Items<M>, Halt>
    ensures gives { Reads (map M.view) result tokens.new
        (by_commas M.read_at (cursor_view tokens.old)) }
    ensures shorter { IfOk result (λ _. IsShorter tokens.new tokens.old) }
{
    let first = M::read(alloc, tokens)?;
    let mut members = Items::new(alloc);
    members.push(first)?;
    'list: while after_sign(tokens, Sign::Comma) {
        let member = M::read(alloc, tokens)?;
        members.push(member)?;
    }
    Ok(members)
}

/// `"[" part { "," part } "]"`
#[inline(never)]
fn bracketed<'a, M: Member<'a>>(alloc: Global, tokens: &mut Cursor<'a>) -> Result<Items<M>, Halt>
    ensures { Reads (map M.view) result tokens.new
        (in_brackets (by_commas M.read_at) (cursor_view tokens.old)) }
{
    sign(tokens, Sign::OpenBracket)?;
    let members = members(alloc, tokens)?;
    sign(tokens, Sign::CloseBracket)?;
    Ok(members)
}

/// `[ word "[" part { "," part } "]" ]`, for this reserved word
pub(crate) fn bracketed_after<'a, M: Member<'a>>(
    alloc: Global,
    tokens: &mut Cursor<'a>,
    word: Keyword,
) -> Result<Items<M>, Halt>
    ensures { Reads (map M.view) result tokens.new
        (bracketed_at word M.read_at (cursor_view tokens.old)) }
{
    if !after_keyword(tokens, word) {
        return Ok(Items::new(alloc));
    }
    bracketed(alloc, tokens)
}

/// `[ part { "," part } ] ")"`
pub(crate) fn closed_members<'a, M: Member<'a>>(
    alloc: Global,
    tokens: &mut Cursor<'a>,
) -> Result<Items<M>, Halt>
    ensures { Reads (map M.view) result tokens.new
        (closed_at M.read_at (cursor_view tokens.old)) }
{
    if after_sign(tokens, Sign::CloseParenthesis) {
        return Ok(Items::new(alloc));
    }
    let members = members(alloc, tokens)?;
    sign(tokens, Sign::CloseParenthesis)?;
    Ok(members)
}

/// What stands between two parts.
#[derive(Clone, Copy)]
pub enum Separator {
    Comma,
    And,
}

/// Whether this separator is the next token; it goes on behind it where it is.
fn after_separator<'a>(tokens: &mut Cursor<'a>, by: Separator) -> bool
    ensures gives { GoesOn result (cursor_view tokens.old) (cursor_view tokens.new)
        (after_separator by (cursor_view tokens.old)) }
    ensures shorter { result ≡ true → IsShorter tokens.new tokens.old }
{
    match by {
        Separator::Comma => after_sign(tokens, Sign::Comma),
        Separator::And => after_keyword(tokens, Keyword::And),
    }
}

/// One to eight, with this separator between two of them: a ninth is left where it stands.
pub(crate) fn eight_members<'a, M: Member<'a>>(
    alloc: Global,
    tokens: &mut Cursor<'a>,
    by: Separator,
) -> Result<Items<M>, Halt>
    ensures gives { Reads (map M.view) result tokens.new
        (first_and_most 7 M.read_at (one_behind by M.read_at) (cursor_view tokens.old)) }
    ensures shorter { IfOk result (λ _. IsShorter tokens.new tokens.old) }
{
    let first = M::read(alloc, tokens)?;
    let mut members = one_member(alloc, first)?;
    let mut left = 7_u8;
    'list: while left > 0 {
        if !after_separator(tokens, by) {
            return Ok(members);
        }
        let member = M::read(alloc, tokens)?;
        members.push(member)?;
        left -= 1;
    }
    Ok(members)
}

/// The list of one member, in just the memory that it needs: most lists have no second one.
fn one_member<M: Drop>(alloc: Global, member: M) -> Result<Items<M>, AllocError>
    ensures { IfOk result (λ members. members ≡ member ∷ []) }
{
    let mut members = Items::from_vec(Vec::with_capacity(alloc, 1)?);
    members.push(member)?;
    Ok(members)
}
