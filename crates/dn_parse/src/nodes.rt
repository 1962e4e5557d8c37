//! Names, and the parts of a node.

ghost use Rattle.std.specs.Prelude.{◌≡◌, ◌<◌, [], ◌∷◌, map, IfOk};
ghost use Rattle.dn_token.specs.Terms.{cursor_view};
ghost use Rattle.dn_parse.specs.Terms.{IsNoLonger, IsShorter, Reads, block_view, entry_view, index_at, index_view, maybe_name_view, name_at, name_view, over_at, part_at, part_view, spec_at, spec_view};

use crate::cursor::{Halt, after_keyword, after_sign, sign, word};
use crate::expressions::{MOST_OPEN, expr};
use crate::few::Few;
use crate::listed::bracketed_after;
use crate::syntax::{BlockExpr, EntryExpr, Expr, NameExpr, PartExpr, Spec};
use dn_base::items::Items;
use dn_token::cursor::Cursor;
use dn_token::token::{Keyword, Sign};
use std::alloc::{AllocError, Global};

/// `[ "[" expr "]" ]`, where so many parentheses may still be opened
#[tactic(auto, unfolding(crate::specs::Descent::index_at))]
fn index<'a>(
    alloc: Global,
    tokens: &mut Cursor<'a>,
    depth: u8,
) -> Result<Option<Box<Expr<'a>>>, Halt>
    ensures gives { Reads index_view result tokens.new (index_at depth (cursor_view tokens.old)) }
    ensures shorter { IfOk result (λ _. IsNoLonger tokens.new tokens.old) }
{
    if !after_sign(tokens, Sign::OpenBracket) {
        return Ok(None);
    }
    let index = expr(alloc, tokens, depth)?;
    sign(tokens, Sign::CloseBracket)?;
    Ok(Some(Box::new(alloc, index)?))
}

/// `word [ "[" expr "]" ]`
#[inline(always)]
#[tactic(auto, unfolding(crate::specs::Descent::part_at))]
fn part<'a>(alloc: Global, tokens: &mut Cursor<'a>, depth: u8) -> Result<PartExpr<'a>, Halt>
    ensures gives { Reads part_view result tokens.new (part_at depth (cursor_view tokens.old)) }
    ensures shorter { IfOk result (λ _. IsShorter tokens.new tokens.old) }
{
    let title = word(tokens)?;
    let index = index(alloc, tokens, depth)?;
    Ok(PartExpr { title, index })
}

/// `part { "." part }`
pub fn name<'a>(alloc: Global, tokens: &mut Cursor<'a>, depth: u8) -> Result<NameExpr<'a>, Halt>
    ensures gives { Reads name_view result tokens.new (name_at depth (cursor_view tokens.old)) }
    ensures shorter { IfOk result (λ _. IsShorter tokens.new tokens.old) }
{
    let first = part(alloc, tokens, depth)?;
    let mut parts = Few::of(first);
    'parts: while after_sign(tokens, Sign::Dot) {
        let part = part(alloc, tokens, depth)?;
        parts = parts.with(alloc, part)?;
    }
    Ok(parts)
}

/// `[ "over" name ]`
#[tactic(auto, unfolding(crate::specs::Descent::over_at))]
fn over<'a>(alloc: Global, tokens: &mut Cursor<'a>) -> Result<Option<NameExpr<'a>>, Halt>
    ensures gives { Reads maybe_name_view result tokens.new (over_at (cursor_view tokens.old)) }
{
    if !after_keyword(tokens, Keyword::Over) {
        return Ok(None);
    }
    let name = name(alloc, tokens, MOST_OPEN)?;
    Ok(Some(name))
}

/// The parts of a node, where there is one.
fn some_parts<'a>(
    alloc: Global,
    accepts: Items<BlockExpr<'a>>,
    entries: Items<EntryExpr<'a>>,
    over: Option<NameExpr<'a>>,
) -> Result<Option<Box<Spec<'a>>>, AllocError>
    ensures { IfOk result (λ s. spec_view s ≡ record {
      accepts = map block_view accepts.entry;
      entries = map entry_view entries.entry;
      over = maybe_name_view over.entry;
    }) }
{
    if accepts.as_slice().is_empty() && entries.as_slice().is_empty() && over.is_none() {
        return Ok(None);
    }
    let spec = Spec {
        accepts,
        entries,
        over,
    };
    Ok(Some(Box::new(alloc, spec)?))
}

/// `[ accept ] [ map ] [ over ]`
#[tactic(auto, unfolding(crate::specs::Descent::spec_at, crate::specs::Descent::accept_at, crate::specs::Descent::blocks_at, crate::specs::Descent::next_block_at, crate::specs::Descent::map_at, crate::specs::Descent::entries_at, crate::specs::Descent::next_entry_at))]
pub fn spec<'a>(alloc: Global, tokens: &mut Cursor<'a>) -> Result<Option<Box<Spec<'a>>>, Halt>
    ensures gives { Reads spec_view result tokens.new (spec_at (cursor_view tokens.old)) }
{
    let accepts = bracketed_after(alloc, tokens, Keyword::Accept)?;
    let entries = bracketed_after(alloc, tokens, Keyword::Map)?;
    let over = over(alloc, tokens)?;
    Ok(some_parts(alloc, accepts, entries, over)?)
}
