//! The parts of a statement that stand in lists.

use crate::cursor::{Halt, after_keyword, after_sign, keyword, word};
use crate::expressions::{MOST_OPEN, expr};
use crate::listed::{Member, Separator, eight_members};
use crate::nodes::name;
use crate::syntax::{Arg, BlockExpr, DestExpr, EntryExpr, NameExpr, Param, PieceExpr};
use dn_token::cursor::Cursor;
use dn_token::token::{Keyword, Sign};
use std::alloc::Global;

/// The most that may be opened inside the parentheses of a `use`.
const MOST_INSIDE: u8 = 31;

/// `expr [ "-" expr ]`
impl<'a> Member<'a> for BlockExpr<'a> {
    ghost use Rattle.dn_parse.specs.Tree.{Block};
    ghost use Rattle.dn_parse.specs.Views.{block_view};
    ghost use Rattle.dn_parse.specs.Descent.{block_at};

    ghost Tree = { Block };

    ghost view = { block_view };

    ghost read_at = { block_at };

    #[tactic(auto, unfolding(crate::specs::Descent::block_at, crate::specs::Descent::upper_at))]
    fn read(alloc: Global, tokens: &mut Cursor<'a>) -> Result<BlockExpr<'a>, Halt> {
        let lo = expr(alloc, tokens, MOST_OPEN)?;
        if !after_sign(tokens, Sign::Minus) {
            return Ok(BlockExpr { lo, hi: None });
        }
        let hi = expr(alloc, tokens, MOST_OPEN)?;
        Ok(BlockExpr { lo, hi: Some(hi) })
    }
}

/// `name [ "at" expr ]`
impl<'a> Member<'a> for DestExpr<'a> {
    ghost use Rattle.dn_parse.specs.Tree.{Dest};
    ghost use Rattle.dn_parse.specs.Views.{dest_view};
    ghost use Rattle.dn_parse.specs.Descent.{dest_at};

    ghost Tree = { Dest };

    ghost view = { dest_view };

    ghost read_at = { dest_at };

    #[tactic(auto, unfolding(crate::specs::Descent::dest_at, crate::specs::Descent::addr_at))]
    fn read(alloc: Global, tokens: &mut Cursor<'a>) -> Result<DestExpr<'a>, Halt> {
        let name = name(alloc, tokens, MOST_OPEN)?;
        if !after_keyword(tokens, Keyword::At) {
            return Ok(DestExpr { name, addr: None });
        }
        let addr = expr(alloc, tokens, MOST_OPEN)?;
        Ok(DestExpr {
            name,
            addr: Some(addr),
        })
    }
}

/// `block "to" dest { "and" dest }`, with at most eight: a ninth is left where it stands.
impl<'a> Member<'a> for EntryExpr<'a> {
    ghost use Rattle.dn_parse.specs.Tree.{Entry};
    ghost use Rattle.dn_parse.specs.Views.{entry_view};
    ghost use Rattle.dn_parse.specs.Descent.{entry_at};

    ghost Tree = { Entry };

    ghost view = { entry_view };

    ghost read_at = { entry_at };

    #[tactic(auto, unfolding(crate::specs::Descent::entry_at, crate::specs::Descent::dests_at, crate::specs::Descent::next_dest_at))]
    fn read(alloc: Global, tokens: &mut Cursor<'a>) -> Result<EntryExpr<'a>, Halt> {
        let block = BlockExpr::read(alloc, tokens)?;
        keyword(tokens, Keyword::To)?;
        let dests = eight_members(alloc, tokens, Separator::And)?;
        Ok(EntryExpr { block, dests })
    }
}

/// `"num" word | "node" word`
impl<'a> Member<'a> for Param<'a> {
    ghost use Rattle.dn_parse.specs.Tree.{Param as Parameter};
    ghost use Rattle.dn_parse.specs.Views.{param_view};
    ghost use Rattle.dn_parse.specs.Descent.{param_at};

    ghost Tree = { Parameter };

    ghost view = { param_view };

    ghost read_at = { param_at };

    #[tactic(auto, unfolding(crate::specs::Descent::param_at))]
    fn read(alloc: Global, tokens: &mut Cursor<'a>) -> Result<Param<'a>, Halt> {
        if !after_keyword(tokens, Keyword::Num) {
            keyword(tokens, Keyword::Node)?;
            let name = word(tokens)?;
            return Ok(Param::Node(name));
        }
        let name = word(tokens)?;
        Ok(Param::Num(name))
    }
}

/// `expr | "node" name`
impl<'a> Member<'a> for Arg<'a> {
    ghost use Rattle.dn_parse.specs.Tree.{Arg as Argument};
    ghost use Rattle.dn_parse.specs.Views.{arg_view};
    ghost use Rattle.dn_parse.specs.Descent.{arg_at};

    ghost Tree = { Argument };

    ghost view = { arg_view };

    ghost read_at = { arg_at };

    #[tactic(auto, unfolding(crate::specs::Descent::arg_at))]
    fn read(alloc: Global, tokens: &mut Cursor<'a>) -> Result<Arg<'a>, Halt> {
        if !after_keyword(tokens, Keyword::Node) {
            let value = expr(alloc, tokens, MOST_INSIDE)?;
            return Ok(Arg::Num(value));
        }
        let node = name(alloc, tokens, MOST_INSIDE)?;
        Ok(Arg::Node(node))
    }
}

/// A name of a port.
impl<'a> Member<'a> for NameExpr<'a> {
    ghost use Rattle.std.specs.Prelude.{List};
    ghost use Rattle.dn_parse.specs.Tree.{Part};
    ghost use Rattle.dn_parse.specs.Views.{name_view};
    ghost use Rattle.dn_parse.specs.Descent.{name_at};

    ghost Tree = { List Part };

    ghost view = { name_view };

    ghost read_at = { name_at 32 };

    fn read(alloc: Global, tokens: &mut Cursor<'a>) -> Result<NameExpr<'a>, Halt> {
        name(alloc, tokens, MOST_OPEN)
    }
}

/// `word name expr expr`
impl<'a> Member<'a> for PieceExpr<'a> {
    ghost use Rattle.dn_parse.specs.Tree.{Piece};
    ghost use Rattle.dn_parse.specs.Views.{piece_view};
    ghost use Rattle.dn_parse.specs.Descent.{piece_at};

    ghost Tree = { Piece };

    ghost view = { piece_view };

    ghost read_at = { piece_at };

    #[tactic(auto, unfolding(crate::specs::Descent::piece_at))]
    fn read(alloc: Global, tokens: &mut Cursor<'a>) -> Result<PieceExpr<'a>, Halt> {
        let id = word(tokens)?;
        let node = name(alloc, tokens, MOST_OPEN)?;
        let base = expr(alloc, tokens, MOST_OPEN)?;
        let size = expr(alloc, tokens, MOST_OPEN)?;
        Ok(PieceExpr {
            id,
            node,
            base,
            size,
        })
    }
}
