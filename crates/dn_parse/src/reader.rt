//! The reading of a whole text: its tree, or the first fault with its line.

ghost use Rattle.std.specs.Prelude.{◌≡◌, ◌∷◌, [], ◌+◌, ◌^◌, ◌<◌, List, ℕ, length, true, false, Some, Ok, Err, IfSome, IfOk, IfErr, MatchOption, MatchResult};
ghost use Rattle.dn_token.specs.Terms.{cursor_view};
ghost use Rattle.dn_token.specs.Token.{Token as SpecToken};
ghost use Rattle.dn_parse.specs.declared.blocks.Trouble.TheVariants.{Misplaced as MisplacedAt};
ghost use Rattle.dn_parse.specs.Terms.{IsShorter, Places, at_stop, blocks_view, first_line, halt_fault, judge, last_line, line_at, misplaced_fault, no_blocks_yet, parse_fault_view, script_view, text_reading, tree_view, trouble_view, whole, with_commands};
ghost use Rattle.dn_base.specs.Terms.{Answers};

use crate::blocks::{Blocks, Misplaced, Trouble};
use crate::cursor::{Halt, at_node, first_line};
use crate::script::Script;
use crate::statements::{whole_node, whole_statement};
use crate::syntax::Tree;
use dn_token::cursor::Cursor;
use std::alloc::Global;
use thiserror::Error;

/// Why a text is not read: the first fault, with its line, counted from 1.
#[derive(Clone, Copy, Debug, PartialEq, Eq, Error)]
pub enum ParseFault {
    /// The text has more than 4,194,304 bytes.
    #[error("Length")]
    Length,
    /// The text is no list of tokens: the first bad place.
    #[error("Token")]
    Token { line: u32 },
    /// The first token that no form of a statement allows there, or the end of the text inside one.
    #[error("Statement")]
    Statement { line: u32 },
    /// A whole statement stands where it is forbidden, or a block is open at the end of the text.
    #[error("Block")]
    Block { line: u32 },
    /// A 33rd open parenthesis, or a 17th open block.
    #[error("Nesting")]
    Nesting { line: u32 },
    /// There was no memory for the tree.
    #[error("OutOfMemory")]
    OutOfMemory,
}

/// The most bytes that a text may have.
const MAX_TEXT: usize = 4_194_304;

/// Reads a text.
pub fn read<'a>(alloc: Global, text: &'a [u8]) -> Result<Tree<'a>, ParseFault>
    ensures { Answers tree_view parse_fault_view result (text_reading text.now) }
{
    if text.len() > MAX_TEXT {
        return Err(ParseFault::Length);
    }
    match Cursor::new(text) {
        Ok(tokens) => statements(alloc, tokens, text),
        Err(line) => Err(ParseFault::Token { line }),
    }
}

/// The first byte, and those after it.
fn first(text: &[u8]) -> Option<(u8, &[u8])>
    ensures { MatchOption result (text.now ≡ []) (λ found. text.now ≡ found.0 ∷ found.1.now) }
{
    match text {
        [] => None,
        [byte, rest @ ..] => Some((*byte, rest)),
    }
}

/// The line of the end of a text.
#[tactic(auto, unfolding(crate::specs::Whole::last_line))]
fn last_line(text: &[u8]) -> u32
    requires { length text.now + 1 < 2 ^ 32 }
    ensures { result ≡ last_line text.now }
{
    let mut line = 1;
    let mut rest = text;
    'text: while let Some((byte, after)) = first(rest) {
        if byte == b'\n' {
            line += 1;
        }
        rest = after;
    }
    line
}

/// The line of the token with so many left from it on, or that of the end of the text.
fn line_at<'a>(tokens: Cursor<'a>, text: &[u8], left: u32) -> u32
    requires { length text.now + 1 < 2 ^ 32 }
    ensures { result ≡ line_at (last_line text.now) (cursor_view tokens.entry) left }
{
    let mut rest = tokens;
    'tokens: while let Some(token) = rest.peek() {
        if rest.left() <= left {
            return token.line;
        }
        rest = rest.advance();
    }
    last_line(text)
}

/// The fault of a reading of a text that stops.
fn fault_of<'a>(halt: Halt, tokens: Cursor<'a>, text: &[u8]) -> ParseFault
    requires { length text.now + 1 < 2 ^ 32 }
    ensures { parse_fault_view result
        ≡ halt_fault halt (last_line text.now) (cursor_view tokens.entry) }
{
    match halt {
        Halt::Refused(left) => ParseFault::Statement {
            line: line_at(tokens, text, left),
        },
        Halt::Deep(left) => ParseFault::Nesting {
            line: line_at(tokens, text, left),
        },
        Halt::OutOfMemory => ParseFault::OutOfMemory,
    }
}

/// The fault of a statement that is misplaced.
fn misplaced_fault(misplaced: Misplaced, line: u32) -> ParseFault
    ensures { parse_fault_view result ≡ misplaced_fault misplaced line }
{
    match misplaced {
        Misplaced::Forbidden => ParseFault::Block { line },
        Misplaced::Crowded => ParseFault::Nesting { line },
        Misplaced::OutOfMemory => ParseFault::OutOfMemory,
    }
}

/// What a call that puts a statement comes to, where the statement begins in this line.
fn in_line(put: Result<(), Misplaced>, line: u32) -> Result<(), Trouble>
    ensures { MatchResult put (λ u. result ≡ Ok u) (λ m. result ≡ Err (MisplacedAt m line)) }
{
    match put {
        Ok(()) => Ok(()),
        Err(misplaced) => Err(Trouble::Misplaced(misplaced, line)),
    }
}

/// Puts the next statement into the blocks, which begins in this line and stands before the commands.
fn put_next<'a>(
    alloc: Global,
    blocks: &mut Blocks<'a>,
    tokens: &mut Cursor<'a>,
    line: u32,
) -> Result<(), Trouble>
    requires begins { first_line (cursor_view tokens.old) ≡ Some line }
    requires before { blocks.old.begun ≡ false }
    ensures placed { Places (λ _. blocks_view blocks.new) result (cursor_view tokens.new)
        (blocks_view blocks.old) (cursor_view tokens.old) }
    ensures shorter { IfOk result (λ _. IsShorter tokens.new tokens.old) }
{
    if at_node(tokens) {
        return match whole_node(alloc, tokens) {
            Err(halt) => Err(Trouble::Halted(halt)),
            Ok(decl) => in_line(blocks.put_node(line, decl), line),
        };
    }
    match whole_statement(alloc, tokens) {
        Err(halt) => Err(Trouble::Halted(halt)),
        Ok(statement) => in_line(blocks.put(alloc, line, statement), line),
    }
}

/// The blocks that the tokens come to, up to `begin` or to their end.
fn blocks_before<'a>(alloc: Global, tokens: &mut Cursor<'a>) -> Result<Blocks<'a>, Trouble>
    ensures placed { Places blocks_view result (cursor_view tokens.new)
        no_blocks_yet (cursor_view tokens.old) }
    ensures ended { IfOk result (λ b. b.begun ≡ false → cursor_view tokens.new ≡ []) }
{
    let mut blocks = Blocks::none(alloc);
    'statements: while !blocks.begun {
        let Some(line) = first_line(tokens) else {
            return Ok(blocks);
        };
        put_next(alloc, &mut blocks, tokens, line)?;
    }
    Ok(blocks)
}

/// The blocks and the commands that the tokens come to.
fn all_placed<'a>(alloc: Global, tokens: Cursor<'a>) -> Result<(Blocks<'a>, Script<'a>), Trouble>
    ensures ok { IfOk result (λ p. (last : ℕ) (all : List SpecToken) →
        judge last all no_blocks_yet (cursor_view tokens.entry)
        ≡ at_stop whole last all (with_commands (blocks_view p.0) (script_view p.1))) }
    ensures err { IfErr result (λ e. (last : ℕ) (all : List SpecToken) →
        IfSome (trouble_view e last all)
        (λ f. judge last all no_blocks_yet (cursor_view tokens.entry) ≡ Err f)) }
{
    let mut rest = tokens;
    let blocks = blocks_before(alloc, &mut rest)?;
    if !blocks.begun {
        return Ok((blocks, Script::none(rest)));
    }
    let commands = Script::new(alloc, rest)?;
    Ok((blocks, commands))
}

/// The tree, where no block is open at the end of the text.
fn finished_tree<'a>(
    blocks: Blocks<'a>,
    commands: Script<'a>,
    text: &[u8],
) -> Result<Tree<'a>, ParseFault>
    requires { length text.now + 1 < 2 ^ 32 }
    ensures { (all : List SpecToken) → Answers tree_view parse_fault_view result
        (at_stop whole (last_line text.now) all
        (with_commands (blocks_view blocks.entry) (script_view commands.entry))) }
{
    if !blocks.frames.is_empty() {
        let line = last_line(text);
        return Err(ParseFault::Block { line });
    }
    Ok(Tree {
        body: blocks.body,
        commands,
    })
}

/// The tree of a text's tokens, or its first fault.
fn statements<'a>(alloc: Global, tokens: Cursor<'a>, text: &[u8]) -> Result<Tree<'a>, ParseFault>
    requires { length text.now + 1 < 2 ^ 32 }
    ensures { Answers tree_view parse_fault_view result (judge (last_line text.now)
        (cursor_view tokens.entry) no_blocks_yet (cursor_view tokens.entry)) }
{
    match all_placed(alloc, tokens) {
        Ok((blocks, commands)) => finished_tree(blocks, commands, text),
        Err(Trouble::Halted(halt)) => Err(fault_of(halt, tokens, text)),
        Err(Trouble::Misplaced(misplaced, line)) => Err(misplaced_fault(misplaced, line)),
    }
}
