//! The commands of a text, of which none is kept.

ghost use Rattle.std.specs.Prelude.{◌≡◌, [], length, IsTrue};
ghost use Rattle.dn_token.specs.Terms.{cursor_view};
ghost use Rattle.dn_parse.specs.Commands.{commands_from};
ghost use Rattle.dn_parse.specs.Plain.{are_plain, is_plain_order};

use crate::blocks::{Misplaced, Trouble};
use crate::cursor::{Halt, first_line};
use crate::plain::is_plain;
use crate::statements::command;
use crate::syntax::Cmd;
use dn_token::cursor::Cursor;
use std::alloc::{AllocError, Global};

/// The commands of a text, each of which is read from the text again when they are walked. They
/// were all read once, so only memory can be wanted. Contracts see them as their list.
#[derive(Clone, Copy)]
pub struct Script<'a> {
    /// The place before the first of them.
    first: Cursor<'a>,
    /// How many there are.
    count: u32,
    /// Whether each of them is plain, as far as was looked.
    plain: bool,
    ghost read: { length (commands_from count (cursor_view first)) ≡ count },
    ghost known: { IsTrue plain → IsTrue (are_plain (commands_from count (cursor_view first))) },
}

impl<'a> Script<'a> {
    ghost use Rattle.std.specs.Prelude.{ℕ, ◌∷◌, List, true, Some, Err, IfSome, IfOk, IfErr, MatchOption, option_map};
    ghost use Rattle.dn_token.specs.Token.{Token as SpecToken};
    ghost use Rattle.dn_parse.specs.Machine.{whole};
    ghost use Rattle.dn_parse.specs.Whole.{Blocks as SpecBlocks, first_line, at_stop, judge};
    ghost use Rattle.dn_parse.specs.Commands.{next_command, with_commands};
    ghost use Rattle.dn_parse.specs.Faults.{trouble_view, IsShorter};
    ghost use Rattle.dn_parse.specs.Views.{command_view};
    ghost use Rattle.dn_parse.specs.Script.{script_view};

    /// No command.
    pub(crate) fn none(tokens: Cursor<'a>) -> Script<'a>
        ensures { script_view result ≡ [] }
    {
        Script {
            first: tokens,
            count: 0,
            plain: true,
        }
    }

    /// The commands that these tokens are up to their end, behind `begin`, or why they are none.
    pub(crate) fn new(alloc: Global, tokens: Cursor<'a>) -> Result<Script<'a>, Trouble>
        ensures ok { IfOk result (λ s. (last : ℕ) (all : List SpecToken) (b : SpecBlocks) →
            b.begun ≡ true → judge last all b (cursor_view tokens.entry)
            ≡ at_stop whole last all (with_commands b (script_view s))) }
        ensures err { IfErr result (λ e. (last : ℕ) (all : List SpecToken) (b : SpecBlocks) →
            b.begun ≡ true → IfSome (trouble_view e last all)
            (λ f. judge last all b (cursor_view tokens.entry) ≡ Err f)) }
    {
        let mut count = 0;
        let mut plain = true;
        let mut rest = tokens;
        'commands: while let Some(line) = first_line(&rest) {
            let one = Script::pass_command(alloc, &mut rest, line)?;
            plain &= one;
            count += 1;
        }
        Ok(Script {
            first: tokens,
            count,
            plain,
        })
    }

    /// Goes on behind the next command, which begins in this line, and tells whether it is plain; or says
    /// why no command stands there.
    fn pass_command(alloc: Global, tokens: &mut Cursor<'a>, line: u32) -> Result<bool, Trouble>
        requires { first_line (cursor_view tokens.old) ≡ Some line }
        ensures ok { IfOk result (λ _.
            option_map (λ c. c.1) (next_command (cursor_view tokens.old))
            ≡ Some (cursor_view tokens.new)) }
        ensures plain { IfOk result (λ p.
            option_map (λ c. is_plain_order c.0.order) (next_command (cursor_view tokens.old))
            ≡ Some p) }
        ensures shorter { IfOk result (λ _. IsShorter tokens.new tokens.old) }
        ensures err { IfErr result (λ e. (last : ℕ) (all : List SpecToken) (b : SpecBlocks) →
            b.begun ≡ true → IfSome (trouble_view e last all)
            (λ f. judge last all b (cursor_view tokens.old) ≡ Err f)) }
    {
        match command(alloc, tokens, line) {
            Ok(Some(found)) => {
                let plain = is_plain(&found.order);
                drop(found);
                Ok(plain)
            }
            Ok(None) => Err(Trouble::Misplaced(Misplaced::Forbidden, line)),
            Err(halt) => Err(Trouble::Halted(halt)),
        }
    }

    /// Whether each command is plain, where that is known: each expression of it is a number, indices of
    /// names among them.
    pub fn is_plain(self) -> bool
        ensures { IsTrue result → IsTrue (are_plain (script_view self.entry)) }
    {
        self.plain
    }

    /// How many commands there are.
    pub fn len(self) -> u32
        ensures { result ≡ length (script_view self.entry) }
    {
        self.count
    }

    /// The first command and those after it, or nothing where there is none. It takes as long as
    /// that command has tokens.
    ///
    /// # Errors
    ///
    /// `AllocError` for want of memory.
    pub fn next(self, alloc: Global) -> Result<Option<(Cmd<'a>, Script<'a>)>, AllocError>
        ensures { IfOk result (λ o. MatchOption o (script_view self.entry ≡ [])
            (λ p. script_view self.entry ≡ command_view p.0 ∷ script_view p.1)) }
    {
        if self.count == 0 {
            return Ok(None);
        }
        let Some(line) = first_line(&self.first) else {
            unreachable!()
        };
        let mut rest = self.first;
        match command(alloc, &mut rest, line) {
            Ok(Some(command)) => Ok(Some((
                command,
                Script {
                    first: rest,
                    count: self.count - 1,
                    plain: self.plain,
                },
            ))),
            Ok(None) => unreachable!(),
            Err(halt) => {
                let Halt::OutOfMemory = halt else {
                    unreachable!()
                };
                Err(AllocError)
            }
        }
    }
}
