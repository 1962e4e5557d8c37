//! A cursor over the tokens of a text, of which none is kept.

ghost use Rattle.std.specs.Prelude.{◌≡◌, ◌+◌, ◌^◌, ◌<◌, length, true};
ghost use Rattle.dn_token.specs.Going.{tokens_of};
ghost use Rattle.dn_token.specs.Token.{tokens};
ghost use Rattle.dn_token.specs.Ahead.{is_good, ahead, how_many};

use crate::lexer::next_token;
use crate::token::{Lexeme, Token};

/// A place before a token of a text that has no bad place, or at its end. Contracts see it as the
/// tokens that are still to come.
#[derive(Clone, Copy)]
pub struct Cursor<'a> {
    /// What the next token says, where there is one.
    front: Option<Lexeme<'a>>,
    /// The line in which the next token begins.
    line: u32,
    /// How many tokens are still to come.
    left: u32,
    /// What follows the next token.
    rest: &'a [u8],
    ghost good: { is_good (tokens_of line rest.now) ≡ true },
    ghost counted: { left ≡ length (ahead front line rest.now) },
    ghost short: { line + length rest.now < 2 ^ 32 },
}

impl<'a> Cursor<'a> {
    ghost use Rattle.std.specs.Prelude.{[], ◌∷◌, Some, MatchOption};
    ghost use Rattle.dn_base.specs.Answers.{Answers};
    ghost use Rattle.dn_token.specs.Lexing.{token_view};
    ghost use Rattle.dn_token.specs.Ahead.{good_tokens};
    ghost use Rattle.dn_token.specs.Cursor.{cursor_view, behind_view};

    /// The place before the first token of a text, or the line of the first bad place. The caller
    /// keeps the text short enough for its lines to fit.
    pub fn new(text: &'a [u8]) -> Result<Cursor<'a>, u32>
        requires { length text.now + 1 < 2 ^ 32 }
        ensures { Answers cursor_view (λ line. Some line) result (tokens text.now) }
    {
        let left = count(text)?;
        Ok(Cursor::at(text, 1, left))
    }

    /// The place before the first token of a text that begins in this line and has so many.
    #[inline(always)]
    fn at(text: &'a [u8], line: u32, left: u32) -> Cursor<'a>
        requires good { is_good (tokens_of line text.now) ≡ true }
        requires counted { left ≡ length (good_tokens (tokens_of line text.now)) }
        requires short { line + length text.now < 2 ^ 32 }
        ensures { cursor_view result ≡ good_tokens (tokens_of line text.now) }
    {
        let Ok(next) = next_token(text, line) else {
            unreachable!()
        };
        let Some((token, rest)) = next else {
            return Cursor {
                front: None,
                line,
                left,
                rest: text,
            };
        };
        Cursor {
            front: Some(token.lexeme),
            line: token.line,
            left,
            rest,
        }
    }

    /// The next token.
    #[inline(always)]
    pub fn peek(self) -> Option<Token<'a>>
        ensures { MatchOption result (cursor_view self.entry ≡ [])
            (λ t. cursor_view self.entry ≡ token_view t ∷ behind_view self.entry) }
    {
        match self.front {
            Some(lexeme) => Some(Token {
                lexeme,
                line: self.line,
            }),
            None => None,
        }
    }

    /// The place behind the next token.
    #[inline(always)]
    pub fn advance(self) -> Cursor<'a>
        requires { 0 < length (cursor_view self) }
        ensures { cursor_view result ≡ behind_view self.entry }
    {
        Cursor::at(self.rest, self.line, self.left - 1)
    }

    /// Goes on behind the next token.
    #[inline(never)]
    pub fn step(&mut self)
        requires { 0 < length (cursor_view self.old) }
        ensures { cursor_view self.new ≡ behind_view self.old }
    {
        *self = self.advance();
    }

    /// How many tokens are still to come.
    pub fn left(self) -> u32
        ensures { result ≡ length (cursor_view self.entry) }
    {
        self.left
    }
}

/// How many tokens a text has, or the line of its first bad place.
fn count(text: &[u8]) -> Result<u32, u32>
    requires { length text.now + 1 < 2 ^ 32 }
    ensures { result ≡ how_many (tokens text.now) }
{
    let mut count = 0;
    let mut line = 1;
    let mut rest = text;
    'text: while let Some((token, after)) = next_token(rest, line)? {
        count += 1;
        line = token.line;
        rest = after;
    }
    Ok(count)
}
