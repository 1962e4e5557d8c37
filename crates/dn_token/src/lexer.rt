//! The tokenizer: from the bytes of a text to its tokens.

ghost use Rattle.std.specs.Prelude.{◌≡◌, ◌+◌, ◌^◌, ◌<◌, [], ◌∷◌, length, map, IfSome, IfOk, MatchOption};
ghost use Rattle.std.specs.Str.{IsAscii};
ghost use Rattle.dn_token.specs.Terms.{after_comment, after_run, bad, begins_comment, first_and_rest, front_of, is_blank, is_digit, is_letter, lexeme_view, sign_front_of, sign_of, taken, token_fault_view, token_view, tokens, tokens_of, word_lexeme, word_run};
ghost use Rattle.dn_base.specs.Terms.{Answers};
ghost use Rattle.dn_token.specs.declared.lexer.TokenFault.TheVariants.{OutOfMemory as no_memory};

use crate::class::is_word_byte;
use crate::cursor::Cursor;
use crate::keyword::keyword_of;
use crate::number::number_front;
use crate::token::{Lexeme, Sign, Token};
use std::alloc::{AllocFailed, Global};
use thiserror::Error;

/// Why a text has no list of tokens.
#[derive(Clone, Copy, Debug, PartialEq, Eq, Error)]
pub enum TokenFault {
    /// The first bad place stands in this line, counted from 1.
    #[error("Bad")]
    Bad { line: u32 },
    /// There was no memory for the tokens.
    #[error("OutOfMemory")]
    OutOfMemory,
}

impl<T: Drop> From<AllocFailed<T>> for TokenFault {
    ghost from_gives = { λ _ e. e ≡ no_memory };

    fn from(_error: AllocFailed<T>) -> TokenFault {
        TokenFault::OutOfMemory
    }
}

/// The tokens of a text, whose words borrow it, or the line of its first bad place: a byte that
/// begins no token, or a number that is misspelled or past 2^64 - 1. The caller keeps the text
/// short enough for its lines to fit.
pub fn tokens<'a>(alloc: Global, text: &'a [u8]) -> Result<Vec<Token<'a>>, TokenFault>
    requires { length text.now + 1 < 2 ^ 32 }
    ensures { Answers (λ found. map token_view found.items) token_fault_view result
        (tokens text.now) }
{
    let first = match Cursor::new(text) {
        Ok(first) => first,
        Err(line) => return Err(TokenFault::Bad { line }),
    };
    let mut found = Vec::new(alloc);
    let mut rest = first;
    'text: while let Some(token) = rest.peek() {
        found.push(token)?;
        rest = rest.advance();
    }
    Ok(found)
}

/// The first token of a text that begins in this line, with what follows it, or the line of a bad
/// place that stands first.
#[inline(always)]
pub fn next_token<'a>(text: &'a [u8], line: u32) -> Result<Option<(Token<'a>, &'a [u8])>, u32>
    requires { line + length text.now < 2 ^ 32 }
    ensures gives { tokens_of line text.now ≡ first_and_rest result }
    ensures shorter { IfOk result (λ o. IfSome o (λ p. length p.1.now < length text.now)) }
    ensures lines { IfOk result (λ o. IfSome o (λ p.
        p.0.line + length p.1.now < line + length text.now)) }
{
    let mut line = line;
    let mut rest = text;
    'text: while let Some((byte, after)) = next(rest) {
        if byte == b'\n' {
            line += 1;
            rest = after;
        } else if is_blank(byte) {
            rest = after;
        } else if is_comment(rest) {
            rest = after_comment(after);
        } else {
            let Some((lexeme, after)) = front(rest) else {
                return Err(line);
            };
            return Ok(Some((Token { lexeme, line }, after)));
        }
    }
    Ok(None)
}

/// The first byte, and those after it.
#[inline(always)]
fn next(text: &[u8]) -> Option<(u8, &[u8])>
    ensures { MatchOption result (text.now ≡ []) (λ found. text.now ≡ found.0 ∷ found.1.now) }
{
    match text {
        [] => None,
        [byte, rest @ ..] => Some((*byte, rest)),
    }
}

#[inline(always)]
fn is_letter(byte: u8) -> bool
    ensures { result ≡ is_letter byte }
{
    matches!(byte, b'a'..=b'z' | b'A'..=b'Z' | b'_')
}

#[inline(always)]
fn is_digit(byte: u8) -> bool
    ensures { result ≡ is_digit byte }
{
    matches!(byte, b'0'..=b'9')
}

#[inline(always)]
fn is_blank(byte: u8) -> bool
    ensures { result ≡ is_blank byte }
{
    matches!(byte, b' ' | b'\t' | b'\r')
}

/// Whether a comment begins here.
#[inline(always)]
fn is_comment(text: &[u8]) -> bool
    ensures { result ≡ begins_comment text.now }
{
    matches!(text, [b'/', b'/', ..])
}

/// The next line feed and what follows it, or nothing.
fn after_comment(text: &[u8]) -> &[u8]
    ensures { result.now ≡ after_comment text.now }
{
    let mut length = 0;
    while length < text.len() && text[length] != b'\n' {
        length += 1;
    }
    &text[length..]
}

/// The longest run of letters, digits and `_`, and what follows it.
#[inline(always)]
fn split_run(text: &[u8]) -> (&[u8], &[u8])
    ensures run { result.0.now ≡ word_run text.now }
    ensures rest { result.1.now ≡ after_run text.now }
{
    let mut length = 0;
    while length < text.len() && is_word_byte(text[length]) {
        length += 1;
    }
    text.split_at(length)
}

/// The token at the front of a text that is not blank there, and what follows it.
#[inline(always)]
fn front<'a>(text: &'a [u8]) -> Option<(Lexeme<'a>, &'a [u8])>
    ensures seen { MatchOption result (front_of text.now ≡ bad)
        (λ found. front_of text.now ≡ taken (lexeme_view found.0) found.1.now) }
    ensures shorter { IfSome result (λ found. length found.1.now < length text.now) }
{
    let byte = *text.first()?;
    if is_letter(byte) {
        let (run, rest) = split_run(text);
        Some((word_lexeme(run), rest))
    } else if is_digit(byte) {
        let (number, rest) = number_front(text)?;
        Some((Lexeme::Number(number), rest))
    } else {
        sign_front(text)
    }
}

/// What a run is that begins with a letter.
#[inline(always)]
fn word_lexeme<'a>(run: &'a [u8]) -> Lexeme<'a>
    requires { IsAscii run.now }
    ensures { lexeme_view result ≡ word_lexeme run.now }
{
    // A run is ASCII, as the `requires` says.
    let word = unsafe { str::from_utf8_unchecked(run) };
    match keyword_of(word) {
        Some(keyword) => Lexeme::Keyword(keyword),
        None => Lexeme::Word(word),
    }
}

/// The sign at the front, the longer one first.
#[inline(always)]
fn sign_front<'a>(text: &'a [u8]) -> Option<(Lexeme<'a>, &'a [u8])>
    ensures seen { MatchOption result (sign_front_of text.now ≡ bad)
        (λ found. sign_front_of text.now ≡ taken (lexeme_view found.0) found.1.now) }
    ensures shorter { IfSome result (λ found. length found.1.now < length text.now) }
{
    match text {
        [b'.', b'.', rest @ ..] => Some((Lexeme::Sign(Sign::Dots), rest)),
        [byte, rest @ ..] => Some((Lexeme::Sign(sign_of(*byte)?), rest)),
        [] => None,
    }
}

/// The sign that one byte is.
#[inline(always)]
fn sign_of(byte: u8) -> Option<Sign>
    ensures { result ≡ sign_of byte }
{
    match byte {
        b';' => Some(Sign::Semicolon),
        b',' => Some(Sign::Comma),
        b'[' => Some(Sign::OpenBracket),
        b']' => Some(Sign::CloseBracket),
        b'(' => Some(Sign::OpenParenthesis),
        b')' => Some(Sign::CloseParenthesis),
        b'-' => Some(Sign::Minus),
        b'+' => Some(Sign::Plus),
        b'*' => Some(Sign::Times),
        b'.' => Some(Sign::Dot),
        _ => None,
    }
}
