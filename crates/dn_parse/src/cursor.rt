//! Single tokens at the front of those that are still to come, and where a reading stops.

ghost use Rattle.std.specs.Prelude.{◌≡◌, ◌<◌, length, true, Ok, Err, IfOk};
ghost use Rattle.dn_token.specs.Terms.{cursor_view};
ghost use Rattle.dn_parse.specs.declared.cursor.Halt.TheVariants.{Refused};
ghost use Rattle.dn_parse.specs.Terms.{GoesOn, IsShorter, Reads, after_keyword, after_sign, after_word, begins_node, begins_order, begins_word, first_line, halt_view, is_command_word, keyword_at, sign_at, the_word_at, word_at};
ghost use Rattle.dn_base.specs.Terms.{Answers};

use dn_token::cursor::Cursor;
use dn_token::token::{Keyword, Lexeme, Sign};
use std::alloc::{AllocError, AllocFailed};

/// Why a part is not read. The number is that of the tokens that are left, the one at which it
/// stops among them.
#[derive(Clone, Copy, Debug, PartialEq, Eq)]
pub enum Halt {
    /// No form allows this token, or the end where none is left.
    Refused(u32),
    /// This parenthesis is nested too deep.
    Deep(u32),
    /// There was no memory.
    OutOfMemory,
}

impl From<AllocError> for Halt {
    ghost use Rattle.std.specs.Prelude.{◌≡◌};
    ghost use Rattle.dn_parse.specs.declared.cursor.Halt.TheVariants.{OutOfMemory as no_memory};

    ghost from_gives = { λ _ e. e ≡ no_memory };

    fn from(_error: AllocError) -> Halt {
        Halt::OutOfMemory
    }
}

impl<T: Drop> From<AllocFailed<T>> for Halt {
    ghost use Rattle.std.specs.Prelude.{◌≡◌};
    ghost use Rattle.dn_parse.specs.declared.cursor.Halt.TheVariants.{OutOfMemory as no_memory};

    ghost from_gives = { λ _ e. e ≡ no_memory };

    fn from(_error: AllocFailed<T>) -> Halt {
        Halt::OutOfMemory
    }
}

/// The line of the next token.
pub fn first_line<'a>(tokens: &Cursor<'a>) -> Option<u32>
    ensures { result ≡ first_line (cursor_view tokens.now) }
{
    let token = tokens.peek()?;
    Some(token.line)
}

/// Whether a word that is not reserved is the next token.
fn at_word<'a>(tokens: &Cursor<'a>) -> bool
    ensures { result ≡ begins_word (cursor_view tokens.now) }
{
    let Some(token) = tokens.peek() else {
        return false;
    };
    matches!(token.lexeme, Lexeme::Word(_))
}

/// Whether this word, which is not reserved, is that of a command.
fn is_command_word(word: &str) -> bool
    ensures { result ≡ is_command_word word.now }
{
    word == "radix" || word == "gather"
}

/// Whether a command begins with this word, which is not reserved: it is the word of one, and a word
/// follows it.
pub fn begins_order<'a>(word: &str, tokens: &Cursor<'a>) -> bool
    ensures { result ≡ begins_order word.now (cursor_view tokens.now) }
{
    is_command_word(word) && at_word(tokens)
}

/// Whether the declaration of a node begins here, as its name does: with a word that is not reserved and
/// that begins no command.
pub fn at_node<'a>(tokens: &Cursor<'a>) -> bool
    ensures { result ≡ begins_node (cursor_view tokens.now) }
{
    let Some(token) = tokens.peek() else {
        return false;
    };
    let Lexeme::Word(word) = token.lexeme else {
        return false;
    };
    !(is_command_word(word) && at_word(&tokens.advance()))
}

/// Whether this sign is the next token; it goes on behind it where it is.
#[tactic(auto, unfolding(crate::specs::Descent::after_sign))]
pub fn after_sign<'a>(tokens: &mut Cursor<'a>, sign: Sign) -> bool
    ensures gives { GoesOn result (cursor_view tokens.old) (cursor_view tokens.new)
        (after_sign sign (cursor_view tokens.old)) }
    ensures shorter { result ≡ true → IsShorter tokens.new tokens.old }
{
    let Some(token) = tokens.peek() else {
        return false;
    };
    match token.lexeme {
        Lexeme::Sign(found) if found == sign => {
            tokens.step();
            true
        }
        _ => false,
    }
}

/// Whether this reserved word is the next token; it goes on behind it where it is.
#[tactic(auto, unfolding(crate::specs::Descent::after_keyword))]
pub fn after_keyword<'a>(tokens: &mut Cursor<'a>, word: Keyword) -> bool
    ensures gives { GoesOn result (cursor_view tokens.old) (cursor_view tokens.new)
        (after_keyword word (cursor_view tokens.old)) }
    ensures shorter { result ≡ true → IsShorter tokens.new tokens.old }
{
    let Some(token) = tokens.peek() else {
        return false;
    };
    match token.lexeme {
        Lexeme::Keyword(found) if found == word => {
            tokens.step();
            true
        }
        _ => false,
    }
}

/// Whether this word, which is not reserved, is the next token; it goes on behind it where it is.
#[tactic(auto, unfolding(crate::specs::Descent::after_word))]
pub fn after_word<'a>(tokens: &mut Cursor<'a>, word: &str) -> bool
    ensures gives { GoesOn result (cursor_view tokens.old) (cursor_view tokens.new)
        (after_word word.now (cursor_view tokens.old)) }
{
    let Some(token) = tokens.peek() else {
        return false;
    };
    match token.lexeme {
        Lexeme::Word(found) if found == word => {
            tokens.step();
            true
        }
        _ => false,
    }
}

/// The refusal of the next token, or of the end.
pub fn refusal<'a>(tokens: &Cursor<'a>) -> Halt
    ensures { result ≡ Refused (length (cursor_view tokens.now)) }
{
    Halt::Refused(tokens.left())
}

/// This sign.
#[tactic(auto, unfolding(crate::specs::Descent::sign_at))]
pub fn sign<'a>(tokens: &mut Cursor<'a>, sign: Sign) -> Result<(), Halt>
    ensures gives { Answers (λ _. cursor_view tokens.new) halt_view result
        (sign_at sign (cursor_view tokens.old)) }
    ensures shorter { IfOk result (λ _. IsShorter tokens.new tokens.old) }
{
    if after_sign(tokens, sign) {
        Ok(())
    } else {
        Err(refusal(tokens))
    }
}

/// This reserved word.
#[tactic(auto, unfolding(crate::specs::Descent::keyword_at))]
pub fn keyword<'a>(tokens: &mut Cursor<'a>, word: Keyword) -> Result<(), Halt>
    ensures gives { Answers (λ _. cursor_view tokens.new) halt_view result
        (keyword_at word (cursor_view tokens.old)) }
    ensures shorter { IfOk result (λ _. IsShorter tokens.new tokens.old) }
{
    if after_keyword(tokens, word) {
        Ok(())
    } else {
        Err(refusal(tokens))
    }
}

/// This word, which is not reserved.
#[tactic(auto, unfolding(crate::specs::Descent::the_word_at))]
pub fn the_word<'a>(tokens: &mut Cursor<'a>, word: &str) -> Result<(), Halt>
    ensures gives { Answers (λ _. cursor_view tokens.new) halt_view result
        (the_word_at word.now (cursor_view tokens.old)) }
{
    if after_word(tokens, word) {
        Ok(())
    } else {
        Err(refusal(tokens))
    }
}

/// A word that is not reserved.
#[inline(always)]
#[tactic(auto, unfolding(crate::specs::Descent::word_at))]
pub fn word<'a>(tokens: &mut Cursor<'a>) -> Result<&'a str, Halt>
    ensures gives { Reads (λ x. x.now) result tokens.new (word_at (cursor_view tokens.old)) }
    ensures shorter { IfOk result (λ _. IsShorter tokens.new tokens.old) }
{
    let Some(token) = tokens.peek() else {
        return Err(refusal(tokens));
    };
    let Lexeme::Word(word) = token.lexeme else {
        return Err(refusal(tokens));
    };
    tokens.step();
    Ok(word)
}
