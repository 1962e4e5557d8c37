//! Numbers by their spellings.

ghost use Rattle.std.specs.Prelude.{◌≡◌, ◌<◌, List, ℕ, length, None, Some, IfSome, MatchOption};
ghost use Rattle.dn_token.specs.Terms.{after_run, base_of, begins_hexadecimal, digits_number, number_of, number_within, spelled_from, value_of, with_digit, word_run};

use crate::class::{class_of, is_word_byte};

/// The number that the run of letters, digits and `_` at the front of a text spells, and what follows the run:
/// decimal digits, or `0x` and hexadecimal digits of either case. None where the run spells none, or one past
/// 2^64 - 1.
#[inline(always)]
pub fn number_front(text: &[u8]) -> Option<(u64, &[u8])>
    ensures seen { MatchOption result (number_of (word_run text.now) ≡ None)
        (λ found. number_of (word_run text.now) ≡ Some found.0) }
    ensures rest { IfSome result (λ found. found.1.now ≡ after_run text.now) }
    ensures shorter { IfSome result (λ found. length found.1.now < length text.now) }
{
    if begins_hexadecimal(text) {
        spelled_front(Radix::Hexadecimal, &text[2..])
    } else {
        spelled_front(Radix::Decimal, text)
    }
}

/// Whether a number in hexadecimal digits begins here.
#[inline(always)]
fn begins_hexadecimal(text: &[u8]) -> bool
    ensures { result ≡ begins_hexadecimal text.now }
{
    matches!(text, [b'0', b'x', ..])
}

/// The two ways to write numbers by digits.
#[derive(Clone, Copy)]
pub enum Radix {
    /// Ten digits.
    Decimal,
    /// Sixteen digits, those past nine of either case.
    Hexadecimal,
}

/// How many digits there are.
#[inline(always)]
fn base_of(radix: Radix) -> u64
    ensures { result ≡ base_of radix }
{
    match radix {
        Radix::Decimal => 10,
        Radix::Hexadecimal => 16,
    }
}

/// The number that the run of letters, digits and `_` at the front of a text spells with these digits alone,
/// and what follows the run. None where there is none, one is no digit, or the number is past 2^64 - 1.
#[inline(always)]
fn spelled_front(radix: Radix, text: &[u8]) -> Option<(u64, &[u8])>
    ensures seen { MatchOption result
        (number_within (digits_number (base_of radix) (value_of radix) (word_run text.now)) ≡ None)
        (λ found. number_within (digits_number (base_of radix) (value_of radix) (word_run text.now))
        ≡ Some found.0) }
    ensures rest { IfSome result (λ found. found.1.now ≡ after_run text.now) }
    ensures shorter { IfSome result (λ found. length found.1.now < length text.now) }
{
    let mut number: u64 = 0;
    let mut length = 0;
    while length < text.len() && is_word_byte(text[length]) {
        number = with_digit(radix, number, text[length])?;
        length += 1;
    }
    if length == 0 {
        return None;
    }
    Some((number, &text[length..]))
}

/// The number so far with one digit more. None where the byte is no digit, or the number is past 2^64 - 1: no
/// digits after it make a number of it that fits.
#[inline(always)]
fn with_digit(radix: Radix, number: u64, byte: u8) -> Option<u64>
    ensures { MatchOption result
        ((text : List ℕ) → number_within (spelled_from (base_of radix) (value_of radix)
        (with_digit (base_of radix) number (value_of radix byte)) text) ≡ None)
        (λ next. with_digit (base_of radix) number (value_of radix byte) ≡ Some next) }
{
    let digit = u64::from(class_of(byte));
    if base_of(radix) <= digit {
        return None;
    }
    number.checked_mul(base_of(radix))?.checked_add(digit)
}
