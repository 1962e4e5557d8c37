//! The number of a demonstration's agents, as a word spells it.

ghost use Rattle.std.specs.Prelude.{◌≡◌, ◌≤◌, IfSome, decimal};
ghost use Rattle.std.specs.Str.{bytes_eq};
ghost use Rattle.dn_words.specs.Terms.{agents_of};

use itoa::Buffer;

/// The number from 1 to 64 that a word spells: in decimal, with no sign and no leading zero. `None`
/// where it spells none of them.
pub(crate) fn agents(word: &str) -> Option<u8>
    ensures within { IfSome result (λ n. (1 ≤ n) × (n ≤ 64)) }
    ensures value { result ≡ agents_of word.now }
{
    for agents in 1..65 {
        if is_spelled(word, agents) {
            return Some(agents);
        }
    }
    None
}

/// Whether a word is a number in decimal.
fn is_spelled(word: &str, number: u8) -> bool
    ensures { result ≡ bytes_eq word.now (decimal number) }
{
    word == Buffer::new().format(number)
}
