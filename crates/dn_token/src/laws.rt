//! The law on the tokens of a text.

ghost use Rattle.dn_token.specs.Terms.{TokensGoOn};

/// What stands first in a text decides, and the rest is read alike.
pub fn tokens_go_on()
    ensures { TokensGoOn }
{}
