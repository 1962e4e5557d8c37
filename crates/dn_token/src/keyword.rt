//! The reserved words by their spellings, and their spellings.

ghost use Rattle.std.specs.Prelude.{◌≡◌};
ghost use Rattle.dn_token.specs.Terms.{keyword_among, of_length, reserved_word, reserved_words, spelling};

use crate::token::Keyword;

/// The reserved word that a word is, if it is one.
pub fn keyword_of(word: &str) -> Option<Keyword>
    ensures { result ≡ reserved_word word.now }
{
    match word.len() {
        2 => of_two(word),
        3 => of_three(word),
        4 => of_four(word),
        5 => of_five(word),
        6 => of_six(word),
        7 => of_seven(word),
        _ => None,
    }
}

/// The text of a reserved word.
#[tactic(auto, unfolding(crate::specs::Words::spelling))]
pub fn spelling(word: Keyword) -> &'static str
    ensures { result.now ≡ spelling word }
{
    match word {
        Keyword::Agent => "agent",
        Keyword::Vectors => "vectors",
        Keyword::Unit => "unit",
        Keyword::Module => "module",
        Keyword::Use => "use",
        Keyword::For => "for",
        Keyword::In => "in",
        Keyword::End => "end",
        Keyword::Begin => "begin",
        Keyword::Is => "is",
        Keyword::Accept => "accept",
        Keyword::Map => "map",
        Keyword::To => "to",
        Keyword::And => "and",
        Keyword::At => "at",
        Keyword::Over => "over",
        Keyword::Kind => "kind",
        Keyword::Page => "page",
        Keyword::Slots => "slots",
        Keyword::Reach => "reach",
        Keyword::As => "as",
        Keyword::Num => "num",
        Keyword::Node => "node",
        Keyword::Resolve => "resolve",
        Keyword::Lookup => "lookup",
        Keyword::View => "view",
        Keyword::Grant => "grant",
        Keyword::Route => "route",
        Keyword::Revoke => "revoke",
        Keyword::Dump => "dump",
        Keyword::Split => "split",
        Keyword::Absorb => "absorb",
    }
}

fn of_two(word: &str) -> Option<Keyword>
    ensures { result ≡ keyword_among (of_length 2 reserved_words) word.now }
{
    match word {
        "in" => Some(Keyword::In),
        "is" => Some(Keyword::Is),
        "to" => Some(Keyword::To),
        "at" => Some(Keyword::At),
        "as" => Some(Keyword::As),
        _ => None,
    }
}

fn of_three(word: &str) -> Option<Keyword>
    ensures { result ≡ keyword_among (of_length 3 reserved_words) word.now }
{
    match word {
        "use" => Some(Keyword::Use),
        "for" => Some(Keyword::For),
        "end" => Some(Keyword::End),
        "map" => Some(Keyword::Map),
        "and" => Some(Keyword::And),
        "num" => Some(Keyword::Num),
        _ => None,
    }
}

fn of_four(word: &str) -> Option<Keyword>
    ensures { result ≡ keyword_among (of_length 4 reserved_words) word.now }
{
    match word {
        "unit" => Some(Keyword::Unit),
        "over" => Some(Keyword::Over),
        "kind" => Some(Keyword::Kind),
        "page" => Some(Keyword::Page),
        "node" => Some(Keyword::Node),
        "view" => Some(Keyword::View),
        "dump" => Some(Keyword::Dump),
        _ => None,
    }
}

fn of_five(word: &str) -> Option<Keyword>
    ensures { result ≡ keyword_among (of_length 5 reserved_words) word.now }
{
    match word {
        "agent" => Some(Keyword::Agent),
        "begin" => Some(Keyword::Begin),
        "slots" => Some(Keyword::Slots),
        "reach" => Some(Keyword::Reach),
        "grant" => Some(Keyword::Grant),
        "route" => Some(Keyword::Route),
        "split" => Some(Keyword::Split),
        _ => None,
    }
}

fn of_six(word: &str) -> Option<Keyword>
    ensures { result ≡ keyword_among (of_length 6 reserved_words) word.now }
{
    match word {
        "module" => Some(Keyword::Module),
        "accept" => Some(Keyword::Accept),
        "lookup" => Some(Keyword::Lookup),
        "revoke" => Some(Keyword::Revoke),
        "absorb" => Some(Keyword::Absorb),
        _ => None,
    }
}

fn of_seven(word: &str) -> Option<Keyword>
    ensures { result ≡ keyword_among (of_length 7 reserved_words) word.now }
{
    match word {
        "vectors" => Some(Keyword::Vectors),
        "resolve" => Some(Keyword::Resolve),
        _ => None,
    }
}
