//! Tokens: what a text is made of.

/// The reserved words.
#[derive(Clone, Copy, Debug, PartialEq, Eq)]
pub enum Keyword {
    Agent,
    Vectors,
    Unit,
    Module,
    Use,
    For,
    In,
    End,
    Begin,
    Is,
    Accept,
    Map,
    To,
    And,
    At,
    Over,
    Kind,
    Page,
    Slots,
    Reach,
    As,
    Num,
    Node,
    Resolve,
    Lookup,
    View,
    Grant,
    Route,
    Revoke,
    Dump,
    Split,
    Absorb,
}

/// The signs.
#[derive(Clone, Copy, Debug, PartialEq, Eq)]
pub enum Sign {
    Semicolon,
    Comma,
    OpenBracket,
    CloseBracket,
    OpenParenthesis,
    CloseParenthesis,
    Minus,
    Plus,
    Times,
    Dot,
    Dots,
}

/// What a token says.
#[derive(Clone, Copy, Debug)]
pub enum Lexeme<'a> {
    /// A word that is not reserved.
    Word(&'a str),
    /// A reserved word.
    Keyword(Keyword),
    /// A number.
    Number(u64),
    /// A sign.
    Sign(Sign),
}

/// A token, whose word borrows the text.
#[derive(Clone, Copy, Debug)]
pub struct Token<'a> {
    pub lexeme: Lexeme<'a>,
    /// The line in which the token begins, counted from 1.
    pub line: u32,
}
