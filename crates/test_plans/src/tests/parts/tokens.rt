//! The tokens of a text with their lines, and how each is spelled.

use dn_token::lexer::{TokenFault, tokens};
use dn_token::token::{Lexeme, Token};
use std::alloc::Global;
use std::fmt::Write;
use std::process::Abort;

/// The tokens of a text, each as its line and what it says.
fn told(rt: &impl Abort, alloc: Global, text: &[u8]) -> String {
    assert!(rt; text.len() <= 100);
    let found = tokens(alloc, text).expect(rt, "tokens");
    let mut told = String::new(alloc);
    for token in found.as_slice() {
        tell(rt, &mut told, token);
    }
    told
}

fn tell(rt: &impl Abort, told: &mut String, token: &Token) {
    let line = token.line;
    match token.lexeme {
        Lexeme::Word(word) => write!(told, "{line} {word}; "),
        Lexeme::Keyword(keyword) => write!(told, "{line} {keyword:?}; "),
        Lexeme::Number(number) => write!(told, "{line} {number}; "),
        Lexeme::Sign(sign) => write!(told, "{line} {sign:?}; "),
    }
    .expect(rt, "memory");
}

#[test]
fn tokens_have_their_lines(rt: HostRuntime) {
    let cases: [(&[u8], &str); 4] = [
        (b"", ""),
        (
            b"agent agents\n\nAgent gather",
            "1 Agent; 1 agents; 3 Agent; 3 gather; ",
        ),
        (b"// 1\n007 0x1F ...", "2 7; 2 31; 2 Dots; 2 Dot; "),
        (
            b";,[]()-+*",
            "1 Semicolon; 1 Comma; 1 OpenBracket; 1 CloseBracket; 1 OpenParenthesis; 1 CloseParenthesis; 1 Minus; 1 Plus; 1 Times; ",
        ),
    ];
    for (text, expected) in cases {
        let told = told(&rt, rt.alloc(), text);
        assert!(rt; told.as_str() == expected, "{text:?}");
    }
}

#[test]
fn names_each_fault(rt: HostRuntime) {
    let (bad, memory) = (TokenFault::Bad { line: 1 }, TokenFault::OutOfMemory);
    let words = format!(in rt.alloc(); "{bad} {memory}").expect(&rt, "memory");
    assert!(rt; words.as_str() == "Bad OutOfMemory");
}
