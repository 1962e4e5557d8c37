//! Tokens: from the bytes of a text to its words, numbers and signs, or to its first bad place.
//!
//! [`lexer::tokens`] gives the tokens of a text with their lines, and a [`cursor::Cursor`] gives
//! them one by one without a list.
//!
//! ```text
//! let tokens = lexer::tokens(alloc, b"ram is accept [0x0-0xfff];")?;
//! ```
//!
//! Of each text the tokens are those of the definition, or the line of the first byte that begins
//! none is answered. [`token`] has what a token is, [`keyword`] the reserved words, `class` what a
//! byte is in a word, and `number` what digits spell. [`laws`] says that what stands first in a
//! text decides its first token.
#![tactic(auto)]

mod class;
pub mod cursor;
pub mod keyword;
pub mod laws;
pub mod lexer;
mod number;
pub mod token;
