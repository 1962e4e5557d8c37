//! The reader: from the bytes of a text to its tree, or to the first fault with its line.
//!
//! ```text
//! let tree = reader::read(alloc, text)?;   // the statements, and where the commands stand
//! ```
//!
//! The tree borrows the text. A text is read exactly where the grammar spells it and no parenthesis
//! or block is nested too deep; else the first fault is answered with its line. Commands are read
//! again one by one, by [`script::Script::next`], so that a long script takes no memory.
//!
//! `dn_token` gives the tokens, and [`syntax`] has the tree. [`expressions`], [`nodes`] and
//! [`statements`] read the parts of a statement, [`listed`] reads rows of them, and [`blocks`] puts
//! statements into the blocks that are open. [`laws`] ties all of it to the grammar.
#![tactic(auto)]

mod blocks;
mod cursor;
mod expressions;
pub mod few;
pub mod laws;
mod listed;
mod nodes;
mod parts;
mod plain;
pub mod reader;
pub mod script;
mod statements;
pub mod syntax;
