//! Tests of the parts below the net: spans, sets of spans and rows; and how the tokens of a text are told.
//!
//! The wanted values are worked out by hand. Texts with the rows, tokens and faults that the program prints stand in
//! `answers/`.

mod rows;
mod span_sets;
mod tokens;
