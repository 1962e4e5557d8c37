//! Tests of the demonstration: the text that is made for so many agents, and the line that sums it up.
//!
//! The wanted texts follow the description of the demonstration, and none comes from the program.

mod summary;
mod text;
