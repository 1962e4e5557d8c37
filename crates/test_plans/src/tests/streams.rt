//! Tests of the outside of the program: sources and sinks in memory, the adapters over readers and writers of
//! the system, reading and writing a whole text, and the lists and texts that structs keep.
//!
//! The tests show what no clause says: worked reads and writes, the words of each fault, and that each call
//! succeeds with ample memory.

mod kept;
mod memory;
mod system;
