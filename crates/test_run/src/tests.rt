//! The tests, and the functions that they share.

mod audits;
mod boards;
mod demos;
mod devices;
mod faults;
mod flying;
mod leads;
mod outcome;
mod rows;
mod stops;
mod turns;
mod words;
