//! The one test of all that needs the kinds of the program, since making these kinds is the dearest part of a test.

use crate::grants::exact::place_and_compare;
use crate::grants::faults::fail_each_call;
use crate::grants::pieces::gather_pieces;
use crate::nets::decoding::decode_steps;
use crate::nets::stages::{compare_chains, go_on_past_many_walks};
use crate::nets::walking::list_walks;
use crate::tables::read_images;
use crate::tables::sets::stop_at_writes;
use test_plans::run_with_kinds;

#[test]
fn decodes_places_puts_looks_up_and_stops(rt: HostRuntime) {
    run_with_kinds!(
        rt;
        decode_steps, list_walks, compare_chains, go_on_past_many_walks, stop_at_writes, read_images,
        place_and_compare, fail_each_call, gather_pieces
    )
}
