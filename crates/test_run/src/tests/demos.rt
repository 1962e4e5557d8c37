//! Tests of demonstrations: the line that is written, and runs that stop at a call of the device or
//! of the sink.

use crate::failing::Failing;
use crate::tests::outcome::{Outcome, answer};
use crate::tests::rows::front;
use dn_tool::run::{DEVICE_FAULT, DONE, WRITE_FAULT};
use std::alloc::Global;
use std::process::Abort;

/// What is written of a demonstration with one agent.
const ONE: &str = "demo 1: nodes 4 grants 16 revoked 8 rows 8 records 24 image 32784\n";

/// What is written of one with four.
const FOUR: &str = "demo 4: nodes 10 grants 64 revoked 32 rows 32 records 96 image 131112\n";

/// The calls of the device for each agent: a unit is made, 16 grants write three records of a word
/// each, and 8 revokes clear three each. No grant follows a revoke, so there is no fence.
const CALLS: u32 = 1 + 16 * 3 + 8 * 3;

/// Runs the demonstration with so many agents, where these calls of the sink and of the device fail. Nothing is read of
/// the text.
fn show(rt: &impl Abort, alloc: Global, agents: &str, writes: &[u32], device: &[u32]) -> Outcome {
    let failing = Failing {
        reads: &[],
        writes,
        device,
    };
    answer(rt, alloc, &["demo", agents], b"", 4096, failing)
}

#[test]
fn sums_up_demonstrations(rt: HostRuntime) {
    let rows = [("1", ONE, CALLS), ("4", FOUR, 4 * CALLS)];
    for (agents, line, calls) in rows {
        let shown = show(&rt, rt.alloc(), agents, &[], &[]);
        assert!(rt; shown.status == DONE, "{agents}");
        assert!(rt; shown.sink.written() == line.as_bytes(), "{agents}");
        assert!(rt; shown.device.log().len() == calls as usize, "{agents}");
    }
}

#[test]
fn writes_nothing_where_the_device_fails(rt: HostRuntime) {
    let whole = show(&rt, rt.alloc(), "1", &[], &[]);
    for call in 0..CALLS {
        let shown = show(&rt, rt.alloc(), "1", &[], &[call]);
        assert!(rt; shown.status == DEVICE_FAULT, "{call}");
        assert!(rt; shown.sink.written() == "".as_bytes(), "{call}");
        assert!(rt;
            shown.device.log() == front(whole.device.log(), call),
            "{call}"
        );
    }
}

#[test]
fn writes_the_line_once_all_is_done(rt: HostRuntime) {
    // The only write fails, or a second one would, which is not made.
    for (call, status, line) in [(0, WRITE_FAULT, ""), (1, DONE, ONE)] {
        let shown = show(&rt, rt.alloc(), "1", &[call], &[CALLS]);
        assert!(rt; shown.status == status, "{call}");
        assert!(rt; shown.sink.written() == line.as_bytes(), "{call}");
        assert!(rt; shown.device.log().len() == CALLS as usize, "{call}");
    }
}
