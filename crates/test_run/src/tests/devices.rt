//! Tests of runs over a device that make no call of it.

use crate::failing::failing_calls;
use crate::tests::outcome::answer;
use dn_tool::run::{DONE, REFUSED};
use std::alloc::Global;
use std::process::Abort;

/// Two units, of which the first has two words for each slot, and a command.
const UNITS: &str = "vectors cpu is accept [0x20-0x2f];
agent nic is map [0x0-0x3 to irt at 0x0];
unit irt kind vectors page 0 slots 4 reach 8 to cpu;
unit mmu kind pages page 12 slots 3 reach 20 to cpu;
begin;
lookup nic 1;
";

/// Compares the status of a word over a text that makes no call of the device, of which the first would fail.
fn leaves_device(rt: &impl Abort, alloc: Global, word: &str, text: &str, status: u8) {
    let first = failing_calls(&[0]);
    let outcome = answer(rt, alloc, &[word], text.as_bytes(), 4096, first);
    assert!(rt; outcome.status == status, "{word}");
    assert!(rt; outcome.device.log().len() == 0, "{word}");
}

#[test]
fn leaves_the_device_where_no_script_is_run(rt: HostRuntime) {
    for (word, text, status) in [("check", UNITS, DONE), ("run", "a is; a is;", REFUSED)] {
        leaves_device(&rt, rt.alloc(), word, text, status);
    }
}
