//! Tests of runs in which a read or a write fails, and of those calls that no run makes. That a first write fails, that
//! a second one does, and that other words read nothing, is shown by `answers/check`.

use crate::failing::{Failing, failing_reads};
use crate::tests::outcome::answer;
use crate::tests::rows::{comes_to, keeps_limit};
use dn_base::sink::Sink;
use dn_base::source::Source;
use dn_tool::run::{DONE, READ_FAULT, REFUSED, WRITE_FAULT, WRONG_WORDS};
use std::alloc::Global;
use std::process::Abort;

/// A text of two commands, which is read in four reads of 16 bytes, the last of which gives none.
const SHORT: &str = "a is; begin; resolve a 1; resolve b 2;";

/// What `run` answers, which is two writes.
const ANSWERED: &str = "a@0x1: nothing\nb@0x2: no such node\n";

#[test]
fn writes_nothing_where_a_read_fails(rt: HostRuntime) {
    for call in 0..4u32 {
        let calls = [call];
        let failing = failing_reads(&calls);
        comes_to(&rt, &["run"], SHORT, 16, failing, READ_FAULT, "");
        comes_to(&rt, &["check"], SHORT, 16, failing, READ_FAULT, "");
    }
    // The text is read in four reads; a fifth is not made.
    let fifth = failing_reads(&[4]);
    comes_to(&rt, &["run"], SHORT, 16, fifth, DONE, ANSWERED);
}

#[test]
fn makes_no_read_once_the_limit_is_taken(rt: HostRuntime) {
    // 4,194,305 bytes are taken by 1,024 reads of 4,096 bytes and one of a byte.
    keeps_limit(
        &rt,
        "run",
        4_194_314,
        4096,
        (1024, 1025),
        "refused: Length\n",
    );
}

/// Runs a word over the text of two commands, and then reads and writes once more: the status, and whether the read
/// and the write fail.
fn then_fails(
    rt: &impl Abort,
    alloc: Global,
    word: &str,
    failing: Failing<'_>,
) -> (u8, bool, bool) {
    let mut outcome = answer(rt, alloc, &[word], SHORT.as_bytes(), 16, failing);
    let is_read_failing = outcome.source.read(&mut [0; 1]).is_err();
    let is_write_failing = outcome.sink.write(b"a").is_err();
    (outcome.status, is_read_failing, is_write_failing)
}

#[test]
fn makes_no_call_again_and_none_beside(rt: HostRuntime) {
    // The calls that fail, and which of the next ones fails: it is the one behind those that the run made.
    let rows = [
        ("run", [4, 4], [2, 2], (DONE, true, true)),
        ("run", [5, 5], [3, 3], (DONE, false, false)),
        ("run", [1, 2], [0, 0], (READ_FAULT, true, true)),
        ("run", [1, 3], [1, 1], (READ_FAULT, false, false)),
        ("run", [4, 4], [0, 1], (WRITE_FAULT, true, true)),
        ("run", [5, 5], [0, 2], (WRITE_FAULT, false, false)),
        ("check", [4, 4], [1, 1], (DONE, true, true)),
        ("frob", [0, 0], [1, 1], (WRONG_WORDS, true, true)),
    ];
    for (word, reads, writes, wanted) in rows {
        let failing = Failing {
            reads: &reads,
            writes: &writes,
            device: &[],
        };
        let given = then_fails(&rt, rt.alloc(), word, failing);
        assert!(rt; given == wanted, "{word} {reads:?} {writes:?}");
    }
}
