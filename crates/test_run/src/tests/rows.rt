//! Comparing a run with what was worked out by hand.

ghost use Rattle.std.specs.Prelude.{◌<◌};

use crate::failing::{Failing, failing_reads};
use crate::tests::outcome::answer;
use dn_base::device::TableEvent;
use dn_tool::run::{READ_FAULT, REFUSED};
use std::process::Abort;

/// The first events, as many as there are up to a count.
pub(crate) fn front(events: &[TableEvent], count: u32) -> &[TableEvent] {
    let count = (count as usize).min(events.len());
    &events[..count]
}

/// Runs the words over the text, and compares the status and what was written.
pub(crate) fn comes_to<R: Abort + AllocGlobal>(
    rt: &R,
    list: &[&str],
    text: &str,
    most: usize,
    failing: Failing<'_>,
    status: u8,
    output: &str,
)
    requires { 0 < most }
{
    let outcome = answer(rt, rt.alloc(), list, text.as_bytes(), most, failing);
    assert!(rt;
        outcome.sink.written() == output.as_bytes(),
        "{list:?} over {text} by {most}"
    );
    assert!(rt; outcome.status == status, "{list:?} over {text} by {most}");
}

/// Runs a word over so many spaces, more than its limit, by reads of `most` bytes, where one call fails: the last read up
/// to the limit, and then the one after it, which is not made.
pub(crate) fn keeps_limit<R: Abort + AllocGlobal>(
    rt: &R,
    word: &str,
    spaces: usize,
    most: usize,
    calls: (u32, u32),
    refusal: &str,
)
    requires { 0 < most }
{
    let text = " ".repeat(rt.alloc(), spaces).expect(rt, "memory");
    let text = text.as_str();
    comes_to(
        rt,
        &[word],
        text,
        most,
        failing_reads(&[calls.0]),
        READ_FAULT,
        "",
    );
    comes_to(
        rt,
        &[word],
        text,
        most,
        failing_reads(&[calls.1]),
        REFUSED,
        refusal,
    );
}
