//! Scripts of which each call of the device fails in turn.

use crate::failing::failing_calls;
use crate::tests::boards::{Board, text_of};
use crate::tests::leads::{INPUTS, compare_leads, end_of};
use crate::tests::outcome::{Outcome, answer};
use crate::tests::rows::front;
use dn_base::device::TableEvent;
use dn_kind::rights::Access;
use dn_tool::run::{DEVICE_FAULT, DONE};
use std::alloc::{AllocError, Global};
use std::process::Abort;

/// A turn of a script, worked out by hand: the command, the calls of the device that it makes, each with a semicolon, and
/// the reply. The first turn of a script is that in which the units are made, and has no command.
#[derive(Clone, Copy)]
struct Turn<'a> {
    command: &'a str,
    calls: &'a str,
    reply: &'a str,
}

/// The turn of a line, whose parts are kept apart by bars.
fn turn_of<'a>(rt: &impl Abort, line: &'a str) -> Turn<'a> {
    let (command, rest) = line.split_once('|').expect(rt, "a command");
    let (calls, reply) = rest.split_once('|').expect(rt, "calls");
    Turn {
        command: command.trim(),
        calls: calls.trim(),
        reply: reply.trim(),
    }
}

/// The commands of a script, the calls of its turns and their replies.
#[derive(Drop)]
struct Script {
    commands: String,
    calls: String,
    replies: String,
}

/// Appends a part of a turn, with a line end or a space after it, unless it is empty.
fn push_part(text: &mut String, part: &str, end: &str) -> Result<(), AllocError> {
    if part.is_empty() {
        return Ok(());
    }
    write!(text, "{part}{end}")
}

/// The script of turns, one a line.
fn script_of(rt: &impl Abort, alloc: Global, turns: &str) -> Script {
    let mut commands = String::new(alloc);
    let mut calls = String::new(alloc);
    let mut replies = String::new(alloc);
    for line in turns.lines() {
        let turn = turn_of(rt, line);
        push_part(&mut commands, turn.command, "\n").expect(rt, "memory");
        push_part(&mut calls, turn.calls, " ").expect(rt, "memory");
        push_part(&mut replies, turn.reply, "\n").expect(rt, "memory");
    }
    Script {
        commands,
        calls,
        replies,
    }
}

/// The events of a log as turns have them.
fn calls_of(alloc: Global, log: &[TableEvent]) -> Result<String, AllocError> {
    let mut text = String::new(alloc);
    for event in log {
        match event {
            TableEvent::Make { unit, words } => write!(text, "make {unit} {words}; ")?,
            TableEvent::Write { unit, word, value } => {
                write!(text, "write {unit} {word} 0x{value:x}; ")?
            }
            TableEvent::Fence => write!(text, "fence; ")?,
        }
    }
    Ok(text)
}

/// How many calls a text of calls has.
fn count_of(calls: &str) -> u32 {
    let mut count: u32 = 0;
    for byte in calls.bytes() {
        if byte == b';' {
            count = count.saturating_add(1);
        }
    }
    count
}

/// How many events there are, and how many bytes of replies, once some turns were gone through.
#[derive(Clone, Copy)]
struct Done {
    events: u32,
    bytes: usize,
}

/// Runs a text over a device of which one call fails.
fn run_failing(rt: &impl Abort, alloc: Global, text: &str, call: u32) -> Outcome {
    let calls = [call];
    let failing = failing_calls(&calls);
    answer(rt, alloc, &["run"], text.as_bytes(), 4096, failing)
}

/// Each input leads for each access where the first events lead it, or where the others do.
fn compare_ends(
    rt: &impl Abort,
    board: Board,
    log: &[TableEvent],
    old: &[TableEvent],
    new: &[TableEvent],
) {
    for input in 0..INPUTS {
        for access in [Access::Read, Access::Write] {
            let given = end_of(board, log, input, access);
            let is_old = given == end_of(board, old, input, access);
            let is_new = given == end_of(board, new, input, access);
            assert!(rt; is_old || is_new, "input {input} of {log:?}");
        }
    }
}

/// Fails each call of a turn: the replies of the turns before it are written, exactly the events before the call were
/// done, and each input leads where it did before the turn or after it.
fn fail_turn(
    rt: &impl Abort,
    alloc: Global,
    board: Board,
    text: &str,
    whole: &Outcome,
    before: Done,
    after: Done,
) {
    let replies = whole.sink.written();
    let replies = &replies[..before.bytes.min(replies.len())];
    let events = whole.device.log();
    let (old, new) = (front(events, before.events), front(events, after.events));
    for call in before.events..after.events {
        let outcome = run_failing(rt, alloc, text, call);
        let log = outcome.device.log();
        assert!(rt; outcome.status == DEVICE_FAULT, "{call}");
        assert!(rt; outcome.sink.written() == replies, "{call}");
        assert!(rt; log == front(events, call), "{call}");
        compare_ends(rt, board, log, old, new);
    }
}

/// What is done after one turn more. A reply has a line end after it.
fn done_after(before: Done, turn: Turn<'_>) -> Done {
    let end = if turn.reply.is_empty() { 0 } else { 1 };
    let bytes = turn.reply.len().saturating_add(end);
    Done {
        events: before.events.saturating_add(count_of(turn.calls)),
        bytes: before.bytes.saturating_add(bytes),
    }
}

/// Fails each call of the turns of a script.
fn fail_turns(
    rt: &impl Abort,
    alloc: Global,
    board: Board,
    text: &str,
    whole: &Outcome,
    turns: &str,
) {
    let mut before = Done {
        events: 0,
        bytes: 0,
    };
    for line in turns.lines() {
        let turn = turn_of(rt, line);
        let after = done_after(before, turn);
        fail_turn(rt, alloc, board, text, whole, before, after);
        before = after;
    }
}

/// Runs a script over a board, and then anew for each call of the device, which fails. Answers what comes of the run in
/// which a call past the last would fail, which is not made.
pub(crate) fn fail_each(rt: &impl Abort, alloc: Global, board: Board, turns: &str) -> Outcome {
    let script = script_of(rt, alloc, turns);
    let text = text_of(rt, alloc, board, script.commands.as_str());
    let text = text.as_str();
    let whole = run_failing(rt, alloc, text, count_of(script.calls.as_str()));
    let calls = calls_of(alloc, whole.device.log()).expect(rt, "memory");
    assert!(rt; whole.status == DONE);
    assert!(rt; calls.as_str() == script.calls.as_str());
    assert!(rt; whole.sink.written() == script.replies.as_bytes());
    fail_turns(rt, alloc, board, text, &whole, turns);
    whole
}

/// The same, and where the inputs lead after so many calls.
pub(crate) fn fail_and_compare(
    rt: &impl Abort,
    alloc: Global,
    board: Board,
    turns: &str,
    calls: u32,
    leads: &str,
) {
    let whole = fail_each(rt, alloc, board, turns);
    compare_leads(rt, alloc, board, front(whole.device.log(), calls), leads);
}
