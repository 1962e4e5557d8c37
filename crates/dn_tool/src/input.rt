//! What is read of the source: a text, and with `audit` an image after it.

ghost use Rattle.std.specs.Prelude.{◌≡◌, ◌++◌, ◌-◌, ◌<◌, ◌≤◌, take, vec_len, IfOk, IfSome, IsErrOf, Some};
ghost use Rattle.dn_base.specs.Terms.{AtEnd, IsCounted, Taken, TakenAtMost, is_input_fault};
ghost use Rattle.dn_tool.specs.Terms.{is_too_long, limit_for, parts_of, parts_view};

use dn_audit::input::{image_part, read_up_to, text_part};
use dn_base::source::Source;
use dn_base::whole::{InputFault, read_whole};
use dn_words::words::Task;
use std::alloc::Global;

/// The longest input of an audit.
const LONGEST_AUDIT: usize = 67_108_864;

/// A text, and the bytes of an image after it, where there are such.
#[derive(Clone, Copy)]
pub(crate) struct Input<'a> {
    pub(crate) text: &'a [u8],
    pub(crate) image: Option<&'a [u8]>,
}

/// Reads the source for a task, until it ends or the task's limit is taken, and answers what was taken.
///
/// # Errors
///
/// `Failed` at the first read that fails, only where the source's count of faults rose in this call,
/// or stands at the last value of its counter. `OutOfMemory` for want of memory.
pub(crate) fn read_input<S: Source>(
    alloc: Global,
    task: Task,
    source: &mut S,
) -> Result<Vec<u8>, InputFault>
    ensures within { IfOk result (λ bytes. vec_len bytes ≤ limit_for (Some task)) }
    ensures taken { IfOk result (λ bytes.
        Taken (S.left source.old) (S.left source.new) bytes.items) }
    ensures end { IfOk result (λ bytes.
        vec_len bytes < limit_for (Some task) → AtEnd (S.left source.new)) }
    ensures front { IfOk result (λ bytes. IfSome (S.left source.old)
        (λ told. bytes.items ≡ take (limit_for (Some task)) told)) }
    ensures at_most { TakenAtMost (limit_for (Some task)) (S.left source.old) (S.left source.new) }
    // What was read is what the reads of this call gave.
    ensures given { IfOk result (λ bytes. S.given source.new ≡ S.given source.old ++ bytes.items) }
    // A fault comes only before the limit was taken: no read is made after that.
    ensures before_limit { IsErrOf result InputFault.Failed →
        TakenAtMost (limit_for (Some task) - 1) (S.left source.old) (S.left source.new) }
    ensures counted { IsCounted (S.faults source.old)
        (S.faults source.new) (is_input_fault result) }
{
    match task {
        Task::Audit => read_up_to(alloc, source, LONGEST_AUDIT + 1),
        Task::Run | Task::Check | Task::Demo(_) => read_whole(alloc, source),
    }
}

/// Whether bytes are more than the task takes.
pub(crate) fn is_too_long(task: Task, bytes: &[u8]) -> bool
    ensures { result ≡ is_too_long task bytes.now }
{
    match task {
        Task::Audit => bytes.len() > LONGEST_AUDIT,
        Task::Run | Task::Check | Task::Demo(_) => false,
    }
}

/// What bytes say to a task: with `audit` the first byte 0 ends the text, and else all is text.
pub(crate) fn parts_of(task: Task, bytes: &[u8]) -> Input
    ensures { parts_view result ≡ parts_of task bytes.now }
{
    match task {
        Task::Audit => Input {
            text: text_part(bytes),
            image: image_part(bytes),
        },
        Task::Run | Task::Check | Task::Demo(_) => Input {
            text: bytes,
            image: None,
        },
    }
}
