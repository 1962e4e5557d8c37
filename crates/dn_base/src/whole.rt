//! Reading a source to its end, and writing a whole piece.

ghost use Rattle.std.specs.Prelude.{◌≡◌, ◌++◌, ◌-◌, ◌<◌, ◌≤◌, [], take, IfOk, IfSome, IsErrOf, is_err, is_ok, vec_len};
ghost use Rattle.dn_base.specs.Terms.{AtEnd, IsCounted, IsWritten, Taken, TakenAtMost, input_limit, is_input_fault, is_write_fault};

use crate::sink::{Sink, WriteFault};
use crate::source::Source;
use std::alloc::Global;
use thiserror::Error;

/// The most bytes that [`read_whole`] takes: one more than the longest text, so that a text that is
/// too long shows by its length.
pub const INPUT_LIMIT: usize = 4_194_305;

/// The most bytes of one read.
const PIECE: usize = 4096;

/// Why a source was not read to its end.
#[derive(Clone, Copy, Debug, PartialEq, Eq, Error)]
pub enum InputFault {
    /// A read failed. The source counts it.
    #[error("Failed")]
    Failed,
    /// There was no memory to keep the text in.
    #[error("OutOfMemory")]
    OutOfMemory,
}

/// Reads until the source ends or [`INPUT_LIMIT`] bytes are taken, and answers what was taken. No read is
/// made once they are taken.
///
/// # Errors
///
/// `Failed` at the first read that fails, only where the source's count of faults rose in this call,
/// or stands at the last value of its counter. `OutOfMemory` for want of memory. After both the
/// bytes that were taken before are lost.
#[tactic(auto, using(crate::proofs::Counts::counted_then))]
pub fn read_whole<S: Source>(alloc: Global, source: &mut S) -> Result<Vec<u8>, InputFault>
    ensures within { IfOk result (λ text. vec_len text ≤ input_limit) }
    ensures taken { IfOk result (λ text. Taken (S.left source.old) (S.left source.new) text.items) }
    ensures end { IfOk result (λ text. vec_len text < input_limit → AtEnd (S.left source.new)) }
    ensures front { IfOk result (λ text.
        IfSome (S.left source.old) (λ told. text.items ≡ take input_limit told)) }
    ensures at_most { TakenAtMost input_limit (S.left source.old) (S.left source.new) }
    // What was read is what the reads of this call gave.
    ensures given { IfOk result (λ text. S.given source.new ≡ S.given source.old ++ text.items) }
    // A fault comes only before the limit was taken: no read is made after that.
    ensures before_limit { IsErrOf result InputFault.Failed →
        TakenAtMost (input_limit - 1) (S.left source.old) (S.left source.new) }
    ensures counted { IsCounted (S.faults source.old)
        (S.faults source.new) (is_input_fault result) }
{
    let mut text = Vec::new(alloc);
    let mut piece = [0u8; PIECE];
    while text.len() < INPUT_LIMIT {
        let room = (INPUT_LIMIT - text.len()).min(PIECE);
        let Ok(count) = source.read(&mut piece[..room]) else {
            return Err(InputFault::Failed);
        };
        if count == 0 {
            return Ok(text);
        }
        let Ok(()) = text.extend_from_slice(&piece[..count]) else {
            return Err(InputFault::OutOfMemory);
        };
    }
    Ok(text)
}

/// Writes all the bytes, in as many writes as the sink needs; none where there is no byte.
///
/// # Errors
///
/// The fault of the first write that fails: `Failed` only where the sink's count of faults rose in
/// this call, or stands at the last value of its counter, and `OutOfMemory` for want of memory. After
/// both a prefix of the bytes was written, less than all of them, and nothing else.
#[tactic(auto, using(crate::proofs::Counts::counted_then))]
pub fn write_whole<K: Sink>(sink: &mut K, bytes: &[u8]) -> Result<(), WriteFault>
    ensures written { IsWritten (K.written sink.old) (K.written sink.new)
        (is_ok result) (is_err result) bytes.now }
    // Where there is no byte no write is made.
    ensures untouched { bytes.now ≡ [] → sink.new ≡ sink.old }
    ensures counted { IsCounted (K.faults sink.old) (K.faults sink.new) (is_write_fault result) }
{
    let mut at = 0;
    while at < bytes.len() {
        at += sink.write(&bytes[at..])?;
    }
    Ok(())
}
