//! The input of an audit: reading up to a limit, and the parts that the first byte 0 parts.

ghost use Rattle.std.specs.Prelude.{◌≡◌, ◌++◌, ◌-◌, ◌<◌, ◌≤◌, length, take, IfOk, IfSome, IsErrOf, vec_len};
ghost use Rattle.std.specs.Option.{option_copied};
ghost use Rattle.dn_base.specs.Terms.{AtEnd, IsCounted, Taken, TakenAtMost, is_input_fault};
ghost use Rattle.dn_audit.specs.Terms.{image_part, text_part, zero_at};

use dn_base::source::Source;
use dn_base::whole::InputFault;
use std::alloc::Global;

/// The most bytes of one read.
const PIECE: usize = 65_536;

/// Reads until the source ends or so many bytes are taken, and answers what was taken. No read is made
/// once they are taken.
///
/// # Errors
///
/// `Failed` at the first read that fails, only where the source's count of faults rose in this call,
/// or stands at the last value of its counter. `OutOfMemory` for want of memory. After both the
/// bytes that were taken before are lost.
#[tactic(auto, using(dn_base::proofs::Counts::counted_then))]
pub fn read_up_to<S: Source>(
    alloc: Global,
    source: &mut S,
    limit: usize,
) -> Result<Vec<u8>, InputFault>
    ensures within { IfOk result (λ input. vec_len input ≤ limit) }
    ensures taken { IfOk result
        (λ input. Taken (S.left source.old) (S.left source.new) input.items) }
    ensures end { IfOk result (λ input. vec_len input < limit → AtEnd (S.left source.new)) }
    ensures front { IfOk result (λ input.
        IfSome (S.left source.old) (λ told. input.items ≡ take limit told)) }
    ensures at_most { TakenAtMost limit (S.left source.old) (S.left source.new) }
    // What was read is what the reads of this call gave.
    ensures given { IfOk result (λ input. S.given source.new ≡ S.given source.old ++ input.items) }
    // A fault comes only before the limit was taken: no read is made after that.
    ensures before_limit { IsErrOf result InputFault.Failed →
        TakenAtMost (limit - 1) (S.left source.old) (S.left source.new) }
    ensures counted { IsCounted (S.faults source.old)
        (S.faults source.new) (is_input_fault result) }
{
    let mut input = Vec::new(alloc);
    let mut piece = [0u8; PIECE];
    while input.len() < limit {
        let room = (limit - input.len()).min(PIECE);
        let Ok(count) = source.read(&mut piece[..room]) else {
            return Err(InputFault::Failed);
        };
        if count == 0 {
            return Ok(input);
        }
        let Ok(()) = input.extend_from_slice(&piece[..count]) else {
            return Err(InputFault::OutOfMemory);
        };
    }
    Ok(input)
}

/// Where the first byte 0 stands, or the number of bytes where none is 0.
fn zero_at(input: &[u8]) -> usize
    ensures place { result ≡ zero_at input.now }
    ensures within { result ≤ length input.now }
{
    let mut at = 0;
    while at < input.len() && input[at] != 0 {
        at += 1;
    }
    at
}

/// The text of an input: what stands before the first byte 0, or all of it where no byte is 0.
pub fn text_part(input: &[u8]) -> &[u8]
    ensures { result.now ≡ text_part input.now }
{
    &input[..zero_at(input)]
}

/// The image of an input: what stands after the first byte 0. `None` exactly where no byte is 0.
pub fn image_part(input: &[u8]) -> Option<&[u8]>
    ensures { option_copied result ≡ image_part input.now }
{
    let at = zero_at(input);
    if at < input.len() {
        Some(&input[at + 1..])
    } else {
        None
    }
}
