//! Answering a text as the program does.

ghost use Rattle.std.specs.Prelude.{◌≡◌, IfOk};
ghost use Rattle.dn_kind.specs.Terms.{AreKinds, kinds_of};
ghost use Rattle.dn_session.specs.Terms.{shipped_kinds};
ghost use Rattle.netconf_c.specs.Opening.{IsRunOf};

use dn_base::OutOfMemory;
use dn_base::memory::{MemSink, MemSource};
use dn_kind::kinds::Kinds;
use dn_session::shipped_kinds;
use dn_tables::sizes::Sizes;
use dn_tool::run as tool;
use dn_words::words::Words;
use std::alloc::Global;

/// How many bytes a read takes at most.
const PIECE: usize = 65_536;

/// The answer to a text.
#[derive(Drop)]
pub(crate) struct Ran {
    /// What is written.
    pub(crate) sink: MemSink,
    /// The status with which the program ends.
    pub(crate) status: u8,
}

/// Answers a text as the program does with the word `run`.
///
/// # Errors
///
/// `OutOfMemory` for want of memory.
pub(crate) fn run(alloc: Global, text: &[u8]) -> Result<Ran, OutOfMemory>
    ensures { IfOk result (λ r. IsRunOf text.now r.status r.sink.written) }
{
    let kinds = shipped_kinds!(alloc, Err(OutOfMemory));
    run_with(alloc, &kinds, text)
}

/// Runs a text with the shipped kinds.
fn run_with(alloc: Global, kinds: &Kinds, text: &[u8]) -> Result<Ran, OutOfMemory>
    requires kinds { AreKinds meaning kinds.now }
    requires shipped { kinds_of meaning kinds.now ≡ shipped_kinds }
    ensures { IfOk result (λ r. IsRunOf text.now r.status r.sink.written) }
{
    let Ok(bytes) = Vec::from_slice(alloc, text) else {
        return Err(OutOfMemory);
    };
    let mut words = Words::new(alloc);
    if words.push("run").is_err() {
        return Err(OutOfMemory);
    }
    let mut source = MemSource::new(bytes, PIECE, Vec::new(alloc));
    let mut sink = MemSink::new(alloc, Vec::new(alloc));
    let mut device = Sizes::none(alloc);
    let status = tool::run(alloc, &words, kinds, &mut source, &mut sink, &mut device);
    if status == tool::NO_MEMORY {
        return Err(OutOfMemory);
    }
    Ok(Ran { sink, status })
}
