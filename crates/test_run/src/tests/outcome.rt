//! What words over a text come to, with a source, a sink and a device in memory.

ghost use Rattle.std.specs.Prelude.{◌≤◌, ◌<◌, length};
ghost use Rattle.dn_kind.specs.Terms.{AreKinds};

use crate::failing::Failing;
use dn_base::memory::{MemSink, MemSource};
use dn_base::memory_tables::MemTables;
use dn_kind::kinds::Kinds;
use dn_tool::run;
use dn_tool::words::Words;
use std::alloc::Global;
use std::process::Abort;
use test_plans::sure_kinds;

/// For how many events the device has room.
const ROOM: u32 = 1000;

/// What a run came to: its status, the source with what is left, the sink with what was written, and the device with its
/// words and its log.
#[derive(Drop)]
pub struct Outcome {
    pub status: u8,
    pub source: MemSource,
    pub sink: MemSink,
    pub device: MemTables,
}

/// Runs the words over the text, of which a read gives at most `most` bytes, with the kinds of the program. Want of memory
/// in the run is its status.
pub fn answer(
    rt: &impl Abort,
    alloc: Global,
    list: &[&str],
    text: &[u8],
    most: usize,
    failing: Failing<'_>,
) -> Outcome
    requires { 0 < most }
{
    let kinds = sure_kinds!(rt, alloc);
    let words = words_of(rt, alloc, list);
    answer_with(rt, alloc, &words, &kinds, text, most, failing)
}

/// The words, as the program has them after its name.
pub(crate) fn words_of(rt: &impl Abort, alloc: Global, list: &[&str]) -> Words {
    let mut words = Words::new(alloc);
    for word in list {
        words.push(word).expect(rt, "memory");
    }
    words
}

/// The same with the kinds that are handed in.
pub(crate) fn answer_with(
    rt: &impl Abort,
    alloc: Global,
    words: &Words,
    kinds: &Kinds,
    text: &[u8],
    most: usize,
    failing: Failing<'_>,
) -> Outcome
    requires some { 0 < most }
    requires few { length kinds.now.list.items ≤ 255 }
    requires kinds { AreKinds meaning kinds.now }
{
    let bytes = text.to_vec(alloc).expect(rt, "memory");
    let reads = failing.reads.to_vec(alloc).expect(rt, "memory");
    let mut source = MemSource::new(bytes, most, reads);
    let writes = failing.writes.to_vec(alloc).expect(rt, "memory");
    let mut sink = MemSink::new(alloc, writes);
    let calls = failing.device.to_vec(alloc).expect(rt, "memory");
    let mut device = MemTables::new(alloc, ROOM, calls).expect(rt, "a device");
    let status = run::run(alloc, words, kinds, &mut source, &mut sink, &mut device);
    Outcome {
        status,
        source,
        sink,
        device,
    }
}
