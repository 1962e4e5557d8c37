//! Reads and writes over objects in memory, and whole texts over them.

ghost use Rattle.std.specs.Prelude.{◌<◌};

use dn_base::memory::{MemSink, MemSource};
use dn_base::sink::{Sink, WriteFault};
use dn_base::source::{ReadFault, Source};
use dn_base::whole;
use dn_base::whole::InputFault;
use std::alloc::Global;
use std::process::Abort;

/// The source of these bytes, which gives at most `most` bytes a read and fails at the calls whose numbers are
/// listed.
fn source_of(
    rt: &impl Abort,
    alloc: Global,
    bytes: &[u8],
    most: usize,
    failing: &[u32],
) -> MemSource
    requires { 0 < most }
{
    let bytes = bytes.to_vec(alloc).expect(rt, "memory");
    let failing = failing.to_vec(alloc).expect(rt, "memory");
    MemSource::new(bytes, most, failing)
}

/// A sink that fails at the call of this number.
fn sink_of(rt: &impl Abort, alloc: Global, failing: u32) -> MemSink {
    MemSink::new(alloc, [failing].to_vec(alloc).expect(rt, "memory"))
}

/// Compares what each read answers of a source of three bytes that gives two a read.
fn read_by_two(
    rt: &impl Abort,
    alloc: Global,
    failing: &[u32],
    answers: &[Result<usize, ReadFault>],
) {
    let mut source = source_of(rt, alloc, &[7, 8, 9], 2, failing);
    let mut piece = [0; 4];
    for answer in answers {
        assert!(rt; source.read(&mut piece) == *answer);
    }
}

#[test]
fn reads_three_bytes_by_two(rt: HostRuntime) {
    read_by_two(&rt, rt.alloc(), &[], &[Ok(2), Ok(1), Ok(0)]);
}

#[test]
fn fails_at_a_listed_read(rt: HostRuntime) {
    read_by_two(
        &rt,
        rt.alloc(),
        &[1],
        &[Ok(2), Err(ReadFault::Failed), Ok(1)],
    );
}

#[test]
fn reads_a_whole_text_in_pieces(rt: HostRuntime) {
    let alloc = rt.alloc();
    for most in [1, 2, 4096] {
        let mut source = source_of(&rt, alloc, &[7, 8, 9], most, &[]);
        let text = whole::read_whole(alloc, &mut source).expect(&rt, "a text");
        assert!(rt; text.as_slice() == [7, 8, 9].as_slice(), "by {most}");
    }
}

#[test]
fn reads_no_text_where_a_read_fails(rt: HostRuntime) {
    let alloc = rt.alloc();
    for call in 0..3 {
        let mut source = source_of(&rt, alloc, &[7, 8, 9], 2, &[call]);
        let read = whole::read_whole(alloc, &mut source);
        assert!(rt; matches!(&read, Err(InputFault::Failed)), "call {call}");
    }
}

#[test]
fn writes_what_it_is_given(rt: HostRuntime) {
    let mut sink = sink_of(&rt, rt.alloc(), 1);
    assert!(rt; sink.write(b"ab") == Ok(2));
    assert!(rt; sink.write(b"cd") == Err(WriteFault::Failed));
    assert!(rt; sink.write(b"") == Ok(0));
    assert!(rt; whole::write_whole(&mut sink, b"ef") == Ok(()));
    assert!(rt; sink.written() == b"abef".as_slice());
}

#[test]
fn writes_nothing_where_the_first_write_fails(rt: HostRuntime) {
    let mut broken = sink_of(&rt, rt.alloc(), 0);
    let written = whole::write_whole(&mut broken, b"hi");
    assert!(rt; written == Err(WriteFault::Failed));
    assert!(rt; broken.written().is_empty());
}

#[test]
fn makes_no_write_of_no_byte(rt: HostRuntime) {
    let mut broken = sink_of(&rt, rt.alloc(), 0);
    assert!(rt; whole::write_whole(&mut broken, b"") == Ok(()));
    // The call that fails is still to come.
    assert!(rt; broken.write(b"a") == Err(WriteFault::Failed));
}

/// How many bytes are read of a text of so many, by 4,096 a read, where only one call fails.
fn taken(rt: &impl Abort, alloc: Global, size: usize, failing: u32) -> Result<usize, InputFault> {
    let text = b"a".repeat(alloc, size).expect(rt, "memory");
    let mut source = source_of(rt, alloc, &text, 4096, &[failing]);
    Ok(whole::read_whole(alloc, &mut source)?.len())
}

#[test]
fn makes_no_read_once_the_limit_is_taken(rt: HostRuntime) {
    // The limit is taken by 1,024 reads of 4,096 bytes and one of a byte; the end is found by a read of none.
    let failed = Err(InputFault::Failed);
    let rows = [
        (4_194_314, 1024, failed),
        (4_194_314, 1025, Ok(4_194_305)),
        (4_194_305, 1024, failed),
        (4_194_305, 1025, Ok(4_194_305)),
        (4_194_304, 1024, failed),
        (4_194_304, 1025, Ok(4_194_304)),
    ];
    for (size, failing, wanted) in rows {
        let given = taken(&rt, rt.alloc(), size, failing);
        assert!(rt; given == wanted, "{size} bytes, call {failing}");
    }
}
