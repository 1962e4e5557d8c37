//! The adapters over readers and writers of the system.

use dn_base::sink::{Sink, WriteFault};
use dn_base::source::{ReadFault, Source};
use dn_base::streams::{StdSink, StdSource};
use dn_base::whole;
use dn_base::whole::InputFault;
use std::io;
use std::io::{ErrorKind, Read, Write};

/// A reader and writer whose every call fails.
#[derive(Drop)]
struct Broken;

impl Read for Broken {
    fn read(&mut self, _into: &mut [u8]) -> io::Result<usize> {
        Err(ErrorKind::BrokenPipe.into())
    }
}

impl Write for Broken {
    fn write(&mut self, _piece: &[u8]) -> io::Result<usize> {
        Err(ErrorKind::BrokenPipe.into())
    }

    fn flush(&mut self) -> io::Result<()> {
        Ok(())
    }
}

/// A reader and writer whose first call fails by the error that is there, and which then goes on.
#[derive(Drop)]
struct FailsOnce<S> {
    error: Option<ErrorKind>,
    inner: S,
}

impl<S: Read> Read for FailsOnce<S> {
    fn read(&mut self, into: &mut [u8]) -> io::Result<usize> {
        match self.error.take() {
            Some(error) => Err(error.into()),
            None => self.inner.read(into),
        }
    }
}

impl<S: Write> Write for FailsOnce<S> {
    fn write(&mut self, piece: &[u8]) -> io::Result<usize> {
        match self.error.take() {
            Some(error) => Err(error.into()),
            None => self.inner.write(piece),
        }
    }

    fn flush(&mut self) -> io::Result<()> {
        self.inner.flush()
    }
}

/// Errors of the system, one of which asks for the call to be made again.
const ERRORS: [ErrorKind; 3] = [
    ErrorKind::BrokenPipe,
    ErrorKind::Interrupted,
    ErrorKind::WouldBlock,
];

#[test]
fn reads_a_reader_of_the_system(rt: HostRuntime) {
    let mut source = StdSource::new(b"abc".as_slice());
    let mut piece = [0; 2];
    for (wanted, front) in [(2, b"ab".as_slice()), (1, b"c"), (0, b"")] {
        assert!(rt; source.read(&mut piece) == Ok(wanted));
        assert!(rt; piece.starts_with(front), "{wanted} bytes");
    }
    let text = whole::read_whole(rt.alloc(), &mut StdSource::new(b"abc".as_slice())).expect(
        &rt, "a text",
    );
    assert!(rt; text.as_slice() == b"abc".as_slice());
    assert!(rt; StdSource::new(Broken).read(&mut piece) == Err(ReadFault::Failed));
}

#[test]
fn writes_to_a_writer_of_the_system(rt: HostRuntime) {
    let mut kept = Vec::new(rt.alloc());
    whole::write_whole(&mut StdSink::new(&mut kept), b"abc").expect(&rt, "a write");
    assert!(rt; kept.as_slice() == b"abc".as_slice());
    let mut room = [0; 2];
    let mut full = StdSink::new(room.as_mut_slice());
    assert!(rt; full.write(b"abc") == Ok(2));
    assert!(rt; full.write(b"c") == Err(WriteFault::Failed));
    assert!(rt; full.write(b"") == Ok(0));
    assert!(rt; StdSink::new(Broken).write(b"c") == Err(WriteFault::Failed));
}

/// A reader or writer whose first call fails by an error.
fn failing_once<S>(error: ErrorKind, inner: S) -> FailsOnce<S> {
    FailsOnce {
        error: Some(error),
        inner,
    }
}

#[test]
fn answers_each_fault_of_a_reader(rt: HostRuntime) {
    for error in ERRORS {
        let mut source = StdSource::new(failing_once(error, b"abc".as_slice()));
        let mut piece = [0; 2];
        assert!(rt; source.read(&mut piece) == Err(ReadFault::Failed));
        assert!(rt; source.read(&mut piece) == Ok(2));
        let mut source = StdSource::new(failing_once(error, b"abc".as_slice()));
        let read = whole::read_whole(rt.alloc(), &mut source);
        assert!(rt; matches!(&read, Err(InputFault::Failed)));
        let text = whole::read_whole(rt.alloc(), &mut source).expect(&rt, "a text");
        assert!(rt; text.as_slice() == b"abc".as_slice());
    }
}

#[test]
fn answers_each_fault_of_a_writer(rt: HostRuntime) {
    for error in ERRORS {
        let mut kept = Vec::new(rt.alloc());
        let mut sink = StdSink::new(failing_once(error, &mut kept));
        assert!(rt; sink.write(b"ab") == Err(WriteFault::Failed));
        assert!(rt; sink.write(b"cd") == Ok(2));
        assert!(rt; kept.as_slice() == b"cd".as_slice());
        // No write is made again.
        let mut kept = Vec::new(rt.alloc());
        let mut sink = StdSink::new(failing_once(error, &mut kept));
        let written = whole::write_whole(&mut sink, b"abc");
        assert!(rt; written == Err(WriteFault::Failed));
        assert!(rt; kept.is_empty());
    }
}
