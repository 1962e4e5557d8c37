//! Tests of audits: how much is read, how an input is parted, what comes of a read, a write or a call of the device that
//! fails, and that no unit is made.

use crate::failing::{Failing, failing_calls, failing_reads, failing_writes};
use crate::tests::outcome::{Outcome, answer};
use crate::tests::rows::{comes_to, keeps_limit};
use dn_audit::input::{image_part, read_up_to, text_part};
use dn_base::memory::MemSource;
use dn_tool::run::{DONE, READ_FAULT, REFUSED, WRITE_FAULT};
use std::alloc::Global;
use std::process::Abort;

/// A unit with a record for page 4, by which an engine sees a page of the memory that a core sees whole. Its command is
/// read, and not run.
const TEXT: &str = "dram is accept [0x0-0xffff];
agent core is over dram;
agent dma is map [0x0-0xfff to mmu at 0x0];
unit mmu kind pages page 12 slots 1 reach 16 to dram;
begin; dump;
\0DNIM\x02\0\x01\0\x03\0\x01\0\x01\0\0\0\x01\x04\0\0\0\0\0\0";

/// What is said of it: the heading, and then a view at a time.
const REPORT: &str = "audit bytes 24 records 1 shut 0 shared 1
view core for read rows 1
0x0-0xffff dram@0x0
view core for write rows 1
0x0-0xffff dram@0x0
view dma for read rows 1
0x0-0xfff dram@0x4000
view dma for write rows 1
0x0-0xfff dram@0x4000
shared dram 0x4000-0x4fff core dma
";

/// Audits the text, where these calls fail.
fn audit(rt: &impl Abort, alloc: Global, failing: Failing<'_>) -> Outcome {
    answer(rt, alloc, &["audit"], TEXT.as_bytes(), 4096, failing)
}

#[test]
fn makes_no_unit_for_an_audit(rt: HostRuntime) {
    let outcome = audit(&rt, rt.alloc(), failing_calls(&[0]));
    assert!(rt; outcome.status == DONE);
    assert!(rt; outcome.sink.written() == REPORT.as_bytes());
    assert!(rt; outcome.device.log().len() == 0);
}

#[test]
fn writes_nothing_where_a_read_of_an_audit_fails(rt: HostRuntime) {
    // The input is read in three reads of 64 bytes, the last of which gives fewer, and one that gives none.
    for call in 0..4u32 {
        let calls = [call];
        comes_to(
            &rt,
            &["audit"],
            TEXT,
            64,
            failing_reads(&calls),
            READ_FAULT,
            "",
        );
    }
    comes_to(&rt, &["audit"], TEXT, 64, failing_reads(&[4]), DONE, REPORT);
}

#[test]
fn stops_where_a_write_of_an_audit_fails(rt: HostRuntime) {
    // The heading is one write, that of a view another, then its rows, and the shared rows are one.
    let fronts = [0, 41, 67, 87, 114, 134, 159, 181, 207, 229];
    for (call, bytes) in (0..10u32).zip(fronts) {
        let outcome = audit(&rt, rt.alloc(), failing_writes(&[call]));
        assert!(rt; outcome.status == WRITE_FAULT, "{call}");
        assert!(rt; outcome.sink.written().len() == bytes, "{call}");
    }
    comes_to(
        &rt,
        &["audit"],
        TEXT,
        4096,
        failing_writes(&[10]),
        DONE,
        REPORT,
    );
}

#[test]
fn reads_an_audit_to_its_own_limit(rt: HostRuntime) {
    // 67,108,865 bytes are taken by 1,024 reads of 65,536 bytes and one of a byte.
    let line = "refused: InputLength\n";
    keeps_limit(&rt, "audit", 67_108_874, 65_536, (1024, 1025), line);
}

#[test]
fn takes_the_longest_input_of_an_audit(rt: HostRuntime) {
    // Of a text that is too long by itself its own rule is told, and the input is within its limit.
    let text = " ".repeat(rt.alloc(), 67_108_864).expect(&rt, "memory");
    let none = failing_reads(&[]);
    let line = "refused: Length\n";
    comes_to(&rt, &["audit"], text.as_str(), 65_536, none, REFUSED, line);
}

/// Compares the text and the image of what is read of seven bytes up to a limit.
fn compare_parts(rt: &impl Abort, alloc: Global, limit: usize, image: Option<&str>) {
    let bytes = b"a//\0b\0c".to_vec(alloc).expect(rt, "memory");
    let mut source = MemSource::new(bytes, 2, Vec::new(alloc));
    let input = read_up_to(alloc, &mut source, limit).expect(rt, "an input");
    assert!(rt; text_part(input.as_slice()) == "a//".as_bytes());
    match image_part(input.as_slice()) {
        Some(given) => compare_image(rt, given, image),
        None => assert!(rt; image.is_none()),
    }
}

/// Compares an image that was given.
fn compare_image(rt: &impl Abort, given: &[u8], wanted: Option<&str>) {
    match wanted {
        Some(wanted) => assert!(rt; given == wanted.as_bytes()),
        None => assert!(rt; false),
    }
}

#[test]
fn parts_an_input_at_its_first_byte_0(rt: HostRuntime) {
    // The limit is before the first byte 0, at it, past it, and past the end.
    for (limit, image) in [
        (3, None),
        (4, Some("")),
        (6, Some("b\0")),
        (9, Some("b\0c")),
    ] {
        compare_parts(&rt, rt.alloc(), limit, image);
    }
}
