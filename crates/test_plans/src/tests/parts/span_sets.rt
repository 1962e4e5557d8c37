//! Spans and sets of them: the edges of spans, and sets that join, meet and turn over.

use dn_interval::{Span, SpanSet, TOP, laws};
use std::alloc::Global;
use std::process::Abort;

#[test]
fn spans_end_where_they_may(rt: HostRuntime) {
    laws::one_list_of_spans();
    laws::one_list_of_rows();
    let cases = [
        (0, TOP, true),
        (TOP, TOP, true),
        (1, 0, false),
        (0, TOP + 1, false),
    ];
    for (lo, hi, valid) in cases {
        assert!(rt; Span::new(lo, hi).is_some() == valid, "[{lo}-{hi}]");
    }
}

fn set_of(rt: &impl Abort, alloc: Global, ends: &[(u64, u64)]) -> SpanSet {
    let mut set = SpanSet::new(alloc);
    for (lo, hi) in ends {
        if let Some(span) = Span::new(*lo, *hi) {
            set.insert(span).expect(rt, "memory");
        }
    }
    set
}

fn has_spans(set: &SpanSet, ends: &[(u64, u64)]) -> bool {
    let spans = set.spans();
    spans.len() == ends.len()
        && spans
            .iter()
            .zip(ends)
            .all(|(s, (lo, hi))| s.lo == *lo && s.hi == *hi)
}

/// Compares the spans of what is missing in a set, and of what it has in common with another.
fn compare_both(
    rt: &impl Abort,
    alloc: Global,
    set: &SpanSet,
    missing: &[(u64, u64)],
    other: &[(u64, u64)],
    common: &[(u64, u64)],
) {
    let complement = set.complement(alloc).expect(rt, "memory");
    assert!(rt; has_spans(&complement, missing));
    let other = set_of(rt, alloc, other);
    let meet = set.meet(alloc, &other).expect(rt, "memory");
    assert!(rt; has_spans(&meet, common));
}

#[test]
fn sets_join_meet_and_turn_over(rt: HostRuntime) {
    let set = set_of(&rt, rt.alloc(), &[(0, 0xf), (0x10, 0x1f)]);
    assert!(rt; has_spans(&set, &[(0, 0x1f)]));
    assert!(rt; set.contains(0x1f));
    assert!(rt; !set.contains(0x20));
    let missing = [(0x20, TOP)];
    compare_both(
        &rt,
        rt.alloc(),
        &set,
        &missing,
        &[(0x8, 0x27)],
        &[(0x8, 0x1f)],
    );
}

#[test]
fn a_span_joins_all_that_it_touches(rt: HostRuntime) {
    let parts = [(0x40, 0x4f), (0, 0xf), (0x20, 0x2f), (0x60, 0x6f)];
    let mut set = set_of(&rt, rt.alloc(), &parts);
    let between = [(0x10, 0x1f), (0x30, 0x3f), (0x50, 0x5f), (0x70, TOP)];
    compare_both(&rt, rt.alloc(), &set, &between, &between, &[]);
    if let Some(span) = Span::new(0x10, 0x3f) {
        set.insert(span).expect(&rt, "memory");
    }
    assert!(rt; has_spans(&set, &[(0, 0x4f), (0x60, 0x6f)]));
}
