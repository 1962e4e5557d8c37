//! The normal rows of segments: the row that has an address.

use dn_interval::{Rows, Seg, Span};

#[test]
fn rows_have_the_addresses_up_to_their_last(rt: HostRuntime) {
    let mut segs = Vec::new(rt.alloc());
    for (lo, hi, node) in [(0, 0xff, 0), (0x80, 0x8f, 1)] {
        let span = Span::new(lo, hi).expect(&rt, "a span");
        let base = 0;
        segs.push(Seg { span, node, base }).expect(&rt, "memory");
    }
    let rows = Rows::normal(rt.alloc(), segs.as_slice()).expect(&rt, "memory");
    assert!(rt; rows.rows().len() == 3);
    for (addr, ends) in [
        (0x7f, 1),
        (0x80, 2),
        (0x8f, 2),
        (0x90, 1),
        (0xff, 1),
        (0x100, 0),
    ] {
        let given = rows.at(addr).map_or(0, |row| row.ends().len());
        assert!(rt; given == ends, "{addr}");
    }
}
