//! The layouts of the kinds, and the shapes that they fit. What words of the other kinds spell is shown by texts of
//! `answers/audits` (`words_of_pages`, `words_of_remap`, `words_of_radix`).

ghost use Rattle.std.specs.Prelude.{◌≡◌};

use crate::PAGES;
use crate::tests::kinds::{shape, unit_of};
use dn_kind::rights::Rights;
use dn_kind::shape::Shape;
use dn_kind::unit_kind::{Record, UnitKind};
use dn_kinds::shipped::ShippedKind::{Pages, Radix, Remap, Vectors};
use std::alloc::Global;
use std::process::Abort;

/// A record.
fn to(port: u8, page: u64, rights: Rights) -> Record
    ensures { result ≡ record { port = port; page = page; rights = rights } }
{
    Record { port, page, rights }
}

/// Whether a unit of this shape has a shape that a unit may have, whatever its kind.
fn is_plain(rt: &impl Abort, alloc: Global, shape: Shape) -> bool {
    unit_of(rt, alloc, PAGES, shape).has_plain_shape()
}

/// A record that is there.
fn spelled(port: u8, page: u64, rights: Rights) -> Option<Record> {
    Some(to(port, page, rights))
}

/// A shape of 16 slots and a reach of 56.
fn wide(page: u8, ports: u8) -> Shape
    ensures { result ≡ record { page = page; slots = 16; reach = 56; ports = ports } }
{
    shape(page, 16, 56, ports)
}

#[test]
fn reads_words_of_vectors(rt: HostRuntime) {
    let last = 0xffff_ffff_ffff_ffff;
    let rows = [
        (0x20, 0x11, spelled(0, 0x20, Rights::WRITE)),
        (0x20, 0x25, spelled(2, 0x20, Rights::READ)),
        (last, 0xf, spelled(7, last, Rights::both())),
        (0x20, 0x41, None),
        (0x21, 0xe, None),
    ];
    for (address, gate, wanted) in rows {
        let given = Vectors.unpack(&[address, gate]);
        assert!(rt; given == wanted, "{address:x} {gate:x}");
    }
}

#[test]
fn packs_records(rt: HostRuntime) {
    let mut words = [u64::MAX; 4];
    let both = to(0, 0x80004, Rights::both());
    Pages.pack(wide(12, 1), both, &mut words);
    assert!(rt; words == [0x8000401, 0, 0, 0]);
    let writing = to(3, 0x80004, Rights::WRITE);
    Remap.pack(wide(12, 8), writing, &mut words);
    assert!(rt; words == [0x8000417, 0, 0, 0]);
    let reading = to(2, 0x20, Rights::READ);
    Vectors.pack(wide(0, 8), reading, &mut words);
    assert!(rt; words == [0x20, 0x25, 0, 0]);
    Radix.pack(wide(12, 8), writing, &mut words);
    assert!(rt; words == [0x80004017, 0, 0, 0]);
}

#[test]
fn fits_shapes(rt: HostRuntime) {
    for (page, ports, pages, remap, vectors, radix) in [
        (12, 0, false, false, false, false),
        (12, 1, true, true, false, true),
        (12, 2, false, true, false, true),
        (12, 8, false, true, false, true),
        (12, 9, false, false, false, false),
        (0, 1, true, true, true, false),
        (0, 8, false, true, true, false),
        (0, 9, false, false, false, false),
        (1, 8, false, true, false, false),
        (11, 1, true, true, false, false),
        (13, 1, true, true, false, false),
    ] {
        let shape = wide(page, ports);
        assert!(rt; Pages.fits(shape) == pages, "pages, {page}, {ports}");
        assert!(rt; Remap.fits(shape) == remap, "remap, {page}, {ports}");
        assert!(rt; Vectors.fits(shape) == vectors, "vectors, {page}, {ports}");
        assert!(rt; Radix.fits(shape) == radix, "radix, {page}, {ports}");
        let is_few = 1 <= ports && ports <= 8;
        assert!(rt; is_plain(&rt, rt.alloc(), shape) == is_few, "{ports}");
    }
}
