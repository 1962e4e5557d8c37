//! Records that are found in images of pages, whoever made them.

use crate::PAGES;
use crate::tests::kinds::{shape, unit_of};
use crate::tests::radix::images::{image_with, words_with};
use crate::tests::radix::wide::{Wide, wide_is_lawful};
use dn_kind::rights::Rights;
use dn_kind::unit_kind::{Record, UnitKind};
use dn_kinds::shipped::{ShippedKind, shipped_are_lawful};
use dn_radix::build::build;
use dn_radix::fault::Bad;
use dn_radix::laws;
use dn_radix::walk::walk;
use std::alloc::Global;
use std::process::Abort;

/// What a walk finds at a slot of a unit of so many slots of the kind `pages`.
fn page_at(
    rt: &impl Abort,
    alloc: Global,
    image: &[u8],
    slots: u32,
    slot: u32,
) -> Result<Option<Record>, Bad> {
    found_at(rt, alloc, ShippedKind::Pages, image, slots, slot)
}

/// What a walk finds at a slot of a unit of so many slots, of a kind with one word for each record.
fn found_at(
    rt: &impl Abort,
    alloc: Global,
    kind: ShippedKind,
    image: &[u8],
    slots: u32,
    slot: u32,
) -> Result<Option<Record>, Bad> {
    shipped_are_lawful();
    let unit = unit_of(rt, alloc, PAGES, shape(12, slots, 40, 1));
    assert!(rt; unit.has_plain_shape());
    assert!(rt; kind.words() == 1);
    assert!(rt; slot < slots && slots <= 262_144 && image.len() <= 4_194_304);
    walk(image, &unit, &kind, slot)
}

/// The record of an output page, with both rights.
fn page(page: u64) -> Result<Option<Record>, Bad> {
    page_for(page, Rights::both())
}

/// The record of an output page.
fn page_for(page: u64, rights: Rights) -> Result<Option<Record>, Bad> {
    let port = 0;
    Ok(Some(Record { port, page, rights }))
}

/// Compares what walks find at slots of a unit of so many: the record of an output page, or none.
fn find_pages(
    rt: &impl Abort,
    alloc: Global,
    image: &[u8],
    slots: u32,
    rows: &[(u32, Option<u64>)],
) {
    for (slot, wanted) in rows {
        let wanted = match wanted {
            Some(number) => page(*number),
            None => Ok(None),
        };
        let found = page_at(rt, alloc, image, slots, *slot);
        assert!(rt; found == wanted, "{slot}");
    }
}

#[test]
fn the_tree_of_a_unit_is_walked(rt: HostRuntime) {
    laws::words_are_found();
    laws::tree_is_walked();
    let alloc = rt.alloc();
    let given = [(0, 0x501), (1023, 0x701), (600, 0x702)];
    let words = words_with(&rt, alloc, 1024, &given);
    assert!(rt; words.len() <= 1_048_576);
    let image = build(alloc, words.as_slice(), 3).expect(&rt, "a tree");
    let rows = [(0, Some(0x5)), (1023, Some(0x7)), (1, None), (600, None)];
    find_pages(&rt, alloc, image.as_slice(), 1024, &rows);
}

#[test]
fn a_tree_of_output_addresses_is_walked(rt: HostRuntime) {
    let alloc = rt.alloc();
    let given = [
        (0, 0x80004001),
        (1, 0x80005011),
        (2, 0x80005021),
        (3, 0x80005003),
        (600, 0x80006041),
        (1023, 0x80007001),
    ];
    let words = words_with(&rt, alloc, 1024, &given);
    assert!(rt; words.len() <= 1_048_576);
    let image = build(alloc, words.as_slice(), 3).expect(&rt, "a tree");
    for (slot, wanted) in [
        (0, page(0x80004)),
        (1, page_for(0x80005, Rights::WRITE)),
        (2, page_for(0x80005, Rights::READ)),
        (3, Ok(None)),
        (600, Ok(None)),
        (1023, page(0x80007)),
    ] {
        let radix = ShippedKind::Radix;
        let found = found_at(&rt, alloc, radix, image.as_slice(), 1024, slot);
        assert!(rt; found == wanted, "{slot}");
    }
}

#[test]
fn other_images_are_walked(rt: HostRuntime) {
    let alloc = rt.alloc();
    // Two entries that lead to one page, and one that leads to the first page itself.
    let shared = [(0, 0x1001), (1, 0x1001), (2, 0x1), (512, 0x501)];
    let image = image_with(&rt, alloc, 8192, &shared);
    let rows = [(0, Some(0x5)), (512, Some(0x5)), (1024, Some(0x10))];
    find_pages(&rt, alloc, image.as_slice(), 2048, &rows);
    let rows = [(1026, Some(0x0)), (1027, None), (1536, None)];
    find_pages(&rt, alloc, image.as_slice(), 2048, &rows);
}

#[test]
fn bad_entries_are_named(rt: HostRuntime) {
    let alloc = rt.alloc();
    let bad = [(0, 0x1001), (1, 0x2002), (2, 0x3001), (512, 0x501)];
    for (size, slot, wanted) in [
        (12_288, 0, page(0x5)),
        (12_288, 511, Ok(None)),
        (12_288, 512, Err(Bad { at: 8 })),
        (12_288, 1023, Err(Bad { at: 8 })),
        // No page stands whole from byte 0x3000 on.
        (12_288, 1024, Err(Bad { at: 16 })),
        (16_383, 1024, Err(Bad { at: 16 })),
        (16_384, 1024, Ok(None)),
        (12_288, 1536, Ok(None)),
    ] {
        let image = image_with(&rt, alloc, size, &bad);
        let found = page_at(&rt, alloc, image.as_slice(), 2048, slot);
        assert!(rt; found == wanted, "{size} {slot}");
    }
    // Bytes after the last whole page are no page.
    let short = image_with(&rt, alloc, 4103, &[(1, 0x1001)]);
    let found = page_at(&rt, alloc, short.as_slice(), 1024, 0);
    assert!(rt; found == Ok(None));
    let found = page_at(&rt, alloc, short.as_slice(), 1024, 512);
    assert!(rt; found == Err(Bad { at: 8 }));
    let none = image_with(&rt, alloc, 4095, &[]);
    let found = page_at(&rt, alloc, none.as_slice(), 1, 0);
    assert!(rt; found == Err(Bad { at: 0 }));
    let word = format!(in alloc; "{}", Bad { at: 8 }).expect(&rt, "memory");
    assert!(rt; word.as_str() == "Bad");
}

/// What a walk finds at a slot of a unit of 300 slots of three words.
fn wide_at(rt: &impl Abort, alloc: Global, image: &[u8], slot: u32) -> Result<Option<Record>, Bad> {
    wide_is_lawful();
    let unit = unit_of(rt, alloc, PAGES, shape(12, 300, 40, 1));
    assert!(rt; unit.has_plain_shape());
    assert!(rt; slot < 300 && image.len() <= 4_194_304);
    walk(image, &unit, &Wide, slot)
}

#[test]
fn a_record_is_found_by_all_its_words(rt: HostRuntime) {
    let alloc = rt.alloc();
    // The words of slot 170 are 510, 511 and 512, and the third is found by another entry.
    let given = [(0, 0x1001), (1, 0x2001), (1023, 0x30), (1024, 0x1)];
    let image = image_with(&rt, alloc, 12_288, &given);
    let found = wide_at(&rt, alloc, image.as_slice(), 170);
    assert!(rt; found == page(0x30));
    let image = image_with(&rt, alloc, 4096, &[(1, 0x2001)]);
    for (slot, wanted) in [
        (169, Ok(None)),
        (170, Err(Bad { at: 8 })),
        (171, Err(Bad { at: 8 })),
    ] {
        let found = wide_at(&rt, alloc, image.as_slice(), slot);
        assert!(rt; found == wanted, "{slot}");
    }
}
