//! Trees that are made of words, and words that are read from trees.

use crate::tests::radix::images::{Given, image_with, words_with};
use dn_radix::build::build;
use dn_radix::fault::{LinearFault, RadixFault};
use dn_radix::laws;
use dn_radix::linear::linear;
use std::alloc::Global;
use std::process::Abort;

/// Compares the number of pages that the tree of so many words has, none of them 0, and the words
/// that come back.
fn full_tree_has_pages(rt: &impl Abort, alloc: Global, count: u32, pages: u32) {
    assert!(rt; count >= 1 && count <= 1_048_576 && pages >= 1);
    let words = vec![in alloc; 0x5u64; count as usize].expect(rt, "memory");
    assert!(rt; words.len() <= 1_048_576);
    let short = build(alloc, words.as_slice(), u64::from(pages) - 1).err();
    assert!(rt; short == Some(RadixFault::Pool { need: pages }), "{count}");
    let image = build(alloc, words.as_slice(), u64::from(pages)).expect(rt, "a tree");
    assert!(rt; image.len() == 4096 * pages as usize, "{count}");
    let back = linear(alloc, image.as_slice(), count).expect(rt, "words");
    assert!(rt; back.as_slice() == words.as_slice(), "{count}");
}

#[test]
fn full_trees_have_their_pages(rt: HostRuntime) {
    laws::level_is_least();
    laws::one_list_of_tree();
    for (count, pages) in [
        (1, 1),
        (512, 1),
        (513, 3),
        (262_144, 513),
        (262_145, 516),
        (1_048_576, 2053),
    ] {
        full_tree_has_pages(&rt, rt.alloc(), count, pages);
    }
}

/// Compares the tree of so many words, of which some are given and the others 0, with an image of
/// so many pages, of which some words are given and the others 0.
fn tree_is(rt: &impl Abort, alloc: Global, words: (u32, &[Given]), image: (u32, &[Given])) {
    let (count, given) = words;
    let (pages, wanted) = image;
    assert!(rt; count >= 1 && count <= 1_048_576);
    let words = words_with(rt, alloc, count as usize, given);
    assert!(rt; words.len() <= 1_048_576);
    let made = build(alloc, words.as_slice(), u64::from(pages)).expect(rt, "a tree");
    let image = image_with(rt, alloc, 4096 * pages as usize, wanted);
    assert!(rt; made.as_slice() == image.as_slice(), "{count}");
    let back = linear(alloc, image.as_slice(), count).expect(rt, "words");
    assert!(rt; back.as_slice() == words.as_slice(), "{count}");
}

#[test]
fn trees_have_no_pages_of_zeros(rt: HostRuntime) {
    let alloc = rt.alloc();
    tree_is(&rt, alloc, (1, &[(0, 0x9)]), (1, &[(0, 0x9)]));
    tree_is(&rt, alloc, (513, &[]), (1, &[]));
    tree_is(
        &rt,
        alloc,
        (1024, &[(0, 0x5), (1023, 0x7)]),
        (3, &[(0, 0x1001), (1, 0x2001), (512, 0x5), (1535, 0x7)]),
    );
    tree_is(
        &rt,
        alloc,
        (1_048_576, &[(262_144, 0x3)]),
        (3, &[(1, 0x1001), (512, 0x2001), (1024, 0x3)]),
    );
}

/// Compares the fault of an image of so many bytes that is the tree of no list of so many words.
fn is_no_tree(rt: &impl Abort, alloc: Global, count: u32, size: usize, given: &[Given]) {
    assert!(rt; count >= 1 && count <= 1_048_576);
    let image = image_with(rt, alloc, size, given);
    let fault = linear(alloc, image.as_slice(), count).err();
    assert!(rt; fault == Some(LinearFault::NotRadix), "{count} {size}");
}

#[test]
fn other_images_are_no_trees(rt: HostRuntime) {
    let alloc = rt.alloc();
    is_no_tree(&rt, alloc, 1, 0, &[]);
    is_no_tree(&rt, alloc, 1, 4095, &[]);
    is_no_tree(&rt, alloc, 1, 4103, &[]);
    is_no_tree(&rt, alloc, 1, 8192, &[]);
    // A word past the last one, which a tree has 0 for.
    is_no_tree(&rt, alloc, 1, 4096, &[(1, 0x5)]);
    // A page of zeros, which no tree has.
    is_no_tree(&rt, alloc, 513, 8192, &[(0, 0x1001)]);
    // Two entries that lead to one page.
    is_no_tree(
        &rt,
        alloc,
        1024,
        8192,
        &[(0, 0x1001), (1, 0x1001), (512, 0x5)],
    );
    // Pages that stand in another order.
    let turned = [(0, 0x2001), (1, 0x1001), (512, 0x7), (1024, 0x5)];
    is_no_tree(&rt, alloc, 1024, 12_288, &turned);
    // An entry that is bad.
    let bad = [(0, 0x1001), (1, 0x2002), (512, 0x5), (1535, 0x7)];
    is_no_tree(&rt, alloc, 1024, 12_288, &bad);
}

#[test]
fn names_each_fault(rt: HostRuntime) {
    let alloc = rt.alloc();
    let (pool, memory) = (RadixFault::Pool { need: 3 }, RadixFault::OutOfMemory);
    let words = format!(in alloc; "{pool} {memory}").expect(&rt, "memory");
    assert!(rt; words.as_str() == "Pool OutOfMemory");
    let (other, memory) = (LinearFault::NotRadix, LinearFault::OutOfMemory);
    let words = format!(in alloc; "{other} {memory}").expect(&rt, "memory");
    assert!(rt; words.as_str() == "NotRadix OutOfMemory");
}
