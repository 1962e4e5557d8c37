//! Lookups in images.

ghost use Rattle.dn_kind.specs.Terms.{IsKinded};

use crate::tables::images::{Held, is_read, with_words};
use dn_image::check::check;
use dn_image::fault::ImageFault;
use dn_kind::kinded::KindedNet;
use dn_kind::rights::Access;
use dn_lookup::lookup::{LookupFault, lookup};
use dn_net::node::Name;
use std::alloc::Global;
use std::process::Abort;

/// The image of the board with pages whose first word is this: a header, the head of the one unit, node 5, whose
/// records have a word each, and 16 words.
pub fn page_image(version: u8, word: u64) -> [u8; 144] {
    let mut image = [0; 144];
    image[..16].copy_from_slice(b"DNIM\x02\0\x01\0\x05\0\x01\0\x10\0\0\0");
    image[4] = version;
    image[16..24].copy_from_slice(&word.to_le_bytes());
    image
}

/// The words of its unit.
pub fn page_words(word: u64) -> [u64; 16] {
    let mut words = [0; 16];
    words[0] = word;
    words
}

/// The image of the board with two ports whose first word is this.
fn port_image(word: u64) -> [u8; 48] {
    let mut image = [0; 48];
    image[..16].copy_from_slice(b"DNIM\x02\0\x01\0\x03\0\x01\0\x04\0\0\0");
    image[16..24].copy_from_slice(&word.to_le_bytes());
    image
}

/// A name of the agent of the board with pages.
const ASKED: Name = Name {
    node: 4,
    addr: 0x10,
};

/// Where it comes to by a record of page 4.
const PAGED: Name = Name {
    node: 0,
    addr: 0x4010,
};

/// Compares where it comes to for reading and for writing.
fn compare_both(
    rt: &impl Abort,
    alloc: Global,
    on: KindedNet,
    image: &[u8],
    reading: Option<Name>,
    writing: Option<Name>,
)
    requires { IsKinded meaning on }
{
    compare(rt, alloc, on, image, ASKED, Access::Read, reading);
    compare(rt, alloc, on, image, ASKED, Access::Write, writing);
}

/// Compares the one name, or none, to which an address of an agent comes.
fn compare(
    rt: &impl Abort,
    alloc: Global,
    on: KindedNet,
    image: &[u8],
    from: Name,
    access: Access,
    wanted: Option<Name>,
)
    requires { IsKinded meaning on }
{
    let names = lookup(alloc, on, image, access, from);
    let names = names.expect(rt, "names");
    assert!(rt; names.list() == wanted.as_slice(), "{from:?} {access:?}");
}

/// Compares what is read of an image, whatever its words spell.
fn compare_words(rt: &impl Abort, alloc: Global, on: KindedNet, image: &[u8], wanted: Held)
    requires { IsKinded meaning on }
{
    assert!(rt; check(on, image) == Ok(wanted.version));
    assert!(rt; is_read(alloc, on, image, wanted) == Ok(true));
}

/// Compares what is read of the images of both versions of the board with pages whose first word is this.
fn compare_versions(rt: &impl Abort, alloc: Global, on: KindedNet, word: u64)
    requires { IsKinded meaning on }
{
    let words = page_words(word);
    let (first, second) = (page_image(1, word), page_image(2, word));
    compare_words(rt, alloc, on, &first, with_words(1, 5, &words));
    compare_words(rt, alloc, on, &second, with_words(2, 5, &words));
    // The bus has no words.
    compare_words(rt, alloc, on, &first, with_words(1, 2, &[]));
}

/// What is looked up in images of the board with pages.
pub fn look_up_pages(rt: &impl Abort, alloc: Global, on: KindedNet)
    requires { IsKinded meaning on }
{
    follow_records(rt, alloc, on);
    ask_rights(rt, alloc, on);
    ask_without(rt, alloc, on);
}

/// An address goes by the record of its slot, and nowhere where the words spell none.
fn follow_records(rt: &impl Abort, alloc: Global, on: KindedNet)
    requires { IsKinded meaning on }
{
    let there = Some(PAGED);
    for (word, wanted) in [
        (0x8000401, there),
        // A bit that must be 0 is set.
        (0x8000403, None),
        // The output page is past the reach.
        (0x10000001, None),
        // The gate is shut.
        (0x8000400, None),
        (0, None),
    ] {
        compare_versions(rt, alloc, on, word);
        compare_both(rt, alloc, on, &page_image(2, word), wanted, wanted);
    }
}

/// A record lets through what its rights allow.
fn ask_rights(rt: &impl Abort, alloc: Global, on: KindedNet)
    requires { IsKinded meaning on }
{
    let there = Some(PAGED);
    for (version, word, reading, writing) in [
        // Writing is denied, then reading, then both.
        (2, 0x8000421, there, None),
        (2, 0x8000411, None, there),
        (2, 0x8000431, None, None),
        // In the first version a record of one access counts for nothing.
        (1, 0x8000421, None, None),
        (1, 0x8000411, None, None),
        (1, 0x8000401, there, there),
    ] {
        let image = page_image(version, word);
        compare_both(rt, alloc, on, &image, reading, writing);
    }
}

/// A record sends to its port, and nowhere where the unit lacks the port or the page is past its
/// reach.
pub fn ask_ports(rt: &impl Abort, alloc: Global, on: KindedNet)
    requires { IsKinded meaning on }
{
    let from = Name {
        node: 2,
        addr: 0x10,
    };
    for (word, wanted) in [
        (0x101, Some((0, 0x1010))),
        (0x103, Some((1, 0x1010))),
        // The last page, and one past it.
        (0x303, Some((1, 0x3010))),
        (0x403, None),
        // Ports that the unit does not have.
        (0x105, None),
        (0x10f, None),
    ] {
        let wanted = wanted.map(|(node, addr)| Name { node, addr });
        let image = port_image(word);
        compare_words(rt, alloc, on, &image, with_words(2, 3, &[word, 0, 0, 0]));
        compare(rt, alloc, on, &image, from, Access::Read, wanted);
    }
}

/// Without an agent or an image there is no answer.
fn ask_without(rt: &impl Abort, alloc: Global, on: KindedNet)
    requires { IsKinded meaning on }
{
    let image = page_image(2, 0);
    // The core reaches the memory through no unit.
    let from = Name {
        node: 3,
        addr: 0x8000_0000,
    };
    let wanted = Some(Name { node: 0, addr: 0 });
    compare(rt, alloc, on, &image, from, Access::Read, wanted);
    // The bus is no agent, and there is no node 6. That is said whatever the bytes are.
    for (node, length) in [(2, 144), (2, 0), (6, 144), (6, 3)] {
        assert!(rt; length <= 144);
        let name = Name { node, addr: 0 };
        let given = lookup(alloc, on, &image[..length], Access::Read, name);
        assert!(rt; given.err() == Some(LookupFault::NoAgent), "{node}");
    }
    for length in [143] {
        assert!(rt; length <= 144);
        let name = Name { node: 4, addr: 0 };
        let given = lookup(alloc, on, &image[..length], Access::Read, name);
        let short = ImageFault::Short { at: 143 };
        assert!(rt; given.err() == Some(LookupFault::Image(short)));
    }
}
