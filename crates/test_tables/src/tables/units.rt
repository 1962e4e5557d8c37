//! Bytes that are an image of a net of two units, or are not at one place each.

ghost use Rattle.dn_kind.specs.Terms.{IsKinded};

use dn_image::check::check;
use dn_image::fault::ImageFault;
use dn_image::read::read;
use dn_kind::kinded::KindedNet;
use dn_kind::rights::Access;
use dn_lookup::lookup::{LookupFault, lookup};
use dn_net::node::Name;
use std::alloc::Global;
use std::process::Abort;
use std::test::Fail;

/// What is said of bytes as an image: the version, or the first fault.
type Said = Result<u16, ImageFault>;

/// Compares what is said of bytes as an image of the net of two units. Whoever reads the bytes, or looks up in
/// them, is told the same.
fn compare(rt: &impl Abort, alloc: Global, on: KindedNet, bytes: &[u8], wanted: Said)
    requires { IsKinded meaning on }
{
    assert!(rt; check(on, bytes) == wanted);
    let version = read(alloc, on, bytes).map(|image| image.version());
    assert!(rt; version == wanted);
    let fault = lookup(alloc, on, bytes, Access::Read, Name { node: 3, addr: 0 }).err();
    assert!(rt; fault == wanted.err().map(LookupFault::Image));
}

/// An image of that net: 8 bytes, then 8 and 16 for each unit.
const IMAGE: [u8; 56] = [
    b'D', b'N', b'I', b'M', 2, 0, 2, 0, // the header
    1, 0, 1, 0, 2, 0, 0, 0, // the head of the first unit
    3, 4, 0, 8, 0, 0, 0, 0, 0, 0, 0, 0, 0, 0, 0, 0, // its words
    2, 0, 2, 0, 1, 0, 0, 0, // the head of the second unit
    0, 0, 0, 0, 0, 0, 0, 0, 0, 0, 0, 0, 0, 0, 0, 0, // its words
];

/// An image of each version is one.
pub fn take_versions(rt: &impl Abort, alloc: Global, on: KindedNet)
    requires { IsKinded meaning on }
{
    compare(rt, alloc, on, &IMAGE, Ok(2));
    let mut first = IMAGE;
    first[4] = 1;
    compare(rt, alloc, on, &first, Ok(1));
}

/// An image that is cut at a byte is none, and neither is one with a byte too many.
pub fn refuse_lengths(rt: &impl Abort, alloc: Global, on: KindedNet)
    requires { IsKinded meaning on }
{
    for at in 0..56 {
        let wanted = Err(ImageFault::Short { at: at as u64 });
        compare(rt, alloc, on, &IMAGE[..at], wanted);
    }
    let mut longer = [0u8; 57];
    longer[..56].copy_from_slice(&IMAGE);
    let wanted = Err(ImageFault::Trailing { at: 56 });
    compare(rt, alloc, on, &longer, wanted);
}

/// The first wrong field is named.
pub fn name_fields(rt: &impl Abort, alloc: Global, on: KindedNet)
    requires { IsKinded meaning on }
{
    for (at, byte, wanted) in [
        (0, b'd', ImageFault::Header { at: 0 }),
        (3, b'N', ImageFault::Header { at: 0 }),
        (4, 0, ImageFault::Header { at: 4 }),
        (4, 3, ImageFault::Header { at: 4 }),
        (5, 2, ImageFault::Header { at: 4 }),
        (6, 1, ImageFault::Header { at: 6 }),
        (7, 2, ImageFault::Header { at: 6 }),
        (8, 0, ImageFault::Shape { unit: 0 }),
        (10, 2, ImageFault::Shape { unit: 0 }),
        (11, 1, ImageFault::Shape { unit: 0 }),
        (12, 1, ImageFault::Shape { unit: 0 }),
        (32, 1, ImageFault::Shape { unit: 1 }),
        (36, 2, ImageFault::Shape { unit: 1 }),
    ] {
        let mut changed = IMAGE;
        assert!(rt; at < 56);
        changed[at] = byte;
        compare(rt, alloc, on, &changed, Err(wanted));
    }
}

#[test]
fn names_each_fault_of_an_image(rt: HostRuntime) -> Result<(), Fail> {
    let alloc = rt.alloc();
    for (fault, words) in [
        (ImageFault::Short { at: 143 }, "Short"),
        (ImageFault::Header { at: 4 }, "Header"),
        (ImageFault::Shape { unit: 0 }, "Shape"),
        (ImageFault::Trailing { at: 144 }, "Trailing"),
        (ImageFault::OutOfMemory, "OutOfMemory"),
    ] {
        let printed = format!(in alloc; "{fault} {}", LookupFault::Image(fault))?;
        assert!(rt; printed.as_str().strip_suffix(" Image") == Some(words));
    }
    let (agent, memory) = (LookupFault::NoAgent, LookupFault::OutOfMemory);
    let printed = format!(in alloc; "{agent} {memory}")?;
    assert!(rt; printed.as_str() == "NoAgent OutOfMemory");
    Ok(())
}
