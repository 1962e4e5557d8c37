//! Whether bytes are an image of a net, and what is first wrong with them.

ghost use Rattle.std.specs.Prelude.{◌≡◌, ◌≢◌, ◌↔◌, Err, ◌++◌, ◌+◌, ◌*◌, ◌<◌, ◌≤◌, ◌^◌, length, take, Option, Some, IfOk, IsTrue};
ghost use Rattle.std.specs.Option.{option_copied};
ghost use Rattle.dn_base.specs.Terms.{Answers};
ghost use Rattle.dn_kind.specs.Terms.{AreKinds, IsShaped, has_shape, kinds_of};
ghost use Rattle.dn_image.specs.Terms.{PassesFields, broken_image, count_unit, header_fields, image_fault_view, reading_by, unit_fields, units_fields, version_of};

use crate::fault::ImageFault;
use crate::slots::{count_words, record_width};
use crate::write::{HEAD, HEADER, MARK, count_unit, count_units, head};
use byteorder::{ByteOrder, LittleEndian};
use dn_kind::kinded::KindedNet;
use dn_kind::kinds::Kinds;
use dn_net::net::Net;
use dn_net::node::Unit;

/// The version of an image of the net. It takes no memory, and reads the header and the heads alone.
///
/// # Errors
///
/// The first field that is not as in an image of the net. `OutOfMemory` never.
pub fn check(on: KindedNet, bytes: &[u8]) -> Result<u16, ImageFault>
    requires on { IsShaped meaning on }
    ensures exact { Answers (λ version. version) image_fault_view result (reading_by (broken_image
        on.entry.net.now (kinds_of meaning on.entry.kinds.now) bytes.now) (version_of bytes.now)) }
    ensures memory { result ≢ Err ImageFault.OutOfMemory }
{
    let version = check_header(on.net, bytes)?;
    let size = check_heads(on, &bytes[HEADER..], bytes.len() as u64)?;
    let end = HEADER + size;
    if end < bytes.len() {
        return Err(ImageFault::Trailing { at: end as u64 });
    }
    Ok(version)
}

/// Whether bytes begin with these.
fn has_front(bytes: &[u8], front: &[u8]) -> bool
    requires { length front.now ≤ length bytes.now }
    ensures { IsTrue result ↔ (take (length front.now) bytes.now ≡ front.now) }
{
    bytes[..front.len()] == front[..]
}

/// The version, where the mark, the version and the number of units are those of an image.
fn check_header(net: &Net, bytes: &[u8]) -> Result<u16, ImageFault>
    ensures passes { PassesFields (length bytes.now) bytes.now (header_fields net.now) (λ _. 8)
        result }
    ensures version { IfOk result (λ version. version ≡ version_of bytes.now) }
    ensures whole { IfOk result (λ _. 8 ≤ length bytes.now) }
    ensures memory { result ≢ Err ImageFault.OutOfMemory }
{
    let short = ImageFault::Short {
        at: bytes.len() as u64,
    };
    if bytes.len() < 4 {
        return Err(short);
    }
    if !has_front(bytes, &MARK) {
        return Err(ImageFault::Header { at: 0 });
    }
    if bytes.len() < 6 {
        return Err(short);
    }
    let version = LittleEndian::read_u16(&bytes[4..]);
    if version != 1 && version != 2 {
        return Err(ImageFault::Header { at: 4 });
    }
    if bytes.len() < HEADER {
        return Err(short);
    }
    let mut units = [0u8; 2];
    LittleEndian::write_u16(&mut units, count_units(net));
    if !has_front(&bytes[6..], &units) {
        return Err(ImageFault::Header { at: 6 });
    }
    Ok(version)
}

/// How many bytes the heads and words of all units have, where all heads are those of the net and no
/// word is cut. The bytes are the last of so many.
fn check_heads(on: KindedNet, rest: &[u8], total: u64) -> Result<usize, ImageFault>
    requires on { IsShaped meaning on }
    ensures passes { PassesFields total rest.now (units_fields
        (kinds_of meaning on.entry.kinds.now) 0 0 on.entry.net.now) (λ size. size) result }
    ensures whole { IfOk result (λ size. size ≤ length rest.now) }
    ensures memory { result ≢ Err ImageFault.OutOfMemory }
{
    let mut at = 0;
    let mut place = 0;
    for node in 0..on.net.nodes() {
        let unit = on.net.unit(node);
        at += check_node(node, place, unit, on.kinds, &rest[at..], total)?;
        place = count_unit(unit, place);
    }
    Ok(at)
}

/// How many bytes a node has, where it is no unit, or its head is that of the net and no word is
/// cut. The bytes are the last of so many.
fn check_node(
    node: u16,
    place: u16,
    unit: Option<&Unit>,
    kinds: &Kinds,
    rest: &[u8],
    total: u64,
) -> Result<usize, ImageFault>
    requires kinds { AreKinds meaning kinds.now }
    requires shaped { IsTrue (has_shape (kinds_of meaning kinds.now) (option_copied unit)) }
    ensures passes { PassesFields total rest.now (unit_fields
        (kinds_of meaning kinds.now) place node (option_copied unit.entry)) (λ size. size) result }
    ensures whole { IfOk result (λ size. size ≤ length rest.now) }
    ensures memory { result ≢ Err ImageFault.OutOfMemory }
{
    let Some(unit) = unit else {
        return Ok(0);
    };
    if rest.len() < HEAD {
        return Err(ImageFault::Short { at: total });
    }
    let wanted = head(node, record_width(unit, kinds), unit.slots);
    if !has_front(rest, &wanted) {
        return Err(ImageFault::Shape { unit: place });
    }
    let size = HEAD + 8 * count_words(unit, kinds);
    if rest.len() < size {
        return Err(ImageFault::Short { at: total });
    }
    Ok(size)
}
