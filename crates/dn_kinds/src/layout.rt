//! What the layouts share: the ports, the bits of a word, and the gate word, which says of a record
//! all but its output page.

ghost use Rattle.std.specs.Prelude.{◌≡◌, ◌<◌};
ghost use Rattle.dn_kinds.specs.Terms.{bits, denials, gate_bits, gated, has_ports, rights_left};

use dn_kind::rights::{Access, Rights};
use dn_kind::shape::{MAX_PORTS, Shape};
use dn_kind::unit_kind::Record;

/// The gate of a gate word.
const GATE: u64 = 1;

/// The first bit of a port.
const PORT: u32 = 1;

/// The bit of a gate word that denies reading.
const NO_READING: u32 = 4;

/// The bit of a gate word that denies writing.
const NO_WRITING: u32 = 5;

/// Whether a shape has 1 to 8 ports.
pub(crate) fn has_ports(shape: Shape) -> bool
    ensures { result ≡ has_ports shape }
{
    1 <= shape.ports && shape.ports <= MAX_PORTS
}

/// So many bits of a word, from a bit on, as a number.
pub(crate) fn bits(word: u64, first: u32, count: u32) -> u64
    requires first { first < 64 }
    requires count { count < 64 }
    ensures { result ≡ bits word first count }
{
    (word >> first) % (1 << count)
}

/// The port of a gate word.
pub(crate) fn port_bits(word: u64) -> u64
    ensures { result ≡ bits word 1 3 }
{
    bits(word, PORT, 3)
}

/// What denies the accesses that are not among the rights, in a gate word.
fn denials(rights: Rights) -> u64
    ensures { result ≡ denials rights }
{
    let read = if rights.allows(Access::Read) {
        0
    } else {
        1 << NO_READING
    };
    let write = if rights.allows(Access::Write) {
        0
    } else {
        1 << NO_WRITING
    };
    read + write
}

/// The rights that a gate word leaves. `None` where it denies both reading and writing.
fn rights_left(word: u64) -> Option<Rights>
    ensures { result ≡ rights_left word }
{
    let reads = bits(word, NO_READING, 1) == 0;
    let writes = bits(word, NO_WRITING, 1) == 0;
    if reads && writes {
        Some(Rights::both())
    } else if reads {
        Some(Rights::READ)
    } else if writes {
        Some(Rights::WRITE)
    } else {
        None
    }
}

/// What a gate word has of a record: the gate, the port and the denials.
pub(crate) fn gate_bits(record: Record) -> u64
    requires { «record».port < 8 }
    ensures { result ≡ gate_bits «record» }
{
    GATE + (u64::from(record.port) << PORT) + denials(record.rights)
}

/// The record of a gate word and an output page. `None` where a bit that must be zero is set, where
/// the gate is clear, and where both accesses are denied.
pub(crate) fn gated(zeros: bool, word: u64, page: u64) -> Option<Record>
    ensures { result ≡ gated zeros word page }
{
    if !zeros || bits(word, 0, 1) != GATE {
        return None;
    }
    let rights = rights_left(word)?;
    Some(Record {
        port: port_bits(word) as u8,
        page,
        rights,
    })
}
