//! The image of a set of tables.

ghost use Rattle.std.specs.Prelude.{◌≡◌, ◌++◌, ◌+◌, ◌*◌, ◌-◌, ◌<◌, ◌≤◌, ◌^◌, List, length, map, min, replicate, Some, IfOk, OnOk, IsTrue};
ghost use Rattle.std.specs.Option.{option_copied};
ghost use Rattle.byteorder.specs.Endian.{little_bytes};
ghost use Rattle.dn_kind.specs.Terms.{AreKinds, Meaning, kinds_of};
ghost use Rattle.dn_tables.specs.Terms.{FitsNet, fits_kinds, unit_in, units_of, words_in, words_of};
ghost use Rattle.dn_image.specs.Terms.{count_unit, head_of, image, image_mark, unit_bytes, unit_count, word_bytes, written_version};

use crate::OutOfMemory;
use crate::slots::record_width;
use byteorder::{ByteOrder, LittleEndian};
use dn_base::filled::Filled;
use dn_kind::kinded::KindedNet;
use dn_kind::kinds::Kinds;
use dn_net::net::Net;
use dn_net::node::Unit;
use dn_tables::set::TableSet;
use std::alloc::Global;

/// The mark with which an image begins.
pub(crate) const MARK: [u8; 4] = *b"DNIM";

/// The version that is written.
pub const VERSION: u16 = 2;

/// How many bytes stand before the units.
pub(crate) const HEADER: usize = 8;

/// How many words that are 0 are appended at once.
const ZEROS: usize = 256;

/// How many bytes the head of a unit has.
pub(crate) const HEAD: usize = 8;

/// The image of the tables. `Err` is want of memory, of which it takes once what the image needs.
pub fn write(alloc: Global, on: KindedNet, tables: &TableSet) -> Result<Vec<u8>, OutOfMemory>
    requires kinds { AreKinds meaning on.kinds.now }
    requires fits { FitsNet on.net.now (kinds_of meaning on.kinds.now) tables.now }
    ensures { IfOk result (λ bytes. bytes.items
        ≡ image on.entry.net.now (kinds_of meaning on.entry.kinds.now) (words_of tables.now)) }
{
    let mut out = Vec::with_capacity(alloc, image_size(on.net, tables))?;
    push_header(&mut out, count_units(on.net))?;
    for node in 0..on.net.nodes() {
        push_node(&mut out, node, on.net.unit(node), on.kinds, tables)?;
    }
    Ok(out)
}

/// How many units the net has.
pub(crate) fn count_units(net: &Net) -> u16
    ensures { result ≡ unit_count net.now }
{
    let mut count = 0;
    for node in 0..net.nodes() {
        count = count_unit(net.unit(node), count);
    }
    count
}

/// One more, where the node is a unit.
pub(crate) fn count_unit(unit: Option<&Unit>, count: u16) -> u16
    requires { count < 65535 }
    ensures { result ≡ count_unit (option_copied unit.entry) count }
{
    match unit {
        Some(_) => count + 1,
        None => count,
    }
}

/// How many bytes the image has, or the last number of the type where they are more.
fn image_size(net: &Net, tables: &TableSet) -> usize
    requires { units_of tables.now ≡ map (λ n. n.unit) net.now }
    ensures { (kinds : List Meaning)
        → result ≡ min (length (image net.now kinds (words_of tables.now))) (2 ^ 64 - 1) }
{
    let mut size = HEADER;
    for node in 0..net.nodes() {
        if net.unit(node).is_some() {
            let words = tables.words(node).len().saturating_mul(8);
            size = size.saturating_add(HEAD).saturating_add(words);
        }
    }
    size
}

/// Appends the mark, the version and the number of units.
fn push_header(out: &mut Vec<u8>, units: u16) -> Result<(), OutOfMemory>
    ensures { OnOk result (out.new.items ≡ out.old.items
        ++ (image_mark ++ (little_bytes 2 written_version ++ little_bytes 2 units))) }
{
    let mut header = [0u8; 8];
    header[..4].copy_from_slice(&MARK);
    LittleEndian::write_u16(&mut header[4..], VERSION);
    LittleEndian::write_u16(&mut header[6..], units);
    out.extend_from_slice(&header)
}

/// Appends the head and the words of a node, where it is a unit.
fn push_node(
    out: &mut Vec<u8>,
    node: u16,
    unit: Option<&Unit>,
    kinds: &Kinds,
    tables: &TableSet,
) -> Result<(), OutOfMemory>
    requires kinds { AreKinds meaning kinds.now }
    requires fits { IsTrue (fits_kinds (kinds_of meaning kinds.now) tables.now) }
    requires unit { unit_in tables.now node ≡ option_copied unit }
    ensures { OnOk result (out.new.items ≡ out.old.items ++ unit_bytes
        (kinds_of meaning kinds.now) node (option_copied unit.entry) (words_in tables.now node)) }
{
    match unit {
        Some(unit) => {
            let width = record_width(unit, kinds);
            push_unit(out, node, width, unit.slots, tables.words(node))
        }
        None => Ok(()),
    }
}

/// Appends a unit's head and its words.
fn push_unit(
    out: &mut Vec<u8>,
    node: u16,
    width: u8,
    slots: u32,
    words: &Filled<u64>,
) -> Result<(), OutOfMemory>
    ensures { OnOk result (out.new.items ≡ out.old.items
        ++ (head_of node width slots ++ word_bytes words.now)) }
{
    out.extend_from_slice(&head(node, width, slots))?;
    push_words(out, words)
}

/// Appends words: each up to the last page of them that was made, and then bytes that are 0.
fn push_words(out: &mut Vec<u8>, words: &Filled<u64>) -> Result<(), OutOfMemory>
    ensures { OnOk result (out.new.items ≡ out.old.items ++ word_bytes words.now) }
{
    let count = words.len();
    let end = words.zeros_from().min(count);
    for at in 0..end {
        let word = words.get(at);
        let mut bytes = [0u8; 8];
        LittleEndian::write_u64(&mut bytes, word);
        out.extend_from_slice(&bytes)?;
    }
    push_zeros(out, count - end)
}

/// Appends so many words that are 0, many at once.
fn push_zeros(out: &mut Vec<u8>, count: usize) -> Result<(), OutOfMemory>
    ensures { OnOk result (out.new.items ≡ out.old.items ++ replicate (8 * count) 0) }
{
    let zeros = [0u8; 8 * ZEROS];
    let mut left = count;
    'parts: while left > 0 {
        let part = left.min(ZEROS);
        out.extend_from_slice(&zeros[..8 * part])?;
        left -= part;
    }
    Ok(())
}

/// The head of a unit: its node in two bytes, the words of a record in one, a byte 0, and its slots
/// in four.
pub(crate) fn head(node: u16, width: u8, slots: u32) -> [u8; 8]
    ensures { result ≡ head_of node width slots }
{
    let mut head = [0u8; 8];
    LittleEndian::write_u16(&mut head, node);
    head[2] = width;
    LittleEndian::write_u32(&mut head[4..], slots);
    head
}
