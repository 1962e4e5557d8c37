//! The words that an image says.

ghost use Rattle.std.specs.Prelude.{◌≡◌, ◌+◌, ◌*◌, ◌<◌, ◌≤◌, [], length, slice_index_or, IfOk, IsTrue, Ok};
ghost use Rattle.std.specs.Option.{option_copied};
ghost use Rattle.dn_base.specs.Terms.{Answers};
ghost use Rattle.dn_kind.specs.Terms.{AreKinds, IsShaped, has_shape, kinds_of};
ghost use Rattle.dn_image.specs.Terms.{ImageWords, IsImageOf, image_fault_view, image_reading, image_words, node_size, node_words, nodes_size, words_spelled};

use crate::OutOfMemory;
use crate::check::check;
use crate::fault::ImageFault;
use crate::slots::{count_words, node_size};
use crate::write::{HEAD, HEADER};
use byteorder::{ByteOrder, LittleEndian};
use dn_base::items::Items;
use dn_kind::kinded::KindedNet;
use dn_kind::kinds::Kinds;
use dn_net::node::Unit;
use std::alloc::Global;
use std::marker::Model;

/// What an image says: its version, and the words of each node of its net.
#[derive(Drop)]
pub struct Image {
    version: u16,
    words: Vec<Items<u64>>,
}

impl Model for Image {
    ghost use Rattle.dn_image.specs.Image.{ImageWords};

    ghost Value = { ImageWords };

    ghost view = { λ i. record { version = i.version; words = i.words.items } };
}

impl Image {
    /// The version of the bytes, 1 or 2.
    pub fn version(&self) -> u16
        ensures { result ≡ self.now.version }
    {
        self.version
    }

    /// The words of a node, of which a node that is no unit has none.
    pub fn words(&self, unit: u16) -> &[u64]
        requires { unit < length self.now.words }
        ensures { result.now ≡ slice_index_or self.now.words unit [] }
    {
        self.words[usize::from(unit)].as_slice()
    }
}

/// Reads an image of the net, of version 1 or 2, whoever made it.
///
/// # Errors
///
/// The first field that is not as in an image of the net, with its place: `Short`, `Header`, `Shape`
/// or `Trailing`. `OutOfMemory` where there is no memory for the words.
pub fn read(alloc: Global, on: KindedNet, bytes: &[u8]) -> Result<Image, ImageFault>
    requires on { IsShaped meaning on }
    ensures exact { Answers (λ i. i) image_fault_view result
        (image_reading on.entry.net.now (kinds_of meaning on.entry.kinds.now) bytes.now) }
    // What is read is an image, with these words and this version.
    ensures found { IfOk result
        (λ i. IsImageOf on.entry.net.now (kinds_of meaning on.entry.kinds.now) bytes.now i) }
    // And each image is read, unless memory is wanting.
    ensures only { (i : ImageWords) → IsImageOf on.entry.net.now (kinds_of
        meaning on.entry.kinds.now) bytes.now i → Answers (λ i. i) image_fault_view result (Ok i) }
{
    reading(alloc, on, bytes)
}

/// The words and the version that the bytes say, or the first field that is not as in an image.
fn reading(alloc: Global, on: KindedNet, bytes: &[u8]) -> Result<Image, ImageFault>
    requires on { IsShaped meaning on }
    ensures { Answers (λ i. i) image_fault_view result
        (image_reading on.entry.net.now (kinds_of meaning on.entry.kinds.now) bytes.now) }
{
    let version = check(on, bytes)?;
    let words = read_words(alloc, on, bytes).or(Err(ImageFault::OutOfMemory))?;
    Ok(Image { version, words })
}

/// The words of each node.
fn read_words(alloc: Global, on: KindedNet, bytes: &[u8]) -> Result<Vec<Items<u64>>, OutOfMemory>
    requires on { IsShaped meaning on }
    requires size { 8 + nodes_size (kinds_of meaning on.kinds.now) on.net.now ≡ length bytes.now }
    ensures { IfOk result (λ words. words.items
        ≡ image_words on.entry.net.now (kinds_of meaning on.entry.kinds.now) bytes.now) }
{
    let mut words = Vec::new(alloc);
    let mut at = HEADER;
    for node in 0..on.net.nodes() {
        let unit = on.net.unit(node);
        words.push(read_node(alloc, unit, on.kinds, &bytes[at..])?)?;
        at += node_size(unit, on.kinds);
    }
    Ok(words)
}

/// The words of a node whose bytes stand first, of which a node that is no unit has none.
fn read_node(
    alloc: Global,
    unit: Option<&Unit>,
    kinds: &Kinds,
    bytes: &[u8],
) -> Result<Items<u64>, OutOfMemory>
    requires kinds { AreKinds meaning kinds.now }
    requires shaped { IsTrue (has_shape (kinds_of meaning kinds.now) (option_copied unit)) }
    requires room { node_size (kinds_of meaning kinds.now) (option_copied unit) ≤ length bytes.now }
    ensures { IfOk result (λ words. words
        ≡ node_words (kinds_of meaning kinds.now) (option_copied unit.entry) bytes.now) }
{
    match unit {
        Some(unit) => read_unit(alloc, &bytes[HEAD..], count_words(unit, kinds)),
        None => Ok(Items::new(alloc)),
    }
}

/// So many words that bytes spell.
fn read_unit(alloc: Global, bytes: &[u8], count: usize) -> Result<Items<u64>, OutOfMemory>
    requires { 8 * count ≤ length bytes.now }
    ensures { IfOk result (λ words. words ≡ words_spelled count bytes.now) }
{
    let mut words = Vec::with_capacity(alloc, count)?;
    for word in 0..count {
        words.push(LittleEndian::read_u64(&bytes[8 * word..]))?;
    }
    Ok(Items::from_vec(words))
}
