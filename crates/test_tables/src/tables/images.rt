//! What is read of the bytes of an image.

ghost use Rattle.dn_kind.specs.Terms.{IsKinded};

use dn_image::fault::ImageFault;
use dn_image::read::read;
use dn_kind::kinded::KindedNet;
use std::alloc::Global;

/// An image of a version with these words of a node.
#[derive(Clone, Copy)]
pub struct Held<'a> {
    pub version: u16,
    pub node: u16,
    pub words: &'a [u64],
}

/// The image of a version with these words of a node.
pub fn with_words(version: u16, node: u16, words: &[u64]) -> Held<'_> {
    Held {
        version,
        node,
        words,
    }
}

/// Whether bytes are read as such an image.
pub fn is_read(alloc: Global, on: KindedNet, bytes: &[u8], held: Held) -> Result<bool, ImageFault>
    requires { IsKinded meaning on }
{
    let Held {
        version,
        node,
        words,
    } = held;
    let image = read(alloc, on, bytes)?;
    if node >= on.net.nodes() {
        return Ok(false);
    }
    Ok(image.version() == version && image.words(node) == words)
}
