//! The bytes of an image, with the net and the kinds for which it is one.

use dn_kind::kinded::KindedNet;

/// The bytes of an image of this version.
#[derive(Clone, Copy)]
pub(crate) struct LoadedImage<'a> {
    pub(crate) on: KindedNet<'a>,
    pub(crate) bytes: &'a [u8],
    pub(crate) version: u16,
}
