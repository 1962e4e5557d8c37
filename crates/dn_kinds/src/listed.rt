//! The shipped kinds, each as a type of its own, for lists of kinds.
//!
//! What a box of such a type means does not hang on its value, so whoever makes a list of kinds need not show
//! which value is in which box.

ghost use Rattle.dn_kind.specs.Terms.{IsLawful};
ghost use Rattle.dn_kinds.specs.Terms.{pages, radix, remap, vectors};

use crate::shipped::ShippedKind;
use dn_kind::shape::Shape;
use dn_kind::unit_kind::{Record, UnitKind};

/// The kind `pages`, as [`ShippedKind::Pages`] has it.
#[derive(Drop)]
pub struct Pages;

impl UnitKind for Pages {
    ghost meaning = { λ _. pages };

    fn name(&self) -> &str {
        "pages"
    }

    fn words(&self) -> u8 {
        ShippedKind::Pages.words()
    }

    fn fits(&self, shape: Shape) -> bool {
        ShippedKind::Pages.fits(shape)
    }

    fn pack(&self, shape: Shape, record: Record, out: &mut [u64; 4]) {
        ShippedKind::Pages.pack(shape, record, out);
    }

    fn unpack(&self, words: &[u64]) -> Option<Record> {
        ShippedKind::Pages.unpack(words)
    }
}

/// The kind `remap`, as [`ShippedKind::Remap`] has it.
#[derive(Drop)]
pub struct Remap;

impl UnitKind for Remap {
    ghost meaning = { λ _. remap };

    fn name(&self) -> &str {
        "remap"
    }

    fn words(&self) -> u8 {
        ShippedKind::Remap.words()
    }

    fn fits(&self, shape: Shape) -> bool {
        ShippedKind::Remap.fits(shape)
    }

    fn pack(&self, shape: Shape, record: Record, out: &mut [u64; 4]) {
        ShippedKind::Remap.pack(shape, record, out);
    }

    fn unpack(&self, words: &[u64]) -> Option<Record> {
        ShippedKind::Remap.unpack(words)
    }
}

/// The kind `vectors`, as [`ShippedKind::Vectors`] has it.
#[derive(Drop)]
pub struct Vectors;

impl UnitKind for Vectors {
    ghost meaning = { λ _. vectors };

    fn name(&self) -> &str {
        "vectors"
    }

    fn words(&self) -> u8 {
        ShippedKind::Vectors.words()
    }

    fn fits(&self, shape: Shape) -> bool {
        ShippedKind::Vectors.fits(shape)
    }

    fn pack(&self, shape: Shape, record: Record, out: &mut [u64; 4]) {
        ShippedKind::Vectors.pack(shape, record, out);
    }

    fn unpack(&self, words: &[u64]) -> Option<Record> {
        ShippedKind::Vectors.unpack(words)
    }
}

/// The kind `radix`, as [`ShippedKind::Radix`] has it.
#[derive(Drop)]
pub struct Radix;

impl UnitKind for Radix {
    ghost meaning = { λ _. radix };

    fn name(&self) -> &str {
        "radix"
    }

    fn words(&self) -> u8 {
        ShippedKind::Radix.words()
    }

    fn fits(&self, shape: Shape) -> bool {
        ShippedKind::Radix.fits(shape)
    }

    fn pack(&self, shape: Shape, record: Record, out: &mut [u64; 4]) {
        ShippedKind::Radix.pack(shape, record, out);
    }

    fn unpack(&self, words: &[u64]) -> Option<Record> {
        ShippedKind::Radix.unpack(words)
    }
}

/// Each of them keeps the laws of kinds.
pub fn listed_are_lawful()
    ensures pages { IsLawful pages }
    ensures remap { IsLawful remap }
    ensures vectors { IsLawful vectors }
    ensures radix { IsLawful radix }
{}
