//! A net with what its nodes see, and the kinds of its units.

use dn_flat::flats::Flats;
use dn_kind::kinded::KindedNet;

/// A net with the kinds of its units, and what its nodes see.
#[derive(Clone, Copy)]
pub struct System<'a> {
    pub on: KindedNet<'a>,
    pub flats: &'a Flats,
}
