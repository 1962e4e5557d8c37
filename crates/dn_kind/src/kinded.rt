//! A net with the kinds of its units.

use crate::kinds::Kinds;
use dn_net::net::Net;

/// A net with the kinds that its units are called by: the kind of a unit is a place in this list.
/// Both are lent. Most calls on it ask that each kind keeps the laws of kinds, and that each unit of
/// the net has a shape that its kind fits.
#[derive(Clone, Copy)]
pub struct KindedNet<'a> {
    /// The net.
    pub net: &'a Net,
    /// The kinds of its units.
    pub kinds: &'a Kinds,
}
