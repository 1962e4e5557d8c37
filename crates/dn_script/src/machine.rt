//! What is fixed while the commands of a text are answered.

use dn_kind::kinded::KindedNet;
use dn_walk::walks::WalkTable;

/// A net with its live walks, and the kinds of its units.
#[derive(Clone, Copy)]
pub struct Machine<'a> {
    /// The net, with the kinds of units that are known.
    pub on: KindedNet<'a>,
    /// The live walks of the net.
    pub walks: &'a WalkTable,
}
