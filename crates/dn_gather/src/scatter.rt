//! Scattered placements.

use dn_base::items::Items;
use dn_tables::placement::Hop;

/// A scattered placement: a unit, the agent's address of the first piece, and a hop for each piece.
#[derive(Drop)]
pub struct Scatter {
    pub unit: u16,
    pub v: u64,
    pub hops: Items<Hop>,
}
