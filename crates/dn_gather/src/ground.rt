//! Where pieces are to stand: one unit, with what is known of it for a search.

use crate::wanted::Wanted;
use dn_base::items::Items;
use dn_interval::Rows;
use dn_net::node::Unit;
use dn_place::exits::Exit;

/// A unit in which pieces are to stand for an agent.
#[derive(Clone, Copy)]
pub(crate) struct Ground<'a> {
    pub(crate) wanted: Wanted<'a>,
    /// The number of the unit.
    pub(crate) unit: u16,
    pub(crate) translator: &'a Unit,
    /// Where the agent's addresses enter the unit.
    pub(crate) windows: &'a Rows,
    /// The slots of the unit that are not free, ascending.
    pub(crate) used: &'a [u32],
    /// For each piece the outputs that give it.
    pub(crate) exits: &'a [Items<Exit>],
}
