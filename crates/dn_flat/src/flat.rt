//! The flattened view of a node.

ghost use Rattle.std.specs.Prelude.{◌<◌, IfOk, IsTrue, length};
ghost use Rattle.dn_interval.specs.Terms.{AreNormal, ends_within};
ghost use Rattle.dn_walk.specs.Terms.{AreWalksOf};
ghost use Rattle.dn_flat.specs.Terms.{ResolvesFrom, StopsFrom};

use crate::stage::Stage;
use dn_base::OutOfMemory;
use dn_interval::Rows;
use dn_net::net::Net;
use dn_walk::walks::WalkTable;
use std::alloc::Global;

/// What the addresses of a node come to.
#[derive(Drop)]
pub struct Flat {
    /// For each address the accepted names to which it resolves.
    pub accepts: Rows,
    /// For each address the names in units that it reaches.
    pub stops: Rows,
}

/// Flattens a node of a net that has this table of live walks, of which only what the nodes accept and their legs are
/// read. Time of the steps of the net, and of the names, as rows, that the node reaches in each number of steps. Where several nodes of
/// one net are to be flattened, [`crate::stage::Stage::flat`] makes the steps of the net once.
pub fn flatten(alloc: Global, net: &Net, walks: &WalkTable, node: u16) -> Result<Flat, OutOfMemory>
    requires walks { AreWalksOf net.now walks.now }
    requires there { node < length net.now }
    ensures accepts { IfOk result (λ flat. AreNormal (ResolvesFrom net.now node) flat.accepts) }
    ensures stops { IfOk result (λ flat. AreNormal (StopsFrom net.now node) flat.stops) }
    // Each name of a row is in a node that is there.
    ensures within { IfOk result (λ flat. IsTrue (ends_within (length net.now) flat.accepts)) }
    ensures stops_within { IfOk result (λ flat. IsTrue (ends_within (length net.now) flat.stops)) }
{
    let stage = Stage::of_walks(alloc, net, walks)?;
    stage.flat(alloc, net, node)
}
