//! From which nodes a hop of a placement can be met, and which nodes show newly for each access the same.

ghost use Rattle.std.specs.Prelude.{◌≡◌, ◌<◌, length, IsTrue};
ghost use Rattle.dn_net.specs.Terms.{unit_at};
ghost use Rattle.dn_kind.specs.declared.rights.Access.{Access};
ghost use Rattle.dn_kind.specs.Terms.{Held, both_rights};
ghost use Rattle.dn_flat.specs.Terms.{leads_to_units};
ghost use Rattle.dn_view.specs.Terms.{IsExactAt, IsSystem, IsTrial, can_meet, has_hop};
ghost use Rattle.std.specs.List.{list_any};

use crate::met::some_lead_on;
use crate::system::System;
use crate::trial::Trial;
use dn_kind::rights::Rights;
use dn_tables::placement::Placement;

/// Whether what stands in one of the nodes can come to a hop.
pub(crate) fn some_meets(trial: Trial, nodes: &[u16]) -> bool
    requires { IsTrial meaning trial }
    ensures { result ≡ list_any (can_meet trial.entry.system.on.net.now
        trial.entry.system.flats.now trial.entry.placement.now.hops) nodes.now }
{
    for node in nodes {
        if can_meet(trial, *node) {
            return true;
        }
    }
    false
}

/// Whether what stands in a node can come to a hop: to one in the node itself, or through it to others.
fn can_meet(trial: Trial, node: u16) -> bool
    requires { IsTrial meaning trial }
    ensures { result ≡ can_meet trial.entry.system.on.net.now
        trial.entry.system.flats.now trial.entry.placement.now.hops node }
{
    has_hop(trial.placement, node) || leads_to_units(trial.system, node)
}

/// Whether a node is known to show newly for each access the same: each record that is added has both rights, and no unit
/// to which the node leads goes on to units.
pub(crate) fn is_alike(trial: Trial, node: u16) -> bool
    requires trial { IsTrial meaning trial }
    requires there { node < length trial.system.flats.now.nodes }
    ensures { IsTrue result → (h : Held) (a b : Access) → IsExactAt trial.entry.system.on.net.now
        h trial.entry.request.now trial.entry.placement.now a node → IsExactAt
        trial.entry.system.on.net.now h trial.entry.request.now trial.entry.placement.now b node }
{
    if !has_both(trial.request.rights) {
        return false;
    }
    let units = trial.system.flats.of(node).units.as_slice();
    !some_lead_on(trial.system, units)
}

/// Whether the rights are reading and writing.
fn has_both(rights: Rights) -> bool
    ensures { IsTrue result → rights ≡ both_rights }
{
    rights == Rights::both()
}

/// Whether one of the hops stands in the node.
fn has_hop(placement: &Placement, node: u16) -> bool
    ensures { result ≡ has_hop placement.now.hops node }
{
    placement.hops().iter().any(|hop| node == hop.unit)
}

/// Whether the node is a unit with a port whose node leads to units.
pub(crate) fn leads_to_units(system: System, node: u16) -> bool
    requires { IsSystem meaning system }
    ensures { result
        ≡ leads_to_units system.entry.flats.now.nodes (unit_at system.entry.on.net.now node) }
{
    system.flats.seers().leads_on(node)
}
