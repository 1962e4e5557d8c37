//! The rule on the shape of each unit.

ghost use Rattle.std.specs.Prelude.{◌≡◌, ◌<◌, length, map, OnOk, IsTrue};
ghost use Rattle.std.specs.List.{All, list_all};
ghost use Rattle.std.specs.Option.{option_copied};
ghost use Rattle.dn_base.specs.Terms.{Checks};
ghost use Rattle.dn_net.specs.Terms.{has_plain_units};
ghost use Rattle.dn_kind.specs.Terms.{IsLawful, has_kind, has_shape, is_shaped, shape_fault, unit_fault_view};

use crate::kinds::Kinds;
use crate::shape::{MAX_PORTS, shape_of};
use dn_net::net::Net;
use dn_net::node::Unit;
use thiserror::Error;

/// The first unit of a net that breaks the rule on units.
#[derive(Clone, Copy, Debug, PartialEq, Eq, Error)]
pub enum UnitFault {
    /// The node is a unit, and its shape is none that a unit may have, or its kind does not fit it.
    #[error("UnitShape")]
    UnitShape { node: u16 },
}

/// Tests the shape of each unit, in the order of the nodes. It takes no memory.
/// Where it answers Ok, each unit has a plain shape.
pub fn check_units(net: &Net, kinds: &Kinds) -> Result<(), UnitFault>
    requires kinds { All (λ k. IsLawful (meaning k)) kinds.now.list.items }
    requires known { IsTrue
        (list_all (λ n. has_kind (length kinds.now.list.items) n.unit) net.now) }
    ensures checks { Checks unit_fault_view result
        (shape_fault (map (λ k. meaning k) kinds.now.list.items) net.now) }
    ensures plain { OnOk result (IsTrue (has_plain_units net.now)) }
{
    for node in 0..net.nodes() {
        if !is_node_shaped(net.unit(node), kinds) {
            return Err(UnitFault::UnitShape { node });
        }
    }
    Ok(())
}

/// Whether a node is no unit, or one that keeps the rule.
fn is_node_shaped(unit: Option<&Unit>, kinds: &Kinds) -> bool
    requires kinds { All (λ k. IsLawful (meaning k)) kinds.now.list.items }
    requires known { IsTrue (has_kind (length kinds.now.list.items) (option_copied unit)) }
    ensures { result ≡ has_shape (map (λ k. meaning k) kinds.now.list.items)
        (option_copied unit.entry) }
{
    match unit {
        Some(unit) => is_unit_shaped(unit, kinds),
        None => true,
    }
}

/// Whether the unit has a shape that a unit may have, and that its kind fits.
fn is_unit_shaped(unit: &Unit, kinds: &Kinds) -> bool
    requires kinds { All (λ k. IsLawful (meaning k)) kinds.now.list.items }
    requires known { unit.now.kind < length kinds.now.list.items }
    ensures { result ≡ is_shaped (map (λ k. meaning k) kinds.now.list.items) unit.now }
{
    if unit.ports.as_slice().len() > usize::from(MAX_PORTS) {
        return false;
    }
    let shape = shape_of(unit);
    shape.is_plain() && kinds.kind(usize::from(unit.kind)).fits(shape)
}
