//! Tests of the kinds of units: the records that words spell in each layout and the words of records, and the shapes that
//! each kind fits.
//!
//! The wanted values are worked out by hand from the layouts and the limits. The rule on the shape of each unit is shown by
//! texts of `answers/node_rules`, and the records that slots hold by texts of `answers/audits`.

ghost use Rattle.std.specs.Prelude.{◌≡◌};
ghost use Rattle.dn_kind.specs.Terms.{unit_shape};

use dn_base::items::Items;
use dn_kind::shape::Shape;
use dn_net::node::Unit;
use std::alloc::Global;
use std::process::Abort;

mod layouts;

/// A shape of page, slots, reach and ports.
pub fn shape(page: u8, slots: u32, reach: u8, ports: u8) -> Shape
    ensures { result ≡ record { page = page; slots = slots; reach = reach; ports = ports } }
{
    Shape {
        page,
        slots,
        reach,
        ports,
    }
}

/// A unit of this shape, of the kind of a number. Its ports are all node 0.
pub fn unit_of(rt: &impl Abort, alloc: Global, kind: u8, shape: Shape) -> Unit
    ensures { unit_shape result ≡ shape }
{
    let ports = vec![in alloc; 0; usize::from(shape.ports)].expect(rt, "memory");
    Unit {
        kind,
        page: shape.page,
        slots: shape.slots,
        reach: shape.reach,
        ports: Items::from_vec(ports),
    }
}
