//! The unit that a node of a system is.

ghost use Rattle.std.specs.Prelude.{◌≡◌, IfSome, IfNone, Some, None};
ghost use Rattle.std.specs.Option.{option_copied};
ghost use Rattle.dn_net.specs.Terms.{unit_at};
ghost use Rattle.dn_view.specs.Terms.{IsSystem};
ghost use Rattle.dn_place.specs.Terms.{HasUnitBounds};

use dn_net::net::Net;
use dn_net::node::Unit;
use dn_view::system::System;

/// The unit that a node is, if it is one.
pub fn unit_in<'a>(system: System<'a>, node: u16) -> Option<&'a Unit>
    requires { IsSystem meaning system }
    ensures some { IfSome result (λ u. unit_at system.entry.on.net.now node ≡ Some u.now) }
    ensures bounds { IfSome result (λ u. HasUnitBounds system.entry.on.net.now u.now) }
    ensures none { IfNone result (unit_at system.entry.on.net.now node ≡ None) }
{
    unit_of(system.on.net, node)
}

/// The unit that a node of a net is. `None` exactly where it is none, or is not there.
fn unit_of(net: &Net, node: u16) -> Option<&Unit>
    ensures { option_copied result ≡ unit_at net.now node }
{
    if node < net.nodes() {
        net.unit(node)
    } else {
        None
    }
}
