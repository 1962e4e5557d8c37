//! What a node may be in a request: one that asks, or one of interrupt vectors.

ghost use Rattle.std.specs.Prelude.{◌≡◌, slice_get};
ghost use Rattle.std.specs.Option.{option_map};
ghost use Rattle.dn_net.specs.Terms.{is_agent_at};
ghost use Rattle.dn_placement.specs.Terms.{is_vectors_at};

use dn_net::net::Net;
use dn_net::node::Role;

/// Whether a node is there, and is an agent.
pub fn is_agent(net: &Net, node: u16) -> bool
    ensures { result ≡ is_agent_at (slice_get net.now node) }
{
    matches!(role_of(net, node), Some(Role::Agent))
}

/// Whether a node is there, and its addresses are interrupt vectors.
pub fn is_vectors(net: &Net, node: u16) -> bool
    ensures { result ≡ is_vectors_at (slice_get net.now node) }
{
    matches!(role_of(net, node), Some(Role::Vectors))
}

/// The role of a node. `None` exactly where it is not there.
fn role_of(net: &Net, node: u16) -> Option<Role>
    ensures { result ≡ option_map (λ d. d.role) (slice_get net.now node) }
{
    if node < net.nodes() {
        Some(net.role(node))
    } else {
        None
    }
}
