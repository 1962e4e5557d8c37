//! Why a route is refused, and the refusals that need no search.

ghost use Rattle.std.specs.Prelude.{◌≡◌, ℕ, None, IfSome};
ghost use Rattle.dn_vector.specs.Terms.{IsRouteRefused, route_refusal};

use dn_book::book::Book;
use dn_net::net::Net;
use dn_placement::roles::{is_agent, is_vectors};
use thiserror::Error;

/// Why a line is not routed to a vector. The first refusal that holds is told, in this order.
#[derive(Clone, Copy, Debug, PartialEq, Eq, Error)]
#[error("{:?}", self)]
pub enum RouteRefusal {
    /// A live grant has the id.
    IdUsed,
    /// The agent's number is that of no node, or of a node that is no agent.
    NoAgent,
    /// The node's number is that of no node, or the node's addresses are no interrupt vectors.
    NoTarget,
    /// 4,096 grants live.
    BookFull,
    /// No free vector of the node has a placement that gives exactly it at the line.
    NoPlacement,
}

/// The first refusal of a route that holds before a vector is looked at. It takes no memory.
pub fn refusal(book: &Book, net: &Net, id: u32, agent: u16, node: u16) -> Option<RouteRefusal>
    ensures same { result ≡ route_refusal net.now book.now.grants id agent node }
    ensures told { IfSome result
        (λ why. (line : ℕ) → IsRouteRefused net.now book.now.grants id agent line node why) }
    ensures none { result ≡ None → route_refusal net.now book.now.grants id agent node ≡ None }
{
    if book.has_id(id) {
        return Some(RouteRefusal::IdUsed);
    }
    if !is_agent(net, agent) {
        return Some(RouteRefusal::NoAgent);
    }
    if !is_vectors(net, node) {
        return Some(RouteRefusal::NoTarget);
    }
    if book.is_full() {
        return Some(RouteRefusal::BookFull);
    }
    None
}
