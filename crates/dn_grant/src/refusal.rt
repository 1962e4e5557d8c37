//! Why a request is refused, and the refusals that need no search.

ghost use Rattle.std.specs.Prelude.{◌≡◌, None, IfSome};
ghost use Rattle.dn_grant.specs.Terms.{IsGrantRefused, grant_refusal};

use dn_book::book::Book;
use dn_net::checked::CheckedNet;
use dn_place::accepted::{is_target, refused_address};
use dn_placement::request::Request;
use dn_placement::roles::is_agent;
use thiserror::Error;

/// Why a request is refused. The first that holds is told, in this order.
#[derive(Clone, Copy, Debug, PartialEq, Eq, Error)]
#[error("{:?}", self)]
pub enum GrantRefusal {
    /// A live grant has the id.
    IdUsed,
    /// The agent's number is that of no node, or of a node that is no agent.
    NoAgent,
    /// The node's number is that of no node, or the node's addresses are interrupt vectors.
    NoTarget,
    /// The node does not accept all of the buffer: `first` is the first address that it does not
    /// accept, and the base where the buffer is empty.
    #[error("NotAccepted {first:#x}")]
    NotAccepted { first: u64 },
    /// 4,096 grants live.
    BookFull,
    /// No placement gives the agent exactly the buffer.
    NoPlacement,
}

/// The first refusal of a request that holds before a placement is sought. It takes no memory.
pub fn refusal(book: &Book, checked: CheckedNet, id: u32, request: &Request) -> Option<GrantRefusal>
    ensures same { result
        ≡ grant_refusal checked.entry.net.now book.now.grants id request.now }
    ensures told { IfSome result
        (IsGrantRefused checked.entry.net.now book.now.grants id request.now) }
    ensures none { result ≡ None →
        grant_refusal checked.entry.net.now book.now.grants id request.now ≡ None }
{
    let net = checked.net;
    if book.has_id(id) {
        return Some(GrantRefusal::IdUsed);
    }
    if !is_agent(net, request.agent) {
        return Some(GrantRefusal::NoAgent);
    }
    if !is_target(net, request.node) {
        return Some(GrantRefusal::NoTarget);
    }
    if let Some(first) = refused_address(checked, request.node, request.base, request.size) {
        return Some(GrantRefusal::NotAccepted { first });
    }
    if book.is_full() {
        return Some(GrantRefusal::BookFull);
    }
    None
}
