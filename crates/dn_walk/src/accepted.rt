//! What the nodes of a net accept, as sets of addresses.

ghost use Rattle.std.specs.Prelude.{◌≡◌, ◌<◌, ℕ, length, slice_get, IfOk};
ghost use Rattle.dn_interval.specs.Terms.{has};
ghost use Rattle.dn_net.specs.Terms.{KeepsNodeRules, is_accepted_at};
ghost use Rattle.dn_walk.specs.Terms.{AreAccepted};

use crate::spans::covered_set;
use dn_base::OutOfMemory;
use dn_interval::SpanSet;
use dn_net::checked::CheckedNet;
use dn_net::net::Net;
use std::alloc::Global;

/// For each node of a net, by its number, the addresses that it accepts.
pub fn accepted_sets(alloc: Global, checked: CheckedNet) -> Result<Vec<SpanSet>, OutOfMemory>
    ensures { IfOk result (λ sets. AreAccepted checked.entry.net.now sets.items) }
{
    let net = checked.net;
    let count = net.nodes();
    let mut sets = Vec::with_capacity(alloc, usize::from(count))?;
    for node in 0..count {
        sets.push(accepted_set(alloc, net, node)?)?;
    }
    Ok(sets)
}

/// The addresses that a node accepts.
pub fn accepted_set(alloc: Global, net: &Net, node: u16) -> Result<SpanSet, OutOfMemory>
    requires rules { KeepsNodeRules net.now }
    requires there { node < length net.now }
    ensures { IfOk result (λ set. (a : ℕ) → has set a ≡ is_accepted_at a (slice_get net.now node)) }
{
    covered_set(alloc, net.accept_rows(node))
}
