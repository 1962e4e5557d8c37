//! Copies of the parts of a node.

ghost use Rattle.std.specs.Prelude.{◌≡◌, ◌<◌, length, slice_get, IfOk, Some};
ghost use Rattle.std.specs.Option.{option_copied};

use dn_base::OutOfMemory;
use dn_base::items::Items;
use dn_base::text::Text;
use dn_net::net::Net;
use dn_net::node::{Entry, NodeDecl, Unit};
use std::alloc::Global;

/// A copy of a node.
pub(crate) fn node_copy(alloc: Global, net: &Net, node: u16) -> Result<NodeDecl, OutOfMemory>
    requires { node < length net.now }
    ensures { IfOk result (λ n. slice_get net.now node ≡ Some n) }
{
    Ok(NodeDecl {
        text: Text::of(alloc, net.text(node))?,
        role: net.role(node),
        accepts: Items::from_vec(net.accepts(node).to_vec(alloc)?),
        entries: Items::from_vec(entries_copy(alloc, net.entries(node))?),
        over: net.over(node),
        unit: unit_copy(alloc, net.unit(node))?,
    })
}

/// A copy of map entries.
pub(crate) fn entries_copy(alloc: Global, entries: &[Entry]) -> Result<Vec<Entry>, OutOfMemory>
    ensures { IfOk result (λ v. v.items ≡ entries.now) }
{
    let mut copy = Vec::with_capacity(alloc, entries.len())?;
    for entry in entries {
        copy.push(Entry {
            block: entry.block,
            dests: Items::from_vec(entry.dests.as_slice().to_vec(alloc)?),
        })?;
    }
    Ok(copy)
}

/// A copy of a unit, where there is one.
pub(crate) fn unit_copy(alloc: Global, unit: Option<&Unit>) -> Result<Option<Unit>, OutOfMemory>
    ensures { IfOk result (λ u. u ≡ option_copied unit.entry) }
{
    let Some(unit) = unit else {
        return Ok(None);
    };
    Ok(Some(Unit {
        kind: unit.kind,
        page: unit.page,
        slots: unit.slots,
        reach: unit.reach,
        ports: Items::from_vec(unit.ports.as_slice().to_vec(alloc)?),
    }))
}
