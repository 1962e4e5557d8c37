//! The units in which the stops of a node are.

ghost use Rattle.std.specs.Prelude.{◌≡◌, ℕ, true, IfOk, OnOk};
ghost use Rattle.dn_interval.specs.declared.row.End.{End};
ghost use Rattle.dn_interval.specs.Terms.{segs_give};
ghost use Rattle.dn_flat.specs.Terms.{is_among};

use dn_base::OutOfMemory;
use dn_base::items::Items;
use dn_interval::Seg;
use std::alloc::Global;

/// The nodes of the names that segments give, each once.
pub(crate) fn nodes_of(alloc: Global, segs: &[Seg]) -> Result<Items<u16>, OutOfMemory>
    ensures { IfOk result (λ nodes. (a : ℕ) (y : End) → segs_give segs.now a y ≡ true →
        is_among y.node nodes ≡ true) }
{
    let mut nodes = Vec::new(alloc);
    for seg in segs {
        add_node(&mut nodes, seg.node)?;
    }
    Ok(Items::from_vec(nodes))
}

/// Adds a node, if it is not listed.
fn add_node(nodes: &mut Vec<u16>, node: u16) -> Result<(), OutOfMemory>
    ensures grown { OnOk result ((n : ℕ) → is_among n nodes.old.items ≡ true →
        is_among n nodes.new.items ≡ true) }
    ensures there { OnOk result (is_among node nodes.new.items ≡ true) }
{
    if is_among(nodes, node) {
        return Ok(());
    }
    nodes.push(node)?;
    Ok(())
}

/// Whether a node is listed.
fn is_among(nodes: &[u16], node: u16) -> bool
    ensures { result ≡ is_among node nodes.now }
{
    nodes.iter().any(|other| *other == node)
}
