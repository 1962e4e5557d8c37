//! What a node reaches, level by level.

ghost use Rattle.std.specs.Prelude.{◌≡◌, ℕ, ◌+◌, ◌-◌, ◌<◌, ◌≤◌, ◌&&◌, ◌||◌, ◌↔◌, length, IfOk, OnOk, IsTrue};
ghost use Rattle.std.specs.List.{list_any};
ghost use Rattle.dn_interval.specs.declared.row.End.{End};
ghost use Rattle.dn_interval.specs.declared.span.TheConstants.{TOP};
ghost use Rattle.dn_interval.specs.Terms.{in_span, rows_go, segs_give};
ghost use Rattle.dn_net.specs.Terms.{KeepsNodeRules};
ghost use Rattle.dn_flat.specs.Terms.{AreLevels, AreReaches, StopsFrom, has_rows, leads_by, levels_give, levels_show, segs_lead};
ghost use Rattle.dn_flat.specs.declared.found.Continuation.TheVariants.{Accepts, Goes, Stays};

use crate::found::{Continuation, levels_segs, push_segs, whole};
use crate::layers::{joined, push_layers};
use crate::reach::Reach;
use dn_base::OutOfMemory;
use dn_base::items::Items;
use dn_interval::onward::follow;
use dn_interval::{Rows, Seg};
use dn_net::net::Net;
use std::alloc::Global;

/// What the addresses of a node reach.
#[derive(Drop)]
pub struct Levels {
    /// The names that are reached in each number of steps, of those in nodes that accept something: layers, of which
    /// each has names of one number of steps.
    pub reached: Items<Rows>,
    /// For each address the names in units that it reaches, as layers that together give them.
    pub stops: Items<Rows>,
    /// The units of these names.
    pub units: Items<u16>,
}

impl Levels {
    /// Whether one of the addresses reaches a name in a unit.
    pub fn has_stops(&self) -> bool
        ensures { result ≡ list_any has_rows self.now.stops }
    {
        self.stops.as_slice().iter().any(|rows| has_rows(rows))
    }
}

/// Whether there is a row.
fn has_rows(rows: &Rows) -> bool
    ensures { result ≡ has_rows rows.now }
{
    !rows.rows().is_empty()
}

/// What the addresses of a node reach, where the names in units are as they were found.
#[derive(Drop)]
pub(crate) struct Reached {
    /// The layers of the levels.
    pub(crate) levels: Items<Rows>,
    /// The names in units.
    pub(crate) stops: Vec<Seg>,
}

/// What a node of a net reaches, by what each node comes to in one step: the names that are reached in so many steps
/// are segments, of which those with the same names are one where they overlap or touch, and each level is made of the
/// one before and of the steps of the nodes in which its names are. So of the net only what the node reaches is looked
/// at.
pub(crate) fn node_reached(
    alloc: Global,
    net: &Net,
    nodes: &[Reach],
    node: u16,
) -> Result<Reached, OutOfMemory>
    requires rules { KeepsNodeRules net.now }
    requires nodes { AreReaches net.now 1 nodes.now }
    requires there { node < length net.now }
    ensures levels { IfOk result (λ reached. AreLevels net.now node reached.levels) }
    ensures stops { IfOk result (λ reached. (a : ℕ) (y : End) → a ≤ TOP
        → IsTrue (segs_give reached.stops.items a y) ↔ StopsFrom net.now node a y) }
{
    net.facts();
    let mut levels = Items::new(alloc);
    let mut stops = Vec::new(alloc);
    let mut segs = Vec::new(alloc);
    let mut reached = Vec::new(alloc);
    reached.push(whole(node))?;
    for steps in 0..66u32 {
        if reached.is_empty() {
            break;
        }
        let from = reached.as_slice();
        push_segs(&mut stops, nodes, Continuation::Stops, from)?;
        push_level(alloc, &mut levels, &mut segs, nodes, from)?;
        reached = further(alloc, &mut segs, nodes, from)?;
    }
    Ok(Reached { levels, stops })
}

/// Adds the names of segments whose nodes accept something as layers. `segs` is room for them.
fn push_level(
    alloc: Global,
    levels: &mut Items<Rows>,
    segs: &mut Vec<Seg>,
    nodes: &[Reach],
    reached: &[Seg],
) -> Result<(), OutOfMemory>
    ensures { OnOk result ((a : ℕ) (z : End) → a ≤ TOP → levels_give levels.new a z
        ≡ (levels_give levels.old a z
        || segs_lead (leads_by Stays nodes.now) reached.now a z)) }
{
    segs.clear();
    push_segs(segs, nodes, Continuation::Stays, reached)?;
    push_layers(alloc, levels, segs)
}

/// Where the names of segments go on. `segs` is room for that.
fn further(
    alloc: Global,
    segs: &mut Vec<Seg>,
    nodes: &[Reach],
    reached: &[Seg],
) -> Result<Vec<Seg>, OutOfMemory>
    ensures { IfOk result (λ next. (a : ℕ) (z : End) → a ≤ TOP → segs_give next.items a z
        ≡ segs_lead (leads_by Goes nodes.now) reached.now a z) }
{
    segs.clear();
    push_segs(segs, nodes, Continuation::Goes, reached)?;
    joined(alloc, segs)
}

/// The accepted names to which the addresses of a node come by its levels.
pub(crate) fn shown_segs(
    alloc: Global,
    nodes: &[Reach],
    levels: &[Rows],
) -> Result<Vec<Seg>, OutOfMemory>
    ensures { IfOk result (λ segs. (a : ℕ) (z : End) → segs_give segs.items a z
        ≡ levels_show nodes.now levels.now a z) }
{
    levels_segs(alloc, nodes, Continuation::Accepts, levels)
}

/// Adds the accepted names to which the names of a segment come by the levels of their node. `mid` is room for names
/// on the way.
pub(crate) fn push_shown(
    segs: &mut Vec<Seg>,
    mid: &mut Vec<Seg>,
    nodes: &[Reach],
    levels: &[Rows],
    seg: Seg,
) -> Result<(), OutOfMemory>
    ensures { OnOk result ((a : ℕ) (z : End) → segs_give segs.new.items a z
        ≡ (segs_give segs.old.items a z || (in_span seg.span a
        && levels_show nodes.now levels.now (seg.base + (a - seg.span.lo)) z))) }
{
    for level in levels {
        push_onward(segs, mid, nodes, level, seg)?;
    }
    Ok(())
}

/// Adds the accepted names to which the names of a segment come by the rows of their node for one level.
fn push_onward(
    segs: &mut Vec<Seg>,
    mid: &mut Vec<Seg>,
    nodes: &[Reach],
    level: &Rows,
    seg: Seg,
) -> Result<(), OutOfMemory>
    ensures { OnOk result ((a : ℕ) (z : End) → segs_give segs.new.items a z
        ≡ (segs_give segs.old.items a z || (in_span seg.span a
        && rows_go (leads_by Accepts nodes.now) level.now (seg.base + (a - seg.span.lo)) z))) }
{
    mid.clear();
    follow(mid, seg, level)?;
    push_segs(segs, nodes, Continuation::Accepts, mid)
}

/// Adds the names that layers give to the addresses to which those of a segment lead.
pub(crate) fn push_given(segs: &mut Vec<Seg>, layers: &[Rows], seg: Seg) -> Result<(), OutOfMemory>
    ensures { OnOk result ((a : ℕ) (z : End) → segs_give segs.new.items a z
        ≡ (segs_give segs.old.items a z || (in_span seg.span a
        && levels_give layers.now (seg.base + (a - seg.span.lo)) z))) }
{
    for layer in layers {
        follow(segs, seg, layer)?;
    }
    Ok(())
}
