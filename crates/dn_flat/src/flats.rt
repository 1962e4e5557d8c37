//! What all nodes of a net reach, and the accepted names to which they come by it.

ghost use Rattle.std.specs.Prelude.{◌≡◌, ℕ, ◌+◌, ◌-◌, ◌<◌, ◌≤◌, ◌&&◌, ◌||◌, List, IfOk, IfSome, OnOk, IsTrue, Some, length, slice_get};
ghost use Rattle.dn_interval.specs.declared.row.End.{End};
ghost use Rattle.dn_interval.specs.declared.row.Seg.{Seg};
ghost use Rattle.dn_interval.specs.declared.span.TheConstants.{TOP};
ghost use Rattle.dn_interval.specs.Terms.{AreNormal, in_span, segs_give};
ghost use Rattle.dn_net.specs.declared.node.NodeDecl.{NodeDecl};
ghost use Rattle.dn_net.specs.Terms.{IsLegalNet};
ghost use Rattle.dn_walk.specs.Terms.{AreWalksOf};
ghost use Rattle.dn_flat.specs.declared.flat.Flat.{Flat};
ghost use Rattle.dn_flat.specs.Terms.{AreFlats, AreLevelsBelow, IsFlat, IsSpanAmong, IsStage, ResolvesFrom, ResolvesWhole, StopsFrom, levels_give, shows, stops_in};

use crate::crowds::{UnitSpan, agent_stops, crowds_between, span_among, ways_of};
use crate::found::whole;
use crate::levels::{Levels, push_given, push_shown, shown_segs};
use crate::seers::{Seers, seers_of};
use crate::shared::Shared;
use crate::stage::Stage;
use crate::stretches::{Buffer, alone_segs, led_stretches, near_segs};
use dn_base::OutOfMemory;
use dn_interval::{End, Rows, Seg, Span, strands_of};
use dn_net::net::Net;
use dn_walk::walks::WalkTable;
use std::alloc::Global;
use std::marker::Model;

/// What each node of a net reaches, and what it comes to in one step. No row stands for each accept block that is
/// reached, since there are as many as walks times blocks: they are made for the addresses that are asked for.
#[derive(Drop)]
pub struct Flats {
    nodes: Shared,
    stage: Stage,
    /// Names in units that two addresses of agents reach.
    crowds: Vec<UnitSpan>,
    /// Names in units that an address of an agent reaches.
    agent_stops: Vec<UnitSpan>,
    seers: Seers,
}

impl Model for Flats {
    ghost use Rattle.dn_flat.specs.Levels.{FlatsView};

    ghost Value = { FlatsView };

    ghost view = { λ s. record {
      nodes = s.nodes;
      stage = s.stage;
      crowds = s.crowds.items;
      agent_stops = s.agent_stops.items;
      seers = s.seers;
    } };
}

impl Flats {
    /// What a node reaches.
    pub fn of(&self, node: u16) -> &Levels
        requires { node < length self.now.nodes }
        ensures { slice_get self.now.nodes node ≡ Some result.now }
    {
        self.nodes.of(node)
    }

    /// Whether two nodes are known to see the same: what the one sees is then what the other sees. `false` says
    /// nothing.
    pub fn is_shared(&self, node: u16, other: u16) -> bool
        requires node { node < length self.now.nodes }
        requires other { other < length self.now.nodes }
        ensures { IsTrue result → (net : List NodeDecl) (flat : Flat) → AreFlats net self.now
            → IsFlat net node flat → IsFlat net other flat }
    {
        self.nodes.is_shared(node, other)
    }

    /// Which agents see names of which units.
    pub fn seers(&self) -> &Seers
        ensures { result.now ≡ self.now.seers }
    {
        &self.seers
    }

    /// Names of a unit, one after another, that two addresses of agents reach, of which some are among so many names
    /// from one on. `None` says nothing. Time of a binary search.
    pub fn crowd_among(&self, unit: u16, first: u64, size: u64) -> Option<Span>
        ensures { IsSpanAmong self.now.crowds unit first size result }
    {
        span_among(&self.crowds, unit, first, size)
    }

    /// Names of a unit, one after another, that an address of an agent reaches, of which some are among so many names
    /// from one on. `None` says nothing. Time of a binary search.
    pub fn agent_stop_among(&self, unit: u16, first: u64, size: u64) -> Option<Span>
        ensures { IsSpanAmong self.now.agent_stops unit first size result }
    {
        span_among(&self.agent_stops, unit, first, size)
    }

    /// Adds the accepted names to which the names of a segment come. `mid` is room for names on the way: one that is
    /// kept from call to call spares its memory. Time of the levels of the node, and of what is added.
    pub fn push_accepted(
        &self,
        segs: &mut Vec<Seg>,
        mid: &mut Vec<Seg>,
        seg: Seg,
    ) -> Result<(), OutOfMemory>
        requires { seg.node < length self.now.nodes }
        ensures { OnOk result ((a : ℕ) (z : End) → segs_give segs.new.items a z
            ≡ (segs_give segs.old.items a z || (in_span seg.span a
            && shows self.now seg.node (seg.base + (a - seg.span.lo)) z))) }
    {
        let levels = self.of(seg.node).reached.as_slice();
        push_shown(segs, mid, self.stage.reaches(), levels, seg)
    }

    /// Adds the names in units to which the names of a segment come. Time of the layers of the node's stops, and of
    /// what is added.
    pub fn push_stops(&self, segs: &mut Vec<Seg>, seg: Seg) -> Result<(), OutOfMemory>
        requires { seg.node < length self.now.nodes }
        ensures { OnOk result ((a : ℕ) (z : End) → segs_give segs.new.items a z
            ≡ (segs_give segs.old.items a z || (in_span seg.span a && levels_give
            (stops_in (slice_get self.now.nodes seg.node)) (seg.base + (a - seg.span.lo)) z))) }
    {
        let layers = self.of(seg.node).stops.as_slice();
        push_given(segs, layers, seg)
    }

    /// The accepted names to which the addresses of a node come, as segments.
    pub fn accepted_segs(&self, alloc: Global, node: u16) -> Result<Vec<Seg>, OutOfMemory>
        requires { node < length self.now.nodes }
        ensures { IfOk result (λ segs. (a : ℕ) (z : End) → segs_give segs.items a z
            ≡ shows self.now node a z) }
    {
        let levels = self.of(node).reached.as_slice();
        shown_segs(alloc, self.stage.reaches(), levels)
    }

    /// The accepted names to which the addresses of a node resolve, as normal rows.
    pub fn accepted_rows(&self, alloc: Global, node: u16) -> Result<Rows, OutOfMemory>
        requires { node < length self.now.nodes }
        ensures { IfOk result (λ rows. (net : List NodeDecl) → AreFlats net self.now
            → AreNormal (ResolvesFrom net node) rows) }
    {
        let segs = self.accepted_segs(alloc, node)?;
        Rows::normal(alloc, &segs)
    }

    /// The names in units to which the addresses of a node come, as normal rows. Time of the layers of the node's
    /// stops.
    pub fn stop_rows(&self, alloc: Global, node: u16) -> Result<Rows, OutOfMemory>
        requires { node < length self.now.nodes }
        ensures { IfOk result (λ rows. (net : List NodeDecl) → AreFlats net self.now
            → AreNormal (StopsFrom net node) rows) }
    {
        let mut segs = Vec::new(alloc);
        self.push_stops(&mut segs, whole(node))?;
        Rows::normal(alloc, &segs)
    }

    /// The stretches of so many addresses of a node that resolve to so many names from one on, each address to its own
    /// name and to no other, as normal rows: one for each stretch, so no more than there are walks. Time of the levels
    /// of the node, and for each stretch that a walk leads there, of those up to the first that shows another name.
    pub fn toward(
        &self,
        alloc: Global,
        node: u16,
        first: End,
        size: u64,
    ) -> Result<Rows, OutOfMemory>
        requires there { node < length self.now.nodes }
        requires some { 1 ≤ size }
        requires within { first.base + size ≤ TOP + 1 }
        ensures { IfOk result (λ rows. (net : List NodeDecl) → AreFlats net self.now
            → AreNormal (ResolvesWhole net node first size) rows) }
    {
        let nodes = self.stage.reaches();
        let levels = self.of(node).reached.as_slice();
        let buffer = Buffer { first, size };
        let near = near_segs(alloc, nodes, levels, buffer)?;
        let strands = strands_of(alloc, &near)?;
        drop(near);
        let led = led_stretches(alloc, &strands, buffer)?;
        drop(strands);
        let alone = alone_segs(alloc, nodes, levels, &led)?;
        Rows::normal(alloc, &alone)
    }
}

/// What all nodes of a net reach that has this table of live walks, of which only what the nodes accept is read: level
/// by level from each node, but for those whose addresses all go on, as they are, to a node before them. Time and
/// memory of the live walks.
pub fn flatten_all(alloc: Global, net: &Net, walks: &WalkTable) -> Result<Flats, OutOfMemory>
    requires { AreWalksOf net.now walks.now }
    ensures { IfOk result (λ flats. AreFlats net.now flats) }
{
    let stage = Stage::of_walks(alloc, net, walks)?;
    let mut nodes = Shared::new(alloc);
    for node in 0..net.nodes() {
        add(alloc, net, &stage, &mut nodes, node)?;
    }
    let ways = ways_of(alloc, net, &nodes)?;
    let crowds = crowds_between(alloc, &ways)?;
    let agent_stops = agent_stops(alloc, &ways)?;
    let seers = seers_of(alloc, net, &nodes)?;
    Ok(Flats {
        nodes,
        stage,
        crowds,
        agent_stops,
        seers,
    })
}

/// Adds what a node reaches, by the net's stage for one step, to what those before it reach.
fn add(
    alloc: Global,
    net: &Net,
    stage: &Stage,
    shared: &mut Shared,
    node: u16,
) -> Result<(), OutOfMemory>
    requires legal { IsLegalNet net.now }
    requires stage { IsStage net.now stage.now }
    requires first { stage.now.steps ≡ 1 }
    requires there { node < length net.now }
    requires below { AreLevelsBelow net.now node shared.old }
    ensures { OnOk result (AreLevelsBelow net.now (node + 1) shared.new) }
{
    match stage.led_to(node) {
        Some(other) if other < node => shared.share(other),
        _ => {
            let levels = stage.levels(alloc, net, node)?;
            shared.push(levels)
        }
    }
}
