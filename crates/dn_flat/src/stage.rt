//! Stages: what each node of a net comes to by a number of steps.

ghost use Rattle.std.specs.Prelude.{◌≡◌, ◌*◌, ◌<◌, ◌≤◌, Some, option_map, slice_get, length, map, IfOk, IfSome, List};
ghost use Rattle.dn_interval.specs.Terms.{AreNormal};
ghost use Rattle.dn_net.specs.declared.node.NodeDecl.{NodeDecl};
ghost use Rattle.dn_net.specs.Terms.{IsLegalNet, KeepsNodeRules};
ghost use Rattle.dn_walk.specs.Terms.{AreAccepted, AreWalksOf, bare_legs};
ghost use Rattle.dn_flat.specs.declared.reach.Reach.{Reach};
ghost use Rattle.dn_flat.specs.Terms.{GoesIn, IsDone, IsFlat, IsLedTo, IsLevels, IsStage};

use crate::flat::Flat;
use crate::layers::layers_of;
use crate::levels::{Levels, Reached, node_reached, shown_segs};
use crate::reach::{Reach, first_reach, twice};
use crate::units::nodes_of;
use dn_base::OutOfMemory;
use dn_interval::{Rows, SpanSet};
use dn_net::checked::CheckedNet;
use dn_net::net::Net;
use dn_walk::accepted::accepted_sets;
use dn_walk::leg::{Legs, net_legs};
use dn_walk::walks::WalkTable;
use std::alloc::Global;
use std::marker::Model;

/// What the addresses of each node of a net come to in fewer than a number of steps, and in exactly so many.
#[derive(Drop)]
pub struct Stage {
    nodes: Vec<Reach>,
    steps: u32,
}

impl Model for Stage {
    ghost use Rattle.dn_flat.specs.Stages.{StageRows};

    ghost Value = { StageRows };

    ghost view = { λ s. record { steps = s.steps; nodes = s.nodes.items } };
}

impl Stage {
    /// The stage for one step: linear in the size of the net, but for sorting.
    pub fn start(alloc: Global, net: &Net) -> Result<Stage, OutOfMemory>
        requires legal { IsLegalNet net.now }
        ensures stage { IfOk result (λ stage. IsStage net.now stage) }
        ensures steps { IfOk result (λ stage. stage.steps ≡ 1) }
    {
        let checked = CheckedNet { net };
        let accepted = accepted_sets(alloc, checked)?;
        let legs = net_legs(alloc, checked)?;
        first_stage(alloc, checked, &accepted, &legs)
    }

    /// The stage for one step of a net that has this table of live walks, of which only what the nodes accept and their
    /// legs are read.
    pub(crate) fn of_walks(
        alloc: Global,
        net: &Net,
        walks: &WalkTable,
    ) -> Result<Stage, OutOfMemory>
        requires { AreWalksOf net.now walks.now }
        ensures stage { IfOk result (λ stage. IsStage net.now stage) }
        ensures steps { IfOk result (λ stage. stage.steps ≡ 1) }
    {
        let checked = CheckedNet { net };
        first_stage(alloc, checked, walks.accepted_by_node(), walks.legs())
    }

    /// The net's stage for twice as many steps.
    pub fn doubled(&self, alloc: Global, net: &Net) -> Result<Stage, OutOfMemory>
        requires legal { IsLegalNet net.now }
        requires stage { IsStage net.now self.now }
        requires few { self.now.steps ≤ 64 }
        ensures stage { IfOk result (λ stage. IsStage net.now stage) }
        ensures steps { IfOk result (λ stage. stage.steps ≡ 2 * self.now.steps) }
    {
        let mut nodes = Vec::with_capacity(alloc, usize::from(net.nodes()))?;
        let all = self.nodes.as_slice();
        for reach in all {
            nodes.push(twice(alloc, all, reach)?)?;
        }
        Ok(Stage {
            nodes,
            steps: 2 * self.steps,
        })
    }

    /// For how many steps it is.
    pub fn steps(&self) -> u32
        ensures { result ≡ self.now.steps }
    {
        self.steps
    }

    /// The accepted names and the stops that the addresses of a node reach in fewer steps.
    pub fn done(&self, node: u16) -> &Flat
        requires { node < length self.now.nodes }
        ensures same { option_map (λ r. r.done) (slice_get self.now.nodes node) ≡ Some result.now }
        ensures done { (net : List NodeDecl) → IsStage net self.now →
            IsDone net self.now.steps node result.now }
    {
        &self.reach(node).done
    }

    /// The names that the addresses of a node reach in exactly so many steps.
    pub fn go(&self, node: u16) -> &Rows
        requires { node < length self.now.nodes }
        ensures { (net : List NodeDecl) → IsStage net self.now → AreNormal
            (GoesIn net self.now.steps node) result.now }
    {
        &self.reach(node).go
    }

    /// What a node comes to.
    fn reach(&self, node: u16) -> &Reach
        requires { node < length self.now.nodes }
        ensures { slice_get self.now.nodes node ≡ Some result.now }
    {
        match self.nodes.get(usize::from(node)) {
            Some(reach) => reach,
            None => unreachable!(),
        }
    }

    /// Where each address of a node goes on to that address of another, and that is all: the other.
    pub(crate) fn led_to(&self, node: u16) -> Option<u16>
        requires { node < length self.now.nodes }
        ensures { IfSome result (λ other. (reach : Reach) →
            slice_get self.now.nodes node ≡ Some reach
            → IsLedTo other reach) }
    {
        self.reach(node).led_to()
    }

    /// What each node comes to.
    pub(crate) fn reaches(&self) -> &[Reach]
        ensures { result.now ≡ self.now.nodes }
    {
        self.nodes.as_slice()
    }

    /// What a node of the net reaches, by the net's stage for one step. Time and memory of the walks that start at the
    /// node.
    pub(crate) fn levels(&self, alloc: Global, net: &Net, node: u16) -> Result<Levels, OutOfMemory>
        requires rules { KeepsNodeRules net.now }
        requires stage { IsStage net.now self.now }
        requires first { self.now.steps ≡ 1 }
        requires there { node < length net.now }
        ensures { IfOk result (λ levels. IsLevels net.now node levels) }
    {
        let Reached { levels, stops } = node_reached(alloc, net, self.nodes.as_slice(), node)?;
        let units = nodes_of(alloc, &stops)?;
        let stops = layers_of(alloc, &stops)?;
        Ok(Levels {
            reached: levels,
            stops,
            units,
        })
    }

    /// What a node of the net sees, by the net's stage for one step: level by level from the node itself, so of the
    /// net only what the node reaches is looked at.
    pub fn flat(&self, alloc: Global, net: &Net, node: u16) -> Result<Flat, OutOfMemory>
        requires rules { KeepsNodeRules net.now }
        requires stage { IsStage net.now self.now }
        requires first { self.now.steps ≡ 1 }
        requires there { node < length net.now }
        ensures { IfOk result (λ flat. IsFlat net.now node flat) }
    {
        let nodes = self.nodes.as_slice();
        let Reached { levels, stops } = node_reached(alloc, net, nodes, node)?;
        let stops = Rows::normal(alloc, &stops)?;
        let segs = shown_segs(alloc, nodes, levels.as_slice())?;
        drop(levels);
        let accepts = Rows::normal(alloc, &segs)?;
        Ok(Flat { accepts, stops })
    }
}

/// The stage of a net for one step, from the addresses that its nodes accept and from their legs.
fn first_stage(
    alloc: Global,
    checked: CheckedNet,
    accepted: &[SpanSet],
    legs: &Legs,
) -> Result<Stage, OutOfMemory>
    requires accepted { AreAccepted checked.net.now accepted.now }
    requires legs { legs.now ≡ map bare_legs checked.net.now }
    ensures stage { IfOk result (λ stage. IsStage checked.entry.net.now stage) }
    ensures steps { IfOk result (λ stage. stage.steps ≡ 1) }
{
    let net = checked.net;
    let mut nodes = Vec::with_capacity(alloc, usize::from(net.nodes()))?;
    for node in 0..net.nodes() {
        let set = &accepted[usize::from(node)];
        let reach = first_reach(alloc, checked, node, set, legs.of(node))?;
        nodes.push(reach)?;
    }
    Ok(Stage { nodes, steps: 1 })
}
