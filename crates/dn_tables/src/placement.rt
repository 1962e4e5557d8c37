//! Where a buffer is placed: the hops through units, from the agent's end.

ghost use Rattle.std.specs.Prelude.{◌≡◌, ◌<◌, ◌≤◌, length};
ghost use Rattle.dn_tables.specs.Terms.{IsPlace};

use smallvec::SmallVec;
use std::alloc::Global;
use std::marker::Model;

/// One unit on the way of a buffer.
#[derive(Clone, Copy, Debug, Default, PartialEq, Eq)]
pub struct Hop {
    /// The number of the unit's node.
    pub unit: u16,
    /// The port to whose node it sends, by its place among the unit's ports.
    pub port: u8,
    /// The first address of the buffer in the unit.
    pub x: u64,
    /// The first address of the buffer in the port's node.
    pub y: u64,
}

/// A placement of a buffer: the agent's first address, and one to three hops from the agent's end,
/// of which one is its own.
#[derive(Drop)]
pub struct Placement {
    v: u64,
    hops: SmallVec<Hop, 3>,
    own: u8,
}

impl Model for Placement {
    ghost use Rattle.dn_tables.specs.Placement.{Place, IsPlace};

    ghost Value = { Place };

    ghost view = { λ p. record { v = p.v; hops = p.hops.items; own = p.own } };

    ghost invariant = { λ p. IsPlace p.hops.items p.own };
}

impl Placement {
    /// The placement of these hops. It takes no memory.
    pub fn new(alloc: Global, v: u64, hops: &[Hop], own: u8) -> Placement
        requires few { length hops.now ≤ 3 }
        requires own { own < length hops.now }
        ensures { result ≡ record { v = v; hops = hops.now; own = own } }
    {
        Placement {
            v,
            hops: SmallVec::from_slice(alloc, hops).unwrap(),
            own,
        }
    }

    /// The first address of the buffer in the agent.
    pub fn v(&self) -> u64
        ensures { result ≡ self.now.v }
    {
        self.v
    }

    /// The hops, from the agent's end.
    pub fn hops(&self) -> &[Hop]
        ensures value { result.now ≡ self.now.hops }
        ensures place { IsPlace self.now.hops self.now.own }
    {
        self.hops.as_slice()
    }

    /// Which of the hops is the own one, counted from 0.
    pub fn own(&self) -> u8
        ensures value { result ≡ self.now.own }
        ensures place { IsPlace self.now.hops self.now.own }
    {
        let _hops = &self.hops;
        self.own
    }
}
