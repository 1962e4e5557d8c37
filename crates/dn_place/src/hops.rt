//! The hops that are chosen so far.

ghost use Rattle.std.specs.Prelude.{◌≡◌, ◌<◌, ◌∷◌, length, slice_get};
ghost use Rattle.dn_place.specs.Terms.{hops_view};

use dn_tables::placement::{Hop, Placement};
use std::alloc::Global;

/// At most three hops, from the agent's end.
#[derive(Clone, Copy, Debug, PartialEq, Eq)]
pub(crate) enum Hops {
    Zero,
    One(Hop),
    Two(Hop, Hop),
    Three(Hop, Hop, Hop),
}

impl Hops {
    /// How many hops there are.
    pub(crate) fn count(self) -> u8
        ensures { result ≡ length (hops_view self) }
    {
        match self {
            Hops::Zero => 0,
            Hops::One(_) => 1,
            Hops::Two(_, _) => 2,
            Hops::Three(_, _, _) => 3,
        }
    }

    /// The hop at a place, counted from the agent's end.
    pub(crate) fn at(self, place: u8) -> Option<Hop>
        ensures { result ≡ slice_get (hops_view self) place }
    {
        match self {
            Hops::Zero => None,
            Hops::One(a) => { if place == 0 { Some(a) } else { None } }
            Hops::Two(a, b) => match place {
                0 => Some(a),
                1 => Some(b),
                _ => None,
            },
            Hops::Three(a, b, c) => match place {
                0 => Some(a),
                1 => Some(b),
                2 => Some(c),
                _ => None,
            },
        }
    }

    /// These hops behind one more, nearer to the agent.
    pub(crate) fn behind(self, hop: Hop) -> Hops
        requires { length (hops_view self) < 3 }
        ensures { hops_view result ≡ hop ∷ hops_view self }
    {
        match self {
            Hops::Zero => Hops::One(hop),
            Hops::One(a) => Hops::Two(hop, a),
            Hops::Two(a, b) => Hops::Three(hop, a, b),
            Hops::Three(_, _, _) => unreachable!(),
        }
    }

    /// The placement of these hops. It takes no memory.
    pub(crate) fn into_placement(self, alloc: Global, v: u64, own: u8) -> Placement
        requires { own < length (hops_view self) }
        ensures { result ≡ record { v = v; hops = hops_view self; own = own } }
    {
        match self {
            Hops::Zero => unreachable!(),
            Hops::One(a) => Placement::new(alloc, v, &[a], own),
            Hops::Two(a, b) => Placement::new(alloc, v, &[a, b], own),
            Hops::Three(a, b, c) => Placement::new(alloc, v, &[a, b, c], own),
        }
    }
}
