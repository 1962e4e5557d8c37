//! What nodes reach, where those that are known to reach the same share it.

ghost use Rattle.std.specs.Prelude.{◌≡◌, ◌<◌, ◌++◌, [], ◌∷◌, length, slice_get, Some, OnOk, IsTrue};
ghost use Rattle.dn_flat.specs.declared.levels.Levels.{Levels};

use crate::levels::Levels;
use dn_base::OutOfMemory;
use std::alloc::Global;
use std::marker::Model;

/// What nodes reach. Contracts see the list of it, in the order of the nodes. Nodes that are known to reach the same
/// share it.
#[derive(Drop)]
pub(crate) struct Shared {
    /// What was made.
    made: Vec<Levels>,
    /// For each node the place of what it reaches.
    places: Vec<usize>,
}

impl Model for Shared {
    ghost use Rattle.std.specs.Prelude.{List, length, map, nat_lt, IsTrue};
    ghost use Rattle.std.specs.List.{list_all};
    ghost use Rattle.dn_flat.specs.declared.levels.Levels.{Levels};
    ghost use Rattle.dn_flat.specs.Shared.{levels_at};

    ghost Value = { List Levels };

    ghost view = { λ s. map (levels_at s.made.items) s.places.items };

    ghost invariant = { λ s. IsTrue (list_all (λ p. nat_lt p (length s.made.items)) s.places.items) };
}

impl Shared {
    /// What no node reaches, since there is none.
    pub(crate) fn new(alloc: Global) -> Shared
        ensures { result ≡ [] }
    {
        Shared {
            made: Vec::new(alloc),
            places: Vec::new(alloc),
        }
    }

    /// What a node reaches.
    pub(crate) fn of(&self, node: u16) -> &Levels
        requires { node < length self.now }
        ensures { slice_get self.now node ≡ Some result.now }
    {
        let place = self.places[usize::from(node)];
        match self.made.get(place) {
            Some(levels) => levels,
            None => unreachable!(),
        }
    }

    /// Adds what the next node reaches.
    pub(crate) fn push(&mut self, levels: Levels) -> Result<(), OutOfMemory>
        ensures { OnOk result (self.new ≡ self.old ++ levels ∷ []) }
    {
        let place = self.made.len();
        self.made.push(levels)?;
        self.places.push(place)?;
        Ok(())
    }

    /// Adds a next node that reaches what one before it reaches.
    pub(crate) fn share(&mut self, other: u16) -> Result<(), OutOfMemory>
        requires { other < length self.old }
        ensures { OnOk result ((levels : Levels) → slice_get self.old other ≡ Some levels
            → self.new ≡ self.old ++ levels ∷ []) }
    {
        let place = self.places[usize::from(other)];
        self.places.push(place)?;
        Ok(())
    }

    /// Whether two nodes share what they reach.
    pub(crate) fn is_shared(&self, node: u16, other: u16) -> bool
        requires node { node < length self.now }
        requires other { other < length self.now }
        ensures { IsTrue result → slice_get self.now node ≡ slice_get self.now other }
    {
        self.places[usize::from(node)] == self.places[usize::from(other)]
    }
}
