//! The words of the units of a net.

ghost use Rattle.std.specs.Prelude.{◌≡◌, ◌<◌, [], length, slice_get, Some, IfOk, IsTrue};
ghost use Rattle.std.specs.Option.{option_copied};
ghost use Rattle.dn_kind.specs.Terms.{AreKinds, IsKinded, has_shape, kinds_of};
ghost use Rattle.dn_tables.specs.Terms.{fresh_by};
ghost use Rattle.dn_book.specs.Terms.{tables_of, with_word_in};
ghost use Rattle.dn_flight.specs.Terms.{has_word_in};

use crate::OutOfMemory;
use dn_base::filled::Filled;
use dn_kind::kinded::KindedNet;
use dn_kind::kinds::Kinds;
use dn_kind::unit_kind::UnitKind;
use dn_net::node::Unit;
use std::alloc::Global;
use std::marker::Model;

/// The words of each node of a net, none of a node that is no unit. Contracts see the list of them.
#[derive(Drop)]
pub(crate) struct NetWords {
    nodes: Vec<Filled<u64>>,
}

impl Model for NetWords {
    ghost use Rattle.std.specs.Prelude.{List, ℕ};

    ghost Value = { List (List ℕ) };

    ghost view = { λ s. s.nodes.items };
}

impl NetWords {
    /// Words 0 for each slot of each unit. `Err` is want of memory.
    pub(crate) fn start(alloc: Global, on: KindedNet) -> Result<NetWords, OutOfMemory>
        requires on { IsKinded meaning on }
        ensures { IfOk result (λ words. words
            ≡ tables_of on.entry.net.now (kinds_of meaning on.entry.kinds.now) []) }
    {
        let mut nodes = Vec::new(alloc);
        for node in 0..on.net.nodes() {
            nodes.push(zero_words(alloc, on.net.unit(node), on.kinds)?)?;
        }
        Ok(NetWords { nodes })
    }

    /// Whether a node has the word.
    pub(crate) fn has(&self, unit: u16, word: u32) -> bool
        ensures { result ≡ has_word_in self.now unit word }
    {
        match self.nodes.get(usize::from(unit)) {
            Some(words) => (word as usize) < words.len(),
            None => false,
        }
    }

    /// The words of a node.
    pub(crate) fn of(&self, node: u16) -> &Filled<u64>
        requires { node < length self.now }
        ensures { slice_get self.now node ≡ Some result.now }
    {
        let nodes = self.nodes.as_slice();
        &nodes[usize::from(node)]
    }

    /// Sets a word.
    pub(crate) fn set(&mut self, unit: u16, word: u32, value: u64)
        requires { IsTrue (has_word_in self.old unit word) }
        ensures { self.new ≡ with_word_in self.old unit word value }
    {
        let words = &mut self.nodes[usize::from(unit)];
        words.set(word as usize, value);
    }
}

/// The words of a unit, or of no unit, each of them 0.
fn zero_words(alloc: Global, unit: Option<&Unit>, kinds: &Kinds) -> Result<Filled<u64>, OutOfMemory>
    requires kinds { AreKinds meaning kinds.now }
    requires shaped { IsTrue (has_shape (kinds_of meaning kinds.now) (option_copied unit)) }
    ensures { IfOk result (λ words. words
        ≡ (fresh_by (kinds_of meaning kinds.now) (option_copied unit.entry)).words) }
{
    match unit {
        Some(unit) => {
            let width = kinds.kind(usize::from(unit.kind)).words();
            Filled::new(alloc, 0, unit.slots as usize * usize::from(width))
        }
        None => Filled::new(alloc, 0, 0),
    }
}
