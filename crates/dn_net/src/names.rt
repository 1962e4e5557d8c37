//! Sets of names.

ghost use Rattle.std.specs.Prelude.{◌≡◌, ◌↔◌, ◌<◌, ◌≤◌, ℕ, [], false, Some, length, slice_get, slice_index_or, OnOk, OnErr, IsTrue};
ghost use Rattle.dn_net.specs.declared.node.Name.{Name};
ghost use Rattle.dn_net.specs.Terms.{is_ascending, name_lt, with_name};

use crate::OutOfMemory;
use crate::node::Name;
use std::alloc::Global;
use std::marker::Model;

/// A set of names, which contracts see as the list of its names, ascending by node and then by
/// address.
#[derive(Drop)]
pub struct Names {
    names: Vec<Name>,
}

impl Model for Names {
    ghost use Rattle.std.specs.Prelude.{List, IsTrue};
    ghost use Rattle.dn_net.specs.declared.node.Name.{Name};
    ghost use Rattle.dn_net.specs.Names.{is_ascending};

    ghost Value = { List Name };

    ghost view = { λ s. s.names.items };

    ghost invariant = { λ s. IsTrue (is_ascending s.names.items) };
}

impl Names {
    /// The empty set, which keeps the allocator and takes no memory.
    pub fn new(alloc: Global) -> Names
        ensures { result ≡ [] }
    {
        Names {
            names: Vec::new(alloc),
        }
    }

    /// Adds a name, which changes nothing where it is there. For want of memory the set is unchanged.
    pub fn insert(&mut self, name: Name) -> Result<(), OutOfMemory>
        ensures ok { OnOk result (self.new ≡ with_name name self.old) }
        ensures err { OnErr result (self.new ≡ self.old) }
    {
        let names = self.names.as_slice();
        let place = place_of(names, name);
        if is_at(names, place, name) {
            return Ok(());
        }
        self.names.insert(place, name)?;
        Ok(())
    }

    /// The names, ascending by node and then by address.
    pub fn list(&self) -> &[Name]
        ensures value { result.now ≡ self.now }
        ensures ascends { IsTrue (is_ascending self.now) }
    {
        self.names.as_slice()
    }
}

/// How many names of an ascending list come before the name.
fn place_of(names: &[Name], name: Name) -> usize
    requires { IsTrue (is_ascending names.now) }
    ensures bound { result ≤ length names.now }
    ensures before { (k : ℕ) (d : Name) → k < result
        → IsTrue (name_lt (slice_index_or names.now k d) name) }
    ensures after { (k : ℕ) (d : Name) → result ≤ k → k < length names.now
        → name_lt (slice_index_or names.now k d) name ≡ false }
{
    names.partition_point(|other| comes_before(*other, name))
}

fn is_at(names: &[Name], place: usize, name: Name) -> bool
    ensures { IsTrue result ↔ (slice_get names.now place ≡ Some name) }
{
    match names.get(place) {
        Some(other) => *other == name,
        None => false,
    }
}

fn comes_before(name: Name, other: Name) -> bool
    ensures { result ≡ name_lt name other }
{
    name.node < other.node || (name.node == other.node && name.addr < other.addr)
}
