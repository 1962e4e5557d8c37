//! The names of a text's nodes, with their numbers.

ghost use Rattle.std.specs.Prelude.{◌≡◌, [], ◌∷◌, ◌++◌, if◌then◌else◌, not, IfOk, OnErr, length, ◌<◌, position};
ghost use Rattle.std.specs.List.{list_any};
ghost use Rattle.std.specs.Str.{bytes_eq};

use dn_base::text::Text;
use indexmap::IndexSet;
use std::alloc::{AllocError, Global};
use std::marker::Model;
use std::rc::RcStr;

/// Different names, numbered in the order in which they were added, at most 1,024. Contracts see the
/// list of their bytes.
#[derive(Drop)]
pub struct NameTable {
    names: IndexSet<RcStr>,
}

impl Model for NameTable {
    ghost use Rattle.std.specs.Prelude.{List, ℕ, map, length, ◌≤◌};
    ghost use Rattle.std.specs.Rc.{rc_str_bytes};

    ghost Value = { List (List ℕ) };

    ghost view = { λ n. map (λ s. rc_str_bytes s) n.names.keys };

    ghost invariant = { λ n. length n.names.keys ≤ 1024 };
}

impl NameTable {
    /// No names. It takes no memory.
    pub fn new(alloc: Global) -> NameTable
        ensures { result ≡ [] }
    {
        NameTable {
            names: IndexSet::new(alloc),
        }
    }

    /// The number of a name. `None` exactly where it is not there.
    pub fn find(&self, text: &str) -> Option<u16>
        ensures { result ≡ position (bytes_eq text.now) self.now }
    {
        match self.names.get_index_of(text) {
            Some(number) => Some(number as u16),
            None => None,
        }
    }

    /// Adds a name, and answers whether it is new. One that is there already is not added again, and for
    /// want of memory the names are unchanged.
    pub fn add(&mut self, name: Text) -> Result<bool, AllocError>
        requires room { length self.old < 1024 }
        ensures is_new { IfOk result (λ is_new. is_new ≡ not
            (list_any (bytes_eq name) self.old)) }
        ensures added { IfOk result (λ is_new. self.new ≡
            (if is_new then self.old ++ name ∷ [] else self.old)) }
        ensures err { OnErr result (self.new ≡ self.old) }
    {
        let is_new = self.names.insert(name.into_shared())?;
        Ok(is_new)
    }
}
