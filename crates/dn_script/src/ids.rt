//! The ids of grants, with their numbers.

ghost use Rattle.std.specs.Prelude.{◌≡◌, [], length, position, IfOk, OnErr, OnOk};
ghost use Rattle.std.specs.Str.{bytes_eq};
ghost use Rattle.dn_script.specs.Terms.{id_number, with_id};

use crate::OutOfMemory;
use dn_scope::text_table::TextTable;
use std::alloc::Global;
use std::marker::Model;

/// Different ids, numbered from 0 in the order in which they came, at most 4,294,967,295. Contracts
/// see the list of their bytes.
#[derive(Drop)]
pub struct Ids {
    ids: TextTable,
}

impl Model for Ids {
    ghost use Rattle.std.specs.Prelude.{List, ℕ, length, ◌≤◌};

    ghost Value = { List (List ℕ) };

    ghost view = { λ n. n.ids };

    ghost invariant = { λ n. length n.ids ≤ 4294967295 };
}

impl Ids {
    /// No ids. It takes no memory.
    pub fn new(alloc: Global) -> Ids
        ensures { result ≡ [] }
    {
        Ids {
            ids: TextTable::new(alloc),
        }
    }

    /// The number of an id, which is the next one where it did not come before. `Err` is want of memory,
    /// or of numbers, and then the ids are unchanged.
    pub fn number(&mut self, alloc: Global, id: &str) -> Result<u32, OutOfMemory>
        ensures number { IfOk result (λ n. n ≡ id_number self.old id.now) }
        ensures ids { OnOk result (self.new ≡ with_id self.old id.now) }
        ensures err { OnErr result (self.new ≡ self.old) }
    {
        match self.find(id) {
            Some(number) => Ok(number),
            None => self.add(alloc, id),
        }
    }

    /// The number of an id. `None` exactly where it did not come before.
    fn find(&self, id: &str) -> Option<u32>
        ensures { result ≡ position (bytes_eq id.now) self.now }
    {
        match self.ids.number(id) {
            Some(number) => Some(number as u32),
            None => None,
        }
    }

    /// Adds an id, which gets the next number where it did not come before.
    fn add(&mut self, alloc: Global, id: &str) -> Result<u32, OutOfMemory>
        ensures number { IfOk result (λ n. n ≡ length self.old) }
        ensures ids { OnOk result (self.new ≡ with_id self.old id.now) }
        ensures err { OnErr result (self.new ≡ self.old) }
    {
        let number = self.ids.len();
        if number >= 4_294_967_295 {
            return Err(OutOfMemory);
        }
        let _is_new = self.ids.add(alloc, id)?;
        Ok(number as u32)
    }
}
