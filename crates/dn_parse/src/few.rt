//! A list of one item or more, of which a single one takes no memory.

ghost use Rattle.std.specs.Prelude.{◌≡◌, [], ◌∷◌, ◌++◌, IfOk};
ghost use Rattle.std.specs.Mem.{FitsInMemory};

use std::alloc::{AllocError, Global};
use std::array;
use std::marker::Model;

/// A list of one item or more, which contracts see as the list itself. A single item lies in the value,
/// and takes no memory of its own.
#[derive(Drop)]
pub struct Few<T> {
    items: OneOrMany<T>,
}

/// One item, or several.
#[derive(Drop)]
pub enum OneOrMany<T> {
    One(T),
    Many(Vec<T>),
}

impl<T> Model for Few<T> {
    ghost use Rattle.std.specs.Prelude.{List};
    ghost use Rattle.dn_parse.specs.Few.{few_items};

    ghost Value = { List T };

    ghost view = { λ s. few_items s.items };
}

impl<T> Few<T> {
    /// The list of a single item. It takes no memory.
    pub fn of(item: T) -> Few<T>
        ensures { result ≡ item ∷ [] }
    {
        Few {
            items: OneOrMany::One(item),
        }
    }

    /// The items.
    pub fn as_slice(&self) -> &[T]
        requires { FitsInMemory T.row }
        ensures { result.now ≡ self.now }
    {
        match &self.items {
            OneOrMany::One(item) => array::from_ref(item),
            OneOrMany::Many(items) => items.as_slice(),
        }
    }
}

impl<T: Drop> Few<T> {
    /// The list with one item more.
    pub fn with(self, alloc: Global, item: T) -> Result<Few<T>, AllocError>
        ensures { IfOk result (λ more. more ≡ self ++ item ∷ []) }
    {
        let mut items = match self.items {
            OneOrMany::One(first) => {
                let mut items = Vec::with_capacity(alloc, 2)?;
                items.push(first)?;
                items
            }
            OneOrMany::Many(items) => items,
        };
        items.push(item)?;
        Ok(Few {
            items: OneOrMany::Many(items),
        })
    }
}
