//! What stands for the words of a body: numbers for variables, and full names for names.

ghost use Rattle.std.specs.Prelude.{◌≡◌, [], ◌∷◌, ◌++◌, ◌<◌, drop, map, reverse, OnOk, OnErr, Option, Some, None, option_map};
ghost use Rattle.dn_scope.specs.Terms.{as_they_stand, node_by, numbers_by, prefix_of, under, value_for_word};

use crate::scoped::ScopedName;
use crate::words::Bindings;
use dn_base::text::Text;
use std::alloc::{AllocError, Global};
use std::marker::Model;

/// What stands for the words of a body, which contracts see as what is replaced in it: the numbers of its
/// variables, the innermost first, and the names of the module in whose body it stands, if it does.
#[derive(Drop)]
pub struct Scope<'a> {
    /// The loop variables, the innermost last. They are few, since few loops stand in one another.
    loops: Vec<Number<'a>>,
    /// The use of a module in whose body it stands.
    within: Option<Within>,
}

/// A variable with its number.
#[derive(Clone, Copy)]
pub struct Number<'a> {
    word: &'a str,
    number: u64,
}

/// The use of a module: its full name, and what stands for the parameters.
#[derive(Drop)]
pub struct Within {
    prefix: Text,
    words: Bindings,
}

impl<'a> Model for Scope<'a> {
    ghost use Rattle.std.specs.Prelude.{map, reverse, ◌++◌, option_map};
    ghost use Rattle.dn_scope.specs.Replace.{Replacement, naming_by, numbers_by};

    ghost Value = { Replacement };

    ghost view = { λ s. record {
      numbers = reverse (map (λ n. (n.word.now, n.number)) s.loops.items)
          ++ numbers_by (option_map (λ w. w.words.0) s.within);
      naming = naming_by (option_map (λ w. (w.prefix, w.words.1)) s.within);
    } };
}

impl<'a> Scope<'a> {
    /// Outside of modules and loops nothing is replaced. It takes no memory.
    pub fn outside(alloc: Global) -> Scope<'a>
        ensures { result ≡ record { numbers = []; naming = as_they_stand } }
    {
        Scope {
            loops: Vec::new(alloc),
            within: None,
        }
    }

    /// The body of a used module: the full name of the use, and what stands for the parameters. It takes no
    /// memory.
    pub fn of_use(alloc: Global, prefix: Text, words: Bindings) -> Scope<'a>
        ensures { result ≡ record { numbers = words.0; naming = under prefix words.1 } }
    {
        Scope {
            loops: Vec::new(alloc),
            within: Some(Within { prefix, words }),
        }
    }

    /// Goes into a turn of a loop: its variable with its number becomes the innermost. For want of memory
    /// the scope is unchanged.
    pub fn enter(&mut self, word: &'a str, number: u64) -> Result<(), AllocError>
        ensures ok { OnOk result (self.new ≡ record
            { numbers = (word.now, number) ∷ self.old.numbers; naming = self.old.naming }) }
        ensures err { OnErr result (self.new ≡ self.old) }
    {
        self.loops.push(Number { word, number })?;
        Ok(())
    }

    /// Comes out of a turn of a loop: the innermost number goes. Outside of loops that is the first parameter's.
    pub fn leave(&mut self)
        ensures { self.new ≡
            record { numbers = drop 1 self.old.numbers; naming = self.old.naming } }
    {
        if self.loops.pop().is_none() {
            if let Some(within) = &mut self.within {
                within.words.without_first_number();
            }
        }
    }

    /// The number that stands for a word. `None` exactly where none does.
    pub fn number(&self, word: &str) -> Option<u64>
        ensures { result ≡ value_for_word word.now self.now.numbers }
    {
        match loop_number(self.loops.as_slice(), word) {
            Some(number) => Some(number),
            None => parameter(&self.within, word),
        }
    }

    /// The full name that stands for a node parameter. `None` exactly where the word is none.
    pub fn node(&self, word: &str) -> Option<&ScopedName>
        ensures { option_map (λ t. t.now) result ≡ node_by self.now.naming (Some word.now) }
    {
        match &self.within {
            Some(within) => within.words.name(word),
            None => None,
        }
    }

    /// The full name that is put before the names of a module's body. `None` exactly outside of modules.
    pub fn prefix(&self) -> Option<&Text>
        ensures { option_map (λ t. t.now) result ≡ prefix_of self.now.naming }
    {
        match &self.within {
            Some(within) => Some(&within.prefix),
            None => None,
        }
    }
}

/// The number that stands for a parameter. `None` exactly where none does.
fn parameter(within: &Option<Within>, word: &str) -> Option<u64>
    ensures { result
        ≡ value_for_word word.now (numbers_by (option_map (λ w. w.words.0) within.now)) }
{
    match within {
        Some(within) => within.words.number(word),
        None => None,
    }
}

/// The number of a loop variable, of the innermost with this name.
fn loop_number(loops: &[Number], word: &str) -> Option<u64>
    ensures { result
        ≡ value_for_word word.now (reverse (map (λ n. (n.word.now, n.number)) loops.now)) }
{
    let mut left = loops.len();
    while left > 0 {
        left -= 1;
        let number = &loops[left];
        if number.word == word {
            return Some(number.number);
        }
    }
    None
}
