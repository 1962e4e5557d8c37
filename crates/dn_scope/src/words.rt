//! What stands for the words of a module's parameters.

ghost use Rattle.std.specs.Prelude.{◌≡◌, List, ℕ, map, drop, option_map, slice_get, is_some, false};
ghost use Rattle.dn_scope.specs.Terms.{given_view, has_twice, name_part, nodes_of, number_part, numbers_from, numbers_of, part_in, value_for_word};

use crate::scoped::ScopedName;
use crate::titles::Titles;
use dn_base::items::Items;
use std::marker::Model;

/// The value of an argument.
#[derive(Drop)]
pub enum Given {
    /// A number.
    Number(u64),
    /// The full name of a node.
    Named(ScopedName),
}

/// What stands for the words of a module's parameters: at the place of each word its value. Contracts see
/// the numbers and the full names, each with its word.
#[derive(Drop)]
pub struct Bindings {
    titles: Titles,
    values: Items<Given>,
    /// The numbers before this place stand for nothing more.
    from: usize,
}

impl Model for Bindings {
    ghost use Rattle.std.specs.Prelude.{List, ℕ, ◌≡◌, map, false};
    ghost use Rattle.dn_scope.specs.Uses.{has_twice, nodes_of};
    ghost use Rattle.dn_scope.specs.Words.{given_view, numbers_from};

    ghost Value = { List (List ℕ × ℕ) × List (List ℕ × List ℕ) };

    ghost view = { λ w. (
      numbers_from w.from w.titles (map given_view w.values),
      nodes_of w.titles (map given_view w.values),
    ) };

    ghost invariant = { λ w. has_twice w.titles ≡ false };
}

impl Bindings {
    /// Different words, each with the value at its place. It takes no memory.
    pub fn new(titles: Titles, values: Items<Given>) -> Bindings
        requires different { has_twice titles ≡ false }
        ensures { result ≡ (
          numbers_of titles (map given_view values),
          nodes_of titles (map given_view values),
        ) }
    {
        Bindings {
            titles,
            values,
            from: 0,
        }
    }

    /// The number that stands for a word. `None` exactly where none does.
    pub fn number(&self, word: &str) -> Option<u64>
        ensures { result ≡ value_for_word word.now self.now.0 }
    {
        let Some(place) = self.titles.place(word) else {
            return None;
        };
        if place < self.from {
            return None;
        }
        number_at(self.values.as_slice(), place)
    }

    /// The full name that stands for a word. `None` exactly where none does.
    pub fn name(&self, word: &str) -> Option<&ScopedName>
        ensures { option_map (λ t. t.now) result ≡ value_for_word word.now self.now.1 }
    {
        let Some(place) = self.titles.place(word) else {
            return None;
        };
        name_at(self.values.as_slice(), place)
    }

    /// Takes the first number away, where there is one.
    pub fn without_first_number(&mut self)
        ensures { self.new ≡ (drop 1 self.old.0, self.old.1) }
    {
        self.from = after_number(self.values.as_slice(), self.from);
    }
}

/// The number at a place. `None` exactly where there is none.
fn number_at(values: &[Given], place: usize) -> Option<u64>
    ensures { result ≡ part_in number_part (slice_get (map given_view values.now) place) }
{
    match values.get(place) {
        Some(Given::Number(number)) => Some(*number),
        _ => None,
    }
}

/// The full name at a place. `None` exactly where there is none.
fn name_at(values: &[Given], place: usize) -> Option<&ScopedName>
    ensures { option_map (λ t. t.now) result ≡
        part_in name_part (slice_get (map given_view values.now) place) }
{
    match values.get(place) {
        Some(Given::Named(name)) => Some(name),
        _ => None,
    }
}

/// The place after the first number from a place on, or past all values.
fn after_number(values: &[Given], from: usize) -> usize
    ensures { (words : List (List ℕ)) →
        numbers_from result words (map given_view values.now) ≡
        drop 1 (numbers_from from words (map given_view values.now)) }
{
    let mut place = from;
    while place < values.len() {
        let value = &values[place];
        place += 1;
        if is_number(value) {
            return place;
        }
    }
    place
}

/// Whether a value is a number.
fn is_number(value: &Given) -> bool
    ensures { result ≡ is_some (number_part (given_view value.now)) }
{
    matches!(value, Given::Number(_))
}
