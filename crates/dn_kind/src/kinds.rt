//! The list of the kinds that a program knows.

ghost use Rattle.std.specs.Prelude.{◌≡◌, ◌<◌, ◌++◌, [], ◌∷◌, length, slice_get, map, Some, option_map, IfSome, OnOk, OnErr};
ghost use Rattle.std.specs.List.{All};
ghost use Rattle.std.specs.Str.{bytes_eq};
ghost use Rattle.dn_kind.specs.Terms.{IsLawful, kind_place};

use crate::OutOfMemory;
use crate::unit_kind::UnitKind;
use std::alloc::Global;

/// The kinds of units that a program knows, in order. Each call that takes them asks that each
/// keeps the laws of kinds; a list made by [`Kinds::none`] and [`Kinds::add`] has only such kinds.
#[derive(Drop)]
pub struct Kinds {
    list: Vec<Box<dyn UnitKind>>,
}

impl Kinds {
    /// No kind. It takes no memory.
    pub fn none(alloc: Global) -> Kinds
        ensures lawful { All (λ k. IsLawful (meaning k)) result.list.items }
        ensures empty { result.list.items ≡ [] }
    {
        Kinds {
            list: Vec::new(alloc),
        }
    }

    /// Adds a kind at the end. For want of memory the list is unchanged.
    pub fn add(&mut self, kind: Box<dyn UnitKind>) -> Result<(), OutOfMemory>
        requires kind { IsLawful (meaning kind) }
        requires kinds { All (λ k. IsLawful (meaning k)) self.old.list.items }
        ensures lawful { All (λ k. IsLawful (meaning k)) self.new.list.items }
        ensures ok { OnOk result (self.new.list.items ≡ self.old.list.items ++ kind ∷ []) }
        ensures err { OnErr result (self.new.list.items ≡ self.old.list.items) }
    {
        self.list.push(kind)?;
        Ok(())
    }

    /// How many kinds there are.
    pub fn len(&self) -> usize
        ensures { result ≡ length self.now.list.items }
    {
        self.list.len()
    }

    /// The place of the first kind of a name. `None` exactly where there is none.
    pub fn find(&self, name: &str) -> Option<usize>
        ensures place { result ≡ kind_place (map (λ k. meaning k) self.now.list.items) name.now }
        ensures there { IfSome result (λ number. number < length self.now.list.items) }
    {
        for number in 0..self.list.len() {
            if self.has_name(number, name) {
                return Some(number);
            }
        }
        None
    }

    /// Whether the kind of a number has the name.
    fn has_name(&self, number: usize, name: &str) -> bool
        requires there { number < length self.now.list.items }
        ensures { option_map (λ k. bytes_eq name.now k.name)
            (slice_get (map (λ k. meaning k) self.now.list.items) number) ≡ Some result }
    {
        is_named(&**self.entry(number), name)
    }

    /// The kind of a number, as it stands in the list.
    fn entry(&self, number: usize) -> &Box<dyn UnitKind>
        requires there { number < length self.now.list.items }
        ensures { slice_get (map (λ k. meaning k) self.now.list.items) number
            ≡ Some (meaning result.now) }
    {
        let list = self.list.as_slice();
        &list[number]
    }

    /// The kind of a number.
    pub fn kind(&self, number: usize) -> &Box<dyn UnitKind>
        requires there { number < length self.now.list.items }
        requires kinds { All (λ k. IsLawful (meaning k)) self.now.list.items }
        ensures lawful { IsLawful (meaning result.now) }
        ensures at { slice_get (map (λ k. meaning k) self.now.list.items) number
            ≡ Some (meaning result.now) }
    {
        &self.list[number]
    }
}

/// Whether the kind has the name.
fn is_named(kind: &dyn UnitKind, name: &str) -> bool
    ensures { result ≡ bytes_eq name.now (meaning kind.now).name }
{
    name == kind.name()
}
