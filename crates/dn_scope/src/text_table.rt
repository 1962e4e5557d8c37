//! Different texts with their numbers.

ghost use Rattle.std.specs.Prelude.{◌≡◌, ◌<◌, [], ◌∷◌, ◌++◌, if◌then◌else◌, not, false, length, map, position, IfOk, IfSome, OnOk, OnErr};
ghost use Rattle.std.specs.List.{list_any};
ghost use Rattle.std.specs.Rc.{rc_str_bytes};
ghost use Rattle.std.specs.Str.{bytes_eq};
ghost use Rattle.dn_scope.specs.Terms.{AreNumbered};

use std::alloc::{AllocError, Global};
use std::collections::BTreeMap;
use std::marker::Model;
use std::rc::RcStr;

/// Different texts, numbered from 0 in the order in which they were added. Contracts see the list of their
/// bytes. To look for a text takes steps by the logarithm of how many there are, whatever they are.
#[derive(Drop)]
pub struct TextTable {
    texts: Vec<RcStr>,
    numbers: BTreeMap<RcStr, usize>,
}

impl Model for TextTable {
    ghost use Rattle.std.specs.Prelude.{List, ℕ, map};
    ghost use Rattle.std.specs.Rc.{rc_str_bytes};
    ghost use Rattle.dn_scope.specs.Numbered.{AreNumbered};

    ghost Value = { List (List ℕ) };

    ghost view = { λ t. map (λ s. rc_str_bytes s) t.texts.items };

    ghost invariant = { λ t. AreNumbered (λ s. rc_str_bytes s) t.numbers.entries t.texts.items };
}

impl TextTable {
    /// No texts. It takes no memory.
    pub fn new(alloc: Global) -> TextTable
        ensures { result ≡ [] }
    {
        TextTable {
            texts: Vec::new(alloc),
            numbers: BTreeMap::new(alloc),
        }
    }

    /// How many texts there are.
    pub fn len(&self) -> usize
        ensures { result ≡ length self.now }
    {
        self.texts.len()
    }

    /// The number of a text. `None` exactly where it is not there.
    pub fn number(&self, text: &str) -> Option<usize>
        ensures number { result ≡ position (bytes_eq text.now) self.now }
        ensures within { IfSome result (λ n. n < length self.now) }
    {
        match self.numbers.get(text) {
            Some(number) => Some(*number),
            None => None,
        }
    }

    /// Adds a text, and answers whether it is new. One that is there already is not added again, and for
    /// want of memory the texts are unchanged.
    pub fn add(&mut self, alloc: Global, text: &str) -> Result<bool, AllocError>
        ensures is_new { IfOk result (λ is_new. is_new
            ≡ not (list_any (bytes_eq text.now) self.old)) }
        ensures added { IfOk result (λ is_new. self.new ≡
            (if is_new then self.old ++ text.now ∷ [] else self.old)) }
        ensures err { OnErr result (self.new ≡ self.old) }
    {
        if self.number(text).is_some() {
            return Ok(false);
        }
        let text = RcStr::from_str(alloc, text)?;
        put(&mut self.texts, &mut self.numbers, text)?;
        Ok(true)
    }
}

/// Puts a text last, with its number. For want of memory the texts are unchanged.
fn put(
    texts: &mut Vec<RcStr>,
    numbers: &mut BTreeMap<RcStr, usize>,
    text: RcStr,
) -> Result<(), AllocError>
    requires numbered { AreNumbered (λ s. rc_str_bytes s) numbers.old.entries texts.old.items }
    requires new_text { list_any (bytes_eq (rc_str_bytes text))
        (map (λ s. rc_str_bytes s) texts.old.items) ≡ false }
    ensures numbered { AreNumbered (λ s. rc_str_bytes s) numbers.new.entries texts.new.items }
    ensures put { OnOk result (texts.new.items ≡ texts.old.items ++ text ∷ []) }
    ensures err { OnErr result (texts.new.items ≡ texts.old.items) }
{
    let number = texts.len();
    texts.reserve(1)?;
    let key = text.clone()?;
    numbers.insert(key, number)?;
    texts.push_reserved(text);
    Ok(())
}
