//! The words of a module's parameters.

ghost use Rattle.std.specs.Prelude.{◌≡◌, map, position, IfOk, IfSome, not, is_some};
ghost use Rattle.std.specs.Str.{bytes_eq};
ghost use Rattle.dn_parse.specs.Terms.{param_view};
ghost use Rattle.dn_scope.specs.Terms.{has_twice, word_of_param};

use crate::text_table::TextTable;
use dn_parse::syntax::Param;
use std::alloc::{AllocError, Global};
use std::marker::Model;
use std::rc::Rc;

/// The words of a module's parameters in their order, which all its uses share.
#[derive(Drop)]
pub struct Titles {
    words: Rc<TextTable>,
}

impl Model for Titles {
    ghost use Rattle.std.specs.Prelude.{List, ℕ};

    ghost Value = { List (List ℕ) };

    ghost view = { λ t. t.words.value };
}

impl Titles {
    /// The words of these parameters. `None` exactly where two have one word.
    pub fn of_params(alloc: Global, params: &[Param]) -> Result<Option<Titles>, AllocError>
        ensures words { IfOk result (λ found. IfSome found
            (λ t. t ≡ map word_of_param (map param_view params.now))) }
        ensures different { IfOk result (λ found. is_some found ≡
            not (has_twice (map word_of_param (map param_view params.now)))) }
    {
        let mut words = TextTable::new(alloc);
        for i in 0..params.len() {
            let word = word_of(&params[i]);
            let is_new = words.add(alloc, word)?;
            if !is_new {
                return Ok(None);
            }
        }
        let words = Rc::new(alloc, words)?;
        Ok(Some(Titles { words }))
    }

    /// Another holder of these words, which are not copied: only the number of their holders changes.
    pub fn share(&self) -> Result<Titles, AllocError>
        ensures { IfOk result (λ t. t ≡ self.now) }
    {
        let words = self.words.clone()?;
        Ok(Titles { words })
    }

    /// The place of a word, counted from 0. `None` exactly where it is not there.
    pub fn place(&self, word: &str) -> Option<usize>
        ensures { result ≡ position (bytes_eq word.now) self.now }
    {
        self.words.as_ref().number(word)
    }
}

/// The word of a parameter.
fn word_of<'a>(param: &'a Param) -> &'a str
    ensures { result.now ≡ word_of_param (param_view param.now) }
{
    match param {
        Param::Num(word) => word,
        Param::Node(word) => word,
    }
}
