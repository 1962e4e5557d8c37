//! The modules that were declared.

ghost use Rattle.std.specs.Prelude.{◌≡◌, [], ◌∷◌, ◌++◌, ◌<◌, ◌≤◌, map, length, OnOk, OnErr, option_map, false};
ghost use Rattle.std.specs.List.{list_any};
ghost use Rattle.std.specs.Str.{bytes_eq};
ghost use Rattle.dn_parse.specs.Terms.{param_view};
ghost use Rattle.dn_scope.specs.Uses.{has_twice, module_from, usable_modules, with_module, word_of_param};
ghost use Rattle.dn_scope.specs.Faults.{expand_fault_view};
ghost use Rattle.dn_base.specs.Terms.{Answers};

use crate::fault::ExpandFault;
use crate::names::NameTable;
use crate::titles::Titles;
use dn_base::items::Items;
use dn_base::text::Text;
use dn_parse::syntax::{Body, Param, Stmt};
use std::alloc::{AllocError, Global};

/// The most modules of a text.
const MAX_MODULES: usize = 256;

/// A module that was declared.
#[derive(Clone, Copy)]
pub struct Module<'a, 't> {
    pub title: &'a str,
    pub params: &'a [Param<'t>],
    pub body: &'a [Stmt<'t>],
}

impl<'a, 't> Module<'a, 't> {
    ghost use Rattle.dn_scope.specs.Stack.{body_view, module_view};

    /// The module that has these parts.
    pub fn new(title: &'a str, params: &'a Items<Param<'t>>, body: &'a Body<'t>) -> Module<'a, 't>
        ensures { module_view result ≡ record {
          title = title.now;
          params = map param_view
              params.now;
          body = body_view body.now.items;
        } }
    {
        Module {
            title,
            params: params.as_slice(),
            body: body.as_slice(),
        }
    }
}

/// A module that is known, with the words of its parameters, of which no two are one.
#[derive(Drop)]
pub struct Known<'a, 't> {
    pub module: Module<'a, 't>,
    pub titles: Titles,
    ghost words: { titles ≡ map word_of_param (map param_view module.params.now) },
    ghost different: { has_twice titles ≡ false },
}

/// Which modules a statement may use.
#[derive(Clone, Copy, Debug, PartialEq, Eq)]
pub enum Visible {
    /// All that are known: it stands outside of modules.
    All,
    /// So many of the first: those declared before the module in whose body it stands.
    First(u16),
}

/// The modules that are known, in the order in which they were declared, at most 256. No two have one name,
/// and no module has two parameters of one name.
#[derive(Drop)]
pub struct Modules<'a, 't> {
    names: NameTable,
    modules: Vec<Known<'a, 't>>,
    ghost same: { names ≡ map (λ m. m.module.title.now) modules.items },
    ghost few: { length modules.items ≤ 256 },
}

impl Visible {
    ghost use Rattle.dn_scope.specs.Stack.{visibility_view, may_use};

    /// Whether a statement may use the module with this number, which is known.
    fn includes(self, number: u16) -> bool
        ensures { result ≡ may_use (visibility_view self) number }
    {
        match self {
            Visible::All => true,
            Visible::First(count) => number < count,
        }
    }
}

impl<'a, 't> Modules<'a, 't> {
    ghost use Rattle.dn_scope.specs.Stack.{known_view, module_view, modules_view, visibility_view};

    /// No modules. It takes no memory.
    pub fn new(alloc: Global) -> Modules<'a, 't>
        ensures { modules_view result ≡ [] }
    {
        Modules {
            names: NameTable::new(alloc),
            modules: Vec::new(alloc),
        }
    }

    /// Adds the module that a statement with this line declares. After a fault the modules are unchanged.
    pub fn add(
        &mut self,
        alloc: Global,
        line: u32,
        module: Module<'a, 't>,
    ) -> Result<(), ExpandFault>
        ensures added { Answers (λ _. modules_view self.new) expand_fault_view result
            (with_module (modules_view self.old) line (module_view «module».entry)) }
        ensures unchanged { OnErr result (modules_view self.new ≡ modules_view self.old) }
    {
        if self.modules.len() >= MAX_MODULES {
            return Err(ExpandFault::TooMany { line, limit: 256 });
        }
        if self.names.find(module.title).is_some() {
            return Err(ExpandFault::Duplicate { line });
        }
        let Some(titles) = Titles::of_params(alloc, module.params)? else {
            return Err(ExpandFault::Duplicate { line });
        };
        let known = Known { module, titles };
        put(alloc, &mut self.names, &mut self.modules, known)?;
        Ok(())
    }

    /// The module with this name among those that a statement may use, and its number. `None` exactly where
    /// none of them has it.
    pub fn find(&self, visible: Visible, title: &str) -> Option<(u16, &Known<'a, 't>)>
        ensures found { option_map (λ k. (k.0, known_view k.1.now)) result ≡ module_from 0 title.now
            (usable_modules (visibility_view visible) (modules_view self.now)) }
    {
        let number = self.names.find(title)?;
        if !visible.includes(number) {
            return None;
        }
        match self.modules.get(usize::from(number)) {
            Some(known) => Some((number, known)),
            None => None,
        }
    }
}

/// Puts a module and its name last. For want of memory both lists are unchanged.
fn put<'a, 't>(
    alloc: Global,
    names: &mut NameTable,
    modules: &mut Vec<Known<'a, 't>>,
    known: Known<'a, 't>,
) -> Result<(), AllocError>
    requires room { length names.old < 1024 }
    requires new_name { list_any (bytes_eq known.module.title.now) names.old ≡ false }
    ensures names { OnOk result (names.new ≡ names.old ++ known.entry.module.title.now ∷ []) }
    ensures modules { OnOk result (modules.new.items ≡ modules.old.items ++ known.entry ∷ []) }
    ensures names_err { OnErr result (names.new ≡ names.old) }
    ensures modules_err { OnErr result (modules.new.items ≡ modules.old.items) }
{
    modules.reserve(1)?;
    let name = Text::of(alloc, known.module.title)?;
    let _ = names.add(name)?;
    modules.push_reserved(known);
    Ok(())
}
