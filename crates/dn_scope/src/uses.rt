//! The use of a module.

ghost use Rattle.std.specs.Prelude.{◌≡◌, map, option_map, false};
ghost use Rattle.dn_parse.specs.Terms.{arg_view, name_view, param_view};
ghost use Rattle.dn_scope.specs.Terms.{arguments_fit, each, expand_fault_view, fits_param, found_view, given_by, given_view, has_twice, in_arg, in_declared, name_fault_view, replaced_by, use_rewriting, use_view};
ghost use Rattle.dn_base.specs.Terms.{Answers};

use crate::fault::ExpandFault;
use crate::modules::{Known, Visible};
use crate::recent::Recent;
use crate::scope::Scope;
use crate::stack::Use;
use crate::titles::Titles;
use crate::values::{NameFault, reference, shared_name, value};
use crate::words::{Bindings, Given};
use dn_base::items::Items;
use dn_parse::syntax::{Arg, Param, PartExpr};
use std::alloc::Global;

/// The use of a module that was found, with its number, from the statement's arguments and its prefix.
pub fn new_use<'a, 't>(
    recent: &mut Recent,
    scope: &Scope,
    line: u32,
    found: Option<(u16, &Known<'a, 't>)>,
    args: &[Arg],
    prefix: &[PartExpr],
) -> Result<Use<'a, 't>, ExpandFault>
    ensures { Answers use_view expand_fault_view result
        (use_rewriting line (map (in_arg scope.now) (map arg_view args.now))
        (in_declared scope.now (name_view prefix.now))
        (option_map (λ k. found_view (k.0, k.1.now)) found.entry)) }
{
    let Some((number, known)) = found else {
        return Err(ExpandFault::Unknown { line });
    };
    if !fit(known.module.params, args) {
        return Err(ExpandFault::Arguments { line });
    }
    match inner_scope(recent, scope, &known.titles, args, prefix) {
        Ok(inner) => Ok(Use::new(
            recent.alloc,
            inner,
            Visible::First(number),
            known.module.body,
        )),
        Err(fault) => Err(fault.at(line)),
    }
}

/// What stands for the words of a module's body, with an argument for each parameter.
fn inner_scope<'a>(
    recent: &mut Recent,
    scope: &Scope,
    titles: &Titles,
    args: &[Arg],
    prefix: &[PartExpr],
) -> Result<Scope<'a>, NameFault>
    requires different { has_twice titles.now ≡ false }
    ensures { Answers (λ x. x) name_fault_view result
        (replaced_by titles.now (map (in_arg scope.now) (map arg_view args.now))
        (in_declared scope.now (name_view prefix.now))) }
{
    let values = values_of(recent, scope, args)?;
    let text = shared_name(recent.alloc, scope, prefix)?;
    let words = Bindings::new(titles.share()?, values);
    Ok(Scope::of_use(recent.alloc, text, words))
}

/// The values of arguments.
fn values_of(recent: &mut Recent, scope: &Scope, args: &[Arg]) -> Result<Items<Given>, NameFault>
    ensures { Answers (map given_view) name_fault_view result
        (each given_by (map (in_arg scope.now) (map arg_view args.now))) }
{
    let mut made = Items::from_vec(Vec::with_capacity(recent.alloc, args.len())?);
    for arg in args {
        let value = value_of(recent, scope, arg)?;
        made.push(value)?;
    }
    Ok(made)
}

/// The value of an argument.
fn value_of(recent: &mut Recent, scope: &Scope, arg: &Arg) -> Result<Given, NameFault>
    ensures { Answers given_view name_fault_view result
        (given_by (in_arg scope.now (arg_view arg.now))) }
{
    match arg {
        Arg::Num(expr) => {
            let number = value(scope, expr)?;
            Ok(Given::Number(number))
        }
        Arg::Node(name) => {
            let name = reference(recent, scope, name.as_slice())?;
            Ok(Given::Named(name))
        }
    }
}

/// Whether the arguments are as many as the parameters, and of their sorts.
fn fit(params: &[Param], args: &[Arg]) -> bool
    ensures { result ≡ arguments_fit (map param_view params.now) (map arg_view args.now) }
{
    if params.len() != args.len() {
        return false;
    }
    for i in 0..params.len() {
        if !fits(&params[i], &args[i]) {
            return false;
        }
    }
    true
}

/// Whether an argument is of its parameter's sort.
fn fits(param: &Param, arg: &Arg) -> bool
    ensures { result ≡ fits_param (param_view param.now) (arg_view arg.now) }
{
    match param {
        Param::Num(_) => matches!(arg, Arg::Num(_)),
        Param::Node(_) => matches!(arg, Arg::Node(_)),
    }
}
