//! From a text to its platform, or to the rule that it breaks.

ghost use Rattle.std.specs.Prelude.{◌≡◌, ◌≤◌, IfOk, IfSome, option_map, IsTrue, None, Result, Ok, Err, length};
ghost use Rattle.std.specs.List.{list_all};
ghost use Rattle.dn_net.specs.Terms.{is_closed};
ghost use Rattle.dn_kind.specs.Terms.{AreKinds, has_kind, kinds_of, shape_fault};
ghost use Rattle.dn_module.specs.Terms.{Expansion, names_within, outcome_view};
ghost use Rattle.dn_tool.specs.declared.refusal.Refusal.{Refusal};
ghost use Rattle.dn_tool.specs.Terms.{IsLegal, IsPlatform, compilation, compile_fault_view, expansion_compilation, fault, platform_view, refusal_of, with_refusal};
ghost use Rattle.dn_base.specs.Terms.{Answers, Checks};

use crate::refusal::Refusal;
use crate::{OutOfMemory, refusal};
use dn_kind::kinds::Kinds;
use dn_kind::units;
use dn_module::commands::Commands;
use dn_module::expand;
use dn_module::expand::Expanded;
use dn_net::net::Net;
use dn_parse::reader;
use dn_walk::walks;
use dn_walk::walks::WalkTable;
use std::alloc::Global;
use std::fmt;
use std::fmt::{Debug, Formatter, Write};
use std::marker::Model;
use thiserror::Error;

/// Why a text is not compiled.
#[derive(Drop, Error)]
pub enum CompileFault {
    /// The text breaks a rule; the first that it breaks.
    #[error("Refused")]
    Refused(Refusal),
    /// There was no memory for the platform.
    #[error("OutOfMemory")]
    OutOfMemory,
}

/// The name of the fault; the refusal is left out.
impl Debug for CompileFault {
    fn fmt<W: Write>(&self, f: &mut Formatter<W>) -> Result<(), fmt::Error> {
        write!(f, "{self}")
    }
}

/// A compiled text: its net, the live walks of that net, and its commands.
///
/// The net is legal, the walks are its live walks, and each node that a command names is there.
#[derive(Drop)]
pub struct Platform<'a> {
    /// The net.
    pub net: Net,
    /// The live walks of the net.
    pub walks: WalkTable,
    /// The commands, in order, of which none is kept.
    pub commands: Commands<'a>,
}

impl<'a> Model for Platform<'a> {
    ghost use Rattle.dn_tool.specs.Platform.{IsPlatform, PlatformState};

    ghost Value = { PlatformState };

    ghost view = { λ p. record { net = p.net; walks = p.walks; commands = p.commands } };

    ghost invariant = { λ p. IsPlatform (record { net = p.net; walks = p.walks; commands = p.commands }) };
}

impl<'a> Platform<'a> {
    /// What every platform is, for a proof of its caller. It does nothing.
    pub fn facts(&self)
        ensures { IsPlatform self.now }
    {
        let _net = &self.net;
    }
}

/// Compiles a text, where these kinds of units are known. It is refused exactly where it breaks a
/// rule.
pub fn compile<'a>(
    alloc: Global,
    text: &'a [u8],
    kinds: &Kinds,
) -> Result<Platform<'a>, CompileFault>
    requires few_kinds { length kinds.now.list.items ≤ 255 }
    requires kinds { AreKinds meaning kinds.now }
    ensures answer { Answers platform_view compile_fault_view result
        (with_refusal (compilation (kinds_of meaning kinds.now) text.now)) }
    // It is compiled where it breaks no rule, and refused for the first that it breaks.
    ensures fault { Checks compile_fault_view result
        (option_map refusal_of (fault (kinds_of meaning kinds.now) text.now)) }
    ensures legal { IfOk result (λ p. IsLegal (kinds_of meaning kinds.now) text.now) }
    ensures shaped { IfOk result (λ p. shape_fault (kinds_of meaning kinds.now) p.net ≡ None) }
{
    let tree = match reader::read(alloc, text) {
        Ok(tree) => tree,
        Err(fault) => return Err(fault_of(refusal::text_refusal(alloc, fault))),
    };
    match expand::expand(alloc, &tree, kinds) {
        Ok(expanded) => platform_of(alloc, expanded, kinds),
        Err(fault) => Err(fault_of(refusal::expand_refusal(alloc, fault))),
    }
}

/// The platform of a net and its commands, where the net keeps the node rules, the rule on the shape
/// of units and the rules on walks.
fn platform_of<'a>(
    alloc: Global,
    expanded: Expanded<'a>,
    kinds: &Kinds,
) -> Result<Platform<'a>, CompileFault>
    requires kinds { AreKinds meaning kinds.now }
    requires closed { IsTrue (is_closed expanded.net) }
    requires known { IsTrue (list_all (names_within (length expanded.net)) expanded.commands) }
    requires known_kinds { IsTrue
        (list_all (λ n. has_kind (length kinds.now.list.items) n.unit) expanded.net) }
    ensures answer { Answers platform_view compile_fault_view result (with_refusal
        (expansion_compilation (kinds_of meaning kinds.now) (Ok (outcome_view expanded.entry)))) }
    ensures shaped { IfOk result (λ p. shape_fault (kinds_of meaning kinds.now) p.net ≡ None) }
{
    let Expanded { net, commands } = expanded;
    if let Err(fault) = net.check_nodes(alloc) {
        return Err(fault_of(refusal::node_refusal(alloc, &net, fault)));
    }
    if let Err(fault) = units::check_units(&net, kinds) {
        return Err(fault_of(refusal::unit_refusal(alloc, &net, fault)));
    }
    match walks::walks(alloc, &net) {
        Ok(walks) => Ok(Platform {
            net,
            walks,
            commands,
        }),
        Err(fault) => Err(fault_of(refusal::walk_refusal(alloc, &net, &fault))),
    }
}

/// The fault that a refusal is.
fn fault_of(refusal: Result<Refusal, OutOfMemory>) -> CompileFault
    ensures { (made : Result Expansion Refusal) → IfOk refusal (λ r. made ≡ Err r) →
        IfSome (compile_fault_view result) (λ r. made ≡ Err r) }
{
    match refusal {
        Ok(refusal) => CompileFault::Refused(refusal),
        Err(_) => CompileFault::OutOfMemory,
    }
}
