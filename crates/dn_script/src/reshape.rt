//! The replies to the commands that make another net of the net, which stays as it is.

ghost use Rattle.std.specs.Prelude.{◌≡◌, ◌<◌, List, length, IfOk, IfSome, IsSome, IsTrue};
ghost use Rattle.std.specs.List.{All, list_all};
ghost use Rattle.dn_kind.specs.Terms.{AreKinds, has_kind, kinds_of};
ghost use Rattle.dn_net.specs.declared.node.NodeDecl.{NodeDecl};
ghost use Rattle.dn_net.specs.Terms.{is_closed, over_within};
ghost use Rattle.dn_shape.specs.Terms.{absorb_fault_view, absorb_outcome};
ghost use Rattle.dn_script.specs.Terms.{AreUnmade, IsMachine, IsPassed, IsUnfit, IsUnfitFor, absorb_text, absorbed_text, limit_text, made_text, no_node_text, reason_text, refusal_text, split_text, unfit_text};

use crate::OutOfMemory;
use crate::machine::Machine;
use dn_base::items::Items;
use dn_kind::kinded::KindedNet;
use dn_kind::kinds::Kinds;
use dn_module::command::Target;
use dn_net::net::Net;
use dn_shape::fault::{AbsorbFault, SplitFault, Why};
use dn_shape::{absorb, split};
use std::alloc::Global;

/// Why a node is not absorbed.
#[derive(Clone, Copy)]
pub struct Unfit {
    pub node: u16,
    pub why: AbsorbFault,
}

/// Why nets were not made of the net, which stays as it is: each is found once, and told to each command
/// that asks for it.
#[derive(Drop)]
pub struct Unmade {
    /// The limit that the split net passes, where a command was refused for it.
    pub split: Option<u32>,
    /// Why nodes are not absorbed, each node for which a command was refused.
    pub unfit: Items<Unfit>,
}

impl Unmade {
    /// No command was refused yet. It takes no memory.
    pub fn new(alloc: Global) -> Unmade
        ensures { (net : List NodeDecl) → AreUnmade net result }
    {
        Unmade {
            split: None,
            unfit: Items::new(alloc),
        }
    }
}

/// The reply to `split`: the split net, or the limit that it would pass. `Err` is want of memory.
pub fn split_reply(
    alloc: Global,
    machine: Machine,
    passed: &mut Option<u32>,
) -> Result<Vec<u8>, OutOfMemory>
    requires machine { IsMachine meaning machine }
    requires passed { IfSome passed.old (IsPassed machine.on.net.now) }
    ensures reply { IfOk result (λ v. v.items
        ≡ split_text (kinds_of meaning machine.entry.on.kinds.now) machine.entry.on.net.now) }
    ensures passed { IfSome passed.new (IsPassed machine.entry.on.net.now) }
{
    if let Some(limit) = *passed {
        return limit_reply(alloc, "split", limit);
    }
    match split::split(alloc, machine.on.net) {
        Ok(made) => made_reply(alloc, machine.on.kinds, "split", &made),
        Err(SplitFault::TooMany { limit }) => {
            *passed = Some(limit);
            limit_reply(alloc, "split", limit)
        }
        Err(SplitFault::OutOfMemory) => Err(OutOfMemory),
    }
}

/// The reply to `absorb`: the net past the node, or why there is none. `Err` is want of memory.
pub fn absorb_reply(
    alloc: Global,
    machine: Machine,
    unfit: &mut Items<Unfit>,
    target: &Target,
) -> Result<Vec<u8>, OutOfMemory>
    requires machine { IsMachine meaning machine }
    requires there { IsTrue (over_within (length machine.on.net.now) target.now.node) }
    requires unfit { All (IsUnfit machine.on.net.now) unfit.old }
    ensures reply { IfOk result (λ v. v.items ≡ absorb_text
        (kinds_of meaning machine.entry.on.kinds.now) machine.entry.on.net.now target.now) }
    ensures unfit { All (IsUnfit machine.entry.on.net.now) unfit.new }
{
    let name = target.text.as_str();
    match target.node {
        Some(node) => past_reply(alloc, machine, unfit, name, node),
        None => no_node(alloc, name),
    }
}

/// The reply to `absorb` of a node that is there.
fn past_reply(
    alloc: Global,
    machine: Machine,
    unfit: &mut Items<Unfit>,
    name: &str,
    node: u16,
) -> Result<Vec<u8>, OutOfMemory>
    requires machine { IsMachine meaning machine }
    requires there { node < length machine.on.net.now }
    requires unfit { All (IsUnfit machine.on.net.now) unfit.old }
    ensures reply { IfOk result (λ v. v.items ≡ absorbed_text (kinds_of meaning
        machine.entry.on.kinds.now) name.now (absorb_outcome machine.entry.on.net.now node)) }
    ensures unfit { All (IsUnfit machine.entry.on.net.now) unfit.new }
{
    if let Some(why) = why_unfit(unfit.as_slice(), node) {
        return refused_reply(alloc, name, why);
    }
    match absorb::absorb(alloc, machine.on.net, node) {
        Ok(made) => made_reply(alloc, machine.on.kinds, "absorb", &made),
        Err(AbsorbFault::OutOfMemory) => Err(OutOfMemory),
        Err(why) => kept_reply(alloc, unfit, name, Unfit { node, why }),
    }
}

/// The reply where a node is not absorbed, which is kept.
fn kept_reply(
    alloc: Global,
    unfit: &mut Items<Unfit>,
    name: &str,
    one: Unfit,
) -> Result<Vec<u8>, OutOfMemory>
    requires { IsSome (absorb_fault_view one.why) }
    ensures reply { IfOk result (λ v. IfSome (absorb_fault_view one.why)
        (λ refusal. v.items ≡ refusal_text name.now refusal)) }
    ensures unfit { (net : List NodeDecl) → IsUnfit net one
        → All (IsUnfit net) unfit.old → All (IsUnfit net) unfit.new }
{
    unfit.push(one)?;
    refused_reply(alloc, name, one.why)
}

/// Why a node is not absorbed, where that is kept.
fn why_unfit(unfit: &[Unfit], node: u16) -> Option<AbsorbFault>
    ensures { (net : List NodeDecl) → All (IsUnfit net) unfit.now
        → IfSome result (IsUnfitFor net node) }
{
    for one in unfit {
        if one.node == node {
            return Some(one.why);
        }
    }
    None
}

/// The reply where the node of this name is not absorbed.
fn refused_reply(alloc: Global, name: &str, why: AbsorbFault) -> Result<Vec<u8>, OutOfMemory>
    requires { IsSome (absorb_fault_view why) }
    ensures { IfOk result (λ v. IfSome (absorb_fault_view why)
        (λ refusal. v.items ≡ refusal_text name.now refusal)) }
{
    match why {
        AbsorbFault::NotAbsorbable { why } => unfit_reply(alloc, name, why),
        AbsorbFault::TooMany { limit } => limit_reply(alloc, name, limit),
        AbsorbFault::OutOfMemory => unreachable!(),
    }
}

/// A net that a command of this word made, below a heading that has the number of its nodes.
fn made_reply(alloc: Global, kinds: &Kinds, word: &str, net: &Net) -> Result<Vec<u8>, OutOfMemory>
    requires closed { IsTrue (is_closed net.now) }
    requires kinds { AreKinds meaning kinds.now }
    requires known { IsTrue
        (list_all (λ n. has_kind (length kinds.now.list.items) n.unit) net.now) }
    ensures { IfOk result (λ v. v.items ≡ made_text (kinds_of meaning kinds.now) word.now net.now) }
{
    let count = net.nodes();
    let mut out = format!(in alloc; "{word} nodes {count}\n")?.into_bytes();
    let text = dn_print::net::net_text(alloc, KindedNet { net, kinds })?;
    out.extend_from_slice(&text)?;
    Ok(out)
}

/// The reply where the net that would be made passes a limit.
fn limit_reply(alloc: Global, name: &str, limit: u32) -> Result<Vec<u8>, OutOfMemory>
    ensures { IfOk result (λ v. v.items ≡ limit_text name.now limit) }
{
    Ok(format!(in alloc; "{name} refused: TooMany {limit}\n")?.into_bytes())
}

/// The reply where a node cannot be absorbed.
fn unfit_reply(alloc: Global, name: &str, why: Why) -> Result<Vec<u8>, OutOfMemory>
    ensures { IfOk result (λ v. v.items ≡ unfit_text name.now why) }
{
    match why {
        Why::Accepts => reason_reply(alloc, name, "accepts"),
        Why::Agent => reason_reply(alloc, name, "agent"),
        Why::Unit => reason_reply(alloc, name, "unit"),
        Why::Port => reason_reply(alloc, name, "port"),
        Why::SelfStep => reason_reply(alloc, name, "self"),
    }
}

/// The reply by the word for the reason.
fn reason_reply(alloc: Global, name: &str, word: &str) -> Result<Vec<u8>, OutOfMemory>
    ensures { IfOk result (λ v. v.items ≡ reason_text name.now word.now) }
{
    Ok(format!(in alloc; "{name} refused: NotAbsorbable {word}\n")?.into_bytes())
}

/// The reply where there is no such node.
fn no_node(alloc: Global, name: &str) -> Result<Vec<u8>, OutOfMemory>
    ensures { IfOk result (λ v. v.items ≡ no_node_text name.now) }
{
    Ok(format!(in alloc; "{name} refused: no such node\n")?.into_bytes())
}
