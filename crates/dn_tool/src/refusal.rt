//! The refusal of a text: the rule that it breaks, and the line that says so.

ghost use Rattle.std.specs.Prelude.{◌≡◌, ◌<◌, length, nat_lt, option_map, Some, IfOk, IfSome, IsTrue};
ghost use Rattle.std.specs.List.{list_all};
ghost use Rattle.dn_parse.specs.Terms.{parse_fault_view};
ghost use Rattle.dn_scope.specs.Terms.{expand_fault_view};
ghost use Rattle.dn_net.specs.Terms.{node_fault_view};
ghost use Rattle.dn_kind.specs.Terms.{are_there, unit_fault_view};
ghost use Rattle.dn_walk.specs.Terms.{walk_fault_view};
ghost use Rattle.dn_print.specs.Terms.{name_text};
ghost use Rattle.dn_tool.specs.Terms.{AreNodesWithin, IsNodeWithin, by_limit, by_line, by_shown, by_text, chain_text, expand_refusal, fork_text, node_refusal, rule_name, text_refusal, unit_refusal, units_text, walk_refusal};

use crate::OutOfMemory;
use dn_base::text::Text;
use dn_kind::units::UnitFault;
use dn_net::net::Net;
use dn_net::node::Name;
use dn_net::rules::NodeFault;
use dn_parse::reader::ParseFault;
use dn_print::joined::write_joined;
use dn_print::names;
use dn_scope::fault::ExpandFault;
use dn_walk::fault::WalkFault;
use std::alloc::Global;

/// The rules that a text can break, in the order in which they are tested.
#[derive(Clone, Copy, Debug, PartialEq, Eq)]
pub enum Rule {
    /// The text is longer than 4,194,304 bytes.
    Length,
    /// A byte is no token's.
    Token,
    /// No statement allows a token.
    Statement,
    /// A statement stands where it is not allowed.
    Block,
    /// A parenthesis or a block is nested too deep.
    Nesting,
    /// The name of a module, of one of its parameters or of a node was there before.
    Duplicate,
    /// A variable, a module, a kind or a node that is referred to does not exist.
    Unknown,
    /// The arguments of a use are not those that its module takes.
    Arguments,
    /// A number is not from 0 to 2^64 - 1.
    Value,
    /// There are more steps, modules, nodes, agents or parts than the limit.
    TooMany,
    /// A block, or what it is sent to, is past the top, or ends before it begins.
    Range,
    /// An address lies in two map blocks, or in a map block and an accept block.
    Overlap,
    /// An entry has two equal destinations.
    Repeat,
    /// A `vectors` node has a map, an `over` or more than 4,096 addresses.
    VectorSpace,
    /// A unit has a shape that no unit may have, or that its kind does not fit.
    UnitShape,
    /// There are more than 1,048,576 live walks.
    Wide,
    /// An address comes back to itself within 64 steps.
    Loop,
    /// An address can be followed for 65 steps.
    Deep,
    /// A name with two or more destinations reaches a unit.
    Fork,
    /// Four units stand in a row, or a row of units has more than 1,048,576 ways through its slots.
    Chain,
}

impl Rule {
    /// The name of the rule.
    pub fn name(self) -> &'static str
        ensures { result.now ≡ rule_name self }
    {
        match self {
            Rule::Length => "Length",
            Rule::Token => "Token",
            Rule::Statement => "Statement",
            Rule::Block => "Block",
            Rule::Nesting => "Nesting",
            Rule::Duplicate => "Duplicate",
            Rule::Unknown => "Unknown",
            Rule::Arguments => "Arguments",
            Rule::Value => "Value",
            Rule::TooMany => "TooMany",
            Rule::Range => "Range",
            Rule::Overlap => "Overlap",
            Rule::Repeat => "Repeat",
            Rule::VectorSpace => "VectorSpace",
            Rule::UnitShape => "UnitShape",
            Rule::Wide => "Wide",
            Rule::Loop => "Loop",
            Rule::Deep => "Deep",
            Rule::Fork => "Fork",
            Rule::Chain => "Chain",
        }
    }
}

/// A text breaks a rule, or an input has no image of its net.
pub const REFUSED: u8 = 4;

/// The refusal of a text.
#[derive(Drop)]
pub struct Refusal {
    /// The rule that the text breaks.
    rule: Rule,
    /// The line that says so, without its end.
    text: Text,
}

impl Refusal {
    /// The refusal of a text as a whole.
    pub fn of_text(alloc: Global, rule: Rule) -> Result<Refusal, OutOfMemory>
        ensures { IfOk result (λ r. r ≡ by_text rule) }
    {
        let name = rule.name();
        let text = Text::from_string(format!(in alloc; "refused: {name}")?)?;
        Ok(Refusal { rule, text })
    }

    /// The refusal at a line, counted from 1.
    pub fn at_line(alloc: Global, rule: Rule, line: u32) -> Result<Refusal, OutOfMemory>
        ensures { IfOk result (λ r. r ≡ by_line rule line) }
    {
        let name = rule.name();
        let text = Text::from_string(format!(in alloc; "refused: line {line} {name}")?)?;
        Ok(Refusal { rule, text })
    }

    /// The refusal at a line, counted from 1, that passes a limit.
    pub fn past_limit(alloc: Global, line: u32, limit: u32) -> Result<Refusal, OutOfMemory>
        ensures { IfOk result (λ r. r ≡ by_limit line limit) }
    {
        let rule = Rule::TooMany;
        let text = Text::from_string(format!(in alloc; "refused: line {line} TooMany {limit}")?)?;
        Ok(Refusal { rule, text })
    }

    /// The refusal whose line shows this behind the rule: nodes, names or a limit.
    pub fn by_shown(alloc: Global, rule: Rule, what: &str) -> Result<Refusal, OutOfMemory>
        ensures { IfOk result (λ r. r ≡ by_shown rule what.now) }
    {
        let name = rule.name();
        let text = Text::from_string(format!(in alloc; "refused: {name} {what}")?)?;
        Ok(Refusal { rule, text })
    }

    /// The rule that the text breaks.
    pub fn rule(&self) -> Rule
        ensures { result ≡ self.now.rule }
    {
        self.rule
    }

    /// The printed line, without its end.
    pub fn text(&self) -> &str
        ensures { result.now ≡ self.now.text }
    {
        self.text.as_str()
    }
}

/// The refusal of a text that the reader refuses. Want of memory is handed on.
pub fn text_refusal(alloc: Global, fault: ParseFault) -> Result<Refusal, OutOfMemory>
    ensures { IfOk result (λ r. option_map text_refusal (parse_fault_view fault) ≡ Some r) }
{
    match fault {
        ParseFault::Length => Refusal::of_text(alloc, Rule::Length),
        ParseFault::Token { line } => Refusal::at_line(alloc, Rule::Token, line),
        ParseFault::Statement { line } => Refusal::at_line(alloc, Rule::Statement, line),
        ParseFault::Block { line } => Refusal::at_line(alloc, Rule::Block, line),
        ParseFault::Nesting { line } => Refusal::at_line(alloc, Rule::Nesting, line),
        ParseFault::OutOfMemory => Err(OutOfMemory),
    }
}

/// The refusal of a tree that expands to no net. Want of memory is handed on.
pub fn expand_refusal(alloc: Global, fault: ExpandFault) -> Result<Refusal, OutOfMemory>
    ensures { IfOk result (λ r. option_map expand_refusal (expand_fault_view fault) ≡ Some r) }
{
    match fault {
        ExpandFault::Duplicate { line } => Refusal::at_line(alloc, Rule::Duplicate, line),
        ExpandFault::Unknown { line } => Refusal::at_line(alloc, Rule::Unknown, line),
        ExpandFault::Arguments { line } => Refusal::at_line(alloc, Rule::Arguments, line),
        ExpandFault::Value { line } => Refusal::at_line(alloc, Rule::Value, line),
        ExpandFault::TooMany { line, limit } => Refusal::past_limit(alloc, line, limit),
        ExpandFault::OutOfMemory => Err(OutOfMemory),
    }
}

/// The refusal of a net by a node rule. Want of memory is handed on.
pub fn node_refusal(alloc: Global, net: &Net, fault: NodeFault) -> Result<Refusal, OutOfMemory>
    requires { IfSome (node_fault_view fault) (IsNodeWithin (length net.now)) }
    ensures { IfOk result (λ r.
        option_map (node_refusal net.now) (node_fault_view fault) ≡ Some r) }
{
    match fault {
        NodeFault::Range { node } => Refusal::by_shown(alloc, Rule::Range, net.text(node)),
        NodeFault::Overlap { node, addr } => overlap_refusal(alloc, net, Name { node, addr }),
        NodeFault::Repeat { node } => Refusal::by_shown(alloc, Rule::Repeat, net.text(node)),
        NodeFault::VectorSpace { node } => {
            Refusal::by_shown(alloc, Rule::VectorSpace, net.text(node))
        }
        NodeFault::OutOfMemory => Err(OutOfMemory),
    }
}

/// The refusal of an overlap, whose line has the name at which it is.
fn overlap_refusal(alloc: Global, net: &Net, name: Name) -> Result<Refusal, OutOfMemory>
    requires { name.node < length net.now }
    ensures { IfOk result (λ r. r ≡ by_shown Rule.Overlap (name_text net.now name)) }
{
    let mut text = String::new(alloc);
    names::push_name(&mut text, net, name)?;
    Refusal::by_shown(alloc, Rule::Overlap, text.as_str())
}

/// The refusal of a net by the rule on the shape of units. Want of memory is handed on.
pub fn unit_refusal(alloc: Global, net: &Net, fault: UnitFault) -> Result<Refusal, OutOfMemory>
    requires { IfSome (unit_fault_view fault) (λ node. node < length net.now) }
    ensures { IfOk result (λ r.
        option_map (unit_refusal net.now) (unit_fault_view fault) ≡ Some r) }
{
    match fault {
        UnitFault::UnitShape { node } => Refusal::by_shown(alloc, Rule::UnitShape, net.text(node)),
    }
}

/// The refusal of a net by a rule on walks. Want of memory is handed on.
pub fn walk_refusal(alloc: Global, net: &Net, fault: &WalkFault) -> Result<Refusal, OutOfMemory>
    requires { IfSome (walk_fault_view fault.now) (AreNodesWithin (length net.now)) }
    ensures { IfOk result (λ r.
        option_map (walk_refusal net.now) (walk_fault_view fault.now) ≡ Some r) }
{
    match fault {
        WalkFault::Wide => Refusal::by_shown(alloc, Rule::Wide, "1048576"),
        WalkFault::Loop { cycle } => chain_refusal(alloc, Rule::Loop, net, cycle.as_slice()),
        WalkFault::Deep { path } => chain_refusal(alloc, Rule::Deep, net, path.as_slice()),
        WalkFault::Fork { name, unit } => fork_refusal(alloc, net, *name, *unit),
        WalkFault::Chain { units } => units_refusal(alloc, net, units.as_slice()),
        WalkFault::OutOfMemory => Err(OutOfMemory),
    }
}

/// The refusal whose line shows the names of a chain.
fn chain_refusal(
    alloc: Global,
    rule: Rule,
    net: &Net,
    names: &[Name],
) -> Result<Refusal, OutOfMemory>
    requires { IsTrue (are_there (length net.now) names.now) }
    ensures { IfOk result (λ r. r ≡ by_shown rule (chain_text net.now names.now)) }
{
    let mut text = String::new(alloc);
    write_joined(&mut text, net, " -> ", names)?;
    Refusal::by_shown(alloc, rule, text.as_str())
}

/// The refusal of a fork, whose line has the name that forks and the unit that it reaches.
fn fork_refusal(alloc: Global, net: &Net, name: Name, unit: u16) -> Result<Refusal, OutOfMemory>
    requires name { name.node < length net.now }
    requires unit { unit < length net.now }
    ensures { IfOk result (λ r. r ≡ by_shown Rule.Fork (fork_text net.now name unit)) }
{
    let mut text = String::new(alloc);
    names::push_name(&mut text, net, name)?;
    text.push_str(" ")?;
    text.push_str(net.text(unit))?;
    Refusal::by_shown(alloc, Rule::Fork, text.as_str())
}

/// The refusal of a row of units, whose line has their full names.
fn units_refusal(alloc: Global, net: &Net, units: &[u16]) -> Result<Refusal, OutOfMemory>
    requires { IsTrue (list_all (λ u. nat_lt u (length net.now)) units.now) }
    ensures { IfOk result (λ r. r ≡ by_shown Rule.Chain (units_text net.now units.now)) }
{
    let mut text = String::new(alloc);
    write_joined(&mut text, net, " ", units)?;
    Refusal::by_shown(alloc, Rule::Chain, text.as_str())
}
