//! The replies to the commands that change nothing, as they are printed.

ghost use Rattle.std.specs.Prelude.{◌≡◌, ◌<◌, None, Ok, false, length, map, slice_get, IfOk, IfSome, IsTrue};
ghost use Rattle.std.specs.String.{string_bytes};
ghost use Rattle.dn_net.specs.Terms.{IsLegalNet, is_agent_at, over_within};
ghost use Rattle.dn_kind.specs.Terms.{Held, are_there, kinds_of};
ghost use Rattle.dn_flat.specs.Terms.{AreFlats};
ghost use Rattle.dn_view.specs.Terms.{AreViewed};
ghost use Rattle.dn_module.specs.Terms.{names_within};
ghost use Rattle.dn_interval.specs.Terms.{ends_within, seen_view};
ghost use Rattle.dn_print.specs.Terms.{names_text};
ghost use Rattle.dn_script.specs.Terms.{HaltsBySink, IsFirstView, IsReady, IsStill, Writes, access_of, access_text, agent_of, asked_text, found_text, is_change, is_pieced, names_under, owed_rows, reply, view_heading, viewed_text};

use crate::halt::RunHalt;
use crate::lines::write_rows;
use crate::machine::Machine;
use crate::state::{FirstView, Session, keep_first, keep_flats, kept_flats};
use crate::{OutOfMemory, reshape};
use dn_base::sink::Sink;
use dn_flat::flats::Flats;
use dn_interval::Rows;
use dn_kind::rights::Access;
use dn_module::command::{Command, Target};
use dn_net::names::Names;
use dn_net::net::Net;
use dn_net::node::{Name, Role};
use dn_parse::syntax::Mode;
use dn_print::names;
use dn_view::resolve::{resolve, resolve_few};
use dn_view::system::System;
use dn_view::view::{fixed_view, view};
use std::alloc::Global;

/// What `resolve` and `lookup` ask for: an address of what a command names, and an access.
#[derive(Clone, Copy)]
struct Question<'a> {
    target: &'a Target,
    addr: u64,
    mode: Mode,
}

/// The reply to a command that changes nothing, other than `dump`, `view` and `radix`: a line, and below that of
/// `split` and `absorb` a line for each node of the net that is made. `Err` is want of memory.
pub fn reply(
    alloc: Global,
    machine: Machine,
    state: &mut Session,
    command: &Command,
) -> Result<Vec<u8>, OutOfMemory>
    requires ready { IsReady meaning machine state.old }
    requires known { IsTrue (names_within (length machine.on.net.now) command.now) }
    requires whole { is_pieced command.now ≡ false }
    requires no_change { is_change command.now ≡ false }
    ensures reply { IfOk result (λ v. v.items ≡ reply (kinds_of meaning machine.entry.on.kinds.now)
        machine.entry.on.net.now state.old.book.grants command.now) }
    ensures still { IsStill meaning machine.entry state.old state.new }
{
    match command {
        Command::Resolve(target, addr, mode) => {
            let (addr, mode) = (*addr, *mode);
            let question = Question { target, addr, mode };
            let none = "no such node";
            Ok(asked_reply(alloc, machine, state, question, target.node, none)?.into_bytes())
        }
        Command::Lookup(target, addr, mode) => {
            let (addr, mode) = (*addr, *mode);
            let question = Question { target, addr, mode };
            // A lookup in the bytes of the tables' image finds the same, so no image is made.
            let agent = agent_of(machine.on.net, target.node);
            let none = "no such agent";
            Ok(asked_reply(alloc, machine, state, question, agent, none)?.into_bytes())
        }
        Command::Split => reshape::split_reply(alloc, machine, &mut state.unmade.split),
        Command::Absorb(target) => {
            reshape::absorb_reply(alloc, machine, &mut state.unmade.unfit, target)
        }
        _ => unreachable!(),
    }
}

/// The access that a command asks for: reading, where it says none.
fn access_of(mode: Mode) -> Access
    ensures { result ≡ access_of mode }
{
    match mode {
        Mode::Unsaid | Mode::Read => Access::Read,
        Mode::Write => Access::Write,
    }
}

/// The access behind a name in a reply, where the command says one.
fn access_text(mode: Mode) -> &'static str
    ensures { result.now ≡ access_text mode }
{
    match mode {
        Mode::Unsaid => "",
        Mode::Read => " for read",
        Mode::Write => " for write",
    }
}

/// The address and the access as they were asked for, and what is found there.
fn asked_text(alloc: Global, question: Question, found: &str) -> Result<String, OutOfMemory>
    ensures { IfOk result (λ s. string_bytes s ≡ asked_text
        question.entry.target.now question.entry.addr question.entry.mode found.now) }
{
    let text = question.target.text.as_str();
    let addr = question.addr;
    let access = access_text(question.mode);
    format!(in alloc; "{text}@0x{addr:x}{access}: {found}\n")
}

/// The names, joined by commas.
fn names_of(alloc: Global, net: &Net, found: &[Name]) -> Result<String, OutOfMemory>
    requires { IsTrue (are_there (length net.now) found.now) }
    ensures { IfOk result (λ s. string_bytes s ≡ names_text net.now found.now) }
{
    let mut text = String::new(alloc);
    names::push_names(&mut text, net, found)?;
    Ok(text)
}

/// The reply to `resolve` or `lookup`: the names to which the address of a node resolves under the tables, or this
/// text where there is no such node.
fn asked_reply(
    alloc: Global,
    machine: Machine,
    state: &mut Session,
    question: Question,
    node: Option<u16>,
    none: &str,
) -> Result<String, OutOfMemory>
    requires ready { IsReady meaning machine state.old }
    requires there { IsTrue (over_within (length machine.on.net.now) node) }
    ensures reply { IfOk result (λ s. string_bytes s ≡ asked_text question.entry.target.now
        question.entry.addr question.entry.mode (found_text none.now machine.entry.on.net.now
        state.old.book.grants (access_of question.entry.mode) node question.entry.addr)) }
    ensures still { IsStill meaning machine.entry state.old state.new }
{
    let Some(node) = node else {
        return asked_text(alloc, question, none);
    };
    let addr = question.addr;
    let access = access_of(question.mode);
    let found = node_names(alloc, machine, state, access, Name { node, addr })?;
    asked_text(alloc, question, found.as_str())
}

/// A node that a command names, where it is an agent.
pub fn agent_of(net: &Net, node: Option<u16>) -> Option<u16>
    requires { IsTrue (over_within (length net.now) node) }
    ensures which { result ≡ agent_of net.now node }
    ensures there { IsTrue (over_within (length net.now) result) }
    ensures agent { IfSome result (λ n. IsTrue (is_agent_at (slice_get net.now n))) }
{
    match node {
        Some(node) if is_agent(net, node) => Some(node),
        _ => None,
    }
}

/// The names to which a name resolves under the tables. Where it leads to many, or what the nodes of the net reach is
/// kept, it goes by that, which is made once.
fn node_names(
    alloc: Global,
    machine: Machine,
    state: &mut Session,
    access: Access,
    name: Name,
) -> Result<String, OutOfMemory>
    requires ready { IsReady meaning machine state.old }
    requires there { name.node < length machine.on.net.now }
    ensures reply { IfOk result (λ s. string_bytes s ≡ names_text machine.entry.on.net.now
        (names_under machine.entry.on.net.now state.old.book.grants access name)) }
    ensures still { IsStill meaning machine.entry state.old state.new }
{
    if let Some(found) = few_names(alloc, machine, state, access, name)? {
        return names_of(alloc, machine.on.net, found.list());
    }
    keep_flats(alloc, machine, &mut state.flats)?;
    let flats = kept_flats(&state.flats);
    let system = System {
        on: machine.on,
        flats,
    };
    let found = resolve(alloc, system, state.book.tables(), name, access)?;
    names_of(alloc, machine.on.net, found.list())
}

/// The names to which a name resolves under the tables, where it leads to few and what the nodes of the net reach is
/// not kept.
fn few_names(
    alloc: Global,
    machine: Machine,
    state: &Session,
    access: Access,
    name: Name,
) -> Result<Option<Names>, OutOfMemory>
    requires ready { IsReady meaning machine state.now }
    requires there { name.node < length machine.on.net.now }
    ensures names { IfOk result (λ found. IfSome found (λ names. names
        ≡ names_under machine.entry.on.net.now state.now.book.grants access name)) }
    // Each name is in a node that is there.
    ensures there { IfOk result (λ found.
        IfSome found (λ names. IsTrue (are_there (length machine.entry.on.net.now) names))) }
{
    if state.flats.is_some() {
        return Ok(None);
    }
    let tables = state.book.tables();
    resolve_few(alloc, machine.on, tables, name, access)
}

/// Whether a node is an agent.
fn is_agent(net: &Net, node: u16) -> bool
    requires { node < length net.now }
    ensures { result ≡ is_agent_at (slice_get net.now node) }
{
    net.role(node) == Role::Agent
}

/// Writes the reply to `view` for an agent: what it sees under the tables, below a heading with this text, the
/// access and the number of rows. What all nodes reach is made once, and only where the agent reaches a unit, or is not the first
/// one whose view is asked for. One that is known to see what the first sees is lent its rows.
pub fn view_reply<K: Sink>(
    alloc: Global,
    machine: Machine,
    state: &mut Session,
    text: &str,
    mode: Mode,
    node: u16,
    sink: &mut K,
) -> Result<(), RunHalt>
    requires ready { IsReady meaning machine state.old }
    requires agent { IsTrue (is_agent_at (slice_get machine.on.net.now node)) }
    ensures written { Writes result (K.written sink.old)
        (K.written sink.new) (viewed_text machine.entry.on.net.now text.now mode
        (owed_rows machine.entry.on.net.now state.old.book.grants (access_of mode) node)) }
    ensures still { IsStill meaning machine.entry state.old state.new }
    ensures halted { HaltsBySink result (K.faults sink.old) (K.faults sink.new) }
{
    let net = machine.on.net;
    keep_first(alloc, machine, &mut state.first, node)?;
    if let Some(rows) = first_rows(net, &state.first, node) {
        return write_view(alloc, net, text, mode, rows, sink);
    }
    keep_flats(alloc, machine, &mut state.flats)?;
    let flats = kept_flats(&state.flats);
    if let Some(rows) = shared_rows(net, flats, &state.first, node) {
        return write_view(alloc, net, text, mode, rows, sink);
    }
    let system = System {
        on: machine.on,
        flats,
    };
    let access = access_of(mode);
    let rows = view(alloc, system, state.book.tables(), node, access)?;
    write_view(alloc, net, text, mode, &rows, sink)
}

/// To what the addresses of a node resolve under any tables, where what it sees is kept as that of the
/// first agent, and they reach no unit.
fn first_rows<'a>(net: &Net, first: &'a Option<FirstView>, node: u16) -> Option<&'a Rows>
    requires legal { IsLegalNet net.now }
    requires first { IfSome first.now (IsFirstView net.now) }
    ensures rows { IfSome result (λ rows. (h : Held) → AreViewed net.now h node rows.now) }
    ensures within { IfSome result (λ rows. IsTrue (ends_within (length net.now) rows.now)) }
{
    match first {
        Some(first) if first.agent == node => fixed_view(net, &first.flat, node),
        _ => None,
    }
}

/// To what the addresses of a node resolve under any tables, where it is known to see what is kept as that of the
/// first agent, and they reach no unit.
fn shared_rows<'a>(
    net: &Net,
    flats: &Flats,
    first: &'a Option<FirstView>,
    node: u16,
) -> Option<&'a Rows>
    requires legal { IsLegalNet net.now }
    requires flats { AreFlats net.now flats.now }
    requires first { IfSome first.now (IsFirstView net.now) }
    requires there { node < length net.now }
    ensures rows { IfSome result (λ rows. (h : Held) → AreViewed net.now h node rows.now) }
    ensures within { IfSome result (λ rows. IsTrue (ends_within (length net.now) rows.now)) }
{
    match first {
        Some(first) if flats.is_shared(first.agent, node) => fixed_view(net, &first.flat, node),
        _ => None,
    }
}

/// Writes rows below a heading with this text, the access and their number.
fn write_view<K: Sink>(
    alloc: Global,
    net: &Net,
    text: &str,
    mode: Mode,
    seen: &Rows,
    sink: &mut K,
) -> Result<(), RunHalt>
    requires { IsTrue (ends_within (length net.now) seen.now) }
    ensures written { Writes result (K.written sink.old) (K.written sink.new)
        (viewed_text net.now text.now mode (map seen_view seen.now)) }
    ensures halted { HaltsBySink result (K.faults sink.old) (K.faults sink.new) }
{
    let rows = seen.rows();
    let heading = heading_text(alloc, text, mode, rows.len())?;
    write_rows(alloc, net, heading.as_str(), rows, sink)
}

/// The heading of a view: this text, the access and the number of rows.
fn heading_text(alloc: Global, text: &str, mode: Mode, count: usize) -> Result<String, OutOfMemory>
    ensures { IfOk result (λ s. string_bytes s ≡ view_heading text.now mode count) }
{
    let access = access_text(mode);
    format!(in alloc; "view {text}{access} rows {count}\n")
}
