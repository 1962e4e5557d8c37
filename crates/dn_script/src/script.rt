//! A script that is run: its commands are answered in order, over units that were made.

ghost use Rattle.std.specs.Prelude.{◌≡◌, false, length, IfOk, IsTrue, OnOk};
ghost use Rattle.dn_kind.specs.Terms.{kinds_of};
ghost use Rattle.dn_image.specs.Terms.{image};
ghost use Rattle.dn_book.specs.Terms.{tables_of};
ghost use Rattle.dn_print.specs.Terms.{dump_text};
ghost use Rattle.dn_module.specs.Terms.{names_within};
ghost use Rattle.dn_script.specs.Terms.{CameThrough, HaltsByEither, HaltsBySink, IsPlayedOn, IsReady, IsReadyOn, IsStill, IsTurn, MayBegin, Writes, ending_status, is_change, reply, state_view};

use crate::change::change;
use crate::halt::RunHalt;
use crate::machine::Machine;
use crate::output::{refuse_node, write_dump, write_output};
use crate::radix::{radix_reply, unit_of, unit_words};
use crate::reply;
use crate::reply::{agent_of, view_reply};
use crate::state::{Session, keep_image};
use dn_base::device::Tables;
use dn_base::sink::Sink;
use dn_module::command::Command;
use dn_module::commands::Commands;
use std::alloc::Global;

/// The input was read to its end and every command was answered.
pub const DONE: u8 = 0;

/// Answers each command in order, over units that were made; each reply is written before the next
/// command begins. The status is `DONE`.
pub fn answer_all<K: Sink, D: Tables>(
    alloc: Global,
    machine: Machine,
    state: &mut Session,
    commands: &Commands,
    sink: &mut K,
    device: &mut D,
) -> Result<u8, RunHalt>
    requires { MayBegin meaning machine state.old commands.now
        (D.units device.old) (D.words device.old) }
    ensures played { IsPlayedOn (kinds_of meaning machine.entry.on.kinds.now)
        machine.entry.on.net.now commands.now (ending_status result) (K.written sink.old)
        (K.written sink.new) (D.log device.old) (D.log device.new) (D.units device.new)
        (D.words device.new) }
    ensures done { IfOk result (λ status. status ≡ 0) }
    ensures halted { HaltsByEither result (K.faults sink.old) (K.faults sink.new)
        (D.faults device.old) (D.faults device.new) }
{
    let mut rest = commands.cursor();
    'commands: while let Some(command) = rest.next(alloc)? {
        let ended = answer(alloc, machine, state, &command, sink, device);
        drop(command);
        ended?;
    }
    Ok(DONE)
}

/// Does what a command asks for, and writes its reply.
fn answer<K: Sink, D: Tables>(
    alloc: Global,
    machine: Machine,
    state: &mut Session,
    command: &Command,
    sink: &mut K,
    device: &mut D,
) -> Result<(), RunHalt>
    requires known { IsTrue (names_within (length machine.on.net.now) command.now) }
    requires ready { IsReadyOn meaning machine state.old (D.units device.old) (D.words device.old) }
    ensures through { CameThrough (kinds_of meaning machine.entry.on.kinds.now)
        machine.entry.on.net.now state.old.book.grants (IsTurn
        (kinds_of meaning machine.entry.on.kinds.now) machine.entry.on.net.now
        (state_view state.old) command.now) result (state_view state.new) (K.written sink.old)
        (K.written sink.new) D.units D.words D.log device.old device.new }
    ensures ready { OnOk result
        (IsReadyOn meaning machine.entry state.new (D.units device.new) (D.words device.new)) }
    ensures halted { HaltsByEither result (K.faults sink.old) (K.faults sink.new)
        (D.faults device.old) (D.faults device.new) }
{
    match command {
        Command::Grant { .. }
        | Command::Route { .. }
        | Command::Revoke(..)
        | Command::Gather { .. } => {
            let text = change(alloc, machine, state, command, device)?;
            write_output(sink, text.as_slice())
        }
        _ => answer_still(alloc, machine, state, command, sink),
    }
}

/// Writes the reply to a command that changes nothing.
fn answer_still<K: Sink>(
    alloc: Global,
    machine: Machine,
    state: &mut Session,
    command: &Command,
    sink: &mut K,
) -> Result<(), RunHalt>
    requires known { IsTrue (names_within (length machine.on.net.now) command.now) }
    requires ready { IsReady meaning machine state.old }
    requires no_change { is_change command.now ≡ false }
    ensures written { Writes result (K.written sink.old)
        (K.written sink.new) (reply (kinds_of meaning machine.entry.on.kinds.now)
        machine.entry.on.net.now state.old.book.grants command.now) }
    ensures still { IsStill meaning machine.entry state.old state.new }
    ensures halted { HaltsBySink result (K.faults sink.old) (K.faults sink.new) }
{
    match command {
        Command::Dump => dump(alloc, machine, state, sink),
        Command::View(target, mode) => {
            let text = target.text.as_str();
            match agent_of(machine.on.net, target.node) {
                Some(agent) => view_reply(alloc, machine, state, text, *mode, agent, sink),
                None => refuse_node(alloc, "view", text, "NoAgent", sink),
            }
        }
        Command::Radix { node, pool } => {
            let text = node.text.as_str();
            match unit_of(machine.on.net, node.node) {
                Some(unit) => {
                    let words = unit_words(alloc, machine, state, unit)?;
                    radix_reply(alloc, text, &words, *pool, sink)
                }
                None => refuse_node(alloc, "radix", text, "NoUnit", sink),
            }
        }
        _ => {
            let text = reply::reply(alloc, machine, state, command)?;
            write_output(sink, text.as_slice())
        }
    }
}

/// Writes the reply to `dump`: the image of the present tables.
fn dump<K: Sink>(
    alloc: Global,
    machine: Machine,
    state: &mut Session,
    sink: &mut K,
) -> Result<(), RunHalt>
    requires ready { IsReady meaning machine state.old }
    ensures written { Writes result
        (K.written sink.old) (K.written sink.new) (dump_text (image machine.entry.on.net.now
        (kinds_of meaning machine.entry.on.kinds.now) (tables_of machine.entry.on.net.now
        (kinds_of meaning machine.entry.on.kinds.now) state.old.book.grants))) }
    ensures still { IsStill meaning machine.entry state.old state.new }
    ensures halted { HaltsBySink result (K.faults sink.old) (K.faults sink.new) }
{
    keep_image(alloc, machine, state.book.tables(), &mut state.image)?;
    let Some(image) = &state.image else {
        unreachable!()
    };
    write_dump(alloc, image.as_slice(), sink)
}
