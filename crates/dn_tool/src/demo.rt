//! A demonstration that is run: its commands without their replies, and one line that sums up what came of them.

ghost use Rattle.std.specs.Prelude.{◌≡◌, ◌+◌, ◌-◌, ◌^◌, ◌<◌, None, if◌then◌else◌, length, IfOk, IsTrue, OnOk};
ghost use Rattle.dn_net.specs.Terms.{unit_at};
ghost use Rattle.dn_kind.specs.Terms.{kinds_of, record_held};
ghost use Rattle.dn_flat.specs.Terms.{AreFlats};
ghost use Rattle.dn_module.specs.Terms.{names_within};
ghost use Rattle.dn_tables.specs.Terms.{FitsNet, words_of};
ghost use Rattle.dn_demo.specs.Terms.{summary_text};
ghost use Rattle.dn_script.specs.Terms.{CameThrough, HaltsByDevice, HaltsByEither, HaltsBySink, IsMachine, IsReady, IsReadyOn, IsTurn, MayBegin, Writes, ending_status, is_change, state_view};
ghost use Rattle.dn_tool.specs.Terms.{IsShownOn, agent_rows, has_granted, has_revoked, held_records, held_slots, sum_below, summary_with};

use crate::OutOfMemory;
use dn_base::device::Tables;
use dn_base::sink::Sink;
use dn_demo::summary::{Summary, summary_text};
use dn_flat::flats::Flats;
use dn_image::write;
use dn_kind::rights::Access;
use dn_module::command::Command;
use dn_module::commands::Commands;
use dn_placement::roles::is_agent;
use dn_script::change::change;
use dn_script::halt::RunHalt;
use dn_script::machine::Machine;
use dn_script::output::write_output;
use dn_script::script::DONE;
use dn_script::state::{Session, keep_flats, kept_flats};
use dn_tables::set::TableSet;
use dn_view::system::System;
use dn_view::view::view;
use std::alloc::Global;

/// How many grants a demonstration made, and how many it revoked.
#[derive(Clone, Copy)]
struct Tally {
    granted: u64,
    revoked: u64,
}

/// Does each command in order, over units that were made, and then writes the line that sums up what
/// came of them. The status is `DONE`.
pub(crate) fn play_all<K: Sink, D: Tables>(
    alloc: Global,
    machine: Machine,
    agents: u8,
    state: &mut Session,
    commands: &Commands,
    sink: &mut K,
    device: &mut D,
) -> Result<u8, RunHalt>
    requires { MayBegin meaning machine state.old commands.now
        (D.units device.old) (D.words device.old) }
    ensures shown { IsShownOn (kinds_of meaning machine.entry.on.kinds.now)
        machine.entry.on.net.now agents commands.now (ending_status result) (K.written sink.old)
        (K.written sink.new) (D.log device.old) (D.log device.new) (D.units device.new)
        (D.words device.new) }
    ensures done { IfOk result (λ status. status ≡ 0) }
    ensures halted { HaltsByEither result (K.faults sink.old) (K.faults sink.new)
        (D.faults device.old) (D.faults device.new) }
{
    let mut granted = 0;
    let mut revoked = 0;
    // No count passes the number of commands.
    let _most = commands.len();
    let mut rest = commands.cursor();
    'commands: while let Some(command) = rest.next(alloc)? {
        let before = state.book.grants().len();
        let ended = play(alloc, machine, state, &command, device);
        let after = state.book.grants().len();
        let grants = has_granted(&command, before, after);
        let revokes = has_revoked(&command, before, after);
        drop(command);
        ended?;
        granted = count_if(granted, grants);
        revoked = count_if(revoked, revokes);
    }
    let tally = Tally { granted, revoked };
    write_summary(alloc, machine, agents, tally, state, sink)?;
    Ok(DONE)
}

/// Does a command, without its reply.
fn play<D: Tables>(
    alloc: Global,
    machine: Machine,
    state: &mut Session,
    command: &Command,
    device: &mut D,
) -> Result<(), RunHalt>
    requires known { IsTrue (names_within (length machine.on.net.now) command.now) }
    requires ready { IsReadyOn meaning machine state.old (D.units device.old) (D.words device.old) }
    ensures through { CameThrough (kinds_of meaning machine.entry.on.kinds.now)
        machine.entry.on.net.now state.old.book.grants (IsTurn
        (kinds_of meaning machine.entry.on.kinds.now) machine.entry.on.net.now
        (state_view state.old) command.now) result (state_view state.new) None None
        D.units D.words D.log device.old device.new }
    ensures ready { OnOk result
        (IsReadyOn meaning machine.entry state.new (D.units device.new) (D.words device.new)) }
    ensures halted { HaltsByDevice result (D.faults device.old) (D.faults device.new) }
{
    if !is_change(command) {
        return Ok(());
    }
    change(alloc, machine, state, command, device)?;
    Ok(())
}

/// Whether a command may change the book.
fn is_change(command: &Command) -> bool
    ensures { result ≡ is_change command.now }
{
    matches!(
        command,
        Command::Grant { .. } | Command::Route { .. } | Command::Revoke(_) | Command::Gather { .. }
    )
}

/// Whether a command was a grant that was made, by how many grants lived before it and live behind it.
fn has_granted(command: &Command, before: usize, after: usize) -> bool
    ensures { result ≡ has_granted command.now before after }
{
    matches!(command, Command::Grant { .. }) && before < after
}

/// Whether a command was a revoke that took out a grant.
fn has_revoked(command: &Command, before: usize, after: usize) -> bool
    ensures { result ≡ has_revoked command.now before after }
{
    matches!(command, Command::Revoke(_)) && after < before
}

/// A count, and one more where a test passed.
fn count_if(count: u64, passed: bool) -> u64
    requires { count < 2 ^ 64 - 1 }
    ensures { result ≡ count + (if passed then 1 else 0) }
{
    if passed { count + 1 } else { count }
}

/// Writes the line that sums up a demonstration of which this was counted.
fn write_summary<K: Sink>(
    alloc: Global,
    machine: Machine,
    agents: u8,
    tally: Tally,
    state: &mut Session,
    sink: &mut K,
) -> Result<(), RunHalt>
    requires ready { IsReady meaning machine state.old }
    ensures written { Writes result (K.written sink.old) (K.written sink.new)
        (summary_text (summary_with (kinds_of meaning machine.entry.on.kinds.now)
        machine.entry.on.net.now agents tally.granted tally.revoked state.old.book.grants)) }
    ensures halted { HaltsBySink result (K.faults sink.old) (K.faults sink.new) }
{
    let line = summary_line(alloc, machine, agents, tally, state)?;
    write_output(sink, line.as_slice())
}

/// The line that sums up a demonstration of which this was counted.
fn summary_line(
    alloc: Global,
    machine: Machine,
    agents: u8,
    tally: Tally,
    state: &mut Session,
) -> Result<Vec<u8>, OutOfMemory>
    requires ready { IsReady meaning machine state.old }
    ensures { IfOk result (λ line. line.items
        ≡ summary_text (summary_with (kinds_of meaning machine.entry.on.kinds.now)
        machine.entry.on.net.now agents tally.granted tally.revoked state.old.book.grants)) }
{
    keep_flats(alloc, machine, &mut state.flats)?;
    let flats = kept_flats(&state.flats);
    let tables = state.book.tables();
    let summary = Summary {
        agents,
        nodes: machine.on.net.nodes(),
        grants: tally.granted,
        revoked: tally.revoked,
        rows: all_rows(alloc, machine, state, flats)?,
        records: all_records(machine, tables),
        image: write::write(alloc, machine.on, tables)?.len() as u64,
    };
    summary_text(alloc, summary)
}

/// How many rows all agents see for reading. `Err` is want of memory, or more than 64 bits can count.
fn all_rows(
    alloc: Global,
    machine: Machine,
    state: &Session,
    flats: &Flats,
) -> Result<u64, OutOfMemory>
    requires ready { IsReady meaning machine state.now }
    requires flat { AreFlats machine.on.net.now flats.now }
    ensures { IfOk result (λ rows. rows ≡ sum_below (agent_rows
        machine.entry.on.net.now state.now.book.grants) (length machine.entry.on.net.now)) }
{
    let mut total = 0;
    for node in 0..machine.on.net.nodes() {
        let rows = node_rows(alloc, machine, state, flats, node)?;
        total = sum(total, rows)?;
    }
    Ok(total)
}

/// The sum of two counts, where 64 bits can count so far.
fn sum(total: u64, rows: u64) -> Result<u64, OutOfMemory>
    ensures { IfOk result (λ all. all ≡ total + rows) }
{
    total.checked_add(rows).ok_or(OutOfMemory)
}

/// How many rows a node sees for reading, where it is an agent.
fn node_rows(
    alloc: Global,
    machine: Machine,
    state: &Session,
    flats: &Flats,
    node: u16,
) -> Result<u64, OutOfMemory>
    requires ready { IsReady meaning machine state.now }
    requires flat { AreFlats machine.on.net.now flats.now }
    requires there { node < length machine.on.net.now }
    ensures { IfOk result (λ rows. rows
        ≡ agent_rows machine.entry.on.net.now state.now.book.grants node) }
{
    if !is_agent(machine.on.net, node) {
        return Ok(0);
    }
    let system = System {
        on: machine.on,
        flats,
    };
    let seen = view(alloc, system, state.book.tables(), node, Access::Read)?;
    Ok(seen.rows().len() as u64)
}

/// How many slots of all units hold a record.
fn all_records(machine: Machine, tables: &TableSet) -> u64
    requires machine { IsMachine meaning machine }
    requires fits { FitsNet machine.on.net.now (kinds_of meaning machine.on.kinds.now) tables.now }
    ensures { result ≡ held_records machine.entry.on.net.now (record_held machine.entry.on.net.now
        (kinds_of meaning machine.entry.on.kinds.now) (words_of tables.now)) }
{
    let mut total = 0;
    for node in 0..machine.on.net.nodes() {
        total += node_records(machine, tables, node);
    }
    total
}

/// How many slots of a node hold a record.
fn node_records(machine: Machine, tables: &TableSet, node: u16) -> u64
    requires machine { IsMachine meaning machine }
    requires fits { FitsNet machine.on.net.now (kinds_of meaning machine.on.kinds.now) tables.now }
    requires there { node < length machine.on.net.now }
    ensures few { result < 2 ^ 32 }
    ensures count { result ≡ held_slots
        (record_held machine.entry.on.net.now (kinds_of meaning machine.entry.on.kinds.now)
        (words_of tables.now)) node (unit_at machine.entry.on.net.now node) }
{
    let Some(unit) = machine.on.net.unit(node) else {
        return 0;
    };
    let mut total = 0;
    for slot in 0..unit.slots {
        total = count_if(
            total,
            tables.record_at(machine.on.kinds, node, slot).is_some(),
        );
    }
    total
}
