//! Each call of the device failed in turn: what the book and the device are left with.

ghost use Rattle.dn_kind.specs.Terms.{AreKinds};
ghost use Rattle.dn_view.specs.Terms.{IsSystem};
ghost use Rattle.test_tables.specs.Terms.{IsDesk};

use crate::at_desk::resolved_on;
use crate::calls::{board_of, desk_of, system_of};
use crate::desk::Desk;
use crate::grants::commands::{Choice, Command, Dice, Outcome, Small, made};
use dn_base::device::{DeviceOrMemory, TableEvent};
use dn_kind::kinds::Kinds;
use dn_kind::rights::Access;
use dn_net::names::Names;
use dn_net::net::Net;
use dn_net::node::Name;
use dn_placement::roles::is_agent;
use dn_view::system::System;
use std::alloc::Global;
use std::process::Abort;

/// A name of an agent that is asked for an access.
#[derive(Clone, Copy)]
struct Asked {
    name: Name,
    access: Access,
}

/// A command with what comes of it where no call fails, and to what the agents' names resolve after it.
#[derive(Drop)]
struct Turn {
    command: Command,
    outcome: Option<Outcome>,
    views: Vec<Names>,
}

/// Commands in a row, with all events of the device.
#[derive(Drop)]
struct Script {
    asked: Vec<Asked>,
    /// To what the agents' names resolve before the first.
    views: Vec<Names>,
    turns: Vec<Turn>,
    events: Vec<TableEvent>,
}

/// The first so many addresses of all agents, each with both accesses.
fn asked_of(rt: &impl Abort, alloc: Global, net: &Net, most: u64) -> Vec<Asked> {
    let mut asked = Vec::new(alloc);
    for node in 0..net.nodes() {
        for addr in 0..most {
            for access in [Access::Read, Access::Write] {
                if is_agent(net, node) {
                    let name = Name { node, addr };
                    asked.push(Asked { name, access }).expect(rt, "memory");
                }
            }
        }
    }
    asked
}

/// To what names resolve.
fn views_of(rt: &impl Abort, alloc: Global, desk: &Desk<'_>, asked: &[Asked]) -> Vec<Names>
    requires { IsDesk meaning desk.now }
{
    let mut views = Vec::new(alloc);
    for each in asked {
        let names = resolved_on(desk, alloc, each.name, each.access);
        views.push(names.expect(rt, "names")).expect(rt, "memory");
    }
    views
}

/// So many commands that look random, over a device that does not fail.
fn script_of(rt: &impl Abort, alloc: Global, system: System<'_>, choice: Choice) -> Script
    requires { IsSystem meaning system }
{
    let asked = asked_of(rt, alloc, system.on.net, choice.most);
    let mut desk = desk_of(rt, alloc, system, 1000, &[]).expect(rt, "a desk");
    let views = views_of(rt, alloc, &desk, asked.as_slice());
    let turns = turns_of(rt, alloc, &mut desk, asked.as_slice(), choice);
    let events = desk.device.log().to_vec(alloc).expect(rt, "memory");
    Script {
        asked,
        views,
        turns,
        events,
    }
}

/// The commands one after the other, each with what comes of it.
fn turns_of(
    rt: &impl Abort,
    alloc: Global,
    desk: &mut Desk<'_>,
    asked: &[Asked],
    choice: Choice,
) -> Vec<Turn>
    requires { IsDesk meaning desk.old }
{
    let mut dice = Dice::new(choice.seed);
    let mut turns = Vec::new(alloc);
    for _ in 0..30 {
        let command = dice.command(choice);
        let outcome = made(alloc, desk, command);
        let views = views_of(rt, alloc, desk, asked);
        let turn = Turn {
            command,
            outcome,
            views,
        };
        turns.push(turn).expect(rt, "memory");
    }
    turns
}

/// Compares what the tables give with what stood before a command and after it: each name of an agent resolves
/// for each access as at one of the two.
fn compare_tables(
    rt: &impl Abort,
    alloc: Global,
    desk: &Desk<'_>,
    asked: &[Asked],
    before: &[Names],
    after: &[Names],
)
    requires { IsDesk meaning desk.now }
{
    for ((each, before), after) in asked.iter().zip(before.iter()).zip(after.iter()) {
        let given = resolved_on(desk, alloc, each.name, each.access).expect(rt, "names");
        let names = given.list();
        assert!(rt; names == before.list() || names == after.list());
    }
}

/// Makes the commands of a script on a book until the device fails one. Answers whether it failed one.
fn play(rt: &impl Abort, alloc: Global, desk: &mut Desk<'_>, script: &Script) -> bool
    requires { IsDesk meaning desk.old }
{
    let asked = script.asked.as_slice();
    let mut before = script.views.as_slice();
    for turn in &script.turns {
        let after = turn.views.as_slice();
        let outcome = made(alloc, desk, turn.command);
        if outcome == Some(Outcome::Failed) {
            assert!(rt; !desk.book.is_unfailed());
            compare_tables(rt, alloc, desk, asked, before, after);
            return true;
        }
        assert!(rt; outcome == turn.outcome);
        before = after;
    }
    false
}

/// Makes the commands of a script over a device that fails at one call: what it was told before is what it is told
/// where no call fails. Answers whether a call failed.
fn stops(rt: &impl Abort, alloc: Global, system: System<'_>, script: &Script, call: u32) -> bool
    requires { IsSystem meaning system }
{
    match desk_of(rt, alloc, system, 1000, &[call]) {
        Err(fault) => {
            assert!(rt; fault == DeviceOrMemory::Device);
            true
        }
        Ok(mut desk) => {
            let is_stopped = play(rt, alloc, &mut desk, script);
            let events = script.events.as_slice();
            let done = (call as usize).min(events.len());
            assert!(rt; desk.device.log() == &events[..done]);
            is_stopped
        }
    }
}

/// Fails each call that the commands of a net make, the first, the second and so on, until none is left.
fn fail_each(rt: &impl Abort, alloc: Global, kinds: &Kinds, small: Small)
    requires { AreKinds meaning kinds.now }
{
    let board = board_of(rt, alloc, kinds, small.plan(rt, alloc));
    let system = system_of(&board, kinds);
    let script = script_of(rt, alloc, system, small.choice());
    fail_calls(rt, alloc, system, &script);
}

/// Fails each call of a script.
fn fail_calls(rt: &impl Abort, alloc: Global, system: System<'_>, script: &Script)
    requires { IsSystem meaning system }
{
    for call in 0..1000u32 {
        if !stops(rt, alloc, system, script, call) {
            assert!(rt; call as usize == script.events.len());
            assert!(rt; call >= 10);
            return;
        }
    }
    assert!(rt; false, "a call that is not reached fails");
}

/// Leaves each address as before a command or after it, on three nets.
pub fn fail_each_call(rt: &impl Abort, alloc: Global, kinds: &Kinds)
    requires { AreKinds meaning kinds.now }
{
    for small in [Small::Row, Small::Chain, Small::Vectors] {
        fail_each(rt, alloc, kinds, small);
    }
}
