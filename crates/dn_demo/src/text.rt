//! The generated text: a platform, grants and revokes.

ghost use Rattle.std.specs.Prelude.{◌≡◌, ◌<◌, ◌++◌, IfOk, OnOk};
ghost use Rattle.std.specs.String.{string_bytes};
ghost use Rattle.dn_demo.specs.Terms.{agent_commands, demo_text, grant_text, agent_grants, loop_text, platform_text, revoke_text, revokes_of, texts_below};

use crate::OutOfMemory;
use std::alloc::Global;

/// How many buffers each agent is granted.
pub const BUFFERS: u8 = 16;

/// From the first address of a buffer to that of the next, in bytes.
pub const STRIDE: u64 = 0x4000;

/// A sort of commands, of which each agent has its own.
#[derive(Clone, Copy)]
enum CommandKind {
    Grants,
    Revokes,
}

/// The text of the demonstration with so many agents, from 1 on: a platform in which each agent stands
/// behind a unit of its own, sixteen grants of three pages for each agent, and then the revoke of every
/// second one of them. `Err` is want of memory.
pub fn demo_text(alloc: Global, agents: u8) -> Result<Vec<u8>, OutOfMemory>
    requires { 0 < agents }
    ensures { IfOk result (λ v. v.items ≡ demo_text agents) }
{
    let mut out = String::new(alloc);
    write_platform(&mut out, agents)?;
    write_commands(&mut out, agents, CommandKind::Grants)?;
    write_commands(&mut out, agents, CommandKind::Revokes)?;
    Ok(out.into_bytes())
}

/// Appends the statements of the platform, and the `begin` of its commands.
fn write_platform(out: &mut String, agents: u8) -> Result<(), OutOfMemory>
    requires { 0 < agents }
    ensures { OnOk result (string_bytes out.new ≡ string_bytes out.old ++ platform_text agents) }
{
    out.push_str(
        "dram is accept [0x0-0xffffffff];\nbus is map [0x100000000-0x1ffffffff to dram at 0x0];\n",
    )?;
    write_loop(out, agents - 1)?;
    out.push_str(
        "agent a[i] is map [0x0-0xffffff to u[i] at 0x0];\nunit u[i] kind pages page 12 slots 4096 reach 40 to bus;\nend;\nbegin;\n",
    )
}

/// Appends the head of the loop over the numbers of the agents, of which this is the last.
fn write_loop(out: &mut String, last: u8) -> Result<(), OutOfMemory>
    ensures { OnOk result (string_bytes out.new ≡ string_bytes out.old ++ loop_text last) }
{
    write!(out, "for i in 0..{last};\n")
}

/// Appends the commands of this sort of all agents, agent by agent.
fn write_commands(out: &mut String, agents: u8, commands: CommandKind) -> Result<(), OutOfMemory>
    ensures { OnOk result (string_bytes out.new
        ≡ string_bytes out.old ++ texts_below (agent_commands commands) agents) }
{
    for agent in 0..agents {
        write_commands_of(out, agent, commands)?;
    }
    Ok(())
}

/// Appends the commands of this sort of an agent.
fn write_commands_of(out: &mut String, agent: u8, commands: CommandKind) -> Result<(), OutOfMemory>
    ensures { OnOk result (string_bytes out.new
        ≡ string_bytes out.old ++ agent_commands commands agent) }
{
    match commands {
        CommandKind::Grants => write_grants_of(out, agent),
        CommandKind::Revokes => write_revokes_of(out, agent),
    }
}

/// Appends the grants of an agent.
fn write_grants_of(out: &mut String, agent: u8) -> Result<(), OutOfMemory>
    ensures { OnOk result (string_bytes out.new ≡ string_bytes out.old ++ agent_grants agent) }
{
    for buffer in 0..BUFFERS {
        write_grant(out, agent, buffer)?;
    }
    Ok(())
}

/// Appends the grant of a buffer to an agent.
fn write_grant(out: &mut String, agent: u8, buffer: u8) -> Result<(), OutOfMemory>
    requires { buffer < 16 }
    ensures { OnOk result (string_bytes out.new ≡ string_bytes out.old ++ grant_text agent buffer) }
{
    let base = (u64::from(agent) * u64::from(BUFFERS) + u64::from(buffer)) * STRIDE;
    write!(
        out,
        "grant g_{agent}_{buffer} a[{agent}] dram 0x{base:x} 0x3000;\n"
    )
}

/// Appends the revokes of an agent: of the buffers with odd numbers.
fn write_revokes_of(out: &mut String, agent: u8) -> Result<(), OutOfMemory>
    ensures { OnOk result (string_bytes out.new ≡ string_bytes out.old ++ revokes_of agent) }
{
    for pair in 0..BUFFERS / 2 {
        write_revoke(out, agent, 2 * pair + 1)?;
    }
    Ok(())
}

/// Appends the revoke of a buffer of an agent.
fn write_revoke(out: &mut String, agent: u8, buffer: u8) -> Result<(), OutOfMemory>
    ensures { OnOk result (string_bytes out.new
        ≡ string_bytes out.old ++ revoke_text agent buffer) }
{
    write!(out, "revoke g_{agent}_{buffer};\n")
}
