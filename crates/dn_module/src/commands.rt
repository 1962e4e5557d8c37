//! The commands of a text, of which none is kept: each is made when it is walked.

ghost use Rattle.std.specs.Prelude.{◌≡◌, [], ◌∷◌, length, true, Ok, None, IfOk, IfErr, OnErr, MatchOption, is_ok};
ghost use Rattle.dn_parse.specs.Terms.{script_view};
ghost use Rattle.dn_module.specs.Terms.{commands_of};
ghost use Rattle.dn_scope.specs.Terms.{name_fault_view};

use crate::command::Command;
use crate::orders::command;
use dn_parse::script::Script;
use dn_scope::names::NameTable;
use dn_scope::values::NameFault;
use std::alloc::{AllocError, Global};
use std::marker::Model;

/// The commands of a text, in order, each with its values and its nodes. None of them is kept: a cursor
/// reads each again from the text. Contracts see their list.
#[derive(Drop)]
pub struct Commands<'a> {
    /// The names of the nodes.
    names: NameTable,
    script: Script<'a>,
}

impl<'a> Model for Commands<'a> {
    ghost use Rattle.std.specs.Prelude.{List, ◌≡◌, true, is_ok};
    ghost use Rattle.dn_parse.specs.Script.{script_view};
    ghost use Rattle.dn_module.specs.declared.command.Command.{Command};
    ghost use Rattle.dn_module.specs.Commands.{commands_of, commands_or_none};

    ghost Value = { List Command };

    ghost view = { λ s. commands_or_none (commands_of s.names (script_view s.script)) };

    ghost invariant = { λ s. is_ok (commands_of s.names (script_view s.script)) ≡ true };
}

impl<'a> Commands<'a> {
    /// The commands of a script, with the names of the nodes. The caller went over them, and found no
    /// fault.
    pub fn new(names: NameTable, script: Script<'a>) -> Commands<'a>
        requires { is_ok (commands_of names (script_view script)) ≡ true }
        ensures { commands_of names (script_view script.entry) ≡ Ok result }
    {
        Commands { names, script }
    }

    /// How many commands there are.
    pub fn len(&self) -> u32
        ensures { result ≡ length self.now }
    {
        self.script.len()
    }

    /// The place before the first command.
    pub fn cursor<'c>(&'c self) -> CommandCursor<'c, 'a>
        ensures { result ≡ self.now }
    {
        CommandCursor {
            names: &self.names,
            rest: self.script,
        }
    }
}

/// A place before a command of a text, or behind the last. Contracts see the commands that are still to
/// come.
#[derive(Drop)]
pub struct CommandCursor<'c, 'a> {
    names: &'c NameTable,
    rest: Script<'a>,
}

impl<'c, 'a> Model for CommandCursor<'c, 'a> {
    ghost use Rattle.std.specs.Prelude.{List, ◌≡◌, true, is_ok};
    ghost use Rattle.dn_parse.specs.Script.{script_view};
    ghost use Rattle.dn_module.specs.declared.command.Command.{Command};
    ghost use Rattle.dn_module.specs.Commands.{commands_of, commands_or_none};

    ghost Value = { List Command };

    ghost view = { λ s. commands_or_none (commands_of s.names.now (script_view s.rest)) };

    ghost invariant = { λ s. is_ok (commands_of s.names.now (script_view s.rest)) ≡ true };
}

impl<'c, 'a> CommandCursor<'c, 'a> {
    /// Makes the next command, and goes behind it; `None` behind the last. `Err` is want of memory, and
    /// leaves the place as it was.
    pub fn next(&mut self, alloc: Global) -> Result<Option<Command>, AllocError>
        ensures next { IfOk result (λ o. MatchOption o
            ((self.old ≡ []) × (self.new ≡ [])) (λ c. self.old ≡ c ∷ self.new)) }
        ensures err { OnErr result (self.new ≡ self.old) }
    {
        let Some((asked, behind)) = self.rest.next(alloc)? else {
            return Ok(None);
        };
        let made = command(alloc, self.names, &asked.order);
        drop(asked);
        let command = whole(made)?;
        self.rest = behind;
        Ok(Some(command))
    }
}

/// A command without a fault. `Err` is want of memory.
fn whole(made: Result<Command, NameFault>) -> Result<Command, AllocError>
    requires { IfErr made (λ fault. name_fault_view fault ≡ None) }
    ensures { IfOk result (λ command. made ≡ Ok command) }
{
    match made {
        Ok(command) => Ok(command),
        Err(NameFault::OutOfMemory) => Err(AllocError),
        Err(NameFault::Flawed(_)) => unreachable!(),
    }
}
