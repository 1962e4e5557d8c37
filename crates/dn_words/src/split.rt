//! Splitting the words into a command and what stands behind it.

ghost use Rattle.std.specs.Prelude.{◌≡◌, map, option_map, IfOk, IsTrue};
ghost use Rattle.std.specs.List.{list_all};
ghost use Rattle.std.specs.String.{string_bytes};
ghost use Rattle.clap.specs.Words.{app_of, found_of};
ghost use Rattle.dn_words.specs.Terms.{is_plain_word, parts_found, words_apart, split_view, program};

use crate::OutOfMemory;
use clap::error::ErrorKind;
use clap::{Arg, ArgMatches, Command};
use std::alloc::Global;

/// One word, or two.
#[derive(Clone, Copy, Debug)]
pub(crate) struct CommandWords<'a> {
    /// The first word.
    pub(crate) command: &'a str,
    /// The second word, where there is one.
    pub(crate) number: Option<&'a str>,
}

/// Splits words of which none begins with `-`. `None` exactly where there is none, or there are more than
/// two. `Err` is want of memory.
pub(crate) fn split<'a>(
    alloc: Global,
    words: &'a [String],
) -> Result<Option<CommandWords<'a>>, OutOfMemory>
    requires { IsTrue (list_all (λ s. is_plain_word (string_bytes s)) words.now) }
    ensures { IfOk result (λ parts. option_map split_view parts
        ≡ words_apart (map (λ s. string_bytes s) words.entry.now)) }
{
    match program(alloc)?.try_get_matches_from(words) {
        Ok(matches) => Ok(parts_found(&matches)),
        Err(error) => match error.kind() {
            ErrorKind::OutOfMemory => Err(OutOfMemory),
            _ => Ok(None),
        },
    }
}

/// The command line of the program: a required word and an optional one, and no flag.
fn program<'a>(alloc: Global) -> Result<Command<'a>, OutOfMemory>
    ensures { IfOk result (λ p. app_of p ≡ program) }
{
    let command = Arg::new(alloc, "COMMAND").required(true);
    let number = Arg::new(alloc, "N");
    Command::new(alloc, "netconf")
        .no_binary_name(true)
        .disable_help_flag(true)
        .arg(command)?
        .arg(number)
}

/// The words that were found.
fn parts_found<'a>(matches: &ArgMatches<'a>) -> Option<CommandWords<'a>>
    ensures { option_map split_view result ≡ parts_found (found_of matches.now) }
{
    let command = matches.get_str("COMMAND")?;
    Some(CommandWords {
        command,
        number: matches.get_str("N"),
    })
}
