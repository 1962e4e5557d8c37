//! What a tree expands to.

ghost use Rattle.std.specs.Prelude.{IsTrue, length};
ghost use Rattle.std.specs.List.{list_all};
ghost use Rattle.dn_net.specs.Terms.{is_closed};
ghost use Rattle.dn_module.specs.Commands.{names_within};

use crate::commands::Commands;
use dn_net::net::Net;

/// A net, and the commands of its text. Each node to which the net or a command refers is there, and a
/// gather has one to eight pieces.
#[derive(Drop)]
pub struct Expanded<'a> {
    pub net: Net,
    pub commands: Commands<'a>,
    ghost closed: { IsTrue (is_closed net) },
    ghost known: { IsTrue (list_all (names_within (length net)) commands) },
}
