//! A node of a net of which each node was checked.

ghost use Rattle.std.specs.Prelude.{IsTrue, ◌<◌, length};
ghost use Rattle.dn_net.specs.Rules.{KeepsNodeRules};
ghost use Rattle.dn_net.specs.Units.{has_plain_units};

use dn_net::net::Net;

/// A node that is there, of a net that keeps the node rules and whose units have plain shapes: what takes it
/// has all three from its type.
#[derive(Clone, Copy)]
pub(crate) struct CheckedNode<'a> {
    pub(crate) net: &'a Net,
    pub(crate) node: u16,
    pub(crate) ghost rules: { KeepsNodeRules net.now },
    pub(crate) ghost plain: { IsTrue (has_plain_units net.now) },
    pub(crate) ghost there: { node < length net.now },
}
