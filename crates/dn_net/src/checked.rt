//! A net of which each node was checked.

ghost use Rattle.std.specs.Prelude.{IsTrue};
ghost use Rattle.dn_net.specs.Rules.{KeepsNodeRules};
ghost use Rattle.dn_net.specs.Units.{has_plain_units};

use crate::net::Net;

/// A net, lent, that keeps the node rules and whose units have plain shapes: what takes it has both from its type.
#[derive(Clone, Copy)]
pub struct CheckedNet<'a> {
    pub net: &'a Net,
    pub ghost rules: { KeepsNodeRules net.now },
    pub ghost plain: { IsTrue (has_plain_units net.now) },
}
