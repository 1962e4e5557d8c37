//! Whether units hold records.

ghost use Rattle.std.specs.Prelude.{◌≡◌, ℕ, false, true};
ghost use Rattle.dn_kind.specs.Terms.{kinds_of};
ghost use Rattle.dn_flat.specs.Terms.{is_among};
ghost use Rattle.dn_tables.specs.Terms.{FitsNet, record_kept};
ghost use Rattle.dn_view.specs.Terms.{HoldsNone, IsSystem};

use crate::pass::unit_of;
use crate::range::held_end;
use crate::system::System;
use dn_tables::set::TableSet;

/// Whether one of the nodes may be a unit that holds a record. `false` says that none does.
pub(crate) fn some_hold(system: System, tables: &TableSet, nodes: &[u16]) -> bool
    requires system { IsSystem meaning system }
    requires fits { FitsNet system.on.net.now (kinds_of meaning system.on.kinds.now) tables.now }
    ensures { result ≡ false → (node : ℕ) → is_among node nodes.now ≡ true →
        HoldsNone system.entry.on.net.now
        (record_kept (kinds_of meaning system.entry.on.kinds.now) tables.now) node }
{
    for node in nodes {
        if may_hold(system, tables, *node) {
            return true;
        }
    }
    false
}

/// Whether a node may be a unit that holds a record. `false` says that it holds none.
fn may_hold(system: System, tables: &TableSet, node: u16) -> bool
    requires system { IsSystem meaning system }
    requires fits { FitsNet system.on.net.now (kinds_of meaning system.on.kinds.now) tables.now }
    ensures { result ≡ false → HoldsNone system.entry.on.net.now
        (record_kept (kinds_of meaning system.entry.on.kinds.now) tables.now) node }
{
    match unit_of(system.on.net, node) {
        Some(unit) => held_end(system, tables, node, unit) > 0,
        None => false,
    }
}
