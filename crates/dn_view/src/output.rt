//! One step in a unit, by the record of a slot of a set of tables.

ghost use Rattle.std.specs.Prelude.{◌≡◌, ◌<◌, ◌^◌, [], ◌∷◌, length, None, Some, IsTrue};
ghost use Rattle.dn_net.specs.Terms.{is_stop};
ghost use Rattle.dn_kind.specs.Terms.{allowing, kinds_of, name_list, steps_under};
ghost use Rattle.dn_tables.specs.Terms.{record_kept};
ghost use Rattle.dn_view.specs.Terms.{AreSystemTables};

use dn_kind::kinded::KindedNet;
use dn_kind::output::output_name;
use dn_kind::rights::Access;
use dn_net::node::Name;
use dn_tables::set::TableSet;

/// The output of a name in a unit for an access. `None` where its slot has no record that allows
/// the access.
pub(crate) fn output(on: KindedNet, tables: &TableSet, access: Access, name: Name) -> Option<Name>
    requires tables { AreSystemTables meaning on tables.now }
    requires there { name.node < length on.net.now }
    requires stop { IsTrue (is_stop on.net.now name) }
    ensures { name_list result ≡ steps_under on.entry.net.now
        (allowing access (record_kept (kinds_of meaning on.entry.kinds.now) tables.now)) name }
{
    let unit = on.net.unit(name.node)?;
    let slot = name.addr >> unit.page;
    if slot >= u64::from(unit.slots) {
        return None;
    }
    let record = tables.record_at(on.kinds, name.node, slot as u32)?;
    if !record.rights.allows(access) {
        return None;
    }
    Some(output_name(unit, record, name.addr))
}
