//! What all agents see under a set of tables.

ghost use Rattle.std.specs.Prelude.{◌≡◌, ◌<◌, ◌++◌, ◌∷◌, [], length, map, if◌then◌else◌, slice_get, IfOk, OnOk, IsTrue};
ghost use Rattle.dn_net.specs.Terms.{is_agent_at};
ghost use Rattle.dn_kind.specs.Terms.{kinds_of};
ghost use Rattle.dn_tables.specs.Terms.{FitsNet, record_kept};
ghost use Rattle.dn_view.specs.Terms.{IsSystem};
ghost use Rattle.dn_audit.specs.Terms.{AreSeen, are_within, viewer_of, viewers};

use crate::OutOfMemory;
use crate::report::Seen;
use dn_base::items::Items;
use dn_kind::rights::Access;
use dn_placement::roles::is_agent;
use dn_tables::set::TableSet;
use dn_view::system::System;
use dn_view::view::view;
use std::alloc::Global;

/// What each agent sees under the tables, for reading and then for writing, by the numbers of their
/// nodes. `Err` is want of memory.
pub(crate) fn views(
    alloc: Global,
    system: System,
    tables: &TableSet,
) -> Result<Items<Seen>, OutOfMemory>
    requires system { IsSystem meaning system }
    requires fits { FitsNet system.on.net.now (kinds_of meaning system.on.kinds.now) tables.now }
    ensures viewers { IfOk result (λ views.
        map viewer_of views ≡ viewers 0 system.entry.on.net.now) }
    ensures seen { IfOk result (λ views. AreSeen system.entry.on.net.now
        (record_kept (kinds_of meaning system.entry.on.kinds.now) tables.now) views) }
    ensures within { IfOk result
        (λ views. IsTrue (are_within (length system.entry.on.net.now) views)) }
{
    let mut views = Items::new(alloc);
    for node in 0..system.on.net.nodes() {
        push_view(alloc, system, tables, node, Access::Read, &mut views)?;
        push_view(alloc, system, tables, node, Access::Write, &mut views)?;
    }
    Ok(views)
}

/// Adds what a node sees for an access, where it is an agent.
fn push_view(
    alloc: Global,
    system: System,
    tables: &TableSet,
    node: u16,
    access: Access,
    views: &mut Items<Seen>,
) -> Result<(), OutOfMemory>
    requires system { IsSystem meaning system }
    requires fits { FitsNet system.on.net.now (kinds_of meaning system.on.kinds.now) tables.now }
    requires there { node < length system.on.net.now }
    requires seen { AreSeen system.on.net.now
        (record_kept (kinds_of meaning system.on.kinds.now) tables.now) views.old }
    requires within { IsTrue (are_within (length system.on.net.now) views.old) }
    ensures viewers { OnOk result (map viewer_of views.new ≡ map viewer_of views.old
        ++ (if is_agent_at (slice_get system.entry.on.net.now node)
        then record { agent = node; access = access } ∷ [] else [])) }
    ensures seen { OnOk result (AreSeen system.entry.on.net.now
        (record_kept (kinds_of meaning system.entry.on.kinds.now) tables.now) views.new) }
    ensures within { OnOk result (IsTrue (are_within (length system.entry.on.net.now) views.new)) }
{
    if is_agent(system.on.net, node) {
        let rows = view(alloc, system, tables, node, access)?;
        views.push(Seen {
            agent: node,
            access,
            rows,
        })?;
    }
    Ok(())
}
