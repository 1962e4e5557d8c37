//! Putting the records of a grant: from memory's end to the agent's, and in each hop by ascending slot.

ghost use Rattle.std.specs.Prelude.{◌≡◌, ◌<◌, ◌++◌, [], ◌∷◌, filter, reverse, Some, OnOk, is_err};
ghost use Rattle.dn_base.specs.Terms.{IsCounted};
ghost use Rattle.dn_net.specs.Terms.{unit_at};
ghost use Rattle.dn_kind.specs.Terms.{kinds_of};
ghost use Rattle.dn_placement.specs.Terms.{hop_rights};
ghost use Rattle.dn_tables.specs.Terms.{IsOnDevice, KeepsFit, words_of};
ghost use Rattle.dn_book.specs.Terms.{AreAdded, ArePut, AreWritten, MayPut, MayPutGrant, MayPutHop, after_puts, fence_events, grant_slots, hop_slots, hop_slots_by, is_used_by, joined_slots, put_at, put_log};

use crate::grant::Grant;
use crate::slots::{end_slot, first_slot, slot_record};
use crate::uses::is_unused;
use dn_base::device::Tables;
use dn_kind::kinded::KindedNet;
use dn_kind::kinds::Kinds;
use dn_kind::rights::Rights;
use dn_kind::unit_kind::Record;
use dn_net::node::Unit;
use dn_tables::placement::Hop;
use dn_tables::set::TableSet;
use dn_tables::writes::Written;

/// The rights of the records of a hop: those of the grant in its own hop, and both in every other.
fn hop_rights(rights: Rights, own: usize, place: usize) -> Rights
    ensures { result ≡ hop_rights rights own place }
{
    if place == own { rights } else { Rights::both() }
}

/// A fence where one is due, and then the records of a grant, in those of its slots that no live grant
/// uses.
///
/// # Errors
///
/// `DeviceFault` at the first call that fails; those before it are done.
pub(crate) fn write_grant<D: Tables>(
    tables: &mut TableSet,
    on: KindedNet,
    grant: &Grant,
    is_due: bool,
    device: &mut D,
) -> Written
    requires { MayPutGrant meaning on grant.now tables.old
        (D.units device.old) (D.words device.old) }
    ensures done { OnOk result (tables.new ≡ after_puts
        (kinds_of meaning on.entry.kinds.now) tables.old (filter (is_used_by 0 tables.old)
        (joined_slots (reverse (grant_slots on.entry.net.now grant.now))))) }
    ensures written { AreWritten (fence_events is_due ++ put_log
        (kinds_of meaning on.entry.kinds.now) tables.old (filter (is_used_by 0 tables.old)
        (joined_slots (reverse (grant_slots on.entry.net.now grant.now))))) (is_err result)
        (D.log device.old) (D.log device.new) (words_of tables.old) (words_of tables.new) }
    ensures fits { KeepsFit tables.old tables.new }
    ensures on_device { IsOnDevice tables.new (D.units device.new) (D.words device.new) }
    ensures counted { IsCounted (D.faults device.old) (D.faults device.new) (is_err result) }
{
    fence(is_due, device)?;
    put_grant(tables, on, grant, device)
}

/// A fence, where one is due.
///
/// # Errors
///
/// `DeviceFault` where it fails.
fn fence<D: Tables>(is_due: bool, device: &mut D) -> Written
    ensures units { D.units device.new ≡ D.units device.old }
    ensures words { D.words device.new ≡ D.words device.old }
    ensures added { AreAdded (fence_events is_due) (is_err result) (D.log device.old)
        (D.log device.new) }
    ensures counted { IsCounted (D.faults device.old) (D.faults device.new) (is_err result) }
{
    if is_due {
        device.fence()?;
    }
    Ok(())
}

/// Puts the records of a grant into those of its slots that no live grant uses.
///
/// # Errors
///
/// `DeviceFault` at the first write that fails; those before it are done.
fn put_grant<D: Tables>(
    tables: &mut TableSet,
    on: KindedNet,
    grant: &Grant,
    device: &mut D,
) -> Written
    requires { MayPutGrant meaning on grant.now tables.old
        (D.units device.old) (D.words device.old) }
    ensures put { ArePut (kinds_of meaning on.entry.kinds.now)
        (joined_slots (reverse (grant_slots on.entry.net.now grant.now)))
        (is_err result) (D.log device.old) (D.log device.new) tables.old tables.new }
    ensures on_device { IsOnDevice tables.new (D.units device.new) (D.words device.new) }
    ensures counted { IsCounted (D.faults device.old) (D.faults device.new) (is_err result) }
{
    tables.facts();
    let hops = grant.placement.hops();
    let own = usize::from(grant.placement.own());
    for behind in 0..hops.len() {
        let place = hops.len() - 1 - behind;
        let rights = hop_rights(grant.request.rights, own, place);
        put_hop(tables, on, grant.request.size, rights, &hops[place], device)?;
    }
    Ok(())
}

/// Puts the records of one hop, by ascending slot.
fn put_hop<D: Tables>(
    tables: &mut TableSet,
    on: KindedNet,
    size: u64,
    rights: Rights,
    hop: &Hop,
    device: &mut D,
) -> Written
    requires { MayPutHop (unit_at on.net.now hop.now.unit) size rights hop.now
        meaning on.kinds.now tables.old (D.units device.old) (D.words device.old) }
    ensures put { ArePut
        (kinds_of meaning on.entry.kinds.now) (hop_slots on.entry.net.now size rights hop.now)
        (is_err result) (D.log device.old) (D.log device.new) tables.old tables.new }
    ensures on_device { IsOnDevice tables.new (D.units device.new) (D.words device.new) }
    ensures counted { IsCounted (D.faults device.old) (D.faults device.new) (is_err result) }
{
    match on.net.unit(hop.unit) {
        Some(unit) => put_slots(tables, on.kinds, unit, size, rights, hop, device),
        None => unreachable!(),
    }
}

/// Puts the records of one hop in this unit, by ascending slot.
fn put_slots<D: Tables>(
    tables: &mut TableSet,
    kinds: &Kinds,
    unit: &Unit,
    size: u64,
    rights: Rights,
    hop: &Hop,
    device: &mut D,
) -> Written
    requires { MayPutHop (Some unit.now) size rights hop.now meaning kinds.now tables.old
        (D.units device.old) (D.words device.old) }
    ensures put { ArePut (kinds_of meaning kinds.now) (hop_slots_by (Some unit.now) size rights
        hop.now) (is_err result) (D.log device.old) (D.log device.new) tables.old tables.new }
    ensures on_device { IsOnDevice tables.new (D.units device.new) (D.words device.new) }
    ensures counted { IsCounted (D.faults device.old) (D.faults device.new) (is_err result) }
{
    tables.facts();
    for slot in first_slot(unit, size, hop)..end_slot(unit, size, hop) {
        let holds = slot_record(unit, size, rights, hop, slot);
        put_slot(tables, kinds, hop.unit, slot, holds, device)?;
    }
    Ok(())
}

/// Puts a record into a slot, where no live grant uses it.
fn put_slot<D: Tables>(
    tables: &mut TableSet,
    kinds: &Kinds,
    unit: u16,
    slot: u32,
    holds: Record,
    device: &mut D,
) -> Written
    requires { MayPut (put_at unit slot holds) meaning kinds.now tables.old
        (D.units device.old) (D.words device.old) }
    ensures put { ArePut (kinds_of meaning kinds.now) (put_at unit slot holds ∷ [])
        (is_err result) (D.log device.old) (D.log device.new) tables.old tables.new }
    ensures on_device { IsOnDevice tables.new (D.units device.new) (D.words device.new) }
    ensures counted { IsCounted (D.faults device.old) (D.faults device.new) (is_err result) }
{
    if is_unused(tables, unit, slot) {
        tables.put(kinds, unit, slot, holds, device)?;
    }
    Ok(())
}
