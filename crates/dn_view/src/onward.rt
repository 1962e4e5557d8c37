//! Which names in units are followed through the records of the tables: those from which a hop of a placement can be
//! met.

ghost use Rattle.std.specs.Prelude.{◌≡◌, ℕ, ◌<◌, ◌&&◌, ◌||◌, nat_lt, false, true, length, IfOk, OnOk, IsTrue};
ghost use Rattle.std.specs.List.{list_all, list_any};
ghost use Rattle.dn_interval.specs.declared.row.End.{End};
ghost use Rattle.dn_interval.specs.Terms.{seg_gives, segs_give};
ghost use Rattle.dn_net.specs.Terms.{unit_at};
ghost use Rattle.dn_view.specs.Terms.{IsTrial, comes_on, leads_to_hops};

use crate::OutOfMemory;
use crate::pass::unit_of;
use crate::range::held_end;
use crate::trial::Trial;
use crate::untouched::some_meets;
use dn_interval::Seg;
use dn_net::node::Unit;
use std::alloc::Global;

/// Through so many slots of a unit a pass goes sooner than it is asked where the unit leads.
const FEW: u64 = 64;

/// Of the names in units that segments give at least those that can come to a hop of a trial's placement through a
/// record of the tables. Of a unit with many records no other is kept.
pub(crate) fn onward_segs(
    alloc: Global,
    trial: Trial,
    segs: &[Seg],
) -> Result<Vec<Seg>, OutOfMemory>
    requires { IsTrial meaning trial }
    ensures given { IfOk result (λ rest. (a : ℕ) (s : End) → segs_give rest.items a s ≡ true →
        segs_give segs.now a s ≡ true) }
    ensures met { IfOk result (λ rest. (a : ℕ) (s : End) → segs_give segs.now a s ≡ true →
        comes_on trial.entry.system.on.net.now trial.entry.system.flats.now
        trial.entry.placement.now.hops (unit_at trial.entry.system.on.net.now s.node) ≡ true →
        segs_give rest.items a s ≡ true) }
{
    let mut rest = Vec::new(alloc);
    for seg in segs {
        let is_kept = may_come_on(trial, seg.node);
        push_if(&mut rest, *seg, is_kept)?;
    }
    Ok(rest)
}

/// Adds a segment where it is to be kept.
fn push_if(segs: &mut Vec<Seg>, seg: Seg, is_kept: bool) -> Result<(), OutOfMemory>
    ensures { OnOk result ((a : ℕ) (z : End) → segs_give segs.new.items a z
        ≡ (segs_give segs.old.items a z || (is_kept && seg_gives seg a z))) }
{
    if !is_kept {
        return Ok(());
    }
    Ok(segs.push(seg)?)
}

/// Whether what stands in a node may come to a hop through a record of the tables. Where few slots can have one it is
/// not asked.
fn may_come_on(trial: Trial, node: u16) -> bool
    requires { IsTrial meaning trial }
    ensures { result ≡ false → comes_on trial.entry.system.on.net.now trial.entry.system.flats.now
        trial.entry.placement.now.hops (unit_at trial.entry.system.on.net.now node) ≡ false }
{
    let Some(unit) = unit_of(trial.system.on.net, node) else {
        return false;
    };
    let end = held_end(trial.system, trial.tables, node, unit);
    if end <= FEW {
        return true;
    }
    comes_on(trial, unit)
}

/// Whether the node of a port of a unit leads to a unit in which something stands that can come to a hop.
fn comes_on(trial: Trial, unit: &Unit) -> bool
    requires trial { IsTrial meaning trial }
    requires ports { IsTrue (list_all (λ p. nat_lt p (length trial.system.flats.now.nodes))
        unit.now.ports) }
    ensures { result ≡ list_any (leads_to_hops trial.entry.system.on.net.now
        trial.entry.system.flats.now trial.entry.placement.now.hops) unit.now.ports }
{
    let ports = unit.ports.as_slice();
    for port in ports {
        if leads_to_hops(trial, *port) {
            return true;
        }
    }
    false
}

/// Whether a node leads to a unit in which something stands that can come to a hop.
fn leads_to_hops(trial: Trial, node: u16) -> bool
    requires trial { IsTrial meaning trial }
    requires there { node < length trial.system.flats.now.nodes }
    ensures { result ≡ leads_to_hops trial.entry.system.on.net.now
        trial.entry.system.flats.now trial.entry.placement.now.hops node }
{
    let units = trial.system.flats.of(node).units.as_slice();
    some_meets(trial, units)
}
