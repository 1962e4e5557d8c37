//! What one name comes to in the net, by what the nodes of the net reach.

ghost use Rattle.std.specs.Prelude.{◌≡◌, ◌<◌, length, IfSome, IsNone, OnOk};
ghost use Rattle.dn_interval.specs.declared.span.TheConstants.{TOP};
ghost use Rattle.dn_flat.specs.Terms.{AreFlats};
ghost use Rattle.dn_view.specs.Terms.{AddsGiven, AddsOne, AddsPart, IsAtName};

use crate::OutOfMemory;
use crate::part::FlatPart;
use crate::pass::push_sent;
use dn_flat::flats::Flats;
use dn_interval::{Seg, Span, TOP};
use dn_net::net::Net;
use dn_net::node::Name;
use std::alloc::Global;

/// Adds the names to which a name comes in the net. Time of what its node comes to, and of the names that this
/// gives to its address. For want of memory some of the names may have been added.
pub fn push_names(
    alloc: Global,
    net: &Net,
    flats: &Flats,
    part: FlatPart,
    name: Name,
    found: &mut Vec<Name>,
) -> Result<(), OutOfMemory>
    requires flats { AreFlats net.now flats.now }
    requires there { name.node < length net.now }
    ensures { OnOk result (AddsPart net.now part name found.old.items found.new.items) }
{
    let _net = net;
    let Some(seg) = seg_of(name) else {
        return Ok(());
    };
    let mut segs = Vec::new(alloc);
    let mut mid = Vec::new(alloc);
    push_sent(&mut segs, &mut mid, flats, part, seg)?;
    push_given(found, &segs, name.addr)
}

/// The segment of the address of a name alone, which gives the name. None where the address is past the
/// last one: such a name comes to nothing.
pub(crate) fn seg_of(name: Name) -> Option<Seg>
    ensures some { IfSome result (IsAtName name) }
    ensures none { IsNone result → TOP < name.addr }
{
    let Name { node, addr } = name;
    if TOP < addr {
        return None;
    }
    let span = Span { lo: addr, hi: addr };
    Some(Seg {
        span,
        node,
        base: addr,
    })
}

/// Adds the names that segments give to an address.
pub(crate) fn push_given(found: &mut Vec<Name>, segs: &[Seg], addr: u64) -> Result<(), OutOfMemory>
    ensures { OnOk result (AddsGiven segs.now addr found.old.items found.new.items) }
{
    for seg in segs {
        push_name(found, *seg, addr)?;
    }
    Ok(())
}

/// Adds the name that a segment gives to an address, where it has the address.
fn push_name(found: &mut Vec<Name>, seg: Seg, addr: u64) -> Result<(), OutOfMemory>
    ensures { OnOk result (AddsOne seg addr found.old.items found.new.items) }
{
    if addr < seg.span.lo {
        return Ok(());
    }
    if seg.span.hi < addr {
        return Ok(());
    }
    found.push(Name {
        node: seg.node,
        addr: seg.base + (addr - seg.span.lo),
    })?;
    Ok(())
}
