//! What a node comes to by a number of steps: by one, and by twice as many.

ghost use Rattle.std.specs.Prelude.{◌≡◌, ℕ, ◌+◌, ◌<◌, ◌≤◌, ◌&&◌, length, map, slice_get, option_map, Some, IfOk, IfSome, IsTrue, List};
ghost use Rattle.dn_interval.specs.declared.row.End.{End};
ghost use Rattle.dn_interval.specs.declared.span.TheConstants.{TOP};
ghost use Rattle.dn_interval.specs.Terms.{ends_within, has, in_span, seg_gives, segs_give};
ghost use Rattle.dn_net.specs.declared.node.NodeDecl.{NodeDecl};
ghost use Rattle.dn_net.specs.Terms.{is_accepted, is_stop};
ghost use Rattle.dn_walk.specs.Terms.{bare_legs, leg_view};
ghost use Rattle.dn_flat.specs.Terms.{AreReaches, IsLedBy, IsLedTo, IsReach, is_same, stays};

use crate::flat::Flat;
use crate::found::{Continuation, FoundSegs, flat_of, push_rows, whole};
use dn_base::OutOfMemory;
use dn_interval::onward::follow;
use dn_interval::{Row, Rows, Seg, Span, SpanSet, TOP};
use dn_net::checked::CheckedNet;
use dn_net::net::Net;
use std::alloc::Global;

/// What the addresses of a node come to by a number of steps.
#[derive(Drop)]
pub(crate) struct Reach {
    /// The accepted names and the stops that are reached in fewer steps.
    pub(crate) done: Flat,
    /// The names that are reached in exactly so many.
    pub(crate) go: Rows,
}

impl Reach {
    /// Where each address goes on to that address of another node, and that is all: the other.
    pub(crate) fn led_to(&self) -> Option<u16>
        ensures { IfSome result (λ other. IsLedTo other self.now) }
    {
        let [row] = self.go.rows() else {
            return None;
        };
        if !self.done.accepts.rows().is_empty() || !self.done.stops.rows().is_empty() {
            return None;
        }
        led_by(row)
    }
}

/// Where a row leads each address to that address of a node: the node.
fn led_by(row: &Row) -> Option<u16>
    ensures { IfSome result (λ other. IsLedBy other row.now) }
{
    let [end] = row.ends() else {
        return None;
    };
    if row.span.lo == 0 && row.span.hi == TOP && end.base == 0 {
        Some(end.node)
    } else {
        None
    }
}

/// What a node comes to by one step, from the addresses that it accepts and from its legs.
pub(crate) fn first_reach(
    alloc: Global,
    checked: CheckedNet,
    node: u16,
    accepted: &SpanSet,
    legs: &[Seg],
) -> Result<Reach, OutOfMemory>
    requires there { node < length checked.net.now }
    requires accepted { (a : ℕ) → has accepted.now a
        ≡ is_accepted checked.net.now (record { node = node; addr = a }) }
    requires legs { option_map bare_legs (slice_get checked.net.now node)
        ≡ Some (map leg_view legs.now) }
    ensures { IfOk result (λ reach. IsReach checked.entry.net.now 1 node reach) }
{
    let found = FoundSegs {
        accepts: still_segs(alloc, node, accepted.spans())?,
        stops: stop_segs(alloc, checked.net, node)?,
        go: Vec::new(alloc),
    };
    let done = flat_of(alloc, &found)?;
    let go = Rows::normal(alloc, legs)?;
    Ok(Reach { done, go })
}

/// Each address of a node that lies in spans, as itself.
fn still_segs(alloc: Global, node: u16, spans: &[Span]) -> Result<Vec<Seg>, OutOfMemory>
    ensures { IfOk result (λ segs. (a : ℕ) (y : End) → segs_give segs.items a y
        ≡ stays spans.now node a y) }
{
    let mut segs = Vec::with_capacity(alloc, spans.len())?;
    for span in spans {
        segs.push(still(node, *span))?;
    }
    Ok(segs)
}

/// Each address of a span of a node, as itself.
pub(crate) fn still(node: u16, span: Span) -> Seg
    ensures span { result.span ≡ span }
    ensures node { result.node ≡ node }
    ensures base { result.base ≡ span.lo }
    ensures gives { (a : ℕ) (y : End) → seg_gives result a y
        ≡ (in_span span a && is_same node a y) }
{
    Seg {
        span,
        node,
        base: span.lo,
    }
}

/// Each address of a unit, as itself; of a node that is no unit, none.
fn stop_segs(alloc: Global, net: &Net, node: u16) -> Result<Vec<Seg>, OutOfMemory>
    requires { node < length net.now }
    ensures { IfOk result (λ segs. (a : ℕ) (y : End) → a ≤ TOP → segs_give segs.items a y
        ≡ (is_stop net.now (record { node = node; addr = a }) && is_same node a y)) }
{
    let mut segs = Vec::new(alloc);
    if net.unit(node).is_some() {
        segs.push(whole(node))?;
    }
    Ok(segs)
}

/// What a node comes to by twice as many steps: what it comes to in fewer, and what the names come to that it
/// reaches in exactly so many.
pub(crate) fn twice(alloc: Global, nodes: &[Reach], reach: &Reach) -> Result<Reach, OutOfMemory>
    requires there { IsTrue (ends_within (length nodes.now) reach.now.go) }
    ensures { IfOk result (λ next. (net : List NodeDecl) (k node : ℕ) → AreReaches net k nodes.now
        → IsReach net k node reach.now → IsReach net (k + k) node next) }
{
    let mut found = FoundSegs::new(alloc);
    follow(&mut found.accepts, whole(0), &reach.done.accepts)?;
    follow(&mut found.stops, whole(0), &reach.done.stops)?;
    push_rows(&mut found.accepts, nodes, Continuation::Accepts, &reach.go)?;
    push_rows(&mut found.stops, nodes, Continuation::Stops, &reach.go)?;
    push_rows(&mut found.go, nodes, Continuation::Goes, &reach.go)?;
    let done = flat_of(alloc, &found)?;
    let go = Rows::normal(alloc, &found.go)?;
    Ok(Reach { done, go })
}
