//! The vectors of a node that live grants have.

ghost use Rattle.std.specs.Prelude.{◌≡◌, ◌≤◌, ℕ, false, slice_get, IfOk};
ghost use Rattle.std.specs.Option.{option_map_or};
ghost use Rattle.dn_net.specs.Terms.{top};
ghost use Rattle.dn_vector.specs.Terms.{AreTaken, has_vector, in_some_span};

use crate::OutOfMemory;
use dn_book::grants::Grants;
use dn_interval::{Span, SpanSet, TOP};
use std::alloc::Global;

/// The vectors of a node that grants have, in one pass over the grants.
pub fn taken_vectors(alloc: Global, grants: &Grants, node: u16) -> Result<SpanSet, OutOfMemory>
    ensures { IfOk result (λ set. AreTaken grants.now.live node set) }
{
    let mut taken = SpanSet::new(alloc);
    for at in 0..grants.len() {
        if let Some(span) = vectors_of(grants, at, node) {
            taken.insert(span)?;
        }
    }
    Ok(taken)
}

/// The vectors of a node that a grant has, the one after so many others, where there are any.
fn vectors_of(grants: &Grants, at: usize, node: u16) -> Option<Span>
    ensures { (a : ℕ) → a ≤ top → in_some_span result a
        ≡ option_map_or (has_vector node a) (slice_get grants.now.live at) false }
{
    let request = &grants.nth(at)?.request;
    if request.node != node || request.size == 0 || request.base > TOP {
        return None;
    }
    let lo = request.base;
    let hi = lo + (request.size - 1).min(TOP - lo);
    Some(Span { lo, hi })
}
