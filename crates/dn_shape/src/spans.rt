//! The maximal spans of what a node accepts.

ghost use Rattle.std.specs.Prelude.{◌≡◌, map, slice_get, option_map, IfOk, Some};
ghost use Rattle.dn_shape.specs.Terms.{maximal_spans};
ghost use Rattle.dn_walk.specs.Terms.{span_view};

use crate::node::CheckedNode;
use dn_base::OutOfMemory;
use dn_interval::Span;
use dn_net::node::Block;
use dn_walk::accepted::accepted_set;
use std::alloc::Global;

/// The maximal spans of the addresses that a node accepts, ascending.
pub(crate) fn maximal_accepts(
    alloc: Global,
    checked: CheckedNode,
) -> Result<Vec<Block>, OutOfMemory>
    ensures { IfOk result (λ v. option_map (λ d. maximal_spans d.accepts)
        (slice_get checked.entry.net.now checked.entry.node) ≡ Some v.items) }
{
    let set = accepted_set(alloc, checked.net, checked.node)?;
    blocks_of(alloc, set.spans())
}

/// The spans, as blocks.
fn blocks_of(alloc: Global, spans: &[Span]) -> Result<Vec<Block>, OutOfMemory>
    ensures { IfOk result (λ v. v.items ≡ map span_view spans.now) }
{
    let mut blocks = Vec::with_capacity(alloc, spans.len())?;
    for span in spans {
        blocks.push(block_of(*span))?;
    }
    Ok(blocks)
}

/// A span, as a block.
pub(crate) fn block_of(span: Span) -> Block
    ensures { result ≡ span_view span }
{
    Block {
        lo: span.lo,
        hi: span.hi,
    }
}
