//! The blocks of a node in the order of their first addresses, and what one pass over them finds.

ghost use Rattle.std.specs.Prelude.{◌≡◌, ℕ, ◌+◌, ◌<◌, ◌≤◌, ◌&&◌, ◌||◌, ◌++◌, [], not, nat_lt, false, filter, IfOk, OnOk, IfSome, IfNone, IsTrue, All};
ghost use Rattle.std.specs.List.Sorted.{IsPermutation, IsNonDecreasingBy};
ghost use Rattle.dn_net.specs.Terms.{block_in_range, count_below, is_accepted_in, node_spans, overlaps_in, top};

use crate::entries::Place;
use crate::node::Block;
use std::alloc::{AllocError, Global};

/// A block of a node. One that is not mapped is accepted.
#[derive(Clone, Copy)]
pub(crate) struct NodeBlock {
    block: Block,
    mapped: bool,
}

impl NodeBlock {
    /// Whether its first address lies in an earlier block with which it must have none in common,
    /// where the earlier map blocks and the earlier accept blocks end before these addresses.
    fn meets(self, past_maps: u64, past_accepts: u64) -> bool
        ensures { result ≡ (nat_lt self.block.lo past_maps || (self.mapped
            && nat_lt self.block.lo past_accepts)) }
    {
        let lo = self.block.lo;
        lo < past_maps || (self.mapped && lo < past_accepts)
    }
}

/// The blocks of a node by their first addresses: its map blocks and its accept blocks, each in this order, merged.
pub(crate) fn merged_spans(
    alloc: Global,
    maps: &[Place],
    accepts: &[Block],
) -> Result<Vec<NodeBlock>, AllocError>
    requires maps { IsNonDecreasingBy (λ p. p.block.lo) maps.now }
    requires accepts { IsNonDecreasingBy (λ b. b.lo) accepts.now }
    requires maps_in_range { All (λ p. IsTrue (block_in_range p.block)) maps.now }
    requires accepts_in_range { All (λ b. IsTrue (block_in_range b)) accepts.now }
    ensures same { IfOk result (λ v. IsPermutation (node_spans maps.now accepts.now) v.items) }
    ensures sorted { IfOk result (λ v. IsNonDecreasingBy (λ s. s.block.lo) v.items) }
    ensures in_range { IfOk result (λ v. All (λ s. IsTrue (block_in_range s.block)) v.items) }
{
    let mut spans = Vec::new(alloc);
    let mut rest = accepts;
    for place in maps {
        let (before, others) = split_below(rest, place.block.lo);
        push_accepts(&mut spans, before)?;
        spans.push(NodeBlock {
            block: place.block,
            mapped: true,
        })?;
        rest = others;
    }
    push_accepts(&mut spans, rest)?;
    Ok(spans)
}

/// The blocks that begin below an address, and the others.
fn split_below(blocks: &[Block], addr: u64) -> (&[Block], &[Block])
    requires { IsNonDecreasingBy (λ b. b.lo) blocks.now }
    ensures below { result.0.now ≡ filter (λ b. nat_lt b.lo addr) blocks.now }
    ensures others { result.1.now ≡ filter (λ b. not (nat_lt b.lo addr)) blocks.now }
    ensures sorted { IsNonDecreasingBy (λ b. b.lo) result.1.now }
{
    blocks.split_at(blocks.partition_point(|block| block.lo < addr))
}

/// Adds accept blocks.
fn push_accepts(spans: &mut Vec<NodeBlock>, accepts: &[Block]) -> Result<(), AllocError>
    ensures { OnOk result (spans.new.items ≡ spans.old.items ++ node_spans [] accepts.now) }
{
    for block in accepts {
        spans.push(NodeBlock {
            block: *block,
            mapped: false,
        })?;
    }
    Ok(())
}

/// The least address that lies in two map blocks, or in a map block and an accept block.
pub(crate) fn first_overlap(spans: &[NodeBlock]) -> Option<u64>
    requires in_range { All (λ s. IsTrue (block_in_range s.block)) spans.now }
    requires sorted { IsNonDecreasingBy (λ s. s.block.lo) spans.now }
    ensures found { IfSome result (λ a. IsTrue (overlaps_in spans.now a)) }
    ensures least { IfSome result (λ a. (b : ℕ) → IsTrue (overlaps_in spans.now b) → a ≤ b) }
    ensures none { IfNone result ((b : ℕ) → overlaps_in spans.now b ≡ false) }
{
    let mut past_maps = 0;
    let mut past_accepts = 0;
    for span in spans {
        let Block { lo, hi } = span.block;
        if span.meets(past_maps, past_accepts) {
            return Some(lo);
        }
        if span.mapped {
            past_maps = hi + 1;
        } else if past_accepts <= hi {
            past_accepts = hi + 1;
        }
    }
    None
}

/// How many different addresses lie in accept blocks.
pub(crate) fn accepted_addresses(spans: &[NodeBlock]) -> u64
    requires in_range { All (λ s. IsTrue (block_in_range s.block)) spans.now }
    requires sorted { IsNonDecreasingBy (λ s. s.block.lo) spans.now }
    ensures { result ≡ count_below (is_accepted_in spans.now) (top + 1) }
{
    let mut count = 0;
    let mut past = 0;
    for span in spans {
        let Block { lo, hi } = span.block;
        if !span.mapped && past <= hi {
            let first = if past < lo { lo } else { past };
            count += hi + 1 - first;
            past = hi + 1;
        }
    }
    count
}
