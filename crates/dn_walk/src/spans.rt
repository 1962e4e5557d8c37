//! The addresses of blocks, as sets.

ghost use Rattle.std.specs.Prelude.{◌≡◌, ℕ, map, IfOk, IsTrue, All};
ghost use Rattle.dn_net.specs.Terms.{block_in_range, in_some_block};
ghost use Rattle.dn_interval.specs.Terms.{has};

use dn_base::OutOfMemory;
use dn_interval::{Span, SpanSet};
use dn_net::entries::Place;
use dn_net::node::Block;
use std::alloc::Global;

/// The addresses of blocks. Of blocks in order each is added behind the others.
pub(crate) fn covered_set(alloc: Global, blocks: &[Block]) -> Result<SpanSet, OutOfMemory>
    requires { All (λ b. IsTrue (block_in_range b)) blocks.now }
    ensures { IfOk result (λ s. (a : ℕ) → has s a ≡ in_some_block a blocks.now) }
{
    let mut covered = SpanSet::new(alloc);
    for block in blocks {
        let Block { lo, hi } = *block;
        covered.insert(Span { lo, hi })?;
    }
    Ok(covered)
}

/// The addresses of map blocks, in the same way.
pub(crate) fn mapped_set(alloc: Global, maps: &[Place]) -> Result<SpanSet, OutOfMemory>
    requires { All (λ p. IsTrue (block_in_range p.block)) maps.now }
    ensures { IfOk result (λ s. (a : ℕ) → has s a
        ≡ in_some_block a (map (λ p. p.block) maps.now)) }
{
    let mut mapped = SpanSet::new(alloc);
    for place in maps {
        let Block { lo, hi } = place.block;
        mapped.insert(Span { lo, hi })?;
    }
    Ok(mapped)
}
