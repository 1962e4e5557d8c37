//! Whether a node may be asked for a buffer, and the first address of it that the node does not accept,
//! found by the node's blocks.

ghost use Rattle.std.specs.Prelude.{◌≡◌, ℕ, ◌≤◌, ◌<◌, true, false, length, slice_get, IsTrue};
ghost use Rattle.std.specs.List.{All};
ghost use Rattle.std.specs.List.Sorted.{IsNonDecreasingBy};
ghost use Rattle.dn_net.specs.Terms.{block_in_range, in_some_block, is_accepted_at};
ghost use Rattle.dn_place.specs.Terms.{is_target_at, refused_address};

use dn_net::checked::CheckedNet;
use dn_net::net::Net;
use dn_net::node::Block;
use dn_placement::roles::is_vectors;

/// Whether a node is there, and its addresses are no interrupt vectors.
pub fn is_target(net: &Net, node: u16) -> bool
    ensures target { result ≡ is_target_at (slice_get net.now node) }
    ensures there { IsTrue result → node < length net.now }
{
    node < net.nodes() && !is_vectors(net, node)
}

/// The address for which a buffer is refused: its base where it is empty, and else the first of its
/// addresses that the node does not accept. It takes no memory, and goes over the blocks of the node
/// once, in their order.
pub fn refused_address(checked: CheckedNet, node: u16, base: u64, size: u64) -> Option<u64>
    requires there { node < length checked.net.now }
    ensures { result ≡ refused_address (slice_get checked.entry.net.now node) base size }
{
    if size == 0 {
        return Some(base);
    }
    let first = first_unaccepted(checked, node, base);
    if first - base < size {
        Some(first)
    } else {
        None
    }
}

/// The first address from one on that a node does not accept.
fn first_unaccepted(checked: CheckedNet, node: u16, base: u64) -> u64
    requires there { node < length checked.net.now }
    ensures from { base ≤ result }
    ensures accepted { (a : ℕ) → base ≤ a → a < result →
        is_accepted_at a (slice_get checked.entry.net.now node) ≡ true }
    ensures unaccepted { is_accepted_at result (slice_get checked.entry.net.now node) ≡ false }
{
    first_outside(checked.net.accept_rows(node), base)
}

/// The first address from one on that is in none of the blocks, which stand in order.
fn first_outside(blocks: &[Block], base: u64) -> u64
    requires order { IsNonDecreasingBy (λ b. b.lo) blocks.now }
    requires in_range { All (λ b. IsTrue (block_in_range b)) blocks.now }
    ensures from { base ≤ result }
    ensures inside { (a : ℕ) → base ≤ a → a < result → in_some_block a blocks.now ≡ true }
    ensures outside { in_some_block result blocks.now ≡ false }
{
    let mut first = base;
    for block in blocks {
        if first < block.lo {
            return first;
        }
        if first <= block.hi {
            first = block.hi + 1;
        }
    }
    first
}
