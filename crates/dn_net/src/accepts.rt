//! The accept blocks of a node, which are sorted once: an address is sought among them by binary search.

ghost use Rattle.std.specs.Prelude.{◌≡◌, ℕ, IfOk, IsTrue, All, nat_lt, if◌then◌else◌};
ghost use Rattle.std.specs.List.{list_all};
ghost use Rattle.std.specs.List.Sorted.{IsNonDecreasingBy};
ghost use Rattle.dn_net.specs.Terms.{block_in_range, in_some_block};

use crate::node::Block;
use dn_base::items::Items;
use std::alloc::{AllocError, Global};
use std::marker::Model;

/// The accept blocks of a node, which contracts see as their list in the order of the text.
#[derive(Drop)]
pub(crate) struct AcceptList {
    blocks: Items<Block>,
    /// The blocks by their first addresses, each stretched to the last address of those before it.
    rows: Vec<Block>,
}

impl Model for AcceptList {
    ghost use Rattle.std.specs.Prelude.{List, ◌≡◌, ℕ, IsTrue, All};
    ghost use Rattle.std.specs.List.{list_all};
    ghost use Rattle.std.specs.List.Sorted.{IsNonDecreasingBy};
    ghost use Rattle.dn_net.specs.Decode.{in_some_block};
    ghost use Rattle.dn_net.specs.Rules.{block_in_range};
    ghost use Rattle.dn_net.specs.declared.node.Block.{Block};

    ghost Value = { List Block };

    ghost view = { λ s. s.blocks };

    ghost invariant = { λ s. record { firsts : IsNonDecreasingBy (λ b. b.lo) s.rows.items; lasts : IsNonDecreasingBy (λ b. b.hi) s.rows.items; same : (a : ℕ) → in_some_block a s.rows.items ≡ in_some_block a s.blocks; in_range : IsTrue (list_all block_in_range s.blocks) → All (λ b. IsTrue (block_in_range b)) s.rows.items } };
}

impl AcceptList {
    /// The list of these blocks.
    pub(crate) fn new(alloc: Global, blocks: Items<Block>) -> Result<AcceptList, AllocError>
        ensures { IfOk result (λ l. l ≡ blocks) }
    {
        let rows = rows_of(alloc, blocks.as_slice())?;
        Ok(AcceptList { blocks, rows })
    }

    /// The blocks, in the order of the text.
    pub(crate) fn as_slice(&self) -> &[Block]
        ensures { result.now ≡ self.now }
    {
        self.blocks.as_slice()
    }

    /// Blocks that have the same addresses, by their first addresses.
    pub(crate) fn rows(&self) -> &[Block]
        ensures sorted { IsNonDecreasingBy (λ b. b.lo) result.now }
        ensures same { (a : ℕ) → in_some_block a result.now ≡ in_some_block a self.now }
        ensures in_range { IsTrue (list_all block_in_range self.now)
            → All (λ b. IsTrue (block_in_range b)) result.now }
    {
        self.rows.as_slice()
    }

    /// Whether one of the blocks has the address.
    pub(crate) fn has(&self, addr: u64) -> bool
        ensures { result ≡ in_some_block addr self.now }
    {
        is_in_rows(&self.rows, addr)
    }
}

/// Blocks that have the same addresses, whose first and last addresses ascend.
fn rows_of(alloc: Global, blocks: &[Block]) -> Result<Vec<Block>, AllocError>
    ensures firsts { IfOk result (λ v. IsNonDecreasingBy (λ b. b.lo) v.items) }
    ensures lasts { IfOk result (λ v. IsNonDecreasingBy (λ b. b.hi) v.items) }
    ensures same { IfOk result (λ v. (a : ℕ) → in_some_block a v.items
        ≡ in_some_block a blocks.now) }
    ensures in_range { IfOk result (λ v. IsTrue (list_all block_in_range blocks.now)
        → All (λ b. IsTrue (block_in_range b)) v.items) }
{
    let mut sorted = Vec::from_slice(alloc, blocks)?;
    sorted.sort_unstable_by_key(|block| block.lo);
    stretched_blocks(alloc, &sorted)
}

/// Each block from its first address to the greatest last address so far.
fn stretched_blocks(alloc: Global, blocks: &[Block]) -> Result<Vec<Block>, AllocError>
    requires sorted { IsNonDecreasingBy (λ b. b.lo) blocks.now }
    ensures firsts { IfOk result (λ v. IsNonDecreasingBy (λ b. b.lo) v.items) }
    ensures lasts { IfOk result (λ v. IsNonDecreasingBy (λ b. b.hi) v.items) }
    ensures same { IfOk result (λ v. (a : ℕ) → in_some_block a v.items
        ≡ in_some_block a blocks.now) }
    ensures in_range { IfOk result (λ v. All (λ b. IsTrue (block_in_range b)) blocks.now
        → All (λ b. IsTrue (block_in_range b)) v.items) }
{
    let mut rows = Vec::with_capacity(alloc, blocks.len())?;
    let mut reach = 0;
    for block in blocks {
        reach = greater_of(reach, block.hi);
        rows.push(Block {
            lo: block.lo,
            hi: reach,
        })?;
    }
    Ok(rows)
}

fn greater_of(one: u64, other: u64) -> u64
    ensures { result ≡ (if nat_lt one other then other else one) }
{
    if one < other { other } else { one }
}

/// Whether a row has the address: only the first that ends at or past it can.
fn is_in_rows(rows: &[Block], addr: u64) -> bool
    requires firsts { IsNonDecreasingBy (λ b. b.lo) rows.now }
    requires lasts { IsNonDecreasingBy (λ b. b.hi) rows.now }
    ensures { result ≡ in_some_block addr rows.now }
{
    match rows.get(rows.partition_point(|row| row.hi < addr)) {
        Some(row) => row.lo <= addr,
        None => false,
    }
}
