//! The least vector that has an admissible placement at a line.

ghost use Rattle.std.specs.Prelude.{◌≡◌, ◌≤◌, ℕ, true, false, All, IfOk, IsTrue};
ghost use Rattle.std.specs.List.Sorted.{IsNonDecreasingBy};
ghost use Rattle.dn_interval.specs.declared.span.TheConstants.{TOP};
ghost use Rattle.dn_net.specs.Terms.{block_in_range, in_some_block};
ghost use Rattle.dn_vector.specs.Terms.{HasNoPlace, IsFoundOr, IsLeastBetween, IsLeastOfBlocks, IsLeastVector, IsRouteAsked, IsVectorSought, IsVectorPlaced, NoVector, grant_of_route, is_taken_vector, vector_request};

use crate::OutOfMemory;
use crate::vectors::taken_vectors;
use dn_book::book::Book;
use dn_book::grant::Grant;
use dn_interval::SpanSet;
use dn_kind::rights::Rights;
use dn_net::node::Block;
use dn_place::booked::{first_in_book_from, is_crowded, is_shut};
use dn_place::reach::{ReachMarks, reach_of};
use dn_placement::request::Request;
use dn_tables::placement::Placement;
use dn_view::system::System;
use std::alloc::Global;

/// A line of an agent that is to come to a vector of a node, beside the grants of a book.
#[derive(Clone, Copy)]
pub struct Asked<'a> {
    pub book: &'a Book,
    pub system: System<'a>,
    pub agent: u16,
    pub line: u64,
    pub node: u16,
}

/// A vector, and where its line is placed.
#[derive(Drop)]
pub struct FoundRoute {
    /// The vector, an address of its node.
    pub vector: u64,
    /// The first admissible placement at the line.
    pub placement: Placement,
}

impl FoundRoute {
    /// The grant of the vector to an agent, under an id.
    pub fn grant(self, id: u32, agent: u16, node: u16) -> Grant
        ensures { result ≡ grant_of_route id agent node self.vector self.placement }
    {
        let FoundRoute { vector, placement } = self;
        Grant {
            id,
            request: vector_request(agent, node, vector),
            placement,
        }
    }
}

/// The least vector that no live grant has and that has an admissible placement at the line, with the
/// first of these. `None` exactly where none has one. `Err` is want of memory.
pub fn least_vector(alloc: Global, asked: Asked) -> Result<Option<FoundRoute>, OutOfMemory>
    requires asked { IsRouteAsked meaning asked }
    ensures { IfOk result (IsFoundOr
        (λ f. IsLeastVector asked.entry.system.on.net.now asked.entry.book.now.grants
        asked.entry.agent asked.entry.line asked.entry.node f.vector f.placement)
        (NoVector asked.entry.system.on.net.now asked.entry.book.now.grants asked.entry.agent
        asked.entry.line asked.entry.node)) }
{
    if is_shut(asked.book, asked.system, asked.agent, asked.line) {
        return Ok(None);
    }
    if is_crowded(asked.system, asked.agent, asked.line) {
        return Ok(None);
    }
    let reach = reach_of(alloc, asked.system, asked.agent, Some(asked.line))?;
    let taken = taken_vectors(alloc, asked.book.grants(), asked.node)?;
    let blocks = asked.system.on.net.accept_rows(asked.node);
    least_of_blocks(alloc, asked, &reach, &taken, blocks)
}

/// The least free vector of blocks, which stand in order, that has an admissible placement. Blocks past the
/// vector that is found are not looked at.
fn least_of_blocks(
    alloc: Global,
    asked: Asked,
    reach: &ReachMarks,
    taken: &SpanSet,
    blocks: &[Block],
) -> Result<Option<FoundRoute>, OutOfMemory>
    requires sought { IsVectorSought meaning asked reach.now taken.now }
    requires order { IsNonDecreasingBy (λ b. b.lo) blocks.now }
    requires in_range { All (λ b. IsTrue (block_in_range b)) blocks.now }
    ensures { IfOk result (IsFoundOr
        (λ f. IsLeastOfBlocks asked.entry.system.on.net.now asked.entry.book.now.grants
        asked.entry.agent asked.entry.line asked.entry.node blocks.now f.vector f.placement)
        ((vector : ℕ) → in_some_block vector blocks.now ≡ true
        → is_taken_vector asked.entry.book.now.grants asked.entry.node vector ≡ false
        → HasNoPlace asked.entry.system.on.net.now asked.entry.book.now.grants
        asked.entry.agent asked.entry.line asked.entry.node vector)) }
{
    let mut next = 0;
    for block in blocks {
        let first = later(next, block.lo);
        let last = block.hi;
        if let Some(found) = least_between(alloc, asked, reach, taken, first, last)? {
            return Ok(Some(found));
        }
        next = later(next, last + 1);
    }
    Ok(None)
}

/// The later of two addresses.
fn later(one: u64, other: u64) -> u64
    ensures one { one ≤ result }
    ensures other { other ≤ result }
    ensures least { (n : ℕ) → one ≤ n → other ≤ n → result ≤ n }
{
    if one < other { other } else { one }
}

/// The least free vector from a first to a last that has an admissible placement.
fn least_between(
    alloc: Global,
    asked: Asked,
    reach: &ReachMarks,
    taken: &SpanSet,
    first: u64,
    last: u64,
) -> Result<Option<FoundRoute>, OutOfMemory>
    requires sought { IsVectorSought meaning asked reach.now taken.now }
    requires few { last ≤ TOP }
    ensures { IfOk result (IsFoundOr
        (λ f. IsLeastBetween asked.entry.system.on.net.now asked.entry.book.now.grants
        asked.entry.agent asked.entry.line asked.entry.node first last f.vector f.placement)
        ((vector : ℕ) → first ≤ vector → vector ≤ last
        → is_taken_vector asked.entry.book.now.grants asked.entry.node vector ≡ false
        → HasNoPlace asked.entry.system.on.net.now asked.entry.book.now.grants
        asked.entry.agent asked.entry.line asked.entry.node vector)) }
{
    for vector in first..last + 1 {
        let placement = placement_of(alloc, asked, reach, taken, vector)?;
        if let Some(placement) = placement {
            return Ok(Some(FoundRoute { vector, placement }));
        }
    }
    Ok(None)
}

/// The first admissible placement of a vector at the line, where no live grant has it.
fn placement_of(
    alloc: Global,
    asked: Asked,
    reach: &ReachMarks,
    taken: &SpanSet,
    vector: u64,
) -> Result<Option<Placement>, OutOfMemory>
    requires sought { IsVectorSought meaning asked reach.now taken.now }
    requires few { vector ≤ TOP }
    ensures { IfOk result (IsFoundOr
        (IsVectorPlaced asked.entry.system.on.net.now asked.entry.book.now.grants
        asked.entry.agent asked.entry.line asked.entry.node vector)
        (is_taken_vector asked.entry.book.now.grants asked.entry.node vector ≡ false
        → HasNoPlace asked.entry.system.on.net.now asked.entry.book.now.grants
        asked.entry.agent asked.entry.line asked.entry.node vector)) }
{
    if taken.contains(vector) {
        return Ok(None);
    }
    let request = vector_request(asked.agent, asked.node, vector);
    first_in_book_from(alloc, asked.book, asked.system, &request, reach)
}

/// The request for a vector: one address of its node, for reading and writing.
pub fn vector_request(agent: u16, node: u16, vector: u64) -> Request
    ensures { result ≡ vector_request agent node vector }
{
    Request {
        agent,
        node,
        base: vector,
        size: 1,
        rights: Rights::both(),
    }
}
