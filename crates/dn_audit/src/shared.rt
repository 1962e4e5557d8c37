//! The names that two or more agents see.

ghost use Rattle.std.specs.Prelude.{◌≡◌, ◌||◌, ℕ, ◌<◌, ◌++◌, ◌∷◌, [], length, map, slice_index_or, IfOk, OnOk, IsTrue};
ghost use Rattle.dn_interval.specs.declared.row.End.{End as EndPart};
ghost use Rattle.dn_interval.specs.Terms.{segs_give};
ghost use Rattle.dn_audit.specs.Terms.{AddsShared, AreSharedBy, are_within, claim_gives, claims_give, is_several, shared_by, views_have};

use crate::OutOfMemory;
use crate::claims::{Claim, claims_by_node};
use crate::report::{Seen, Shared};
use dn_base::items::Items;
use dn_interval::{End, Rows, Seg, Span};
use std::alloc::{AllocError, Global};

/// The rows of the names in so many nodes that two or more agents have by the views. `Err` is want
/// of memory.
pub(crate) fn shared_names(
    alloc: Global,
    count: u16,
    views: &[Seen],
) -> Result<Items<Shared>, OutOfMemory>
    requires within { IsTrue (are_within count views.now) }
    ensures { IfOk result (λ rows. AreSharedBy (views_have views.now) rows) }
{
    let claims = claims_by_node(alloc, count, views)?;
    let mut shared = Items::new(alloc);
    for node in 0..count {
        push_rows(alloc, node, claims_to(&claims, node), &mut shared)?;
    }
    Ok(shared)
}

/// The claims to the addresses of a node.
fn claims_to(claims: &Vec<Items<Claim>>, node: u16) -> &[Claim]
    requires there { node < length claims.now.items }
    ensures { result.now ≡ slice_index_or claims.now.items node [] }
{
    claims[usize::from(node)].as_slice()
}

/// Adds the rows of the addresses of a node that two or more agents have by the claims: rows that are
/// apart and ascend, each with all agents that have its addresses, and two that touch with different
/// agents. A claim is a segment that gives each of its addresses the agent at this address, so that
/// they are the normal rows of these segments which have two names or more: one sweep, and no agent
/// is compared with another.
fn push_rows(
    alloc: Global,
    node: u16,
    claims: &[Claim],
    shared: &mut Items<Shared>,
) -> Result<(), OutOfMemory>
    ensures { OnOk result (AddsShared node (claims_give claims.now) shared.old shared.new) }
{
    let mut segs = Vec::new(alloc);
    for claim in claims {
        push_claim(&mut segs, claim)?;
    }
    let normal = Rows::normal(alloc, segs.as_slice())?;
    let rows = normal.rows();
    for row in rows {
        if is_several(row.ends()) {
            push_shared(alloc, shared, node, row.span(), row.ends())?;
        }
    }
    Ok(())
}

/// Adds the segment of a claim: each of its addresses has the agent, at this address.
fn push_claim(segs: &mut Vec<Seg>, claim: &Claim) -> Result<(), AllocError>
    ensures { OnOk result ((a : ℕ) (y : EndPart) → segs_give segs.new.items a y
        ≡ (segs_give segs.old.items a y || claim_gives claim.now a y)) }
{
    let (span, agent) = (claim.span, claim.agent);
    let seg = Seg {
        span,
        node: agent,
        base: span.lo,
    };
    segs.push(seg)?;
    Ok(())
}

/// Whether there are two or more.
fn is_several(ends: &[End]) -> bool
    ensures { result ≡ is_several ends.now }
{
    ends.len() >= 2
}

/// Adds a row of shared addresses.
fn push_shared(
    alloc: Global,
    shared: &mut Items<Shared>,
    node: u16,
    span: Span,
    ends: &[End],
) -> Result<(), AllocError>
    ensures { OnOk result (shared.new ≡ shared.old ++ shared_by node span ends.now ∷ []) }
{
    let agents = agents_of(alloc, ends)?;
    let row = Shared { node, span, agents };
    shared.push(row)?;
    Ok(())
}

/// The agents of the names of a row.
fn agents_of(alloc: Global, ends: &[End]) -> Result<Items<u16>, AllocError>
    ensures { IfOk result (λ agents. agents ≡ map (λ e. e.node) ends.now) }
{
    let mut agents = Items::new(alloc);
    for end in ends {
        agents.push(end.node)?;
    }
    Ok(agents)
}
