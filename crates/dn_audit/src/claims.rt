//! Which agent has which addresses of each node, by the views of all agents.

ghost use Rattle.std.specs.Prelude.{◌≡◌, ℕ, ◌+◌, ◌-◌, ◌≤◌, ◌<◌, ◌||◌, nat_lt, length, IfOk, OnOk, IsTrue};
ghost use Rattle.std.specs.List.{list_all};
ghost use Rattle.dn_interval.specs.declared.span.TheConstants.{TOP};
ghost use Rattle.dn_interval.specs.Terms.{EndsFit, ends_within};
ghost use Rattle.dn_audit.specs.Terms.{are_within, claimed, end_has, row_has, view_has, views_have};

use crate::OutOfMemory;
use crate::report::Seen;
use dn_base::items::Items;
use dn_interval::{End, Row, Span};
use std::alloc::{AllocError, Global};

/// An agent has each address of a span.
#[derive(Clone, Copy, Debug, PartialEq, Eq)]
pub(crate) struct Claim {
    pub(crate) span: Span,
    pub(crate) agent: u16,
}

/// For each of so many nodes the claims of the views to its addresses. `Err` is want of memory.
pub(crate) fn claims_by_node(
    alloc: Global,
    count: u16,
    views: &[Seen],
) -> Result<Vec<Items<Claim>>, OutOfMemory>
    requires within { IsTrue (are_within count views.now) }
    ensures count { IfOk result (λ claims. length claims.items ≡ count) }
    ensures claimed { IfOk result (λ claims. (node agent a : ℕ)
        → claimed claims.items node agent a ≡ views_have views.now node agent a) }
{
    let mut claims = Vec::new(alloc);
    for _ in 0..count {
        claims.push(Items::new(alloc))?;
    }
    for view in views {
        add_view(&mut claims, view)?;
    }
    Ok(claims)
}

/// Adds the claims of a view.
fn add_view(claims: &mut Vec<Items<Claim>>, view: &Seen) -> Result<(), AllocError>
    requires within { IsTrue (ends_within (length claims.old.items) view.now.rows) }
    ensures count { OnOk result (length claims.new.items ≡ length claims.old.items) }
    ensures claimed { OnOk result ((node seer a : ℕ) → claimed claims.new.items node seer a
        ≡ (claimed claims.old.items node seer a || view_has view.now node seer a)) }
{
    let all = view.rows.rows();
    for row in all {
        add_row(claims, view.agent, row)?;
    }
    Ok(())
}

/// Adds the claims of an agent by a row of a view.
fn add_row(claims: &mut Vec<Items<Claim>>, agent: u16, row: &Row) -> Result<(), AllocError>
    requires within { IsTrue
        (list_all (λ e. nat_lt e.node (length claims.old.items)) row.now.ends) }
    requires fits { EndsFit row.now }
    ensures count { OnOk result (length claims.new.items ≡ length claims.old.items) }
    ensures claimed { OnOk result ((node seer a : ℕ) → claimed claims.new.items node seer a
        ≡ (claimed claims.old.items node seer a || row_has agent row.now node seer a)) }
{
    let span = row.span();
    let ends = row.ends();
    for end in ends {
        add_end(claims, agent, span, *end)?;
    }
    Ok(())
}

/// Adds the claim of an agent by a name of a row.
fn add_end(
    claims: &mut Vec<Items<Claim>>,
    agent: u16,
    span: Span,
    end: End,
) -> Result<(), AllocError>
    requires within { end.node < length claims.old.items }
    requires fits { end.base + (span.hi - span.lo) ≤ TOP }
    ensures count { OnOk result (length claims.new.items ≡ length claims.old.items) }
    ensures claimed { OnOk result ((node seer a : ℕ) → claimed claims.new.items node seer a
        ≡ (claimed claims.old.items node seer a || end_has agent span end node seer a)) }
{
    let span = Span {
        lo: end.base,
        hi: end.base + (span.hi - span.lo),
    };
    let claimed = &mut claims[usize::from(end.node)];
    claimed.push(Claim { span, agent })
}
