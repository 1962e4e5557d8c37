//! The names of a cycle or a path: at each place the least name from which the rest can be taken.

ghost use Rattle.std.specs.Prelude.{◌≡◌, ◌+◌, ◌≤◌, ◌<◌, ◌∷◌, ◌||◌, not, map, filter, length, IfOk, IsTrue, None, nat_le};
ghost use Rattle.std.specs.List.{All, list_all};
ghost use Rattle.std.specs.List.Sorted.{IsNonDecreasingBy};
ghost use Rattle.dn_net.specs.Terms.{dest_name, name_lt, steps, top, way_by};
ghost use Rattle.dn_walk.specs.declared.walks.WalkRow.{WalkRow};
ghost use Rattle.dn_walk.specs.Terms.{bare_leads, is_cyclic, least_of, lesser_name, level_leads, row_view, start_names, walk_levels_lead};

use crate::walks::WalkRow;
use dn_base::items::Items;
use dn_net::checked::CheckedNet;
use dn_net::node::{Dest, Name};
use dn_net::step::Step;
use std::alloc::{AllocError, Global};

/// Where a way is to lead.
#[derive(Clone, Copy)]
pub(crate) enum Goal {
    Anywhere,
    To(Name),
}

/// The least name that follows one of the rows; where `back` is set, of those that come back to where
/// they began.
pub(crate) fn least_start(rows: &[WalkRow], back: bool) -> Option<Name>
    ensures { result ≡ least_of (start_names back (map row_view rows.now)) }
{
    let mut least = None;
    for row in rows {
        if counts(row, back) {
            least = lesser_name(
                least,
                Name {
                    node: row.start,
                    addr: row.span.lo,
                },
            );
        }
    }
    least
}

/// Whether the row is sought: any, or where `back` is set one that comes back.
fn counts(row: &WalkRow, back: bool) -> bool
    ensures { result ≡ (not back || is_cyclic (row_view row.now)) }
{
    !back || is_cycle(row)
}

/// Whether each address of the walk comes to itself.
fn is_cycle(row: &WalkRow) -> bool
    ensures { result ≡ is_cyclic (row_view row.now) }
{
    row.start == row.end && row.base == row.span.lo
}

/// The lesser of two names.
fn lesser_name(least: Option<Name>, name: Name) -> Option<Name>
    ensures { result ≡ lesser_name least name }
{
    match least {
        Some(other) if !is_before(name, other) => least,
        _ => Some(name),
    }
}

/// Whether a name comes before another, by node and by address.
pub(crate) fn is_before(name: Name, other: Name) -> bool
    ensures { result ≡ name_lt name other }
{
    name.node < other.node || (name.node == other.node && name.addr < other.addr)
}

/// The names from the first one on, as many steps as there are levels: at each place the least step from
/// which a row of the level of what is left leads to the goal.
pub(crate) fn way(
    alloc: Global,
    checked: CheckedNet,
    levels: &[Items<WalkRow>],
    first: Name,
    goal: Goal,
) -> Result<Items<Name>, AllocError>
    requires there { first.node < length checked.net.now }
    requires sorted { All (λ level. IsNonDecreasingBy (λ (r : WalkRow). r.start) level) levels.now }
    ensures { IfOk result (λ names. names
        ≡ first ∷ way_by (steps checked.entry.net.now) (walk_levels_lead goal
        (map (map row_view) levels.now)) (length levels.now) first) }
{
    let mut names = Items::new(alloc);
    names.push(first)?;
    let mut name = first;
    let mut left = levels.len();
    while left > 0 {
        left -= 1;
        let Some(next) = least_step(checked, name, levels[left].as_slice(), goal) else {
            return Ok(names);
        };
        names.push(next)?;
        name = next;
    }
    Ok(names)
}

/// The least step of a name from which a row of the level leads to the goal.
fn least_step(checked: CheckedNet, name: Name, level: &[WalkRow], goal: Goal) -> Option<Name>
    requires there { name.node < length checked.net.now }
    requires sorted { IsNonDecreasingBy (λ (r : WalkRow). r.start) level.now }
    ensures { result ≡ least_of (filter (level_leads goal
        (map row_view level.now)) (steps checked.entry.net.now name)) }
{
    match checked.net.step(name) {
        Step::To(dests, offset) => least_leading(dests, offset, level, goal),
        Step::Accepted | Step::Stop | Step::Nothing => None,
    }
}

fn least_leading(dests: &[Dest], offset: u64, level: &[WalkRow], goal: Goal) -> Option<Name>
    requires reach { IsTrue (list_all (λ d. nat_le (d.addr + offset) top) dests.now) }
    requires sorted { IsNonDecreasingBy (λ (r : WalkRow). r.start) level.now }
    ensures { result ≡ least_of (filter (level_leads goal (map row_view level.now))
        (map (dest_name offset) dests.now)) }
{
    let mut least = None;
    for dest in dests {
        let name = Name {
            node: dest.node,
            addr: dest.addr + offset,
        };
        if does_lead(level, name, goal) {
            least = lesser_name(least, name);
        }
    }
    least
}

/// Whether a row of the level leads from the name to the goal. The rows stand by start.
fn does_lead(level: &[WalkRow], name: Name, goal: Goal) -> bool
    requires { IsNonDecreasingBy (λ (r : WalkRow). r.start) level.now }
    ensures { result ≡ level_leads goal (map row_view level.now) name }
{
    let first = level.partition_point(|row| row.start < name.node);
    let end = level.partition_point(|row| row.start <= name.node);
    for row in &level[first..end] {
        if leads(row, name, goal) {
            return true;
        }
    }
    false
}

/// Whether the row leads from an address of its start to the goal.
fn leads(row: &WalkRow, name: Name, goal: Goal) -> bool
    ensures { result ≡ bare_leads goal name (row_view row.now) }
{
    if row.start != name.node || !row.span.contains(name.addr) {
        return false;
    }
    match goal {
        Goal::Anywhere => true,
        Goal::To(to) => {
            row.end == to.node
                && row.base <= to.addr
                && to.addr - row.base == name.addr - row.span.lo
        }
    }
}
