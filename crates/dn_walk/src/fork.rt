//! The least name that goes several ways and reaches a unit.

ghost use Rattle.std.specs.Prelude.{◌≡◌, ◌<◌, nat_lt, length, map};
ghost use Rattle.std.specs.List.{All};
ghost use Rattle.dn_net.specs.Terms.{name_eq, steps};
ghost use Rattle.dn_walk.specs.declared.walks.WalkRow.{WalkRow};
ghost use Rattle.dn_walk.specs.Terms.{IsLeastShown, fork_before, lesser_fork, row_view, shows_fork, start_name, with_shown};

use crate::walks::WalkRow;
use crate::way::is_before;
use dn_net::checked::CheckedNet;
use dn_net::node::Name;
use dn_net::step::Step;

/// A name with two or more destinations, and a unit that it reaches.
#[derive(Clone, Copy)]
pub(crate) struct FoundFork {
    pub name: Name,
    pub unit: u16,
}

/// The least fork that the rows show, by its name and then by its unit. The first address of a row
/// has as many destinations as each other.
pub(crate) fn least_fork(checked: CheckedNet, rows: &[WalkRow]) -> Option<FoundFork>
    requires starts { All (λ (r : WalkRow). r.start < length checked.net.now) rows.now }
    requires ends { All (λ (r : WalkRow). r.end < length checked.net.now) rows.now }
    ensures { IsLeastShown checked.entry.net.now (map row_view rows.now) result }
{
    let mut least = None;
    for row in rows {
        least = lesser_shown(checked, least, row);
    }
    least
}

/// The lesser of a fork and the one that the row shows, if it shows one.
fn lesser_shown(checked: CheckedNet, least: Option<FoundFork>, row: &WalkRow) -> Option<FoundFork>
    requires start { row.now.start < length checked.net.now }
    requires end { row.now.end < length checked.net.now }
    ensures { result ≡ with_shown checked.entry.net.now least (row_view row.now) }
{
    if !is_fork(checked, row) {
        return least;
    }
    lesser_fork(
        least,
        FoundFork {
            name: first_name(row),
            unit: row.end,
        },
    )
}

/// Whether the row ends in a unit, and its first name has two or more destinations.
fn is_fork(checked: CheckedNet, row: &WalkRow) -> bool
    requires start { row.now.start < length checked.net.now }
    requires end { row.now.end < length checked.net.now }
    ensures { result ≡ shows_fork checked.entry.net.now (row_view row.now) }
{
    checked.net.is_unit(row.end) && has_several_steps(checked, first_name(row))
}

fn has_several_steps(checked: CheckedNet, name: Name) -> bool
    requires there { name.node < length checked.net.now }
    ensures { result ≡ nat_lt 1 (length (steps checked.entry.net.now name)) }
{
    match checked.net.step(name) {
        Step::To(dests, _offset) => dests.len() > 1,
        Step::Accepted | Step::Stop | Step::Nothing => false,
    }
}

/// The first name that follows the walk.
fn first_name(row: &WalkRow) -> Name
    ensures { result ≡ start_name (row_view row.now) }
{
    Name {
        node: row.start,
        addr: row.span.lo,
    }
}

/// The lesser of two forks.
fn lesser_fork(least: Option<FoundFork>, fork: FoundFork) -> Option<FoundFork>
    ensures { result ≡ lesser_fork least fork }
{
    match least {
        Some(other) if !comes_before(fork, other) => least,
        _ => Some(fork),
    }
}

/// Whether a fork comes before another, by its name and then by its unit.
fn comes_before(fork: FoundFork, other: FoundFork) -> bool
    ensures { result ≡ fork_before fork other }
{
    is_before(fork.name, other.name) || (is_same(fork.name, other.name) && fork.unit < other.unit)
}

fn is_same(name: Name, other: Name) -> bool
    ensures { result ≡ name_eq name other }
{
    name.node == other.node && name.addr == other.addr
}
