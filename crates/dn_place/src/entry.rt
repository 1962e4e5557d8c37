//! The stop of the address that is asked for: the one name that the first hop can enter.

ghost use Rattle.std.specs.Prelude.{◌≡◌, ◌<◌, ◌-◌, true, length, map, IfSome, IfNone, IsTrue};
ghost use Rattle.dn_interval.specs.declared.row.End.{End};
ghost use Rattle.dn_interval.specs.Terms.{EndsFit, GivenBy, HasEnds, Member, further_end, in_span};
ghost use Rattle.dn_flat.specs.Terms.{levels_give};
ghost use Rattle.dn_view.specs.Terms.{IsSystem};
ghost use Rattle.dn_place.specs.Terms.{IsEntry};

use dn_interval::{End, Row, Rows};
use dn_view::system::System;

/// The stop that an address of an agent reaches, if one is asked for.
pub(crate) fn entry_of(system: System, agent: u16, at: Option<u64>) -> Option<End>
    requires system { IsSystem meaning system }
    requires there { agent < length system.on.net.now }
    ensures { IsEntry system.entry.on.net.now agent at result }
{
    match at {
        Some(at) => stop_of(system.flats.of(agent).stops.as_slice(), at),
        None => None,
    }
}

/// The first of the names that levels give to an address, if they give one.
fn stop_of(levels: &[Rows], a: u64) -> Option<End>
    ensures given { IfSome result (λ z. levels_give levels.now a z ≡ true) }
    ensures none { IfNone result ((z : End) → levels_give levels.now a z ≡ true → ⊥) }
{
    for level in levels {
        if let Some(end) = stop_in(level, a) {
            return Some(end);
        }
    }
    None
}

/// The first of the names that rows give to an address, if they give one.
fn stop_in(rows: &Rows, a: u64) -> Option<End>
    ensures given { IfSome result (λ z. GivenBy rows.now a z) }
    ensures none { IfNone result ((z : End) → GivenBy rows.now a z → ⊥) }
{
    let _all = rows.rows();
    let row = rows.at(a)?;
    Some(first_end(row, a))
}

/// The first of the names that the row gives to the address.
fn first_end(row: &Row, a: u64) -> End
    requires some { HasEnds row.now.ends }
    requires fit { EndsFit row.now }
    requires inside { IsTrue (in_span row.now.span a) }
    ensures { Member result (map (further_end (a - row.now.span.lo)) row.now.ends) }
{
    let end = row.ends()[0];
    End {
        node: end.node,
        base: end.base + (a - row.span.lo),
    }
}
