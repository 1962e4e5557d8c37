//! Where an agent's addresses enter a unit.

ghost use Rattle.std.specs.Prelude.{◌≡◌, ℕ, ◌+◌, ◌-◌, ◌<◌, ◌≤◌, IfOk, IfSome, IfNone, IsTrue, length};
ghost use Rattle.dn_interval.specs.declared.span.TheConstants.{TOP};
ghost use Rattle.dn_interval.specs.Terms.{EndsFit, in_span};
ghost use Rattle.dn_view.specs.Terms.{IsSystem};
ghost use Rattle.dn_place.specs.Terms.{HasUnitBounds, InRow};
ghost use Rattle.dn_gather.specs.Terms.{AreWindows, Enters, IsGround, inputs};

use crate::ground::Ground;
use dn_base::OutOfMemory;
use dn_interval::{End, Row, Rows};
use dn_net::node::Unit;
use dn_place::rows::near_rows;
use dn_place::slots::power;
use dn_view::system::System;
use std::alloc::Global;

/// How many inputs a unit has.
pub(crate) fn inputs(translator: &Unit) -> u64
    requires page { translator.now.page ≤ 40 }
    requires slots { translator.now.slots ≤ 262144 }
    ensures { result ≡ inputs translator.now }
{
    u64::from(translator.slots) * power(translator.page)
}

/// The rows of an agent's addresses that enter a unit.
pub(crate) fn windows(
    alloc: Global,
    system: System,
    agent: u16,
    unit: u16,
    translator: &Unit,
) -> Result<Rows, OutOfMemory>
    requires system { IsSystem meaning system }
    requires there { agent < length system.on.net.now }
    requires bounds { HasUnitBounds system.on.net.now translator.now }
    ensures { IfOk result (λ rows. AreWindows system.entry.on.net.now
        agent unit (inputs translator.now) rows) }
{
    let first = End {
        node: unit,
        base: 0,
    };
    let stops = system.flats.of(agent).stops.as_slice();
    near_rows(alloc, stops, first, inputs(translator))
}

/// The input at which so many addresses of the agent, from one on, enter the unit one after another, where they do so.
pub(crate) fn input_at(ground: Ground, a: u64, size: u64) -> Option<u64>
    requires ground { IsGround meaning ground }
    requires some { 1 ≤ size }
    ensures some { IfSome result (λ x. Enters ground.entry.wanted.system.on.net.now
        ground.entry.wanted.agent a size ground.entry.unit x) }
    ensures fits { IfSome result (λ x. a + size ≤ TOP + 1) }
    ensures few { IfSome result (λ x. x ≤ TOP) }
    ensures none { IfNone result ((x : ℕ) → a + size ≤ TOP + 1 →
        x + size ≤ inputs ground.entry.translator.now →
        Enters ground.entry.wanted.system.on.net.now
        ground.entry.wanted.agent a size ground.entry.unit x → ⊥) }
{
    let _all = ground.windows.rows();
    let row = ground.windows.at(a)?;
    input_in(row, ground.unit, a, size)
}

/// The name of a unit that a row gives to an address, where it gives no other, and the names after it to so many
/// addresses.
pub(crate) fn input_in(row: &Row, unit: u16, a: u64, size: u64) -> Option<u64>
    requires some { 1 ≤ size }
    requires inside { IsTrue (in_span row.now.span a) }
    requires fit { EndsFit row.now }
    ensures some { IfSome result (λ x. InRow row.now (record { node = unit; base = x }) size a) }
    ensures few { IfSome result (λ x. x ≤ TOP) }
    ensures none { IfNone result ((x : ℕ) →
        InRow row.now (record { node = unit; base = x }) size a → ⊥) }
{
    let ends = row.ends();
    if ends.len() != 1 || ends[0].node != unit || row.span.hi - a < size - 1 {
        return None;
    }
    Some(ends[0].base + (a - row.span.lo))
}
