//! The first outputs that show exactly the pieces.

ghost use Rattle.std.specs.Prelude.{◌≡◌, ◌^◌, ◌≤◌, ◌↔◌, IfOk, IfSome, IsTrue, None};
ghost use Rattle.dn_tables.specs.declared.placement.Hop.{Hop};
ghost use Rattle.dn_kind.specs.Terms.{kinds_of};
ghost use Rattle.dn_tables.specs.Terms.{record_kept};
ghost use Rattle.dn_placement.specs.Terms.{IsAdmissible, IsPlacement};
ghost use Rattle.dn_gather.specs.Terms.{AreAt, AreExitsOn, FirstFor, IsFirstHop, IsGround, IsSized, IsSuitedHop, NoneFor, StandsOn, at_hop, request_for, wanted_slots};

use crate::ground::Ground;
use crate::outputs::{agreeing_from, agrees_at};
use crate::part::part_at;
use crate::piece::{Piece, piece_request};
use dn_base::OutOfMemory;
use dn_place::exits::Exit;
use dn_place::slots::power;
use dn_tables::placement::{Hop, Placement};
use dn_view::exact::exact;
use std::alloc::Global;

/// For each piece the first hop at its input that is admissible by itself. `None` exactly where a piece has none.
pub(crate) fn choice(
    alloc: Global,
    ground: Ground,
    v: u64,
    xs: &[u64],
) -> Result<Option<Vec<Hop>>, OutOfMemory>
    requires ground { IsGround meaning ground }
    requires few { v ≤ 2 ^ 57 }
    requires stands { AreAt (StandsOn ground) ground.translator.now.page v
        ground.wanted.pieces.now xs.now }
    ensures some { IfOk result (λ found. IfSome found (λ hops.
        FirstFor meaning ground.entry.wanted ground.entry.unit v hops.items)) }
    ensures none { IfOk result (λ found. found ≡ None →
        NoneFor meaning ground.entry.wanted ground.entry.unit v) }
{
    let mut hops = Vec::new(alloc);
    let mut i = xs.len();
    'pieces: while i > 0 {
        i -= 1;
        let part = part_at(ground, v, i);
        let Some(hop) = first_hop(alloc, ground, part.piece, part.exits, part.a, xs[i])? else {
            return Ok(None);
        };
        hops.insert(0, hop)?;
    }
    Ok(Some(hops))
}

/// The first hop at an input that shows exactly a piece at an address of the agent.
fn first_hop(
    alloc: Global,
    ground: Ground,
    piece: Piece,
    exits: &[Exit],
    a: u64,
    x: u64,
) -> Result<Option<Hop>, OutOfMemory>
    requires ground { IsGround meaning ground }
    requires sized { IsSized piece }
    requires exits { AreExitsOn ground piece exits.now }
    requires stands { StandsOn ground piece a x }
    ensures some { IfOk result (λ found. IfSome found (λ hop. IsFirstHop
        ground.entry.wanted.system.on.net.now (wanted_slots meaning ground.entry.wanted)
        (request_for ground.entry.wanted piece) ground.entry.unit a hop)) }
    ensures input { IfOk result (λ found. IfSome found (λ hop. hop.x ≡ x)) }
    ensures none { IfOk result (λ found. found ≡ None → (hop : Hop) → IsSuitedHop
        ground.entry.wanted.system.on.net.now (wanted_slots meaning ground.entry.wanted)
        (request_for ground.entry.wanted piece) ground.entry.unit a hop → ⊥) }
{
    let page = ground.translator.page;
    let place = x % power(page);
    let from = agreeing_from(exits, page, place);
    let mut k = from;
    'outputs: while agrees_at(exits, k, page, place) {
        let hop = hop_of(ground.unit, exits[k], x);
        if is_exact(alloc, ground, piece, a, hop)? {
            return Ok(Some(hop));
        }
        k += 1;
    }
    Ok(None)
}

/// The hop of an output and an input.
fn hop_of(unit: u16, exit: Exit, x: u64) -> Hop
    ensures { result ≡ record { unit = unit; port = exit.port; x = x; y = exit.y } }
{
    Hop {
        unit,
        port: exit.port,
        x,
        y: exit.y,
    }
}

/// Whether a hop shows exactly a piece at an address of the agent.
fn is_exact(
    alloc: Global,
    ground: Ground,
    piece: Piece,
    a: u64,
    hop: Hop,
) -> Result<bool, OutOfMemory>
    requires ground { IsGround meaning ground }
    requires placed { IsPlacement ground.wanted.system.on.net.now
        (wanted_slots meaning ground.wanted) (request_for ground.wanted piece) (at_hop a hop) }
    ensures { IfOk result (λ yes. IsTrue yes ↔ IsAdmissible ground.entry.wanted.system.on.net.now
        (record_kept (kinds_of meaning ground.entry.wanted.system.on.kinds.now)
        ground.entry.wanted.tables.now) (request_for ground.entry.wanted piece) (at_hop a hop)) }
{
    let request = piece_request(ground.wanted.agent, ground.wanted.rights, piece);
    let placement = Placement::new(alloc, a, &[hop], 0);
    exact(
        alloc,
        ground.wanted.system,
        ground.wanted.tables,
        &request,
        &placement,
    )
}
