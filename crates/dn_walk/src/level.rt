//! The live walks of a net, level by level: those of each length from those of one choice fewer.

ghost use Rattle.std.specs.Prelude.{◌≡◌, ◌+◌, ◌-◌, ◌≤◌, ◌<◌, ◌++◌, ◌∷◌, [], map, filter, length, vec_len, IfOk, IfErr, OnOk, IsTrue, List};
ghost use Rattle.std.specs.List.{All, flat_map};
ghost use Rattle.std.specs.List.Sorted.{IsNonDecreasingBy};
ghost use Rattle.dn_interval.specs.declared.row.Seg.{Seg};
ghost use Rattle.dn_net.specs.Terms.{in_order, walk_limit};
ghost use Rattle.dn_walk.specs.Terms.{AreLegs, AreWalkLevels, IsRowOf, IsWideWhere, BareLeg, bare_before, bare_extensions, bare_meets, bare_onto, bare_still_walks, bare_walks, leg_view, row_view};

use crate::fault::WalkFault;
use crate::leg::Legs;
use crate::walks::WalkRow;
use dn_base::items::Items;
use dn_interval::onward::{cut, last_out};
use dn_interval::{End, Seg, Span, TOP};
use std::alloc::{AllocError, Global};

/// The most live walks.
pub(crate) const WALK_LIMIT: usize = 1_048_576;

/// The levels of walks that have been made, from that of the walks of no choice on.
#[derive(Drop)]
pub(crate) struct WalkLevels {
    /// Each level but the newest, by start and by the first and the last address of the span.
    pub sorted: Vec<Items<WalkRow>>,
    /// The newest level, in the order in which it was made.
    pub newest: Vec<WalkRow>,
    /// How many more walks there may be.
    pub room: usize,
}

impl WalkLevels {
    /// The level of the walks of no choice.
    pub(crate) fn new(alloc: Global, nodes: u16) -> Result<WalkLevels, AllocError>
        ensures begun { IfOk result (λ l. length l.sorted.items ≡ 0) }
        ensures levels { IfOk result (λ l. (legs : List (List BareLeg)) → length legs ≡ nodes
            → AreWalkLevels legs l) }
    {
        Ok(WalkLevels {
            sorted: Vec::new(alloc),
            newest: still_rows(alloc, nodes)?,
            room: WALK_LIMIT,
        })
    }

    /// These levels and the next one. `Wide` exactly where there is no room for it.
    pub(crate) fn with_next(self, alloc: Global, legs: &Legs) -> Result<WalkLevels, WalkFault>
        requires legs { All (AreLegs (length legs.now)) legs.now }
        requires levels { AreWalkLevels legs.now self }
        requires shallow { length self.sorted.items ≤ 64 }
        ensures levels { IfOk result (λ l. AreWalkLevels legs.now l) }
        ensures one_more { IfOk result (λ l. length l.sorted.items ≡ length self.sorted.items + 1) }
        ensures wide { IfErr result (IsWideWhere
            (walk_limit < length (bare_walks legs.now (length self.sorted.items + 1)))) }
    {
        let WalkLevels {
            mut sorted,
            newest,
            room,
        } = self;
        let next = extended_rows(alloc, legs, &newest, room)?;
        let level = in_order(newest)?;
        sorted.push(level).or(Err(WalkFault::OutOfMemory))?;
        let room = room - next.len();
        Ok(WalkLevels {
            sorted,
            newest: next,
            room,
        })
    }
}

/// The walk of no choice from each node: each address comes to itself.
fn still_rows(alloc: Global, nodes: u16) -> Result<Vec<WalkRow>, AllocError>
    ensures { IfOk result (λ v. map row_view v.items ≡ bare_still_walks 0 nodes) }
{
    let mut rows = Vec::with_capacity(alloc, usize::from(nodes))?;
    for node in 0..nodes {
        rows.push(WalkRow {
            start: node,
            span: Span { lo: 0, hi: TOP },
            end: node,
            base: 0,
            len: 0,
        })?;
    }
    Ok(rows)
}

/// The rows by start and by the first and the last address of the span. Where these are equal they stay
/// in the order in which they come.
fn in_order(mut rows: Vec<WalkRow>) -> Result<Items<WalkRow>, AllocError>
    ensures { IfOk result (λ l. map row_view l
        ≡ in_order bare_before (map row_view rows.items)) }
{
    rows.sort_by_key(|row| (row.start, row.span.lo, row.span.hi))?;
    Ok(Items::from_vec(rows))
}

/// Each walk that goes on from a row by one more choice. `Wide` exactly where there are more than `room`.
fn extended_rows(
    alloc: Global,
    legs: &Legs,
    rows: &[WalkRow],
    room: usize,
) -> Result<Vec<WalkRow>, WalkFault>
    requires legs { All (AreLegs (length legs.now)) legs.now }
    requires rows { All (λ r. IsRowOf (length legs.now) 64 (row_view r)) rows.now }
    ensures made { IfOk result (λ v. map row_view v.items
        ≡ flat_map (bare_extensions legs.now) (map row_view rows.now)) }
    ensures fits { IfOk result (λ v. vec_len v ≤ room) }
    ensures wide { IfErr result (IsWideWhere (room < length (flat_map (bare_extensions legs.now)
        (map row_view rows.now)))) }
{
    let mut out = Vec::new(alloc);
    for row in rows {
        let met = met_by(row, legs.of(row.end));
        if room - out.len() < met.len() {
            return Err(WalkFault::Wide);
        }
        extend_row(row, met, &mut out)?;
    }
    Ok(out)
}

/// The legs of the end node that have an address at which the walk comes out.
pub fn met_by<'a>(row: &WalkRow, legs: &'a [Seg]) -> &'a [Seg]
    requires reach { row.now.base + (row.now.span.hi - row.now.span.lo) ≤ TOP }
    requires firsts { IsNonDecreasingBy (λ (s : Seg). s.span.lo) legs.now }
    requires lasts { IsNonDecreasingBy (λ (s : Seg). s.span.hi) legs.now }
    ensures { result.now ≡ filter (λ s. bare_meets (row_view row.now) (leg_view s)) legs.now }
{
    let base = row.base;
    let last = last_out(row.seg());
    let first = legs.partition_point(|leg| leg.span.hi < base);
    let end = legs.partition_point(|leg| leg.span.lo <= last);
    &legs[first..end]
}

/// Appends the walk with each of the legs as one more choice.
pub fn extend_row(row: &WalkRow, met: &[Seg], out: &mut Vec<WalkRow>) -> Result<(), AllocError>
    requires reach { row.now.base + (row.now.span.hi - row.now.span.lo) ≤ TOP }
    requires short { row.now.len ≤ 64 }
    requires meet { All (λ s. IsTrue (bare_meets (row_view row.now) (leg_view s))) met.now }
    ensures { OnOk result (map row_view out.new.items
        ≡ map row_view out.old.items ++ map (bare_onto (row_view row.now)) (map leg_view met.now)) }
{
    for leg in met {
        out.push(onto(row, *leg))?;
    }
    Ok(())
}

/// The walk with one more choice, for the addresses that go on by its leg.
fn onto(row: &WalkRow, leg: Seg) -> WalkRow
    requires reach { row.now.base + (row.now.span.hi - row.now.span.lo) ≤ TOP }
    requires short { row.now.len ≤ 64 }
    requires meet { IsTrue (bare_meets (row_view row.now) (leg_view leg)) }
    ensures { row_view result ≡ bare_onto (row_view row.now) (leg_view leg) }
{
    let to = End {
        node: leg.node,
        base: leg.base,
    };
    let part = cut(row.seg(), leg.span, to);
    WalkRow {
        start: row.start,
        span: part.span,
        end: part.node,
        base: part.base,
        len: row.len + 1,
    }
}
