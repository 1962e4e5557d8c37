//! Normal rows: what segments give, as the fewest rows.

ghost use Rattle.std.specs.Prelude.{◌≡◌, ℕ, ◌+◌, ◌-◌, ◌≤◌, ◌<◌, ◌⊎◌, ◌||◌, ◌&&◌, nat_eq, true, take, drop, slice_index_or, IfOk, IfSome, is_some, length, IsTrue};
ghost use Rattle.std.specs.List.{All, Contains, list_any};
ghost use Rattle.std.specs.List.Sorted.{IsNonDecreasingBy, IsPartitionPoint};
ghost use Rattle.dn_interval.specs.declared.row.Seg.{Seg};
ghost use Rattle.dn_interval.specs.declared.row.End.{End};
ghost use Rattle.dn_interval.specs.declared.row.Row.{Row};
ghost use Rattle.dn_interval.specs.declared.strand.Strand.{Strand};
ghost use Rattle.dn_interval.specs.Terms.{Apart, AreNormal, Ascending, EndsFit, HasEnds, IsMaximal, SegmentsGive, ends_give, in_span, is_slid, rows_give, segs_give, slides_give, strands_give};

use crate::row::{End, Ends, Row, Seg};
use crate::span::{Span, TOP};
use crate::strand::Strand;
use crate::{runs, strands};
use dn_base::OutOfMemory;
use std::alloc::Global;
use std::marker::Model;

/// The normal rows of a function from addresses to sets of names.
#[derive(Drop)]
pub struct Rows {
    rows: Vec<Row>,
}

impl Model for Rows {
    ghost use Rattle.std.specs.Prelude.{List};
    ghost use Rattle.dn_interval.specs.declared.row.Row.{Row};

    ghost Value = { List Row };

    ghost use Rattle.std.specs.List.{All};
    ghost use Rattle.dn_interval.specs.Rows.{Apart, EndsFit};

    ghost view = { λ r. r.rows.items };

    ghost invariant = { λ r. record { apart : Apart 0 r.rows.items; fit : All EndsFit r.rows.items } };
}

impl Rows {
    /// The normal rows of the names that the segments give: time of a sort in the number of segments
    /// and of ends, and linear where each segment begins behind those before it.
    pub fn normal(alloc: Global, segs: &[Seg]) -> Result<Rows, OutOfMemory>
        ensures normal { IfOk result (λ rows. AreNormal (SegmentsGive segs.now) rows) }
        ensures covers { IfOk result (λ rows. (a : ℕ)
            → list_any (λ (r : Row). in_span r.span a) rows
            ≡ list_any (λ (s : Seg). in_span s.span a) segs.now) }
    {
        let rows = rows_of(alloc, segs)?;
        Ok(Rows { rows })
    }

    /// The row that has the address: a binary search. None exactly where no row has it.
    pub fn at(&self, a: u64) -> Option<&Row>
        ensures found { IfSome result (λ row. Contains self.now row.now
            × IsTrue (in_span row.now.span a)) }
        ensures none { is_some result ≡ list_any (λ (r : Row). in_span r.span a) self.now }
    {
        let rows = self.rows();
        let row = rows.get(ended_before(rows, a))?;
        if row.span.lo <= a { Some(row) } else { None }
    }

    /// The rows, ascending.
    pub fn rows(&self) -> &[Row]
        ensures value { result.now ≡ self.now }
        ensures apart { Apart 0 self.now }
        ensures fit { All EndsFit self.now }
    {
        self.rows.as_slice()
    }
}

/// How many of the rows end before an address.
pub(crate) fn ended_before(rows: &[Row], a: u64) -> usize
    requires { Apart 0 rows.now }
    ensures within { result ≤ length rows.now }
    ensures place { IsPartitionPoint (λ (r : Row). r.span.hi < a)
        (λ (r : Row). a ≤ r.span.hi) rows.now result }
{
    rows.partition_point(|row| row.span.hi < a)
}

/// The normal rows of segments.
fn rows_of(alloc: Global, segs: &[Seg]) -> Result<Vec<Row>, OutOfMemory>
    ensures same { IfOk result (λ rows. (a : ℕ) (y : End) → rows_give rows.items a y
        ≡ segs_give segs.now a y) }
    ensures apart { IfOk result (λ rows. Apart 0 rows.items) }
{
    if runs::are_in_turn(segs) {
        return runs::rows_in_turn(alloc, segs);
    }
    let strands = strands::strands_of(alloc, segs)?;
    sweep(alloc, strands.as_slice())
}

/// The rows of strands that come in the order of their first addresses. A row ends where a strand
/// ends and where one begins.
fn sweep(alloc: Global, strands: &[Strand]) -> Result<Vec<Row>, OutOfMemory>
    requires maximal { All (IsMaximal (strands_give strands.now)) strands.now }
    requires sorted { IsNonDecreasingBy (λ (s : Strand). s.span.lo) strands.now }
    ensures same { IfOk result (λ rows. (a : ℕ) (y : End) → rows_give rows.items a y
        ≡ strands_give strands.now a y) }
    ensures apart { IfOk result (λ rows. Apart 0 rows.items) }
{
    let mut rows = Vec::new(alloc);
    let mut running = Vec::new(alloc);
    let mut rest = strands;
    let mut from = 0;
    'rows: while !running.is_empty() || !rest.is_empty() {
        from = first_address(running.as_slice(), rest, from);
        let (begun, later) = rest.split_at(begin_count(rest, from));
        running.extend_from_slice(begun)?;
        rest = later;
        let hi = last_address(running.as_slice(), rest);
        rows.push(row(alloc, from, hi, running.as_slice())?)?;
        from = hi + 1;
        running.retain(|strand| from <= strand.span.hi);
    }
    Ok(rows)
}

/// Where the next row begins: where the last one ended, or, with no strand running, where the next begins.
fn first_address(running: &[Strand], rest: &[Strand], from: u64) -> u64
    requires some { 0 < length running.now + length rest.now }
    requires later { All (λ (s : Strand). from ≤ s.span.lo) rest.now }
    requires sorted { IsNonDecreasingBy (λ (s : Strand). s.span.lo) rest.now }
    ensures runs { 0 < length running.now → result ≡ from }
    ensures begins { (d : Strand) → length running.now ≡ 0
        → (slice_index_or rest.now 0 d).span.lo ≡ result }
    ensures onward { from ≤ result }
    ensures rest_stays { All (λ (s : Strand). result ≤ s.span.lo) rest.now }
{
    if running.is_empty() {
        rest[0].span.lo
    } else {
        from
    }
}

/// How many of the first strands begin at an address.
fn begin_count(rest: &[Strand], from: u64) -> usize
    requires later { All (λ (s : Strand). from ≤ s.span.lo) rest.now }
    requires sorted { IsNonDecreasingBy (λ (s : Strand). s.span.lo) rest.now }
    ensures within { result ≤ length rest.now }
    ensures begun { All (λ (s : Strand). s.span.lo ≡ from) (take result rest.now) }
    ensures later_ones { All (λ (s : Strand). from < s.span.lo) (drop result rest.now) }
{
    for (i, strand) in rest.iter().enumerate() {
        if strand.span.lo != from {
            return i;
        }
    }
    rest.len()
}

/// The last address before the first strand of some in the order of their first addresses.
fn before(rest: &[Strand]) -> u64
    requires later { All (λ (s : Strand). 0 < s.span.lo) rest.now }
    requires sorted { IsNonDecreasingBy (λ (s : Strand). s.span.lo) rest.now }
    ensures below { All (λ (s : Strand). result < s.span.lo) rest.now }
    ensures begins { (d : Strand) → 0 < length rest.now → (slice_index_or rest.now 0 d).span.lo
        ≡ result + 1 }
    ensures none { length rest.now ≡ 0 → result ≡ TOP }
{
    if rest.is_empty() {
        return TOP;
    }
    rest[0].span.lo - 1
}

/// The last address of the next row: one strand ends there, or one begins behind it.
fn last_address(running: &[Strand], rest: &[Strand]) -> u64
    requires some { 0 < length running.now }
    requires later { All (λ (s : Strand). 0 < s.span.lo) rest.now }
    requires sorted { IsNonDecreasingBy (λ (s : Strand). s.span.lo) rest.now }
    ensures runs_on { All (λ (s : Strand). result ≤ s.span.hi) running.now }
    ensures later_ones { All (λ (s : Strand). result < s.span.lo) rest.now }
    ensures reached { (list_any (λ (s : Strand). nat_eq s.span.hi result) running.now
        || list_any (λ (s : Strand). nat_eq s.span.lo (result + 1)) rest.now) ≡ true }
{
    let mut hi = before(rest);
    for strand in running {
        hi = hi.min(strand.span.hi);
    }
    hi
}

/// The row of the running strands.
fn row(alloc: Global, from: u64, hi: u64, running: &[Strand]) -> Result<Row, OutOfMemory>
    requires some { 0 < length running.now }
    requires ordered { from ≤ hi }
    requires within { hi ≤ TOP }
    requires running { All (λ (s : Strand). (s.span.lo ≤ from) × (hi ≤ s.span.hi)) running.now }
    ensures lo { IfOk result (λ row. row.span.lo ≡ from) }
    ensures hi { IfOk result (λ row. row.span.hi ≡ hi) }
    ensures gives { IfOk result (λ row. (a : ℕ) (y : End) → from ≤ a
        → ends_give row.ends from a y ≡ slides_give running.now a y) }
    ensures ascending { IfOk result (λ row. Ascending row.ends) }
    ensures some { IfOk result (λ row. HasEnds row.ends) }
{
    let ends = row_ends(alloc, from, running)?;
    Ok(Row {
        span: Span { lo: from, hi },
        ends,
    })
}

/// The names that strands give to an address, each once.
fn row_ends(alloc: Global, from: u64, running: &[Strand]) -> Result<Ends, OutOfMemory>
    requires some { 0 < length running.now }
    requires running { All (λ (s : Strand). (s.span.lo ≤ from) × (from ≤ s.span.hi)) running.now }
    ensures gives { IfOk result (λ ends. (a : ℕ) (y : End) → from ≤ a
        → ends_give ends from a y ≡ slides_give running.now a y) }
    ensures ascending { IfOk result (λ ends. Ascending ends) }
    ensures some { IfOk result (λ ends. HasEnds ends) }
{
    if running.len() == 1 {
        return Ok(Ends::one(alloc, end_at(from, &running[0])));
    }
    let mut ends = ends_at(alloc, from, running)?;
    ends.sort_unstable();
    ends.dedup();
    Ok(Ends::from_vec(ends))
}

/// The name that a strand gives to an address.
fn end_at(from: u64, strand: &Strand) -> End
    requires { (strand.now.span.lo ≤ from) × (from ≤ strand.now.span.hi) }
    ensures { (a : ℕ) (y : End) → from ≤ a
        → (nat_eq result.node y.node && nat_eq (result.base + (a - from)) y.base)
        ≡ is_slid strand.now.node strand.now.slide a y }
{
    End {
        node: strand.node,
        base: strand.slide + from - TOP,
    }
}

/// The name that each strand gives to an address.
fn ends_at(alloc: Global, from: u64, running: &[Strand]) -> Result<Vec<End>, OutOfMemory>
    requires { All (λ (s : Strand). (s.span.lo ≤ from) × (from ≤ s.span.hi)) running.now }
    ensures gives { IfOk result (λ ends. (a : ℕ) (y : End) → from ≤ a
        → ends_give ends.items from a y ≡ slides_give running.now a y) }
    ensures len { IfOk result (λ ends. length ends.items ≡ length running.now) }
{
    let mut ends = Vec::with_capacity(alloc, running.len())?;
    for strand in running {
        ends.push(end_at(from, strand))?;
    }
    Ok(ends)
}
