//! A set of addresses, kept as its maximal spans.

ghost use Rattle.std.specs.Prelude.{◌≡◌, ℕ, ◌≤◌, ◌<◌, ◌+◌, ◌&&◌, ◌||◌, ◌++◌, ◌∷◌, not, [], take, drop, vec_len, length, IfOk, OnOk, OnErr};
ghost use Rattle.std.specs.List.{All};
ghost use Rattle.std.specs.List.Sorted.{IsPartitionPoint};
ghost use Rattle.dn_interval.specs.declared.span.Span.{Span};
ghost use Rattle.dn_interval.specs.Terms.{AreMaximal, has, in_span};

use crate::span::{Span, TOP};
use dn_base::OutOfMemory;
use std::alloc::Global;
use std::marker::Model;

/// A set of addresses up to [`TOP`], which contracts see as the ascending list of its maximal spans.
#[derive(Drop)]
pub struct SpanSet {
    spans: Vec<Span>,
}

impl Model for SpanSet {
    ghost use Rattle.std.specs.Prelude.{List};
    ghost use Rattle.dn_interval.specs.declared.span.Span.{Span};

    ghost Value = { List Span };

    ghost use Rattle.dn_interval.specs.Spans.{AreMaximal};

    ghost view = { λ s. s.spans.items };

    ghost invariant = { λ s. AreMaximal s.spans.items };
}

impl SpanSet {
    /// The empty set, which keeps the allocator and takes no memory.
    pub fn new(alloc: Global) -> SpanSet
        ensures { result ≡ [] }
    {
        SpanSet {
            spans: Vec::new(alloc),
        }
    }

    /// The maximal spans, ascending: between two of them at least one address is not in the set.
    pub fn spans(&self) -> &[Span]
        ensures value { result.now ≡ self.now }
        ensures maximal { AreMaximal self.now }
    {
        self.spans.as_slice()
    }

    /// Whether the address is in the set: a binary search.
    pub fn contains(&self, a: u64) -> bool
        ensures { result ≡ has self.now a }
    {
        let spans = self.spans();
        match spans.get(ended_before(spans, a)) {
            Some(span) => span.lo <= a,
            None => false,
        }
    }

    /// Adds the span's addresses. For want of memory the set is unchanged.
    pub fn insert(&mut self, span: Span) -> Result<(), OutOfMemory>
        ensures ok { OnOk result ((a : ℕ) → has self.new a ≡ (in_span span a || has self.old a)) }
        ensures err { OnErr result (self.new ≡ self.old) }
        ensures maximal { AreMaximal self.new }
    {
        let spans = self.spans.as_slice();
        let first = ended_before(spans, span.lo.saturating_sub(1));
        let last = begun_by(spans, span.hi + 1);
        let joined = join(span, &spans[first..last]);
        put(&mut self.spans, first, last, joined)
    }

    /// The addresses that are in both sets.
    pub fn meet(&self, alloc: Global, other: &SpanSet) -> Result<SpanSet, OutOfMemory>
        ensures same { IfOk result (λ met. (a : ℕ) → has met a ≡ (has self.now a
            && has other.now a)) }
        ensures maximal { IfOk result (λ met. AreMaximal met) }
    {
        let spans = common_spans(alloc, self.spans(), other.spans())?;
        Ok(SpanSet { spans })
    }

    /// The addresses up to [`TOP`] that are not in the set.
    pub fn complement(&self, alloc: Global) -> Result<SpanSet, OutOfMemory>
        ensures same { IfOk result (λ rest. (a : ℕ) → a ≤ TOP → has rest a ≡ not (has self.now a)) }
        ensures maximal { IfOk result (λ rest. AreMaximal rest) }
    {
        let spans = holes(alloc, self.spans())?;
        Ok(SpanSet { spans })
    }
}

/// How many of the spans end before an address.
fn ended_before(spans: &[Span], a: u64) -> usize
    requires { AreMaximal spans.now }
    ensures within { result ≤ length spans.now }
    ensures place { IsPartitionPoint (λ (s : Span). s.hi < a)
        (λ (s : Span). a ≤ s.hi) spans.now result }
{
    spans.partition_point(|span| span.hi < a)
}

/// How many of the spans begin at an address or before it.
fn begun_by(spans: &[Span], a: u64) -> usize
    requires { AreMaximal spans.now }
    ensures within { result ≤ length spans.now }
    ensures place { IsPartitionPoint (λ (s : Span). s.lo ≤ a)
        (λ (s : Span). a < s.lo) spans.now result }
{
    spans.partition_point(|span| span.lo <= a)
}

/// One span for a span and those that touch it.
fn join(span: Span, touched: &[Span]) -> Span
    requires apart { AreMaximal touched.now }
    requires touch { All (λ t. (t.lo ≤ span.hi + 1) × (span.lo ≤ t.hi + 1)) touched.now }
    ensures { (a : ℕ) → in_span result a ≡ (in_span span a || has touched.now a) }
{
    if touched.is_empty() {
        return span;
    }
    let first = touched[0];
    let last = touched[touched.len() - 1];
    Span {
        lo: span.lo.min(first.lo),
        hi: span.hi.max(last.hi),
    }
}

/// Puts one span in the place of those from `first` up to and without `last`.
fn put(spans: &mut Vec<Span>, first: usize, last: usize, span: Span) -> Result<(), OutOfMemory>
    requires ordered { first ≤ last }
    requires within { last ≤ vec_len spans.old }
    ensures ok { OnOk result (spans.new.items
        ≡ take first spans.old.items ++ span ∷ drop last spans.old.items) }
    ensures err { OnErr result (spans.new.items ≡ spans.old.items) }
{
    if first == last {
        spans.insert(first, span)?;
    } else {
        spans[first] = span;
        spans.drain(first + 1..last);
    }
    Ok(())
}

/// The maximal spans of the addresses that both lists have.
fn common_spans(alloc: Global, ours: &[Span], theirs: &[Span]) -> Result<Vec<Span>, OutOfMemory>
    requires ours { AreMaximal ours.now }
    requires theirs { AreMaximal theirs.now }
    ensures same { IfOk result (λ met. (a : ℕ) → has met.items a ≡ (has ours.now a
        && has theirs.now a)) }
    ensures maximal { IfOk result (λ met. AreMaximal met.items) }
{
    let mut met = Vec::new(alloc);
    let mut i = 0;
    let mut j = 0;
    'pairs: while i < ours.len() && j < theirs.len() {
        let (our, their) = (ours[i], theirs[j]);
        let lo = our.lo.max(their.lo);
        let hi = our.hi.min(their.hi);
        if lo <= hi {
            met.push(Span { lo, hi })?;
        }
        if our.hi < their.hi {
            i += 1;
        } else {
            j += 1;
        }
    }
    Ok(met)
}

/// The maximal spans of the addresses up to [`TOP`] that a list leaves out.
fn holes(alloc: Global, spans: &[Span]) -> Result<Vec<Span>, OutOfMemory>
    requires { AreMaximal spans.now }
    ensures same { IfOk result (λ holes. (a : ℕ) → a ≤ TOP → has holes.items a
        ≡ not (has spans.now a)) }
    ensures maximal { IfOk result (λ holes. AreMaximal holes.items) }
{
    let mut holes = Vec::new(alloc);
    let mut from = 0;
    for span in spans {
        if from < span.lo {
            let hi = span.lo - 1;
            holes.push(Span { lo: from, hi })?;
        }
        from = span.hi + 1;
    }
    if from <= TOP {
        holes.push(Span { lo: from, hi: TOP })?;
    }
    Ok(holes)
}
