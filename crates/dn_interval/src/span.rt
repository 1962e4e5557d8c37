//! An address, and a span of addresses.

ghost use Rattle.std.specs.Prelude.{◌≡◌, ◌≤◌, ◌<◌, ◌↔◌, ◌⊎◌, IfSome, IsNone};
ghost use Rattle.dn_interval.specs.declared.span.TheConstants.{TOP};

/// The last address, `2^56 - 1`.
pub const TOP: u64 = 0xff_ffff_ffff_ffff;

/// The addresses from `lo` to `hi`, both of them included. It is never empty, and ends at [`TOP`] or before.
#[derive(Clone, Copy, Debug, PartialEq, Eq, PartialOrd, Ord)]
pub struct Span {
    pub lo: u64,
    pub hi: u64,
    pub ghost ordered: { lo ≤ hi },
    pub ghost within: { hi ≤ TOP },
}

impl Span {
    ghost use Rattle.dn_interval.specs.Spans.{in_span};

    /// The span from `lo` to `hi`. None exactly where `lo` is past `hi`, or `hi` past [`TOP`].
    pub fn new(lo: u64, hi: u64) -> Option<Span>
        ensures some { IfSome result (λ span. (span.lo ≡ lo) × (span.hi ≡ hi)) }
        ensures none { IsNone result ↔ ((hi < lo) ⊎ (TOP < hi)) }
    {
        if lo <= hi && hi <= TOP {
            Some(Span { lo, hi })
        } else {
            None
        }
    }

    /// Whether the address lies in the span.
    pub fn contains(&self, a: u64) -> bool
        ensures { result ≡ in_span self.now a }
    {
        self.lo <= a && a <= self.hi
    }
}
