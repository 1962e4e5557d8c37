//! Segments by how far their names are from their addresses: those that overlap or touch with the
//! same names are one strand.

ghost use Rattle.std.specs.Prelude.{◌≡◌, ◌+◌, ◌*◌, ◌≤◌};
ghost use Rattle.dn_interval.specs.declared.span.TheConstants.{TOP};

use crate::span::Span;

/// Addresses that have names in one node, each of them as far from its address: address `a` has the
/// name of address `a + slide - TOP`.
#[derive(Clone, Copy, Debug, PartialEq, Eq)]
pub struct Strand {
    pub node: u16,
    pub slide: u64,
    pub span: Span,
    pub ghost low: { TOP ≤ slide + span.lo },
    pub ghost high: { slide + span.hi ≤ TOP + TOP },
}
