//! Segments, which give names to addresses, and rows, which hold them.

ghost use Rattle.std.specs.Prelude.{◌≡◌, ◌+◌, ◌-◌, ◌≤◌, ◌<◌, [], ◌∷◌, length};
ghost use Rattle.dn_interval.specs.declared.span.TheConstants.{TOP};

use crate::span::Span;
use std::alloc::Global;
use std::marker::Model;
use std::slice;

/// A name for each address of a span: address `a` has the name of the node `node` and the address
/// `base + (a - span.lo)`, which is `TOP` or below.
#[derive(Clone, Copy, Debug, PartialEq, Eq)]
pub struct Seg {
    pub span: Span,
    pub node: u16,
    pub base: u64,
    pub ghost fits: { base + (span.hi - span.lo) ≤ TOP },
}

/// A name for each address of a row: as a segment's, with `base` the address at the row's first one.
#[derive(Clone, Copy, Debug, PartialEq, Eq, PartialOrd, Ord)]
pub struct End {
    pub node: u16,
    pub base: u64,
}

/// One name or more, which contracts see as their list. One alone takes no memory.
#[derive(Drop)]
pub struct Ends {
    /// The first name.
    one: End,
    /// All names where there are several, and else none.
    more: Vec<End>,
}

impl Model for Ends {
    ghost use Rattle.std.specs.Prelude.{List};
    ghost use Rattle.dn_interval.specs.declared.row.End.{End};
    ghost use Rattle.dn_interval.specs.Kept.{kept_ends};

    ghost Value = { List End };

    ghost view = { λ e. kept_ends e.one e.more.items };
}

impl Ends {
    /// A name alone. It takes no memory.
    pub fn one(alloc: Global, end: End) -> Ends
        ensures { result ≡ end ∷ [] }
    {
        Ends {
            one: end,
            more: Vec::new(alloc),
        }
    }

    /// The names of a vector, of which there is one. It takes no memory.
    pub fn from_vec(ends: Vec<End>) -> Ends
        requires { 0 < length ends.items }
        ensures { result ≡ ends.items }
    {
        Ends {
            one: ends[0],
            more: ends,
        }
    }

    /// The names.
    pub fn as_slice(&self) -> &[End]
        ensures { result.now ≡ self.now }
    {
        if self.more.is_empty() {
            slice::from_ref(&self.one)
        } else {
            self.more.as_slice()
        }
    }
}

/// A span whose addresses have the same names, moved on from each address to the next.
#[derive(Drop)]
pub struct Row {
    pub span: Span,
    pub ends: Ends,
}

impl Row {
    /// The addresses of the row.
    pub fn span(&self) -> Span
        ensures { result ≡ self.now.span }
    {
        self.span
    }

    /// The names of the row's first address. In normal rows they ascend by node and then by base, no
    /// two are equal, and there is at least one.
    pub fn ends(&self) -> &[End]
        ensures { result.now ≡ self.now.ends }
    {
        self.ends.as_slice()
    }
}
