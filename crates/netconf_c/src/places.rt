//! Places to which addresses lead, as C has them.

ghost use Rattle.std.specs.Prelude.{◌≡◌, ◌++◌, ◌∷◌, map, OnOk, IfOk, length};
ghost use Rattle.netconf_c.specs.Seeing.{place_of, row_at, seen_rows, written_from};

use dn_base::OutOfMemory;
use dn_interval::{End, Row, Span};
use dn_net::node::Name;
use std::alloc::Global;

/// A node and an address in it, as C has them.
#[repr(C)]
#[derive(Clone, Copy, Default)]
pub struct Place {
    /// The number of the node.
    pub node: u32,
    /// 0.
    pub unused: u32,
    /// The address in the node.
    pub address: u64,
}

/// Addresses that lead to a node, each to the address behind that of the one before it, as C has
/// them.
#[repr(C)]
#[derive(Clone, Copy, Default)]
pub struct SeenRow {
    /// The first address.
    pub first: u64,
    /// The last address.
    pub last: u64,
    /// Where the first address leads.
    pub place: Place,
}

/// Names as C has them.
pub(crate) fn places_of(alloc: Global, names: &[Name]) -> Result<Vec<Place>, OutOfMemory>
    ensures { IfOk result (λ all. all.items ≡ map place_of names.now) }
{
    let mut all = Vec::new(alloc);
    for name in names {
        all.push(place_of(*name))?;
    }
    Ok(all)
}

/// A name as C has it.
fn place_of(name: Name) -> Place
    ensures { result ≡ place_of name }
{
    Place {
        node: u32::from(name.node),
        unused: 0,
        address: name.addr,
    }
}

/// Rows as C has them, one for each name.
pub(crate) fn seen_rows(alloc: Global, rows: &[Row]) -> Result<Vec<SeenRow>, OutOfMemory>
    ensures { IfOk result (λ all. all.items ≡ seen_rows rows.now) }
{
    let mut all = Vec::new(alloc);
    for row in rows {
        push_row(&mut all, row)?;
    }
    Ok(all)
}

/// Appends a row, once for each of its names.
fn push_row(all: &mut Vec<SeenRow>, row: &Row) -> Result<(), OutOfMemory>
    ensures { OnOk result (all.new.items ≡ all.old.items ++ map (row_at row.now) row.now.ends) }
{
    let span = row.span();
    let ends = row.ends();
    for end in ends {
        all.push(row_at(span, *end))?;
    }
    Ok(())
}

/// A row of one name as C has it.
fn row_at(span: Span, end: End) -> SeenRow
    ensures { result ≡ record {
      first = span.lo;
      last = span.hi;
      place = record { node = end.node; unused = 0; address = end.base };
    } }
{
    SeenRow {
        first: span.lo,
        last: span.hi,
        place: Place {
            node: u32::from(end.node),
            unused: 0,
            address: end.base,
        },
    }
}

/// Writes items from a number on to the front of a slice, as many as there are or there is room
/// for.
pub(crate) fn write_from<T: Copy>(items: &[T], from: usize, out: &mut [T])
    ensures { out.new ≡ written_from from items.now out.old }
{
    let count = items.len().saturating_sub(from).min(out.len());
    if count > 0 {
        out[..count].copy_from_slice(&items[from..from + count]);
    }
}
