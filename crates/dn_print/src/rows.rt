//! The text of rows.

ghost use Rattle.std.specs.Prelude.{◌≡◌, ◌++◌, length, map, nat_lt, IfOk, OnOk, IsTrue, is_ok};
ghost use Rattle.std.specs.List.{list_all};
ghost use Rattle.std.specs.String.{string_bytes};
ghost use Rattle.dn_interval.specs.Terms.{seen_view};
ghost use Rattle.dn_print.specs.Terms.{Appended, end_text, ends_exist, row_text, rows_text};

use crate::OutOfMemory;
use crate::address::write_span;
use crate::joined::{Item, write_joined};
use dn_interval::{End, Row, Rows, Span};
use dn_net::net::Net;
use dn_net::node::Name;
use std::alloc::Global;

/// About how many bytes a line has.
const LINE: usize = 40;

/// A line for each row: its first and its last address in hexadecimal, a space, and the names of
/// its first address joined by `, `. `Err` is want of memory.
pub fn rows_text(alloc: Global, net: &Net, rows: &Rows) -> Result<Vec<u8>, OutOfMemory>
    requires { IsTrue (ends_exist (length net.now) rows.now) }
    ensures { IfOk result (λ v. v.items ≡ rows_text net.now (map seen_view rows.now)) }
{
    let text = rows_string(alloc, net, rows)?;
    Ok(text.into_bytes())
}

/// Appends the rows as [`rows_text`] has them. For want of memory nothing is appended.
pub fn push_rows(out: &mut String, net: &Net, rows: &Rows) -> Result<(), OutOfMemory>
    requires { IsTrue (ends_exist (length net.now) rows.now) }
    ensures { Appended (string_bytes out.old) (string_bytes out.new) (is_ok result)
        (rows_text net.now (map seen_view rows.now)) }
{
    let alloc = *out.allocator();
    let text = rows_string(alloc, net, rows)?;
    out.push_str(text.as_str())
}

/// The rows as [`rows_text`] has them.
fn rows_string(alloc: Global, net: &Net, rows: &Rows) -> Result<String, OutOfMemory>
    requires { IsTrue (ends_exist (length net.now) rows.now) }
    ensures { IfOk result (λ text. string_bytes text ≡ rows_text net.now (map seen_view rows.now)) }
{
    lines_of(alloc, net, rows.rows())
}

/// The lines of some rows one behind the other, as [`rows_text`] has those of all. `Err` is want of memory.
pub fn lines_of(alloc: Global, net: &Net, rows: &[Row]) -> Result<String, OutOfMemory>
    requires { IsTrue (ends_exist (length net.now) rows.now) }
    ensures { IfOk result (λ text. string_bytes text ≡ rows_text net.now (map seen_view rows.now)) }
{
    let mut out = String::with_capacity(alloc, rows.len().saturating_mul(LINE))?;
    write_rows(&mut out, net, rows)?;
    Ok(out)
}

/// Appends the rows to a text that is given up for want of memory.
fn write_rows(out: &mut String, net: &Net, rows: &[Row]) -> Result<(), OutOfMemory>
    requires { IsTrue (ends_exist (length net.now) rows.now) }
    ensures { OnOk result (string_bytes out.new ≡
        string_bytes out.old ++ rows_text net.now (map seen_view rows.now)) }
{
    for row in rows {
        write_row(out, net, row)?;
    }
    Ok(())
}

/// Appends a row and the end of its line.
fn write_row(out: &mut String, net: &Net, row: &Row) -> Result<(), OutOfMemory>
    requires { IsTrue (list_all (λ e. nat_lt e.node (length net.now)) row.now.ends) }
    ensures { OnOk result (string_bytes out.new ≡
        string_bytes out.old ++ row_text net.now (seen_view row.now)) }
{
    let Span { lo, hi } = row.span();
    write_span(out, lo, hi)?;
    write_joined(out, net, ", ", row.ends())?;
    out.push('\n')
}

/// As a name that resolves there.
impl Item for End {
    ghost text = { λ net e. end_text net e };

    ghost within = { λ count e. nat_lt e.node count };

    fn write(&self, out: &mut String, net: &Net) -> Result<(), OutOfMemory> {
        let name = Name {
            node: self.node,
            addr: self.base,
        };
        name.write(out, net)
    }
}
