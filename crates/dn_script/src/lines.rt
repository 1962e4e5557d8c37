//! Writing a line for each of many items, some lines at once.

ghost use Rattle.std.specs.Prelude.{◌≡◌, ◌++◌, length, map, IfOk, IsTrue};
ghost use Rattle.std.specs.List.{flat_map, list_all};
ghost use Rattle.dn_interval.specs.Terms.{seen_view};
ghost use Rattle.dn_print.specs.Terms.{ends_exist, rows_text};
ghost use Rattle.dn_script.specs.Terms.{HaltsBySink, Writes};

use crate::OutOfMemory;
use crate::halt::RunHalt;
use crate::output::write_output;
use dn_audit::report::{Shared, Shut};
use dn_audit::text::{shared_lines, shut_lines};
use dn_base::sink::Sink;
use dn_interval::Row;
use dn_net::net::Net;
use dn_print::rows::lines_of;
use std::alloc::Global;

/// How many lines are written at once.
const LINES: usize = 512;

/// What is written as a line, by the names of a net's nodes.
pub trait Line {
    ghost use Rattle.std.specs.Prelude.{ℕ, Bool, List, ◌≡◌, length, IfOk, IsTrue};
    ghost use Rattle.std.specs.List.{flat_map, list_all};
    ghost use Rattle.std.specs.String.{string_bytes};
    ghost use Rattle.dn_net.specs.declared.node.NodeDecl.{NodeDecl};

    /// Its line.
    ghost text: { List NodeDecl → Self → List ℕ };
    /// Whether each node that it names is one of so many.
    ghost within: { ℕ → Self → Bool };

    /// The lines of some items, one after the other. `Err` is want of memory.
    fn lines(alloc: Global, net: &Net, items: &[Self]) -> Result<String, OutOfMemory>
        requires { IsTrue (list_all (within (length net.now)) items.now) }
        ensures { IfOk result (λ lines. string_bytes lines ≡ flat_map (text net.now) items.now) };
}

impl Line for Row {
    ghost use Rattle.std.specs.Prelude.{nat_lt};
    ghost use Rattle.std.specs.List.{list_all};
    ghost use Rattle.dn_interval.specs.Listed.{seen_view};
    ghost use Rattle.dn_print.specs.Rows.{row_text};

    ghost text = { λ net row. row_text net (seen_view row) };

    ghost within = { λ count row. list_all (λ e. nat_lt e.node count) row.ends };

    fn lines(alloc: Global, net: &Net, items: &[Row]) -> Result<String, OutOfMemory> {
        lines_of(alloc, net, items)
    }
}

impl Line for Shut {
    ghost use Rattle.std.specs.Prelude.{nat_lt};
    ghost use Rattle.dn_audit.specs.Text.{shut_text};

    ghost text = { λ net row. shut_text net row };

    ghost within = { λ count row. nat_lt row.unit count };

    fn lines(alloc: Global, net: &Net, items: &[Shut]) -> Result<String, OutOfMemory> {
        shut_lines(alloc, net, items)
    }
}

impl Line for Shared {
    ghost use Rattle.dn_audit.specs.Nodes.{is_shared_within};
    ghost use Rattle.dn_audit.specs.Text.{shared_text};
    ghost use Rattle.dn_audit.specs.Told.{shared_told};

    ghost text = { λ net row. shared_text net (shared_told row) };

    ghost within = { λ count row. is_shared_within count row };

    fn lines(alloc: Global, net: &Net, items: &[Shared]) -> Result<String, OutOfMemory> {
        shared_lines(alloc, net, items)
    }
}

/// Writes a line for each item, so many lines at once that no more than those are in memory as text.
pub fn write_lines<L: Line, K: Sink>(
    alloc: Global,
    net: &Net,
    items: &[L],
    sink: &mut K,
) -> Result<(), RunHalt>
    requires { IsTrue (list_all (L.within (length net.now)) items.now) }
    ensures written { Writes result (K.written sink.old) (K.written sink.new)
        (flat_map (L.text net.now) items.now) }
    ensures halted { HaltsBySink result (K.faults sink.old) (K.faults sink.new) }
{
    for piece in items.chunks(LINES) {
        let text = L::lines(alloc, net, piece)?;
        write_output(sink, text.as_bytes())?;
    }
    Ok(())
}

/// Writes rows below a heading.
pub fn write_rows<K: Sink>(
    alloc: Global,
    net: &Net,
    heading: &str,
    rows: &[Row],
    sink: &mut K,
) -> Result<(), RunHalt>
    requires { IsTrue (ends_exist (length net.now) rows.now) }
    ensures written { Writes result (K.written sink.old) (K.written sink.new)
        (heading.now ++ rows_text net.now (map seen_view rows.now)) }
    ensures halted { HaltsBySink result (K.faults sink.old) (K.faults sink.new) }
{
    write_output(sink, heading.as_bytes())?;
    write_lines(alloc, net, rows, sink)
}
