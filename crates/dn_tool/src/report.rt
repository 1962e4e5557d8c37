//! Writing what an audit says of an image, so that no more than a piece of it is in memory as text.

ghost use Rattle.std.specs.Prelude.{length, map, IsTrue};
ghost use Rattle.std.specs.List.{flat_map, list_all};
ghost use Rattle.dn_audit.specs.Terms.{audit_text, is_seen_within, is_within_nodes, report_told, seen_text, seen_told};
ghost use Rattle.dn_script.specs.Terms.{HaltsBySink, Writes};

use dn_audit::report::{AuditReport, Seen};
use dn_audit::text::{heading_text, seen_heading};
use dn_base::sink::Sink;
use dn_net::net::Net;
use dn_script::halt::RunHalt;
use dn_script::lines::{write_lines, write_rows};
use dn_script::output::write_output;
use std::alloc::Global;

/// Writes the text of a report: its heading, then view by view, and then a line for each slot with a shut-out
/// record and for each row of shared addresses.
pub(crate) fn write_report<K: Sink>(
    alloc: Global,
    net: &Net,
    report: &AuditReport,
    sink: &mut K,
) -> Result<(), RunHalt>
    requires { IsTrue (is_within_nodes (length net.now) report.now) }
    ensures written { Writes result (K.written sink.old) (K.written sink.new)
        (audit_text net.now (report_told report.now)) }
    ensures halted { HaltsBySink result (K.faults sink.old) (K.faults sink.new) }
{
    let heading = heading_text(alloc, report)?;
    write_output(sink, heading.as_bytes())?;
    write_views(alloc, net, report.views.as_slice(), sink)?;
    write_lines(alloc, net, report.shut.as_slice(), sink)?;
    write_lines(alloc, net, report.shared.as_slice(), sink)
}

/// Writes views one after the other.
fn write_views<K: Sink>(
    alloc: Global,
    net: &Net,
    views: &[Seen],
    sink: &mut K,
) -> Result<(), RunHalt>
    requires { IsTrue (list_all (is_seen_within (length net.now)) views.now) }
    ensures written { Writes result (K.written sink.old) (K.written sink.new)
        (flat_map (seen_text net.now) (map seen_told views.now)) }
    ensures halted { HaltsBySink result (K.faults sink.old) (K.faults sink.new) }
{
    for seen in views {
        write_view(alloc, net, seen, sink)?;
    }
    Ok(())
}

/// Writes a view: its heading, and a line for each row.
fn write_view<K: Sink>(alloc: Global, net: &Net, seen: &Seen, sink: &mut K) -> Result<(), RunHalt>
    requires { IsTrue (is_seen_within (length net.now) seen.now) }
    ensures written { Writes result (K.written sink.old) (K.written sink.new)
        (seen_text net.now (seen_told seen.now)) }
    ensures halted { HaltsBySink result (K.faults sink.old) (K.faults sink.new) }
{
    let heading = seen_heading(alloc, net, seen)?;
    write_rows(alloc, net, heading.as_str(), seen.rows.rows(), sink)
}
