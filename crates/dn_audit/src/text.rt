//! The text of a report, and its parts, so that it can be written piece by piece.

ghost use Rattle.std.specs.Prelude.{◌≡◌, ◌<◌, ◌++◌, length, map, nat_lt, IfOk, IfSome, IsTrue, OnOk};
ghost use Rattle.std.specs.List.{flat_map, list_all};
ghost use Rattle.std.specs.String.{string_bytes};
ghost use Rattle.dn_image.specs.Terms.{image_fault_view};
ghost use Rattle.dn_audit.specs.Terms.{access_word, audit_heading, audit_text, broken_text, is_seen_within, is_shared_within, is_within_nodes, report_told, seen_heading, seen_told, seen_text, shared_text, shared_told, sharer_text, shut_text};

use crate::OutOfMemory;
use crate::report::{AuditReport, Seen, Shared, Shut};
use dn_image::fault::ImageFault;
use dn_kind::rights::Access;
use dn_net::net::Net;
use dn_print::rows::lines_of;
use std::alloc::Global;

/// The text of a report: a heading with its numbers, each view with its rows, a line for each slot with
/// a shut-out record, and a line for each row of shared addresses. `Err` is want of memory.
pub fn audit_text(alloc: Global, net: &Net, audit: &AuditReport) -> Result<Vec<u8>, OutOfMemory>
    requires { IsTrue (is_within_nodes (length net.now) audit.now) }
    ensures { IfOk result (λ v. v.items ≡ audit_text net.now (report_told audit.now)) }
{
    let mut out = heading_text(alloc, audit)?;
    push_views(alloc, &mut out, net, audit.views.as_slice())?;
    let shut = shut_lines(alloc, net, audit.shut.as_slice())?;
    out.push_str(shut.as_str())?;
    let shared = shared_lines(alloc, net, audit.shared.as_slice())?;
    out.push_str(shared.as_str())?;
    Ok(out.into_bytes())
}

/// The heading of a report: how many bytes its image has, how many records, how many slots with a
/// shut-out record, and how many rows of shared addresses. `Err` is want of memory.
pub fn heading_text(alloc: Global, audit: &AuditReport) -> Result<String, OutOfMemory>
    ensures { IfOk result (λ s. string_bytes s ≡ audit_heading (report_told audit.now)) }
{
    let (bytes, records) = (audit.bytes, audit.records);
    let (shut, shared) = (audit.shut.as_slice().len(), audit.shared.as_slice().len());
    format!(in alloc; "audit bytes {bytes} records {records} shut {shut} shared {shared}\n")
}

/// The heading of a view: its agent's full name, the access and how many rows follow. Its rows are
/// printed by [`dn_print::rows`]. `Err` is want of memory.
pub fn seen_heading(alloc: Global, net: &Net, seen: &Seen) -> Result<String, OutOfMemory>
    requires { seen.now.agent < length net.now }
    ensures { IfOk result (λ s. string_bytes s ≡ seen_heading net.now (seen_told seen.now)) }
{
    let agent = net.text(seen.agent);
    let access = access_word(seen.access);
    let rows = seen.rows.rows().len();
    format!(in alloc; "view {agent} for {access} rows {rows}\n")
}

/// The word for an access.
fn access_word(access: Access) -> &'static str
    ensures { result.now ≡ access_word access }
{
    match access {
        Access::Read => "read",
        Access::Write => "write",
    }
}

/// Appends views, each with its heading and its rows.
fn push_views(alloc: Global, out: &mut String, net: &Net, views: &[Seen]) -> Result<(), OutOfMemory>
    requires within { IsTrue (list_all (is_seen_within (length net.now)) views.now) }
    ensures { OnOk result (string_bytes out.new
        ≡ string_bytes out.old ++ flat_map (seen_text net.now) (map seen_told views.now)) }
{
    for seen in views {
        push_view(alloc, out, net, seen)?;
    }
    Ok(())
}

/// Appends a view with its heading and its rows.
fn push_view(alloc: Global, out: &mut String, net: &Net, seen: &Seen) -> Result<(), OutOfMemory>
    requires within { IsTrue (is_seen_within (length net.now) seen.now) }
    ensures { OnOk result (string_bytes out.new
        ≡ string_bytes out.old ++ seen_text net.now (seen_told seen.now)) }
{
    let heading = seen_heading(alloc, net, seen)?;
    out.push_str(heading.as_str())?;
    let rows = lines_of(alloc, net, seen.rows.rows())?;
    out.push_str(rows.as_str())
}

/// A line for each of these slots with shut-out records. `Err` is want of memory.
pub fn shut_lines(alloc: Global, net: &Net, shut: &[Shut]) -> Result<String, OutOfMemory>
    requires within { IsTrue (list_all (λ s. nat_lt s.unit (length net.now)) shut.now) }
    ensures { IfOk result (λ s. string_bytes s ≡ flat_map (shut_text net.now) shut.now) }
{
    let mut out = String::new(alloc);
    for row in shut {
        let (unit, slot) = (net.text(row.unit), row.slot);
        write!(out, "shut {unit} {slot}\n")?;
    }
    Ok(out)
}

/// A line for each of these rows of shared addresses. `Err` is want of memory.
pub fn shared_lines(alloc: Global, net: &Net, shared: &[Shared]) -> Result<String, OutOfMemory>
    requires within { IsTrue (list_all (is_shared_within (length net.now)) shared.now) }
    ensures { IfOk result (λ s. string_bytes s
        ≡ flat_map (shared_text net.now) (map shared_told shared.now)) }
{
    let mut out = String::new(alloc);
    for row in shared {
        push_shared(&mut out, net, row)?;
    }
    Ok(out)
}

/// Appends the line of a row of shared addresses.
fn push_shared(out: &mut String, net: &Net, row: &Shared) -> Result<(), OutOfMemory>
    requires within { IsTrue (is_shared_within (length net.now) row.now) }
    ensures { OnOk result (string_bytes out.new
        ≡ string_bytes out.old ++ shared_text net.now (shared_told row.now)) }
{
    let (lo, hi) = (row.span.lo, row.span.hi);
    let node = net.text(row.node);
    write!(out, "shared {node} 0x{lo:x}-0x{hi:x}")?;
    push_sharers(out, net, row.agents.as_slice())?;
    out.push('\n')
}

/// Appends the full names of agents, a space before each.
fn push_sharers(out: &mut String, net: &Net, agents: &[u16]) -> Result<(), OutOfMemory>
    requires within { IsTrue (list_all (λ g. nat_lt g (length net.now)) agents.now) }
    ensures { OnOk result (string_bytes out.new
        ≡ string_bytes out.old ++ flat_map (sharer_text net.now) agents.now) }
{
    for agent in agents {
        out.push(' ')?;
        out.push_str(net.text(*agent))?;
    }
    Ok(())
}

/// What is wrong first with bytes that are no image, in words. `Err` is want of memory, also where the
/// fault is that.
pub fn broken_text(alloc: Global, fault: ImageFault) -> Result<String, OutOfMemory>
    ensures { IfOk result
        (λ s. IfSome (image_fault_view fault) (λ b. string_bytes s ≡ broken_text b)) }
{
    match fault {
        ImageFault::Short { at } => format!(in alloc; "image Short {at}"),
        ImageFault::Header { at } => format!(in alloc; "image Header {at}"),
        ImageFault::Shape { unit } => format!(in alloc; "image Shape {unit}"),
        ImageFault::Trailing { at } => format!(in alloc; "image Trailing {at}"),
        ImageFault::OutOfMemory => Err(OutOfMemory),
    }
}
