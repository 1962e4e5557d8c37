//! The audit of an image.

ghost use Rattle.std.specs.Prelude.{◌≡◌, length, IfOk, IsTrue, None};
ghost use Rattle.dn_base.specs.Terms.{Answers};
ghost use Rattle.dn_kind.specs.Terms.{kinds_of};
ghost use Rattle.dn_image.specs.Terms.{broken_image, image_words, version_of};
ghost use Rattle.dn_view.specs.Terms.{IsSystem};
ghost use Rattle.dn_audit.specs.Terms.{IsAudit, IsAudited, are_within, audit_fault_view, audit_reading, is_within_nodes, report_told};

use crate::OutOfMemory;
use crate::fault::AuditFault;
use crate::report::AuditReport;
use crate::shared::shared_names;
use crate::stored::StoredImage;
use crate::taking::take;
use crate::views::views;
use dn_image::check::check;
use dn_view::system::System;
use std::alloc::Global;

/// What each agent would see under an image of the net, whoever made it, the slots with shut-out
/// records, and the names that two or more agents see. No device is touched.
///
/// # Errors
///
/// `Image` exactly where the bytes are no image of the net, with the first field that is wrong;
/// `OutOfMemory` where they are one, and there is no memory for the report.
pub fn audit(alloc: Global, system: System, image: &[u8]) -> Result<AuditReport, AuditFault>
    requires system { IsSystem meaning system }
    ensures audited { IsAudited system.entry.on.net.now
        (kinds_of meaning system.entry.on.kinds.now) image.now result }
    // What is told is written out by definitions alone.
    ensures told { Answers report_told audit_fault_view result (audit_reading
        system.entry.on.net.now (kinds_of meaning system.entry.on.kinds.now) image.now) }
    // Each node that the report names is one of the net.
    ensures within { IfOk result
        (λ r. IsTrue (is_within_nodes (length system.entry.on.net.now) r)) }
{
    match check(system.on, image) {
        Ok(version) => match report(alloc, system, image, version) {
            Ok(report) => Ok(report),
            Err(_) => Err(AuditFault::OutOfMemory),
        },
        Err(fault) => Err(AuditFault::Image(fault)),
    }
}

/// The report of bytes that are an image of the net, of this version. `Err` is want of memory.
fn report(
    alloc: Global,
    system: System,
    bytes: &[u8],
    version: u16,
) -> Result<AuditReport, OutOfMemory>
    requires system { IsSystem meaning system }
    requires whole { broken_image system.on.net.now
        (kinds_of meaning system.on.kinds.now) bytes.now ≡ None }
    requires version { version ≡ version_of bytes.now }
    ensures report { IfOk result (λ r. IsAudit system.entry.on.net.now
        (kinds_of meaning system.entry.on.kinds.now) bytes.now (record {
          version = version;
          words = image_words system.entry.on.net.now
              (kinds_of meaning system.entry.on.kinds.now) bytes.now;
        }) r) }
    ensures within { IfOk result
        (λ r. IsTrue (are_within (length system.entry.on.net.now) r.views)) }
{
    let stored = StoredImage {
        on: system.on,
        bytes,
        version,
    };
    let (tables, found) = take(alloc, stored)?;
    let views = views(alloc, system, &tables)?;
    let shared = shared_names(alloc, system.on.net.nodes(), views.as_slice())?;
    Ok(AuditReport {
        bytes: bytes.len() as u64,
        records: found.records,
        views,
        shut: found.shut,
        shared,
    })
}
