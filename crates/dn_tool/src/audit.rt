//! The answer to `audit`: what each agent sees under the image that follows the text.

ghost use Rattle.std.specs.Prelude.{◌≡◌, ◌⊎◌, length, IfOk, IfSome, IsTrue};
ghost use Rattle.std.specs.Option.{option_copied};
ghost use Rattle.std.specs.String.{string_bytes};
ghost use Rattle.dn_kind.specs.Terms.{kinds_of};
ghost use Rattle.dn_image.specs.Terms.{image_fault_view};
ghost use Rattle.dn_audit.specs.Terms.{audit_reading, audit_text, is_within_nodes, report_told};
ghost use Rattle.dn_script.specs.Terms.{HaltsBySink, IsMachine, ending_status};
ghost use Rattle.dn_tool.specs.Terms.{IsOutcome, IsSaid, audit_answer, broken_line, image_answer};

use crate::OutOfMemory;
use crate::refusal::REFUSED;
use crate::report::write_report;
use crate::said::say;
use dn_audit::audit::audit;
use dn_audit::fault::AuditFault;
use dn_audit::report::AuditReport;
use dn_audit::text::broken_text;
use dn_base::sink::Sink;
use dn_flat::flats::flatten_all;
use dn_image::fault::ImageFault;
use dn_net::net::Net;
use dn_script::halt::RunHalt;
use dn_script::machine::Machine;
use dn_script::script::DONE;
use dn_view::system::System;
use std::alloc::Global;

/// Writes what each agent sees under the image that follows a text, and gives the status `DONE`; or the
/// line that refuses the image, and the status `REFUSED`.
pub(crate) fn answer_image<K: Sink>(
    alloc: Global,
    machine: Machine,
    image: Option<&[u8]>,
    sink: &mut K,
) -> Result<u8, RunHalt>
    requires machine { IsMachine meaning machine }
    ensures said { IsOutcome (image_answer (kinds_of meaning machine.entry.on.kinds.now)
        machine.entry.on.net.now (option_copied image.entry)) (ending_status result)
        (K.written sink.old) (K.written sink.new) }
    ensures which { IfOk result (λ s. (s ≡ 0) ⊎ (s ≡ 4)) }
    ensures halted { HaltsBySink result (K.faults sink.old) (K.faults sink.new) }
{
    match image {
        Some(image) => audit_image(alloc, machine, image, sink),
        None => say(sink, "refused: NoImage\n".as_bytes(), REFUSED),
    }
}

/// Writes what each agent sees under an image, or the line that refuses it.
fn audit_image<K: Sink>(
    alloc: Global,
    machine: Machine,
    image: &[u8],
    sink: &mut K,
) -> Result<u8, RunHalt>
    requires machine { IsMachine meaning machine }
    ensures said { IsOutcome (audit_answer machine.entry.on.net.now (audit_reading
        machine.entry.on.net.now (kinds_of meaning machine.entry.on.kinds.now) image.now))
        (ending_status result) (K.written sink.old) (K.written sink.new) }
    ensures which { IfOk result (λ s. (s ≡ 0) ⊎ (s ≡ 4)) }
    ensures halted { HaltsBySink result (K.faults sink.old) (K.faults sink.new) }
{
    let flats = flatten_all(alloc, machine.on.net, machine.walks)?;
    let system = System {
        on: machine.on,
        flats: &flats,
    };
    match audit(alloc, system, image) {
        Ok(report) => say_report(alloc, machine.on.net, &report, sink),
        Err(AuditFault::Image(fault)) => refuse_image(alloc, fault, sink),
        Err(AuditFault::OutOfMemory) => Err(RunHalt::NoMemory),
    }
}

/// Writes the text of a report. The status is `DONE`.
fn say_report<K: Sink>(
    alloc: Global,
    net: &Net,
    report: &AuditReport,
    sink: &mut K,
) -> Result<u8, RunHalt>
    requires { IsTrue (is_within_nodes (length net.now) report.now) }
    ensures said { IsSaid 0 (audit_text net.now (report_told report.now))
        (ending_status result) (K.written sink.old) (K.written sink.new) }
    ensures status { IfOk result (λ s. s ≡ 0) }
    ensures halted { HaltsBySink result (K.faults sink.old) (K.faults sink.new) }
{
    write_report(alloc, net, report, sink)?;
    Ok(DONE)
}

/// Writes the line that refuses bytes as an image. The status is `REFUSED`.
fn refuse_image<K: Sink>(alloc: Global, fault: ImageFault, sink: &mut K) -> Result<u8, RunHalt>
    ensures said { IfSome (image_fault_view fault) (λ broken. IsSaid 4 (broken_line broken)
        (ending_status result) (K.written sink.old) (K.written sink.new)) }
    ensures status { IfOk result (λ s. s ≡ 4) }
    ensures halted { HaltsBySink result (K.faults sink.old) (K.faults sink.new) }
{
    let line = broken_line(alloc, fault)?;
    say(sink, line.as_bytes(), REFUSED)
}

/// The line that refuses bytes as an image. `Err` is want of memory, also where the fault is that.
fn broken_line(alloc: Global, fault: ImageFault) -> Result<String, OutOfMemory>
    ensures { IfOk result (λ line. IfSome (image_fault_view fault)
        (λ broken. string_bytes line ≡ broken_line broken)) }
{
    let broken = broken_text(alloc, fault)?;
    format!(in alloc; "refused: {broken}\n")
}
