//! Writing an output, and bytes line by line.

ghost use Rattle.std.specs.Prelude.{◌≡◌, ◌++◌};
ghost use Rattle.dn_print.specs.Terms.{dump_text, lines_text};
ghost use Rattle.dn_script.specs.Terms.{HaltsBySink, Writes, node_refused_text};

use crate::halt::RunHalt;
use dn_base::sink::{Sink, WriteFault};
use dn_base::whole;
use dn_print::dump;
use std::alloc::Global;

/// How many bytes are written at once, in full lines.
const PIECE: usize = 32_768;

/// Writes the output.
#[tactic(auto, using(dn_base::proofs::Told::written_stopped))]
pub fn write_output<K: Sink>(sink: &mut K, output: &[u8]) -> Result<(), RunHalt>
    ensures written { Writes result (K.written sink.old) (K.written sink.new) output.now }
    ensures halted { HaltsBySink result (K.faults sink.old) (K.faults sink.new) }
{
    match whole::write_whole(sink, output) {
        Ok(()) => Ok(()),
        Err(WriteFault::Failed) => Err(RunHalt::WriteFault),
        Err(WriteFault::OutOfMemory) => Err(RunHalt::NoMemory),
    }
}

/// Writes the reply of a command that refuses the node of this name.
pub fn refuse_node<K: Sink>(
    alloc: Global,
    command: &str,
    name: &str,
    why: &str,
    sink: &mut K,
) -> Result<(), RunHalt>
    ensures written { Writes result (K.written sink.old) (K.written sink.new)
        (node_refused_text command.now name.now why.now) }
    ensures halted { HaltsBySink result (K.faults sink.old) (K.faults sink.new) }
{
    let line = format!(in alloc; "{command} {name} refused: {why}\n")?;
    write_output(sink, line.as_bytes())
}

/// Writes the text of an image.
pub fn write_dump<K: Sink>(alloc: Global, image: &[u8], sink: &mut K) -> Result<(), RunHalt>
    ensures written { Writes result (K.written sink.old) (K.written sink.new)
        (dump_text image.now) }
    ensures halted { HaltsBySink result (K.faults sink.old) (K.faults sink.new) }
{
    let heading = dump::heading_text(alloc, image.len())?;
    write_bytes(alloc, heading.as_str(), image, sink)
}

/// Writes bytes in hexadecimal below a heading, piece by piece, so that no more than a piece of the lines is
/// in memory.
pub fn write_bytes<K: Sink>(
    alloc: Global,
    heading: &str,
    bytes: &[u8],
    sink: &mut K,
) -> Result<(), RunHalt>
    ensures written { Writes result (K.written sink.old) (K.written sink.new)
        (heading.now ++ lines_text bytes.now) }
    ensures halted { HaltsBySink result (K.faults sink.old) (K.faults sink.new) }
{
    write_output(sink, heading.as_bytes())?;
    let mut lines = Vec::new(alloc);
    for piece in bytes.chunks(PIECE) {
        lines.clear();
        dump::push_lines(&mut lines, piece)?;
        write_output(sink, lines.as_slice())?;
    }
    Ok(())
}
