//! Writing an output with its status, and a net statement by statement.

ghost use Rattle.std.specs.Prelude.{◌≡◌, false, length, IfOk, IsTrue};
ghost use Rattle.std.specs.List.{list_all};
ghost use Rattle.dn_net.specs.Terms.{is_closed};
ghost use Rattle.dn_kind.specs.Terms.{AreKinds, has_kind, kinds_of};
ghost use Rattle.dn_print.specs.Terms.{net_text};
ghost use Rattle.dn_script.specs.Terms.{HaltsBySink, Writes, ending_status, is_free_status};
ghost use Rattle.dn_tool.specs.Terms.{IsSaid};

use dn_base::sink::Sink;
use dn_kind::kinded::KindedNet;
use dn_print::net::statement_text;
use dn_script::halt::RunHalt;
use dn_script::output::write_output;
use std::alloc::Global;

/// Writes an output, and gives its status.
pub(crate) fn say<K: Sink>(sink: &mut K, output: &[u8], status: u8) -> Result<u8, RunHalt>
    requires { is_free_status status ≡ false }
    ensures said { IsSaid status output.now
        (ending_status result) (K.written sink.old) (K.written sink.new) }
    ensures status { IfOk result (λ s. s ≡ status) }
    ensures halted { HaltsBySink result (K.faults sink.old) (K.faults sink.new) }
{
    write_output(sink, output)?;
    Ok(status)
}

/// Writes the text of a net statement by statement, so that no more than one of them is in memory.
pub(crate) fn write_net<K: Sink>(alloc: Global, on: KindedNet, sink: &mut K) -> Result<(), RunHalt>
    requires closed { IsTrue (is_closed on.net.now) }
    requires kinds { AreKinds meaning on.kinds.now }
    requires known { IsTrue
        (list_all (λ n. has_kind (length on.kinds.now.list.items) n.unit) on.net.now) }
    ensures written { Writes result (K.written sink.old)
        (K.written sink.new) (net_text (kinds_of meaning on.entry.kinds.now) on.entry.net.now) }
    ensures halted { HaltsBySink result (K.faults sink.old) (K.faults sink.new) }
{
    for node in 0..on.net.nodes() {
        let text = statement_text(alloc, on, node)?;
        write_output(sink, text.as_bytes())?;
    }
    Ok(())
}
