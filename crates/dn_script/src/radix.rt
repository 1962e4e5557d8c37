//! The reply to `radix`: the words of a unit as a tree of pages.

ghost use Rattle.std.specs.Prelude.{◌≡◌, ◌/◌, ◌≤◌, ◌++◌, length, IfOk, IfSome, IsSome, IsTrue};
ghost use Rattle.std.specs.String.{string_bytes};
ghost use Rattle.dn_net.specs.Terms.{over_within, unit_at};
ghost use Rattle.dn_kind.specs.Terms.{kinds_of};
ghost use Rattle.dn_radix.specs.Terms.{built};
ghost use Rattle.dn_print.specs.Terms.{lines_text};
ghost use Rattle.dn_script.specs.Terms.{HaltsBySink, IsReady, Writes, book_words, pages_heading, pool_text, tree_text, named_unit};

use crate::OutOfMemory;
use crate::halt::RunHalt;
use crate::machine::Machine;
use crate::output::{write_bytes, write_output};
use crate::state::Session;
use dn_base::filled::Filled;
use dn_base::sink::Sink;
use dn_net::net::Net;
use dn_radix::build::build;
use dn_radix::fault::RadixFault;
use std::alloc::Global;

/// The bytes of a page.
const PAGE: usize = 4096;

/// A node that a command names, where it is a unit.
pub fn unit_of(net: &Net, node: Option<u16>) -> Option<u16>
    requires { IsTrue (over_within (length net.now) node) }
    ensures which { result ≡ named_unit net.now node }
    ensures unit { IfSome result (λ n. IsSome (unit_at net.now n)) }
{
    let Some(node) = node else {
        return None;
    };
    match net.unit(node) {
        Some(_) => Some(node),
        None => None,
    }
}

/// The words of a unit in the tables. `Err` is want of memory.
pub fn unit_words(
    alloc: Global,
    machine: Machine,
    state: &Session,
    unit: u16,
) -> Result<Vec<u64>, OutOfMemory>
    requires ready { IsReady meaning machine state.now }
    requires unit { IsSome (unit_at machine.on.net.now unit) }
    ensures words { IfOk result (λ v. v.items ≡ book_words (kinds_of
        meaning machine.entry.on.kinds.now) machine.entry.on.net.now state.now.book.grants unit) }
    ensures few { IfOk result (λ v. length v.items ≤ 1048576) }
{
    let tables = state.book.tables();
    list_of(alloc, tables.words(unit))
}

/// Writes the reply to `radix` for a unit of these words: a line, and below it their tree, where a pool of so
/// many pages has room for it.
pub fn radix_reply<K: Sink>(
    alloc: Global,
    text: &str,
    words: &[u64],
    pool: u64,
    sink: &mut K,
) -> Result<(), RunHalt>
    requires { length words.now ≤ 1048576 }
    ensures written { Writes result (K.written sink.old) (K.written sink.new)
        (tree_text text.now words.now (built words.now pool)) }
    ensures halted { HaltsBySink result (K.faults sink.old) (K.faults sink.new) }
{
    match build(alloc, words, pool) {
        Ok(bytes) => {
            let heading = heading_text(alloc, text, bytes.len() / PAGE)?;
            write_bytes(alloc, heading.as_str(), &bytes, sink)
        }
        Err(RadixFault::Pool { need }) => {
            let line = pool_line(alloc, text, need)?;
            write_output(sink, line.as_bytes())
        }
        Err(RadixFault::OutOfMemory) => Err(RunHalt::NoMemory),
    }
}

/// The words of a unit, one after the other. `Err` is want of memory.
fn list_of(alloc: Global, words: &Filled<u64>) -> Result<Vec<u64>, OutOfMemory>
    ensures { IfOk result (λ v. v.items ≡ words.now) }
{
    let mut list = Vec::with_capacity(alloc, words.len())?;
    for at in 0..words.len() {
        list.push(words.get(at))?;
    }
    Ok(list)
}

/// The heading above the pages of a tree.
fn heading_text(alloc: Global, text: &str, pages: usize) -> Result<String, OutOfMemory>
    ensures { IfOk result (λ s. string_bytes s ≡ pages_heading text.now pages) }
{
    format!(in alloc; "radix {text} pages {pages}\n")
}

/// The reply where the pool has fewer pages than the tree.
fn pool_line(alloc: Global, text: &str, need: u32) -> Result<String, OutOfMemory>
    ensures { IfOk result (λ s. string_bytes s ≡ pool_text text.now need) }
{
    format!(in alloc; "radix {text} refused: Pool {need}\n")
}
