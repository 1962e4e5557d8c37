//! The program: it hands its words, standard input and standard output to the tool, and ends with its status.
#![tactic(auto)]

ghost use Rattle.std.specs.Prelude.{◌≡◌, ◌==◌, ◌<◌, ◌⊎◌, [], List, None, IfOk, OnErr};
ghost use Rattle.dn_base.specs.Terms.{IsCounted, UnitSize};
ghost use Rattle.dn_words.specs.Terms.{task_of};
ghost use Rattle.dn_tool.specs.Terms.{IsReadFor, IsRunAnswered};
ghost use Rattle.netconf.specs.Terms.{program_kinds};

use dn_base::sink::Sink;
use dn_base::source::Source;
use dn_base::streams::{StdSink, StdSource};
use dn_kind::kinds::Kinds;
use dn_kinds::listed::{Pages, Radix, Remap, Vectors, listed_are_lawful};
use dn_tables::sizes::Sizes;
use dn_tool::run;
use dn_tool::words::Words;
use std::alloc::{AllocError, Global};
use std::io::ErrorKind;
use std::process::ExitCode;
use std::rt::Env;
use std::{env, io};

/// Why the program's words are not had.
enum WordsFault {
    /// A word is not UTF-8, or the system does not give the words.
    Unreadable,
    /// There was no memory for them.
    OutOfMemory,
}

impl From<AllocError> for WordsFault {
    fn from(_error: AllocError) -> WordsFault {
        WordsFault::OutOfMemory
    }
}

impl From<io::Error> for WordsFault {
    fn from(error: io::Error) -> WordsFault {
        match error.kind() {
            ErrorKind::OutOfMemory => WordsFault::OutOfMemory,
            _ => WordsFault::Unreadable,
        }
    }
}

/// The words after the program's name.
fn words_of<R: Env + AllocGlobal>(rt: &R) -> Result<Words, WordsFault> {
    let mut words = Words::new(rt.alloc());
    for word in env::args(rt)?.skip(1) {
        words.push(word.as_str())?;
    }
    Ok(words)
}

/// Answers the words with the kinds of units that the program knows: `pages`, `remap`, `vectors` and
/// `radix`, in this order. No hardware is touched: the device keeps how many words each unit was given, and
/// the words of the tables stand in the program's memory alone. So the clauses are those of `run` at these
/// kinds and this device.
///
/// # Errors
///
/// Want of memory for the kinds: nothing was read or written.
fn answer<S: Source, K: Sink>(
    alloc: Global,
    words: &Words,
    source: &mut S,
    sink: &mut K,
) -> Result<u8, AllocError>
    // Of the device the units are told that were made, and neither words nor a log.
    ensures answered { IfOk result (λ status. (units : List UnitSize) × IsRunAnswered words.now
        program_kinds S.left S.given source.old source.new status (K.written sink.old) (K.written sink.new)
        (λ made. made) (λ _. None) (λ _. None) [] units) }
    ensures read { IfOk result (λ status.
        IsReadFor words.now status S.left S.faults source.old source.new) }
    ensures nothing_written { IfOk result (λ status.
        status ≡ 2 → K.written sink.new ≡ K.written sink.old) }
    ensures statuses { IfOk result (λ status. (status < 5) ⊎ (status ≡ 7)) }
    ensures wrong_words { IfOk result (λ status. status ≡ 1 → task_of words.now ≡ None) }
    ensures sink_counted { IfOk result (λ status.
        IsCounted (K.faults sink.old) (K.faults sink.new) (status == 3)) }
    ensures nothing_done { OnErr result ((source.new ≡ source.old) × (sink.new ≡ sink.old)) }
{
    listed_are_lawful();
    let mut kinds = Kinds::none(alloc);
    kinds.add(Box::new(alloc, Pages)?)?;
    kinds.add(Box::new(alloc, Remap)?)?;
    kinds.add(Box::new(alloc, Vectors)?)?;
    kinds.add(Box::new(alloc, Radix)?)?;
    let mut device = Sizes::none(alloc);
    Ok(run::run(alloc, words, &kinds, source, sink, &mut device))
}

fn main(rt: HostRuntime) -> ExitCode {
    let words = match words_of(&rt) {
        Ok(words) => words,
        Err(WordsFault::Unreadable) => Words::new(rt.alloc()),
        Err(WordsFault::OutOfMemory) => return ExitCode::from(run::NO_MEMORY),
    };
    let mut source = StdSource::new(rt.reader());
    let mut sink = StdSink::new(io::writer(&rt));
    match answer(rt.alloc(), &words, &mut source, &mut sink) {
        Ok(status) => ExitCode::from(status),
        Err(AllocError) => ExitCode::from(run::NO_MEMORY),
    }
}
