//! The top call: from the words and the bytes of a source to those of a sink, the words of a device, and a status.

ghost use Rattle.std.specs.Prelude.{◌≡◌, ◌==◌, ◌<◌, ◌≤◌, ◌⊎◌, ◌++◌, [], false, codes, length, IfOk, IsTrue, None, Some};
ghost use Rattle.std.specs.List.{list_all};
ghost use Rattle.std.specs.Option.{option_copied};
ghost use Rattle.dn_base.specs.Terms.{IsCounted, input_limit};
ghost use Rattle.dn_kind.specs.Terms.{AreKinds, kinds_of, shape_fault};
ghost use Rattle.dn_module.specs.Terms.{names_within};
ghost use Rattle.dn_words.specs.Terms.{task_of};
ghost use Rattle.dn_script.specs.Terms.{HaltsByEither, HaltsBySink, IsMachine, MayRun, ending_status};
ghost use Rattle.dn_tool.specs.Terms.{IsAnswered, IsReadFor, IsRunAnswered, IsSaid, bytes_answer, commands_answer, demo_answer, is_script, limit_for, parts_view, task_answer, text_answer, usage};
ghost use Rattle.dn_print.specs.Terms.{net_text};

use crate::audit::answer_image;
use crate::compile::{CompileFault, Platform};
use crate::demo::play_all;
use crate::input::{Input, is_too_long, parts_of, read_input};
pub use crate::refusal::REFUSED;
use crate::refusal::Refusal;
use crate::said::{say, write_net};
use crate::{OutOfMemory, compile};
use dn_base::device::Tables;
use dn_base::sink::Sink;
use dn_base::source::Source;
use dn_base::whole::InputFault;
use dn_demo::text::demo_text;
use dn_kind::kinded::KindedNet;
use dn_kind::kinds::Kinds;
use dn_module::commands::Commands;
pub use dn_script::halt::{DEVICE_FAULT, NO_MEMORY, WRITE_FAULT};
use dn_script::halt::{RunHalt, status_of};
use dn_script::machine::Machine;
pub use dn_script::script::DONE;
use dn_script::script::answer_all;
use dn_script::state::Session;
use dn_words::words::{Task, Words};
use std::alloc::Global;

/// The words are of none of the forms.
pub const WRONG_WORDS: u8 = 1;
/// The source failed.
pub const READ_FAULT: u8 = 2;

/// Answers the words: reads the source's text, writes what it comes to, and gives the status.
///
/// The forms of words are `run`, `check`, `audit` and `demo N`, of which the first three read. Nothing is read
/// where the words are of no form. `run` makes the units of the text on the device, which has none so far, and
/// answers the commands. `audit` reads a text, a byte 0 and an image, runs no command and leaves the device
/// alone. The units of the text are of these kinds, at most 255.
pub fn run<S: Source, K: Sink, D: Tables>(
    alloc: Global,
    words: &Words,
    kinds: &Kinds,
    source: &mut S,
    sink: &mut K,
    device: &mut D,
) -> u8
    requires few_kinds { length kinds.now.list.items ≤ 255 }
    requires kinds { AreKinds meaning kinds.now }
    requires none { D.units device.old ≡ [] }
    // There are bytes to whose answer the run came, and where the words read the source and it tells its
    // bytes they are these: a status and an output, and then the device is as it was; or a script, as far
    // as the run came over it.
    ensures answered { IsRunAnswered words.now (kinds_of meaning kinds.now) S.left S.given
        source.old source.new result (K.written sink.old) (K.written sink.new) D.units D.words D.log
        device.old device.new }
    // With `check` and `audit` the device is as it was, whatever the answer is.
    ensures checked { task_of words.now ≡ Some Task.Check → device.new ≡ device.old }
    ensures audited { task_of words.now ≡ Some Task.Audit → device.new ≡ device.old }
    ensures nothing_done { result ≡ 2 →
        (K.written sink.new ≡ K.written sink.old) × (device.new ≡ device.old) }
    ensures statuses { (result < 5) ⊎ ((result ≡ 6) ⊎ (result ≡ 7)) }
    ensures wrong_words { result ≡ 1 → task_of words.now ≡ None }
    // How much is read of the source, and when its fault is the status.
    ensures read { IsReadFor words.now result S.left S.faults source.old source.new }
    // Status 3 or 6 comes only where the count of the sink or of the device rose in this call, and never
    // over an object that never fails. At every other status the count is as it was, over one that
    // answers each fault by the call in which it comes.
    ensures sink_counted { IsCounted (K.faults sink.old) (K.faults sink.new) (result == 3) }
    ensures device_counted { IsCounted (D.faults device.old) (D.faults device.new) (result == 6) }
{
    let task = match words.task() {
        Ok(Some(task)) => task,
        Ok(None) => return status_of(refuse_words(sink)),
        Err(OutOfMemory) => return NO_MEMORY,
    };
    if let Task::Demo(agents) = task {
        return demo(alloc, agents, kinds, sink, device);
    }
    let bytes = match read_input(alloc, task, source) {
        Ok(bytes) => bytes,
        Err(InputFault::Failed) => return READ_FAULT,
        Err(InputFault::OutOfMemory) => return NO_MEMORY,
    };
    status_of(answer_bytes(alloc, task, kinds, &bytes, sink, device))
}

/// Runs the demonstration with so many agents, from 1 to 64: grants and revokes over a text that is
/// made for them, and one line that sums up what came of it. Its status is 0, or one of a fault: 3, 4,
/// 6 or 7, as `run` gives them.
pub fn demo<K: Sink, D: Tables>(
    alloc: Global,
    agents: u8,
    kinds: &Kinds,
    sink: &mut K,
    device: &mut D,
) -> u8
    requires some { 0 < agents }
    requires few_kinds { length kinds.now.list.items ≤ 255 }
    requires kinds { AreKinds meaning kinds.now }
    requires none { D.units device.old ≡ [] }
    ensures answered { IsAnswered (kinds_of meaning kinds.now)
        (demo_answer agents (kinds_of meaning kinds.now)) result (K.written sink.old)
        (K.written sink.new) (D.log device.old) (D.log device.new) (D.units device.new)
        (D.words device.new) }
    ensures untouched { is_script (demo_answer agents (kinds_of meaning kinds.now))
        ≡ false → device.new ≡ device.old }
    ensures statuses { ((result ≡ 0) ⊎ (result ≡ 3))
        ⊎ ((result ≡ 4) ⊎ ((result ≡ 6) ⊎ (result ≡ 7))) }
    ensures sink_counted { IsCounted (K.faults sink.old) (K.faults sink.new) (result == 3) }
    ensures device_counted { IsCounted (D.faults device.old) (D.faults device.new) (result == 6) }
{
    match demo_text(alloc, agents) {
        Ok(text) => status_of(answer_bytes(alloc, Task::Demo(agents), kinds, &text, sink, device)),
        Err(_) => NO_MEMORY,
    }
}

/// Writes the line that says how the program is used.
fn refuse_words<K: Sink>(sink: &mut K) -> Result<u8, RunHalt>
    ensures said { IsSaid 1 usage (ending_status result) (K.written sink.old) (K.written sink.new) }
    ensures status { IfOk result (λ s. s ≡ 1) }
    ensures halted { HaltsBySink result (K.faults sink.old) (K.faults sink.new) }
{
    say(sink, "usage: netconf COMMAND [N]\n".as_bytes(), WRONG_WORDS)
}

/// Answers the bytes that a task is about, and gives the status.
fn answer_bytes<K: Sink, D: Tables>(
    alloc: Global,
    task: Task,
    kinds: &Kinds,
    bytes: &[u8],
    sink: &mut K,
    device: &mut D,
) -> Result<u8, RunHalt>
    requires { MayRun meaning kinds.now (D.units device.old) }
    ensures answered { IsAnswered (kinds_of meaning kinds.now) (bytes_answer task
        (kinds_of meaning kinds.now) bytes.now) (ending_status result) (K.written sink.old)
        (K.written sink.new) (D.log device.old) (D.log device.new) (D.units device.new)
        (D.words device.new) }
    ensures untouched { is_script (bytes_answer task (kinds_of meaning kinds.now) bytes.now)
        ≡ false → device.new ≡ device.old }
    ensures which { IfOk result (λ s. (s ≡ 0) ⊎ (s ≡ 4)) }
    ensures halted { HaltsByEither result (K.faults sink.old) (K.faults sink.new)
        (D.faults device.old) (D.faults device.new) }
    ensures short { IfOk result (λ s. s ≡ 0 → length bytes.now < limit_for (Some task)) }
{
    if is_too_long(task, bytes) {
        return say(sink, "refused: InputLength\n".as_bytes(), REFUSED);
    }
    answer_text(alloc, task, kinds, parts_of(task, bytes), sink, device)
}

/// Compiles a text, gives its answer, and the status of that.
fn answer_text<K: Sink, D: Tables>(
    alloc: Global,
    task: Task,
    kinds: &Kinds,
    input: Input,
    sink: &mut K,
    device: &mut D,
) -> Result<u8, RunHalt>
    requires { MayRun meaning kinds.now (D.units device.old) }
    ensures answered { IsAnswered (kinds_of meaning kinds.now) (text_answer task
        (kinds_of meaning kinds.now) (parts_view input.entry)) (ending_status result) (K.written
        sink.old) (K.written sink.new) (D.log device.old) (D.log device.new)
        (D.units device.new) (D.words device.new) }
    ensures untouched { is_script (text_answer task (kinds_of meaning kinds.now)
        (parts_view input.entry)) ≡ false → device.new ≡ device.old }
    ensures which { IfOk result (λ s. (s ≡ 0) ⊎ (s ≡ 4)) }
    ensures halted { HaltsByEither result (K.faults sink.old) (K.faults sink.new)
        (D.faults device.old) (D.faults device.new) }
    ensures short { IfOk result (λ s. s ≡ 0 → length input.entry.text.now < input_limit) }
{
    match compile::compile(alloc, input.text, kinds) {
        Ok(platform) => answer_task(alloc, task, kinds, &platform, input.image, sink, device),
        Err(CompileFault::Refused(refusal)) => refuse(alloc, &refusal, sink),
        Err(CompileFault::OutOfMemory) => Err(RunHalt::NoMemory),
    }
}

/// Does what the words ask for with a platform, and gives the status: makes its units and goes through its
/// commands, prints its net, or says what its agents see under the image.
fn answer_task<K: Sink, D: Tables>(
    alloc: Global,
    task: Task,
    kinds: &Kinds,
    platform: &Platform,
    image: Option<&[u8]>,
    sink: &mut K,
    device: &mut D,
) -> Result<u8, RunHalt>
    requires kinds { AreKinds meaning kinds.now }
    requires shaped { shape_fault (kinds_of meaning kinds.now) platform.now.net ≡ None }
    requires none { D.units device.old ≡ [] }
    ensures answered { IsAnswered (kinds_of meaning kinds.now) (task_answer task (kinds_of
        meaning kinds.now) (option_copied image.entry) platform.now.net platform.now.commands)
        (ending_status result) (K.written sink.old) (K.written sink.new) (D.log device.old)
        (D.log device.new) (D.units device.new) (D.words device.new) }
    ensures untouched { is_script (task_answer task (kinds_of meaning kinds.now) (option_copied
        image.entry) platform.now.net platform.now.commands) ≡ false → device.new ≡ device.old }
    ensures which { IfOk result (λ s. (s ≡ 0) ⊎ (s ≡ 4)) }
    ensures halted { HaltsByEither result (K.faults sink.old) (K.faults sink.new)
        (D.faults device.old) (D.faults device.new) }
{
    let machine = Machine {
        on: KindedNet {
            net: &platform.net,
            kinds,
        },
        walks: &platform.walks,
    };
    let commands = &platform.commands;
    match task {
        Task::Run => run_commands(alloc, machine, None, commands, sink, device),
        Task::Check => print_net(alloc, machine, sink),
        Task::Audit => answer_image(alloc, machine, image, sink),
        Task::Demo(agents) => run_commands(alloc, machine, Some(agents), commands, sink, device),
    }
}

/// Makes the units, and goes through the commands over them: as those of a script, or of a demonstration with so
/// many agents. The status is `DONE`.
fn run_commands<K: Sink, D: Tables>(
    alloc: Global,
    machine: Machine,
    agents: Option<u8>,
    commands: &Commands,
    sink: &mut K,
    device: &mut D,
) -> Result<u8, RunHalt>
    requires machine { IsMachine meaning machine }
    requires known { IsTrue (list_all (names_within (length machine.on.net.now)) commands.now) }
    requires none { D.units device.old ≡ [] }
    ensures answered { IsAnswered (kinds_of meaning machine.entry.on.kinds.now)
        (commands_answer agents machine.entry.on.net.now commands.now) (ending_status result)
        (K.written sink.old) (K.written sink.new) (D.log device.old) (D.log device.new)
        (D.units device.new) (D.words device.new) }
    ensures done { IfOk result (λ s. s ≡ 0) }
    ensures halted { HaltsByEither result (K.faults sink.old) (K.faults sink.new)
        (D.faults device.old) (D.faults device.new) }
{
    let mut state = Session::make(alloc, machine, device)?;
    match agents {
        None => answer_all(alloc, machine, &mut state, commands, sink, device),
        Some(agents) => play_all(alloc, machine, agents, &mut state, commands, sink, device),
    }
}

/// Writes the net, a statement for each node. The status is `DONE`.
fn print_net<K: Sink>(alloc: Global, machine: Machine, sink: &mut K) -> Result<u8, RunHalt>
    requires machine { IsMachine meaning machine }
    ensures said { IsSaid 0 (net_text (kinds_of meaning machine.entry.on.kinds.now)
        machine.entry.on.net.now) (ending_status result) (K.written sink.old) (K.written sink.new) }
    ensures done { IfOk result (λ s. s ≡ 0) }
    ensures halted { HaltsBySink result (K.faults sink.old) (K.faults sink.new) }
{
    write_net(alloc, machine.on, sink)?;
    Ok(DONE)
}

/// Writes the line of a refusal. The status is `REFUSED`.
fn refuse<K: Sink>(alloc: Global, refusal: &Refusal, sink: &mut K) -> Result<u8, RunHalt>
    ensures said { IsSaid 4 (refusal.now.text ++ codes "\n")
        (ending_status result) (K.written sink.old) (K.written sink.new) }
    ensures status { IfOk result (λ s. s ≡ 4) }
    ensures halted { HaltsBySink result (K.faults sink.old) (K.faults sink.new) }
{
    let text = refusal.text();
    let line = format!(in alloc; "{text}\n")?;
    say(sink, line.as_bytes(), REFUSED)
}
