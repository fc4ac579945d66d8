// The top call.
ghost use Rattle.std.specs.Prelude.{◌≡◌, ◌≤◌, ◌+◌, true, false, IfOk, OnErr};
ghost use Rattle.sg_edge.specs.Edge.{ConsumesAtMost};
ghost use Rattle.sg_top.specs.Answer.{IsAnswer, IsCommand, IsSerialCommand, ReadsInput, has_input, is_in_threads, most_bytes};
ghost use Rattle.sg_top.specs.Inside.Delivery.{IsWritten};
ghost use Rattle.sg_explore.specs.Tried.{most_paired};
ghost use Rattle.sg_top.specs.declared.command.Command.TheVariants.{Explore as exploration, Run as run};
ghost use Rattle.sg_top.specs.declared.output.Ran.TheVariants.{Nothing as nothing};
ghost use Rattle.sg_top.specs.declared.status.Status.TheVariants.{NoMemory as no_memory};

use crate::command::Command;
use crate::output::{Output, Ran, explored, loaded, output_of, output_of_threads};
use crate::status::Status;
use sg_edge::{Gate, Intake, ReadError, Sink, Source, read_all, write_all};
use sg_explore::{Played, Progress};
use sg_judge::{MOST_INPUT, TOO_LONG};
use sg_multi::{MultiEnded, NoMemory};
use std::alloc::Global;
use std::sync::Wait;
use std::thread::Threads;

/// What a call of the program came to.
#[derive(Debug, Drop)]
pub struct Answer {
    /// How the call ended.
    pub status: Status,
    /// What was run to its end, over one service or over several, where the status is `Done`, `Waits` or `WriteFault`.
    pub ran: Ran,
}

impl Answer {
    ghost use Rattle.std.specs.Prelude.{◌≡◌};
    ghost use Rattle.std.specs.Option.{option_copied};
    ghost use Rattle.sg_top.specs.Answer.{multi_in, one_in};

    /// The run of a play over one service that came to its end, lent.
    pub fn ended(&self) -> Option<&Played>
        ensures { option_copied result ≡ one_in self.now.ran }
    {
        match &self.ran {
            Ran::One(played) => Some(played),
            _ => None,
        }
    }

    /// What a play over several services came to, lent.
    pub fn multi(&self) -> Option<&MultiEnded>
        ensures { option_copied result ≡ multi_in self.now.ran }
    {
        match &self.ran {
            Ran::Several(came) => Some(came),
            _ => None,
        }
    }
}

/// Does what the words after the program's name say: `sim` plays the input in one thread, `run` with a thread for each client,
/// and `sim trace` and `run trace` print too what was done to the service; `cost` plays the input as `sim` does, and prints what its
/// calls could cost after one more stop, and `draw` draws what was done to the service, with `text` after it in the columns of a terminal;
/// `explore` plays the script with a stop at each point, and with a number after it with each two stops up to that point, on all
/// processors, and prints what differs; `check` says whether the input is the text of an
/// interface that is accepted, `compile` prints the tables of such a text, `upgrade` prints it as one of version 2, `explain` says of an input
/// what `check` or `sim` would say of it, and why, `verify` says whether the entries of a
/// printed run are a legal history, `multi` plays one script over several services, each with stops of its own, and `multi trace` prints too
/// what was done to each, `load SERVICE NUMBER` plays the script that is generated for a service from a number and prints one
/// line, and any other words are answered by `OtherWords`.
/// It reads nothing for a load, and else at most one byte more than the command's input may have, makes its whole output before it
/// writes any of it, and answers with the status that says how it ended, and with the run of a play. For `run` each thread passes the
/// gate before it offers a call of its client, and after the call was answered. For `explore` the progress is told how many of its runs
/// are made.
pub fn superglue<R: Threads + Wait + Sync, I: Source, O: Sink, G: Gate, P: Progress>(
    rt: &R,
    alloc: Global,
    words: &[String],
    input: &mut I,
    output: &mut O,
    gate: &G,
    progress: &P,
) -> Answer
    ensures answer { IsAnswer (IsCommand words.now)
        (record { told = I.left input.old; faults = I.faults input.old }) (record { told = I.left input.new; faults = I.faults input.new })
        (record { told = O.written output.old; faults = O.faults output.old }) (record { told = O.written output.new; faults = O.faults output.new })
        result.status result.ran }
    ensures most_read { ReadsInput (IsCommand words.now) (I.left input.old) (I.left input.new) }
{
    let Some(command) = Command::of_words(words) else {
        return without_run(Status::OtherWords);
    };
    match command {
        Command::Run { trace } => with_threads(rt, alloc, trace, input, output, gate),
        Command::Explore { most } => with_exploration(rt, alloc, most, input, output, progress),
        Command::Play { .. }
        | Command::Check
        | Command::Compile
        | Command::Upgrade
        | Command::Explain
        | Command::Verify
        | Command::Multi { .. }
        | Command::Load { .. } => in_one_thread(alloc, command, input, output),
    }
}

/// What `superglue` does, in one thread and with no handle, for all words but those of `run` and `explore`, which are other words here.
/// It always returns.
pub fn serial<I: Source, O: Sink>(
    alloc: Global,
    words: &[String],
    input: &mut I,
    output: &mut O,
) -> Answer
    ensures answer { IsAnswer (IsSerialCommand words.now)
        (record { told = I.left input.old; faults = I.faults input.old }) (record { told = I.left input.new; faults = I.faults input.new })
        (record { told = O.written output.old; faults = O.faults output.old }) (record { told = O.written output.new; faults = O.faults output.new })
        result.status result.ran }
    ensures most_read { ReadsInput (IsSerialCommand words.now) (I.left input.old) (I.left input.new) }
{
    let Some(command) = Command::of_words(words) else {
        return without_run(Status::OtherWords);
    };
    if command.is_in_threads() {
        return without_run(Status::OtherWords);
    }
    in_one_thread(alloc, command, input, output)
}

// Does what a command says that one thread does.
fn in_one_thread<I: Source, O: Sink>(
    alloc: Global,
    command: Command,
    input: &mut I,
    output: &mut O,
) -> Answer
    requires { is_in_threads command ≡ false }
    ensures answer { IsAnswer (λ said. said ≡ command)
        (record { told = I.left input.old; faults = I.faults input.old }) (record { told = I.left input.new; faults = I.faults input.new })
        (record { told = O.written output.old; faults = O.faults output.old }) (record { told = O.written output.new; faults = O.faults output.new })
        result.status result.ran }
    ensures most_read { ReadsInput (λ said. said ≡ command) (I.left input.old) (I.left input.new) }
{
    match command {
        Command::Load { service, number } => deliver_made(output, loaded(alloc, service, number)),
        Command::Play { .. }
        | Command::Check
        | Command::Compile
        | Command::Upgrade
        | Command::Explain
        | Command::Verify
        | Command::Multi { .. } => with_input(alloc, command, input, output),
        Command::Run { .. } | Command::Explore { .. } => unreachable!(),
    }
}

// Reads the input of a play with a thread for each client, and writes its report.
fn with_threads<R: Threads + Wait + Sync, I: Source, O: Sink, G: Gate>(
    rt: &R,
    alloc: Global,
    trace: bool,
    input: &mut I,
    output: &mut O,
    gate: &G,
) -> Answer
    ensures answer { IsAnswer (λ said. said ≡ run trace)
        (record { told = I.left input.old; faults = I.faults input.old }) (record { told = I.left input.new; faults = I.faults input.new })
        (record { told = O.written output.old; faults = O.faults output.old }) (record { told = O.written output.new; faults = O.faults output.new })
        result.status result.ran }
    ensures most_read { ReadsInput (λ said. said ≡ run trace) (I.left input.old) (I.left input.new) }
{
    match read_all(alloc, input, MOST_INPUT) {
        Ok(Intake::Whole(bytes)) => {
            let made = output_of_threads(rt, alloc, bytes.as_slice(), trace, gate);
            deliver_made(output, made)
        }
        Ok(Intake::TooLong) => deliver(output, TOO_LONG, Status::Refused, Ran::Nothing),
        Err(ReadError::Failed) => without_run(Status::ReadFault),
        Err(ReadError::NoMemory) => without_run(Status::NoMemory),
    }
}

// Reads the input of an exploration, and writes what was found.
fn with_exploration<R: Threads + Sync, I: Source, O: Sink, P: Progress>(
    rt: &R,
    alloc: Global,
    most: u64,
    input: &mut I,
    output: &mut O,
    progress: &P,
) -> Answer
    requires most { most ≤ most_paired }
    ensures answer { IsAnswer (λ said. said ≡ exploration most)
        (record { told = I.left input.old; faults = I.faults input.old }) (record { told = I.left input.new; faults = I.faults input.new })
        (record { told = O.written output.old; faults = O.faults output.old }) (record { told = O.written output.new; faults = O.faults output.new })
        result.status result.ran }
    ensures most_read { ReadsInput (λ said. said ≡ exploration most) (I.left input.old) (I.left input.new) }
{
    match read_all(alloc, input, MOST_INPUT) {
        Ok(Intake::Whole(bytes)) => {
            let made = explored(rt, alloc, bytes.as_slice(), most, progress);
            deliver_made(output, made)
        }
        Ok(Intake::TooLong) => deliver(output, TOO_LONG, Status::Refused, Ran::Nothing),
        Err(ReadError::Failed) => without_run(Status::ReadFault),
        Err(ReadError::NoMemory) => without_run(Status::NoMemory),
    }
}

// Reads the input of a command that has one, and writes what the command makes of it in one thread.
fn with_input<I: Source, O: Sink>(
    alloc: Global,
    command: Command,
    input: &mut I,
    output: &mut O,
) -> Answer
    requires has { has_input command ≡ true }
    requires alone { is_in_threads command ≡ false }
    ensures answer { IsAnswer (λ said. said ≡ command)
        (record { told = I.left input.old; faults = I.faults input.old }) (record { told = I.left input.new; faults = I.faults input.new })
        (record { told = O.written output.old; faults = O.faults output.old }) (record { told = O.written output.new; faults = O.faults output.new })
        result.status result.ran }
    ensures most_read { ConsumesAtMost (most_bytes command + 1) (I.left input.old) (I.left input.new) }
{
    match read_all(alloc, input, command.most_bytes()) {
        Ok(Intake::Whole(bytes)) => {
            deliver_made(output, output_of(alloc, command, bytes.as_slice()))
        }
        Ok(Intake::TooLong) => deliver(
            output,
            command.too_long_output(),
            Status::Refused,
            Ran::Nothing,
        ),
        Err(ReadError::Failed) => without_run(Status::ReadFault),
        Err(ReadError::NoMemory) => without_run(Status::NoMemory),
    }
}

// Writes what a command made; or answers that there was no memory for it, and writes nothing.
fn deliver_made<O: Sink>(output: &mut O, made: Result<Output, NoMemory>) -> Answer
    ensures made { IfOk made (λ o. (result.ran ≡ o.ran) × IsWritten
        (record { told = O.written output.old; faults = O.faults output.old }) (record { told = O.written output.new; faults = O.faults output.new })
        o.text o.status result.status) }
    ensures unmade { OnErr made ((result.status ≡ no_memory) × (result.ran ≡ nothing) × (O.written output.new ≡ O.written output.old) × (O.faults output.new ≡ O.faults output.old)) }
    ensures count { O.faults output.old ≤ O.faults output.new }
{
    match made {
        Ok(Output { text, status, ran }) => deliver(output, text.as_slice(), status, ran),
        Err(_) => without_run(Status::NoMemory),
    }
}

// Writes an output, and answers its status, or a write fault where a write failed.
fn deliver<O: Sink>(output: &mut O, text: &[u8], status: Status, ran: Ran) -> Answer
    ensures ran { result.ran ≡ ran }
    ensures written { IsWritten
        (record { told = O.written output.old; faults = O.faults output.old }) (record { told = O.written output.new; faults = O.faults output.new })
        text.now status result.status }
    ensures count { O.faults output.old ≤ O.faults output.new }
{
    match write_all(output, text) {
        Ok(()) => Answer { status, ran },
        Err(_) => Answer {
            status: Status::WriteFault,
            ran,
        },
    }
}

// An answer without a run.
fn without_run(status: Status) -> Answer
    ensures status { result.status ≡ status }
    ensures ran { result.ran ≡ nothing }
{
    Answer {
        status,
        ran: Ran::Nothing,
    }
}
