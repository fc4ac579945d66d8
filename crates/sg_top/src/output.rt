// What a command makes of its input.
ghost use Rattle.std.specs.Prelude.{◌≡◌, ◌≤◌, ℕ, List, true, false, if◌then◌else◌, IfOk};
ghost use Rattle.sg_judge.specs.OwnExplained.{IsExplainedAny};
ghost use Rattle.sg_verify.specs.sg_report.sg_hist.Recovered.{is_blocked};
ghost use Rattle.sg_load.specs.sg_plain.Playing.Playable.{IsPlayable};
ghost use Rattle.sg_load.specs.sg_plain.Inside.Kept.{somebody_waits};
ghost use Rattle.sg_judge.specs.Said.{IsChecked, IsRenewed, IsTabled};
ghost use Rattle.sg_load.specs.Generated.{generated};
ghost use Rattle.sg_load.specs.Services.{answering, standard};
ghost use Rattle.sg_top.specs.Answer.{IsOfText, IsOutput, IsMultiOutput, IsOwnOutput, ended_status, has_input, is_in_threads, multi_status, report_shown, services, IsPlayOutput};
ghost use Rattle.sg_explore.specs.Tried.{most_paired};
ghost use Rattle.sg_top.specs.Inside.Pieces.{IsExploration, IsVerified, verdict_status};
ghost use Rattle.sg_verify.specs.Lines.{verdict_line_of};
ghost use Rattle.sg_top.specs.Headline.{IsShown};
ghost use Rattle.sg_explore.specs.sg_shared.Runs.{IsRunInOrder};
ghost use Rattle.sg_top.specs.declared.command.Command.TheVariants.{Load as load};
ghost use Rattle.sg_top.specs.Inside.Several.{is_waiting, some_waits};
ghost use Rattle.sg_top.specs.declared.output.Ran.TheVariants.{Nothing as nothing, One as one, Several as many};
ghost use Rattle.sg_top.specs.declared.status.Status.TheVariants.{Done as done_status, Refused as refused_status, Waits as waits_status};
ghost use Rattle.sg_top.specs.Inside.Delivery.{IsSaid};
ghost use Rattle.sg_top.specs.Inside.Plays.{IsPlayedOn};
ghost use Rattle.sg_top.specs.declared.command.Shows.TheVariants.{Costs as shows_costs};

use crate::command::{Command, Shows};
use crate::dispatch::{explore_served, share_served};
use crate::members::{members_of, play_over};
use crate::ready::{ReadyInput, ReadyRun, ready_input, ready_run};
use crate::services::{cost_served, shapes, simulate_served, verify_served};
use crate::status::Status;
use sg_cost::cost_text;
use sg_draw::{columns, picture};
use sg_edge::Gate;
use sg_explore::{Explored, Played, Progress};
use sg_judge::{History, Read, compile, compiled, explain, read_any_multi, upgraded, verdict};
use sg_load::{Accepted, ServiceKind, generate, standard};
use sg_multi::{Bytes, Interface, MultiEnd, MultiEnded, NoMemory, Served, multi_text};
use sg_verify::{End, Verdict, load_line, text, verdict_line};
use std::alloc::Global;
use std::sync::Wait;
use std::thread::Threads;

/// What was run to its end, if anything was.
#[derive(Debug, Drop)]
pub enum Ran {
    /// Nothing: the command plays nothing, or its input is refused.
    Nothing,
    /// A script over one service.
    One(Played),
    /// A script over several services.
    Several(MultiEnded),
}

/// What a command makes: the bytes to be written, the status where they are written whole, and what was run for it.
#[derive(Debug, Drop)]
pub struct Output {
    pub text: Bytes,
    pub status: Status,
    pub ran: Ran,
}

/// What a command with an input makes of it in one thread.
pub fn output_of(alloc: Global, command: Command, bytes: &[u8]) -> Result<Output, NoMemory>
    requires has { has_input command ≡ true }
    requires alone { is_in_threads command ≡ false }
    ensures { IfOk result (λ o. IsOutput command bytes.now o.ran o.status o.text) }
{
    match command {
        Command::Play { shows } => simulated(alloc, bytes, shows),
        Command::Check => checked(alloc, bytes),
        Command::Compile => tabled(alloc, bytes),
        Command::Upgrade => upgrade(alloc, bytes),
        Command::Explain => explained(alloc, bytes),
        Command::Verify => verified(alloc, bytes),
        Command::Multi { trace } => several(alloc, bytes, trace),
        Command::Run { .. } | Command::Explore { .. } | Command::Load { .. } => unreachable!(),
    }
}

// The line of a text, which says that it is accepted or why it is refused.
fn checked(alloc: Global, text: &[u8]) -> Result<Output, NoMemory>
    ensures ran { IfOk result (λ o. o.ran ≡ nothing) }
    ensures line { IfOk result (λ o. IsOfText (IsChecked services text.now) o.status o.text) }
{
    let said = verdict(alloc, text, &shapes())?;
    Ok(output_saying(said))
}

// The text of the tables of an interface that is accepted, or else the line that refuses it.
fn tabled(alloc: Global, text: &[u8]) -> Result<Output, NoMemory>
    ensures ran { IfOk result (λ o. o.ran ≡ nothing) }
    ensures tables { IfOk result (λ o. IsOfText (IsTabled services text.now) o.status o.text) }
{
    let said = compiled(alloc, text, &shapes())?;
    Ok(output_saying(said))
}

// The text of an interface that is accepted, as one of version 2, or else the line that refuses it.
fn upgrade(alloc: Global, text: &[u8]) -> Result<Output, NoMemory>
    ensures ran { IfOk result (λ o. o.ran ≡ nothing) }
    ensures text { IfOk result (λ o. IsOfText (IsRenewed services text.now) o.status o.text) }
{
    let said = upgraded(alloc, text, &shapes())?;
    Ok(output_saying(said))
}

// What is explained of an input.
fn explained(alloc: Global, bytes: &[u8]) -> Result<Output, NoMemory>
    ensures ran { IfOk result (λ o. o.ran ≡ nothing) }
    ensures said { IfOk result (λ o. IsOfText (IsExplainedAny services bytes.now) o.status o.text) }
{
    let said = explain(alloc, bytes, &shapes())?;
    Ok(output_saying(said))
}

// What is said of the history that an input prints; or the line of an input that is refused.
fn verified(alloc: Global, bytes: &[u8]) -> Result<Output, NoMemory>
    ensures ran { IfOk result (λ o. o.ran ≡ nothing) }
    ensures said { IfOk result (λ o. IsVerified bytes.now o.status o.text) }
{
    match ready_run(alloc, bytes)? {
        Read::Ready(
            ReadyRun {
                served,
                accepted,
                history,
            },
        ) => {
            let tables = compile(alloc, &accepted)?;
            let said = verify_served(alloc, served, &tables, &history)?;
            judged(alloc, accepted.interface(), &history, &said)
        }
        Read::Refused(line) => Ok(refusing(line)),
    }
}

// The output that says this of a history.
fn judged(
    alloc: Global,
    iface: &Interface,
    history: &History,
    said: &Verdict,
) -> Result<Output, NoMemory>
    ensures ran { IfOk result (λ o. o.ran ≡ nothing) }
    ensures status { IfOk result (λ o. o.status ≡ verdict_status said.now) }
    ensures line { IfOk result (λ o. o.text ≡ verdict_line_of iface.now.facts history.now.items said.now) }
{
    let text = verdict_line(alloc, iface, history, said)?;
    Ok(Output {
        text,
        status: status_saying(said),
        ran: Ran::Nothing,
    })
}

// The status of what is said of a history.
fn status_saying(said: &Verdict) -> Status
    ensures { result ≡ verdict_status said.now }
{
    match said {
        Verdict::Legal => Status::Done,
        Verdict::BadSeq { .. } | Verdict::BadReply { .. } => Status::Illegal,
    }
}

// The output that says this of a text, with the status that belongs to it.
fn output_saying(said: Read<Bytes>) -> Output
    ensures ran { result.ran ≡ nothing }
    ensures said { IsSaid said result.status result.text }
{
    let (text, status) = match said {
        Read::Ready(text) => (text, Status::Done),
        Read::Refused(line) => (line, Status::Refused),
    };
    Output {
        text,
        status,
        ran: Ran::Nothing,
    }
}

// The run of an input in one thread, with its report; or the line of an input that is refused.
fn simulated(alloc: Global, bytes: &[u8], shows: Shows) -> Result<Output, NoMemory>
    ensures { IfOk result (λ o. IsPlayOutput bytes.now false shows o.ran o.status o.text) }
{
    match ready_input(alloc, bytes)? {
        Read::Ready(
            ReadyInput {
                served,
                accepted,
                script,
            },
        ) => {
            let played = simulate_served(alloc, served, &accepted, script)?;
            reported(alloc, served, &accepted, played, shows)
        }
        Read::Refused(line) => Ok(refusing(line)),
    }
}

/// The run of an input with a thread for each client, with its report; or the line of an input that is refused.
pub fn output_of_threads<R: Threads + Wait + Sync, G: Gate>(
    rt: &R,
    alloc: Global,
    bytes: &[u8],
    trace: bool,
    gate: &G,
) -> Result<Output, NoMemory>
    ensures { IfOk result (λ o. IsPlayOutput bytes.now true (report_shown trace) o.ran o.status o.text) }
{
    match ready_input(alloc, bytes)? {
        Read::Ready(
            ReadyInput {
                served,
                accepted,
                script,
            },
        ) => {
            let played = share_served(rt, alloc, served, &accepted, script, gate)?;
            reported(alloc, served, &accepted, played, Shows::of_report(trace))
        }
        Read::Refused(line) => Ok(refusing(line)),
    }
}

/// What was found by runs of an input's script with other stops, made on all processors; or the line of an input that is refused.
pub fn explored<R: Threads + Sync, P: Progress>(
    rt: &R,
    alloc: Global,
    bytes: &[u8],
    most: u64,
    progress: &P,
) -> Result<Output, NoMemory>
    requires most { most ≤ most_paired }
    ensures ran { IfOk result (λ o. o.ran ≡ nothing) }
    ensures found { IfOk result (λ o. IsExploration bytes.now most o.status o.text) }
{
    match ready_input(alloc, bytes)? {
        Read::Ready(
            ReadyInput {
                served,
                accepted,
                script,
            },
        ) => {
            let found = explore_served(rt, alloc, served, &accepted, &script, most, progress)?;
            Ok(output_finding(found))
        }
        Read::Refused(line) => Ok(refusing(line)),
    }
}

// The output that tells what was found.
fn output_finding(found: Explored) -> Output
    ensures ran { result.ran ≡ nothing }
    ensures status { result.status ≡ (if found.waits then waits_status else done_status) }
    ensures text { result.text ≡ found.text }
{
    let Explored { text, waits } = found;
    Output {
        text,
        status: status_where(waits),
        ran: Ran::Nothing,
    }
}

// The play of an input over several services, with its report; or the line of an input that is refused.
fn several(alloc: Global, bytes: &[u8], with_trace: bool) -> Result<Output, NoMemory>
    ensures { IfOk result (λ o. IsMultiOutput bytes.now with_trace o.ran o.status o.text) }
{
    match read_any_multi(alloc, bytes, &shapes())? {
        Read::Ready((interfaces, script)) => {
            let members = members_of(alloc, interfaces.as_slice())?;
            let came = play_over(alloc, members.as_slice(), script)?;
            let text = multi_text(alloc, members.as_slice(), &came, with_trace)?;
            Ok(output_of_members(came, text))
        }
        Read::Refused(line) => Ok(refusing(line)),
    }
}

// The output of a play over several services: this text, and the status of its ends.
fn output_of_members(came: MultiEnded, text: Bytes) -> Output
    ensures text { result.text ≡ text }
    ensures status { result.status ≡ multi_status came.ends }
    ensures ran { result.ran ≡ many came }
{
    Output {
        text,
        status: status_where(some_waits(came.ends().as_slice())),
        ran: Ran::Several(came),
    }
}

// Whether some client waits at the end of a play over several services.
fn some_waits(ends: &[(u8, MultiEnd)]) -> bool
    ensures { result ≡ some_waits ends.now }
{
    ends.iter().any(|end| is_waiting(&end.1))
}

// Whether a client waits at its end, in a call of some member.
fn is_waiting(end: &MultiEnd) -> bool
    ensures { result ≡ is_waiting end.now }
{
    matches!(end, MultiEnd::Blocked { .. })
}

// The output that refuses an input with this line.
fn refusing(line: Bytes) -> Output
    ensures ran { result.ran ≡ nothing }
    ensures status { result.status ≡ refused_status }
    ensures line { result.text ≡ line }
{
    Output {
        text: line,
        status: Status::Refused,
        ran: Ran::Nothing,
    }
}

// The output of a run under an interface of a service: what is to be printed of it.
fn reported(
    alloc: Global,
    served: Served,
    accepted: &Accepted,
    played: Played,
    shows: Shows,
) -> Result<Output, NoMemory>
    requires { IsPlayedOn accepted.now served played }
    ensures text { IfOk result (λ o. IsShown shows accepted.now played o.text) }
    ensures status { IfOk result (λ o. o.status ≡ ended_status played.ends) }
    ensures ran { IfOk result (λ o. o.ran ≡ one played) }
{
    let text = shown(alloc, served, accepted, &played, shows)?;
    Ok(output_of_run(played, text))
}

// What is printed of a run under an interface of a service.
fn shown(
    alloc: Global,
    served: Served,
    accepted: &Accepted,
    played: &Played,
    shows: Shows,
) -> Result<Bytes, NoMemory>
    requires { IsPlayedOn accepted.now served played.now }
    ensures { IfOk result (IsShown shows accepted.now played.now) }
{
    match shows {
        Shows::Report => text(alloc, accepted.interface(), played.ended(), false),
        Shows::Trace => text(alloc, accepted.interface(), played.ended(), true),
        Shows::Costs => costs_shown(alloc, served, accepted, played),
        Shows::Picture => picture(alloc, accepted.interface(), played.ended()),
        Shows::Columns => columns(alloc, accepted.interface(), played.ended()),
    }
}

// What the calls of a run could cost after one more stop.
fn costs_shown(
    alloc: Global,
    served: Served,
    accepted: &Accepted,
    played: &Played,
) -> Result<Bytes, NoMemory>
    requires { IsPlayedOn accepted.now served played.now }
    ensures { IfOk result (IsShown shows_costs accepted.now played.now) }
{
    let tables = compile(alloc, accepted)?;
    let costs = cost_served(alloc, served, &tables, played.ended())?;
    cost_text(alloc, tables.interface(), &costs)
}

/// The run of the script that is generated for a service from a number, with its line.
pub fn loaded(alloc: Global, service: ServiceKind, number: u64) -> Result<Output, NoMemory>
    ensures { IfOk result (λ o. IsOwnOutput (load service number) o.ran o.status o.text) }
{
    let played = load_of(alloc, service, number)?;
    let line = load_line(alloc, &service.shape(), number, played.ended())?;
    Ok(output_of_run(played, line))
}

// The run of the script that is generated for a service from a number.
fn load_of(alloc: Global, service: ServiceKind, number: u64) -> Result<Played, NoMemory>
    ensures playable { IfOk result (λ ended. IsPlayable (standard service) (generated service number)) }
    ensures run { IfOk result (IsRunInOrder (standard service) (answering service) (generated service number)) }
{
    let accepted = standard(alloc, service)?;
    let script = generate(alloc, service, number)?;
    simulate_served(alloc, Served::BuiltIn(service), &accepted, script)
}

// The output of a run: this text, and the status of its ends.
fn output_of_run(played: Played, text: Bytes) -> Output
    ensures text { result.text ≡ text }
    ensures status { result.status ≡ ended_status played.ends }
    ensures ran { result.ran ≡ one played }
{
    Output {
        text,
        status: status_of(played.ended().ends.as_slice()),
        ran: Ran::One(played),
    }
}

// The status of a play that came to its end.
fn status_of(ends: &[(u8, End)]) -> Status
    ensures { result ≡ ended_status ends.now }
{
    status_where(somebody_waits(ends))
}

// The status of runs, by whether some client waits at the end of one.
fn status_where(waits: bool) -> Status
    ensures { result ≡ (if waits then waits_status else done_status) }
{
    if waits { Status::Waits } else { Status::Done }
}

// Whether some client waits at its end.
fn somebody_waits(ends: &[(u8, End)]) -> bool
    ensures { result ≡ somebody_waits ends.now }
{
    ends.iter().any(|end| waits(&end.1))
}

// Whether a client waits at its end.
fn waits(end: &End) -> bool
    ensures { result ≡ is_blocked end.now }
{
    matches!(end, End::Blocked(_))
}
