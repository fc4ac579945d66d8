// The printed run.
ghost use Rattle.std.specs.Prelude.{◌≡◌, ◌≤◌, ◌++◌, if◌then◌else◌, [], OnOk, IfOk, length, map, codes};
ghost use Rattle.std.specs.Fmt.{decimal};
ghost use Rattle.std.specs.List.{flat_map};
ghost use Rattle.sg_facts.specs.Trace.{run_of};
ghost use Rattle.sg_facts.specs.Words.{line_end};
ghost use Rattle.sg_facts.specs.Facts.{facts_of};
ghost use Rattle.sg_report.specs.Report.{counts_text, entry_line, load_line_of, report_of, end_text};
ghost use Rattle.sg_hist.specs.Lent.{entry_in};
ghost use Rattle.sg_report.specs.Inside.Pieces.{blocked_among};

use crate::traced::{push_trace, replays_in};
use crate::words::{push_answer, push_call, push_number};
use sg_facts::{Bytes, Interface, LentCall, NoMemory, Shape, Trace};
use sg_hist::{End, Ended, History, LentEntry};
use std::alloc::Global;

/// The printed run: a line for each entry of its history, a line for each client that has a call, the counts of entries, boots
/// and replayed calls, and with a trace what was done to the service, boot by boot. A function that the interface's shape
/// doesn't have is printed without a name.
pub fn text(
    alloc: Global,
    iface: &Interface,
    ended: &Ended,
    with_trace: bool,
) -> Result<Bytes, NoMemory>
    ensures { IfOk result (λ bytes. bytes ≡ report_of iface.now.facts ended.now with_trace) }
{
    let mut out = Bytes::new(alloc);
    push_entries(&mut out, iface, &ended.history)?;
    push_ends(&mut out, iface, ended.ends.as_slice())?;
    push_counts(&mut out, &ended.history, &ended.trace)?;
    out.extend_from_slice(b"\n")?;
    if with_trace {
        push_trace(&mut out, iface, &ended.trace)?;
    }
    Ok(out)
}

/// The line of a generated load: its service and the number that it was generated from, the counts of entries, boots and
/// replayed calls, and how many clients wait at the end.
pub fn load_line(
    alloc: Global,
    service: &Shape,
    number: u64,
    ended: &Ended,
) -> Result<Bytes, NoMemory>
    ensures { IfOk result (λ line. line ≡ load_line_of (facts_of service.now).name number ended.now) }
{
    let mut out = Bytes::new(alloc);
    out.extend_from_slice(b"load ")?;
    out.extend_from_slice(service.name)?;
    out.extend_from_slice(b" ")?;
    push_number(&mut out, number)?;
    out.extend_from_slice(b": ")?;
    push_counts(&mut out, &ended.history, &ended.trace)?;
    out.extend_from_slice(b" blocked ")?;
    push_number(&mut out, blocked_among(ended.ends.as_slice()) as u64)?;
    out.extend_from_slice(b"\n")?;
    Ok(out)
}

// How many of these ends are those of clients that wait.
fn blocked_among(ends: &[(u8, End)]) -> usize
    ensures count { result ≡ blocked_among ends.now }
    ensures most { result ≤ length ends.now }
{
    match ends {
        [] => 0,
        [(_, End::Done), rest @ ..] => blocked_among(rest),
        [(_, End::Blocked(_)), rest @ ..] => 1 + blocked_among(rest),
    }
}

// A line for each entry.
#[tactic(auto, using(std::proofs::lemmas::Grind::common_steps, sg_facts::proofs::Places::take_next))]
fn push_entries(out: &mut Bytes, iface: &Interface, history: &History) -> Result<(), NoMemory>
    ensures { OnOk result (out.new ≡ out.old ++ flat_map (entry_line iface.now.facts) history.now.items) }
{
    'entries: for at in 0..history.len() {
        push_entry(out, iface, &history.at(at))?;
    }
    Ok(())
}

/// Adds the line of an entry: its client, its number, the call and the reply.
pub fn push_entry(out: &mut Bytes, iface: &Interface, entry: &LentEntry) -> Result<(), NoMemory>
    ensures { OnOk result (out.new ≡ out.old ++ entry_line iface.now.facts (entry_in entry.now)) }
{
    out.extend_from_slice(b"c")?;
    push_number(out, u64::from(entry.call.client))?;
    out.extend_from_slice(b".")?;
    push_number(out, u64::from(entry.call.seq))?;
    out.extend_from_slice(b" ")?;
    push_call(out, iface, &entry.call)?;
    out.extend_from_slice(b" = ")?;
    push_answer(out, &iface.fun(entry.call.fun), &entry.reply)?;
    out.extend_from_slice(b"\n")
}

// A line for each client.
fn push_ends(out: &mut Bytes, iface: &Interface, ends: &[(u8, End)]) -> Result<(), NoMemory>
    ensures { OnOk result (out.new ≡ out.old ++ flat_map (λ e. codes "client " ++ decimal e.0 ++ end_text iface.now.facts e.1 ++ line_end) ends.now) }
{
    for (client, end) in ends {
        out.extend_from_slice(b"client ")?;
        push_number(out, u64::from(*client))?;
        push_end(out, iface, end)?;
        out.extend_from_slice(b"\n")?;
    }
    Ok(())
}

// How a client ended.
fn push_end(out: &mut Bytes, iface: &Interface, end: &End) -> Result<(), NoMemory>
    ensures { OnOk result (out.new ≡ out.old ++ end_text iface.now.facts end.now) }
{
    match end {
        End::Done => out.extend_from_slice(b" done"),
        End::Blocked(call) => {
            out.extend_from_slice(b" blocked ")?;
            push_call(out, iface, &LentCall::of(call))
        }
    }
}

/// Adds the counts of a run's entries, boots and replayed calls, without the end of a line.
pub fn push_counts(out: &mut Bytes, history: &History, trace: &Trace) -> Result<(), NoMemory>
    ensures { OnOk result (out.new ≡ out.old ++ counts_text history.now.items (run_of trace.now)) }
{
    let boots = trace.boots.as_slice();
    out.extend_from_slice(b"calls ")?;
    push_number(out, history.len() as u64)?;
    out.extend_from_slice(b" boots ")?;
    push_number(out, boots.len() as u64)?;
    out.extend_from_slice(b" replays ")?;
    push_number(out, replays_in(boots))
}
