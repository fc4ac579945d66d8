// The trace, boot by boot.
ghost use Rattle.std.specs.Prelude.{◌≡◌, ◌++◌, ◌+◌, [], OnOk, filter, length, map, min, codes, true};
ghost use Rattle.std.specs.Fmt.{decimal};
ghost use Rattle.std.specs.List.{flat_map};
ghost use Rattle.sg_facts.specs.Trace.{run_of};
ghost use Rattle.sg_facts.specs.Inside.Rows.{boot_of};
ghost use Rattle.sg_hist.specs.Reading.{items_of};
ghost use Rattle.sg_report.specs.Inside.Pieces.{is_replay_for};
ghost use Rattle.sg_report.specs.Report.{boots_lines, call_text, item_text, outcome_text, replays_for};
ghost use Rattle.sg_report.specs.Inside.Pieces.{boot_lines, replays_of, stop_line, trace_lines};
ghost use Rattle.sg_facts.specs.Lent.{outcome_in, tag_in};
ghost use Rattle.sg_facts.specs.sg_base.Counts.{last_count};
ghost use Rattle.sg_facts.specs.sg_base.Lent.{call_in};
ghost use Rattle.sg_facts.specs.Words.{line_end};

use crate::words::{push_call, push_number};
use sg_facts::{
    BootLog, Bytes, Interface, ItemList, LentCall, LentItem, LentOutcome, LentTag, NoMemory, Trace,
};

/// What was done to the service, boot by boot, and the number of points asked.
pub fn push_trace(out: &mut Bytes, iface: &Interface, trace: &Trace) -> Result<(), NoMemory>
    ensures { OnOk result (out.new ≡ out.old ++ trace_lines iface.now.facts (run_of trace.now)) }
{
    push_boots(out, iface, trace.boots.as_slice())?;
    out.extend_from_slice(b"points ")?;
    push_number(out, trace.points)?;
    out.extend_from_slice(b"\n")
}

// The boots, numbered from 1.
fn push_boots(out: &mut Bytes, iface: &Interface, boots: &[BootLog]) -> Result<(), NoMemory>
    ensures { OnOk result (out.new ≡ out.old ++ boots_lines iface.now.facts 1 (map boot_of boots.now)) }
{
    'boots: for (at, boot) in boots.iter().enumerate() {
        push_boot(out, iface, at as u64 + 1, boot)?;
    }
    Ok(())
}

// A boot under its number.
fn push_boot(
    out: &mut Bytes,
    iface: &Interface,
    number: u64,
    boot: &BootLog,
) -> Result<(), NoMemory>
    ensures { OnOk result (out.new ≡ out.old ++ boot_lines iface.now.facts number (boot_of boot.now)) }
{
    out.extend_from_slice(b"boot ")?;
    push_number(out, number)?;
    out.extend_from_slice(b"\n")?;
    push_items(out, iface, &boot.items)?;
    push_stop(out, boot.stop)
}

// A line for each item.
#[tactic(auto, using(std::proofs::lemmas::Grind::common_steps, sg_facts::proofs::Places::take_next))]
fn push_items(out: &mut Bytes, iface: &Interface, items: &ItemList) -> Result<(), NoMemory>
    ensures { OnOk result (out.new ≡ out.old ++ flat_map (λ item. item_text iface.now.facts item.tag item.shown item.outcome ++ line_end) items.now.items) }
{
    'items: for at in 0..items.len() {
        push_item(out, iface, &items.at(at))?;
        out.extend_from_slice(b"\n")?;
    }
    Ok(())
}

/// An item: why the service was asked, for whom, and how it ended, without the end of a line.
pub fn push_item(out: &mut Bytes, iface: &Interface, item: &LentItem) -> Result<(), NoMemory>
    ensures { OnOk result (out.new ≡ out.old ++ item_text iface.now.facts (tag_in item.now.tag) (call_in item.now.shown) (outcome_in item.now.outcome)) }
{
    match item.tag {
        LentTag::Walk { id, k, client } => {
            push_walk(out, id, k, client, item.shown.client)?;
            push_asked(out, iface, &item.shown, &item.outcome)
        }
        LentTag::Load { key, client } => {
            out.extend_from_slice(b"load ")?;
            out.extend_from_slice(key)?;
            out.extend_from_slice(b" for c")?;
            push_number(out, u64::from(client))
        }
        LentTag::Client { client, seq } => {
            out.extend_from_slice(b"call c")?;
            push_number(out, u64::from(client))?;
            out.extend_from_slice(b".")?;
            push_number(out, u64::from(seq))?;
            push_asked(out, iface, &item.shown, &item.outcome)
        }
    }
}

// A call of a walk: its row and place in it, in whose turn and in whose name it was made.
fn push_walk(out: &mut Bytes, id: u64, k: u8, client: u8, caller: u8) -> Result<(), NoMemory>
    ensures { OnOk result (out.new ≡ out.old ++ codes "walk " ++ decimal id ++ codes "." ++ decimal k ++ codes " for c" ++ decimal client
        ++ codes " by c" ++ decimal caller) }
{
    out.extend_from_slice(b"walk ")?;
    push_number(out, id)?;
    out.extend_from_slice(b".")?;
    push_number(out, u64::from(k))?;
    out.extend_from_slice(b" for c")?;
    push_number(out, u64::from(client))?;
    out.extend_from_slice(b" by c")?;
    push_number(out, u64::from(caller))
}

// A call after a space, and how it ended.
fn push_asked(
    out: &mut Bytes,
    iface: &Interface,
    shown: &LentCall,
    outcome: &LentOutcome,
) -> Result<(), NoMemory>
    ensures { OnOk result (out.new ≡ out.old ++ codes " " ++ call_text iface.now.facts (call_in shown.now) ++ outcome_text (outcome_in outcome.now)) }
{
    out.extend_from_slice(b" ")?;
    push_call(out, iface, shown)?;
    out.extend_from_slice(outcome_word(outcome))
}

// How an item ended.
fn outcome_word(outcome: &LentOutcome) -> &'static [u8]
    ensures { result.now ≡ outcome_text (outcome_in outcome.now) }
{
    match outcome {
        LentOutcome::Replied { .. } => b" replied",
        LentOutcome::Blocks => b" blocked",
        LentOutcome::Stopped => b" stopped",
        LentOutcome::NoMemory => b" without memory",
    }
}

/// Adds the line of a stop, where there was one.
pub fn push_stop(out: &mut Bytes, stop: Option<u64>) -> Result<(), NoMemory>
    ensures { OnOk result (out.new ≡ out.old ++ stop_line stop) }
{
    match stop {
        None => Ok(()),
        Some(point) => {
            out.extend_from_slice(b"stop ")?;
            push_number(out, point)?;
            out.extend_from_slice(b"\n")
        }
    }
}

/// How many calls of walks replied in a run, up to the greatest number of 64 bits.
pub fn count_replays(trace: &Trace) -> u64
    ensures { result ≡ min (replays_for (λ id. true) (items_of (run_of trace.now).boots)) last_count }
{
    replays_in(trace.boots.as_slice())
}

/// How many calls of walks replied, up to the greatest number of 64 bits.
pub fn replays_in(boots: &[BootLog]) -> u64
    ensures { result ≡ replays_of (items_of (map boot_of boots.now)) }
{
    let mut count = 0;
    'boots: for boot in boots {
        count = replays_after(count, &boot.items);
    }
    count
}

// How many calls of walks replied, where so many did before these items.
#[tactic(auto, using(std::proofs::lemmas::Grind::common_steps, sg_facts::proofs::Places::take_next))]
fn replays_after(before: u64, items: &ItemList) -> u64
    ensures { result ≡ min (before + length (filter (λ item. is_replay_for (λ id. true) item.tag item.outcome) items.now.items)) last_count }
{
    let mut count = before;
    'items: for at in 0..items.len() {
        if items.kind(at).is_replay() {
            count = count.saturating_add(1);
        }
    }
    count
}

/// Whether an item is a call of a walk that replied.
pub fn is_replay(item: &LentItem) -> bool
    ensures { result ≡ is_replay_for (λ id. true) (tag_in item.now.tag) (outcome_in item.now.outcome) }
{
    matches!(item.tag, LentTag::Walk { .. }) && matches!(item.outcome, LentOutcome::Replied { .. })
}
