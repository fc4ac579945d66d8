// What is printed of a tally.
ghost use Rattle.std.specs.Prelude.{◌≡◌, ◌++◌, IfOk, OnOk, codes};
ghost use Rattle.std.specs.Fmt.{decimal};
ghost use Rattle.std.specs.List.{flat_map};
ghost use Rattle.std.specs.Option.{option_map, option_map_or};
ghost use Rattle.sg_explore.specs.Inside.Stopping.{points_of};
ghost use Rattle.sg_explore.specs.Inside.Sums.{differing_lines, first_tried, most_line, most_of, sums_of, sums_text};
ghost use Rattle.sg_explore.specs.Text.{number_at_line, number_line};

use crate::stops::StopsAt;
use crate::tally::{Most, Shown, Tally};
use sg_facts::{Bytes, Interface, NoMemory};
use sg_report::{push_number, text as report};
use std::alloc::Global;

/// What is printed of a tally, where the play without stops asked so many points.
pub(crate) fn text(
    alloc: Global,
    iface: &Interface,
    points: u64,
    tally: &Tally,
) -> Result<Bytes, NoMemory>
    ensures { IfOk result (λ bytes. bytes ≡ sums_text iface.now.facts points (sums_of tally.now)) }
{
    let mut out = Bytes::new(alloc);
    push_line(&mut out, b"points ", points)?;
    push_line(&mut out, b"runs ", tally.runs)?;
    push_line(&mut out, b"stops ", tally.stopped)?;
    push_most(&mut out, tally.most)?;
    push_line(&mut out, b"blocked ", tally.blocked)?;
    push_differing(&mut out, alloc, iface, tally.differing, &tally.first)?;
    Ok(out)
}

// The line of a number after a word.
fn push_line(out: &mut Bytes, word: &[u8], number: u64) -> Result<(), NoMemory>
    ensures { OnOk result (out.new ≡ out.old ++ number_line word.now number) }
{
    out.extend_from_slice(word)?;
    push_number(out, number)?;
    out.extend_from_slice(b"\n")
}

// The line of a number after a word, and of stops.
fn push_line_at(out: &mut Bytes, word: &[u8], number: u64, stops: StopsAt) -> Result<(), NoMemory>
    ensures { OnOk result (out.new ≡ out.old ++ number_at_line word.now number (points_of stops)) }
{
    out.extend_from_slice(word)?;
    push_number(out, number)?;
    out.extend_from_slice(b" at")?;
    push_stops(out, stops)?;
    out.extend_from_slice(b"\n")
}

// Stops, each after a space.
fn push_stops(out: &mut Bytes, stops: StopsAt) -> Result<(), NoMemory>
    ensures { OnOk result (out.new ≡ out.old ++ flat_map (λ p. codes " " ++ decimal p) (points_of stops)) }
{
    match stops {
        StopsAt::One(point) => push_stop(out, point),
        StopsAt::Two(first, last) => {
            push_stop(out, first)?;
            push_stop(out, last)
        }
    }
}

// A stop after a space.
fn push_stop(out: &mut Bytes, point: u64) -> Result<(), NoMemory>
    ensures { OnOk result (out.new ≡ out.old ++ (codes " " ++ decimal point)) }
{
    out.extend_from_slice(b" ")?;
    push_number(out, point)
}

// The line of the greatest number of replayed calls.
fn push_most(out: &mut Bytes, most: Option<Most>) -> Result<(), NoMemory>
    ensures { OnOk result (out.new ≡ out.old ++ most_line (most_of most)) }
{
    match most {
        None => push_line(out, b"replays ", 0),
        Some(most) => push_line_at(out, b"replays ", most.replays, most.stops),
    }
}

// How many plays differ, the stops of the first, and that play as it is printed.
fn push_differing(
    out: &mut Bytes,
    alloc: Global,
    iface: &Interface,
    differing: u64,
    first: &Option<Shown>,
) -> Result<(), NoMemory>
    ensures { OnOk result (out.new ≡ out.old ++ differing_lines iface.now.facts differing (first_tried first.now)) }
{
    match first {
        None => out.extend_from_slice(b"same\n"),
        Some(shown) => {
            push_line_at(out, b"differs ", differing, shown.stops)?;
            let printed = report(alloc, iface, shown.played.ended(), false)?;
            out.extend_from_slice(printed.as_slice())
        }
    }
}
