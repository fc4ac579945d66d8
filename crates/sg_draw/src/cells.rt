// The marks of lines in columns.
ghost use Rattle.std.specs.Prelude.{◌≡◌, ◌*◌, ◌++◌, IfOk, OnOk, codes, length, slice_index_or, take};
ghost use Rattle.sg_draw.specs.Pictures.{client_name, column_heads, marks_width};
ghost use Rattle.sg_draw.specs.Inside.Columns.{AddsMarks, IsMarks};

use crate::labels::client_label;
use crate::lanes::{Lane, LaneList, lane_of, take_turn};
use crate::rows::{Asked, Event};
use sg_facts::{Bytes, NoMemory};
use sg_report::End;
use std::alloc::Global;

// How wide the lane of a client is.
const WIDTH: usize = 5;

/// What a legend shows.
#[derive(Debug, Clone, Copy, PartialEq, Eq)]
pub(crate) enum Sample {
    Asked(Asked),
    Waits,
    Boot,
    Stop,
}

// What stands in a client's lane.
#[derive(Debug, Clone, Copy, PartialEq, Eq)]
enum Cell {
    Empty,
    /// The client waits.
    Waits,
    /// An item of another client, on its way to the service.
    Passed,
    /// The same, while the client waits.
    Crossed,
    /// An item of the client.
    Asked(Asked),
    Boot,
    Stop,
}

/// The marks of a row. It notes whether the client of an item waits from then on.
pub(crate) fn marks_of(
    alloc: Global,
    lanes: &mut LaneList,
    at: usize,
    event: &Event,
) -> Result<Bytes, NoMemory>
    ensures marks { IfOk result (IsMarks (marks_width (length lanes.old))) }
    ensures lanes { length lanes.new ≡ length lanes.old }
{
    let own = own_lane(lanes.as_slice(), event);
    let mut out = Bytes::new(alloc);
    push_cells(&mut out, lanes.as_slice(), event, own)?;
    out.extend_from_slice(service_text(event))?;
    note(lanes, at, event, own);
    Ok(out)
}

/// The marks of the line of heads: the names of the lanes.
pub(crate) fn heads(alloc: Global, ends: &[(u8, End)]) -> Result<Bytes, NoMemory>
    ensures { IfOk result (λ lanes. lanes ≡ column_heads ends.now) }
{
    let mut out = Bytes::new(alloc);
    'ends: for (client, _) in ends {
        push_name(alloc, &mut out, *client)?;
    }
    out.extend_from_slice(b"service  ")?;
    Ok(out)
}

/// The marks of a line of the legend, beside so many lanes.
pub(crate) fn sample_marks(alloc: Global, lanes: &[Lane], sample: Sample) -> Result<Bytes, NoMemory>
    ensures { IfOk result (IsMarks (marks_width (length lanes.now))) }
{
    let mut out = Bytes::new(alloc);
    'lanes: for _ in lanes {
        out.extend_from_slice(cell_text(Cell::Empty))?;
    }
    out.extend_from_slice(sample_text(sample))?;
    Ok(out)
}

// The lane of an item's client, where it has one.
fn own_lane(lanes: &[Lane], event: &Event) -> Option<usize> {
    match event {
        Event::Item(turn) => lane_of(lanes, turn.client),
        Event::Boot | Event::Stop | Event::Points => None,
    }
}

// Notes whether an item's client waits from then on.
fn note(lanes: &mut LaneList, at: usize, event: &Event, own: Option<usize>)
    ensures { length lanes.new ≡ length lanes.old }
{
    if let (Event::Item(turn), Some(lane)) = (event, own) {
        let _ = take_turn(lanes, lane, turn.waits.then_some(at));
    }
}

// What stands in the clients' lanes beside a row.
fn push_cells(
    out: &mut Bytes,
    lanes: &[Lane],
    event: &Event,
    own: Option<usize>,
) -> Result<(), NoMemory>
    ensures { OnOk result (AddsMarks (5 * length lanes.now) out.old out.new) }
{
    'lanes: for (at, lane) in lanes.iter().enumerate() {
        out.extend_from_slice(cell_text(cell_of(event, own, at, lane.since.is_some())))?;
    }
    Ok(())
}

// What stands in a lane beside a row.
fn cell_of(event: &Event, own: Option<usize>, at: usize, waits: bool) -> Cell {
    match (event, own) {
        (Event::Boot, _) => Cell::Boot,
        (Event::Stop, _) => Cell::Stop,
        (Event::Item(turn), Some(lane)) if lane == at => Cell::Asked(turn.asked),
        (Event::Item(_), Some(lane)) if lane < at => passed(waits),
        _ => left_alone(waits),
    }
}

// A lane that the line of an item passes.
fn passed(waits: bool) -> Cell {
    if waits { Cell::Crossed } else { Cell::Passed }
}

// A lane beside which nothing happens.
fn left_alone(waits: bool) -> Cell {
    if waits { Cell::Waits } else { Cell::Empty }
}

// The name of a client in the width of a lane.
fn push_name(alloc: Global, out: &mut Bytes, client: u8) -> Result<(), NoMemory>
    ensures { OnOk result (out.new ≡ out.old ++ take 5 (client_name client ++ codes "     ")) }
{
    let name = client_label(alloc, client)?;
    for at in 0..WIDTH {
        out.push(letter(name.as_slice(), at))?;
    }
    Ok(())
}

// The letter of a name at a place, or a blank.
fn letter(name: &[u8], at: usize) -> u8
    ensures { result ≡ slice_index_or name.now at 32 }
{
    match name.get(at) {
        Some(letter) => *letter,
        None => b' ',
    }
}

// How what stands in a client's lane is written.
fn cell_text(cell: Cell) -> &'static [u8]
    ensures { IsMarks 5 result.now }
{
    match cell {
        Cell::Empty => b"     ",
        Cell::Waits => b"|    ",
        Cell::Passed => b"-----",
        Cell::Crossed => b"+----",
        Cell::Asked(Asked::Call) => b"o----",
        Cell::Asked(Asked::Walk) => b"#----",
        Cell::Asked(Asked::Load) => b"*----",
        Cell::Boot => b"=====",
        Cell::Stop => b"!!!!!",
    }
}

// How what stands in the service's lane is written.
fn service_text(event: &Event) -> &'static [u8]
    ensures { IsMarks 9 result.now }
{
    match event {
        Event::Boot => b"=======  ",
        Event::Stop => b"!!!!!!!  ",
        Event::Points => b"         ",
        Event::Item(turn) => mark_text(turn.asked),
    }
}

// The mark of an item in the service's lane.
fn mark_text(asked: Asked) -> &'static [u8]
    ensures { IsMarks 9 result.now }
{
    match asked {
        Asked::Call => b"o        ",
        Asked::Walk => b"#        ",
        Asked::Load => b"*        ",
    }
}

// A sample, in the width of the service's lane.
fn sample_text(sample: Sample) -> &'static [u8]
    ensures { IsMarks 9 result.now }
{
    match sample {
        Sample::Asked(Asked::Call) => b"o-----o  ",
        Sample::Asked(Asked::Walk) => b"#-----#  ",
        Sample::Asked(Asked::Load) => b"*-----*  ",
        Sample::Waits => b"|        ",
        Sample::Boot => b"=======  ",
        Sample::Stop => b"!!!!!!!  ",
    }
}
