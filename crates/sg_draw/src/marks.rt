// The lanes of a document, row by row.
ghost use Rattle.std.specs.Prelude.{[], OnOk};
ghost use Rattle.sg_draw.specs.Inside.Drawing.{Draws};
ghost use Rattle.sg_draw.specs.Inside.Rows.{labels_in};

use crate::lanes::{Lane, LaneList, lane_of, take_turn};
use crate::rows::{Asked, Event, Row, ShownItem};
use crate::sheet::{Sheet, above, base, below};
use crate::svg::{Hand, Look, Reach, push_line, push_words};
use sg_facts::{Bytes, NoMemory};

/// The rows of a run: the marks of each, and its label.
pub(crate) fn push_rows(
    out: &mut Bytes,
    sheet: &Sheet,
    lanes: &mut LaneList,
    rows: &[Row],
) -> Result<(), NoMemory>
    ensures { OnOk result (Draws out.old out.new (labels_in rows.now)) }
{
    'rows: for (at, row) in rows.iter().enumerate() {
        push_event(out, sheet, lanes, at, &row.event)?;
        push_words(
            out,
            Hand::Label,
            sheet.labels(),
            base(sheet.row(at)),
            row.label.as_slice(),
        )?;
    }
    Ok(())
}

/// The bars of those who wait at the end.
pub(crate) fn push_waiting(out: &mut Bytes, sheet: &Sheet, lanes: &[Lane]) -> Result<(), NoMemory>
    ensures { OnOk result (Draws out.old out.new []) }
{
    'lanes: for (at, lane) in lanes.iter().enumerate() {
        push_bar(out, sheet, at, lane.since, sheet.bottom())?;
    }
    Ok(())
}

// The marks of a row.
fn push_event(
    out: &mut Bytes,
    sheet: &Sheet,
    lanes: &mut LaneList,
    at: usize,
    event: &Event,
) -> Result<(), NoMemory>
    ensures { OnOk result (Draws out.old out.new []) }
{
    match event {
        Event::Boot => push_across(out, sheet, Look::Boot, at),
        Event::Stop => push_across(out, sheet, Look::Stop, at),
        Event::Points => Ok(()),
        Event::Item(turn) => push_turn(out, sheet, lanes, at, *turn),
    }
}

// A line over all lanes.
fn push_across(out: &mut Bytes, sheet: &Sheet, look: Look, at: usize) -> Result<(), NoMemory>
    ensures { OnOk result (Draws out.old out.new []) }
{
    push_line(
        out,
        look,
        sheet.left(),
        sheet.row(at),
        Reach::Across(sheet.right()),
    )
}

// The marks of an item: one in its client's lane, where it has one, and one in the service's, and a bar for the time in which the client
// waited.
fn push_turn(
    out: &mut Bytes,
    sheet: &Sheet,
    lanes: &mut LaneList,
    at: usize,
    turn: ShownItem,
) -> Result<(), NoMemory>
    ensures { OnOk result (Draws out.old out.new []) }
{
    let look = look_of(turn.asked);
    let y = sheet.row(at);
    match lane_of(lanes.as_slice(), turn.client) {
        None => push_line(
            out,
            look,
            sheet.service(),
            y,
            Reach::Across(sheet.service()),
        ),
        Some(lane) => {
            let since = take_turn(lanes, lane, turn.waits.then_some(at));
            push_bar(out, sheet, lane, since, above(y))?;
            push_line(
                out,
                look,
                sheet.lane(lane),
                y,
                Reach::Across(sheet.service()),
            )
        }
    }
}

// The bar of a client that waited from a row on.
fn push_bar(
    out: &mut Bytes,
    sheet: &Sheet,
    lane: usize,
    since: Option<usize>,
    to: u64,
) -> Result<(), NoMemory>
    ensures { OnOk result (Draws out.old out.new []) }
{
    match since {
        None => Ok(()),
        Some(at) => push_line(
            out,
            Look::Wait,
            sheet.lane(lane),
            below(sheet.row(at)),
            Reach::Down(to),
        ),
    }
}

/// How the marks of an item look.
pub(crate) fn look_of(asked: Asked) -> Look {
    match asked {
        Asked::Call => Look::Call,
        Asked::Walk => Look::Walk,
        Asked::Load => Look::Load,
    }
}
