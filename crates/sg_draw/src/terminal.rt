// The picture of a run in the columns of a terminal.
ghost use Rattle.std.specs.Prelude.{◌≡◌, ◌++◌, ◌∷◌, [], IfOk, OnOk, length};
ghost use Rattle.sg_draw.specs.Pictures.{AreColumnsOf, column_heads, column_line, legend, marks_width, title_of};
ghost use Rattle.sg_draw.specs.Inside.Columns.{Prints};
ghost use Rattle.sg_draw.specs.Inside.Rows.{labels_in};

use crate::cells::{Sample, heads, marks_of, sample_marks};
use crate::labels::title;
use crate::lanes::{Lane, LaneList, lanes_of};
use crate::rows::{Asked, Row, rows_of};
use crate::visible::push_visible;
use crate::words::{BOOT, CALL, LOAD, STOP, WAIT, WALK};
use sg_facts::{Bytes, Interface, NoMemory};
use sg_report::{End, Ended};
use std::alloc::Global;

/// The picture of a run in the columns of a terminal: the rows of `picture`, a line for each, with its marks in the lanes at the left. The
/// only error is want of memory.
pub fn columns(alloc: Global, iface: &Interface, ended: &Ended) -> Result<Bytes, NoMemory>
    ensures { IfOk result (λ bytes. AreColumnsOf iface.now.facts ended.now bytes) }
{
    let rows = rows_of(alloc, iface, ended)?;
    let ends = ended.ends.as_slice();
    let mut lanes = lanes_of(alloc, ends)?;
    let mut out = Bytes::new(alloc);
    push_heading(alloc, &mut out, iface, ends)?;
    push_lines(alloc, &mut out, &mut lanes, rows.as_slice())?;
    push_legend(alloc, &mut out, lanes.as_slice())?;
    Ok(out)
}

// The line of heads, with the title.
fn push_heading(
    alloc: Global,
    out: &mut Bytes,
    iface: &Interface,
    ends: &[(u8, End)],
) -> Result<(), NoMemory>
    ensures { OnOk result (out.new ≡ out.old ++ column_line (column_heads ends.now) (title_of iface.now.facts)) }
{
    let marks = heads(alloc, ends)?;
    let text = title(alloc, iface)?;
    push_line(out, marks.as_slice(), text.as_slice())
}

// A line for each row.
fn push_lines(
    alloc: Global,
    out: &mut Bytes,
    lanes: &mut LaneList,
    rows: &[Row],
) -> Result<(), NoMemory>
    ensures shows { OnOk result (Prints (marks_width (length lanes.old)) out.old out.new (labels_in rows.now)) }
    ensures lanes { length lanes.new ≡ length lanes.old }
{
    'rows: for (at, row) in rows.iter().enumerate() {
        let marks = marks_of(alloc, lanes, at, &row.event)?;
        push_line(out, marks.as_slice(), row.label.as_slice())?;
    }
    Ok(())
}

// The legend: what the marks stand for.
fn push_legend(alloc: Global, out: &mut Bytes, lanes: &[Lane]) -> Result<(), NoMemory>
    ensures { OnOk result (Prints (marks_width (length lanes.now)) out.old out.new legend) }
{
    push_sample(alloc, out, lanes, Sample::Asked(Asked::Call), CALL)?;
    push_sample(alloc, out, lanes, Sample::Asked(Asked::Walk), WALK)?;
    push_sample(alloc, out, lanes, Sample::Asked(Asked::Load), LOAD)?;
    push_sample(alloc, out, lanes, Sample::Waits, WAIT)?;
    push_sample(alloc, out, lanes, Sample::Boot, BOOT)?;
    push_sample(alloc, out, lanes, Sample::Stop, STOP)
}

// A sample, and what it stands for.
fn push_sample(
    alloc: Global,
    out: &mut Bytes,
    lanes: &[Lane],
    sample: Sample,
    words: &[u8],
) -> Result<(), NoMemory>
    ensures { OnOk result (Prints (marks_width (length lanes.now)) out.old out.new (words.now ∷ [])) }
{
    let marks = sample_marks(alloc, lanes, sample)?;
    push_line(out, marks.as_slice(), words)
}

// A line: its marks, and a text.
fn push_line(out: &mut Bytes, marks: &[u8], text: &[u8]) -> Result<(), NoMemory>
    ensures { OnOk result (out.new ≡ out.old ++ column_line marks.now text.now) }
{
    out.extend_from_slice(marks)?;
    push_visible(out, text)?;
    out.extend_from_slice(b"\n")
}
