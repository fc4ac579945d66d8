// The picture of a run as a document.
ghost use Rattle.std.specs.Prelude.{◌≡◌, ◌∷◌, [], IfOk, OnOk, map};
ghost use Rattle.sg_draw.specs.Pictures.{IsPictureOf, client_name, heads_of, legend, title_of};
ghost use Rattle.sg_draw.specs.Inside.Drawing.{Begins, Draws};

use crate::labels::{client_label, title};
use crate::lanes::lanes_of;
use crate::marks::{push_rows, push_waiting};
use crate::rows::rows_of;
use crate::sheet::{Sheet, base};
use crate::style::{ABOUT, GROUND, HANDS, LINES, MARKERS};
use crate::svg::{Hand, Look, Reach, opened, push_line, push_words};
use crate::words::{BOOT, CALL, LOAD, STOP, WAIT, WALK};
use sg_facts::{Bytes, Interface, NoMemory};
use sg_report::{End, Ended};
use std::alloc::Global;

/// The picture of a run as an SVG document: from top to bottom a row for each boot, each item of its trace and each stop, as the trace
/// is printed, with the reply beside a client's call that replied; at the left a lane for each client that has an end, and one for the
/// service. The only error is want of memory.
pub fn picture(alloc: Global, iface: &Interface, ended: &Ended) -> Result<Bytes, NoMemory>
    ensures { IfOk result (λ bytes. IsPictureOf iface.now.facts ended.now bytes) }
{
    let rows = rows_of(alloc, iface, ended)?;
    let ends = ended.ends.as_slice();
    let mut lanes = lanes_of(alloc, ends)?;
    let sheet = Sheet::new(lanes.len(), rows.as_slice());
    let mut out = begun(alloc, &sheet)?;
    push_title(alloc, &mut out, &sheet, iface)?;
    push_heads(alloc, &mut out, &sheet, ends)?;
    push_rows(&mut out, &sheet, &mut lanes, rows.as_slice())?;
    push_waiting(&mut out, &sheet, lanes.as_slice())?;
    push_legend(&mut out, &sheet)?;
    out.extend_from_slice(b"</svg>\n")?;
    Ok(out)
}

// A document with its fixed parts.
fn begun(alloc: Global, sheet: &Sheet) -> Result<Bytes, NoMemory>
    ensures { IfOk result Begins }
{
    let mut out = opened(alloc, sheet.width(), sheet.height())?;
    out.extend_from_slice(ABOUT)?;
    out.extend_from_slice(HANDS)?;
    out.extend_from_slice(LINES)?;
    out.extend_from_slice(MARKERS)?;
    out.extend_from_slice(GROUND)?;
    Ok(out)
}

// The title.
fn push_title(
    alloc: Global,
    out: &mut Bytes,
    sheet: &Sheet,
    iface: &Interface,
) -> Result<(), NoMemory>
    ensures { OnOk result (Draws out.old out.new (title_of iface.now.facts ∷ [])) }
{
    let text = title(alloc, iface)?;
    push_words(
        out,
        Hand::Title,
        sheet.left(),
        base(sheet.title()),
        text.as_slice(),
    )
}

// The heads of the lanes, and the lines of the lanes below them.
fn push_heads(
    alloc: Global,
    out: &mut Bytes,
    sheet: &Sheet,
    ends: &[(u8, End)],
) -> Result<(), NoMemory>
    ensures { OnOk result (Draws out.old out.new (heads_of ends.now)) }
{
    push_clients(alloc, out, sheet, ends)?;
    push_head(out, sheet, sheet.service(), b"service")
}

// The heads of the clients' lanes.
fn push_clients(
    alloc: Global,
    out: &mut Bytes,
    sheet: &Sheet,
    ends: &[(u8, End)],
) -> Result<(), NoMemory>
    ensures { OnOk result (Draws out.old out.new (map (λ e. client_name e.0) ends.now)) }
{
    'ends: for (at, end) in ends.iter().enumerate() {
        let name = client_label(alloc, end.0)?;
        push_head(out, sheet, sheet.lane(at), name.as_slice())?;
    }
    Ok(())
}

// The head of a lane, and its line.
fn push_head(out: &mut Bytes, sheet: &Sheet, x: u64, name: &[u8]) -> Result<(), NoMemory>
    ensures { OnOk result (Draws out.old out.new (name.now ∷ [])) }
{
    push_line(out, Look::Lane, x, sheet.top(), Reach::Down(sheet.bottom()))?;
    push_words(out, Hand::Head, x, base(sheet.heads()), name)
}

// The legend: what the marks stand for.
fn push_legend(out: &mut Bytes, sheet: &Sheet) -> Result<(), NoMemory>
    ensures { OnOk result (Draws out.old out.new legend) }
{
    push_sample(out, sheet, 0, Look::Call, CALL)?;
    push_sample(out, sheet, 1, Look::Walk, WALK)?;
    push_sample(out, sheet, 2, Look::Load, LOAD)?;
    push_sample(out, sheet, 3, Look::Wait, WAIT)?;
    push_sample(out, sheet, 4, Look::Boot, BOOT)?;
    push_sample(out, sheet, 5, Look::Stop, STOP)
}

// A sample of a look, and what it stands for.
fn push_sample(
    out: &mut Bytes,
    sheet: &Sheet,
    at: usize,
    look: Look,
    words: &[u8],
) -> Result<(), NoMemory>
    ensures { OnOk result (Draws out.old out.new (words.now ∷ [])) }
{
    let y = sheet.legend(at);
    push_line(
        out,
        look,
        sheet.sample(),
        y,
        Reach::Across(sheet.sample_end()),
    )?;
    push_words(out, Hand::Label, sheet.words(), base(y), words)
}
