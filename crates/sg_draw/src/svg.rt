// The lines and texts of a document.
ghost use Rattle.std.specs.Prelude.{◌≡◌, ◌++◌, ◌∷◌, [], IsTrue, OnOk, IfOk, codes};
ghost use Rattle.std.specs.Fmt.{decimal};
ghost use Rattle.sg_draw.specs.Shown.{escaped, is_one_of};
ghost use Rattle.sg_draw.specs.Inside.Drawing.{Draws, opening};

use crate::visible::push_escaped;
use sg_facts::{Bytes, NoMemory};
use sg_report::push_number;
use std::alloc::Global;

/// What a line stands for.
#[derive(Debug, Clone, Copy, PartialEq, Eq)]
pub(crate) enum Look {
    Lane,
    Boot,
    Call,
    Walk,
    Load,
    Wait,
    Stop,
}

/// How a text looks.
#[derive(Debug, Clone, Copy, PartialEq, Eq)]
pub(crate) enum Hand {
    Title,
    Head,
    Label,
}

/// How far a line goes: to the right, or down, to a place there.
#[derive(Debug, Clone, Copy, PartialEq, Eq)]
pub(crate) enum Reach {
    Across(u64),
    Down(u64),
}

/// A document of this size that is begun.
pub(crate) fn opened(alloc: Global, width: u64, height: u64) -> Result<Bytes, NoMemory>
    ensures { IfOk result (λ out. out ≡ opening width height) }
{
    let mut out = Bytes::new(alloc);
    out.extend_from_slice(b"<svg xmlns='http://www.w3.org/2000/svg' width='")?;
    push_number(&mut out, width)?;
    out.extend_from_slice(b"' height='")?;
    push_number(&mut out, height)?;
    out.extend_from_slice(b"'>\n")?;
    Ok(out)
}

/// A line from a place, in a look.
pub(crate) fn push_line(
    out: &mut Bytes,
    look: Look,
    x: u64,
    y: u64,
    reach: Reach,
) -> Result<(), NoMemory>
    ensures { OnOk result (Draws out.old out.new []) }
{
    match reach {
        Reach::Across(to) => write_line(out, class_of(look), x, y, b'H', to),
        Reach::Down(to) => write_line(out, class_of(look), x, y, b'V', to),
    }
}

/// A text at a place, in a hand.
pub(crate) fn push_words(
    out: &mut Bytes,
    hand: Hand,
    x: u64,
    y: u64,
    text: &[u8],
) -> Result<(), NoMemory>
    ensures { OnOk result (Draws out.old out.new (text.now ∷ [])) }
{
    write_words(out, hand_class(hand), x, y, text)
}

// A line of a class, from a place to the right or down.
fn write_line(out: &mut Bytes, class: u8, x: u64, y: u64, way: u8, to: u64) -> Result<(), NoMemory>
    ensures { OnOk result (out.new ≡ out.old ++ codes "<path class='" ++ class ∷ [] ++ codes "' d='M" ++ decimal x ++ codes " " ++ decimal y ++ way ∷ [] ++ decimal to
        ++ codes "'/>\n") }
{
    out.extend_from_slice(b"<path class='")?;
    out.push(class)?;
    out.extend_from_slice(b"' d='M")?;
    push_number(out, x)?;
    out.extend_from_slice(b" ")?;
    push_number(out, y)?;
    out.push(way)?;
    push_number(out, to)?;
    out.extend_from_slice(b"'/>\n")
}

// A text of a class at a place.
fn write_words(out: &mut Bytes, class: u8, x: u64, y: u64, text: &[u8]) -> Result<(), NoMemory>
    ensures { OnOk result (out.new ≡ out.old ++ codes "<text class='" ++ class ∷ [] ++ codes "' x='" ++ decimal x ++ codes "' y='" ++ decimal y ++ codes "'>"
        ++ escaped text.now ++ codes "</text>\n") }
{
    out.extend_from_slice(b"<text class='")?;
    out.push(class)?;
    out.extend_from_slice(b"' x='")?;
    push_number(out, x)?;
    out.extend_from_slice(b"' y='")?;
    push_number(out, y)?;
    out.extend_from_slice(b"'>")?;
    push_escaped(out, text)?;
    out.extend_from_slice(b"</text>\n")
}

// The class of a look.
fn class_of(look: Look) -> u8
    ensures { IsTrue (is_one_of (codes "nbckfws") result) }
{
    match look {
        Look::Lane => b'n',
        Look::Boot => b'b',
        Look::Call => b'c',
        Look::Walk => b'k',
        Look::Load => b'f',
        Look::Wait => b'w',
        Look::Stop => b's',
    }
}

// The class of a hand.
fn hand_class(hand: Hand) -> u8
    ensures { IsTrue (is_one_of (codes "thl") result) }
{
    match hand {
        Hand::Title => b't',
        Hand::Head => b'h',
        Hand::Label => b'l',
    }
}
