// Bytes as they are shown.
ghost use Rattle.std.specs.Prelude.{◌≡◌, ◌<◌, ◌++◌, OnOk, false};
ghost use Rattle.std.specs.Fmt.{digit_glyph};
ghost use Rattle.std.specs.List.{flat_map};
ghost use Rattle.sg_draw.specs.Shown.{escaped, escaped_byte, is_printable, visible, visible_byte};

use sg_facts::{Bytes, NoMemory};

/// Bytes, with the form that shows it in the stead of each that isn't printable.
pub(crate) fn push_visible(out: &mut Bytes, bytes: &[u8]) -> Result<(), NoMemory>
    ensures { OnOk result (out.new ≡ out.old ++ visible bytes.now) }
{
    for byte in bytes {
        push_visible_byte(out, *byte)?;
    }
    Ok(())
}

/// The same as they stand in a document, with the names of the bytes that have a meaning there.
pub(crate) fn push_escaped(out: &mut Bytes, bytes: &[u8]) -> Result<(), NoMemory>
    ensures { OnOk result (out.new ≡ out.old ++ escaped bytes.now) }
{
    for byte in bytes {
        push_escaped_byte(out, *byte)?;
    }
    Ok(())
}

/// How many letters a text has as it is shown.
pub(crate) fn letters(bytes: &[u8]) -> u64 {
    let mut count = 0_u64;
    for byte in bytes {
        count = count.saturating_add(if is_printable(*byte) { 1 } else { 4 });
    }
    count
}

// A byte as it stands in a document.
fn push_escaped_byte(out: &mut Bytes, byte: u8) -> Result<(), NoMemory>
    ensures { OnOk result (out.new ≡ out.old ++ escaped_byte byte) }
{
    match byte {
        b'<' => out.extend_from_slice(b"&lt;"),
        b'>' => out.extend_from_slice(b"&gt;"),
        b'&' => out.extend_from_slice(b"&amp;"),
        _ => push_visible_byte(out, byte),
    }
}

// A byte that is printable, or a form that shows it.
fn push_visible_byte(out: &mut Bytes, byte: u8) -> Result<(), NoMemory>
    ensures { OnOk result (out.new ≡ out.old ++ visible_byte byte) }
{
    if is_printable(byte) {
        out.push(byte)
    } else {
        out.extend_from_slice(b"\\x")?;
        out.push(hex_digit(byte / 16))?;
        out.push(hex_digit(byte % 16))
    }
}

// Whether a byte is printable ASCII.
fn is_printable(byte: u8) -> bool
    ensures { result ≡ is_printable byte }
{
    matches!(byte, b' '..=b'~')
}

// The digit of a number below 16.
fn hex_digit(number: u8) -> u8
    requires { number < 16 }
    ensures { result ≡ digit_glyph false number }
{
    if number < 10 {
        b'0' + number
    } else {
        b'a' - 10 + number
    }
}
