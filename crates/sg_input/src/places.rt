// The line of a place in a text, and the byte in its line.
ghost use Rattle.std.specs.Prelude.{◌≡◌, ◌<◌, ◌^◌, take, not, count_by};
ghost use Rattle.std.specs.List.{suffix_len};
ghost use Rattle.sg_input.specs.Inside.Places.{line_of, column_of, ends_line};

/// The line of a place, counted from 1. The place is counted in bytes from 0; the text's length is the place after its last
/// byte.
pub fn line_of(text: &[u8], at: usize) -> usize
    ensures { result ≡ line_of text.now at }
{
    line_ends_in(front_of(text, at)) + 1
}

/// The byte of a place in its line, counted from 1.
#[tactic(auto, using(crate::proofs::LastLine::length_after_last))]
pub fn column_of(text: &[u8], at: usize) -> usize
    ensures { result ≡ column_of text.now at }
{
    length_of_last_line(front_of(text, at)) + 1
}

// The bytes of a text before a place.
fn front_of(text: &[u8], at: usize) -> &[u8]
    ensures { result.now ≡ take at text.now }
{
    text.get(..at).unwrap_or(text)
}

// The number of line ends.
fn line_ends_in(bytes: &[u8]) -> usize
    ensures count { result ≡ count_by ends_line bytes.now }
    ensures bound { result < 2 ^ 63 }
{
    bytes.iter().filter(|byte| **byte == b'\n').count()
}

// The number of bytes after the last line end, or of all where there is none.
fn length_of_last_line(bytes: &[u8]) -> usize
    ensures count { result ≡ suffix_len (λ byte. not (ends_line byte)) bytes.now }
    ensures bound { result < 2 ^ 63 }
{
    bytes
        .iter()
        .rev()
        .take_while(|byte| **byte != b'\n')
        .count()
}
