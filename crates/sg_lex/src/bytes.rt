// Which bytes a token may have, and how many such bytes stand at the front of a text.
ghost use Rattle.std.specs.Prelude.{◌≡◌, ◌==◌, ◌≤◌, length, not};
ghost use Rattle.std.specs.List.{prefix_len};
ghost use Rattle.std.specs.Char.{is_ascii_digit};
ghost use Rattle.sg_base.specs.Text.{is_text_byte};
ghost use Rattle.sg_lex.specs.Bytes.{begins_word, is_in_word};
ghost use Rattle.sg_lex.specs.Table.{is_blank, is_mark};

use sg_base::is_text_byte;

/// Whether this byte stands between tokens.
pub fn is_blank(byte: u8) -> bool
    ensures { result ≡ is_blank byte }
{
    matches!(byte, b' ' | b'\t' | b'\r' | b'\n')
}

/// Whether a word begins with this byte.
pub fn begins_word(byte: u8) -> bool
    ensures { result ≡ begins_word byte }
{
    byte.is_ascii_alphabetic() || byte == b'_'
}

/// Whether a word goes on with this byte.
pub fn is_in_word(byte: u8) -> bool
    ensures { result ≡ is_in_word byte }
{
    begins_word(byte) || byte.is_ascii_digit()
}

/// Whether this byte is a mark.
pub fn is_mark(byte: u8) -> bool
    ensures { result ≡ is_mark byte }
{
    b"{}()=,;*$".contains(&byte)
}

/// How many bytes at the front a word goes on with.
pub fn word_len(text: &[u8]) -> usize
    ensures value { result ≡ prefix_len is_in_word text.now }
    ensures within { result ≤ length text.now }
{
    text.iter().take_while(|byte| is_in_word(**byte)).count()
}

/// How many digits stand at the front.
pub fn digits_len(text: &[u8]) -> usize
    ensures value { result ≡ prefix_len is_ascii_digit text.now }
    ensures within { result ≤ length text.now }
{
    text.iter().take_while(|byte| byte.is_ascii_digit()).count()
}

/// How many bytes at the front a text may have between its quotes.
pub fn text_len(text: &[u8]) -> usize
    ensures value { result ≡ prefix_len is_text_byte text.now }
    ensures within { result ≤ length text.now }
{
    text.iter().take_while(|byte| is_text_byte(**byte)).count()
}

/// How many bytes go up to the end of the line.
pub fn line_len(text: &[u8]) -> usize
    ensures value { result ≡ prefix_len (λ b. not (b == 0x0A)) text.now }
    ensures within { result ≤ length text.now }
{
    text.iter().take_while(|byte| **byte != b'\n').count()
}
