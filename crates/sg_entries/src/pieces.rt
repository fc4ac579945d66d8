// The pieces of a line: fixed bytes, numbers, names and texts, as they are read.
ghost use Rattle.std.specs.Prelude.{◌≡◌, ◌≤◌, ◌<◌, ◌^◌, length, OnOk};
ghost use Rattle.std.specs.Char.{is_ascii_digit};
ghost use Rattle.std.specs.List.{prefix_len};
ghost use Rattle.sg_facts.specs.sg_base.Text.{is_text_byte};
ghost use Rattle.sg_lex.specs.Bytes.{begins_word, is_in_word};
ghost use Rattle.sg_lex.specs.Lexeme.{Spelling};
ghost use Rattle.sg_entries.specs.Inside.Classes.{is_first_digit};
ghost use Rattle.sg_entries.specs.declared.tree.WrittenEntry.{WrittenEntry as Entry};
ghost use Rattle.sg_entries.specs.Inside.Ahead.{positive_len, number_len, name_len};
ghost use Rattle.sg_entries.specs.Inside.States.{EntryState, byte, bytes, positive, number, name, text_rest, done};
ghost use Rattle.sg_entries.specs.Inside.Reads.{read, Leads, Ends};

use crate::line::Line;
use crate::syntax::EntrySyntax;
use sg_facts::is_text_byte;
use sg_lex::Spelled;

/// Takes this byte.
#[tactic(auto, using(crate::proofs::ByByte::byte_came, crate::proofs::ByByte::byte_missing))]
pub fn byte(line: &mut Line<'_>, wanted: u8) -> Result<(), EntrySyntax>
    ensures leads { (k : EntryState) → Leads (read (byte wanted k) line.old) result (λ _. k) line.new }
    ensures fewer { OnOk result (length line.new.rest ≤ length line.old.rest) }
{
    if line.take_byte(wanted) {
        Ok(())
    } else {
        Err(line.fault())
    }
}

/// Takes these bytes.
pub fn fixed(line: &mut Line<'_>, wanted: &[u8]) -> Result<(), EntrySyntax>
    ensures leads { (k : EntryState) → Leads (read (bytes wanted.now k) line.old) result (λ _. k) line.new }
{
    'bytes: for at in 0..wanted.len() {
        byte(line, wanted[at])?;
    }
    Ok(())
}

/// Takes a number that isn't 0.
#[tactic(auto, using(crate::proofs::ByByte::positive_came, crate::proofs::ByByte::positive_missing))]
pub fn positive<'a>(line: &mut Line<'a>) -> Result<Spelled<'a>, EntrySyntax>
    ensures leads { (k : Spelling → EntryState) → Leads (read (positive k) line.old) result k line.new }
{
    let len = positive_len(line.rest());
    if len == 0 {
        return Err(line.fault());
    }
    Ok(line.take(len))
}

/// Takes a number.
#[tactic(auto, using(crate::proofs::ByByte::number_came, crate::proofs::ByByte::number_missing))]
pub fn number<'a>(line: &mut Line<'a>) -> Result<Spelled<'a>, EntrySyntax>
    ensures leads { (k : Spelling → EntryState) → Leads (read (number k) line.old) result k line.new }
    ensures fewer { OnOk result (length line.new.rest ≤ length line.old.rest) }
    ensures short { OnOk result (length line.new.rest < 2 ^ 63) }
{
    let len = number_len(line.rest());
    if len == 0 {
        return Err(line.fault());
    }
    Ok(line.take(len))
}

/// Takes a name.
#[tactic(auto, using(crate::proofs::ByByte::name_came, crate::proofs::ByByte::name_missing))]
pub fn name<'a>(line: &mut Line<'a>) -> Result<Spelled<'a>, EntrySyntax>
    ensures leads { (k : Spelling → EntryState) → Leads (read (name k) line.old) result k line.new }
{
    let len = name_len(line.rest());
    if len == 0 {
        return Err(line.fault());
    }
    Ok(line.take(len))
}

/// Takes what stands between quotes, and the last quote.
#[tactic(auto, using(crate::proofs::ByByte::text_came))]
pub fn text_rest<'a>(line: &mut Line<'a>) -> Result<Spelled<'a>, EntrySyntax>
    ensures leads { (k : Spelling → EntryState) → Leads (read (text_rest line.old.at k) line.old) result k line.new }
    ensures fewer { OnOk result (length line.new.rest ≤ length line.old.rest) }
    ensures short { OnOk result (length line.new.rest < 2 ^ 63) }
{
    let len = text_len(line.rest());
    let text = line.take(len);
    byte(line, b'"')?;
    Ok(text)
}

/// The line ends here.
pub fn end(line: &Line<'_>) -> Result<(), EntrySyntax>
    ensures ends { (e : Entry) → Ends (read (done e) line.now) result (λ _. e) }
{
    if line.rest().is_empty() {
        Ok(())
    } else {
        Err(line.fault())
    }
}

// How many bytes at the front are a number that isn't 0.
fn positive_len(text: &[u8]) -> usize
    ensures value { result ≡ positive_len text.now }
    ensures within { result ≤ length text.now }
{
    match text.split_first() {
        Some((first, behind)) if is_first_digit(*first) => 1 + digits_len(behind),
        _ => 0,
    }
}

// How many bytes at the front are a number.
fn number_len(text: &[u8]) -> usize
    ensures value { result ≡ number_len text.now }
    ensures within { result ≤ length text.now }
{
    match text.first() {
        Some(b'0') => 1,
        _ => positive_len(text),
    }
}

// How many bytes at the front are a name.
fn name_len(text: &[u8]) -> usize
    ensures value { result ≡ name_len text.now }
    ensures within { result ≤ length text.now }
{
    match text.split_first() {
        Some((first, behind)) if begins_word(*first) => 1 + word_len(behind),
        _ => 0,
    }
}

// How many digits stand at the front.
fn digits_len(text: &[u8]) -> usize
    ensures value { result ≡ prefix_len is_ascii_digit text.now }
    ensures within { result ≤ length text.now }
{
    text.iter().take_while(|byte| byte.is_ascii_digit()).count()
}

// How many bytes at the front a name goes on with.
fn word_len(text: &[u8]) -> usize
    ensures value { result ≡ prefix_len is_in_word text.now }
    ensures within { result ≤ length text.now }
{
    text.iter().take_while(|byte| is_in_word(**byte)).count()
}

// How many bytes at the front may stand between quotes.
fn text_len(text: &[u8]) -> usize
    ensures value { result ≡ prefix_len is_text_byte text.now }
    ensures within { result ≤ length text.now }
{
    text.iter().take_while(|byte| is_text_byte(**byte)).count()
}

// Whether a number that isn't 0 begins with this byte.
fn is_first_digit(byte: u8) -> bool
    ensures { result ≡ is_first_digit byte }
{
    byte.is_ascii_digit() && byte != b'0'
}

// Whether a name begins with this byte.
fn begins_word(byte: u8) -> bool
    ensures { result ≡ begins_word byte }
{
    byte.is_ascii_alphabetic() || byte == b'_'
}

// Whether a name goes on with this byte.
fn is_in_word(byte: u8) -> bool
    ensures { result ≡ is_in_word byte }
{
    begins_word(byte) || byte.is_ascii_digit()
}
