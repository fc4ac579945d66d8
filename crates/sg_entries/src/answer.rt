// What a call was answered, as it is read up to the end of the line.
ghost use Rattle.std.specs.Prelude.{◌<◌, ◌-◌, List, [], ◌∷◌, ◌++◌, None, Some, IfOk, IfSome};
ghost use Rattle.std.specs.declared.option.Option.{Option as Maybe};
ghost use Rattle.sg_lex.specs.Lexeme.{Spelling};
ghost use Rattle.sg_entries.specs.declared.tree.WrittenAnswer.{WrittenAnswer as Answer};
ghost use Rattle.sg_entries.specs.declared.tree.WrittenAnswer.TheVariants.{Ok as gave};
ghost use Rattle.sg_entries.specs.declared.tree.WrittenEntry.{WrittenEntry as Entry};
ghost use Rattle.sg_entries.specs.Inside.States.{done, text_rest, words, words_and_bytes, given, spaced_rest, shown_rest, answered};
ghost use Rattle.sg_entries.specs.Inside.Reads.{read, LeadsOn, Ends};

use crate::code::code;
use crate::line::Line;
use crate::list::list_of_one;
use crate::pieces::{byte, end, fixed, number, positive, text_rest};
use crate::syntax::EntrySyntax;
use crate::tree::WrittenAnswer;
use sg_facts::MOST_REPLY_WORDS;
use sg_lex::{Spelled, SpelledList};
use std::alloc::Global;

/// What a call was answered, up to the end of the line. The function shows its bytes, or doesn't.
pub fn answer<'a>(
    line: &mut Line<'a>,
    alloc: Global,
    shown: bool,
) -> Result<WrittenAnswer<'a>, EntrySyntax>
    ensures ends { (k : Answer → Entry) → Ends (read (answered shown k) line.old) result k }
{
    if line.take_byte(b'o') {
        byte(line, b'k')?;
        return given(line, alloc, shown);
    }
    fixed(line, b"refused ")?;
    Ok(WrittenAnswer::Refused(code(line)?))
}

// What an Ok gave.
#[tactic(auto, using(crate::proofs::ByByte::bytes_given, crate::proofs::ByByte::nothing_given, crate::proofs::ByByte::something_given))]
fn given<'a>(
    line: &mut Line<'a>,
    alloc: Global,
    shown: bool,
) -> Result<WrittenAnswer<'a>, EntrySyntax>
    ensures ends { (k : Answer → Entry) → Ends (read (given shown k) line.old) result k }
{
    if shown {
        byte(line, b' ')?;
        return given_with_bytes(line, alloc);
    }
    if line.take_byte(b' ') {
        return given_something(line, alloc);
    }
    end(line)?;
    Ok(WrittenAnswer::Ok {
        desc: None,
        words: SpelledList::new(alloc),
        bytes: None,
    })
}

// What an Ok gave, after the space, of a function that shows its bytes.
#[tactic(auto, using(crate::proofs::ByByte::shown_hash_came, crate::proofs::ByByte::shown_hash_missing))]
fn given_with_bytes<'a>(
    line: &mut Line<'a>,
    alloc: Global,
) -> Result<WrittenAnswer<'a>, EntrySyntax>
    ensures ends { (k : Answer → Entry) → Ends (read (shown_rest k) line.old) result k }
{
    if line.take_byte(b'#') {
        let desc = positive(line)?;
        byte(line, b' ')?;
        return words_and_bytes(line, alloc, Some(desc));
    }
    words_and_bytes(line, alloc, None)
}

// What an Ok gave, after the space, of another function.
#[tactic(auto, using(crate::proofs::ByByte::hash_came, crate::proofs::ByByte::hash_missing))]
fn given_something<'a>(line: &mut Line<'a>, alloc: Global) -> Result<WrittenAnswer<'a>, EntrySyntax>
    ensures ends { (k : Answer → Entry) → Ends (read (spaced_rest k) line.old) result k }
{
    if line.take_byte(b'#') {
        let desc = positive(line)?;
        return words(line, Some(desc), SpelledList::new(alloc), MOST_REPLY_WORDS);
    }
    let read = list_of_one(alloc, number(line)?)?;
    words(line, None, read, MOST_REPLY_WORDS - 1)
}

// So many further words at most, each with a space before it, and the end.
fn words<'a>(
    line: &mut Line<'a>,
    desc: Option<Spelled<'a>>,
    first: SpelledList<'a>,
    left: usize,
) -> Result<WrittenAnswer<'a>, EntrySyntax>
    ensures ends { (k : Answer → Entry) → Ends (read (words left desc.entry first.entry k) line.old) result k }
{
    let mut words = first;
    let mut left = left;
    'words: while let Some(word) = next_word(line, left)? {
        words.push(word)?;
        left -= 1;
    }
    end(line)?;
    Ok(WrittenAnswer::Ok {
        desc,
        words,
        bytes: None,
    })
}

// Four words at most, each with a space after it, a text, and the end.
fn words_and_bytes<'a>(
    line: &mut Line<'a>,
    alloc: Global,
    desc: Option<Spelled<'a>>,
) -> Result<WrittenAnswer<'a>, EntrySyntax>
    ensures ends { (k : Answer → Entry) → Ends (read (words_and_bytes 4 desc.entry [] k) line.old) result k }
{
    let mut words = SpelledList::new(alloc);
    let mut left = MOST_REPLY_WORDS;
    'words: while let Some(word) = next_shown_word(line, left)? {
        words.push(word)?;
        left -= 1;
    }
    let bytes = text_rest(line)?;
    end(line)?;
    Ok(WrittenAnswer::Ok {
        desc,
        words,
        bytes: Some(bytes),
    })
}

// A further word, where so many may come and a space does; else nothing is taken.
#[tactic(auto, using(crate::proofs::ByByte::no_word, crate::proofs::ByByte::word_came, crate::proofs::ByByte::word_missing))]
fn next_word<'a>(line: &mut Line<'a>, left: usize) -> Result<Option<Spelled<'a>>, EntrySyntax>
    ensures leads { (desc : Maybe Spelling) (ws : List Spelling) (k : Answer → Entry) → LeadsOn (read (words left desc ws k) line.old) result
        (λ w. words (left - 1) desc (ws ++ w ∷ []) k) (done (k (gave desc ws None))) line.new }
    ensures left { IfOk result (λ word. IfSome word (λ _. 0 < left)) }
{
    if left == 0 {
        return Ok(None);
    }
    if !line.take_byte(b' ') {
        return Ok(None);
    }
    Ok(Some(number(line)?))
}

// A further word and the space after it, where so many may come; else the quote that begins a text is taken.
#[tactic(auto, using(crate::proofs::ByByte::no_text, crate::proofs::ByByte::bytes_came, crate::proofs::ByByte::shown_word))]
fn next_shown_word<'a>(line: &mut Line<'a>, left: usize) -> Result<Option<Spelled<'a>>, EntrySyntax>
    ensures leads { (desc : Maybe Spelling) (ws : List Spelling) (k : Answer → Entry) → LeadsOn (read (words_and_bytes left desc ws k) line.old) result
        (λ w. words_and_bytes (left - 1) desc (ws ++ w ∷ []) k) (text_rest line.new.at (λ t. done (k (gave desc ws (Some t))))) line.new }
    ensures left { IfOk result (λ word. IfSome word (λ _. 0 < left)) }
{
    if line.take_byte(b'"') {
        return Ok(None);
    }
    if left == 0 {
        return Err(line.fault());
    }
    let word = number(line)?;
    byte(line, b' ')?;
    Ok(Some(word))
}
