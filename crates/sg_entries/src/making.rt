// What a written entry stands for, or what is first wrong with it.
ghost use Rattle.std.specs.Prelude.{◌≡◌, ◌==◌, ◌++◌, ◌∷◌, [], true, map, IfOk, OnOk, vec_capacity};
ghost use Rattle.std.specs.List.{flat_map};
ghost use Rattle.sg_entries.specs.Flaws.{entry_flaws, flaw_if, number_flaws, text_flaws, values_fit};
ghost use Rattle.sg_entries.specs.Inside.Flaws.{answer_flaws, arg_flaws, client_flaws, fun_flaws, optional_flaws, too_many_entries, word_flaws};
ghost use Rattle.sg_entries.specs.Inside.Making.{IsMade};
ghost use Rattle.sg_entries.specs.Standing.{args_in, entry_of, id_in, number_of, value_of};
ghost use Rattle.sg_entries.specs.Inside.Standing.{bytes_of, desc_of, fun_of, reply_of};
ghost use Rattle.sg_facts.specs.Kinds.{kinds_fit};
ghost use Rattle.sg_script.specs.Numbers.{is_text};
ghost use Rattle.sg_script.specs.Scripts.{declared_fun};

use crate::{EntriesError, EntriesKind, Spelled, WrittenAnswer, WrittenArg, WrittenEntry};
use sg_facts::{
    Args, Bytes, Call, Entry, FunShape, Good, Interface, Kind, LAST_CLIENT, NoMemory, Reply, Text,
    Value, Words,
};
use sg_lex::number_of_digits;
use sg_script::{MOST_CALLS, declared_fun, is_text, text_of};
use std::alloc::Global;

// The number of the first entry that is one too many: a run has as many entries as its script has calls, at the most.
const TOO_MANY_ENTRIES: u64 = MOST_CALLS + 1;

// ---- numbers and texts

// A number of 64 bits.
fn word_of(number: &Spelled) -> Result<u64, EntriesError>
    ensures { IsMade (word_flaws number.now) (number_of number.now) result }
{
    match number_of_digits(number.slice) {
        Some(word) => Ok(word),
        None => Err(fault(EntriesKind::Limit, number.at)),
    }
}

/// The number of a call.
pub fn seq_of(number: &Spelled) -> Result<u32, EntriesError>
    ensures { IsMade (number_flaws 32 number.now) (number_of number.now) result }
{
    match number_of_digits(number.slice) {
        Some(seq) if seq <= u64::from(u32::MAX) => Ok(seq as u32),
        _ => Err(fault(EntriesKind::Limit, number.at)),
    }
}

/// The number of a client.
pub fn client_of(number: &Spelled) -> Result<u8, EntriesError>
    ensures { IsMade (client_flaws number.now) (number_of number.now) result }
{
    match number_of_digits(number.slice) {
        Some(client) if client >= 1 && client <= u64::from(LAST_CLIENT) => Ok(client as u8),
        _ => Err(fault(EntriesKind::BadClient, number.at)),
    }
}

// A text.
fn text_in(alloc: Global, text: &Spelled) -> Result<Text, EntriesError>
    ensures { IsMade (text_flaws text.now) text.now.bytes result }
{
    check_text(text)?;
    Ok(text_of(alloc, text.slice)?)
}

// Looks whether calls take a text.
fn check_text(text: &Spelled) -> Result<(), EntriesError>
    ensures made { IsMade (text_flaws text.now) tt result }
    ensures text { IfOk result (λ _. is_text text.now.bytes ≡ true) }
{
    if is_text(text.slice) {
        Ok(())
    } else {
        Err(fault(EntriesKind::Limit, text.at.saturating_sub(1)))
    }
}

/// The error of a flaw.
pub fn fault(kind: EntriesKind, at: usize) -> EntriesError
    ensures { result ≡ EntriesError.Fault kind at }
{
    EntriesError::Fault { kind, at }
}

// ---- lists

// Room for so many elements and no more.
fn room_for<T>(alloc: Global, many: usize) -> Result<Vec<T>, NoMemory>
    ensures items { IfOk result (λ made. made.items ≡ []) }
    ensures room { IfOk result (λ made. vec_capacity made ≡ many) }
{
    Ok(Vec::with_capacity(alloc, many)?)
}

// Puts an element after others.
fn put<T: Drop>(made: &mut Vec<T>, item: T) -> Result<(), NoMemory>
    ensures { OnOk result (made.new.items ≡ made.old.items ++ item ∷ []) }
{
    made.push(item)?;
    Ok(())
}

// ---- answers

// What an answer stands for.
fn reply_of(alloc: Global, answer: &WrittenAnswer) -> Result<Reply, EntriesError>
    ensures { IsMade (answer_flaws answer.now) (reply_of answer.now) result }
{
    match answer {
        WrittenAnswer::Refused(code) => Ok(Reply::Refused(*code)),
        WrittenAnswer::Ok { desc, words, bytes } => {
            let desc = desc_of(desc)?;
            let words = words_of(alloc, words.as_slice())?;
            let bytes = bytes_of(alloc, bytes)?;
            Ok(Reply::Ok(Good { desc, words, bytes }))
        }
    }
}

// The number of a descriptor; 0 where there is none.
fn desc_of(desc: &Option<Spelled>) -> Result<u64, EntriesError>
    ensures { IsMade (optional_flaws word_flaws desc.now) (desc_of desc.now) result }
{
    match desc {
        None => Ok(0),
        Some(number) => word_of(number),
    }
}

// The words of an Ok.
fn words_of(alloc: Global, numbers: &[Spelled]) -> Result<Words, EntriesError>
    ensures { IsMade (flat_map word_flaws numbers.now) (map number_of numbers.now) result }
{
    let mut made = room_for(alloc, numbers.len())?;
    'each: for number in numbers {
        put(&mut made, word_of(number)?)?;
    }
    Ok(Words::from_vec(made))
}

// The bytes that are shown; none where none are.
fn bytes_of(alloc: Global, bytes: &Option<Spelled>) -> Result<Bytes, EntriesError>
    ensures { IsMade (optional_flaws text_flaws bytes.now) (bytes_of bytes.now) result }
{
    match bytes {
        None => Ok(Bytes::new(alloc)),
        Some(text) => {
            check_text(text)?;
            Ok(Bytes::from_slice(alloc, text.slice)?)
        }
    }
}

// ---- calls

// What an argument stands for.
fn value_of(alloc: Global, arg: &WrittenArg) -> Result<Value, EntriesError>
    ensures { IsMade (arg_flaws arg.now) (value_of arg.now) result }
{
    match arg {
        WrittenArg::Number(number) => Ok(Value::Word(word_of(number)?)),
        WrittenArg::Text(text) => Ok(Value::Text(text_in(alloc, text)?)),
    }
}

// What arguments stand for.
fn values_of(alloc: Global, args: &[WrittenArg]) -> Result<Args, EntriesError>
    ensures { IsMade (flat_map arg_flaws args.now) (map value_of args.now) result }
{
    let mut made = room_for(alloc, args.len())?;
    'each: for arg in args {
        put(&mut made, value_of(alloc, arg)?)?;
    }
    Ok(Args::from_vec(made))
}

// What a call's brackets name as its descriptor or parent, where the function takes one, and the other arguments.
fn args_of(alloc: Global, takes_id: bool, args: &[WrittenArg]) -> Result<(u64, Args), EntriesError>
    ensures { IsMade (flat_map arg_flaws args.now) (id_in takes_id (map value_of args.now), args_in takes_id (map value_of args.now)) result }
{
    match args {
        [first, rest @ ..] if takes_id => match first {
            WrittenArg::Number(id) => {
                let id = word_of(id)?;
                let values = values_of(alloc, rest)?;
                Ok((id, values))
            }
            WrittenArg::Text(_) => {
                let values = values_of(alloc, args)?;
                Ok((0, values))
            }
        },
        _ => {
            let values = values_of(alloc, args)?;
            Ok((0, values))
        }
    }
}

// Whether arguments are those that parameters ask for, beside descriptor and parent.
fn kinds_fit(kinds: &[Kind], args: &[WrittenArg]) -> bool
    ensures { result ≡ kinds_fit kinds.now (map value_of args.now) }
{
    match kinds {
        [] => args.is_empty(),
        [Kind::Desc | Kind::Parent, kinds @ ..] => kinds_fit(kinds, args),
        [Kind::Word, kinds @ ..] => match args {
            [WrittenArg::Number(_), args @ ..] => kinds_fit(kinds, args),
            _ => false,
        },
        [Kind::Text, kinds @ ..] => match args {
            [WrittenArg::Text(_), args @ ..] => kinds_fit(kinds, args),
            _ => false,
        },
    }
}

// Whether the arguments in a call's brackets may be given to a function with these parameters.
fn values_fit(takes_id: bool, kinds: &[Kind], args: &[WrittenArg]) -> bool
    ensures { result ≡ values_fit takes_id kinds.now (map value_of args.now) }
{
    if !takes_id {
        return kinds_fit(kinds, args);
    }
    match args {
        [WrittenArg::Number(_), rest @ ..] => kinds_fit(kinds, rest),
        _ => false,
    }
}

// The number of an entry's function, which takes the arguments that are written.
fn fun_of(iface: &Interface, entry: &WrittenEntry) -> Result<u8, EntriesError>
    ensures { IsMade (fun_flaws iface.now entry.now (declared_fun iface.now entry.now.name.bytes)) (fun_of iface.now entry.now) result }
{
    let at = entry.name.at;
    let Some(number) = declared_fun(iface, entry.name.slice) else {
        return Err(fault(EntriesKind::UnknownFunction, at));
    };
    let fun = iface.fun(number);
    if values_fit(fun.takes_id(), fun.kinds, entry.args.as_slice()) {
        Ok(number)
    } else {
        Err(fault(EntriesKind::BadArgs, at))
    }
}

// Looks whether an entry of this number isn't the first that is one too many.
fn check_number(nth: u64, name: &Spelled) -> Result<(), EntriesError>
    ensures { IsMade (flaw_if (nth == too_many_entries) EntriesKind.Limit name.now.at) tt result }
{
    if nth == TOO_MANY_ENTRIES {
        return Err(fault(EntriesKind::Limit, name.at));
    }
    Ok(())
}

// ---- entries

/// What an entry of this number stands for, or what is first wrong with it; a place is one in its line.
pub fn entry_of(
    alloc: Global,
    iface: &Interface,
    nth: u64,
    entry: &WrittenEntry,
) -> Result<Entry, EntriesError>
    ensures { IsMade (entry_flaws iface.now nth entry.now) (entry_of iface.now entry.now) result }
{
    let client = client_of(&entry.client)?;
    let seq = seq_of(&entry.seq)?;
    let fun = fun_of(iface, entry)?;
    check_number(nth, &entry.name)?;
    let takes_id = iface.fun(fun).takes_id();
    let (desc, args) = args_of(alloc, takes_id, entry.args.as_slice())?;
    let reply = reply_of(alloc, &entry.answer)?;
    let call = Call {
        client,
        seq,
        fun,
        desc,
        args,
    };
    Ok(Entry { call, reply })
}
