// The lines of functions.
ghost use Rattle.std.specs.Prelude.{◌≡◌, ◌++◌, ◌+◌, ◌<◌, ◌^◌, length, map, OnOk};
ghost use Rattle.std.specs.Fmt.{decimal};
ghost use Rattle.sg_facts.specs.Facts.{facts_of, fun_at, fun_of_shape};
ghost use Rattle.sg_print.specs.TablesText.{effect_word, fun_line, param_number, flag_pieces, state_word, kind_word};
ghost use Rattle.sg_print.specs.Inside.Pieces.{called_text, effect_piece, effects_text, flag_piece, kinds_text, left_text};

use crate::parts::put;
use itoa::Buffer;
use sg_facts::{Bytes, Effect, FieldShape, FunShape, Kind, Leaves, NoMemory, Shape, field_name};

/// Adds the line of the function of a number.
pub fn put_fun(out: &mut Bytes, shape: &Shape, number: u8) -> Result<(), NoMemory>
    ensures { let facts = facts_of shape.now in OnOk result (out.new ≡ out.old ++ fun_line facts number (fun_at facts.funs number)) }
{
    put_fun_line(out, shape, number, &shape.fun(number))
}

// Adds the line of a function with its number.
fn put_fun_line(out: &mut Bytes, shape: &Shape, number: u8, fun: &FunShape) -> Result<(), NoMemory>
    ensures { OnOk result (out.new ≡ out.old ++ fun_line (facts_of shape.now) number (fun_of_shape fun.now)) }
{
    put_called(out, number, fun)?;
    put_left(out, shape, fun)
}

// Adds what a function is called with.
fn put_called(out: &mut Bytes, number: u8, fun: &FunShape) -> Result<(), NoMemory>
    ensures { OnOk result (out.new ≡ out.old ++ called_text number (fun_of_shape fun.now)) }
{
    put(out, &[b"fun "])?;
    put_number(out, usize::from(number))?;
    put(out, &[b" ", fun.name])?;
    put_kinds(out, fun.kinds)?;
    put_flags(out, fun)
}

// Adds what a function leaves.
fn put_left(out: &mut Bytes, shape: &Shape, fun: &FunShape) -> Result<(), NoMemory>
    ensures { OnOk result (out.new ≡ out.old ++ left_text (facts_of shape.now) (fun_of_shape fun.now)) }
{
    put(out, &[b" -> ", state_word(shape, fun)])?;
    put_effects(out, shape.fields, fun)?;
    put(out, &[b"\n"])
}

// Adds a number in decimal.
fn put_number(out: &mut Bytes, number: usize) -> Result<(), NoMemory>
    ensures { OnOk result (out.new ≡ out.old ++ decimal number) }
{
    out.extend_from_slice(Buffer::new().format(number).as_bytes())
}

// Adds what parameters are, each after a space.
fn put_kinds(out: &mut Bytes, kinds: &[Kind]) -> Result<(), NoMemory>
    ensures { OnOk result (out.new ≡ out.old ++ kinds_text kinds.now) }
{
    for kind in kinds {
        put(out, &[b" ", kind_word(*kind)])?;
    }
    Ok(())
}

// What a parameter is.
fn kind_word(kind: Kind) -> &'static [u8]
    ensures { result.now ≡ kind_word kind }
{
    match kind {
        Kind::Desc => b"desc",
        Kind::Parent => b"parent",
        Kind::Word => b"word",
        Kind::Text => b"text",
    }
}

// Adds the flags of a function, each after a space.
#[tactic(auto, unfolding(crate::specs::TablesText::flag_pieces))]
fn put_flags(out: &mut Bytes, fun: &FunShape) -> Result<(), NoMemory>
    ensures { OnOk result (out.new ≡ out.old ++ flag_pieces (fun_of_shape fun.now)) }
{
    put_flag(out, fun.is_creation(), b"creation")?;
    put_flag(out, fun.is_terminal(), b"terminal")?;
    put_flag(out, fun.may_block(), b"block")?;
    put_flag(out, fun.wakes(), b"wakeup")?;
    put_flag(out, fun.is_query(), b"query")?;
    put_flag(out, fun.looks_at_all(), b"all")?;
    put_flag(out, fun.uses_file(), b"data")
}

// Adds a flag after a space, where a function has it.
fn put_flag(out: &mut Bytes, has: bool, word: &[u8]) -> Result<(), NoMemory>
    ensures { OnOk result (out.new ≡ out.old ++ flag_piece has word.now) }
{
    if has { put(out, &[b" ", word]) } else { Ok(()) }
}

// The state that a function leaves.
#[tactic(auto, unfolding(crate::specs::TablesText::state_word))]
fn state_word(shape: &Shape, fun: &FunShape) -> &'static [u8]
    ensures { result.now ≡ state_word (facts_of shape.now).funs (fun_of_shape fun.now) }
{
    if fun.is_terminal() {
        return b"end";
    }
    if fun.is_query() {
        return b"none";
    }
    match fun.leaves {
        Leaves::Own => fun.name,
        Leaves::Same => b"same",
        Leaves::Of(other) => shape.fun(other).name,
    }
}

// Adds what a function does to fields.
fn put_effects(out: &mut Bytes, fields: &[FieldShape], fun: &FunShape) -> Result<(), NoMemory>
    ensures { OnOk result (out.new ≡ out.old ++ effects_text (map (λ f. record { name = f.name.now; text = f.text }) fields.now) (fun_of_shape fun.now)) }
{
    for effect in fun.effects {
        put_effect(out, fields, fun.kinds, *effect)?;
    }
    Ok(())
}

// Adds what is done to one field.
fn put_effect(
    out: &mut Bytes,
    fields: &[FieldShape],
    kinds: &[Kind],
    effect: (u8, Effect),
) -> Result<(), NoMemory>
    ensures { OnOk result (out.new ≡ out.old ++ effect_piece (map (λ f. record { name = f.name.now; text = f.text }) fields.now) kinds.now effect) }
{
    let (field, change) = effect;
    put(out, &[b" ", field_name(fields, field)])?;
    put_change(out, kinds, change)
}

// Adds what is done to a field.
fn put_change(out: &mut Bytes, kinds: &[Kind], change: Effect) -> Result<(), NoMemory>
    ensures { OnOk result (out.new ≡ out.old ++ effect_word kinds.now change) }
{
    match change {
        Effect::SetCaller => put(out, &[b"=caller"]),
        Effect::SetArg(arg) => put_arg(out, b"=arg", kinds, arg),
        Effect::AddArg(arg) => put_arg(out, b"+arg", kinds, arg),
        Effect::SetRet => put(out, &[b"=ret"]),
        Effect::AddRet => put(out, &[b"+ret"]),
        Effect::Clear => put(out, &[b"=0"]),
        Effect::SubOne => put(out, &[b"-1"]),
        Effect::SubRet => put(out, &[b"-ret"]),
    }
}

// Adds an argument after a word, by its number among the parameters.
fn put_arg(out: &mut Bytes, word: &[u8], kinds: &[Kind], arg: u8) -> Result<(), NoMemory>
    ensures { OnOk result (out.new ≡ out.old ++ (word.now ++ decimal (param_number 1 kinds.now arg))) }
{
    put(out, &[word])?;
    put_number(out, param_number(1, kinds, arg))
}

// The number among parameters, of which the first has a number, of an argument that counts from 0 without descriptor and
// parent.
fn param_number(first: usize, kinds: &[Kind], arg: u8) -> usize
    requires { first + length kinds.now < 2 ^ 64 }
    ensures { result ≡ param_number first kinds.now arg }
{
    match kinds {
        [] => first,
        [Kind::Desc | Kind::Parent, rest @ ..] => param_number(first + 1, rest, arg),
        [Kind::Word | Kind::Text, ..] if arg == 0 => first,
        [Kind::Word | Kind::Text, rest @ ..] => param_number(first + 1, rest, arg - 1),
    }
}
