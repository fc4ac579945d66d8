// The calls that rebuild a row.
ghost use Rattle.std.specs.Prelude.{◌≡◌, ◌<◌, ◌≤◌, ◌^◌, ◌++◌, IfOk, length, map, Some};
ghost use Rattle.std.specs.Option.{option_copied};
ghost use Rattle.sg_facts.specs.Facts.{fun_at};
ghost use Rattle.sg_facts.specs.Walks.{carries_arg, replay_arg, replay_args, replay_caller, replayed_call, sets_caller};
ghost use Rattle.sg_facts.specs.Tables.{walk_of};
ghost use Rattle.sg_facts.specs.Inside.Rows.{mask_of};
ghost use Rattle.sg_facts.specs.Track.{field_at, word_of};

use sg_facts::{
    Args, Call, Effect, Fields, Interface, Kind, NoMemory, Row, Tables, TryCopy, Value, Walk,
};
use std::alloc::Global;

/// The walk of a row, by its creation, its state and which of its fields are set; None exactly where the tables have none. It
/// takes no memory.
pub fn walk_of_row<'a>(tables: &'a Tables, row: &Row) -> Option<&'a Walk>
    requires { length row.now.fields ≤ 8 }
    ensures { option_copied result ≡ walk_of tables.now.walks row.now.made row.now.state (mask_of row.now.fields) }
{
    tables.walk(row.made, row.state, row.mask())
}

/// The call of a row's walk that has this function: with the row's present values, on its parent for the first call of the
/// walk and on its id after that. The caller is the value of the field that the function sets to its caller, else the row's
/// creator; it has to be a client's number. The call has no number among its caller's calls.
pub fn replayed_call(
    alloc: Global,
    iface: &Interface,
    row: &Row,
    is_first: bool,
    fun: u8,
) -> Result<Call, NoMemory>
    requires { replay_caller (fun_at iface.now.facts.funs fun).effects row.now < 2 ^ 8 }
    ensures { IfOk result (λ call. call ≡ replayed_call iface.now.facts row.now is_first fun) }
{
    let shape = iface.fun(fun);
    Ok(Call {
        args: replayed_args(alloc, shape.effects, row, shape.kinds)?,
        client: caller_of(shape.effects, row) as u8,
        seq: 0,
        fun,
        desc: if is_first { row.parent } else { row.id },
    })
}

// The caller: the field that is set to it, else the row's creator.
fn caller_of(effects: &[(u8, Effect)], row: &Row) -> u64
    ensures { result ≡ replay_caller (map (λ p. (p.0, p.1)) effects.now) row.now }
{
    match effects {
        [] => u64::from(row.creator),
        [(field, Effect::SetCaller), ..] => word_in(&row.fields, *field),
        [_, rest @ ..] => caller_of(rest, row),
    }
}

// The number in a field; 0 for a text, or where there is no such field.
fn word_in(fields: &Fields, field: u8) -> u64
    ensures { result ≡ word_of (field_at fields.now field) }
{
    match fields.get(usize::from(field)) {
        Some(Value::Word(word)) => *word,
        Some(Value::Text(_)) | None => 0,
    }
}

// The arguments, one for each kind that is no descriptor.
fn replayed_args(
    alloc: Global,
    effects: &[(u8, Effect)],
    row: &Row,
    kinds: &[Kind],
) -> Result<Args, NoMemory>
    ensures { IfOk result (λ args. args ≡ replay_args (map (λ p. (p.0, p.1)) effects.now) row.now 0 kinds.now) }
{
    let mut args = Args::new(alloc);
    'kinds: for kind in kinds {
        match kind {
            Kind::Desc | Kind::Parent => (),
            Kind::Word | Kind::Text => {
                let next = replayed_arg(alloc, effects, row, args.len())?;
                args.push(next)?;
            }
        }
    }
    Ok(args)
}

// An argument: the field that the function sets to it, or adds it to.
fn replayed_arg(
    alloc: Global,
    effects: &[(u8, Effect)],
    row: &Row,
    at: usize,
) -> Result<Value, NoMemory>
    ensures { IfOk result (λ value. value ≡ replay_arg (map (λ p. (p.0, p.1)) effects.now) row.now at) }
{
    match effects {
        [] => Ok(Value::Word(0)),
        [(field, effect), rest @ ..] => {
            if carries(*effect, at) {
                field_of(alloc, &row.fields, *field)
            } else {
                replayed_arg(alloc, rest, row, at)
            }
        }
    }
}

// Whether an effect sets a field to an argument, or adds it.
fn carries(effect: Effect, at: usize) -> bool
    ensures { result ≡ carries_arg at effect }
{
    match effect {
        Effect::SetArg(arg) | Effect::AddArg(arg) => usize::from(arg) == at,
        _ => false,
    }
}

// A copy of a field; 0 where there is no such field.
fn field_of(alloc: Global, fields: &Fields, field: u8) -> Result<Value, NoMemory>
    ensures { IfOk result (λ value. value ≡ field_at fields.now field) }
{
    match fields.get(usize::from(field)) {
        Some(value) => value.copy(alloc),
        None => Ok(Value::Word(0)),
    }
}
