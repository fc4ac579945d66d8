// Calls, replies and values as they are printed.
ghost use Rattle.std.specs.Prelude.{◌≡◌, ◌++◌, ◌==◌, if◌then◌else◌, [], ◌∷◌, OnOk, codes, map};
ghost use Rattle.std.specs.Fmt.{decimal};
ghost use Rattle.std.specs.List.{flat_map};
ghost use Rattle.sg_facts.specs.sg_base.declared.value.Value.TheVariants.{Word as IsWord};
ghost use Rattle.sg_facts.specs.sg_base.Lent.{args_in, call_in, good_in, reply_in};
ghost use Rattle.sg_facts.specs.Facts.{fun_at, fun_of_shape};
ghost use Rattle.sg_report.specs.Report.{call_text, listed, reply_text, value_text};
ghost use Rattle.sg_report.specs.Inside.Pieces.{good_text, quoted};

use itoa::Buffer;
use sg_facts::{
    Bytes, FunShape, Interface, LentArgs, LentCall, LentGood, LentReply, NoMemory, Value,
};

/// A call: its function's name, and in brackets its descriptor or parent, where the function takes one, and its arguments.
pub fn push_call(out: &mut Bytes, iface: &Interface, call: &LentCall) -> Result<(), NoMemory>
    ensures { OnOk result (out.new ≡ out.old ++ call_text iface.now.facts (call_in call.now)) }
{
    let fun = iface.fun(call.fun);
    out.extend_from_slice(fun.name)?;
    out.extend_from_slice(b"(")?;
    if fun.takes_id() {
        push_number(out, call.desc)?;
        push_more(out, call)?;
    } else {
        push_listed(out, call)?;
    }
    out.extend_from_slice(b")")
}

// The arguments of a call, with a comma and a space between them.
fn push_listed(out: &mut Bytes, call: &LentCall) -> Result<(), NoMemory>
    ensures { OnOk result (out.new ≡ out.old ++ listed (args_in call.now.args)) }
{
    match call.args {
        LentArgs::Words(words) => push_listed_words(out, words),
        LentArgs::Values(values) => push_listed_values(out, values),
    }
}

// The arguments of a call after others.
fn push_more(out: &mut Bytes, call: &LentCall) -> Result<(), NoMemory>
    ensures { OnOk result (out.new ≡ out.old ++ flat_map (λ v. codes ", " ++ value_text v) (args_in call.now.args)) }
{
    match call.args {
        LentArgs::Words(words) => push_more_words(out, words),
        LentArgs::Values(values) => push_more_values(out, values),
    }
}

// Words with a comma and a space between them.
fn push_listed_words(out: &mut Bytes, words: &[u64]) -> Result<(), NoMemory>
    ensures { OnOk result (out.new ≡ out.old ++ listed (map IsWord words.now)) }
{
    match words {
        [] => Ok(()),
        [first, more @ ..] => {
            push_number(out, *first)?;
            push_more_words(out, more)
        }
    }
}

// Words after other arguments.
fn push_more_words(out: &mut Bytes, words: &[u64]) -> Result<(), NoMemory>
    ensures { OnOk result (out.new ≡ out.old ++ flat_map (λ v. codes ", " ++ value_text v) (map IsWord words.now)) }
{
    match words {
        [] => Ok(()),
        [first, more @ ..] => {
            out.extend_from_slice(b", ")?;
            push_number(out, *first)?;
            push_more_words(out, more)
        }
    }
}

// Values with a comma and a space between them.
fn push_listed_values(out: &mut Bytes, values: &[Value]) -> Result<(), NoMemory>
    ensures { OnOk result (out.new ≡ out.old ++ listed values.now) }
{
    match values {
        [] => Ok(()),
        [first, more @ ..] => {
            push_value(out, first)?;
            push_more_values(out, more)
        }
    }
}

// Values after others.
fn push_more_values(out: &mut Bytes, values: &[Value]) -> Result<(), NoMemory>
    ensures { OnOk result (out.new ≡ out.old ++ flat_map (λ v. codes ", " ++ value_text v) values.now) }
{
    for value in values {
        out.extend_from_slice(b", ")?;
        push_value(out, value)?;
    }
    Ok(())
}

// A number in decimal, or a text in double quotes.
fn push_value(out: &mut Bytes, value: &Value) -> Result<(), NoMemory>
    ensures { OnOk result (out.new ≡ out.old ++ value_text value.now) }
{
    match value {
        Value::Word(word) => push_number(out, *word),
        Value::Text(text) => push_quoted(out, text.bytes()),
    }
}

// Bytes in double quotes.
fn push_quoted(out: &mut Bytes, bytes: &[u8]) -> Result<(), NoMemory>
    ensures { OnOk result (out.new ≡ out.old ++ quoted bytes.now) }
{
    out.extend_from_slice(b"\"")?;
    out.extend_from_slice(bytes)?;
    out.extend_from_slice(b"\"")
}

/// A reply to a function.
pub fn push_answer(out: &mut Bytes, fun: &FunShape, reply: &LentReply) -> Result<(), NoMemory>
    ensures { OnOk result (out.new ≡ out.old ++ reply_text (fun_of_shape fun.now) (reply_in reply.now)) }
{
    match reply {
        LentReply::Refused(code) => {
            out.extend_from_slice(b"refused ")?;
            out.extend_from_slice(code.name())
        }
        LentReply::Ok(good) => push_good(out, fun, good),
    }
}

// An Ok: its descriptor, where it has one, its words, and its bytes, where the function shows them.
fn push_good(out: &mut Bytes, fun: &FunShape, good: &LentGood) -> Result<(), NoMemory>
    ensures { OnOk result (out.new ≡ out.old ++ good_text (fun_of_shape fun.now) (good_in good.now)) }
{
    out.extend_from_slice(b"ok")?;
    if good.desc != 0 {
        out.extend_from_slice(b" #")?;
        push_number(out, good.desc)?;
    }
    push_words(out, good.words)?;
    if fun.shows_bytes() {
        out.extend_from_slice(b" ")?;
        push_quoted(out, good.bytes)?;
    }
    Ok(())
}

// Words, each after a space.
fn push_words(out: &mut Bytes, words: &[u64]) -> Result<(), NoMemory>
    ensures { OnOk result (out.new ≡ out.old ++ flat_map (λ word. codes " " ++ decimal word) words.now) }
{
    for word in words {
        out.extend_from_slice(b" ")?;
        push_number(out, *word)?;
    }
    Ok(())
}

/// A number in decimal.
pub fn push_number(out: &mut Bytes, number: u64) -> Result<(), NoMemory>
    ensures { OnOk result (out.new ≡ out.old ++ decimal number) }
{
    out.extend_from_slice(Buffer::new().format(number).as_bytes())
}
