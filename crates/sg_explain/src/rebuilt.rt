// How what descriptors come to is rebuilt, in words, and the counts of a script.
ghost use Rattle.std.specs.Prelude.{◌≡◌, ◌≤◌, ◌<◌, ◌+◌, ◌*◌, ◌^◌, [], ◌==◌, ◌&&◌, ◌||◌, ◌++◌, not, if◌then◌else◌, codes, count_by, length, map, sum_by, OnOk};
ghost use Rattle.std.specs.List.{flat_map, list_any};
ghost use Rattle.sg_explain.specs.Rebuilt.{come_to_words, counts_line, rebuilt_line};
ghost use Rattle.sg_explain.specs.Inside.Pieces.{clients_of, fields_words};
ghost use Rattle.sg_input.specs.sg_facts.Facts.{facts_of};
ghost use Rattle.sg_input.specs.sg_print.TablesText.{set_names, walk_names};

use crate::parts::put;
use sg_input::{Bytes, CallList, FieldShape, NoMemory, Script, Shape, WalkLine};
use std::alloc::Global;

/// Adds a line for each walk of tables.
pub(crate) fn put_rebuilt(
    out: &mut Bytes,
    shape: &Shape,
    lines: &[WalkLine],
) -> Result<(), NoMemory>
    ensures { OnOk result (out.new ≡ out.old ++ flat_map (rebuilt_line (facts_of shape.now)) lines.now) }
{
    for line in lines {
        put_line(out, shape, line)?;
    }
    Ok(())
}

// Adds the line of a walk.
fn put_line(out: &mut Bytes, shape: &Shape, line: &WalkLine) -> Result<(), NoMemory>
    ensures { OnOk result (out.new ≡ out.old ++ rebuilt_line (facts_of shape.now) line.now) }
{
    put_come_to(out, shape, line.made, line.state, line.mask)?;
    put(out, &[b"rebuilt by"])?;
    put_names(out, shape, line.walk.as_slice())?;
    put(out, &[b"\n"])
}

/// Adds the names of functions, each after a space.
pub fn put_names(out: &mut Bytes, shape: &Shape, walk: &[u8]) -> Result<(), NoMemory>
    ensures { OnOk result (out.new ≡ out.old ++ walk_names (facts_of shape.now).funs walk.now) }
{
    for fun in walk {
        put(out, &[b" ", shape.fun(*fun).name])?;
    }
    Ok(())
}

/// Adds what a descriptor can come to: the function that made it, its state, and the fields that are set.
pub(crate) fn put_come_to(
    out: &mut Bytes,
    shape: &Shape,
    made: u8,
    state: u8,
    mask: u8,
) -> Result<(), NoMemory>
    ensures { OnOk result (out.new ≡ out.old ++ come_to_words (facts_of shape.now) made state mask) }
{
    let made = shape.fun(made).name;
    let state = shape.fun(state).name;
    put(
        out,
        &[
            b"made by ",
            made,
            b", in the state ",
            state,
            b", fields set:",
        ],
    )?;
    put_set(out, shape.fields, mask)?;
    put(out, &[b"; "])
}

// Adds the names of the fields of a set, each after a space, or that there is none.
fn put_set(out: &mut Bytes, fields: &[FieldShape], mask: u8) -> Result<(), NoMemory>
    ensures { OnOk result (out.new ≡ out.old ++ fields_words (map (λ f. record { name = f.name.now; text = f.text }) fields.now) mask) }
{
    if mask == 0 {
        put(out, &[b" none"])
    } else {
        put_fields(out, fields, mask)
    }
}

// Adds the names of the fields of a set, each after a space.
fn put_fields(out: &mut Bytes, fields: &[FieldShape], mask: u8) -> Result<(), NoMemory>
    ensures { OnOk result (out.new ≡ out.old ++ flat_map (λ name. codes " " ++ name) (set_names (map (λ f. record { name = f.name.now; text = f.text }) fields.now) mask)) }
{
    match fields {
        [] => Ok(()),
        [field, rest @ ..] => {
            put_field(out, mask % 2 == 1, field.name)?;
            put_fields(out, rest, mask / 2)
        }
    }
}

// Adds the name of a field after a space, where it is set.
fn put_field(out: &mut Bytes, is_set: bool, name: &[u8]) -> Result<(), NoMemory>
    ensures { OnOk result (out.new ≡ out.old ++ (if is_set then codes " " ++ name.now else [])) }
{
    if is_set {
        put(out, &[b" ", name])
    } else {
        Ok(())
    }
}

/// Adds how many clients, calls and stops a script has.
pub fn put_counts(out: &mut Bytes, alloc: Global, script: &Script) -> Result<(), NoMemory>
    ensures { OnOk result (out.new ≡ out.old ++ counts_line script.now) }
{
    let clients = client_count(script);
    let calls = call_count(script);
    let stops = script.stops.len();
    let said = format!(in alloc; "clients {clients} calls {calls} stops {stops}\n")?;
    out.extend_from_slice(said.as_bytes())
}

// How many clients have a call.
fn client_count(script: &Script) -> usize
    ensures { result ≡ clients_of script.now }
{
    let others = others_with_calls(script.clients.as_slice());
    if first_has_calls(script) {
        others + 1
    } else {
        others
    }
}

// How many clients beside client 1 have a call.
fn others_with_calls(clients: &[(u8, CallList)]) -> usize
    ensures count { result ≡ count_by (λ c. not (c.0 == 1) && not (length c.1 == 0)) clients.now }
    ensures bound { result < 2 ^ 63 }
{
    clients.iter().filter(|client| is_other(client)).count()
}

// Whether a client isn't client 1 and has a call.
fn is_other(client: &(u8, CallList)) -> bool
    ensures { result ≡ (not (client.now.0 == 1) && not (length client.now.1 == 0)) }
{
    client.0 != 1 && client.1.len() != 0
}

// Whether client 1 has a call, in the setup or in its part.
fn first_has_calls(script: &Script) -> bool
    ensures { result ≡ (not (length script.now.setup == 0) || list_any (λ c. (c.0 == 1) && not (length c.1 == 0)) script.now.clients) }
{
    script.setup.len() != 0 || has_first(script.clients.as_slice())
}

// Whether client 1 has a part with a call.
fn has_first(clients: &[(u8, CallList)]) -> bool
    ensures { result ≡ list_any (λ c. (c.0 == 1) && not (length c.1 == 0)) clients.now }
{
    clients.iter().any(|client| is_first(client))
}

// Whether a client is client 1 and has a call.
fn is_first(client: &(u8, CallList)) -> bool
    ensures { result ≡ ((client.now.0 == 1) && not (length client.now.1 == 0)) }
{
    client.0 == 1 && client.1.len() != 0
}

// How many calls a script has, those of the setup among them.
fn call_count(script: &Script) -> u128
    ensures { result ≡ length script.now.setup + sum_by (λ c. length c.1) script.now.clients }
{
    script.setup.len() as u128 + calls_in(script.clients.as_slice())
}

// How many calls the parts of clients have.
fn calls_in(clients: &[(u8, CallList)]) -> u128
    ensures sum { result ≡ sum_by (λ c. length c.1) clients.now }
    ensures bound { result ≤ length clients.now * 2 ^ 64 }
{
    let mut calls = 0;
    'clients: for client in clients {
        calls += client.1.len() as u128;
    }
    calls
}
