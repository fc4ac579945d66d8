// The text of tables.
ghost use Rattle.std.specs.Prelude.{◌≡◌, ◌++◌, ◌==◌, if◌then◌else◌, [], codes, map, OnOk, IfOk};
ghost use Rattle.std.specs.List.{flat_map};
ghost use Rattle.sg_facts.specs.Facts.{facts_of, fun_at, fun_of_shape};
ghost use Rattle.sg_facts.specs.Interface.{has_pair};
ghost use Rattle.sg_parse.specs.Grammar.Sentence.{recovery_word};
ghost use Rattle.sg_print.specs.TablesText.{facts_lines, fun_lines, pair_lines, service_lines, set_names, set_word, tables_text, walk_line, walk_names};
ghost use Rattle.sg_print.specs.Inside.Pieces.{pair_line, pairs_from};

use crate::funs::put_fun;
use crate::parts::put;
use crate::words::recovery_word;
use sg_facts::{
    Bytes, END_OF_FUNS, FieldShape, Interface, NoMemory, Shape, Tables, WalkLine, close_word,
    flag_word, parents_word,
};
use std::alloc::Global;

/// The text of tables: the facts of the service, the declared functions, the transitions and recover steps by their numbers,
/// and the walks in the order of the lines. `NoMemory` only where there is no memory for it.
pub fn print_tables(alloc: Global, tables: &Tables) -> Result<Bytes, NoMemory>
    ensures { IfOk result (λ text. text ≡ tables_text tables.now) }
{
    let iface = tables.interface();
    let mut out = Bytes::new(alloc);
    put_facts(&mut out, iface)?;
    put_funs(&mut out, iface)?;
    put_pairs(&mut out, b"move", &iface.shape, iface.moves.as_slice())?;
    put_pairs(&mut out, b"step", &iface.shape, iface.steps.as_slice())?;
    put_walks(&mut out, alloc, &iface.shape, tables.lines())?;
    Ok(out)
}

// Adds the lines of the service and of its facts.
fn put_facts(out: &mut Bytes, iface: &Interface) -> Result<(), NoMemory>
    ensures { OnOk result (out.new ≡ out.old ++ facts_lines iface.now) }
{
    put_service(out, &iface.shape)?;
    put_recover(out, iface.version, iface.eager)?;
    put(out, &[b"\n"])
}

// Adds the line of the service, and the line of its facts up to the last of them.
#[tactic(auto, unfolding(crate::specs::TablesText::service_lines))]
fn put_service(out: &mut Bytes, shape: &Shape) -> Result<(), NoMemory>
    ensures { OnOk result (out.new ≡ out.old ++ service_lines (facts_of shape.now)) }
{
    put(out, &[b"service ", shape.name, b"\n"])?;
    put(
        out,
        &[
            b"facts parent=",
            parents_word(shape.parents),
            b" close=",
            close_word(shape.subtree),
            b" global=",
            flag_word(shape.global),
            b" block=",
            flag_word(shape.block),
            b" desc_data=",
            flag_word(shape.has_data),
            b" resc_data=",
            flag_word(shape.resc_data),
        ],
    )
}

// Adds when descriptors are rebuilt, which an interface of a version after the first says.
fn put_recover(out: &mut Bytes, version: u8, eager: bool) -> Result<(), NoMemory>
    ensures { OnOk result (out.new ≡ out.old ++ (if version == 1 then [] else codes " recover=" ++ recovery_word eager)) }
{
    if version == 1 {
        Ok(())
    } else {
        put(out, &[b" recover=", recovery_word(eager)])
    }
}

// Adds the lines of the declared functions.
fn put_funs(out: &mut Bytes, iface: &Interface) -> Result<(), NoMemory>
    ensures { OnOk result (out.new ≡ out.old ++ fun_lines iface.now) }
{
    'funs: for number in 1..END_OF_FUNS {
        if iface.declares(number) {
            put_fun(out, &iface.shape, number)?;
        }
    }
    Ok(())
}

// Adds the lines of pairs of functions, by the first and then by the second.
fn put_pairs(
    out: &mut Bytes,
    word: &[u8],
    shape: &Shape,
    pairs: &[(u8, u8)],
) -> Result<(), NoMemory>
    ensures { OnOk result (out.new ≡ out.old ++ pair_lines word.now (facts_of shape.now).funs pairs.now) }
{
    'firsts: for first in 1..END_OF_FUNS {
        put_pairs_after(out, word, shape, pairs, first)?;
    }
    Ok(())
}

// Adds the lines of the listed pairs with this first function.
fn put_pairs_after(
    out: &mut Bytes,
    word: &[u8],
    shape: &Shape,
    pairs: &[(u8, u8)],
    first: u8,
) -> Result<(), NoMemory>
    ensures { OnOk result (out.new ≡ out.old ++ pairs_from word.now (facts_of shape.now).funs pairs.now first) }
{
    'seconds: for second in 1..END_OF_FUNS {
        if has_pair(pairs, first, second) {
            put_pair(out, word, shape, first, second)?;
        }
    }
    Ok(())
}

// Adds the line of one pair.
fn put_pair(
    out: &mut Bytes,
    word: &[u8],
    shape: &Shape,
    first: u8,
    second: u8,
) -> Result<(), NoMemory>
    ensures { OnOk result (out.new ≡ out.old ++ pair_line word.now (facts_of shape.now).funs first second) }
{
    put(out, &[word, b" "])?;
    put(
        out,
        &[shape.fun(first).name, b" ", shape.fun(second).name, b"\n"],
    )
}

// Whether a pair is listed.
fn has_pair(pairs: &[(u8, u8)], first: u8, second: u8) -> bool
    ensures { result ≡ has_pair pairs.now first second }
{
    pairs.iter().any(|pair| pair.0 == first && pair.1 == second)
}

// Adds the lines of walks.
fn put_walks(
    out: &mut Bytes,
    alloc: Global,
    shape: &Shape,
    lines: &[WalkLine],
) -> Result<(), NoMemory>
    ensures { OnOk result (out.new ≡ out.old ++ flat_map (walk_line (facts_of shape.now)) lines.now) }
{
    for line in lines {
        put_walk(out, alloc, shape, line)?;
    }
    Ok(())
}

// Adds the line of a walk.
fn put_walk(out: &mut Bytes, alloc: Global, shape: &Shape, line: &WalkLine) -> Result<(), NoMemory>
    ensures { OnOk result (out.new ≡ out.old ++ walk_line (facts_of shape.now) line.now) }
{
    let made = shape.fun(line.made).name;
    let state = shape.fun(line.state).name;
    put(out, &[b"walk ", made, b" ", state, b" "])?;
    put_set(out, alloc, shape.fields, line.mask)?;
    put(out, &[b" :"])?;
    put_names(out, shape, line.walk.as_slice())?;
    put(out, &[b"\n"])
}

// Adds the names of functions, each after a space.
fn put_names(out: &mut Bytes, shape: &Shape, walk: &[u8]) -> Result<(), NoMemory>
    ensures { OnOk result (out.new ≡ out.old ++ walk_names (facts_of shape.now).funs walk.now) }
{
    for fun in walk {
        put(out, &[b" ", shape.fun(*fun).name])?;
    }
    Ok(())
}

// Adds the names of the fields of a set, with a comma between two, or a dash where it has none.
fn put_set(out: &mut Bytes, alloc: Global, fields: &[FieldShape], mask: u8) -> Result<(), NoMemory>
    ensures { OnOk result (out.new ≡ out.old ++ set_word (set_names (map (λ f. record { name = f.name.now; text = f.text }) fields.now) mask)) }
{
    let names = names_in(alloc, fields, mask)?;
    put_joined(out, names.as_slice())
}

// Adds names with a comma between two, or a dash where there is none.
fn put_joined(out: &mut Bytes, names: &[&[u8]]) -> Result<(), NoMemory>
    ensures { OnOk result (out.new ≡ out.old ++ set_word (map (λ n. n.now) names.now)) }
{
    let Some((first, more)) = names.split_first() else {
        return put(out, &[b"-"]);
    };
    out.extend_from_slice(first)?;
    for name in more {
        put(out, &[b",", name])?;
    }
    Ok(())
}

// The names of the fields of a set.
fn names_in(alloc: Global, fields: &[FieldShape], mask: u8) -> Result<Vec<&'static [u8]>, NoMemory>
    ensures { IfOk result (λ names. map (λ n. n.now) names.items ≡ set_names (map (λ f. record { name = f.name.now; text = f.text }) fields.now) mask) }
{
    let mut names = Vec::new(alloc);
    let mut left = mask;
    'fields: for field in fields {
        if left % 2 == 1 {
            names.push(field.name)?;
        }
        left /= 2;
    }
    Ok(names)
}
