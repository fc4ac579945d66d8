// The path of an id, along its ancestors.
ghost use Rattle.std.specs.Prelude.{◌≡◌, ◌++◌, IfOk, OnOk, reverse};
ghost use Rattle.std.specs.List.{flat_map};
ghost use Rattle.std.specs.Option.{option_copied};
ghost use Rattle.sg_facts.specs.Object.{first_text, path_of};
ghost use Rattle.sg_facts.specs.Inside.Rows.{step_to};
ghost use Rattle.sg_facts.specs.Track.{row_at};

use sg_facts::{NoMemory, Path, Row, Value};
use sg_track::Tracker;
use std::alloc::Global;

/// The path of an id: a slash and the name of each live row from its root to it.
pub(crate) fn path_to(alloc: Global, rows: &Tracker, id: u64) -> Result<Path, NoMemory>
    ensures { IfOk result (λ path. path ≡ path_of rows.now.rows id) }
{
    let above = rows.ancestors(alloc, id)?;
    let mut path = path_down(alloc, rows, above.as_slice())?;
    push_step(&mut path, rows.row(id))?;
    Ok(path)
}

// The path along some ids, the last of them first.
fn path_down(alloc: Global, rows: &Tracker, ids: &[u64]) -> Result<Path, NoMemory>
    ensures { IfOk result (λ path. path ≡ flat_map (λ a. step_to (row_at rows.now.rows a)) (reverse ids.now)) }
{
    let mut path = Path::new(alloc);
    'ids: for id in ids.iter().rev() {
        push_step(&mut path, rows.row(*id))?;
    }
    Ok(path)
}

// Adds a slash and the name of a row, where there is one.
fn push_step(path: &mut Path, row: Option<&Row>) -> Result<(), NoMemory>
    ensures { OnOk result (path.new ≡ path.old ++ step_to (option_copied row.entry)) }
{
    match row {
        Some(row) => {
            path.push(b'/')?;
            path.extend_from_slice(first_text(row.fields.as_slice()))
        }
        None => Ok(()),
    }
}

// The bytes of the first text among values; none where no value is a text.
fn first_text(values: &[Value]) -> &[u8]
    ensures { result.now ≡ first_text values.now }
{
    match values {
        [] => &[],
        [Value::Text(text), ..] => text.bytes(),
        [Value::Word(_), rest @ ..] => first_text(rest),
    }
}
