// Room for a row.
ghost use Rattle.std.specs.Prelude.{◌≡◌, ◌+◌, ◌≤◌, [], length, map, max, OnOk, vec_capacity};
ghost use Rattle.sg_track.specs.Drafts.{drafted};

use crate::draft::Draft;
use sg_facts::{Call, Fields, LentValue, MOST_FIELDS, NoMemory, Text, TextRoom, Value};
use std::alloc::Global;
use std::mem;

/// Room for the fields of one row after another, with a text of 256 bytes in each. The fields of a row use up the room for them, and each
/// of its texts that for one.
#[derive(Debug, Drop)]
pub(crate) struct RowRoom {
    pub(crate) values: Vec<Value>,
    pub(crate) texts: Vec<TextRoom>,
}

impl RowRoom {
    ghost use Rattle.sg_track.specs.Kept.{HasRowRoom};

    /// No room yet. It takes no memory.
    pub(crate) fn new(alloc: Global) -> RowRoom {
        RowRoom {
            values: Vec::new(alloc),
            texts: Vec::new(alloc),
        }
    }

    /// Takes the memory for the fields of a row, where it isn't there.
    pub(crate) fn reserve(&mut self, alloc: Global) -> Result<(), NoMemory>
        ensures ok { OnOk result (HasRowRoom self.new) }
        ensures most { OnOk result (length self.new.texts.items ≤ max 8 (length self.old.texts.items)) }
    {
        self.values = Vec::with_capacity(alloc, MOST_FIELDS)?;
        add_text_rooms(alloc, &mut self.texts)?;
        Ok(())
    }

    /// The fields as they were drafted, without memory. They keep no room that they don't need.
    pub(crate) fn fill(&mut self, drafts: &[Draft], call: &Call) -> Fields
        requires room { HasRowRoom self.old }
        requires few { length drafts.now ≤ 8 }
        ensures { result ≡ map (drafted call.now) drafts.now }
    {
        let none = Vec::new(*self.values.allocator());
        let values = mem::replace(&mut self.values, none);
        Fields::from_vec(filled(values, &mut self.texts, drafts, call))
    }
}

// The values of fields as they were drafted, in a vector that has the room for them.
fn filled(
    mut values: Vec<Value>,
    texts: &mut Vec<TextRoom>,
    drafts: &[Draft],
    call: &Call,
) -> Vec<Value>
    requires empty { values.items ≡ [] }
    requires room { vec_capacity values ≡ 8 }
    requires texts { 8 ≤ length texts.old.items }
    requires few { length drafts.now ≤ 8 }
    ensures { result.items ≡ map (drafted call.now) drafts.now }
{
    for draft in drafts {
        values.push_reserved(filled_value(*draft, texts, call));
    }
    values.shrink_to_fit();
    values
}

// The value of a field, in the room for its text.
fn filled_value(draft: Draft, texts: &mut Vec<TextRoom>, call: &Call) -> Value
    requires { 1 ≤ length texts.old.items }
    ensures value { result ≡ drafted call.now draft }
    ensures texts { length texts.old.items ≤ length texts.new.items + 1 }
{
    match draft {
        Draft::Number(word) => Value::Word(word),
        Draft::Blank => Value::Text(Text::empty(*texts.allocator())),
        Draft::Arg(at) => match call.args.get(usize::from(at)) {
            Some(LentValue::Word(word)) => Value::Word(word),
            Some(LentValue::Text(text)) => Value::Text(filled_text(texts, text)),
            None => Value::Word(0),
        },
    }
}

// A text, in one of the rooms for texts.
fn filled_text(texts: &mut Vec<TextRoom>, text: &Text) -> Text
    requires { 1 ≤ length texts.old.items }
    ensures text { result ≡ text.now }
    ensures texts { length texts.old.items ≤ length texts.new.items + 1 }
{
    match texts.pop() {
        Some(room) => room.fill(text),
        None => unreachable!(),
    }
}

// Makes up the rooms for as many texts as a row has fields.
fn add_text_rooms(alloc: Global, rooms: &mut Vec<TextRoom>) -> Result<(), NoMemory>
    ensures ok { OnOk result (8 ≤ length rooms.new.items) }
    ensures most { OnOk result (length rooms.new.items ≤ max 8 (length rooms.old.items)) }
{
    'rooms: for _ in rooms.len()..MOST_FIELDS {
        rooms.push(Text::room(alloc)?)?;
    }
    Ok(())
}
