// A tracked descriptor.
ghost use Rattle.std.specs.Prelude.{◌≡◌, ◌↔◌, ◌^◌, ◌<◌, ◌≤◌, [], ◌∷◌, ◌++◌, length, take, IsTrue, IfSome, IfNone, IfOk, OnOk, OnErr, slice_get, slice_set, vec_capacity};
ghost use Rattle.std.specs.Option.{option_copied};
ghost use Rattle.sg_facts.specs.Fields.{is_set};
ghost use Rattle.sg_facts.specs.Inside.Rows.{mask_of};

use crate::MOST_FIELDS;
use sg_base::{ListOf, NoMemory, Text, TextRoom, TryCopy, Value};
use std::alloc::Global;
use std::marker::Model;

/// The fields of a row, by their numbers from 0. Contracts see the list of their values.
#[derive(Debug, PartialEq, Eq, Drop)]
pub struct Fields {
    values: ListOf<Value>,
}

impl Model for Fields {
    ghost use Rattle.std.specs.Prelude.{List};
    ghost use Rattle.sg_base.specs.declared.value.Value.{Value as FieldValue};

    ghost Value = { List FieldValue };

    ghost view = { λ f. f.values };

    ghost inverse = { λ values. record { values = values } };
}

impl Fields {
    /// No field. It takes no memory.
    pub fn new(alloc: Global) -> Fields
        ensures { result ≡ [] }
    {
        Fields {
            values: ListOf::new(alloc),
        }
    }

    /// Adds a field. After `NoMemory` the fields are as before.
    pub fn push(&mut self, value: Value) -> Result<(), NoMemory>
        ensures ok { OnOk result (self.new ≡ self.old ++ value ∷ []) }
        ensures err { OnErr result (self.new ≡ self.old) }
    {
        self.values.push(value)
    }

    /// Takes the last field away; None exactly where there is none.
    pub fn pop(&mut self) -> Option<Value>
        ensures some { IfSome result (λ last. self.old ≡ self.new ++ last ∷ []) }
        ensures none { (result ≡ None) ↔ (self.old ≡ []) }
        ensures empty { IfNone result (self.new ≡ []) }
    {
        self.values.pop()
    }

    /// The number of fields.
    pub fn len(&self) -> usize
        ensures { result ≡ length self.now }
    {
        self.values.len()
    }

    /// Whether there is no field.
    pub fn is_empty(&self) -> bool
        ensures { IsTrue result ↔ (self.now ≡ []) }
    {
        self.values.is_empty()
    }

    /// The field of a number; None exactly where there is none.
    pub fn get(&self, at: usize) -> Option<&Value>
        ensures { option_copied result ≡ slice_get self.now at }
    {
        self.values.get(at)
    }

    /// Fields of these values. It takes no memory.
    pub fn from_vec(values: Vec<Value>) -> Fields
        ensures { result ≡ values.items }
    {
        Fields {
            values: ListOf::from_vec(values),
        }
    }

    /// Puts a value in the place of another. It takes no memory.
    pub fn set(&mut self, at: usize, value: Value)
        requires { at < length self.old }
        ensures { self.new ≡ slice_set self.old at value }
    {
        self.values.set(at, value)
    }

    /// The fields, lent.
    pub fn as_slice(&self) -> &[Value]
        ensures { result.now ≡ self.now }
    {
        self.values.as_slice()
    }
}

impl TryCopy for Fields {
    fn copy(&self, alloc: Global) -> Result<Self, NoMemory> {
        Ok(Fields {
            values: self.values.copy(alloc)?,
        })
    }
}

/// Room for the fields of one row, with a text of 256 bytes in each, which is used up when the fields are made.
#[derive(Debug, Drop)]
pub struct FieldsRoom {
    pub values: Vec<Value>,
    pub texts: Vec<TextRoom>,
    ghost is_empty: { values.items ≡ [] },
    ghost has_room: { 8 ≤ vec_capacity values },
    ghost has_texts: { length texts.items ≡ 8 },
}

impl Fields {
    /// Room for the fields of a row, taken ahead so that a copy of them needs no memory later.
    pub fn room(alloc: Global) -> Result<FieldsRoom, NoMemory>
        ensures values { IfOk result (λ room. 8 ≤ vec_capacity room.values) }
        ensures texts { IfOk result (λ room. length room.texts.items ≡ 8) }
    {
        Ok(FieldsRoom {
            values: Vec::with_capacity(alloc, MOST_FIELDS)?,
            texts: text_rooms(alloc)?,
        })
    }
}

// Room for as many texts as a row has fields.
fn text_rooms(alloc: Global) -> Result<Vec<TextRoom>, NoMemory>
    ensures { IfOk result (λ rooms. length rooms.items ≡ 8) }
{
    let mut rooms = Vec::with_capacity(alloc, MOST_FIELDS)?;
    'rooms: for _ in 0..MOST_FIELDS {
        rooms.push(Text::room(alloc)?)?;
    }
    Ok(rooms)
}

impl FieldsRoom {
    /// Equal fields, without memory.
    pub fn fill(self, from: &Fields) -> Fields
        requires { length from.now ≤ 8 }
        ensures { result ≡ from.now }
    {
        let FieldsRoom {
            mut values,
            mut texts,
        } = self;
        for value in from.as_slice() {
            match value {
                Value::Word(word) => values.push_reserved(Value::Word(*word)),
                Value::Text(text) => match texts.pop() {
                    Some(room) => values.push_reserved(Value::Text(room.fill(text))),
                    None => unreachable!(),
                },
            }
        }
        Fields::from_vec(values)
    }
}

/// A tracked descriptor.
#[derive(Debug, PartialEq, Eq, Drop)]
pub struct Row {
    /// Its id, from 1.
    pub id: u64,
    /// The creation function that made it.
    pub made: u8,
    /// The client that made it.
    pub creator: u8,
    /// The id of its parent, 0 for none.
    pub parent: u64,
    /// The function that names its state.
    pub state: u8,
    pub fields: Fields,
}

impl Row {
    /// Which fields aren't 0 or empty: bit i for field i, of the first eight.
    pub fn mask(&self) -> u8
        ensures { result ≡ mask_of (take 8 self.now.fields) }
    {
        let values = self.fields.as_slice();
        mask_of(&values[..values.len().min(MOST_FIELDS)])
    }
}

// The set values as a number: bit i for value i.
fn mask_of(values: &[Value]) -> u8
    requires { length values.now ≤ 8 }
    ensures value { result ≡ mask_of values.now }
    ensures bound { result < 2 ^ length values.now }
{
    match values {
        [] => 0,
        [value, rest @ ..] => u8::from(is_set(value)) + 2 * mask_of(rest),
    }
}

// Whether a value isn't 0 or empty.
fn is_set(value: &Value) -> bool
    ensures { result ≡ is_set value.now }
{
    match value {
        Value::Word(word) => *word != 0,
        Value::Text(text) => !text.bytes().is_empty(),
    }
}

impl TryCopy for Row {
    fn copy(&self, alloc: Global) -> Result<Self, NoMemory> {
        Ok(Row {
            fields: self.fields.copy(alloc)?,
            id: self.id,
            made: self.made,
            creator: self.creator,
            parent: self.parent,
            state: self.state,
        })
    }
}
