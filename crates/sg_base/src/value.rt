// The values that calls carry.
use crate::{NoMemory, Text, TryCopy};
use std::alloc::Global;

/// An argument of a call or a field of a row: a number or a text.
#[derive(Debug, PartialEq, Eq, Drop)]
pub enum Value {
    Word(u64),
    Text(Text),
}

impl TryCopy for Value {
    fn copy(&self, alloc: Global) -> Result<Self, NoMemory> {
        match self {
            Value::Word(word) => Ok(Value::Word(*word)),
            Value::Text(text) => Ok(Value::Text(text.copy(alloc)?)),
        }
    }
}
