// The arguments of a call.
ghost use Rattle.std.specs.Prelude.{◌≡◌, ◌↔◌, ◌≤◌, [], ◌∷◌, ◌++◌, length, map, IsTrue, IsOk, IfOk, OnOk, OnErr, slice_get};
ghost use Rattle.std.specs.Option.{option_map};
ghost use Rattle.std.specs.Cmp.Lexicographic.{pointwise};
ghost use Rattle.sg_base.specs.Args.{args_in, value_in};
ghost use Rattle.sg_base.specs.Few.{few_in};
ghost use Rattle.sg_base.specs.Inside.Kept.{args_of};
ghost use Rattle.sg_base.specs.Values.{same_value};
ghost use Rattle.sg_base.specs.declared.value.Value.TheVariants.{Word as IsWord};

use crate::few::FewWords;
use crate::{NoMemory, Text, TryCopy, Value};
use std::alloc::Global;
use std::marker::Model;
use std::{mem, slice};

/// The arguments of a call beside its descriptor or parent, in order. One or two words, or a single value, stand in the list itself; only
/// more take a block of memory. Contracts see the list of the values.
#[derive(Debug, Drop)]
pub struct Args {
    kept: KeptArgs,
    alloc: Global,
}

// Where the arguments stand.
#[derive(Debug, Drop)]
pub(crate) enum KeptArgs {
    Words(FewWords),
    One(Value),
    Values(Vec<Value>),
}

/// The arguments of a call, lent: all of them words, or any values.
#[derive(Clone, Copy, Debug)]
pub enum LentArgs<'a> {
    Words(&'a [u64]),
    Values(&'a [Value]),
}

/// An argument, lent.
#[derive(Clone, Copy, Debug)]
pub enum LentValue<'a> {
    Word(u64),
    Text(&'a Text),
}

impl Model for Args {
    ghost use Rattle.std.specs.Prelude.{List};
    ghost use Rattle.sg_base.specs.declared.value.Value.{Value as IsValue};
    ghost use Rattle.sg_base.specs.Inside.Kept.{args_of};

    ghost Value = { List IsValue };

    ghost view = { λ a. args_of a.kept };
}

impl Args {
    /// No argument. It takes no memory.
    pub fn new(alloc: Global) -> Args
        ensures { result ≡ [] }
    {
        Args {
            kept: KeptArgs::Words(FewWords::Empty),
            alloc,
        }
    }

    /// What a vector has. It takes no memory.
    pub fn from_vec(values: Vec<Value>) -> Args
        ensures { result ≡ values.items }
    {
        Args {
            alloc: *values.allocator(),
            kept: KeptArgs::Values(values),
        }
    }

    /// Adds an argument at the end. After `NoMemory` the list is as before.
    pub fn push(&mut self, value: Value) -> Result<(), NoMemory>
        ensures ok { OnOk result (self.new ≡ self.old ++ value ∷ []) }
        ensures err { OnErr result (self.new ≡ self.old) }
    {
        match &mut self.kept {
            KeptArgs::Words(words) => self.kept = with_words(self.alloc, words, value)?,
            KeptArgs::One(one) => self.kept = KeptArgs::Values(two(self.alloc, one, value)?),
            KeptArgs::Values(values) => values.push(value)?,
        }
        Ok(())
    }

    /// The number of arguments.
    pub fn len(&self) -> usize
        ensures { result ≡ length self.now }
    {
        match self.lent() {
            LentArgs::Words(words) => words.len(),
            LentArgs::Values(values) => values.len(),
        }
    }

    /// Whether there is no argument.
    pub fn is_empty(&self) -> bool
        ensures { IsTrue result ↔ (self.now ≡ []) }
    {
        self.len() == 0
    }

    /// The argument at a place, counted from 0, lent; None exactly where `at` isn't below the length.
    pub fn get(&self, at: usize) -> Option<LentValue<'_>>
        ensures { option_map value_in result ≡ slice_get self.now at }
    {
        match self.lent() {
            LentArgs::Words(words) => match words.get(at) {
                Some(word) => Some(LentValue::Word(*word)),
                None => None,
            },
            LentArgs::Values(values) => match values.get(at) {
                Some(value) => Some(LentValue::of(value)),
                None => None,
            },
        }
    }

    /// The arguments, lent.
    pub fn lent(&self) -> LentArgs<'_>
        ensures { args_in result ≡ self.now }
    {
        match &self.kept {
            KeptArgs::Words(words) => LentArgs::Words(words.as_slice()),
            KeptArgs::One(value) => LentArgs::Values(slice::from_ref(value)),
            KeptArgs::Values(values) => LentArgs::Values(values.as_slice()),
        }
    }
}

impl<'a> LentValue<'a> {
    /// A value that is owned, lent.
    pub fn of(value: &'a Value) -> LentValue<'a>
        ensures { value_in result ≡ value.now }
    {
        match value {
            Value::Word(word) => LentValue::Word(*word),
            Value::Text(text) => LentValue::Text(text),
        }
    }
}

impl TryCopy for Args {
    fn copy(&self, alloc: Global) -> Result<Self, NoMemory> {
        Ok(Args {
            kept: copied_kept(alloc, &self.kept)?,
            alloc,
        })
    }
}

impl PartialEq for Args {
    ghost use Rattle.std.specs.Cmp.{on_per, partial_equiv_from_equiv};
    ghost use Rattle.std.specs.Cmp.Lexicographic.{pointwise, lists_per, nat_list_eq_equiv};
    ghost use Rattle.sg_base.specs.Values.{same_value, value_code};

    ghost eq = { pointwise same_value };

    ghost laws = { lists_per (on_per value_code (partial_equiv_from_equiv nat_list_eq_equiv)) };

    fn eq(&self, other: &Self) -> bool {
        match (self.lent(), other.lent()) {
            (LentArgs::Words(words), LentArgs::Words(others)) => are_same_words(words, others),
            (LentArgs::Words(words), LentArgs::Values(values)) => are_words(words, values),
            (LentArgs::Values(values), LentArgs::Words(words)) => are_words(words, values),
            (LentArgs::Values(values), LentArgs::Values(others)) => are_same_values(values, others),
        }
    }
}

impl Eq for Args {
    ghost use Rattle.std.specs.Cmp.{on_equiv};
    ghost use Rattle.std.specs.Cmp.Lexicographic.{lists_equiv, nat_list_eq_equiv};
    ghost use Rattle.sg_base.specs.Values.{value_code};

    ghost laws = { lists_equiv (on_equiv value_code nat_list_eq_equiv) };
}

// A few words and one more value.
fn with_words(alloc: Global, words: &FewWords, value: Value) -> Result<KeptArgs, NoMemory>
    ensures { IfOk result (λ kept. args_of kept ≡ map IsWord (few_in words.now) ++ value ∷ []) }
{
    match value {
        Value::Word(word) => match words.with(word) {
            Some(more) => Ok(KeptArgs::Words(more)),
            None => Ok(KeptArgs::Values(listed(alloc, words.as_slice(), Value::Word(word))?)),
        },
        Value::Text(text) => match words.as_slice() {
            [] => Ok(KeptArgs::One(Value::Text(text))),
            words => Ok(KeptArgs::Values(listed(alloc, words, Value::Text(text))?)),
        },
    }
}

// A list of words and a value.
fn listed(alloc: Global, words: &[u64], value: Value) -> Result<Vec<Value>, NoMemory>
    ensures { IfOk result (λ values. values.items ≡ map IsWord words.now ++ value ∷ []) }
{
    let mut values = values_of(alloc, words)?;
    values.push(value)?;
    Ok(values)
}

// The values that these words are.
fn values_of(alloc: Global, words: &[u64]) -> Result<Vec<Value>, NoMemory>
    ensures { IfOk result (λ values. values.items ≡ map IsWord words.now) }
{
    let mut values = Vec::new(alloc);
    for word in words {
        values.push(Value::Word(*word))?;
    }
    Ok(values)
}

// A list of a value, which is taken, and another. After `NoMemory` the first is as before.
fn two(alloc: Global, one: &mut Value, value: Value) -> Result<Vec<Value>, NoMemory>
    ensures ok { IfOk result (λ values. values.items ≡ one.old ∷ value ∷ []) }
    ensures err { OnErr result (one.new ≡ one.old) }
{
    let mut values = Vec::with_capacity(alloc, 2)?;
    values.push_reserved(mem::replace(one, Value::Word(0)));
    values.push_reserved(value);
    Ok(values)
}

// Equal arguments.
fn copied_kept(alloc: Global, kept: &KeptArgs) -> Result<KeptArgs, NoMemory>
    ensures { IfOk result (λ copy. args_of copy ≡ args_of kept.now) }
{
    match kept {
        KeptArgs::Words(words) => Ok(KeptArgs::Words(*words)),
        KeptArgs::One(value) => Ok(KeptArgs::One(value.copy(alloc)?)),
        KeptArgs::Values(values) => Ok(KeptArgs::Values(copied(alloc, values.as_slice())?)),
    }
}

// Equal values.
fn copied(alloc: Global, values: &[Value]) -> Result<Vec<Value>, NoMemory>
    ensures { IfOk result (λ copy. copy.items ≡ values.now) }
{
    let mut items = Vec::with_capacity(alloc, values.len())?;
    for value in values {
        items.push(value.copy(alloc)?)?;
    }
    Ok(items)
}

// Whether these are the same words.
fn are_same_words(words: &[u64], others: &[u64]) -> bool
    ensures { result ≡ pointwise same_value (map IsWord words.now) (map IsWord others.now) }
{
    words == others
}

// Whether values are these words.
fn are_words(words: &[u64], values: &[Value]) -> bool
    ensures { result ≡ pointwise same_value (map IsWord words.now) values.now }
{
    match (words, values) {
        ([], []) => true,
        ([word, words @ ..], [value, values @ ..]) => {
            is_word(*word, value) && are_words(words, values)
        }
        ([], [_, ..]) => false,
        ([_, ..], []) => false,
    }
}

// Whether these are the same values.
fn are_same_values(values: &[Value], others: &[Value]) -> bool
    ensures { result ≡ pointwise same_value values.now others.now }
{
    match (values, others) {
        ([], []) => true,
        ([value, values @ ..], [other, others @ ..]) => {
            is_same_value(value, other) && are_same_values(values, others)
        }
        ([], [_, ..]) => false,
        ([_, ..], []) => false,
    }
}

// Whether these are the same value.
fn is_same_value(value: &Value, other: &Value) -> bool
    ensures { result ≡ same_value value.now other.now }
{
    match (value, other) {
        (Value::Word(word), other) => is_word(*word, other),
        (Value::Text(text), Value::Text(other)) => text == other,
        (Value::Text(_), Value::Word(_)) => false,
    }
}

// Whether a value is this word.
fn is_word(word: u64, value: &Value) -> bool
    ensures { result ≡ same_value (IsWord word) value.now }
{
    match value {
        Value::Word(other) => word == *other,
        Value::Text(_) => false,
    }
}
