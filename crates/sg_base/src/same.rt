// Whether lent calls and replies are the same, however each is lent.
ghost use Rattle.std.specs.Prelude.{◌≡◌, ◌↔◌, IsTrue, map};
ghost use Rattle.sg_base.specs.declared.value.Value.TheVariants.{Word as IsWord};
ghost use Rattle.sg_base.specs.Args.{args_in};
ghost use Rattle.sg_base.specs.Lent.{call_in, good_in, reply_in};

use crate::{LentArgs, LentCall, LentGood, LentReply, Value};

impl<'a> LentCall<'a> {
    /// Whether it is the same call as another.
    pub fn is_same(&self, other: &LentCall) -> bool
        ensures { IsTrue result ↔ (call_in self.now ≡ call_in other.now) }
    {
        self.client == other.client
            && self.seq == other.seq
            && self.fun == other.fun
            && self.desc == other.desc
            && are_same(&self.args, &other.args)
    }
}

impl<'a> LentReply<'a> {
    /// Whether it is the same reply as another.
    pub fn is_same(&self, other: &LentReply) -> bool
        ensures { IsTrue result ↔ (reply_in self.now ≡ reply_in other.now) }
    {
        match (self, other) {
            (LentReply::Ok(good), LentReply::Ok(other)) => is_same_good(good, other),
            (LentReply::Refused(code), LentReply::Refused(other)) => code == other,
            _ => false,
        }
    }
}

// Whether these are the same arguments.
fn are_same(args: &LentArgs, others: &LentArgs) -> bool
    ensures { IsTrue result ↔ (args_in args.now ≡ args_in others.now) }
{
    match (args, others) {
        (LentArgs::Words(words), LentArgs::Words(others)) => are_same_words(words, others),
        (LentArgs::Words(words), LentArgs::Values(values)) => are_these_words(words, values),
        (LentArgs::Values(values), LentArgs::Words(words)) => are_these_words(words, values),
        (LentArgs::Values(values), LentArgs::Values(others)) => are_same_values(values, others),
    }
}

// Whether these are the same words.
fn are_same_words(words: &[u64], others: &[u64]) -> bool
    ensures { IsTrue result ↔ (map IsWord words.now ≡ map IsWord others.now) }
{
    words == others
}

// Whether values are these words.
fn are_these_words(words: &[u64], values: &[Value]) -> bool
    ensures { IsTrue result ↔ (map IsWord words.now ≡ values.now) }
{
    match (words, values) {
        ([], []) => true,
        ([word, words @ ..], [value, values @ ..]) => {
            is_word(value, *word) && are_these_words(words, values)
        }
        ([], [_, ..]) => false,
        ([_, ..], []) => false,
    }
}

// Whether a value is this word.
fn is_word(value: &Value, word: u64) -> bool
    ensures { IsTrue result ↔ (IsWord word ≡ value.now) }
{
    match value {
        Value::Word(value) => *value == word,
        Value::Text(_) => false,
    }
}

// Whether these are the same values.
fn are_same_values(values: &[Value], others: &[Value]) -> bool
    ensures { IsTrue result ↔ (values.now ≡ others.now) }
{
    values == others
}

// Whether calls that were done gave the same.
fn is_same_good(good: &LentGood, other: &LentGood) -> bool
    ensures { IsTrue result ↔ (good_in good.now ≡ good_in other.now) }
{
    good.desc == other.desc && good.words == other.words && good.bytes == other.bytes
}
