// The words of a history's calls.
ghost use Rattle.std.specs.Prelude.{map};
ghost use Rattle.sg_facts.specs.Kinds.{AreWords};
ghost use Rattle.sg_facts.specs.sg_base.Lists.{Each};
ghost use Rattle.sg_facts.specs.sg_base.declared.value.Value.TheVariants.{Word};
ghost use Rattle.sg_facts.specs.sg_base.Lent.{args_in};

use sg_facts::{LentArgs, LentCall, Value};
use sg_report::History;

/// Reads the words of all calls, so that each is known to be a number of its type.
#[tactic(auto, using(std::proofs::lemmas::Grind::common_steps, sg_facts::proofs::Places::take_next))]
pub(crate) fn read_words(history: &History)
    ensures { Each (λ e. AreWords e.call.args) history.now.items }
{
    'entries: for at in 0..history.len() {
        read_args(&history.at(at).call);
    }
}

// Reads the words among the arguments of a call.
fn read_args(call: &LentCall)
    ensures { AreWords (args_in call.now.args) }
{
    match call.args {
        LentArgs::Words(words) => read_numbers(words),
        LentArgs::Values(values) => read_values(values),
    }
}

// Reads words.
fn read_numbers(words: &[u64])
    ensures { AreWords (map Word words.now) }
{
    match words {
        [] => {}
        [word, rest @ ..] => {
            let _word = *word;
            read_numbers(rest)
        }
    }
}

// Reads the words among values.
fn read_values(values: &[Value])
    ensures { AreWords values.now }
{
    match values {
        [] => {}
        [Value::Word(word), rest @ ..] => {
            let _word = *word;
            read_values(rest)
        }
        [Value::Text(_), rest @ ..] => read_values(rest),
    }
}
