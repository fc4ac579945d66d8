// Which function a call is of, and whether it may be offered.
ghost use Rattle.std.specs.Prelude.{◌≡◌, ℕ, map, true};
ghost use Rattle.sg_facts.specs.sg_base.declared.value.Value.TheVariants.{Word as IsWord};
ghost use Rattle.sg_facts.specs.Interface.{declares};
ghost use Rattle.sg_facts.specs.Kinds.{FitsKinds, kinds_fit};

use sg_facts::{Args, Interface, Kind, LentArgs, MOST_FUNS, Value};

/// The number of a function, by its name or number; None where there is none of a name.
pub fn number_of(iface: &Interface, fun: &str) -> Option<u8> {
    match fun.parse() {
        Ok(number) => Some(number),
        Err(_) => (1..=MOST_FUNS).find(|number| iface.fun(*number).name == fun.as_bytes()),
    }
}

/// Whether an interface declares a function that takes this descriptor and these arguments.
pub fn takes(iface: &Interface, fun: u8, desc: u64, args: &Args) -> bool
    ensures declared { result ≡ true → declares iface.now fun ≡ true }
    ensures fits { result ≡ true → (client seq : ℕ) → FitsKinds iface.now.facts (record { client = client; seq = seq; fun = fun; desc = desc; args = args.now }) }
{
    let shape = iface.fun(fun);
    iface.declares(fun)
        && kinds_fit(shape.kinds, args)
        && (shape.takes_desc() || shape.takes_parent() || desc == 0)
}

// Whether arguments are those that kinds ask for, beside descriptor and parent.
fn kinds_fit(kinds: &[Kind], args: &Args) -> bool
    ensures { result ≡ kinds_fit kinds.now args.now }
{
    match args.lent() {
        LentArgs::Words(words) => words_fit(kinds, words),
        LentArgs::Values(values) => values_fit(kinds, values),
    }
}

// Whether words are those that kinds ask for, beside descriptor and parent.
fn words_fit(kinds: &[Kind], words: &[u64]) -> bool
    ensures { result ≡ kinds_fit kinds.now (map IsWord words.now) }
{
    match kinds {
        [] => words.is_empty(),
        [kind, more @ ..] => match kind {
            Kind::Desc | Kind::Parent => words_fit(more, words),
            Kind::Word => match words {
                [] => false,
                [_, others @ ..] => words_fit(more, others),
            },
            Kind::Text => false,
        },
    }
}

// Whether values are those that kinds ask for, beside descriptor and parent.
fn values_fit(kinds: &[Kind], values: &[Value]) -> bool
    ensures { result ≡ kinds_fit kinds.now values.now }
{
    match (kinds, values) {
        ([], []) => true,
        ([Kind::Desc | Kind::Parent, more @ ..], _) => values_fit(more, values),
        ([Kind::Word, more @ ..], [Value::Word(_), others @ ..]) => values_fit(more, others),
        ([Kind::Text, more @ ..], [Value::Text(_), others @ ..]) => values_fit(more, others),
        _ => false,
    }
}
