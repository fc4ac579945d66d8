// Which calls and replies can be kept in brief.
ghost use Rattle.std.specs.Prelude.{◌≡◌, ◌↔◌, IfSome, IsSome, IsTrue, map};
ghost use Rattle.sg_base.specs.declared.value.Value.TheVariants.{Word};
ghost use Rattle.sg_base.specs.Records.{FitsBrief, IsBriefCall, IsBriefReply, word_of, words_of};

use crate::records::MOST_ARGS;
use crate::reply::MOST_REPLY_WORDS;
use crate::{Args, Call, Gave, LentArgs, Reply, Value};

/// Whether a call can be kept in brief: it has at most 4 arguments, all of them words.
pub fn is_brief_call(call: &Call) -> bool
    ensures { IsTrue result ↔ IsBriefCall call.now }
{
    call.args.len() <= MOST_ARGS && are_words(&call.args)
}

/// What a reply gives, in brief; None exactly for one with bytes or with more than 4 words.
pub fn gave_of(reply: &Reply) -> Option<Gave>
    ensures gave { IfSome result (λ gave. IsBriefReply gave reply.now) }
    ensures fits { IsSome result ↔ FitsBrief reply.now }
{
    match reply {
        Reply::Ok(good) => {
            if good.bytes.is_empty() && good.words.len() <= MOST_REPLY_WORDS {
                Some(Gave::Good { desc: good.desc })
            } else {
                None
            }
        }
        Reply::Refused(code) => Some(Gave::Refused(*code)),
    }
}

/// The words of a reply, lent; a refusal has none.
pub fn reply_words(reply: &Reply) -> &[u64]
    ensures { result.now ≡ words_of reply.now }
{
    match reply {
        Reply::Ok(good) => good.words.as_slice(),
        Reply::Refused(_) => &[],
    }
}

// Whether all arguments are words.
fn are_words(args: &Args) -> bool
    ensures { IsTrue result ↔ (map Word (map word_of args.now) ≡ args.now) }
{
    match args.lent() {
        LentArgs::Words(_) => true,
        LentArgs::Values(values) => are_word_values(values),
    }
}

// Whether all values are words.
fn are_word_values(values: &[Value]) -> bool
    ensures { IsTrue result ↔ (map Word (map word_of values.now) ≡ values.now) }
{
    match values {
        [] => true,
        [Value::Word(_), rest @ ..] => are_word_values(rest),
        [Value::Text(_), ..] => false,
    }
}
