// Calls and replies.
ghost use Rattle.std.specs.Prelude.{◌≡◌, map, IfOk};
ghost use Rattle.test_tables.specs.sg_facts.sg_base.declared.value.Value.TheVariants.{Word};
ghost use Rattle.test_histories.specs.Written.{ok_at};
ghost use Rattle.test_tracker.specs.Answered.{asked};

use std::alloc::Global;
use test_tables::facts::{Args, Bytes, Call, Good, NoMemory, Reply, Value, Words};

/// A client's call of a function, with words.
pub(crate) fn call(
    alloc: Global,
    client: u8,
    fun: u8,
    desc: u64,
    words: &[u64],
) -> Result<Call, NoMemory>
    ensures { IfOk result (λ call. call ≡ asked client fun desc (map (λ n. Word n) words.now)) }
{
    let mut args = Args::new(alloc);
    'words: for word in words {
        args.push(Value::Word(*word))?;
    }
    Ok(Call {
        client,
        seq: 1,
        fun,
        desc,
        args,
    })
}

/// An Ok with a descriptor, 0 for none.
pub(crate) fn done(alloc: Global, desc: u64) -> Reply
    ensures { result ≡ ok_at desc }
{
    Reply::Ok(Good {
        desc,
        words: Words::new(alloc),
        bytes: Bytes::new(alloc),
    })
}
