// Calls and replies.
ghost use Rattle.std.specs.Prelude.{◌≡◌, []};
ghost use Rattle.test_histories.specs.Written.{call_of, ok_at};

use std::alloc::Global;
use test_tables::facts::{Args, Bytes, Call, Good, Reply, Words};

/// A client's call of a function, without arguments.
pub(crate) fn call(alloc: Global, client: u8, seq: u32, fun: u8, desc: u64) -> Call
    ensures { result ≡ call_of client seq fun desc [] }
{
    Call {
        client,
        seq,
        fun,
        desc,
        args: Args::new(alloc),
    }
}

/// An Ok with a descriptor, 0 for none.
pub(crate) fn done(alloc: Global, desc: u64) -> Reply
    ensures { result ≡ ok_at desc }
{
    Reply::Ok(Good {
        desc,
        words: Words::new(alloc),
        bytes: Bytes::new(alloc),
    })
}
