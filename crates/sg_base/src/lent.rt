// Calls, replies and records, lent.
ghost use Rattle.std.specs.Prelude.{◌≡◌, IfOk, map};
ghost use Rattle.sg_base.specs.declared.value.Value.TheVariants.{Word as IsWord};
ghost use Rattle.sg_base.specs.Lent.{call_in, reply_in};
ghost use Rattle.sg_base.specs.Records.{call_of, reply_of};

use crate::{
    Args, Brief, Bytes, Call, Code, Gave, Good, LentArgs, NoMemory, Reply, TryCopy, Value, Words,
};
use std::alloc::Global;

/// A call, lent.
#[derive(Clone, Copy, Debug)]
pub struct LentCall<'a> {
    pub client: u8,
    pub seq: u32,
    pub fun: u8,
    pub desc: u64,
    pub args: LentArgs<'a>,
}

/// What a call that was done gives, lent.
#[derive(Clone, Copy, Debug)]
pub struct LentGood<'a> {
    pub desc: u64,
    pub words: &'a [u64],
    pub bytes: &'a [u8],
}

/// The reply to a call, lent.
#[derive(Clone, Copy, Debug)]
pub enum LentReply<'a> {
    Ok(LentGood<'a>),
    Refused(Code),
}

/// A call in brief, with the words of its arguments and of its reply, lent.
#[derive(Clone, Copy, Debug)]
pub struct LentBrief<'a> {
    pub brief: Brief,
    pub args: &'a [u64],
    pub words: &'a [u64],
}

/// A record, lent: in brief, or whole as it was added.
#[derive(Debug, Drop)]
pub enum Lent<'a, W> {
    Brief(LentBrief<'a>),
    Whole(&'a W),
}

impl<'a> LentCall<'a> {
    /// A call that is owned, lent.
    pub fn of(call: &'a Call) -> LentCall<'a>
        ensures { call_in result ≡ call.now }
    {
        LentCall {
            client: call.client,
            seq: call.seq,
            fun: call.fun,
            desc: call.desc,
            args: call.args.lent(),
        }
    }

    /// The call of a record in brief, with the words of its arguments.
    pub fn in_brief(brief: &Brief, args: &'a [u64]) -> LentCall<'a>
        ensures { call_in result ≡ call_of brief.now args.now }
    {
        LentCall {
            client: brief.client,
            seq: brief.seq,
            fun: brief.fun,
            desc: brief.desc,
            args: LentArgs::Words(args),
        }
    }

    /// An equal call.
    pub fn copied(&self, alloc: Global) -> Result<Call, NoMemory>
        ensures { IfOk result (λ call. call ≡ call_in self.now) }
    {
        Ok(Call {
            args: match self.args {
                LentArgs::Words(words) => args_of_words(alloc, words)?,
                LentArgs::Values(values) => args_of_values(alloc, values)?,
            },
            client: self.client,
            seq: self.seq,
            fun: self.fun,
            desc: self.desc,
        })
    }
}

impl<'a> LentReply<'a> {
    /// A reply that is owned, lent.
    pub fn of(reply: &'a Reply) -> LentReply<'a>
        ensures { reply_in result ≡ reply.now }
    {
        match reply {
            Reply::Ok(good) => LentReply::Ok(LentGood {
                desc: good.desc,
                words: good.words.as_slice(),
                bytes: good.bytes.as_slice(),
            }),
            Reply::Refused(code) => LentReply::Refused(*code),
        }
    }
    /// The reply of a record in brief, with its words.
    pub fn in_brief(gave: &Gave, words: &'a [u64]) -> LentReply<'a>
        ensures { reply_in result ≡ reply_of gave.now words.now }
    {
        match gave {
            Gave::Good { desc } => LentReply::Ok(LentGood {
                desc: *desc,
                words,
                bytes: &[],
            }),
            Gave::Refused(code) => LentReply::Refused(*code),
            _ => LentReply::Refused(Code::NoDesc),
        }
    }

    /// An equal reply.
    pub fn copied(&self, alloc: Global) -> Result<Reply, NoMemory>
        ensures { IfOk result (λ reply. reply ≡ reply_in self.now) }
    {
        match self {
            LentReply::Ok(good) => Ok(Reply::Ok(Good {
                desc: good.desc,
                words: Words::from_slice(alloc, good.words)?,
                bytes: Bytes::from_slice(alloc, good.bytes)?,
            })),
            LentReply::Refused(code) => Ok(Reply::Refused(*code)),
        }
    }
}

// The arguments that are these words.
fn args_of_words(alloc: Global, words: &[u64]) -> Result<Args, NoMemory>
    ensures { IfOk result (λ args. args ≡ map IsWord words.now) }
{
    let mut args = Args::new(alloc);
    for word in words {
        args.push(Value::Word(*word))?;
    }
    Ok(args)
}

// Equal arguments.
fn args_of_values(alloc: Global, values: &[Value]) -> Result<Args, NoMemory>
    ensures { IfOk result (λ args. args ≡ values.now) }
{
    let mut args = Args::new(alloc);
    for value in values {
        args.push(value.copy(alloc)?)?;
    }
    Ok(args)
}
