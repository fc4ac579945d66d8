// What a client gets back.
ghost use Rattle.std.specs.Prelude.{◌≡◌, ◌≤◌, IfOk};
ghost use Rattle.sg_base.specs.Codes.{code_name};

use crate::{Bytes, ListRoom, NoMemory, TryCopy, Words};
use std::alloc::Global;

/// The greatest number of words of a reply.
pub const MOST_REPLY_WORDS: usize = 4;

/// The greatest number of bytes of a reply.
pub(crate) const MOST_BYTES: usize = 256;

/// What a call that was done gives: a descriptor (0 for none), words and bytes.
#[derive(Debug, PartialEq, Eq, Drop)]
pub struct Good {
    pub desc: u64,
    pub words: Words,
    pub bytes: Bytes,
}

/// The reply to a call.
#[derive(Debug, PartialEq, Eq, Drop)]
pub enum Reply {
    Ok(Good),
    Refused(Code),
}

/// Why a call was refused. The first five come from the guard, which looks at the tracked rows alone; the others
/// from a service.
#[derive(Clone, Copy, Debug, PartialEq, Eq)]
pub enum Code {
    /// No live descriptor has the id.
    NoDesc = 1,
    /// No live descriptor that may be the parent has the id.
    NoParent = 2,
    /// The function may not be called in the descriptor's state.
    BadState = 3,
    /// The descriptor has live children.
    HasChildren = 4,
    /// As many descriptors as may be are live.
    Full = 5,
    /// Another client owns the descriptor.
    NotOwner = 6,
    /// The descriptor is owned.
    Held = 7,
    /// The place is taken.
    Occupied = 8,
    /// Nothing was found.
    NotFound = 9,
    /// The count would pass its greatest number.
    Overflow = 10,
    /// The place is after the end of the file.
    Gap = 11,
    /// The number of bytes, or the place, is above its limit.
    TooBig = 12,
    /// The name is empty, too long, or has a slash.
    BadName = 13,
}

impl Code {
    /// Its name, as a printed run has it.
    pub fn name(self) -> &'static [u8]
        ensures { result.now ≡ code_name self }
    {
        match self {
            Code::NoDesc => b"NoDesc",
            Code::NoParent => b"NoParent",
            Code::BadState => b"BadState",
            Code::HasChildren => b"HasChildren",
            Code::Full => b"Full",
            Code::NotOwner => b"NotOwner",
            Code::Held => b"Held",
            Code::Occupied => b"Occupied",
            Code::NotFound => b"NotFound",
            Code::Overflow => b"Overflow",
            Code::Gap => b"Gap",
            Code::TooBig => b"TooBig",
            Code::BadName => b"BadName",
        }
    }
}

impl TryCopy for Good {
    fn copy(&self, alloc: Global) -> Result<Self, NoMemory> {
        Ok(Good {
            desc: self.desc,
            words: self.words.copy(alloc)?,
            bytes: self.bytes.copy(alloc)?,
        })
    }
}

impl TryCopy for Reply {
    fn copy(&self, alloc: Global) -> Result<Self, NoMemory> {
        match self {
            Reply::Ok(good) => Ok(Reply::Ok(good.copy(alloc)?)),
            Reply::Refused(code) => Ok(Reply::Refused(*code)),
        }
    }
}

/// Room for a reply of at most 4 words and 256 bytes, which is used up when the reply is made.
#[derive(Debug, Drop)]
pub struct ReplyRoom {
    pub words: ListRoom<u64>,
    pub bytes: ListRoom<u8>,
    ghost words_fit: { 4 ≤ words },
    ghost bytes_fit: { 256 ≤ bytes },
}

impl Reply {
    /// Room for a reply, taken ahead so that a copy of it needs no memory later.
    pub fn room(alloc: Global) -> Result<ReplyRoom, NoMemory>
        ensures words { IfOk result (λ room. 4 ≤ room.words) }
        ensures bytes { IfOk result (λ room. 256 ≤ room.bytes) }
    {
        Ok(ReplyRoom {
            words: ListRoom::new(alloc, MOST_REPLY_WORDS)?,
            bytes: ListRoom::new(alloc, MOST_BYTES)?,
        })
    }
}

impl ReplyRoom {
    ghost use Rattle.sg_base.specs.Reply.{FitsReplyRoom};

    /// An equal reply, without memory.
    pub fn fill(self, from: &Reply) -> Reply
        requires { FitsReplyRoom from.now }
        ensures { result ≡ from.now }
    {
        match from {
            Reply::Ok(good) => Reply::Ok(Good {
                desc: good.desc,
                words: self.words.fill_words(good.words.as_slice()),
                bytes: self.bytes.fill(good.bytes.as_slice()),
            }),
            Reply::Refused(code) => Reply::Refused(*code),
        }
    }
}
