// Room for what one item holds.
ghost use Rattle.std.specs.Prelude.{◌≡◌, ◌≤◌, OnOk};
ghost use Rattle.sg_facts.specs.Limits.{most_path, most_written};
ghost use Rattle.sg_boot.specs.Inside.Rooms.{FitsItemRoom, FitsPatchRoom};

use sg_facts::{MOST_PATH, MOST_WRITTEN, NoMemory, Outcome, Patch, SpareList, SpareReply};
use std::alloc::Global;

/// Room for the outcome of one item after another: 4 words, a key, and two lists of 256 bytes. What an outcome has of these uses up its
/// part of it.
#[derive(Debug, Drop)]
pub(crate) struct ItemRoom {
    pub(crate) reply: SpareReply,
    pub(crate) key: SpareList<u8>,
    pub(crate) bytes: SpareList<u8>,
}

impl ItemRoom {
    ghost use Rattle.sg_boot.specs.Inside.Spare.{HasItemRoom};

    /// No room yet. It takes no memory.
    pub(crate) fn new(alloc: Global) -> ItemRoom {
        ItemRoom {
            reply: SpareReply::new(alloc),
            key: SpareList::new(alloc),
            bytes: SpareList::new(alloc),
        }
    }

    /// Takes the memory for one outcome, where it isn't there.
    pub(crate) fn reserve(&mut self, alloc: Global) -> Result<(), NoMemory>
        ensures { OnOk result (HasItemRoom self.new) }
    {
        self.reply.reserve(alloc)?;
        self.key.reserve(alloc, MOST_PATH)?;
        self.bytes.reserve(alloc, MOST_WRITTEN)?;
        Ok(())
    }

    /// An equal outcome, without memory.
    pub(crate) fn fill(&mut self, from: &Outcome) -> Outcome
        requires room { HasItemRoom self.old }
        requires fits { FitsItemRoom from.now }
        ensures { result ≡ from.now }
    {
        match from {
            Outcome::Replied { reply, patch } => Outcome::Replied {
                reply: self.reply.fill(reply),
                patch: filled(&mut self.key, &mut self.bytes, patch),
            },
            Outcome::Blocks => Outcome::Blocks,
            Outcome::Stopped => Outcome::Stopped,
            Outcome::NoMemory => Outcome::NoMemory,
        }
    }
}

// An equal patch, where there is one.
fn filled(key: &mut SpareList<u8>, bytes: &mut SpareList<u8>, from: &Option<Patch>) -> Option<Patch>
    requires key { most_path ≤ key.old }
    requires bytes { most_written ≤ bytes.old }
    requires fits { FitsPatchRoom from.now }
    ensures { result ≡ from.now }
{
    match from {
        Some(patch) => Some(Patch {
            key: key.fill(patch.key.as_slice()),
            from: patch.from,
            bytes: bytes.fill(patch.bytes.as_slice()),
        }),
        None => None,
    }
}
