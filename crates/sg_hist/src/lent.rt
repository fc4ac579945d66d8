// Entries of a history, lent.
ghost use Rattle.std.specs.Prelude.{◌≡◌, ◌↔◌, IfOk, IsTrue};
ghost use Rattle.sg_facts.specs.sg_base.Lent.{record_in};
ghost use Rattle.sg_hist.specs.Inside.Entries.{entry_of};
ghost use Rattle.sg_hist.specs.Lent.{entry_in};

use sg_facts::{Entry, Lent, LentCall, LentReply, NoMemory};
use std::alloc::Global;

/// A call with its reply, lent.
#[derive(Clone, Copy, Debug)]
pub struct LentEntry<'a> {
    pub call: LentCall<'a>,
    pub reply: LentReply<'a>,
}

impl<'a> LentEntry<'a> {
    /// An entry that is owned, lent.
    pub fn of(entry: &'a Entry) -> LentEntry<'a>
        ensures { entry_in result ≡ entry.now }
    {
        LentEntry {
            call: LentCall::of(&entry.call),
            reply: LentReply::of(&entry.reply),
        }
    }

    /// The entry of a record, lent.
    pub(crate) fn of_record(kept: Lent<'a, Entry>) -> LentEntry<'a>
        ensures { entry_in result ≡ entry_of (record_in kept.entry) }
    {
        match kept {
            Lent::Brief(lent) => LentEntry {
                call: LentCall::in_brief(&lent.brief, lent.args),
                reply: LentReply::in_brief(&lent.brief.gave, lent.words),
            },
            Lent::Whole(entry) => LentEntry::of(entry),
        }
    }

    /// Whether it is the same entry as another.
    pub fn is_same(&self, other: &LentEntry) -> bool
        ensures { IsTrue result ↔ (entry_in self.now ≡ entry_in other.now) }
    {
        self.call.is_same(&other.call) && self.reply.is_same(&other.reply)
    }

    /// An equal entry.
    pub fn copied(&self, alloc: Global) -> Result<Entry, NoMemory>
        ensures { IfOk result (λ entry. entry ≡ entry_in self.now) }
    {
        Ok(Entry {
            call: self.call.copied(alloc)?,
            reply: self.reply.copied(alloc)?,
        })
    }
}
