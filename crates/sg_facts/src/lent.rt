// Items of a trace, lent.
ghost use Rattle.std.specs.Prelude.{◌≡◌, None};
ghost use Rattle.sg_facts.specs.Lent.{item_in, outcome_in, tag_in};
ghost use Rattle.sg_facts.specs.Inside.Items.{item_of, outcome_of, tag_of};
ghost use Rattle.sg_facts.specs.declared.outcome.Outcome.TheVariants.{Replied};
ghost use Rattle.sg_base.specs.Lent.{record_in, reply_in};
ghost use Rattle.sg_base.specs.Records.{InBrief};

use crate::kept::Kept;
use crate::{Item, Outcome, Patch, Tag};
use sg_base::{Gave, Lent, LentBrief, LentCall, LentReply, Why};

/// Why the service was asked, lent.
#[derive(Clone, Copy, Debug)]
pub enum LentTag<'a> {
    Walk { id: u64, k: u8, client: u8 },
    Load { key: &'a [u8], client: u8 },
    Client { client: u8, seq: u32 },
}

/// What asking a service gave, lent.
#[derive(Clone, Copy, Debug)]
pub enum LentOutcome<'a> {
    Replied {
        reply: LentReply<'a>,
        patch: Option<&'a Patch>,
    },
    Blocks,
    Stopped,
    NoMemory,
}

/// One asking of the service, lent.
#[derive(Clone, Copy, Debug)]
pub struct LentItem<'a> {
    pub tag: LentTag<'a>,
    pub shown: LentCall<'a>,
    pub real: u64,
    pub points: u64,
    pub outcome: LentOutcome<'a>,
}

impl<'a> LentItem<'a> {
    /// An item that is owned, lent.
    pub fn of(item: &'a Item) -> LentItem<'a>
        ensures { item_in result ≡ item.now }
    {
        LentItem {
            tag: LentTag::of(&item.tag),
            shown: LentCall::of(&item.shown),
            real: item.real,
            points: item.points,
            outcome: LentOutcome::of(&item.outcome),
        }
    }

    /// The item of a record, lent.
    pub(crate) fn of_record(kept: Lent<'a, Kept>) -> LentItem<'a>
        ensures { item_in result ≡ item_of (record_in kept.entry) }
    {
        match kept {
            Lent::Brief(brief) => LentItem::in_brief(brief),
            Lent::Whole(Kept::Item(item)) => LentItem::of(item),
            Lent::Whole(Kept::Load(load)) => load.lent(),
        }
    }

    // The item of a record in brief, lent.
    fn in_brief(kept: LentBrief<'a>) -> LentItem<'a>
        ensures { item_in result ≡ item_of (InBrief kept.entry.brief kept.entry.args.now kept.entry.words.now) }
    {
        let brief = kept.brief;
        LentItem {
            tag: LentTag::in_brief(&brief.why, brief.client, brief.seq),
            shown: LentCall::in_brief(&brief, kept.args),
            real: brief.real,
            points: brief.points,
            outcome: LentOutcome::in_brief(&brief.gave, kept.words),
        }
    }
}

impl<'a> LentTag<'a> {
    // A tag that is owned, lent.
    fn of(tag: &'a Tag) -> LentTag<'a>
        ensures { tag_in result ≡ tag.now }
    {
        match tag {
            Tag::Walk { id, k, client } => LentTag::Walk {
                id: *id,
                k: *k,
                client: *client,
            },
            Tag::Load { key, client } => LentTag::Load {
                key: key.as_slice(),
                client: *client,
            },
            Tag::Client { client, seq } => LentTag::Client {
                client: *client,
                seq: *seq,
            },
        }
    }

    // The tag of a record in brief, whose call has this client and this number.
    fn in_brief(why: &Why, client: u8, seq: u32) -> LentTag<'a>
        ensures { tag_in result ≡ tag_of why.now client seq }
    {
        match why {
            Why::Own => LentTag::Client { client, seq },
            Why::Walk { id, k, turn } => LentTag::Walk {
                id: *id,
                k: *k,
                client: *turn,
            },
        }
    }
}

impl<'a> LentOutcome<'a> {
    // An outcome that is owned, lent.
    fn of(outcome: &'a Outcome) -> LentOutcome<'a>
        ensures { outcome_in result ≡ outcome.now }
    {
        match outcome {
            Outcome::Replied { reply, patch } => LentOutcome::Replied {
                reply: LentReply::of(reply),
                patch: patch.as_ref(),
            },
            Outcome::Blocks => LentOutcome::Blocks,
            Outcome::Stopped => LentOutcome::Stopped,
            Outcome::NoMemory => LentOutcome::NoMemory,
        }
    }

    // The outcome of a record in brief, with the words of its reply.
    fn in_brief(gave: &Gave, words: &'a [u64]) -> LentOutcome<'a>
        ensures { outcome_in result ≡ outcome_of gave.now words.now }
    {
        match gave {
            Gave::Blocks => LentOutcome::Blocks,
            Gave::Stopped => LentOutcome::Stopped,
            Gave::NoMemory => LentOutcome::NoMemory,
            Gave::Good { .. } => LentOutcome::replied(LentReply::in_brief(gave, words)),
            Gave::Refused(_) => LentOutcome::replied(LentReply::in_brief(gave, words)),
        }
    }

    // A reply, with nothing written.
    fn replied(reply: LentReply<'a>) -> LentOutcome<'a>
        ensures { outcome_in result ≡ Replied (reply_in reply.entry) None }
    {
        LentOutcome::Replied { reply, patch: None }
    }
}
