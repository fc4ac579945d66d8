// Of which kinds items are.
ghost use Rattle.std.specs.Prelude.{◌≡◌};
ghost use Rattle.sg_facts.specs.ItemKinds.{is_replay_kind, item_kind, outcome_kind, tag_kind};
ghost use Rattle.sg_facts.specs.Lent.{item_in, outcome_in, tag_in};

use crate::{LentItem, LentOutcome, LentTag};
use sg_base::GaveKind;

/// Of which kind a tag is: for what the service was asked, and not for whom.
#[derive(Clone, Copy, Debug, PartialEq, Eq)]
pub enum TagKind {
    Walk,
    Load,
    Client,
}

/// Of which kind an item is: for what the service was asked, and of which kind is what it gave.
#[derive(Clone, Copy, Debug, PartialEq, Eq)]
pub struct ItemKind {
    pub tag: TagKind,
    pub gave: GaveKind,
}

impl ItemKind {
    /// Whether it is that of a call of a walk that the service replied to.
    pub fn is_replay(&self) -> bool
        ensures { result ≡ is_replay_kind self.now }
    {
        matches!(self.tag, TagKind::Walk) && matches!(self.gave, GaveKind::Replied)
    }
}

impl<'a> LentItem<'a> {
    /// Of which kind it is.
    pub fn kind(&self) -> ItemKind
        ensures { result ≡ item_kind (item_in self.now) }
    {
        ItemKind {
            tag: self.tag.kind(),
            gave: self.outcome.kind(),
        }
    }
}

impl<'a> LentTag<'a> {
    // Of which kind it is.
    fn kind(&self) -> TagKind
        ensures { result ≡ tag_kind (tag_in self.now) }
    {
        match self {
            LentTag::Walk { .. } => TagKind::Walk,
            LentTag::Load { .. } => TagKind::Load,
            LentTag::Client { .. } => TagKind::Client,
        }
    }
}

impl<'a> LentOutcome<'a> {
    // Of which kind it is.
    fn kind(&self) -> GaveKind
        ensures { result ≡ outcome_kind (outcome_in self.now) }
    {
        match self {
            LentOutcome::Replied { .. } => GaveKind::Replied,
            LentOutcome::Blocks => GaveKind::Blocks,
            LentOutcome::Stopped => GaveKind::Stopped,
            LentOutcome::NoMemory => GaveKind::NoMemory,
        }
    }
}
