// What a play over several services came to.
use crate::Ended;
use sg_facts::{Call, ListOf};
use std::marker::Model;

/// How a client ended, over all members.
#[derive(Debug, PartialEq, Eq, Drop)]
pub enum MultiEnd {
    /// All its calls were answered.
    Done,
    /// It waits in this call of the member of this number, from 1.
    Blocked { member: u8, call: Call },
}

/// Numbers of members, from 1.
pub type MemberList = ListOf<u8>;
/// What the runs of members came to, in the order of the members.
pub type EndedList = ListOf<Ended>;
/// Clients with their ends, in ascending numbers.
pub type MultiEndList = ListOf<(u8, MultiEnd)>;

/// What a play over several services came to. Only a play makes one. Contracts see it as plain data.
#[derive(Debug, Drop)]
pub struct MultiEnded {
    order: MemberList,
    members: EndedList,
    ends: MultiEndList,
}

impl Model for MultiEnded {
    ghost use Rattle.sg_multi.specs.Played.{MultiCame};

    ghost Value = { MultiCame };

    ghost view = { λ ended. record { order = ended.order; members = ended.members; ends = ended.ends } };
}

impl MultiEnded {
    ghost use Rattle.std.specs.Prelude.{◌≡◌};

    // What a play came to.
    pub(crate) fn new(order: MemberList, members: EndedList, ends: MultiEndList) -> MultiEnded
        ensures { result ≡ record { order = order; members = members; ends = ends } }
    {
        MultiEnded {
            order,
            members,
            ends,
        }
    }

    /// The member of each entry, from 1, in the order of the commits, lent.
    pub fn order(&self) -> &MemberList
        ensures { result.now ≡ self.now.order }
    {
        &self.order
    }

    /// What each member's run came to, in the order of the members, lent. There a client that waits in a call of another member is done.
    pub fn members(&self) -> &EndedList
        ensures { result.now ≡ self.now.members }
    {
        &self.members
    }

    /// How each client with a call ended, over all members, lent.
    pub fn ends(&self) -> &MultiEndList
        ensures { result.now ≡ self.now.ends }
    {
        &self.ends
    }
}
