//! Meetings.
use ent_meetings::{Party, Pattern};

/// A script, by its place in the input, from 0, with what it offers and demands.
#[derive(Drop)]
pub(crate) struct MeetingMember {
    pub(crate) script: usize,
    pub(crate) party: Party,
}

/// Scripts of which each demand may be met by one of them, in order.
#[derive(Drop)]
pub(crate) struct Meeting {
    pub(crate) members: Vec<MeetingMember>,
}

impl Meeting {
    pub(crate) fn len(&self) -> usize {
        self.members.len()
    }

    /// Whether an offer of the one may meet a demand of the other.
    pub(crate) fn may_meet(&self, other: &Meeting) -> bool {
        self.may_serve(other) || other.may_serve(self)
    }

    /// Whether an offer of this one may meet a demand of another.
    fn may_serve(&self, other: &Meeting) -> bool {
        other.members.iter().any(|member| member
            .party
            .demands
            .iter()
            .any(|demand| self.offers(demand)))
    }

    fn offers(&self, demand: &Pattern) -> bool {
        self.members
            .iter()
            .any(|member| member.party.offers(demand))
    }
}
